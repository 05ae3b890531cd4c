//! Rows as the cells of a list for people.
use crate::commands::MessageCommands;
use crate::field::{Field, texts_of};
use crate::text::{bus_name, count_of, form_name};
use std::alloc::{AllocError, Global};
use terminal_messages::KeptMessage;

/// What the cells of a row are, in their order.
pub const CELL_NAMES: [&str; 11] = [
    "bus",
    "kind",
    "RT",
    "subaddress or mode code",
    "words",
    "from",
    "name",
    "ended",
    "data",
    "status",
    "handed over",
];

/// The fields of a message, with its name.
fn fields_of<'a>(message: &'a KeptMessage, name: Option<&'a str>) -> [Field<'a>; 11] {
    let commands = MessageCommands::of(message);
    let command = commands.command;
    [
        Field::Text(Some(bus_name(message.state.bus))),
        Field::Text(Some(form_name(commands.form()))),
        Field::Address(command.address()),
        Field::Place(command),
        Field::Small(count_of(command)),
        Field::Transmitter(commands.transmitter),
        Field::Text(name),
        Field::End(message),
        Field::Words(message),
        Field::Status(message.state.status),
        Field::Handed(&message.handed),
    ]
}

/// The cells of a message, as `CELL_NAMES` says, without its number and that of its line; with its name, where it has one.
pub fn row_cells(
    alloc: Global,
    message: &KeptMessage,
    name: Option<&str>,
) -> Result<Vec<String>, AllocError> {
    texts_of(alloc, &fields_of(message, name))
}
