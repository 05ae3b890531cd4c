//! Rows as CSV.
ghost use Rattle.std.specs.Prelude.{◌≡◌, map, take, All, IfOk};
ghost use Rattle.csv.specs.Writing.{row_text};
ghost use Rattle.terminal_messages.specs.Shown.{shown_message};
ghost use Rattle.message_rows.specs.Texts.{field_told, fields_told, IsShortField};
ghost use Rattle.message_rows.specs.inner.Table.{rows_writer};

use crate::commands::MessageCommands;
use crate::field::{Field, texts_of};
use crate::text::{bus_name, count_of, end_name, form_name, why};
use csv::{Terminator, WriterBuilder};
use std::alloc::{AllocError, Global};
use terminal_messages::KeptMessage;

/// How many columns there are.
pub const NAMED: usize = 17;

/// How many there are without names.
pub const NAMELESS: usize = 16;

/// The columns; the last one where there are names.
const ROW_COLUMNS: [&[u8]; NAMED] = [
    b"number",
    b"line",
    b"bus",
    b"kind",
    b"address",
    b"subaddress",
    b"code",
    b"words",
    b"command",
    b"transmitter",
    b"ended",
    b"why",
    b"data",
    b"status",
    b"bits",
    b"handed",
    b"name",
];

/// The bytes of a record.
fn record(alloc: Global, fields: &[&[u8]]) -> Result<Vec<u8>, AllocError>
    ensures { IfOk result (λ bytes. bytes.items ≡ row_text rows_writer (map (λ f. f.now) fields.now)) }
{
    let mut writer = WriterBuilder::new()
        .terminator(Terminator::CRLF)
        .from_writer(Vec::new(alloc));
    if writer.write_fields(fields).is_err() {
        return Err(AllocError);
    }
    match writer.into_inner() {
        Ok(bytes) => Ok(bytes),
        Err(_) => Err(AllocError),
    }
}

/// The header of the table, with CR and LF behind it: with a last column for the names of messages, where there are names.
pub fn rows_header(alloc: Global, with_names: bool) -> Result<Vec<u8>, AllocError> {
    if with_names {
        record(alloc, &ROW_COLUMNS)
    } else {
        record(alloc, &ROW_COLUMNS[..NAMELESS])
    }
}

/// The fields of a message, with its name.
pub fn fields_of<'a>(message: &'a KeptMessage, name: Option<&'a str>) -> [Field<'a>; NAMED]
    ensures fields { map field_told (take 16 result) ≡ fields_told (shown_message message.now) }
    ensures short { All IsShortField (take 16 result) }
{
    let commands = MessageCommands::of(message);
    let command = commands.command;
    let code = command.is_mode().then_some(command.code());
    let transmitter = commands.transmitter.map(|command| command.bits());
    [
        Field::Number(message.number),
        Field::Number(message.place),
        Field::Text(Some(bus_name(message.state.bus))),
        Field::Text(Some(form_name(commands.form()))),
        Field::Address(command.address()),
        Field::Small(Some(command.subaddress())),
        Field::Small(code),
        Field::Small(count_of(command)),
        Field::Digits(Some(command.bits())),
        Field::Digits(transmitter),
        Field::Text(Some(end_name(message.state.end))),
        Field::Text(why(message)),
        Field::Words(message),
        Field::Digits(message.state.status),
        Field::Bits(message.state.status),
        Field::Handed(&message.handed),
        Field::Text(name),
    ]
}

/// A message as a row of the table, with CR and LF behind it: with its name in a last column, where there are names.
pub fn row_record(
    alloc: Global,
    message: &KeptMessage,
    name: Option<&str>,
) -> Result<Vec<u8>, AllocError> {
    let fields = fields_of(message, name);
    let count = if name.is_some() { NAMED } else { NAMELESS };
    let cells = texts_of(alloc, &fields[..count])?;
    let mut fields = Vec::new(alloc);
    for cell in cells.as_slice() {
        fields.push(cell.as_str().as_bytes())?;
    }
    record(alloc, fields.as_slice())
}
