//! Rows as JSON.
use crate::commands::MessageCommands;
use crate::field::Field;
use crate::status::{STATUS_BITS, is_bit_set, status_bit};
use crate::text::{bus_name, count_of, end_name, form_name, why};
use bus_terminal::CopiedAnswer;
use bus_word::{Command, mode_name};
use serde::{Described, Serialize, Serializer};
use std::alloc::Global;
use terminal_messages::KeptMessage;

/// A message, and its name, null for none; left out where there are no names.
#[derive(Clone, Copy)]
struct RowJson<'a> {
    message: &'a KeptMessage,
    name: Option<Option<&'a str>>,
}

/// Writes the words as a list.
fn write_words<S: Serializer>(out: &mut S, words: &[u16]) -> Result<(), S::Error> {
    out.begin_seq(None)?;
    for word in words {
        out.collect_str(&Field::Digits(Some(*word)))?;
    }
    out.end_seq()
}

/// Writes the bits of a status word that are set as a list.
fn write_bits<S: Serializer>(out: &mut S, status: Option<u16>) -> Result<(), S::Error> {
    let word = status.unwrap_or(0);
    out.begin_seq(None)?;
    for index in 0..STATUS_BITS {
        let (place, name) = status_bit(index);
        if is_bit_set(word, place) {
            out.str(name)?;
        }
    }
    out.end_seq()
}

/// Writes a field: a number, a list, a text, or null where there is none.
fn write_field<S: Serializer>(out: &mut S, field: &Field<'_>) -> Result<(), S::Error> {
    match *field {
        Field::Number(number) => out.u64(number),
        Field::Small(Some(number)) => out.u64(u64::from(number)),
        Field::Text(Some(text)) => out.str(text),
        Field::Small(None)
        | Field::Text(None)
        | Field::Digits(None)
        | Field::Handed(CopiedAnswer::Silent) => out.unit(),
        Field::Words(message) => write_words(out, message.words.as_slice()),
        Field::Bits(status) => write_bits(out, status),
        _ => out.collect_str(field),
    }
}

/// Writes members of an object.
fn write_members<S: Serializer>(
    out: &mut S,
    members: &[(&str, Field<'_>)],
) -> Result<(), S::Error> {
    for (key, field) in members {
        out.key(key)?;
        write_field(out, field)?;
    }
    Ok(())
}

/// Writes a command: its word and the fields of it. Null where there is none.
fn write_command<S: Serializer>(out: &mut S, command: Option<Command>) -> Result<(), S::Error> {
    let Some(command) = command else {
        return out.unit();
    };
    let is_mode = command.is_mode();
    out.begin_map(None)?;
    write_members(
        out,
        &[
            ("word", Field::Digits(Some(command.bits()))),
            ("address", Field::Small(Some(command.address()))),
            ("subaddress", Field::Small(Some(command.subaddress()))),
            ("count", Field::Small(count_of(command))),
            ("code", Field::Small(is_mode.then_some(command.code()))),
            (
                "mode",
                Field::Text(is_mode.then_some(mode_name(command.code()))),
            ),
        ],
    )?;
    out.end_map()
}

impl Described for RowJson<'_> {}

impl Serialize for RowJson<'_> {
    fn serialize<S: Serializer>(&self, out: &mut S) -> Result<(), S::Error> {
        let message = self.message;
        let commands = MessageCommands::of(message);
        out.begin_map(None)?;
        write_members(
            out,
            &[
                ("number", Field::Number(message.number)),
                ("line", Field::Number(message.place)),
                ("bus", Field::Text(Some(bus_name(message.state.bus)))),
                ("kind", Field::Text(Some(form_name(commands.form())))),
            ],
        )?;
        out.key("command")?;
        write_command(out, Some(commands.command))?;
        out.key("transmitter")?;
        write_command(out, commands.transmitter)?;
        write_members(
            out,
            &[
                ("ended", Field::Text(Some(end_name(message.state.end)))),
                ("why", Field::Text(why(message))),
                ("data", Field::Words(message)),
                ("left_out", Field::Number(message.left_out)),
                ("status", Field::Digits(message.state.status)),
                ("bits", Field::Bits(message.state.status)),
                ("handed", Field::Handed(&message.handed)),
            ],
        )?;
        if let Some(name) = self.name {
            write_members(out, &[("name", Field::Text(name))])?;
        }
        out.end_map()
    }
}

/// A message as one line of JSON, without a line feed; with its name, of which it may have none, where there are names. None where memory
/// runs out.
pub fn row_json(
    alloc: Global,
    message: &KeptMessage,
    name: Option<Option<&str>>,
) -> Option<String> {
    serde_json::to_string(alloc, &RowJson { message, name }).ok()
}
