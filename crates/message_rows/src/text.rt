//! Rows as lines of text.
ghost use Rattle.std.specs.Prelude.{◌≡◌, ◌≤◌, length, IfSome, Some, None, if◌then◌else◌};
ghost use Rattle.std.specs.Option.{option_map};
ghost use Rattle.bus_word.specs.Command.{is_mode, count_of};
ghost use Rattle.script_lines.specs.Transcript.{bus_letter};
ghost use Rattle.message_rows.specs.Texts.{form_name, end_name, cause_name, ignore_name, why, place_number};

use crate::commands::{MessageCommands, MessageForm};
use crate::field::{Field, texts_of};
use bus_word::{Bus, Command};
use message_names::quoted;
use std::alloc::{AllocError, Global};
use terminal_messages::{ErrorCause, IgnoreCause, KeptMessage, MessageEnding, Unsent};

/// The line above the rows.
pub const ROW_HEADER: &str = "number    line bus kind      RT sub words ended\n";

/// The letter of a bus.
pub fn bus_name(bus: Bus) -> &'static str
    ensures text { result.now ≡ bus_letter bus }
    ensures short { length result.now ≤ 1 }
{
    match bus {
        Bus::A => "A",
        Bus::B => "B",
    }
}

/// What a message is called by its form.
pub fn form_name(form: MessageForm) -> &'static str
    ensures text { result.now ≡ form_name form }
    ensures short { length result.now ≤ 8 }
{
    match form {
        MessageForm::Receive => "rx",
        MessageForm::Transmit => "tx",
        MessageForm::Mode => "mode",
        MessageForm::Transfer => "transfer",
    }
}

/// How a message ended, in a word or two.
pub fn end_name(end: MessageEnding) -> &'static str
    ensures text { result.now ≡ end_name end }
    ensures short { length result.now ≤ 10 }
{
    match end {
        MessageEnding::Other => "other",
        MessageEnding::Open => "open",
        MessageEnding::Ignored(_) => "ignored",
        MessageEnding::Superseded => "superseded",
        MessageEnding::InError(_) => "in error",
        MessageEnding::Illegal => "illegal",
        MessageEnding::Busy => "busy",
        MessageEnding::Done => "done",
    }
}

/// Why a message ended in error.
fn cause_name(cause: ErrorCause) -> &'static str
    ensures text { result.now ≡ cause_name cause }
    ensures short { length result.now ≤ 30 }
{
    match cause {
        ErrorCause::WordCount => "wrong word count",
        ErrorCause::InvalidWord => "invalid word or noise",
        ErrorCause::CommandWithin => "command within",
        ErrorCause::GapWithin => "gap within",
        ErrorCause::NoStatus => "no status from the transmitter",
    }
}

/// Why a command starts nothing.
fn ignore_name(cause: IgnoreCause) -> &'static str
    ensures text { result.now ≡ ignore_name cause }
    ensures short { length result.now ≤ 22 }
{
    match cause {
        IgnoreCause::Reply => "during a reply",
        IgnoreCause::NoGap => "no gap after a command",
    }
}

/// Why a message ended so, where there is a reason, or lacks its reply or a part of it.
pub fn why(message: &KeptMessage) -> Option<&'static str>
    ensures text { option_map (λ t. t.now) result ≡ why message.now.state.«end» message.now.state.unsent }
    ensures short { IfSome result (λ t. length t.now ≤ 43) }
{
    match (message.state.end, message.state.unsent) {
        (MessageEnding::InError(cause), _) => Some(cause_name(cause)),
        (MessageEnding::Ignored(cause), _) => Some(ignore_name(cause)),
        (_, Some(Unsent::ShutDown)) => Some("transmitter shut down"),
        (_, Some(Unsent::Dropped)) => Some("reply dropped by a command on the other bus"),
        (_, None) => None,
    }
}

/// The subaddress of a command of data words, or its mode code.
pub fn place_of(command: Command) -> u8
    ensures { result ≡ place_number command }
{
    if command.is_mode() {
        command.code()
    } else {
        command.subaddress()
    }
}

/// The word count of a command of data words.
pub fn count_of(command: Command) -> Option<u8>
    ensures { result ≡ (if is_mode command then None else Some (count_of command)) }
{
    if command.is_mode() {
        None
    } else {
        Some(command.count())
    }
}

/// The fields in the columns of a row.
fn columns_of(message: &KeptMessage) -> [Field<'_>; 8] {
    let commands = MessageCommands::of(message);
    let command = commands.command;
    [
        Field::Number(message.number),
        Field::Number(message.place),
        Field::Text(Some(bus_name(message.state.bus))),
        Field::Text(Some(form_name(commands.form()))),
        Field::Address(command.address()),
        Field::Small(Some(place_of(command))),
        Field::Small(count_of(command)),
        Field::Text(Some(end_name(message.state.end))),
    ]
}

/// Adds the columns of a row.
fn push_columns(text: &mut String, columns: &[String]) -> Result<(), AllocError> {
    if let [number, line, bus, form, address, place, count, end] = columns {
        let (number, line, bus) = (number.as_str(), line.as_str(), bus.as_str());
        let (form, address, place) = (form.as_str(), address.as_str(), place.as_str());
        let (count, end) = (count.as_str(), end.as_str());
        write!(
            text,
            "{number:>6} {line:>7} {bus}   {form:<8} {address:>3} {place:>3} {count:>5} {end}"
        )?;
    }
    Ok(())
}

/// Adds fields, each behind these words, where there is something.
fn push_told(
    alloc: Global,
    text: &mut String,
    fields: &[(&str, Field<'_>)],
) -> Result<(), AllocError> {
    for (front, field) in fields {
        let told = format!(in alloc; "{field}")?;
        if !told.is_empty() {
            write!(text, "{front}{}", told.as_str())?;
        }
    }
    Ok(())
}

/// A message as a line of text, with its line feed; with its name, where it has one.
pub fn row_text(
    alloc: Global,
    message: &KeptMessage,
    name: Option<&str>,
) -> Result<String, AllocError> {
    let mut text = String::new(alloc);
    let columns = texts_of(alloc, &columns_of(message))?;
    push_columns(&mut text, columns.as_slice())?;
    push_told(
        alloc,
        &mut text,
        &[
            (", ", Field::Text(why(message))),
            ("; from ", Field::Transmitter(message.state.second)),
        ],
    )?;
    if let Some(name) = name {
        write!(text, "; {}", quoted(alloc, name)?)?;
    }
    push_told(
        alloc,
        &mut text,
        &[
            ("; data ", Field::Words(message)),
            ("; status ", Field::Status(message.state.status)),
            ("; hand ", Field::Handed(&message.handed)),
        ],
    )?;
    text.push('\n')?;
    Ok(text)
}
