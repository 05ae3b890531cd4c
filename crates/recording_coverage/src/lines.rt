//! The lines of what a recording shows: of each row of legal messages, and of each illegal one that came.
ghost use Rattle.std.specs.Prelude.{◌≡◌, ◌++◌, OnOk, string_bytes};
ghost use Rattle.recording_coverage.specs.Texts.{mode_told, place_told, command_told};

use crate::outcome::OutcomeCounts;
use crate::places::{done_in, total_of, word_counts};
use crate::rows::{CoveredMessage, IllegalMessage, are_none};
use crate::table::CoverageTable;
use bus_legal::Numbers;
use bus_word::{Cell, Command, cell_of, mode_name};
use message_names::{MessageNames, NameList, name_in};
use std::alloc::{AllocError, Global};

/// A line of what a recording shows. All but the names are ASCII.
#[derive(Drop)]
pub struct CoverageLine {
    /// Which messages these are, but for their word counts.
    pub message: String,
    /// What came of them, by their word counts.
    pub outcome: String,
    /// Their names as they are printed, each with a space before it.
    pub names: String,
    /// Whether each of them is legal and was done at least once.
    pub is_done: bool,
}

/// Writes which mode code this is.
fn push_code(text: &mut String, code: u8) -> Result<(), AllocError>
    ensures { OnOk result (string_bytes text.new ≡ string_bytes text.old ++ mode_told code) }
{
    write!(text, "mode code {code}, {}", mode_name(code))
}

/// Writes which messages these are, but for their word counts.
pub fn push_place(text: &mut String, cell: Cell) -> Result<(), AllocError>
    ensures { OnOk result (string_bytes text.new ≡ string_bytes text.old ++ place_told cell) }
{
    match cell {
        Cell::OwnReceive(s, _) => write!(text, "receive {s}"),
        Cell::OwnTransmit(s, _) => write!(text, "transmit {s}"),
        Cell::BroadReceive(s, _) => write!(text, "broadcast receive {s}"),
        Cell::OwnMode(code) => push_code(text, code),
        Cell::BroadMode(code) => {
            text.push_str("broadcast ")?;
            push_code(text, code)
        }
    }
}

/// Writes how often messages came to an outcome, if they did, behind others.
fn push_outcome(
    text: &mut String,
    some: bool,
    count: u64,
    outcome: &str,
) -> Result<bool, AllocError> {
    if count == 0 {
        return Ok(some);
    }
    if some {
        text.push_str(", ")?;
    }
    write!(text, "{count} {outcome}")?;
    Ok(true)
}

/// Writes how often messages came to each outcome, `never` if none came.
fn push_counts(text: &mut String, counts: OutcomeCounts) -> Result<(), AllocError> {
    if are_none(counts) {
        return text.push_str("never");
    }
    let some = push_outcome(text, false, counts.done, "done")?;
    let some = push_outcome(text, some, counts.blocked, "busy")?;
    let some = push_outcome(text, some, counts.illegal, "illegal")?;
    let some = push_outcome(text, some, counts.in_error, "in error")?;
    let some = push_outcome(text, some, counts.superseded, "superseded")?;
    push_outcome(text, some, counts.left_open, "open")?;
    Ok(())
}

/// Writes word counts before what came of their messages.
fn push_numbers(text: &mut String, bits: u32) -> Result<(), AllocError> {
    let numbers = Numbers { bits, first: 1 };
    write!(text, "{numbers}: ")
}

/// Gives what came of messages of data: of those word counts that came, together, and which never did.
fn data_outcome(alloc: Global, messages: &[CoveredMessage]) -> Result<String, AllocError> {
    let mut text = String::new(alloc);
    let come = word_counts(messages, true);
    let never = word_counts(messages, false);
    if come != 0 {
        push_numbers(&mut text, come)?;
        push_counts(&mut text, total_of(messages))?;
    }
    if come != 0 && never != 0 {
        text.push_str("; ")?;
    }
    if never != 0 {
        push_numbers(&mut text, never)?;
        text.push_str("never")?;
    }
    Ok(text)
}

/// Gives what came of the messages of a row.
fn row_outcome(
    alloc: Global,
    cell: Cell,
    messages: &[CoveredMessage],
) -> Result<String, AllocError> {
    match cell {
        Cell::OwnMode(_) | Cell::BroadMode(_) => {
            let mut text = String::new(alloc);
            push_counts(&mut text, total_of(messages))?;
            Ok(text)
        }
        _ => data_outcome(alloc, messages),
    }
}

/// Gives the names of these messages, each once.
fn names_text(
    alloc: Global,
    names: Option<&MessageNames>,
    messages: &[CoveredMessage],
) -> Result<String, AllocError> {
    let mut list = NameList::new(alloc);
    for message in messages {
        list.add(name_in(names, message.cell))?;
    }
    list.text(alloc)
}

/// Gives the line of the row of a message.
fn row_line(
    alloc: Global,
    names: Option<&MessageNames>,
    cell: Cell,
    messages: &[CoveredMessage],
) -> Result<CoverageLine, AllocError> {
    let mut message = String::new(alloc);
    push_place(&mut message, cell)?;
    Ok(CoverageLine {
        message,
        outcome: row_outcome(alloc, cell, messages)?,
        names: names_text(alloc, names, messages)?,
        is_done: done_in(messages) == messages.len(),
    })
}

/// Writes which message a command asks for, but for its word count.
pub fn push_command(text: &mut String, command: Command) -> Result<(), AllocError>
    ensures { OnOk result (string_bytes text.new ≡ string_bytes text.old ++ command_told command) }
{
    if command.is_broadcast() {
        text.push_str("broadcast ")?;
    }
    if command.is_mode() {
        let code = command.code();
        let bit = u8::from(command.transmit());
        return write!(text, "mode code {code} with T/R {bit}, {}", mode_name(code));
    }
    let direction = if command.transmit() {
        "transmit"
    } else {
        "receive"
    };
    write!(text, "{direction} {}", command.subaddress())
}

/// Gives what came of an illegal message.
fn illegal_outcome(alloc: Global, message: &IllegalMessage) -> Result<String, AllocError> {
    let mut text = String::new(alloc);
    if !message.command.is_mode() {
        write!(text, "{}: ", message.command.count())?;
    }
    push_counts(&mut text, message.counts)?;
    Ok(text)
}

/// Gives the name of an illegal message.
fn illegal_name(
    alloc: Global,
    names: Option<&MessageNames>,
    command: Command,
) -> Result<String, AllocError> {
    let mut list = NameList::new(alloc);
    if let Some(cell) = cell_of(command) {
        list.add(name_in(names, cell))?;
    }
    list.text(alloc)
}

/// Gives the line of an illegal message.
fn illegal_line(
    alloc: Global,
    names: Option<&MessageNames>,
    illegal: &IllegalMessage,
) -> Result<CoverageLine, AllocError> {
    let mut message = String::new(alloc);
    push_command(&mut message, illegal.command)?;
    Ok(CoverageLine {
        message,
        outcome: illegal_outcome(alloc, illegal)?,
        names: illegal_name(alloc, names, illegal.command)?,
        is_done: false,
    })
}

/// Gives the lines of the legal messages: one for each row. With the names of messages, where there are names.
pub fn legal_lines(
    alloc: Global,
    table: &CoverageTable,
    names: Option<&MessageNames>,
) -> Result<Vec<CoverageLine>, AllocError> {
    let rows = table.rows(alloc)?;
    let mut lines = Vec::new(alloc);
    for row in rows.as_slice() {
        if let Some(first) = row.messages.first() {
            lines.push(row_line(alloc, names, first.cell, row.messages)?)?;
        }
    }
    Ok(lines)
}

/// Gives the lines of the illegal messages that came: one for each. With the names of messages, where there are names.
pub fn illegal_lines(
    alloc: Global,
    table: &CoverageTable,
    names: Option<&MessageNames>,
) -> Result<Vec<CoverageLine>, AllocError> {
    let mut lines = Vec::new(alloc);
    for message in table.illegal.as_slice() {
        lines.push(illegal_line(alloc, names, message)?)?;
    }
    Ok(lines)
}
