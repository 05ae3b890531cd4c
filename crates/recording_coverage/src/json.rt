//! Coverage as JSON.
use crate::outcome::OutcomeCounts;
use crate::places::{come_in, done_in};
use crate::rows::{CoveredMessage, IllegalMessage};
use crate::table::CoverageTable;
use bus_word::{Cell, Command, cell_of, mode_name};
use message_names::{MessageNames, owned};
use serde::Serialize;
use std::alloc::{AllocError, Global};

/// What a message is, as JSON. What it does not have is left out.
#[derive(Clone, Copy, Drop, Serialize)]
struct MessageJson {
    message: &'static str,
    #[serde(skip_serializing_if = "Option::is_none")]
    subaddress: Option<u8>,
    #[serde(skip_serializing_if = "Option::is_none")]
    count: Option<u8>,
    #[serde(skip_serializing_if = "Option::is_none")]
    code: Option<u8>,
    /// What the mode code is called.
    #[serde(skip_serializing_if = "Option::is_none")]
    mode: Option<&'static str>,
}

/// Gives a message of data.
fn data_json(message: &'static str, subaddress: u8, count: u8) -> MessageJson {
    MessageJson {
        message,
        subaddress: Some(subaddress),
        count: Some(count),
        code: None,
        mode: None,
    }
}

/// Gives a mode code.
fn code_json(message: &'static str, code: u8) -> MessageJson {
    MessageJson {
        message,
        subaddress: None,
        count: None,
        code: Some(code),
        mode: Some(mode_name(code)),
    }
}

/// Gives what a cell is.
fn cell_json(cell: Cell) -> MessageJson {
    match cell {
        Cell::OwnReceive(s, n) => data_json("receive", s, n),
        Cell::OwnTransmit(s, n) => data_json("transmit", s, n),
        Cell::BroadReceive(s, n) => data_json("broadcast receive", s, n),
        Cell::OwnMode(code) => code_json("mode code", code),
        Cell::BroadMode(code) => code_json("broadcast mode code", code),
    }
}

/// Gives what a command asks for.
fn command_json(command: Command) -> MessageJson {
    if command.is_mode() {
        let message = if command.is_broadcast() {
            "broadcast mode code"
        } else {
            "mode code"
        };
        return code_json(message, command.code());
    }
    let message = match (command.is_broadcast(), command.transmit()) {
        (false, false) => "receive",
        (false, true) => "transmit",
        (true, false) => "broadcast receive",
        (true, true) => "broadcast transmit",
    };
    data_json(message, command.subaddress(), command.count())
}

/// How often messages came to each outcome, as JSON.
#[derive(Clone, Copy, Drop, Serialize)]
struct CountsJson {
    done: u64,
    busy: u64,
    illegal: u64,
    in_error: u64,
    superseded: u64,
    open: u64,
}

/// Gives counts as JSON.
fn counts_json(counts: OutcomeCounts) -> CountsJson {
    CountsJson {
        done: counts.done,
        busy: counts.blocked,
        illegal: counts.illegal,
        in_error: counts.in_error,
        superseded: counts.superseded,
        open: counts.left_open,
    }
}

/// A message with what came of it, as JSON.
#[derive(Drop, Serialize)]
struct CoverageJson {
    /// The command word, of an illegal message.
    #[serde(skip_serializing_if = "Option::is_none")]
    command: Option<String>,
    #[serde(flatten)]
    what: MessageJson,
    #[serde(flatten)]
    counts: CountsJson,
    /// The name of the message, null for none; left out where there are no names.
    #[serde(skip_serializing_if = "Option::is_none")]
    name: Option<Option<String>>,
}

/// What a recording shows, as JSON.
#[derive(Drop, Serialize)]
struct TableJson {
    /// How many legal messages came.
    came: usize,
    /// How many were done.
    done: usize,
    legal: Vec<CoverageJson>,
    illegal: Vec<CoverageJson>,
}

/// Gives the name of the message of a cell, None where there are no names.
fn name_json(
    alloc: Global,
    names: Option<&MessageNames>,
    cell: Option<Cell>,
) -> Result<Option<Option<String>>, AllocError> {
    let Some(names) = names else {
        return Ok(None);
    };
    match cell {
        Some(cell) => Ok(Some(owned(alloc, names.name_of(cell))?)),
        None => Ok(Some(None)),
    }
}

/// Gives the legal messages.
fn legal_json(
    alloc: Global,
    names: Option<&MessageNames>,
    legal: &[CoveredMessage],
) -> Result<Vec<CoverageJson>, AllocError> {
    let mut list = Vec::new(alloc);
    for message in legal {
        list.push(CoverageJson {
            command: None,
            what: cell_json(message.cell),
            counts: counts_json(message.counts),
            name: name_json(alloc, names, Some(message.cell))?,
        })?;
    }
    Ok(list)
}

/// Gives the illegal messages.
fn illegal_json(
    alloc: Global,
    names: Option<&MessageNames>,
    illegal: &[IllegalMessage],
) -> Result<Vec<CoverageJson>, AllocError> {
    let mut list = Vec::new(alloc);
    for message in illegal {
        list.push(CoverageJson {
            command: Some(format!(in alloc; "{:04x}", message.command.bits())?),
            what: command_json(message.command),
            counts: counts_json(message.counts),
            name: name_json(alloc, names, cell_of(message.command))?,
        })?;
    }
    Ok(list)
}

/// What a recording shows, as JSON, with the names of messages, where there are names; None where memory runs out.
pub fn coverage_json(
    alloc: Global,
    table: &CoverageTable,
    names: Option<&MessageNames>,
) -> Option<String> {
    let json = TableJson {
        came: come_in(table.legal.as_slice()),
        done: done_in(table.legal.as_slice()),
        legal: legal_json(alloc, names, table.legal.as_slice()).ok()?,
        illegal: illegal_json(alloc, names, table.illegal.as_slice()).ok()?,
    };
    serde_json::to_string(alloc, &json).ok()
}
