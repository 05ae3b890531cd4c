//! Why a table becomes no recording, or only the beginning of one.
ghost use Rattle.std.specs.Prelude.{◌≡◌};
ghost use Rattle.monitor_tables.specs.declared.fault.EarlyEnd.TheVariants.{Write};
ghost use Rattle.monitor_tables.specs.declared.fault.MonitorFault.TheVariants.{Memory};

use crate::column::MonitorColumn;
use byte_streams::IoFailed;
use csv_rows::CellPlace;
use std::alloc::{AllocError, AllocFailed};
use thiserror::Error;

/// Why a table becomes no recording, or only the beginning of one. A place is a line of the file and the number of a field, each from 1.
#[derive(Clone, Copy, Debug, Error)]
pub enum MonitorFault {
    /// A field has a line feed in it: most likely its quote is not closed.
    #[error("table: {0}: a quote is not closed in its line")]
    NotCsv(CellPlace),
    /// The header names neither `word` nor `command`.
    #[error("table: {0}: no column is named word, and none command")]
    NoKind(CellPlace),
    /// The header names both `word` and `command`.
    #[error("table: {0}: a row is a word or a message, and the header names word and command")]
    TwoKinds(CellPlace),
    /// The header lacks a column: the place is behind the last.
    #[error("table: {0}: no column is named {1}")]
    NoColumn(CellPlace, MonitorColumn),
    /// A second column of the header has this name.
    #[error("table: {0}: a second column is named {1}")]
    TwoColumns(CellPlace, MonitorColumn),
    /// The field is no time.
    #[error("table: {0}: not a time: microseconds in decimal digits, as 12.5")]
    Time(CellPlace),
    /// A word begins before the word above it on its bus ends.
    #[error("table: {0}: the word above on this bus ends 20 microseconds after it begins, and this one begins earlier")]
    Overlap(CellPlace),
    /// A word or a message begins before the one above it does.
    #[error("table: {0}: earlier than the row above")]
    Order(CellPlace),
    /// A word ends within what times leave open of one on the other bus, both are of messages to the terminal, and one is a command.
    #[error("table: {0}: a word of this row and one above, on the other bus, end within what their times leave open, and what the terminal does depends on their order")]
    UnclearOrder(CellPlace),
    /// A message begins before the words of the message above it on its bus have ended, or between the commands of the one on the other.
    #[error("table: {0}: the words of the message above on this bus, 20 microseconds each, have not ended, or the second command on the other")]
    Within(CellPlace),
    /// The field is no bus.
    #[error("table: {0}: not a bus: A or B")]
    Bus(CellPlace),
    /// The field is no sync.
    #[error("table: {0}: not a sync: c, d or s, or command, data or status")]
    Sync(CellPlace),
    /// The field is no word.
    #[error("table: {0}: not a word: four hexadecimal digits")]
    Word(CellPlace),
    /// The field is no list of words.
    #[error("table: {0}: not words of four hexadecimal digits with spaces between them")]
    Words(CellPlace),
    /// The field is beyond those of the header, and has text.
    #[error("table: {0}: text beyond the columns of the header")]
    Extra(CellPlace),
    /// A message has an error.
    #[error("table: {0}: the row does not tell which of its words has the error")]
    Unclear(CellPlace),
    /// A growth of memory was refused, which says nothing of the table.
    #[error("out of memory")]
    Memory,
    /// The table can't be read on.
    #[error("input: read failed")]
    Read,
}

impl From<AllocError> for MonitorFault {
    ghost from_gives = { λ _ fault. fault ≡ Memory };

    fn from(_error: AllocError) -> MonitorFault {
        MonitorFault::Memory
    }
}

impl<T: Drop> From<AllocFailed<T>> for MonitorFault {
    ghost from_gives = { λ _ fault. fault ≡ Memory };

    fn from(_failed: AllocFailed<T>) -> MonitorFault {
        MonitorFault::Memory
    }
}

/// A row of a table that was refused, or can't be read.
#[derive(Clone, Copy, Debug, Error)]
#[error("{fault}; rows written: {rows}")]
pub struct RefusedRow {
    pub fault: MonitorFault,
    /// The line of the file on which the row is, or was looked for, from 1.
    pub row: u64,
    /// Of how many rows before it the recording was written.
    pub rows: u64,
}

/// Why a recording ends early.
#[derive(Clone, Copy, Debug, Error)]
pub enum EarlyEnd {
    /// A row was refused: the last line that was written says so.
    #[error("{0}")]
    Refused(RefusedRow),
    /// The recording can't be written on.
    #[error("output: write failed")]
    Write,
}

impl From<IoFailed> for EarlyEnd {
    ghost from_gives = { λ _ end. end ≡ Write };

    fn from(_failed: IoFailed) -> EarlyEnd {
        EarlyEnd::Write
    }
}
