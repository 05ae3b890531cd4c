//! How often each message came to each outcome.
ghost use Rattle.std.specs.Prelude.{◌≡◌, ◌<◌};
ghost use Rattle.bus_word.specs.Mode.{mode_row};
ghost use Rattle.recording_coverage.specs.Messages.{message_number};
ghost use Rattle.recording_coverage.specs.inner.CellNumbers.{row_transmits, number_by, number_of_cell};

use crate::outcome::{MessageEnd, OutcomeCounts, with_one};
use bus_word::{Cell, Command, is_allowed, mode_row};
use std::alloc::{AllocError, Global};
use terminal_messages::MessageEnding;

/// How many messages have a number.
const MESSAGES: usize = 4096;

/// None of any outcome.
const NONE: OutcomeCounts = OutcomeCounts {
    in_error: 0,
    illegal: 0,
    blocked: 0,
    done: 0,
    superseded: 0,
    left_open: 0,
};

/// Gives the number of a message by its parts. The subaddress of mode codes is 0.
fn number_by(by_broadcast: bool, transmit: bool, subaddress: u8, low: u8) -> usize
    ensures { result ≡ number_by by_broadcast transmit subaddress low }
{
    let broadcast: usize = if by_broadcast { 2048 } else { 0 };
    let direction: usize = if transmit { 1024 } else { 0 };
    broadcast + direction + usize::from(subaddress) * 32 + usize::from(low)
}

/// Gives the number of the message that a command asks for.
fn message_number(command: Command) -> usize
    ensures number { result ≡ message_number command }
    ensures few { result < 4096 }
{
    let subaddress = if command.is_mode() {
        0
    } else {
        command.subaddress()
    };
    number_by(
        command.is_broadcast(),
        command.transmit(),
        subaddress,
        command.code(),
    )
}

/// Tells whether the terminal transmits by the row of this mode code.
fn code_transmits(code: u8) -> bool
    ensures { result ≡ row_transmits (mode_row code) }
{
    match mode_row(code) {
        Some(row) => row.transmit,
        None => false,
    }
}

/// Gives the number of the message of a cell.
fn number_of_cell(cell: Cell) -> usize
    ensures { result ≡ number_of_cell cell }
{
    match cell {
        Cell::OwnReceive(s, n) => number_by(false, false, s, n % 32),
        Cell::OwnTransmit(s, n) => number_by(false, true, s, n % 32),
        Cell::BroadReceive(s, n) => number_by(true, false, s, n % 32),
        Cell::OwnMode(code) => number_by(false, code_transmits(code), 0, code),
        Cell::BroadMode(code) => number_by(true, code_transmits(code), 0, code),
    }
}

/// How often each message came to each outcome, over some events.
#[derive(Drop)]
pub struct Coverage {
    /// By the number of the message.
    counts: Vec<OutcomeCounts>,
}

impl Coverage {
    ghost use Rattle.std.specs.Prelude.{[], List, ◌++◌, ◌∷◌, get_or, set, cond, IfOk};
    ghost use Rattle.recording_coverage.specs.declared.outcome.MessageEnd.{MessageEnd};
    ghost use Rattle.recording_coverage.specs.Endings.{counts_of};
    ghost use Rattle.recording_coverage.specs.Messages.{is_same_message, has_this_cell};
    ghost use Rattle.recording_coverage.specs.Covers.{Covers, no_counts};
    ghost use Rattle.recording_coverage.specs.inner.Counted.{with_one, with_one_at};

    /// Gives that of no event.
    pub fn none(alloc: Global) -> Result<Coverage, AllocError>
        ensures { IfOk result (Covers []) }
    {
        Ok(Coverage {
            counts: vec![in alloc; NONE; MESSAGES]?,
        })
    }

    /// Counts one more of the message of this number.
    fn count(&mut self, number: usize, ending: MessageEnding)
        ensures { self.new.counts.items ≡ with_one_at number ending self.old.counts.items }
    {
        if number < self.counts.len() {
            self.counts[number] = with_one(self.counts[number], ending);
        }
    }

    /// Counts one more message.
    pub fn note(&mut self, end: MessageEnd)
        ensures { (ends : List MessageEnd) → Covers ends self.old → Covers (ends ++ end ∷ []) self.new }
    {
        self.count(message_number(end.command), end.ending);
    }

    /// Gives the counts at this number.
    fn at(&self, number: usize) -> OutcomeCounts
        ensures { result ≡ get_or self.now.counts.items number no_counts }
    {
        if number < self.counts.len() {
            self.counts[number]
        } else {
            NONE
        }
    }

    /// Gives how often the message that this command asks for came to each outcome, whatever the address of the command.
    pub fn counts_of(&self, command: Command) -> OutcomeCounts
        ensures { (ends : List MessageEnd) → Covers ends self.now → result ≡ counts_of (is_same_message command) ends }
    {
        self.at(message_number(command))
    }

    /// Gives how often messages of this cell came to each outcome.
    pub fn counts_at(&self, cell: Cell) -> OutcomeCounts
        ensures { (ends : List MessageEnd) → Covers ends self.now → result ≡ counts_of (has_this_cell cell) ends }
    {
        if is_allowed(cell) {
            self.at(number_of_cell(cell))
        } else {
            NONE
        }
    }
}
