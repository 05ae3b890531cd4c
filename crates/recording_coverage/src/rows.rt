//! What came of each legal message, and which illegal ones came.
ghost use Rattle.std.specs.Prelude.{◌≡◌, ◌≤◌, ◌<◌, ◌++◌, ◌∷◌, [], List, IfOk, OnOk};
ghost use Rattle.bus_word.specs.Cell.{cell_of};
ghost use Rattle.bus_legal.specs.Parts.{description_in};
ghost use Rattle.recording_coverage.specs.declared.outcome.MessageEnd.{MessageEnd};
ghost use Rattle.recording_coverage.specs.Covers.{Covers};
ghost use Rattle.recording_coverage.specs.Rows.{covered_in, covered, has_legal_cell, are_none, command_at, tried_of, tried_illegal};

use crate::coverage::Coverage;
use crate::legal::legal_cells;
use crate::outcome::OutcomeCounts;
use bus_legal::{Legality, Normal};
use bus_word::{Cell, Command, cell_of};
use std::alloc::{AllocError, Global};

/// A legal message, and how often it came to each outcome.
#[derive(Clone, Copy)]
pub struct CoveredMessage {
    pub cell: Cell,
    pub counts: OutcomeCounts,
}

/// An illegal message that came, and how often it came to each outcome.
#[derive(Clone, Copy)]
pub struct IllegalMessage {
    pub command: Command,
    pub counts: OutcomeCounts,
}

/// Gives the row of a cell.
fn covered_message(coverage: &Coverage, cell: Cell) -> CoveredMessage
    ensures { (ends : List MessageEnd) → Covers ends coverage.now → result ≡ covered_in ends cell }
{
    CoveredMessage {
        cell,
        counts: coverage.counts_at(cell),
    }
}

/// Gives each legal message with how often it came to each outcome: what is received at each subaddress, what is transmitted, what
/// is received by broadcast, and the mode codes.
pub fn covered_messages(
    alloc: Global,
    normal: &Normal,
    coverage: &Coverage,
) -> Result<Vec<CoveredMessage>, AllocError>
    ensures { IfOk result (λ rows. (ends : List MessageEnd) → Covers ends coverage.now → rows.items ≡ covered (description_in normal.now) ends) }
{
    let cells = legal_cells(alloc, normal)?;
    let mut rows = Vec::new(alloc);
    for cell in cells.as_slice() {
        rows.push(covered_message(coverage, *cell))?;
    }
    Ok(rows)
}

/// Tells whether a command of this cell is legal.
fn has_legal_cell(normal: &Normal, cell: Option<Cell>) -> bool
    ensures { result ≡ has_legal_cell (description_in normal.now).legal cell }
{
    match cell {
        Some(cell) => normal.legal(cell),
        None => false,
    }
}

/// Tells whether no message came.
pub fn are_none(counts: OutcomeCounts) -> bool
    ensures { result ≡ are_none counts }
{
    counts.in_error == 0
        && counts.illegal == 0
        && (counts.blocked == 0 && counts.done == 0)
        && (counts.superseded == 0 && counts.left_open == 0)
}

/// Gives the command of this number to the terminal of an address, or to all terminals.
fn command_at(address: u8, number: u16) -> Command
    requires address { address ≤ 30 }
    requires number { number < 4096 }
    ensures { result ≡ command_at address number }
{
    let to: u16 = if 2048 <= number {
        31
    } else {
        u16::from(address)
    };
    Command::of(to * 2048 + number % 2048)
}

/// Adds a command with its counts, if it is illegal and its message came.
fn push_tried(
    rows: &mut Vec<IllegalMessage>,
    normal: &Normal,
    coverage: &Coverage,
    command: Command,
) -> Result<(), AllocError>
    ensures { OnOk result ((ends : List MessageEnd) → Covers ends coverage.now → rows.new.items ≡ rows.old.items ++ tried_of (description_in normal.now) ends (command ∷ [])) }
{
    if command.subaddress() == 31 || has_legal_cell(normal, cell_of(command)) {
        return Ok(());
    }
    let counts = coverage.counts_of(command);
    if !are_none(counts) {
        rows.push(IllegalMessage { command, counts })?;
    }
    Ok(())
}

/// Gives each illegal message that came with how often it came to each outcome: those to the own address, then those by
/// broadcast. A mode code is given with subaddress 0.
pub fn illegal_messages(
    alloc: Global,
    normal: &Normal,
    coverage: &Coverage,
) -> Result<Vec<IllegalMessage>, AllocError>
    ensures { IfOk result (λ rows. (ends : List MessageEnd) → Covers ends coverage.now → rows.items ≡ tried_illegal (description_in normal.now) ends) }
{
    let address = normal.setup().address;
    let mut rows = Vec::new(alloc);
    for number in 0..4096u16 {
        push_tried(&mut rows, normal, coverage, command_at(address, number))?;
    }
    Ok(rows)
}
