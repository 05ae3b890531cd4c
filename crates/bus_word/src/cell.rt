//! The cells in which a terminal decides whether a command is legal.
ghost use Rattle.std.specs.Prelude.{◌≡◌};

use crate::{Command, ModeRow, mode_row};

/// What kind of command a command word is. A profile says of each cell whether it is legal.
/// Subaddresses are 1 to 30, word counts 1 to 32, mode codes 0 to 31.
#[derive(Clone, Copy, PartialEq, Eq, Debug)]
pub enum Cell {
    /// To the terminal's own address: receive this count of words at this subaddress.
    OwnReceive(u8, u8),
    /// To the terminal's own address: transmit this count of words from this subaddress.
    OwnTransmit(u8, u8),
    /// By broadcast: receive this count of words at this subaddress.
    BroadReceive(u8, u8),
    /// To the terminal's own address: this mode code.
    OwnMode(u8),
    /// By broadcast: this mode code.
    BroadMode(u8),
}

ghost use Rattle.bus_word.specs.Cell.{data_cell, mode_cell, cell_of, is_data_place, is_allowed};

/// Gives the cell of a command to a subaddress of data.
fn data_cell(command: Command) -> Option<Cell>
    ensures { result ≡ data_cell command }
{
    let subaddress = command.subaddress();
    let count = command.count();
    match (command.transmit(), command.is_broadcast()) {
        (true, true) => None,
        (true, false) => Some(Cell::OwnTransmit(subaddress, count)),
        (false, true) => Some(Cell::BroadReceive(subaddress, count)),
        (false, false) => Some(Cell::OwnReceive(subaddress, count)),
    }
}

/// Gives the cell of a command whose mode code has this row.
fn mode_cell(command: Command, row: ModeRow) -> Option<Cell>
    ensures { result ≡ mode_cell command row }
{
    let code = command.code();
    if command.transmit() != row.transmit {
        None
    } else if !command.is_broadcast() {
        Some(Cell::OwnMode(code))
    } else if row.broadcast {
        Some(Cell::BroadMode(code))
    } else {
        None
    }
}

/// The cell of a command, or None for a command that is always illegal: a broadcast transmit
/// command to a subaddress of data, or a mode code that the table of mode codes doesn't have, has
/// with the other T/R, or doesn't have by broadcast.
pub fn cell_of(command: Command) -> Option<Cell>
    ensures { result ≡ cell_of command }
{
    if command.is_mode() {
        match mode_row(command.code()) {
            Some(row) => mode_cell(command, row),
            None => None,
        }
    } else {
        data_cell(command)
    }
}

/// Whether this is a subaddress of data, 1 to 30, and a word count or the number of a word, 1 to 32.
pub fn is_data_place(subaddress: u8, count: u8) -> bool
    ensures { result ≡ is_data_place subaddress count }
{
    (1..=30).contains(&subaddress) && (1..=32).contains(&count)
}

/// Whether some command has the cell: only such a cell can be legal.
#[inline(always)]
pub fn is_allowed(cell: Cell) -> bool
    ensures { result ≡ is_allowed cell }
{
    match cell {
        Cell::OwnReceive(s, n) | Cell::OwnTransmit(s, n) | Cell::BroadReceive(s, n) =>
            is_data_place(s, n),
        Cell::OwnMode(code) => mode_row(code).is_some(),
        Cell::BroadMode(code) => match mode_row(code) {
            Some(row) => row.broadcast,
            None => false,
        },
    }
}
