//! The cells that a row speaks of.
ghost use Rattle.std.specs.Prelude.{◌≡◌};
ghost use Rattle.message_names.specs.NamedCells.{is_in, names_place, names_count, names_cell};

use bus_word::{Cell, has_bit};

/// The cells that a row of names speaks of: each place of one of its addressees, with each of its word counts.
#[derive(Clone, Copy)]
pub struct NamedCells {
    /// Whether it speaks of commands to the own address.
    pub own: bool,
    /// Whether it speaks of commands by broadcast.
    pub broadcast: bool,
    /// The subaddresses at which words are received, bit `s - 1` for `s`.
    pub receive: u32,
    /// The subaddresses from which words are transmitted, bit `s - 1` for `s`.
    pub transmit: u32,
    /// The word counts, bit `n - 1` for `n`.
    pub counts: u32,
    /// The mode codes, bit `c` for `c`.
    pub codes: u32,
}

/// Whether a number is in the set of a mask, whose lowest bit stands for `first`.
fn is_in(mask: u32, first: u8, number: u8) -> bool
    ensures { result ≡ is_in mask first number }
{
    first <= number && number - first < 32 && has_bit(mask, number - first)
}

impl NamedCells {
    /// Whether the row speaks of a cell, or of one with another word count.
    pub fn names_place(&self, cell: Cell) -> bool
        ensures { result ≡ names_place cell self.now }
    {
        match cell {
            Cell::OwnReceive(s, _) => self.own && is_in(self.receive, 1, s),
            Cell::OwnTransmit(s, _) => self.own && is_in(self.transmit, 1, s),
            Cell::BroadReceive(s, _) => self.broadcast && is_in(self.receive, 1, s),
            Cell::OwnMode(code) => self.own && is_in(self.codes, 0, code),
            Cell::BroadMode(code) => self.broadcast && is_in(self.codes, 0, code),
        }
    }

    /// Whether the row speaks of the word count of a cell; a mode code has none.
    fn names_count(&self, cell: Cell) -> bool
        ensures { result ≡ names_count cell self.now }
    {
        match cell {
            Cell::OwnReceive(_, n) | Cell::OwnTransmit(_, n) | Cell::BroadReceive(_, n) => is_in(
                self.counts,
                1,
                n,
            ),
            Cell::OwnMode(_) | Cell::BroadMode(_) => true,
        }
    }

    /// Whether the row speaks of a cell.
    pub fn names_cell(&self, cell: Cell) -> bool
        ensures { result ≡ names_cell cell self.now }
    {
        self.names_place(cell) && self.names_count(cell)
    }
}
