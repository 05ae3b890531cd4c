//! Words as they are on the bus: a sync, 16 bits and a parity bit.
ghost use Rattle.std.specs.Prelude.{◌≡◌, true};

use crate::Command;

/// One of the two buses of a dual standby redundant system (MIL-STD-1553B, 4.6.3).
#[derive(Clone, Copy, PartialEq, Eq, Debug)]
pub enum Bus {
    A,
    B,
}

/// The sync that a word begins with (4.3.3.5.1.1, 4.3.3.5.2.1, 4.3.3.5.3.1).
#[derive(Clone, Copy, PartialEq, Eq, Debug)]
pub enum Kind {
    /// The command sync: a command word or a status word.
    Com,
    /// The data sync: a data word.
    Dat,
}

/// A word whose sync, code and bit count are right. What isn't so is noise, and is no `Raw`.
#[derive(Clone, Copy, PartialEq, Eq, Debug)]
pub struct Raw {
    pub kind: Kind,
    /// The 16 bits between sync and parity bit, the first sent being the highest.
    pub bits: u16,
    /// The parity bit.
    pub parity: bool,
}

impl Raw {
    ghost use Rattle.bus_word.specs.Word.{valid_word, is_valid, is_command, is_data, is_for};

    /// The valid word of this sync and these bits.
    pub fn of(kind: Kind, bits: u16) -> Raw
        ensures word { result ≡ valid_word kind bits }
        ensures valid { is_valid result ≡ true }
    {
        Raw {
            kind,
            bits,
            parity: bits.count_ones() % 2 == 0,
        }
    }

    /// Whether the parity is right: the ones among the 17 bits are odd in number (4.4.1.1).
    pub fn is_valid(&self) -> bool
        ensures { result ≡ is_valid self.now }
    {
        // the right parity bit is set where the number of ones is even
        let is_even = self.bits.count_ones() % 2 == 0;
        if self.parity { is_even } else { !is_even }
    }

    /// Whether this is a valid word of command sync: a command word or a status word.
    pub fn is_command(&self) -> bool
        ensures { result ≡ is_command self.now }
    {
        matches!(self.kind, Kind::Com) && self.is_valid()
    }

    /// Whether this is a valid word of data sync.
    pub fn is_data(&self) -> bool
        ensures { result ≡ is_data self.now }
    {
        matches!(self.kind, Kind::Dat) && self.is_valid()
    }

    /// Whether this is a valid word of command sync to the terminal of this `address`, 0 to 30, or
    /// to all terminals (address 31) where the terminal has the `broadcast` option (4.4.3.1).
    pub fn is_for(&self, address: u8, broadcast: bool) -> bool
        ensures { result ≡ is_for address broadcast self.now }
    {
        self.is_command() && Command::of(self.bits).is_addressed_to(address, broadcast)
    }
}
