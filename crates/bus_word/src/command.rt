//! Command words and their fields (MIL-STD-1553B, 4.3.3.5.1).
ghost use Rattle.std.specs.Prelude.{◌≡◌, ℕ, ◌<◌, ◌^◌};

use std::marker::Model;

/// The subaddress of data wraparound that Notice 2 names (30.7): words that are received there are those
/// that are transmitted from there.
pub const WRAPAROUND_SUBADDRESS: u8 = 30;

/// The 16 bits of a command word. A contract sees it as their number.
#[derive(Clone, Copy)]
pub struct Command {
    word: u16,
}

impl Model for Command {
    ghost Value = { ℕ };

    ghost view = { λ c. c.word };

    ghost invariant = { λ c. c.word < 2 ^ 16 };

    ghost inverse = { λ n. record { word = n } };
}

impl Command {
    ghost use Rattle.bus_word.specs.Command.{address_of, transmits, subaddress_of, code_of, count_of, is_mode, is_broadcast, is_receive, expected, is_addressed_to};

    /// The command word of these bits.
    pub fn of(bits: u16) -> Command
        ensures { result ≡ bits }
    {
        Command { word: bits }
    }

    /// The 16 bits.
    pub fn bits(self) -> u16
        ensures { result ≡ self }
    {
        self.word
    }

    /// The address field, 0 to 31: the terminal that is meant, or 31 for all (4.3.3.5.1.2).
    pub fn address(self) -> u8
        ensures { result ≡ address_of self }
    {
        (self.word >> 11) as u8
    }

    /// Whether T/R is 1: the terminal is to transmit (4.3.3.5.1.3).
    pub fn transmit(self) -> bool
        ensures { result ≡ transmits self }
    {
        (self.word >> 10) & 1 == 1
    }

    /// The subaddress field, 0 to 31 (4.3.3.5.1.4).
    pub fn subaddress(self) -> u8
        ensures { result ≡ subaddress_of self }
    {
        ((self.word >> 5) & 0x1f) as u8
    }

    /// The low field as a mode code, 0 to 31 (4.3.3.5.1.5).
    pub fn code(self) -> u8
        ensures { result ≡ code_of self }
    {
        (self.word & 0x1f) as u8
    }

    /// The low field as a word count, 1 to 32: a field of 0 means 32 (4.3.3.5.1.5).
    pub fn count(self) -> u8
        ensures { result ≡ count_of self }
    {
        match self.code() {
            0 => 32,
            count => count,
        }
    }

    /// Whether the low field is a mode code: subaddresses 0 and 31 both say so (4.3.3.5.1.4; Notice 2, 30.4.1).
    pub fn is_mode(self) -> bool
        ensures { result ≡ is_mode self }
    {
        matches!(self.subaddress(), 0 | 31)
    }

    /// Whether the command is for all terminals: address 31 (4.3.3.5.1.2).
    pub fn is_broadcast(self) -> bool
        ensures { result ≡ is_broadcast self }
    {
        self.address() == 31
    }

    /// Whether this is a receive command to a subaddress of data, 1 to 30.
    pub fn is_receive(self) -> bool
        ensures { result ≡ is_receive self }
    {
        !self.transmit() && !self.is_mode()
    }

    /// How many data words are to follow the command on the bus, 0 to 32.
    pub fn expected(self) -> u8
        ensures { result ≡ expected self }
    {
        if self.transmit() {
            0
        } else if self.is_mode() {
            u8::from(self.code() >= 16)
        } else {
            self.count()
        }
    }

    /// Whether the terminal of this `address` takes the command as meant for it: by its address, or
    /// by address 31 where it has the `broadcast` option.
    pub fn is_addressed_to(self, address: u8, broadcast: bool) -> bool
        ensures { result ≡ is_addressed_to address broadcast self }
    {
        self.address() == address || (self.is_broadcast() && broadcast)
    }
}
