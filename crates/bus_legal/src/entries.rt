//! The entries of a profile's three arrays, and lists of entries.
ghost use Rattle.std.specs.Prelude.{◌≡◌, ◌≤◌, ◌<◌, ◌^◌, ◌+◌, length};

use std::marker::Model;

/// A rule: it says of the cells of data subaddresses that its sets contain whether they are legal.
#[derive(Clone, Copy, Debug, PartialEq, Eq)]
pub struct Rule {
    /// Whether it speaks of commands to the terminal's own address.
    pub own: bool,
    /// Whether it speaks of broadcast commands.
    pub broadcast: bool,
    pub receive: bool,
    pub transmit: bool,
    /// Bit `s - 1` stands for subaddress `s`, 1 to 30.
    pub subaddresses: u32,
    /// Bit `n - 1` stands for a word count of `n`, 1 to 32.
    pub counts: u32,
    pub legal: bool,
    ghost thirty_subaddresses: { subaddresses < 2 ^ 30 },
}

/// A mode entry: it says of the mode codes in its set whether they are legal.
#[derive(Clone, Copy, Debug, PartialEq, Eq)]
pub struct ModeRule {
    /// Whether it speaks of mode codes to the terminal's own address.
    pub own: bool,
    /// Whether it speaks of mode codes by broadcast.
    pub broadcast: bool,
    /// Bit `c` stands for mode code `c`, 0 to 31.
    pub codes: u32,
    pub legal: bool,
}

/// An initial entry: `len` words that a subaddress holds at power-up from number `first` on.
#[derive(Clone, Copy, Debug, PartialEq, Eq)]
pub struct InitialWords {
    /// 1 to 30.
    pub subaddress: u8,
    /// The number of the first word, 1 to 32.
    pub first: u8,
    /// How many words, 0 to 32.
    pub len: u8,
    /// The words, of which the first `len` count.
    pub words: [u16; 32],
    ghost subaddress_low: { 1 ≤ subaddress },
    ghost subaddress_high: { subaddress ≤ 30 },
    ghost first_low: { 1 ≤ first },
    ghost first_high: { first ≤ 32 },
    ghost room: { first + len ≤ 33 },
    ghost whole: { length words ≡ 32 },
}

/// The entries of one of a profile's arrays, in order. A contract sees the list.
#[derive(Debug, Drop)]
pub struct Entries<T> {
    entries: Vec<T>,
}

impl<T> Model for Entries<T> {
    ghost use Rattle.std.specs.Prelude.{List};

    ghost Value = { List T };

    ghost view = { λ s. s.entries.items };
}

impl<T> Entries<T> {
    /// The list of these entries.
    pub fn of(entries: Vec<T>) -> Entries<T>
        ensures { result ≡ entries.items }
    {
        Entries { entries }
    }

    /// The entries, in order.
    pub fn as_slice(&self) -> &[T]
        ensures { result.now ≡ self.now }
    {
        &self.entries
    }
}
