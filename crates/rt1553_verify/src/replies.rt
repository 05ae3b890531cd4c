//! Replies of a unit that are not those of its terminal, and exchanges without one; and both in words.
ghost use Rattle.std.specs.Prelude.{◌≤◌};
ghost use Rattle.rt1553_verify.specs.Differing.{DiffersFirstAt};

use arrayvec::{ArrayString, ArrayVec};
use std::fmt;

/// An exchange to which another reply came than that of the terminal.
#[derive(Drop)]
pub struct WrongReply {
    /// The number of the exchange, from 1.
    pub number: u32,
    /// Its command word.
    pub command: u16,
    /// What it tries.
    pub label: ArrayString<64>,
    /// The words with which the terminal replies; empty for no reply.
    pub expected: ArrayVec<u16, 33>,
    /// The words that came.
    pub came: ArrayVec<u16, 33>,
}

/// Numbers of exchanges, one after the other.
#[derive(Clone, Copy)]
pub struct NumberRange {
    pub first: u32,
    /// How many they are: at least one.
    pub count: u32,
    ghost some: { 1 ≤ count },
}

/// The index, from 0, of the first word in which two replies differ; their length where they are the same.
fn first_difference(expected: &[u16], came: &[u16]) -> usize
    ensures { DiffersFirstAt expected.now came.now result }
{
    for (index, word) in expected.iter().enumerate() {
        if came.get(index) != Some(word) {
            return index;
        }
    }
    expected.len()
}

impl WrongReply {
    ghost use Rattle.rt1553_verify.specs.Differing.{IsDifferingWord};

    /// The number, from 1, of the first word that differs. It may be one that did not come, or that was not expected.
    pub fn differing_word(&self) -> usize
        ensures { IsDifferingWord self.now.expected.items self.now.came.items result }
    {
        first_difference(self.expected.as_slice(), self.came.as_slice()) + 1
    }
}

impl NumberRange {
    ghost use Rattle.std.specs.Prelude.{◌≡◌, ◌+◌, ◌<◌, ◌^◌};

    /// The last of them.
    pub fn last(&self) -> u32
        ensures { self.now.first + self.now.count < 2 ^ 32 → result + 1 ≡ self.now.first + self.now.count }
    {
        self.first.saturating_add(self.count - 1)
    }
}

/// A reply as text: its words, or `none`.
#[derive(Clone, Copy)]
pub struct ReplyText<'a>(pub &'a [u16]);

impl fmt::Display for ReplyText<'_> {
    fn fmt<W: fmt::Write>(&self, f: &mut fmt::Formatter<W>) -> fmt::Result {
        if self.0.is_empty() {
            return f.write_str("none");
        }
        write!(f, "{:04x}", self.0[0])?;
        for word in &self.0[1..] {
            write!(f, " {word:04x}")?;
        }
        Ok(())
    }
}

/// As `receive 3, 2 words: legal: expected 2800, came none`.
impl fmt::Display for WrongReply {
    fn fmt<W: fmt::Write>(&self, f: &mut fmt::Formatter<W>) -> fmt::Result {
        write!(
            f,
            "{}: expected {}, came {}",
            self.label.as_str(),
            ReplyText(self.expected.as_slice()),
            ReplyText(self.came.as_slice())
        )
    }
}

/// As `no result for 14 to 17`, or `no result for 14`.
impl fmt::Display for NumberRange {
    fn fmt<W: fmt::Write>(&self, f: &mut fmt::Formatter<W>) -> fmt::Result {
        write!(f, "no result for {}", self.first)?;
        if self.count > 1 {
            write!(f, " to {}", self.last())?;
        }
        Ok(())
    }
}
