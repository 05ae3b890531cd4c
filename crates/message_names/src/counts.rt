//! Names of messages beside word counts.
use crate::names::MessageNames;
use crate::printed::quoted;
use bus_legal::Numbers;
use bus_word::Cell;
use std::alloc::{AllocError, Global};

/// A kind of messages of data.
#[derive(Clone, Copy)]
pub enum MessageKind {
    /// What the own address receives.
    Receive,
    /// What the own address transmits.
    Transmit,
    /// What is received by broadcast.
    BroadcastReceive,
}

impl MessageKind {
    /// The cell of a message of this kind.
    fn cell(self, subaddress: u8, count: u8) -> Cell {
        match self {
            MessageKind::Receive => Cell::OwnReceive(subaddress, count),
            MessageKind::Transmit => Cell::OwnTransmit(subaddress, count),
            MessageKind::BroadcastReceive => Cell::BroadReceive(subaddress, count),
        }
    }
}

/// The name of the message of a cell, where there are names and it has one.
pub fn name_in<'a>(names: Option<&'a MessageNames>, cell: Cell) -> Option<&'a str> {
    match names {
        Some(names) => names.name_of(cell),
        None => None,
    }
}

/// Adds a name behind a space as it is printed, where there is one.
pub fn push_name(alloc: Global, text: &mut String, name: Option<&str>) -> Result<(), AllocError> {
    match name {
        Some(name) => {
            text.push_str(" ")?;
            text.push_str(quoted(alloc, name)?.as_str())
        }
        None => Ok(()),
    }
}

/// Whether a mask has the bit of a number, of which the first is 1.
pub fn has_number(bits: u32, number: u8) -> bool {
    1 <= number && number <= 32 && (bits >> (number - 1)) & 1 == 1
}

/// Messages of a kind at a subaddress, by their word counts.
#[derive(Clone, Copy)]
pub struct MessageCounts {
    pub kind: MessageKind,
    pub subaddress: u8,
    /// Bit `n - 1` for a word count of `n`.
    pub counts: u32,
}

impl MessageCounts {
    /// The name of the message of a word count.
    pub fn name_at<'a>(&self, names: Option<&'a MessageNames>, count: u8) -> Option<&'a str> {
        name_in(names, self.kind.cell(self.subaddress, count))
    }

    /// Those of the word counts whose messages have the same name as this one's.
    fn like(&self, names: Option<&MessageNames>, count: u8) -> u32 {
        let name = self.name_at(names, count);
        let mut alike = 0u32;
        for n in 1..33u8 {
            if has_number(self.counts, n) && self.name_at(names, n) == name {
                alike |= 1 << u32::from(n - 1);
            }
        }
        alike
    }

    /// Adds the word counts whose messages have the name of this one's, and the name.
    fn push_like(
        &self,
        alloc: Global,
        text: &mut String,
        names: Option<&MessageNames>,
        count: u8,
    ) -> Result<(), AllocError> {
        if !text.is_empty() {
            text.push_str(", ")?;
        }
        let numbers = Numbers {
            bits: self.like(names, count),
            first: 1,
        };
        write!(text, "{numbers}")?;
        push_name(alloc, text, self.name_at(names, count))
    }

    /// The word counts as a text, `-` for none: those of one name together, before it.
    pub fn text(&self, alloc: Global, names: Option<&MessageNames>) -> Result<String, AllocError> {
        let mut text = String::new(alloc);
        if self.counts == 0 {
            text.push_str("-")?;
        }
        let mut left = self.counts;
        for n in 1..33u8 {
            if has_number(left, n) {
                self.push_like(alloc, &mut text, names, n)?;
                left &= !self.like(names, n);
            }
        }
        Ok(text)
    }

    /// The name of the message of each word count, None where it has none.
    pub fn list(
        &self,
        alloc: Global,
        names: &MessageNames,
    ) -> Result<Vec<Option<String>>, AllocError> {
        let mut list = Vec::new(alloc);
        for n in 1..33u8 {
            if has_number(self.counts, n) {
                list.push(owned(alloc, self.name_at(Some(names), n))?)?;
            }
        }
        Ok(list)
    }
}

/// A name as a value of its own.
pub fn owned(alloc: Global, name: Option<&str>) -> Result<Option<String>, AllocError> {
    match name {
        Some(name) => Ok(Some(String::from_str(alloc, name)?)),
        None => Ok(None),
    }
}
