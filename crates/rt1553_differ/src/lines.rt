//! Groups of differences as lines, as people read them.
use crate::explained::word_at;
use crate::groups::Group;
use bus_canon::Difference;
use bus_legal::{Normal, Numbers};
use bus_word::mode_name;
use std::alloc::{AllocError, Global};
use std::fmt;

/// What is told in one line: a group, or two, of word counts that at the same subaddresses are legal in the first terminal
/// alone and in the second alone.
#[derive(Clone, Copy)]
pub struct DifferenceLine {
    pub group: Group,
    pub other: Option<Group>,
}

/// Tells whether two groups are of word counts of one kind.
fn is_same_kind(difference: Difference, other: Difference) -> bool {
    matches!(
        (difference, other),
        (Difference::ReceiveCell(_, _), Difference::ReceiveCell(_, _))
            | (
                Difference::TransmitCell(_, _),
                Difference::TransmitCell(_, _)
            )
            | (
                Difference::BroadcastReceiveCell(_, _),
                Difference::BroadcastReceiveCell(_, _)
            )
    )
}

/// Tells whether a group is told in the line of the one before it.
fn is_joined(before: &Group, group: &Group) -> bool {
    is_same_kind(before.difference, group.difference)
        && before.subaddresses == group.subaddresses
        && before.in_first
        && !group.in_first
}

/// Adds a group: to the last line, where it is told there, and else as a line of its own.
fn push_group(lines: &mut Vec<DifferenceLine>, group: Group) -> Result<(), AllocError> {
    if let Some(last) = lines.pop() {
        if last.other.is_none() && is_joined(&last.group, &group) {
            lines.push(DifferenceLine {
                group: last.group,
                other: Some(group),
            })?;
            return Ok(());
        }
        lines.push(last)?;
    }
    lines.push(DifferenceLine { group, other: None })?;
    Ok(())
}

/// Gives the lines of groups, in their order.
pub fn lines_of(alloc: Global, groups: &[Group]) -> Result<Vec<DifferenceLine>, AllocError> {
    let mut lines = Vec::new(alloc);
    for group in groups {
        push_group(&mut lines, *group)?;
    }
    Ok(lines)
}

/// In what the two differ, with its colon.
#[derive(Clone, Copy)]
pub struct Label<'a> {
    pub group: Group,
    /// The names of its messages with a space before them, empty for none.
    pub names: &'a str,
}

impl Label<'_> {
    /// Writes the subaddresses of word counts.
    fn put_counts<W: fmt::Write>(&self, f: &mut fmt::Formatter<W>, what: &str) -> fmt::Result {
        let subaddresses = Numbers {
            bits: self.group.subaddresses,
            first: 1,
        };
        write!(f, "{what} {subaddresses}{}:", self.names)
    }
}

impl fmt::Display for Label<'_> {
    fn fmt<W: fmt::Write>(&self, f: &mut fmt::Formatter<W>) -> fmt::Result {
        let names = self.names;
        match self.group.difference {
            Difference::Address => f.write_str("address:"),
            Difference::BroadcastOption => f.write_str("broadcast:"),
            Difference::ReceiveCell(_, _) => self.put_counts(f, "receive"),
            Difference::TransmitCell(_, _) => self.put_counts(f, "transmit"),
            Difference::BroadcastReceiveCell(_, _) => self.put_counts(f, "broadcast receive"),
            Difference::OwnCode(code) => {
                write!(f, "mode code {code} ({}){names}:", mode_name(code))
            }
            Difference::BroadcastCode(code) => {
                write!(
                    f,
                    "broadcast mode code {code} ({}){names}:",
                    mode_name(code)
                )
            }
            Difference::Acceptance => f.write_str("bus control:"),
            Difference::VectorWord => f.write_str("vector word:"),
            Difference::BitWord => f.write_str("BIT word:"),
            Difference::InitialWord(s, i) => write!(f, "word {i} of subaddress {s}{names}:"),
            Difference::Wraparound => f.write_str("wraparound:"),
        }
    }
}

/// What is so in each of the two, without a line feed.
#[derive(Clone, Copy)]
pub struct Values<'a> {
    pub line: DifferenceLine,
    pub p: &'a Normal,
    pub q: &'a Normal,
    /// What the two are called.
    pub first: &'a str,
    pub second: &'a str,
}

impl Values<'_> {
    /// Writes in which of the two it is so.
    fn put_alone<W: fmt::Write>(&self, f: &mut fmt::Formatter<W>, so: &str) -> fmt::Result {
        let name = if self.line.group.in_first {
            self.first
        } else {
            self.second
        };
        write!(f, "{so} in {name} alone")
    }

    /// Writes which word counts are legal in one alone.
    fn put_one<W: fmt::Write>(&self, f: &mut fmt::Formatter<W>, counts: u32) -> fmt::Result {
        let plural = if counts.count_ones() == 1 { "" } else { "s" };
        let counts = Numbers {
            bits: counts,
            first: 1,
        };
        write!(f, "count{plural} {counts} ")?;
        self.put_alone(f, "legal")
    }

    /// Writes which word counts are legal in each alone.
    fn put_both<W: fmt::Write>(
        &self,
        f: &mut fmt::Formatter<W>,
        ours: u32,
        theirs: u32,
    ) -> fmt::Result {
        let is_one = ours.count_ones() == 1 && theirs.count_ones() == 1;
        let ours = Numbers {
            bits: ours,
            first: 1,
        };
        let theirs = Numbers {
            bits: theirs,
            first: 1,
        };
        if is_one {
            write!(f, "counts {ours} → {theirs}")
        } else {
            write!(
                f,
                "counts {ours} in {}, {theirs} in {}",
                self.first, self.second
            )
        }
    }

    /// Writes the word counts of one group or of two.
    fn put_counts<W: fmt::Write>(&self, f: &mut fmt::Formatter<W>) -> fmt::Result {
        let counts = self.line.group.counts;
        match self.line.other {
            Some(other) => self.put_both(f, counts, other.counts),
            None => self.put_one(f, counts),
        }
    }

    /// Writes the addresses of both.
    fn put_addresses<W: fmt::Write>(&self, f: &mut fmt::Formatter<W>) -> fmt::Result {
        let (ours, theirs) = (self.p.address(), self.q.address());
        write!(f, "{ours} in {}, {theirs} in {}", self.first, self.second)
    }

    /// Writes the words of both.
    fn put_words<W: fmt::Write>(
        &self,
        f: &mut fmt::Formatter<W>,
        ours: u16,
        theirs: u16,
    ) -> fmt::Result {
        write!(
            f,
            "{ours:04x} in {}, {theirs:04x} in {}",
            self.first, self.second
        )
    }

    /// Writes where words come back in one.
    fn put_wrap<W: fmt::Write>(
        &self,
        f: &mut fmt::Formatter<W>,
        wrap: u8,
        name: &str,
    ) -> fmt::Result {
        if wrap == 0 {
            write!(f, "none in {name}")
        } else {
            write!(f, "at {wrap} in {name}")
        }
    }

    /// Writes where words come back in both.
    fn put_wraps<W: fmt::Write>(&self, f: &mut fmt::Formatter<W>) -> fmt::Result {
        self.put_wrap(f, self.p.wrap(), self.first)?;
        f.write_str(", ")?;
        self.put_wrap(f, self.q.wrap(), self.second)
    }
}

impl fmt::Display for Values<'_> {
    fn fmt<W: fmt::Write>(&self, f: &mut fmt::Formatter<W>) -> fmt::Result {
        let (p, q) = (self.p, self.q);
        match self.line.group.difference {
            Difference::Address => self.put_addresses(f),
            Difference::BroadcastOption => self.put_alone(f, "heard"),
            Difference::ReceiveCell(_, _)
            | Difference::TransmitCell(_, _)
            | Difference::BroadcastReceiveCell(_, _) => self.put_counts(f),
            Difference::OwnCode(_) | Difference::BroadcastCode(_) => self.put_alone(f, "legal"),
            Difference::Acceptance => self.put_alone(f, "accepted"),
            Difference::VectorWord => self.put_words(f, p.vector(), q.vector()),
            Difference::BitWord => self.put_words(f, p.bit(), q.bit()),
            Difference::InitialWord(s, i) => {
                self.put_words(f, word_at(p, s, i), word_at(q, s, i))
            }
            Difference::Wraparound => self.put_wraps(f),
        }
    }
}
