//! What a comparison tells, in words.
use crate::comparison::{Comparison, count_of};
use crate::explaining::{ResultsExplained, UnexplainedReply};
use recorded_terminal::Sent;
use rt1553_verify::ReplyText;
use std::fmt;

/// A word that can be sent, or `none`.
#[derive(Clone, Copy)]
struct WordText(Option<Sent>);

impl fmt::Display for WordText {
    fn fmt<W: fmt::Write>(&self, f: &mut fmt::Formatter<W>) -> fmt::Result {
        match self.0 {
            Some(sent) => write!(f, "{:04x}", sent.bits),
            None => f.write_str("none"),
        }
    }
}

/// As `receive 3, 2 words: legal: came none, word 1 can be 2800`.
impl fmt::Display for UnexplainedReply {
    fn fmt<W: fmt::Write>(&self, f: &mut fmt::Formatter<W>) -> fmt::Result {
        write!(
            f,
            "{}: came {}, word {} can be {}",
            self.label.as_str(),
            ReplyText(self.came.as_slice()),
            self.slot.saturating_add(1),
            WordText(self.possible)
        )
    }
}

/// The verdict, one line. Where some replies are others, they decide.
impl fmt::Display for Comparison {
    fn fmt<W: fmt::Write>(&self, f: &mut fmt::Formatter<W>) -> fmt::Result {
        let total = self.total;
        if !self.wrong_replies.is_empty() {
            let others = self.wrong_replies.len();
            write!(
                f,
                "{others} of {total} exchanges are answered otherwise: it is another terminal"
            )
        } else if !self.missing.is_empty() {
            let missing = count_of(self.missing.as_slice());
            write!(
                f,
                "{missing} of {total} exchanges have no result: no verdict"
            )
        } else {
            write!(
                f,
                "all {total} exchanges are answered as by this terminal: it is the same terminal"
            )
        }
    }
}

/// The verdict, one line. A reply that nothing explains decides.
impl fmt::Display for ResultsExplained {
    fn fmt<W: fmt::Write>(&self, f: &mut fmt::Formatter<W>) -> fmt::Result {
        let total = self.total;
        if let Some(first) = &self.first {
            write!(
                f,
                "no behaviour of the subsystem explains exchange {} of {total}: it is another terminal",
                first.number
            )
        } else if let Some(numbers) = self.missing.as_slice().first() {
            let missing = count_of(self.missing.as_slice());
            write!(
                f,
                "{missing} of {total} exchanges have no result, and from {} on nothing is judged: no verdict",
                numbers.first
            )
        } else {
            write!(
                f,
                "some behaviour of the subsystem explains all {total} exchanges"
            )
        }
    }
}
