//! Why a line is no line of a script.
ghost use Rattle.std.specs.Prelude.{◌≡◌, ◌<◌, ◌≤◌, IfSome, is_some, length};
ghost use Rattle.refused_lines.specs.Refused.{is_refused};
ghost use Rattle.refused_lines.specs.Reasons.{reason_text};

use crate::blanks::misplaced_blank;
use crate::fields::misfit_in_fields;
use script_lines::{MAX_LINE, read_event};
use std::fmt;

/// Why a line is no line of a script.
#[derive(Clone, Copy, Debug, PartialEq, Eq)]
pub enum LineReason {
    Long,
    Mark,
    Return,
    Tab,
    Front,
    Spaces,
    End,
    Comment,
    Name,
    Spelling,
    OnBus,
    Sent,
    Digits,
    Parity,
    Subaddress,
    Number,
    Flag,
    Value,
    Much,
    Many,
    Answer,
    Message,
}

impl LineReason {
    /// The reason in words, in one line.
    pub fn text(self) -> &'static str
        ensures value { result.now ≡ reason_text self }
        ensures short { length result.now ≤ 120 }
    {
        match self {
            LineReason::Long => "over 64 bytes before the line feed",
            LineReason::Mark => "a byte order mark: save the file as UTF-8 without it",
            LineReason::Return => "a carriage return: a line ends in a line feed alone",
            LineReason::Tab => "a tab: fields are separated by one space",
            LineReason::Front => "a space at the front: a line begins with its first field",
            LineReason::Spaces => "a second space: fields are separated by exactly one",
            LineReason::End => "a space at the end: nothing may follow the last field",
            LineReason::Comment => "a comment after a field: a comment is a line of its own",
            LineReason::Name =>
                "no event begins like this: it is A, B, slot, write, vector, bit or flag",
            LineReason::Spelling =>
                "names have one spelling: A, B, slot, write, vector, bit, flag, c, d, gap, noise",
            LineReason::OnBus => "after a bus, c, d, gap or noise is expected",
            LineReason::Sent =>
                "the terminal's own words are no events; the status word of another terminal is written as a word with c",
            LineReason::Digits => "a word is four hexadecimal digits, without a mark",
            LineReason::Parity => "a parity bit is 0 or 1",
            LineReason::Subaddress => "a subaddress is two digits, 01 to 30",
            LineReason::Number => "the number of a word is two digits, 01 to 32",
            LineReason::Flag => "a flag is service, busy, subsystem or terminal, in small letters",
            LineReason::Value => "a flag is set by 1 and taken back by 0",
            LineReason::Much => "nothing may follow the last field",
            LineReason::Many => "a script has at most 1,048,576 lines",
            LineReason::Answer =>
                "looks like a stated answer and is a comment: one space comes after #>, #~ or #+, and none before it",
            LineReason::Message =>
                "a message and no event: `expand` writes its events, and --expand reads messages",
        }
    }
}

impl fmt::Display for LineReason {
    fn fmt<W: fmt::Write>(&self, f: &mut fmt::Formatter<W>) -> fmt::Result {
        f.write_str(self.text())
    }
}

/// Where a line stops being a line of a script, and why.
#[derive(Clone, Copy, PartialEq, Eq)]
pub struct Misfit {
    /// The first byte that doesn't fit, from 1; the one behind the line where more is wanted.
    pub column: usize,
    pub reason: LineReason,
}

/// Tells where a line, which has no line feed, stops being a line of a script, and why. None for a line that is one, of at most
/// 64 bytes.
pub fn misfit_of(line: &[u8]) -> Option<Misfit>
    ensures refused { is_some result ≡ is_refused line.now }
    ensures column { IfSome result (λ misfit. (0 < misfit.column) × (misfit.column ≤ 65)) }
{
    if line.len() > MAX_LINE {
        return Some(Misfit {
            column: MAX_LINE + 1,
            reason: LineReason::Long,
        });
    }
    if read_event(line).is_ok() {
        return None;
    }
    let misfit = match misplaced_blank(line) {
        Some(misfit) => misfit,
        None => misfit_in_fields(line),
    };
    Some(misfit)
}
