//! Why a line is not expanded.

use refused_lines::LineReason;
use rt1553_tool::WordLineFault;
use thiserror::Error;

/// Why a line is refused that is to be expanded.
#[derive(Clone, Copy, Debug, PartialEq, Eq, Error)]
pub enum ExpandFault {
    /// It has over 256 bytes before its line feed.
    #[error("over 256 bytes before the line feed")]
    Long,
    /// It is a comment of over 64 bytes before its line feed.
    #[error("a comment of over 64 bytes: a script has none that long")]
    LongComment,
    /// It is no line of a script, and no bus stands at its front, so that it is no message.
    #[error("neither a line of a script nor a message, which begins with A or B and a space")]
    Neither,
    /// It is no line that can be expanded, and a byte order mark stands at its front.
    #[error("{}", LineReason::Mark.text())]
    Mark,
    /// It is no line that can be expanded, and a carriage return stands at its end.
    #[error("{}", LineReason::Return.text())]
    Return,
    /// Something in a message is marked as a comment by `#`.
    #[error("a comment after a message: a comment is a line of its own")]
    Comment,
    /// What stands behind the bus, up to `from` or the colon, says no word.
    #[error("{}", word_fault_text(*.0))]
    Word(WordLineFault),
    /// What stands behind the bus says a word by its digits, and is no line of a script.
    #[error("a message names its fields, by rx, tx, mode, status or data")]
    ByDigits,
    /// `from` stands behind something else than `rx`.
    #[error("from follows rx alone: the terminal of rx receives what another sends")]
    NotReceive,
    /// What stands behind `from` is not the address and the subaddress of another terminal.
    #[error("after from, the address of another terminal, 0 to 30, and its subaddress, 1 to 30, are expected")]
    Sender,
    /// A colon is missing before data words, or data words are missing with it.
    #[error("a colon is missing before the data words, as in A rx 5 3 1: 0001")]
    Colon,
    /// On a bus, the data words of a transfer are missing, and the terminal that sends has no profile there.
    #[error("a colon and data words are missing: no profile has the address of the terminal that sends")]
    SenderWords,
    /// A data word is missing, or is none.
    #[error("a data word is wanted: one space and four hexadecimal digits")]
    DataWord,
    /// Something stands behind all that is wanted.
    #[error("nothing more is wanted: the message has all its data words")]
    Much,
}

/// Why what is to say a word does not: in a message two texts differ from those of a line of words.
fn word_fault_text(fault: WordLineFault) -> &'static str {
    match fault {
        WordLineFault::Long => "a word is said in at most 128 bytes",
        WordLineFault::Name => {
            "after a bus, rx, tx, mode, status or data is expected for a message, and c, d, gap or noise for an event"
        }
        _ => fault.text(),
    }
}
