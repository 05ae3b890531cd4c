//! What comes of messages, and how often.
ghost use Rattle.std.specs.Prelude.{◌≡◌};
ghost use Rattle.terminal_messages.specs.Parts.{terminal_command};
ghost use Rattle.recording_coverage.specs.inner.Counted.{end_told, with_one};

use bus_word::Command;
use terminal_messages::{MessageEnding, MessageState};

/// How a message ended.
#[derive(Clone, Copy)]
pub struct MessageEnd {
    /// The command for the terminal: of a transfer in which it is the transmitter, the second.
    pub command: Command,
    pub ending: MessageEnding,
}

/// Gives the command that a message has for the terminal of this address.
fn terminal_command(own: u8, first: Command, second: Option<Command>) -> Command
    ensures { result ≡ terminal_command own first second }
{
    match second {
        Some(second) if second.address() == own => second,
        _ => first,
    }
}

/// Gives how a message ended, with that command.
pub fn counted_end(own: u8, message: &MessageState) -> MessageEnd
    ensures { result ≡ end_told own message.now }
{
    MessageEnd {
        command: terminal_command(own, message.command, message.second),
        ending: message.end,
    }
}

/// How often messages came to this. A count that has come to 2^64 - 1 stays so.
#[derive(Clone, Copy, PartialEq, Eq, Debug)]
pub struct OutcomeCounts {
    /// They ended in error: their words were not those that their commands say.
    pub in_error: u64,
    /// They ended well, and are illegal.
    pub illegal: u64,
    /// They ended well, and the busy flag kept the terminal from carrying them out.
    pub blocked: u64,
    /// They ended well, and were carried out.
    pub done: u64,
    /// A command on the other bus came before they ended.
    pub superseded: u64,
    /// The events ended first.
    pub left_open: u64,
}

/// Gives the counts with one more that ended so.
pub fn with_one(counts: OutcomeCounts, ending: MessageEnding) -> OutcomeCounts
    ensures { result ≡ with_one ending counts }
{
    let mut counts = counts;
    match ending {
        MessageEnding::InError(_) => counts.in_error = counts.in_error.saturating_add(1),
        MessageEnding::Illegal => counts.illegal = counts.illegal.saturating_add(1),
        MessageEnding::Busy => counts.blocked = counts.blocked.saturating_add(1),
        MessageEnding::Done => counts.done = counts.done.saturating_add(1),
        MessageEnding::Superseded => counts.superseded = counts.superseded.saturating_add(1),
        MessageEnding::Open => counts.left_open = counts.left_open.saturating_add(1),
        MessageEnding::Other | MessageEnding::Ignored(_) => {}
    }
    counts
}
