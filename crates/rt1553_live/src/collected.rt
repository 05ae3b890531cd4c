//! The message in progress as it is saved, and put together again.
ghost use Rattle.std.specs.Prelude.{◌≡◌, ◌≤◌, length};
ghost use Rattle.rt1553_live.specs.Numbers.{IsCounted};
ghost use Rattle.rt1553_live.specs.State.{saved_message, saved_words};
ghost use Rattle.rt1553_live.specs.Text.{word_number};

use crate::message::SavedMessage;
use crate::message_words::has_words;
use arrayvec::ArrayVec;
use terminal_state::{Decoded, InProgress, Message};

/// The message in progress, beside its data words.
pub fn message_of(in_progress: &InProgress) -> Option<SavedMessage>
    ensures message { result ≡ saved_message in_progress.now.message in_progress.now.words.items }
    ensures counted { IsCounted result }
    ensures count { word_number result ≡ length (saved_words in_progress.now.message in_progress.now.words.items) }
{
    match in_progress.message {
        None => None,
        Some(message) => Some(SavedMessage {
            bus: message.bus,
            command: message.decoded.command,
            phase: message.phase,
            count: if has_words(message.phase) {
                in_progress.words.len() as u8
            } else {
                0
            },
        }),
    }
}

/// The data words that it collected, where it collects nothing else.
pub fn words_of(in_progress: &InProgress) -> &[u16]
    ensures { result.now ≡ saved_words in_progress.now.message in_progress.now.words.items }
{
    match in_progress.message {
        Some(message) if has_words(message.phase) => in_progress.words.as_slice(),
        _ => &[],
    }
}

/// The message in progress with these data words.
pub fn in_progress_of(message: Option<SavedMessage>, words: ArrayVec<u16, 32>) -> InProgress
    requires counted { IsCounted message }
    requires count { length words.items ≡ word_number message }
    ensures message { saved_message result.message result.words.items ≡ message }
    ensures words { saved_words result.message result.words.items ≡ words.items }
{
    InProgress {
        message: match message {
            None => None,
            Some(message) => Some(Message {
                bus: message.bus,
                decoded: Decoded::of(message.command),
                phase: message.phase,
            }),
        },
        words,
    }
}
