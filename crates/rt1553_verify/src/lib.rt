//! Scripts that state their answers: read, played to a terminal, and what differs told.
#![tactic(auto)]

mod commands;
mod heading;
pub mod laws;
mod matching;
mod possible;
mod reader;
mod replies;
mod stated;
mod verifying;
mod words;

pub use commands::{command_after, message_commands};
pub use heading::named;
pub use matching::Matching;
pub use reader::StatedReader;
pub use replies::{NumberRange, ReplyText, WrongReply};
pub use stated::{
    ScriptWarning, Stated, StatedFault, answers_in, read_stated, script_warning, stated_on_bus,
    stated_warning,
};
pub use verifying::{WrongAnswer, verify, wrong_answers};
pub use words::{word_string, word_strings};
