//! The messages of a run for a terminal: which there are, what belongs to each, and how each ended.
#![tactic(auto)]

mod ending;
mod fold;
mod kept;
pub mod laws;
mod part;
mod seen;
mod state;
mod watch;
pub mod worked_examples;

pub use ending::{ErrorCause, IgnoreCause, MessageEnding, Unsent};
pub use fold::{ClosedMessages, MessageFold, OwnAddress};
pub use kept::{KeptMessage, MOST_WORDS};
pub use part::MessagePart;
pub use seen::SeenEvent;
pub use state::{MessageState, ToAnswer};
pub use watch::{MessageWatch, see_event};
