//! What a terminal keeps of its history: the message in progress, registers, the reply in progress, words held ready.
#![tactic(auto)]

mod buses;
mod decoded;
mod ended;
mod held;
mod message;
mod registers;
mod reply;

pub use buses::{OnBuses, same_bus};
pub use decoded::Decoded;
pub use ended::{Ended, code_in, reports_kept, verdict_of};
pub use held::{Blocks, HeldWords};
pub use message::{Collected, GapEnd, InProgress, Message, Phase};
pub use registers::{Flags, PowerUpWords, Registers};
pub use reply::{Reply, advance, advance_by, begin};
