//! A bus of several terminals with different addresses: definitions, laws, and the bus that steps its terminals together.
#![tactic(auto)]

mod answers;
mod bus;
mod came;
mod discipline;
mod event;
mod exchange;
pub mod laws;
mod seat;

pub use answers::AddressedAnswer;
pub use bus::{NotAdded, TerminalBus};
pub use came::CameTo;
pub use discipline::Breach;
pub use event::BusEvent;
