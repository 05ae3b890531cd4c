//! Exchanges of a bus controller with a terminal, as values, and the scripts of them that tell two terminals apart:
//! definitions and laws.
#![tactic(auto)]

mod events;
mod exchange;
pub mod laws;
mod shortest;

pub use events::{Script, events_of, push_exchange};
pub use exchange::{ALL_TERMINALS, Exchange, ask, mode_code, receive, transmit};
pub use shortest::{shortest_receive, shortest_transmit};
