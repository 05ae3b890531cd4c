//! What a MIL-STD-1553B remote terminal answers to a history of events: the definitions, laws over them, and worked examples.
#![tactic(auto)]

mod event;
pub mod laws;
pub mod worked_examples;

pub use event::{Event, Flag, WordPlace};
