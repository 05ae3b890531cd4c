//! A MIL-STD-1553B remote terminal: what it sends and hands over, for every history of its two buses
//! and its subsystem.
#![tactic(auto)]

mod answer;
mod copied_answer;
pub mod laws;
mod settings;
mod terminal;

pub use answer::{Answer, Hand, NextWord, Receiving, Sent, WordsToSend};
pub use copied_answer::CopiedAnswer;
pub use terminal::Terminal;
pub use terminal_rules::{Event, Flag, WordPlace};
