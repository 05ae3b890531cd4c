//! Scripts for a bus of terminals: their lines are read, and played to the bus.
#![tactic(auto)]

mod line;
mod playing;
mod texts;

pub use line::{BusLineFault, address_first, read_bus_line};
pub use playing::{BusScriptFault, BusTold, BusWarning, PlayedOnBus, play_on_bus};
pub use texts::{push_answers, push_came};
