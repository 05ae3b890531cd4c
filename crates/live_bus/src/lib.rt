//! A bus of terminals for callers in other languages: it is stepped by events that are plain numbers, and what its terminals send and
//! hand over are plain numbers too.
#![tactic(auto)]

mod event;
mod front;
mod making;
mod stepping;
mod taking;
mod telling;

pub use front::{BusAnswer, LiveBus};
pub use making::{bus_is_sent, copy_bus, join_bus, new_bus};
pub use stepping::step_bus;
pub use taking::{NotTaken, terminal_of_bus};
