//! The message in progress.

use bus_word::{Bus, Command};
use terminal_state::Phase;

/// A message in progress, beside the data words that it collected.
#[derive(Clone, Copy)]
pub struct SavedMessage {
    pub bus: Bus,
    pub command: Command,
    pub phase: Phase,
    /// How many data words it collected, where it collects nothing else.
    pub count: u8,
}
