//! The truth values that a terminal keeps.
use bus_word::StatusParts;
use terminal_state::{Flags, OnBuses};

/// The truth values that a terminal keeps.
#[derive(Clone, Copy)]
pub struct Bits {
    /// On which buses the run holds a word for the terminal.
    pub heard: OnBuses,
    pub flags: Flags,
    /// Whether the terminal flag is inhibited.
    pub inhibited: bool,
    /// Whose transmitters are shut down.
    pub off: OnBuses,
    /// The kept status.
    pub status: StatusParts,
}
