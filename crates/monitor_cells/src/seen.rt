//! Words as the rows of a table say them.
use crate::cells::{MonitorTime, WordSync};
use bus_word::Bus;

/// What a row says of the word itself.
#[derive(Clone, Copy)]
pub enum SeenWord {
    /// It was not valid.
    Noise,
    /// It was valid, with this sync and these 16 bits.
    Valid(WordSync, u16),
}

/// A row: a word on a bus.
#[derive(Clone, Copy)]
pub struct WordRow {
    pub time: MonitorTime,
    pub bus: Bus,
    pub word: SeenWord,
}
