//! The words of a table, in the order in which they are heard or sent.
ghost use Rattle.std.specs.Prelude.{◌≡◌};
ghost use Rattle.monitor_tables.specs.Hearing.{hearing_first, begin_beside, comes_first, left_open, is_surely_before, has_unclear_order, end_read, overlaps, is_early};

use bus_word::Bus;
use monitor_cells::{Listening, RecordingSetup, WordRow, is_before_end, word_end};
use terminal_state::same_bus;

/// What the clock of a word of 20 microseconds leaves open, in nanoseconds: 0.1 % (MIL-STD-1553B, 4.3.3.3).
const CLOCK: u64 = 20;

/// What was heard so far, and the word that was read and may be heard later than the next one.
#[derive(Clone, Copy)]
pub struct Hearing {
    /// The last words that were heard.
    pub listening: Listening,
    /// The word that is held back, if there is one.
    pub held: Option<WordRow>,
}

/// When the word of a row begins, if that is on the other bus.
pub fn begin_beside(bus: Bus, row: &WordRow) -> Option<u64>
    ensures { result ≡ begin_beside bus row.now }
{
    if same_bus(bus, row.bus) {
        None
    } else {
        Some(row.time.nanos)
    }
}

/// Whether a word of the terminal is sent before one above it is heard, of another on the other bus.
pub fn comes_first(listening: &Listening, row: &WordRow, held: &WordRow) -> bool
    ensures { result ≡ comes_first listening.now row.now held.now }
{
    let time = listening.row_time(row);
    !same_bus(row.bus, held.bus)
        && listening.is_own_row(row)
        && !listening.is_own_row(held)
        && !is_before_end(listening.row_time(held), Some(time))
}

/// What times of these units leave open of what lies between them, so many words later.
pub fn left_open(words: u64, first: u64, second: u64) -> u64
    ensures { result ≡ left_open words first second }
{
    let units = first.saturating_add(second);
    units.saturating_add(words.saturating_mul(CLOCK))
}

/// Whether a time is before another by more than is left open.
pub fn is_surely_before(time: u64, leeway: u64, other: u64) -> bool
    ensures { result ≡ is_surely_before time leeway other }
{
    time.saturating_add(leeway) < other
}

impl Hearing {
    /// Nothing was read yet.
    pub fn new(setup: RecordingSetup) -> Hearing
        ensures { result ≡ hearing_first setup }
    {
        Hearing {
            listening: Listening::new(setup),
            held: None,
        }
    }

    /// When the last word on a bus ends, of those that were read, if there was one.
    fn end_read(&self, bus: Bus) -> Option<u64>
        ensures { result ≡ end_read self.now bus }
    {
        match &self.held {
            Some(held) if same_bus(bus, held.bus) => Some(word_end(held.time.nanos)),
            _ => self.listening.end_on(bus),
        }
    }

    /// Whether the word of a row begins before the one above it on its bus ends.
    pub fn overlaps(&self, row: &WordRow) -> bool
        ensures { result ≡ overlaps self.now row.now }
    {
        is_before_end(row.time.nanos, self.end_read(row.bus))
    }

    /// Whether it begins before the word that is held back.
    pub fn is_early(&self, row: &WordRow) -> bool
        ensures { result ≡ is_early self.now row.now }
    {
        match &self.held {
            Some(held) => row.time.nanos < held.time.nanos,
            None => false,
        }
    }
    /// Whether its order and that of the word that is held back decides, and times don't tell it.
    pub fn has_unclear_order(&self, row: &WordRow) -> bool
        ensures { result ≡ has_unclear_order self.now row.now }
    {
        let listening = &self.listening;
        match &self.held {
            Some(held) => {
                let leeway = left_open(2, row.time.unit, held.time.unit);
                !same_bus(row.bus, held.bus)
                    && !is_surely_before(listening.row_time(held), leeway, listening.row_time(row))
                    && listening.is_open_row(row)
                    && listening.is_open_row(held)
                    && (listening.is_command_row(row) || listening.is_command_row(held))
            }
            None => false,
        }
    }
}
