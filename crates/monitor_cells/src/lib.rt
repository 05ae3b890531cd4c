//! What the cells of a table say that a bus monitor exports: times, buses, syncs and words; and what is heard by the times of words.
#![tactic(auto)]

mod cells;
mod heard;
mod listening;
mod seen;
mod setup;
mod silence;

pub use cells::{
    MonitorTime, TimeText, WordSync, is_headed, kind_of_sync, read_bus_cell, read_sync_cell,
    read_time, read_word_cell, read_words_cell,
};
pub use heard::{HeardItem, is_command_sync, other_bus};
pub use listening::{
    Listening, becomes_longer, has_lasted, has_passed, is_before_end, is_meant_for, is_over_before,
    later_end, may_be_deaf, recovered_at, word_end,
};
pub use seen::{SeenWord, WordRow};
pub use setup::{LONGEST_WAIT, RecordingSetup, SHORTEST_WAIT, WORD_TIME};
pub use silence::{Silence, gap_if, maybe_gap_if, maybe_silent_if, pause_if, slot_if};
