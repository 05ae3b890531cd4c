//! The lines of scripts and of transcripts: events are read and written, answers are written.
#![tactic(auto)]

mod digits;
mod event_line;
mod known_digits;
mod known_pairs;
mod line;
mod line_feed;
mod transcript;
mod usual;

pub use digits::{digits_of, push_number, push_word, read_word};
pub use event_line::{flag_name, write_event};
pub use known_pairs::KnownPairs;
pub use line::{LineFault, LineReader, MAX_LINE, MAX_LINES, read_bus, read_event};
pub use line_feed::find_line_feed;
pub use transcript::{
    push_answer, push_data_words, push_field, push_received_by, received_by, write_answer,
};
pub use usual::{
    GAP_LINE, SLOT_LINE, SLOTS, WORD_LINE, are_slots_first, first_gap, is_gap_first, is_slot_first,
};
