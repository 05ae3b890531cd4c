//! What a recording shows of a terminal: which legal messages came, how often and how they ended, and which illegal ones.
#![tactic(auto)]

mod counting;
mod coverage;
mod covering;
mod json;
pub mod laws;
mod legal;
mod lines;
mod outcome;
mod places;
mod rows;
mod table;
mod text;

pub use coverage::Coverage;
pub use covering::{count_events, coverage_of};
pub use json::coverage_json;
pub use lines::{CoverageLine, illegal_lines, legal_lines, push_command, push_place};
pub use outcome::{MessageEnd, OutcomeCounts};
pub use places::{
    CoverageRow, come_in, done_in, has_come, message_rows, total_of, was_done, word_count_in,
    word_counts,
};
pub use rows::{CoveredMessage, IllegalMessage, covered_messages, illegal_messages};
pub use table::CoverageTable;
pub use text::coverage_text;
