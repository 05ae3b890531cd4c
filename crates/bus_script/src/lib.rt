//! The run of a terminal from a script to its transcript. What reads and writes lines, and what bytes come from and go to,
//! is told here too.
#![tactic(auto)]

mod answering;
mod fault;
mod feed;
mod lines;
mod piece;
mod receiving;
mod run;
mod sending;

pub use byte_streams::{
    FromRead, FromWrite, IoFailed, MemorySink, MemorySource, Sink, Source, write_all,
};
pub use fault::RunFault;
pub use run::run_script;
pub use script_lines::{
    LineFault, digits_of, find_line_feed, flag_name, push_number, push_word, read_event, read_word,
    received_by, write_answer, write_event,
};
