//! Tables that a bus monitor exports, as recordings: scripts that state what a unit sent.
#![tactic(auto)]

mod column;
mod fault;
mod header;
mod hearing;
pub mod laws;
mod lines;
mod message_times;
mod messages;
mod recording;
mod records;
mod words;

pub use column::MonitorColumn;
pub use fault::{EarlyEnd, MonitorFault, RefusedRow};
pub use header::LeftOutColumn;
pub use lines::end_early;
pub use recording::{MonitorTable, open_table, write_recording};
