//! Recordings as scripts that state what a unit sent: read, and the first line that no behaviour of the subsystem explains.
#![tactic(auto)]

mod explaining;
mod reading;
mod settling;
mod tally;
mod telling;
mod words;

pub use explaining::{Explained, ExplainedSince, UnexplainedLine, watch_recording, watch_since};
pub use reading::{RecordingFault, read_recording};
pub use telling::{recorded_events, witness, witness_since};
pub use words::read_sent;
