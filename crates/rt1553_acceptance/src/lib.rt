//! Scripts that state the answers of a terminal: its acceptance test, and any script with its answers.
#![tactic(auto)]

mod answering;
mod label;
mod remark;
mod stating;
mod writing;

pub use answering::{Answered, state_answers};
pub use label::{LabelLine, label_of};
pub use writing::{Progress, write_acceptance};
