//! The commands `verify`, `coverage`, `infer` and `acceptance` of `rt1553-tool`: scripts that state their answers are played, and what
//! came of them is told; recordings are counted; a profile is found that explains one; and the acceptance test is written, or what a unit
//! answered to it is judged.
#![tactic(auto)]

mod acceptance;
mod compared;
mod coverage;
mod head;
mod infer;
mod opened;
mod replied;
mod report;
mod summary;
mod unit_results;
mod unit_verdict;
mod verify;
mod warned;

pub use acceptance::write_test;
pub use coverage::cover_scripts;
pub use infer::infer_profile;
pub use unit_results::against;
pub use verify::{explain_recording, verify_scripts};
