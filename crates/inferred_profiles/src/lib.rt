//! Profiles that are proposed from recordings: each explains its recording.
#![tactic(auto)]

mod asked;
mod assumed;
mod cells;
mod checking;
mod evidence;
mod following;
mod guess;
mod inferring;
mod proposal;
mod proposal_text;

pub use inferring::infer;
pub use proposal::Unseen;
