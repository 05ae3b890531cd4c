//! The messages of a schedule, in any order.
#![tactic(auto)]

pub mod laws;
mod left;

pub use left::{LeftAt, LeftBehind, left_behind, play_to_clear};
