//! A TOML profile for a terminal: a small one, read again before it is given out, and a full one.
#![tactic(auto)]

mod full_tree;
pub mod groups;
mod profile_text;
pub mod sets;
mod written;

pub use profile_text::{full_toml_of, toml_of};
