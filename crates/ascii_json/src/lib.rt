//! JSON as the programs write it: on one line, and of nothing but printable characters of ASCII.
#![tactic(auto)]

mod ascii;
mod line;

pub use ascii::in_ascii;
pub use line::{json_line, named_json};
