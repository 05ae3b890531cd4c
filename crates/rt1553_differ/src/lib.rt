//! What a profile means as a table, and in what two profiles differ.
#![tactic(auto)]

mod columns;
mod differing;
mod explained;
mod groups;
mod lines;
mod named;
mod scripts;
mod table;
mod told;

pub use differing::differences;
pub use explained::{Codes, SubaddressRow, codes_of, row_of};
pub use groups::{CountKind, Group, groups_of};
pub use scripts::script_of;
pub use table::{explain, explain_json, explain_page};
pub use told::{Pair, differ_json, differ_text};
