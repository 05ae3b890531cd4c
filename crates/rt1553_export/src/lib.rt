//! A table of an interface control document for a terminal: a small one, read again before it is given out, and a full one.
#![tactic(auto)]

mod exporting;
mod full;
mod records;
mod small;

pub use exporting::{export_table, full_table_of};
