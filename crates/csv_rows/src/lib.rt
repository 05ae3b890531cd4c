//! The rows of a table in CSV, by RFC 4180, and the place where a text is none.
#![tactic(auto)]

mod broken;
mod delimiter;
mod field;
pub mod laws;
mod place;
mod rows;

pub use broken::broken_field;
pub use delimiter::delimiter_of;
pub use place::CellPlace;
pub use rows::{CsvFault, CsvRow, read_rows};
