//! The acceptance test of a terminal as a table, and the results of a unit compared with it.
#![tactic(auto)]

mod asked;
mod comparing;
mod comparison;
mod explaining;
mod fields;
mod json;
pub mod laws;
mod playing;
mod results;
mod rows;
mod table;
mod texts;
mod told;
mod watching;

pub use asked::other_command;
pub use bus_complete_test::Exchange;
pub use comparing::{CompareFault, compare_results};
pub use comparison::Comparison;
pub use explaining::{ResultsExplained, UnexplainedReply, explain_results};
pub use json::json_row;
pub use playing::{Handed, TestRow};
pub use results::{GivenReply, Results, ResultsFault, read_results};
pub use rows::Rows;
pub use table::{csv_header, csv_row};
pub use texts::reply_text;
