//! Reports as pages: results of scripts, and what recordings show.
#![tactic(auto)]

mod coverage;
mod fields;
mod list;
mod page;
mod style;

pub use coverage::coverage_page;
pub use list::{push_list_code, push_list_end, push_list_front, push_list_row};
pub use page::results_page;
pub use style::RESULTS_STYLE;
