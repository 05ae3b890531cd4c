//! The messages of a run as rows: as text, CSV and JSON, and as the cells of a list.
#![tactic(auto)]

mod cells;
mod commands;
mod field;
mod filter;
mod json;
mod line;
mod status;
mod table;
mod text;

pub use cells::{CELL_NAMES, row_cells};
pub use commands::{MessageCommands, MessageForm};
pub use field::RowText;
pub use filter::{RowFilter, is_faulty};
pub use json::row_json;
pub use line::row_line;
pub use table::{row_record, rows_header};
pub use text::{ROW_HEADER, row_text};
