//! Names of messages: rows that speak of cells, the name of a cell, and names as they are printed.
#![tactic(auto)]

mod cells;
mod counts;
mod list;
mod names;
mod printed;

pub use cells::NamedCells;
pub use counts::{MessageCounts, MessageKind, has_number, name_in, owned, push_name};
pub use list::NameList;
pub use names::MessageNames;
pub use printed::{quoted, quoted_short};
