//! A profile from the table of an interface control document.
#![tactic(auto)]

mod alike;
mod cells;
mod column;
mod fault;
mod importing;
mod kind;
mod places;
mod reading;
mod same;
mod sheet;
mod table_faults;
mod tree;
mod writing;

pub use alike::is_alike;
pub use cells::cell_number;
pub use column::{TABLE_COLUMNS, TableColumn};
pub use fault::{FaultyTable, ImportFault, TableFault, TableFaultKind};
pub use importing::{Imported, faultless_sheet, import_table};
pub use kind::{ROW_KINDS, RowKind};
pub use places::key_column;
pub use sheet::{Sheet, TableRow};
