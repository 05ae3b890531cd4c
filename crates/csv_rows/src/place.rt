//! Places in a table.
use std::fmt;

/// A place in a table: a line of its text and the number of a field in its row, each from 1.
#[derive(Clone, Copy, Debug, PartialEq, Eq)]
pub struct CellPlace {
    pub row: u64,
    pub column: u64,
}

impl fmt::Display for CellPlace {
    fn fmt<W: fmt::Write>(&self, f: &mut fmt::Formatter<W>) -> fmt::Result {
        write!(f, "row {}, column {}", self.row, self.column)
    }
}
