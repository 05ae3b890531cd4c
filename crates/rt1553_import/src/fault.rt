//! What is wrong with a table, and where.
ghost use Rattle.std.specs.Prelude.{◌≡◌};
ghost use Rattle.rt1553_import.specs.declared.fault.ImportFault.TheVariants.{Memory};
ghost use Rattle.rt1553_import.specs.NoTable.{table_fault_of};

use crate::column::TableColumn;
use crate::sheet::Sheet;
use bus_profile::ProfileFault;
use csv_rows::{CellPlace, CsvFault};
use std::alloc::{AllocError, AllocFailed};
use thiserror::Error;

/// What is wrong at a place of a table.
#[derive(Clone, Copy, Debug)]
pub enum TableFaultKind {
    /// The header has no such column, and there are rows that say nothing without it.
    NoColumn(TableColumn),
    /// A second column of the header has this name.
    TwoColumns(TableColumn),
    /// The row has not as many fields as the header.
    Fields,
    /// The text in the column `kind` names no kind.
    UnknownKind,
    /// An earlier row has the same setting.
    Twice,
    /// There is text in a column that rows of this kind don't have.
    NotTaken(TableColumn),
    /// There are initial words, and the subaddress is not one number.
    OneSubaddress,
    /// The text is no list of words.
    NotWords,
    /// The profile that the table says has a fault.
    Profile(ProfileFault),
}

/// A fault of a table.
#[derive(Clone, Copy, Debug)]
pub struct TableFault {
    /// Its place; none where it is one of the whole table.
    pub place: Option<CellPlace>,
    pub kind: TableFaultKind,
}

/// A table with faults.
#[derive(Debug, Drop)]
pub struct FaultyTable {
    pub sheet: Sheet,
    /// All the faults: those of the table itself in the order of its rows, then those of the profile that it says.
    pub faults: Vec<TableFault>,
}

/// Why a table is refused.
#[derive(Debug, Drop, Error)]
pub enum ImportFault {
    /// The table has faults.
    #[error("table: faults")]
    Faults(FaultyTable),
    /// The table has no fault, but with its names the profile is larger than a profile may be: the place of the longest name.
    #[error("table: {0}: names as long as this make a profile of over 1,048,576 bytes")]
    LongNames(CellPlace),
    /// A field is not in UTF-8; the line on which its record begins, from 1.
    #[error("table: row {0}: not UTF-8")]
    NotText(u64),
    /// The text is no CSV: the place of the first field with a misplaced quote, or without its closing quote.
    #[error("table: {0}: not CSV, a quote is misplaced or missing")]
    NotCsv(CellPlace),
    /// A growth of memory was refused, which says nothing of the table.
    #[error("out of memory")]
    Memory,
}

impl From<AllocError> for ImportFault {
    ghost from_gives = { λ _ fault. fault ≡ Memory };

    fn from(_error: AllocError) -> ImportFault {
        ImportFault::Memory
    }
}

impl<T: Drop> From<AllocFailed<T>> for ImportFault {
    ghost from_gives = { λ _ fault. fault ≡ Memory };

    fn from(_failed: AllocFailed<T>) -> ImportFault {
        ImportFault::Memory
    }
}

impl From<CsvFault> for ImportFault {
    ghost from_gives = { λ rows fault. fault ≡ table_fault_of rows };

    fn from(fault: CsvFault) -> ImportFault {
        match fault {
            CsvFault::NotCsv(place) => ImportFault::NotCsv(place),
            CsvFault::Memory => ImportFault::Memory,
        }
    }
}
