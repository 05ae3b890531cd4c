//! The header of a table: where its columns are.
ghost use Rattle.std.specs.Prelude.{◌≡◌, IfOk, MatchOption, MatchResult};
ghost use Rattle.csv.specs.Records.{fields_of};
ghost use Rattle.monitor_tables.specs.Header.{monitor_column_name, IsNotNamed, IsNamedAt, IsTwice, IsNoColumnFound, IsLayoutOf, columns_of, names_one, is_left_out, IsLeftOutColumn, AreLeftOut};

use crate::column::{MESSAGE_COLUMNS, MonitorColumn, WORD_COLUMNS};
use crate::fault::MonitorFault;
use crate::messages::MessageColumns;
use crate::records::{field_of, field_place};
use crate::words::WordColumns;
use csv::ByteRecord;
use csv_rows::CellPlace;
use monitor_cells::is_headed;
use rt1553_files::escaped;
use std::alloc::{AllocError, Global};
use std::fmt;

/// A column of the header that is left out, since no column that counts has its name.
#[derive(Drop)]
pub struct LeftOutColumn {
    pub place: CellPlace,
    /// The name, escaped.
    pub name: String,
}

impl fmt::Display for LeftOutColumn {
    /// What follows the name of the file and a colon.
    fn fmt<W: fmt::Write>(&self, f: &mut fmt::Formatter<W>) -> fmt::Result {
        write!(
            f,
            "{}:{}: warning: the column \"{}\" is left out",
            self.place.row,
            self.place.column,
            self.name.as_str()
        )
    }
}

/// What the rows of a table are, and where they have their fields.
#[derive(Clone, Copy)]
pub enum TableLayout {
    Words(WordColumns),
    Messages(MessageColumns),
}

impl TableLayout {
    /// The columns that count.
    fn columns(&self) -> &'static [MonitorColumn]
        ensures { result.now ≡ columns_of self.now }
    {
        match self {
            TableLayout::Words(_) => &WORD_COLUMNS,
            TableLayout::Messages(_) => &MESSAGE_COLUMNS,
        }
    }
}

/// Whether a header is the name of one of these columns.
fn names_one(columns: &[MonitorColumn], text: &[u8]) -> bool
    ensures { result ≡ names_one columns.now text.now }
{
    'columns: for column in columns {
        if is_headed(column.name(), text) {
            return true;
        }
    }
    false
}

/// Whether a field of the header is left out: there is text in it, and it names no column that counts.
fn is_left_out(layout: &TableLayout, text: &[u8]) -> bool
    ensures { result ≡ is_left_out layout.now text.now }
{
    !text.is_empty() && !names_one(layout.columns(), text)
}

/// The number, from 0, of the field that names a column, if one does.
pub fn find_column(
    header: &ByteRecord,
    line: u64,
    column: MonitorColumn,
) -> Result<Option<usize>, MonitorFault>
    ensures { MatchResult result (λ found. MatchOption found (IsNotNamed (monitor_column_name column) (fields_of header.now)) (IsNamedAt (monitor_column_name column) (fields_of header.now))) (IsTwice (monitor_column_name column) (fields_of header.now)) }
{
    let mut found = None;
    for field in 0..header.len() {
        if is_headed(column.name(), field_of(header, field)) {
            if found.is_some() {
                return Err(MonitorFault::TwoColumns(field_place(line, field), column));
            }
            found = Some(field);
        }
    }
    Ok(found)
}

/// The number, from 0, of the field that names a column.
pub fn need_column(
    header: &ByteRecord,
    line: u64,
    column: MonitorColumn,
) -> Result<usize, MonitorFault>
    ensures { MatchResult result (IsNamedAt (monitor_column_name column) (fields_of header.now)) (IsNoColumnFound (monitor_column_name column) (fields_of header.now)) }
{
    match find_column(header, line, column)? {
        Some(field) => Ok(field),
        None => Err(MonitorFault::NoColumn(field_place(line, header.len()), column)),
    }
}

/// The layout of the table with this header.
pub fn read_layout(header: &ByteRecord, line: u64) -> Result<TableLayout, MonitorFault>
    ensures { IfOk result (IsLayoutOf (fields_of header.now)) }
{
    let word = find_column(header, line, MonitorColumn::Word)?;
    let command = find_column(header, line, MonitorColumn::Command)?;
    match (word, command) {
        (Some(word), Some(command)) => Err(MonitorFault::TwoKinds(field_place(
            line,
            word.max(command),
        ))),
        (Some(word), None) => Ok(TableLayout::Words(WordColumns::read(header, line, word)?)),
        (None, Some(command)) => Ok(TableLayout::Messages(MessageColumns::read(
            header, line, command,
        )?)),
        (None, None) => Err(MonitorFault::NoKind(field_place(line, header.len()))),
    }
}

/// The column of a field of the header.
fn left_out_column(
    alloc: Global,
    header: &ByteRecord,
    line: u64,
    field: usize,
) -> Result<LeftOutColumn, AllocError>
    ensures { IfOk result (IsLeftOutColumn (fields_of header.now) line field) }
{
    Ok(LeftOutColumn {
        place: field_place(line, field),
        name: escaped(alloc, field_of(header, field))?,
    })
}

/// The columns that are left out. One without a name is not told.
pub fn left_out(
    alloc: Global,
    layout: &TableLayout,
    header: &ByteRecord,
    line: u64,
) -> Result<Vec<LeftOutColumn>, AllocError>
    ensures { IfOk result (λ columns. AreLeftOut layout.now (fields_of header.now) line columns.items) }
{
    let mut columns = Vec::new(alloc);
    'fields: for field in 0..header.len() {
        if is_left_out(layout, field_of(header, field)) {
            columns.push(left_out_column(alloc, header, line, field)?)?;
        }
    }
    Ok(columns)
}
