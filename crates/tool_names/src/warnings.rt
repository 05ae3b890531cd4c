//! What of a table is worth a look.
use csv_rows::CellPlace;
use rt1553_files::escaped;
use rt1553_import::{RowKind, Sheet, TABLE_COLUMNS, TableColumn, TableRow, is_alike};
use std::alloc::{AllocError, Global};
use std::fmt;

/// What of a table is worth a look, with its place. It is shown as what follows the name of the file and a colon.
#[derive(Drop)]
pub struct TableWarning {
    place: CellPlace,
    /// What it is; what it cites is escaped.
    text: String,
}

impl fmt::Display for TableWarning {
    fn fmt<W: fmt::Write>(&self, f: &mut fmt::Formatter<W>) -> fmt::Result {
        let (row, column) = (self.place.row, self.place.column);
        write!(f, "{row}:{column}: warning: {}", self.text.as_str())
    }
}

/// The columns that count, by their names.
struct KnownColumns;

impl fmt::Display for KnownColumns {
    fn fmt<W: fmt::Write>(&self, f: &mut fmt::Formatter<W>) -> fmt::Result {
        let mut before = "";
        for column in TABLE_COLUMNS {
            write!(f, "{before}{}", column.name())?;
            before = ", ";
        }
        Ok(())
    }
}

/// The name of a column as the header has it.
fn header_text(sheet: &Sheet, column: TableColumn) -> &str {
    let Some(place) = sheet.place_of(column) else {
        return column.name();
    };
    match sheet.header.fields.get(place) {
        Some(name) => name,
        None => column.name(),
    }
}

/// The name of a column as the header has it, escaped.
pub fn column_text(
    alloc: Global,
    sheet: &Sheet,
    column: TableColumn,
) -> Result<String, AllocError> {
    escaped(alloc, header_text(sheet, column).as_bytes())
}

/// Whether a column has this name.
fn is_known(name: &str) -> bool {
    TABLE_COLUMNS
        .iter()
        .any(|column| is_alike(column.name(), name))
}

/// The place of a field of the header, by its index.
fn header_place(sheet: &Sheet, index: usize) -> CellPlace {
    CellPlace {
        row: sheet.header.line,
        column: (index as u64).saturating_add(1),
    }
}

/// Adds the columns that are left out. One without a name is not told.
fn push_left_out(
    alloc: Global,
    sheet: &Sheet,
    warnings: &mut Vec<TableWarning>,
) -> Result<(), AllocError> {
    for index in 0..sheet.header.fields.len() {
        let Some(name) = sheet.header.fields.get(index) else {
            continue;
        };
        if name.is_empty() || is_known(name) {
            continue;
        }
        let name = escaped(alloc, name.as_bytes())?;
        warnings.push(TableWarning {
            place: header_place(sheet, index),
            text: format!(in alloc;
                "the column \"{}\" is left out; known are {}",
                name.as_str(),
                KnownColumns
            )?,
        })?;
    }
    Ok(())
}

/// That the header has no such column, behind its last, and what follows from it.
fn no_column(
    alloc: Global,
    sheet: &Sheet,
    column: TableColumn,
    effect: &str,
) -> Result<TableWarning, AllocError> {
    Ok(TableWarning {
        place: header_place(sheet, sheet.header.fields.len()),
        text: format!(in alloc; "no column is named {column}, so {effect}")?,
    })
}

/// Whether a row is a message of data.
fn is_message(sheet: &Sheet, row: &TableRow) -> bool {
    match RowKind::of(sheet.cell(row, TableColumn::Kind)) {
        Some(kind) => kind.is_message(),
        None => false,
    }
}

/// Whether a row is a word of four decimal digits, as a hexadecimal one may look.
fn is_decimal_word(sheet: &Sheet, row: &TableRow) -> bool {
    let value = sheet.cell(row, TableColumn::Value).as_bytes();
    let is_word = sheet.is_kind(row, RowKind::Bit) || sheet.is_kind(row, RowKind::Vector);
    is_word && value.len() == 4 && value.iter().all(|byte| byte.is_ascii_digit())
}

/// Adds a warning of a row in a column.
fn push_cell_warning(
    alloc: Global,
    sheet: &Sheet,
    warnings: &mut Vec<TableWarning>,
    row: &TableRow,
    column: TableColumn,
    why: &str,
) -> Result<(), AllocError> {
    let name = column_text(alloc, sheet, column)?;
    warnings.push(TableWarning {
        place: sheet.place(row, column),
        text: format!(in alloc; "{}: {why}: is this meant?", name.as_str())?,
    })?;
    Ok(())
}

/// Adds the warnings of the rows.
fn push_rows(
    alloc: Global,
    sheet: &Sheet,
    warnings: &mut Vec<TableWarning>,
) -> Result<(), AllocError> {
    let has_counts = sheet.place_of(TableColumn::Words).is_some();
    for row in sheet.rows.as_slice() {
        if is_decimal_word(sheet, row) {
            let why = "decimal, since it has no 0x";
            push_cell_warning(alloc, sheet, warnings, row, TableColumn::Value, why)?;
        }
        if has_counts && is_message(sheet, row) && sheet.cell(row, TableColumn::Words).is_empty() {
            let why = "empty, so all counts 1 to 32";
            push_cell_warning(alloc, sheet, warnings, row, TableColumn::Words, why)?;
        }
    }
    Ok(())
}

/// What of the table is worth a look: columns that are left out, messages of data that say no word counts, and words of four decimal digits.
pub fn table_warnings(alloc: Global, sheet: &Sheet) -> Result<Vec<TableWarning>, AllocError> {
    let mut warnings = Vec::new(alloc);
    push_left_out(alloc, sheet, &mut warnings)?;
    let mut rows = sheet.rows.as_slice().iter();
    if sheet.place_of(TableColumn::Words).is_none() && rows.any(|row| is_message(sheet, row)) {
        let effect = "all counts 1 to 32: is this meant?";
        warnings.push(no_column(alloc, sheet, TableColumn::Words, effect)?)?;
    }
    push_rows(alloc, sheet, &mut warnings)?;
    Ok(warnings)
}

/// What of a table of names is worth a look: that it has no column for them.
pub fn names_warning(alloc: Global, sheet: &Sheet) -> Result<Option<TableWarning>, AllocError> {
    if sheet.place_of(TableColumn::Name).is_some() {
        return Ok(None);
    }
    let effect = "no message has a name";
    Ok(Some(no_column(alloc, sheet, TableColumn::Name, effect)?))
}
