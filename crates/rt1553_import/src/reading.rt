//! A text is read as a table.
ghost use Rattle.std.specs.Prelude.{◌≡◌, IfOk, IfErr, map};
ghost use Rattle.csv_rows.specs.Rows.{record_fields};
ghost use Rattle.rt1553_import.specs.NoTable.{IsUnreadable, IsNoTable};
ghost use Rattle.rt1553_import.specs.Reading.{row_fields, HasRecords, IsSheetOf};

use crate::fault::ImportFault;
use crate::sheet::{Sheet, TableRow};
use csv::StringRecord;
use csv_rows::{CsvRow, read_rows};
use std::alloc::Global;

/// The rows with their fields as text, or the line of the first row whose fields are not all UTF-8. No two rows have one line, also where
/// rows end in carriage returns and a field has a line feed.
fn text_rows(alloc: Global, rows: Vec<CsvRow>) -> Result<Vec<TableRow>, ImportFault>
    ensures text { IfOk result (λ table. map row_fields table.items ≡ map record_fields rows.items) }
    ensures refused { IfErr result (IsUnreadable (map record_fields rows.items)) }
{
    let mut table = Vec::new(alloc);
    let mut last = 0u64;
    for row in rows {
        let line = row.line.max(last.saturating_add(1));
        last = line;
        let fields = match StringRecord::from_byte_record(row.fields) {
            Ok(fields) => fields,
            Err(_) => return Err(ImportFault::NotText(line)),
        };
        table.push(TableRow { line, fields })?;
    }
    Ok(table)
}

/// The table of these records.
fn sheet_of(alloc: Global, records: Vec<TableRow>) -> Sheet
    ensures { HasRecords (map row_fields records.items) result }
{
    let mut rows = records;
    if rows.is_empty() {
        let header = TableRow {
            line: 1,
            fields: StringRecord::new(alloc),
        };
        return Sheet { header, rows };
    }
    let header = rows.remove(0);
    Sheet { header, rows }
}

/// Reads a text as a table.
pub fn read_sheet(alloc: Global, text: &[u8]) -> Result<Sheet, ImportFault>
    ensures refused { IfErr result (IsNoTable text.now) }
    ensures sheet { IfOk result (IsSheetOf text.now) }
{
    let records = read_rows(alloc, text)?;
    let rows = text_rows(alloc, records)?;
    Ok(sheet_of(alloc, rows))
}
