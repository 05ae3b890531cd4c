//! The records of a table: its header, and its rows.
ghost use Rattle.std.specs.Prelude.{◌≡◌, ◌<◌, ◌-◌, ◌^◌, IfSome};
ghost use Rattle.csv.specs.Records.{fields_of, field_at};
ghost use Rattle.rt1553_import.specs.Columns.{is_field, place_from, place_of, field_text, cell, row_place};

use crate::alike::is_alike;
use crate::column::TableColumn;
use csv::StringRecord;
use csv_rows::CellPlace;

/// A record of a table.
#[derive(Debug, Drop)]
pub struct TableRow {
    /// The line of the text on which it begins, from 1.
    pub line: u64,
    /// Its fields.
    pub fields: StringRecord,
}

/// A table.
#[derive(Debug, Drop)]
pub struct Sheet {
    /// The names of the columns.
    pub header: TableRow,
    /// The rows below the header.
    pub rows: Vec<TableRow>,
}

/// Whether a field has this text, but for capitals.
fn is_field(fields: &StringRecord, place: usize, text: &str) -> bool
    ensures { result ≡ is_field text.now (field_at (fields_of fields.now) place) }
{
    match fields.get(place) {
        Some(field) => is_alike(field, text),
        None => false,
    }
}

/// The place, from 0, of the first field with this text, but for capitals, from a start on.
pub fn place_from(fields: &StringRecord, text: &str, start: usize) -> Option<usize>
    ensures place { result ≡ place_from text.now start (fields_of fields.now) }
    ensures few { IfSome result (λ place. place < 2 ^ 64 - 1) }
{
    for place in start..fields.len() {
        if is_field(fields, place, text) {
            return Some(place);
        }
    }
    None
}

/// The text of a field without blanks at its ends; no text where there is no field.
fn field_text(fields: &StringRecord, place: Option<usize>) -> &str
    ensures { result.now ≡ field_text (fields_of fields.now) place }
{
    let Some(place) = place else {
        return "";
    };
    match fields.get(place) {
        Some(field) => field.trim(),
        None => "",
    }
}

impl Sheet {
    /// The place, from 0, of a column in the header, if it is there.
    pub fn place_of(&self, column: TableColumn) -> Option<usize>
        ensures place { result ≡ place_of self.now column }
        ensures few { IfSome result (λ place. place < 2 ^ 64 - 1) }
    {
        place_from(&self.header.fields, column.name(), 0)
    }

    /// The text of a row in a column, without blanks at its ends: none where there is no such column.
    pub fn cell<'a>(&self, row: &'a TableRow, column: TableColumn) -> &'a str
        ensures { result.now ≡ cell self.now row.now column }
    {
        field_text(&row.fields, self.place_of(column))
    }

    /// The place of a row in a column; in the first column where there is no such column.
    pub fn place(&self, row: &TableRow, column: TableColumn) -> CellPlace
        ensures { result ≡ row_place self.now row.now column }
    {
        let column = match self.place_of(column) {
            Some(place) => place as u64 + 1,
            None => 1,
        };
        CellPlace {
            row: row.line,
            column,
        }
    }
}
