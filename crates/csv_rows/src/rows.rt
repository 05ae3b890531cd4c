//! A text is read as rows.
ghost use Rattle.std.specs.Prelude.{◌≡◌, ◌++◌, ◌∷◌, [], IfOk, IfErr, OnOk, map};
ghost use Rattle.csv.specs.Records.{fields_of, field_at};
ghost use Rattle.csv.specs.Reading.{strip_bom};
ghost use Rattle.csv_rows.specs.Rows.{says_something, kept_rows, record_fields, AreKeptRecords, AreRowsBy, AreNoRowsBy, AreRows, AreNoRows};
ghost use Rattle.csv_rows.specs.inner.Scan.{is_filled};
ghost use Rattle.csv_rows.specs.declared.rows.CsvFault.TheVariants.{Memory};

use crate::broken::{broken_field, line_end_of};
use crate::delimiter::delimiter_of;
use crate::place::CellPlace;
use csv::{ByteRecord, ReaderBuilder};
use std::alloc::{AllocError, AllocFailed, Global};

/// A row of a table.
#[derive(Drop)]
pub struct CsvRow {
    /// The line of the text on which it begins, from 1.
    pub line: u64,
    /// Its fields, without their quotes and without blanks at their ends.
    pub fields: ByteRecord,
}

/// Why a text has no rows.
#[derive(Clone, Copy, Debug)]
pub enum CsvFault {
    /// It is no CSV: the place of the first field with a quote that RFC 4180 does not allow, or whose closing quote is missing.
    NotCsv(CellPlace),
    /// A growth of memory was refused, which says nothing of the text.
    Memory,
}

impl From<AllocError> for CsvFault {
    ghost from_gives = { λ _ fault. fault ≡ Memory };

    fn from(_error: AllocError) -> CsvFault {
        CsvFault::Memory
    }
}

impl<T: Drop> From<AllocFailed<T>> for CsvFault {
    ghost from_gives = { λ _ fault. fault ≡ Memory };

    fn from(_failed: AllocFailed<T>) -> CsvFault {
        CsvFault::Memory
    }
}

/// A place in a text: how many bytes come before it, and its line, from 1.
#[derive(Clone, Copy)]
struct Cursor {
    at: usize,
    line: u64,
}

/// Moves on to a byte, and over the line ends there: a reader of CSV skips empty lines before a record. Lines end in `feed`.
fn moved(text: &[u8], feed: u8, from: Cursor, to: usize) -> Cursor {
    let mut cursor = from;
    while cursor.at < text.len()
        && (cursor.at < to || text[cursor.at] == b'\n' || text[cursor.at] == b'\r')
    {
        if text[cursor.at] == feed {
            cursor.line = cursor.line.saturating_add(1);
        }
        cursor.at += 1;
    }
    cursor
}

/// Moves on to a record.
fn at_record(text: &[u8], feed: u8, from: Cursor, record: &ByteRecord) -> Cursor {
    match record.position() {
        Some(position) => moved(text, feed, from, position.byte() as usize),
        None => from,
    }
}

/// Whether a field is there and has text.
fn has_text(fields: &ByteRecord, place: usize) -> bool
    ensures { result ≡ is_filled (field_at (fields_of fields.now) place) }
{
    match fields.get(place) {
        Some(field) => !field.is_empty(),
        None => false,
    }
}

/// Whether one of the fields of a record has text.
fn says_something(fields: &ByteRecord) -> bool
    ensures { result ≡ says_something (fields_of fields.now) }
{
    for place in 0..fields.len() {
        if has_text(fields, place) {
            return true;
        }
    }
    false
}

/// Adds a record that begins on this line, without the blanks at the ends of its fields, if anything is left.
fn push_record(rows: &mut Vec<CsvRow>, line: u64, read: ByteRecord) -> Result<(), AllocError>
    ensures { OnOk result (map record_fields rows.new.items ≡ map record_fields rows.old.items ++ kept_rows (fields_of read ∷ [])) }
{
    let mut fields = read;
    fields.trim()?;
    if !says_something(&fields) {
        return Ok(());
    }
    rows.push(CsvRow { line, fields })?;
    Ok(())
}

/// The records of a text, each with its line. A reader over memory fails for want of memory alone.
fn records(alloc: Global, text: &[u8], delimiter: u8) -> Result<Vec<CsvRow>, AllocError>
    ensures { IfOk result (λ rows. AreKeptRecords delimiter (strip_bom text.now) (map record_fields rows.items)) }
{
    let feed = line_end_of(text);
    let reader = ReaderBuilder::new()
        .has_headers(false)
        .flexible(true)
        .delimiter(delimiter)
        .from_reader(alloc, text);
    let mut rows = Vec::new(alloc);
    let mut cursor = Cursor { at: 0, line: 1 };
    for record in reader.into_byte_records() {
        let fields = match record {
            Ok(fields) => fields,
            Err(_) => return Err(AllocError),
        };
        cursor = at_record(text, feed, cursor, &fields);
        push_record(&mut rows, cursor.line, fields)?;
    }
    Ok(rows)
}

/// The text without a byte order mark at its start.
fn without_mark(text: &[u8]) -> &[u8]
    ensures { result.now ≡ strip_bom text.now }
{
    if text.len() >= 3 && text[0] == 0xEF && text[1] == 0xBB && text[2] == 0xBF {
        &text[3..]
    } else {
        text
    }
}

/// The rows of a text with this delimiter between fields.
fn rows_by(alloc: Global, text: &[u8], delimiter: u8) -> Result<Vec<CsvRow>, CsvFault>
    ensures rows { IfOk result (λ rows. AreRowsBy delimiter text.now (map record_fields rows.items)) }
    ensures refused { IfErr result (AreNoRowsBy delimiter text.now) }
{
    if let Some(place) = broken_field(delimiter, without_mark(text)) {
        return Err(CsvFault::NotCsv(place));
    }
    let rows = records(alloc, text, delimiter)?;
    Ok(rows)
}

/// Reads a text as the rows of a table: CSV as RFC 4180 has it, with `delimiter_of` the text between fields. Lines end in LF, CR LF or CR,
/// and a byte order mark may come first. Blanks at the ends of a field are left out, and so are rows of empty fields. A row may have
/// any number of fields.
pub fn read_rows(alloc: Global, text: &[u8]) -> Result<Vec<CsvRow>, CsvFault>
    ensures rows { IfOk result (λ rows. AreRows text.now (map record_fields rows.items)) }
    ensures refused { IfErr result (AreNoRows text.now) }
{
    rows_by(alloc, text, delimiter_of(text))
}
