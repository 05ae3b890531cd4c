//! The records of a table, one after the other.
ghost use Rattle.std.specs.Prelude.{◌≡◌, [], IfOk, IfErr, IfSome, MatchOption, MatchResult};
ghost use Rattle.csv.specs.Records.{fields_of};
ghost use Rattle.monitor_cells.specs.Cells.{is_some_text};
ghost use Rattle.monitor_tables.specs.Fields.{record_text, field_placed, HasNoFeed, IsFedField, HasNoExtra, IsExtraFault, IsRecordFault};
ghost use Rattle.monitor_tables.specs.Table.{is_some_record, HasTold};
ghost use Rattle.monitor_tables.specs.inner.Reads.{ReadsOne, ReadsNext};

use crate::fault::MonitorFault;
use csv::{ByteRecord, ErrorKind, Reader, ReaderBuilder, Terminator};
use csv_rows::CellPlace;
use std::alloc::Global;
use std::io::{Chain, Read};

/// A field of a record, by its number from 0.
pub fn field_place(row: u64, field: usize) -> CellPlace
    ensures { result ≡ field_placed row field }
{
    CellPlace {
        row,
        column: (field as u64).saturating_add(1),
    }
}

/// The text in a field of a record; none where there is no such field.
pub fn field_of(row: &ByteRecord, field: usize) -> &[u8]
    ensures { result.now ≡ record_text (fields_of row.now) field }
{
    match row.get(field) {
        Some(text) => text,
        None => &[],
    }
}

/// The number, from 0, of the first field that has a line feed.
fn fed_field(row: &ByteRecord) -> Option<usize>
    ensures { MatchOption result (HasNoFeed (fields_of row.now)) (IsFedField (fields_of row.now)) }
{
    'fields: for field in 0..row.len() {
        if field_of(row, field).contains(&b'\n') {
            return Some(field);
        }
    }
    None
}

/// Whether there is text in a field of a record.
pub fn is_some_field(row: &ByteRecord, field: usize) -> bool
    ensures { result ≡ is_some_text (record_text (fields_of row.now) field) }
{
    !field_of(row, field).is_empty()
}

/// Refuses a record that has text in a field beyond so many.
pub fn refuse_extra(row: &ByteRecord, line: u64, width: usize) -> Result<(), MonitorFault>
    ensures { MatchResult result (λ _. HasNoExtra (fields_of row.now) width) (IsExtraFault (fields_of row.now) line width) }
{
    'fields: for field in width..row.len() {
        if is_some_field(row, field) {
            return Err(MonitorFault::Extra(field_place(line, field)));
        }
    }
    Ok(())
}

/// Whether there is text in any field of a record.
fn is_some_record(row: &ByteRecord) -> bool
    ensures { result ≡ is_some_record (fields_of row.now) }
{
    'fields: for field in 0..row.len() {
        if is_some_field(row, field) {
            return true;
        }
    }
    false
}

/// The records of a table that are still to come. The source gives one line feed more than it has: so each record ends in one.
#[derive(Drop)]
pub struct TableRecords<R: Read + Drop> {
    reader: Reader<Chain<R, &'static [u8]>>,
    /// The latest record, with no blanks at the ends of its fields.
    pub row: ByteRecord,
    /// The line of the file that it is, from 1; where a record can't be read, the line on which it was looked for.
    pub line: u64,
}

impl<R: Read + Drop> TableRecords<R> {
    /// All records of a source.
    pub fn new(alloc: Global, source: R) -> Self
        ensures told { IfSome (R.remaining source) (λ text. HasTold R.remaining text [] result) }
        ensures line { result.line ≡ 1 }
        ensures row { fields_of result.row ≡ [] }
    {
        TableRecords {
            reader: ReaderBuilder::new()
                .has_headers(false)
                .flexible(true)
                .terminator(Terminator::Any(b'\n'))
                .from_reader(alloc, source.chain(b"\n".as_slice())),
            row: ByteRecord::new(alloc),
            line: 1,
        }
    }

    /// A field of the latest record, by its number from 0.
    pub fn place(&self, field: usize) -> CellPlace
        ensures { result ≡ field_placed self.now.line field }
    {
        field_place(self.line, field)
    }

    /// Reads the next record, and says whether there was one.
    fn read(&mut self) -> Result<bool, MonitorFault>
        ensures reads { IfOk result (ReadsOne R.remaining self.old self.new) }
        ensures refused { IfErr result (IsRecordFault (fields_of self.new.row)) }
    {
        self.line = self.reader.position().line();
        match self.reader.read_byte_record(&mut self.row) {
            Ok(true) => {}
            Ok(false) => return Ok(false),
            Err(error) => {
                return Err(match error.kind() {
                    ErrorKind::OutOfMemory => MonitorFault::Memory,
                    _ => MonitorFault::Read,
                });
            }
        }
        if let Some(field) = fed_field(&self.row) {
            return Err(MonitorFault::NotCsv(self.place(field)));
        }
        self.line = self.reader.position().line().saturating_sub(1);
        self.row.trim()?;
        Ok(true)
    }

    /// Reads the next record that has text, and says whether there was one.
    pub fn next(&mut self) -> Result<bool, MonitorFault>
        ensures reads { IfOk result (ReadsNext R.remaining self.old self.new) }
        ensures refused { IfErr result (IsRecordFault (fields_of self.new.row)) }
    {
        'records: for _ in 0..u64::MAX {
            if !self.read()? {
                return Ok(false);
            }
            if is_some_record(&self.row) {
                return Ok(true);
            }
        }
        Err(MonitorFault::Read)
    }
}
