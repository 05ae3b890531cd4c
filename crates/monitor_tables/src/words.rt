//! Tables whose rows are words.
ghost use Rattle.std.specs.Prelude.{◌≡◌, Some, None, IfOk, MatchResult};
ghost use Rattle.csv.specs.Records.{fields_of};
ghost use Rattle.monitor_cells.specs.Cells.{bus_said, word_said};
ghost use Rattle.monitor_tables.specs.Fields.{record_text};
ghost use Rattle.monitor_tables.specs.Header.{AreWordColumns};
ghost use Rattle.monitor_tables.specs.Refused.{IsNoWordRow};
ghost use Rattle.monitor_tables.specs.inner.Faults.{IsNoTimeField, IsNoBusField, IsNoWordField};
ghost use Rattle.monitor_tables.specs.Rows.{has_text_in, says_no_error, has_error_in, SaysTime, seen_said, IsWordRow};

use crate::column::MonitorColumn;
use crate::fault::MonitorFault;
use crate::header::{find_column, need_column};
use crate::records::{field_of, field_place, is_some_field, refuse_extra};
use bus_word::Bus;
use csv::ByteRecord;
use monitor_cells::{
    MonitorTime, SeenWord, WordRow, is_headed, read_bus_cell, read_sync_cell, read_time,
    read_word_cell,
};

/// Where the rows have their fields, by numbers from 0.
#[derive(Clone, Copy)]
pub struct WordColumns {
    pub time: usize,
    bus: usize,
    sync: usize,
    word: usize,
    error: Option<usize>,
    /// How many fields the header has.
    width: usize,
}

/// The time in a field of a row.
pub fn read_time_field(
    row: &ByteRecord,
    line: u64,
    field: usize,
) -> Result<MonitorTime, MonitorFault>
    ensures { MatchResult result (SaysTime (record_text (fields_of row.now) field)) (IsNoTimeField (fields_of row.now) line field) }
{
    match read_time(field_of(row, field)) {
        Some(time) => Ok(time),
        None => Err(MonitorFault::Time(field_place(line, field))),
    }
}

/// The bus in a field of a row.
pub fn read_bus_field(row: &ByteRecord, line: u64, field: usize) -> Result<Bus, MonitorFault>
    ensures { MatchResult result (λ bus. bus_said (record_text (fields_of row.now) field) ≡ Some bus) (IsNoBusField (fields_of row.now) line field) }
{
    match read_bus_cell(field_of(row, field)) {
        Some(bus) => Ok(bus),
        None => Err(MonitorFault::Bus(field_place(line, field))),
    }
}

/// The word in a field of a row.
pub fn read_word_field(row: &ByteRecord, line: u64, field: usize) -> Result<u16, MonitorFault>
    ensures { MatchResult result (λ word. word_said (record_text (fields_of row.now) field) ≡ Some word) (IsNoWordField (fields_of row.now) line field) }
{
    match read_word_cell(field_of(row, field)) {
        Some(word) => Ok(word),
        None => Err(MonitorFault::Word(field_place(line, field))),
    }
}

/// Whether a row has text in a field, if there is such a column.
pub fn has_text_in(row: &ByteRecord, field: Option<usize>) -> bool
    ensures { result ≡ has_text_in (fields_of row.now) field }
{
    match field {
        Some(field) => is_some_field(row, field),
        None => false,
    }
}

/// Whether a text in the column `error` says that there is none.
fn says_no_error(text: &[u8]) -> bool
    ensures { result ≡ says_no_error text.now }
{
    is_headed("0", text) || is_headed("no", text) || is_headed("none", text)
}

/// Whether a row tells an error in a field, if there is such a column.
pub fn has_error_in(row: &ByteRecord, field: Option<usize>) -> bool
    ensures { result ≡ has_error_in (fields_of row.now) field }
{
    match field {
        Some(field) => is_some_field(row, field) && !says_no_error(field_of(row, field)),
        None => false,
    }
}

impl WordColumns {
    /// The columns of a header, which names `word` in this field.
    pub fn read(header: &ByteRecord, line: u64, word: usize) -> Result<WordColumns, MonitorFault>
        ensures { IfOk result (λ columns. AreWordColumns (fields_of header.now) columns × (columns.word ≡ word)) }
    {
        Ok(WordColumns {
            time: need_column(header, line, MonitorColumn::Time)?,
            bus: need_column(header, line, MonitorColumn::Bus)?,
            sync: need_column(header, line, MonitorColumn::Sync)?,
            word,
            error: find_column(header, line, MonitorColumn::Error)?,
            width: header.len(),
        })
    }

    /// What a row says of its word: of one with an error nothing more.
    fn read_seen(&self, row: &ByteRecord, line: u64) -> Result<SeenWord, MonitorFault>
        ensures { MatchResult result (λ word. seen_said self.now (fields_of row.now) ≡ Some word) (IsNoWordRow self.now (fields_of row.now) line) }
    {
        if has_error_in(row, self.error) {
            return Ok(SeenWord::Noise);
        }
        let Some(sync) = read_sync_cell(field_of(row, self.sync)) else {
            return Err(MonitorFault::Sync(field_place(line, self.sync)));
        };
        let bits = read_word_field(row, line, self.word)?;
        Ok(SeenWord::Valid(sync, bits))
    }

    /// What a row says.
    pub fn read_row(&self, row: &ByteRecord, line: u64) -> Result<WordRow, MonitorFault>
        ensures { MatchResult result (IsWordRow self.now (fields_of row.now)) (IsNoWordRow self.now (fields_of row.now) line) }
    {
        refuse_extra(row, line, self.width)?;
        Ok(WordRow {
            time: read_time_field(row, line, self.time)?,
            bus: read_bus_field(row, line, self.bus)?,
            word: self.read_seen(row, line)?,
        })
    }
}
