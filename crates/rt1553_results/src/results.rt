//! The results of a unit: a table in CSV, read.
ghost use Rattle.std.specs.Prelude.{◌≡◌, ◌↔◌, ◌<◌, ◌≤◌, ℕ, List, [], length, option_map, cond, nat_eq, Some, None, IsTrue, IfOk, IfErr, IfSome, MatchOption, OnOk};
ghost use Rattle.csv.specs.Records.{fields_of, field_at};
ghost use Rattle.rt1553_results.specs.declared.results.ResultsFault.TheVariants.{Memory};
ghost use Rattle.rt1553_results.specs.Refused.{results_fault_of, IsNoColumn, AreNoColumns, HasPlaces, IsNotRead, IsNotKept, AreNoResults};
ghost use Rattle.rt1553_results.specs.Results.{IsColumn, AreColumns, pair_in, IsRead, answer, line_in, SaysResults};

use crate::fields::{read_exchange_number, read_reply};
use arrayvec::ArrayVec;
use csv::ByteRecord;
use csv_rows::{CellPlace, CsvFault, read_rows};
use std::alloc::{AllocError, AllocFailed, Global};
use std::collections::BTreeMap;
use thiserror::Error;

/// Why a table of results is refused.
#[derive(Clone, Copy, Debug, PartialEq, Eq, Error)]
pub enum ResultsFault {
    /// There is no header.
    #[error("results: {0}: no header")]
    NoHeader(CellPlace),
    /// No column of the header has this name: the place is behind the last.
    #[error("results: {0}: no column is named {1}")]
    NoColumn(CellPlace, &'static str),
    /// A second column of the header has this name.
    #[error("results: {0}: a second column is named {1}")]
    TwoColumns(CellPlace, &'static str),
    /// A row has not as many fields as the header.
    #[error("results: {0}: not as many fields as the header")]
    Fields(CellPlace),
    /// The field is no number from 1 to 4,294,967,295 in decimal digits.
    #[error("results: {0}: not the number of an exchange")]
    Number(CellPlace),
    /// An earlier row has the same number.
    #[error("results: {0}: the number of an earlier row")]
    Twice(CellPlace),
    /// The field is no reply.
    #[error("results: {0}: not `none`, or 1 to 33 words of four hexadecimal digits")]
    Reply(CellPlace),
    /// The text is no CSV: the place of the first field with a misplaced quote, or without its closing quote.
    #[error("results: {0}: not CSV, a quote is misplaced or missing")]
    NotCsv(CellPlace),
    /// A growth of memory was refused, which says nothing of the table.
    #[error("out of memory")]
    Memory,
}

impl From<AllocError> for ResultsFault {
    ghost from_gives = { λ _ fault. fault ≡ Memory };

    fn from(_error: AllocError) -> ResultsFault {
        ResultsFault::Memory
    }
}

impl<T: Drop> From<AllocFailed<T>> for ResultsFault {
    ghost from_gives = { λ _ fault. fault ≡ Memory };

    fn from(_failed: AllocFailed<T>) -> ResultsFault {
        ResultsFault::Memory
    }
}

impl From<CsvFault> for ResultsFault {
    ghost from_gives = { λ rows fault. fault ≡ results_fault_of rows };

    fn from(fault: CsvFault) -> ResultsFault {
        match fault {
            CsvFault::NotCsv(place) => ResultsFault::NotCsv(place),
            CsvFault::Memory => ResultsFault::Memory,
        }
    }
}

/// The reply to an exchange, and the line of the row that says it.
#[derive(Drop)]
pub struct GivenReply {
    pub line: u64,
    pub reply: ArrayVec<u16, 33>,
}

/// What a unit replied, by the numbers of exchanges.
#[derive(Drop)]
pub struct Results {
    given: BTreeMap<u32, GivenReply>,
}

/// What a row says.
#[derive(Drop)]
struct NumberedReply {
    number: u32,
    line: u64,
    reply: ArrayVec<u16, 33>,
}

/// The number of fields of a header, and where it has the columns that are looked for.
#[derive(Clone, Copy)]
struct Columns {
    width: usize,
    number: usize,
    reply: usize,
}

/// A field of a row, by its place from 0.
fn place_of(line: u64, field: usize) -> CellPlace {
    CellPlace {
        row: line,
        column: (field as u64).saturating_add(1),
    }
}

/// Whether a record has these bytes at a place.
fn is_field(row: &ByteRecord, place: usize, bytes: &[u8]) -> bool
    ensures { IsTrue result ↔ (field_at (fields_of row.now) place ≡ Some bytes.now) }
{
    match row.get(place) {
        Some(field) => field == bytes,
        None => false,
    }
}

/// The place of the column of this name.
pub(crate) fn column_of(
    header: &ByteRecord,
    line: u64,
    name: &'static str,
) -> Result<usize, ResultsFault>
    ensures found { IfOk result (IsColumn name.now (fields_of header.now)) }
    ensures refused { IfErr result (IsNoColumn name.now (fields_of header.now)) }
{
    let mut found = None;
    for place in 0..header.len() {
        if is_field(header, place, name.as_bytes()) {
            if found.is_some() {
                return Err(ResultsFault::TwoColumns(place_of(line, place), name));
            }
            found = Some(place);
        }
    }
    match found {
        Some(place) => Ok(place),
        None => Err(ResultsFault::NoColumn(place_of(line, header.len()), name)),
    }
}

/// The columns of a header that are looked for.
fn columns_of(header: &ByteRecord, line: u64) -> Result<Columns, ResultsFault>
    ensures found { IfOk result (AreColumns (fields_of header.now)) }
    ensures refused { IfErr result (AreNoColumns (fields_of header.now)) }
{
    Ok(Columns {
        width: header.len(),
        number: column_of(header, line, "number")?,
        reply: column_of(header, line, "reply")?,
    })
}

/// What a row says.
fn read_row(columns: &Columns, row: &ByteRecord, line: u64) -> Result<NumberedReply, ResultsFault>
    requires { HasPlaces columns.now }
    ensures read { IfOk result (λ entry. IsRead columns.now (fields_of row.now) (pair_in entry)) }
    ensures refused { IfErr result (IsNotRead columns.now (fields_of row.now)) }
{
    if row.len() != columns.width {
        return Err(ResultsFault::Fields(place_of(line, row.len().min(columns.width))));
    }
    let (Some(number), Some(reply)) = (row.get(columns.number), row.get(columns.reply)) else {
        unreachable!();
    };
    let Some(number) = read_exchange_number(number) else {
        return Err(ResultsFault::Number(place_of(line, columns.number)));
    };
    let Some(reply) = read_reply(reply) else {
        return Err(ResultsFault::Reply(place_of(line, columns.reply)));
    };
    Ok(NumberedReply {
        number,
        line,
        reply,
    })
}

impl Results {
    /// The reply to the exchange of this number, if there is a result.
    pub fn reply(&self, number: u32) -> Option<&[u16]>
        ensures reply { option_map (λ words. words.now) result ≡ answer self.now number }
        ensures few { IfSome result (λ words. length words.now ≤ 33) }
    {
        match self.given.get(&number) {
            Some(given) => Some(given.reply.as_slice()),
            None => None,
        }
    }

    /// The line of the row that has it.
    pub fn line(&self, number: u32) -> Option<u64>
        ensures { result ≡ line_in self.now number }
    {
        match self.given.get(&number) {
            Some(given) => Some(given.line),
            None => None,
        }
    }

    /// The largest number, and the line of its row.
    pub fn last(&self) -> Option<(u32, u64)>
        ensures { MatchOption result ((n : ℕ) → answer self.now n ≡ None) (λ last. (line_in self.now last.0 ≡ Some last.1) × ((n : ℕ) → last.0 < n → answer self.now n ≡ None)) }
    {
        match self.given.last_key_value() {
            Some((number, given)) => Some((*number, given.line)),
            None => None,
        }
    }

    /// Keeps what a row says, if no other row had its number.
    fn keep(&mut self, columns: &Columns, entry: NumberedReply) -> Result<(), ResultsFault>
        ensures new { OnOk result (answer self.old entry.number ≡ None) }
        ensures kept { OnOk result ((n : ℕ) → answer self.new n ≡ cond (nat_eq entry.number n) (Some entry.reply.items) (answer self.old n)) }
        ensures refused { IfErr result (IsNotKept (answer self.old entry.number)) }
    {
        let given = GivenReply {
            line: entry.line,
            reply: entry.reply,
        };
        match self.given.insert(entry.number, given)? {
            None => Ok(()),
            Some(_) => Err(ResultsFault::Twice(place_of(entry.line, columns.number))),
        }
    }
}

/// Reads the results of a unit: CSV with a header, in which the columns `number` and `reply` may have any place. Other columns
/// are ignored. Rows may have any order. The first fault refuses the table, the header's before those of the rows.
pub fn read_results(alloc: Global, text: &[u8]) -> Result<Results, ResultsFault>
    ensures said { IfOk result (SaysResults text.now) }
    ensures refused { IfErr result (AreNoResults text.now) }
{
    let records = read_rows(alloc, text)?;
    let rows = records.as_slice();
    if rows.is_empty() {
        return Err(ResultsFault::NoHeader(CellPlace { row: 1, column: 1 }));
    }
    let header = &rows[0];
    let columns = columns_of(&header.fields, header.line)?;
    let mut results = Results {
        given: BTreeMap::new(alloc),
    };
    for row in &rows[1..] {
        let entry = read_row(&columns, &row.fields, row.line)?;
        results.keep(&columns, entry)?;
    }
    Ok(results)
}
