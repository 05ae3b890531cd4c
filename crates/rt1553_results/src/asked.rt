//! Whether the rows of a table of results are of the exchanges of a test.
ghost use Rattle.std.specs.Prelude.{◌≡◌, ℕ, false, None, IfOk, IfSome, IsTrue, MatchOption, map, codes};
ghost use Rattle.std.specs.List.{All};
ghost use Rattle.bus_legal.specs.Parts.{description_in};
ghost use Rattle.csv_rows.specs.Rows.{record_fields};
ghost use Rattle.rt1553_results.specs.Asked.{commands_of, command_said, IsCommandAt, IsOther, IsOtherRow, IsAskedRow, HasOtherRow, AsksTheTest, AsksAnother};
ghost use Rattle.rt1553_results.specs.Refused.{IsMissing};
ghost use Rattle.rt1553_results.specs.Results.{IsColumn};

use crate::fields::read_exchange_number;
use crate::results::{ResultsFault, column_of};
use crate::rows::Rows;
use bus_legal::Normal;
use csv_rows::{CellPlace, CsvRow, read_rows};
use script_lines::read_word;
use std::alloc::{AllocError, Global};

/// The places of two columns in a header, from 0.
#[derive(Clone, Copy)]
struct AskedColumns {
    number: usize,
    command: usize,
}

/// The commands of the exchanges of the acceptance test of a terminal, in their order.
fn commands_of(alloc: Global, normal: &Normal) -> Result<Vec<u16>, AllocError>
    ensures { IfOk result (λ commands. commands.items ≡ commands_of (description_in normal.now)) }
{
    let mut rows = Rows::new(normal);
    let mut commands = Vec::new(alloc);
    while let Some(row) = rows.next() {
        commands.push(row.exchange.command)?;
    }
    Ok(commands)
}

/// The command word that a field says: four hexadecimal digits.
fn read_command(field: &[u8]) -> Option<u16>
    ensures { result ≡ command_said field.now }
{
    match field {
        [a, b, c, d] => read_word(*a, *b, *c, *d),
        _ => None,
    }
}

/// The command of the exchange of the number that a field says, if there is such an exchange.
fn command_at(commands: &[u16], number: &[u8]) -> Option<u16>
    ensures some { IfSome result (IsCommandAt commands.now number.now) }
    ensures none { result ≡ None → (c : ℕ) → IsCommandAt commands.now number.now c → ⊥ }
{
    let number = read_exchange_number(number)?;
    match commands.get(number as usize - 1) {
        Some(command) => Some(*command),
        None => None,
    }
}

/// Whether two fields of a row say the number of an exchange, and another command than the one of that exchange.
fn is_other(commands: &[u16], number: &[u8], command: &[u8]) -> bool
    ensures other { IsTrue result → IsOther commands.now number.now command.now }
    ensures same { result ≡ false → IsOther commands.now number.now command.now → ⊥ }
{
    match command_at(commands, number) {
        Some(asked) => read_command(command) != Some(asked),
        None => false,
    }
}

/// Whether a row says another command than that of the exchange of its number.
fn is_other_row(commands: &[u16], columns: AskedColumns, row: &CsvRow) -> bool
    ensures other { IsTrue result → IsOtherRow commands.now columns (record_fields row.now) }
    ensures same { result ≡ false → IsOtherRow commands.now columns (record_fields row.now) → ⊥ }
{
    match (
        row.fields.get(columns.number),
        row.fields.get(columns.command),
    ) {
        (Some(number), Some(command)) => is_other(commands, number, command),
        _ => false,
    }
}

/// The line of the first row that says another command than that of the exchange of its number.
fn first_other(commands: &[u16], columns: AskedColumns, rows: &[CsvRow]) -> Option<u64>
    ensures { MatchOption result (All (IsAskedRow commands.now columns) (map record_fields rows.now)) (λ _. HasOtherRow commands.now columns (map record_fields rows.now)) }
{
    for row in rows {
        if is_other_row(commands, columns, row) {
            return Some(row.line);
        }
    }
    None
}

/// The column `command` of a header, if it has one.
fn command_column(header: &CsvRow) -> Result<Option<usize>, ResultsFault>
    ensures { IfOk result (λ column. MatchOption column (IsMissing (codes "command") (record_fields header.now)) (IsColumn (codes "command") (record_fields header.now))) }
{
    match column_of(&header.fields, header.line, "command") {
        Ok(place) => Ok(Some(place)),
        Err(ResultsFault::NoColumn(_, _)) => Ok(None),
        Err(fault) => Err(fault),
    }
}

/// The place of the first row of a table of results that says another command, in its column `command`, than the test of this terminal has
/// for its number. None where no row does, or the table has no such column.
pub fn other_command(
    alloc: Global,
    normal: &Normal,
    text: &[u8],
) -> Result<Option<CellPlace>, ResultsFault>
    ensures { IfOk result (λ place. MatchOption place (AsksTheTest (description_in normal.now) text.now) (λ _. AsksAnother (description_in normal.now) text.now)) }
{
    let records = read_rows(alloc, text)?;
    let [header, rows @ ..] = records.as_slice() else {
        return Ok(None);
    };
    let Some(command) = command_column(header)? else {
        return Ok(None);
    };
    let number = column_of(&header.fields, header.line, "number")?;
    let commands = commands_of(alloc, normal)?;
    let columns = AskedColumns { number, command };
    match first_other(commands.as_slice(), columns, rows) {
        Some(row) => {
            let column = (command as u64).saturating_add(1);
            Ok(Some(CellPlace { row, column }))
        }
        None => Ok(None),
    }
}
