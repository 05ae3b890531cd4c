//! The results of a unit, compared with the acceptance test of a terminal.
ghost use Rattle.std.specs.Prelude.{◌≡◌, ◌≤◌, ◌++◌, ◌∷◌, [], ◌<◌, ℕ, Some, None, length, map, IfOk, IfErr, IfSome, MatchOption, OnOk};
ghost use Rattle.bus_legal.specs.Parts.{description_in};
ghost use Rattle.rt1553_results.specs.declared.comparing.CompareFault.TheVariants.{Memory};
ghost use Rattle.rt1553_results.specs.Handed.{answered_in};
ghost use Rattle.rt1553_results.specs.Results.{answer, line_in};
ghost use Rattle.rt1553_results.specs.Compare.{told_reply, replies_told, missing_at, counted, numbers_in, TellsResults, Compares, AreNotCompared};

use crate::comparison::Comparison;
use crate::playing::{TestRow, copied};
use crate::results::Results;
use crate::rows::Rows;
use bus_legal::Normal;
use csv_rows::CellPlace;
use recorded_terminal::WatchFault;
use rt1553_acceptance::label_of;
use rt1553_verify::{NumberRange, WrongReply};
use std::alloc::{AllocError, Global};
use thiserror::Error;

/// Why results are not compared.
#[derive(Clone, Copy, Debug, PartialEq, Eq, Error)]
pub enum CompareFault {
    /// The row at this line has a number beyond that of the last exchange.
    #[error("results: row {0}: no exchange has this number")]
    Beyond(u64),
    /// The row at this place says another command than the test has for its number: `other_command` finds it.
    #[error("results: {0}: another command than that of this exchange")]
    Other(CellPlace),
    /// A growth of memory was refused.
    #[error("out of memory")]
    Memory,
}

impl From<AllocError> for CompareFault {
    ghost from_gives = { λ _ fault. fault ≡ Memory };

    fn from(_error: AllocError) -> CompareFault {
        CompareFault::Memory
    }
}

/// Results have no gap that may have come or not, so a watch of them never has too many ways.
impl From<WatchFault> for CompareFault {
    ghost from_gives = { λ _ fault. fault ≡ Memory };

    fn from(_fault: WatchFault) -> CompareFault {
        CompareFault::Memory
    }
}

/// Numbers with one number more, if it is the next.
fn with_next(numbers: NumberRange, next: u32) -> Option<NumberRange>
    ensures { IfSome result (λ more. counted more.first more.count ≡ counted numbers.first numbers.count ++ next ∷ []) }
{
    if numbers.count < next && next - numbers.count == numbers.first {
        Some(NumberRange {
            first: numbers.first,
            count: numbers.count + 1,
        })
    } else {
        None
    }
}

/// Adds a number to those that are missing.
pub fn miss(missing: &mut Vec<NumberRange>, number: u32) -> Result<(), AllocError>
    ensures { OnOk result (numbers_in missing.new.items ≡ numbers_in missing.old.items ++ number ∷ []) }
{
    let alone = NumberRange {
        first: number,
        count: 1,
    };
    let Some(last) = missing.pop() else {
        missing.push(alone)?;
        return Ok(());
    };
    match with_next(last, number) {
        Some(more) => missing.push(more)?,
        None => {
            missing.push(last)?;
            missing.push(alone)?;
        }
    }
    Ok(())
}

/// Keeps an exchange to which another reply came than that of the terminal.
fn differ(
    normal: &Normal,
    row: TestRow,
    came: &[u16],
    wrong: &mut Vec<WrongReply>,
) -> Result<(), AllocError>
    requires { length came.now ≤ 33 }
    ensures { OnOk result (map told_reply wrong.new.items ≡ map told_reply wrong.old.items ++ replies_told (description_in normal.now) row.number (answered_in row) (Some came.now)) }
{
    if came == row.reply.as_slice() {
        return Ok(());
    }
    wrong.push(WrongReply {
        number: row.number,
        command: row.exchange.command,
        label: label_of(normal, row.exchange.command),
        expected: row.reply,
        came: copied(came),
    })?;
    Ok(())
}

/// Notes what is told of a row.
fn note(
    normal: &Normal,
    results: &Results,
    row: TestRow,
    comparison: &mut Comparison,
) -> Result<(), AllocError>
    ensures differ { OnOk result (map told_reply comparison.new.wrong_replies.items ≡ map told_reply comparison.old.wrong_replies.items ++ replies_told (description_in normal.now) row.number (answered_in row) (answer results.now row.number)) }
    ensures miss { OnOk result (numbers_in comparison.new.missing.items ≡ numbers_in comparison.old.missing.items ++ missing_at row.number (answer results.now row.number)) }
    ensures total { OnOk result (comparison.new.total ≡ row.number) }
{
    comparison.total = row.number;
    match results.reply(row.number) {
        Some(came) => differ(normal, row, came, &mut comparison.wrong_replies),
        None => miss(&mut comparison.missing, row.number),
    }
}

/// Plays the acceptance test of a terminal, and tells to which exchanges another reply came, and which have no result.
fn tell(alloc: Global, normal: &Normal, results: &Results) -> Result<Comparison, AllocError>
    ensures { IfOk result (TellsResults (description_in normal.now) (answer results.now)) }
{
    let mut rows = Rows::new(normal);
    let mut comparison = Comparison {
        total: 0,
        wrong_replies: Vec::new(alloc),
        missing: Vec::new(alloc),
    };
    while let Some(row) = rows.next() {
        note(normal, results, row, &mut comparison)?;
    }
    Ok(comparison)
}

/// The line of a row whose number is beyond the last, if there is one.
pub fn beyond(results: &Results, total: u32) -> Option<u64>
    ensures { MatchOption result ((n : ℕ) → total < n → answer results.now n ≡ None) (λ line. (n : ℕ) × (total < n) × (line_in results.now n ≡ Some line)) }
{
    match results.last() {
        Some((number, line)) if number > total => Some(line),
        _ => None,
    }
}

/// Compares the results of a unit with the acceptance test of a terminal: to which exchanges another reply came, and which
/// have no result.
pub fn compare_results(
    alloc: Global,
    normal: &Normal,
    results: &Results,
) -> Result<Comparison, CompareFault>
    ensures ok { IfOk result (Compares (description_in normal.now) (answer results.now)) }
    ensures refused { IfErr result (AreNotCompared (description_in normal.now) results.now) }
{
    let comparison = tell(alloc, normal, results)?;
    match beyond(results, comparison.total) {
        Some(line) => Err(CompareFault::Beyond(line)),
        None => Ok(comparison),
    }
}
