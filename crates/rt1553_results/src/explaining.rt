//! Whether some behaviour of the subsystem explains the results of a unit.
ghost use Rattle.std.specs.Prelude.{◌≡◌, ◌≤◌, ◌<◌, ◌++◌, ℕ, List, Some, IfOk, IfErr, OnOk, length, take, option_map, option_to_list};
ghost use Rattle.bus_legal.specs.Description.{Description};
ghost use Rattle.bus_legal.specs.Parts.{description_in};
ghost use Rattle.bus_legal.specs.Reach.{reach};
ghost use Rattle.bus_complete_test.specs.CompleteTest.{tried};
ghost use Rattle.rt1553_results.specs.Results.{answer};
ghost use Rattle.rt1553_results.specs.Compare.{missing, missing_at, numbers_in, AreNotCompared};
ghost use Rattle.rt1553_results.specs.ExplainedResults.{ExplainsResults, TellsMissing};
ghost use Rattle.rt1553_results.specs.inner.Told.{TellsUnexplainedReply, TellsPlace};

use crate::comparing::{CompareFault, beyond, miss};
use crate::playing::copied;
use crate::results::Results;
use crate::watching::{SLOT_LINES, watch_results};
use arrayvec::{ArrayString, ArrayVec};
use bus_complete_test::Exchanges;
use bus_legal::Normal;
use recorded_terminal::{Sent, Unexplained};
use rt1553_acceptance::label_of;
use rt1553_verify::{NumberRange, WrongReply};
use std::alloc::{AllocError, Global};

/// The first reply of a unit that no behaviour of the subsystem explains.
#[derive(Drop)]
pub struct UnexplainedReply {
    /// The number of the exchange, from 1.
    pub number: u32,
    /// Its command word.
    pub command: u16,
    /// What it tries.
    pub label: ArrayString<64>,
    /// The words that came; empty for no reply.
    pub came: ArrayVec<u16, 33>,
    /// Which of them is not explained, from 0: it may be one that did not come.
    pub slot: u32,
    /// The word that can come in its place. None where none can come.
    pub possible: Option<Sent>,
}

/// The words before one of a reply, and another word in its place, if there is one.
fn with_possible(came: &[u16], slot: u32, possible: Option<Sent>) -> ArrayVec<u16, 33>
    requires { length came.now ≤ 33 }
    ensures { slot < 33 → result.items ≡ take slot came.now ++ option_to_list (option_map (λ s. s.bits) possible) }
{
    let before = came.len().min(slot as usize);
    let mut reply = copied(&came[..before]);
    if let Some(sent) = possible {
        let _ = reply.try_push(sent.bits);
    }
    reply
}

impl UnexplainedReply {
    ghost use Rattle.std.specs.Prelude.{◌≡◌, ◌<◌, ◌++◌, take, option_map, option_to_list};

    /// The reply as one in place of which another was expected: the words before the one that is not explained, and the one that can come.
    pub fn wrong(self) -> WrongReply
        ensures same { (result.number ≡ self.number) × (result.command ≡ self.command) × (result.label ≡ self.label) × (result.came ≡ self.came) }
        ensures expected { self.slot < 33 → result.expected.items ≡ take self.slot self.came.items ++ option_to_list (option_map (λ s. s.bits) self.possible) }
    {
        WrongReply {
            number: self.number,
            command: self.command,
            label: self.label,
            expected: with_possible(self.came.as_slice(), self.slot, self.possible),
            came: self.came,
        }
    }
}

/// What comes of results where the subsystem may do anything.
#[derive(Drop)]
pub struct ResultsExplained {
    /// How many exchanges the acceptance test has.
    pub total: u32,
    /// Those without a result, in their order. From the first of them on nothing is judged.
    pub missing: Vec<NumberRange>,
    pub first: Option<UnexplainedReply>,
}

impl ResultsExplained {
    ghost use Rattle.std.specs.Prelude.{◌↔◌, [], None, IsTrue};

    /// Whether each exchange has a result, and some behaviour of the subsystem explains them all.
    pub fn passes(&self) -> bool
        ensures { IsTrue result ↔ ((self.now.first ≡ None) × (numbers_in self.now.missing.items ≡ [])) }
    {
        self.first.is_none() && self.missing.is_empty()
    }
}

/// How many exchanges a test has, and which have no result.
#[derive(Drop)]
struct GivenResults {
    total: u32,
    missing: Vec<NumberRange>,
}

/// Adds a number to those that are missing, where no result is of this exchange.
fn miss_unless_given(
    results: &Results,
    number: u32,
    missing: &mut Vec<NumberRange>,
) -> Result<(), AllocError>
    ensures { OnOk result (numbers_in missing.new.items ≡ numbers_in missing.old.items ++ missing_at number (answer results.now number)) }
{
    match results.reply(number) {
        Some(_) => Ok(()),
        None => miss(missing, number),
    }
}

/// Counts the exchanges of the acceptance test of a terminal, and those without a result.
fn count_given(
    alloc: Global,
    normal: &Normal,
    results: &Results,
) -> Result<GivenResults, AllocError>
    ensures { IfOk result (λ given. (given.total ≡ length (tried (description_in normal.now))) × (numbers_in given.missing.items ≡ missing (answer results.now) 1 (tried (description_in normal.now)))) }
{
    let mut exchanges = Exchanges::new(normal);
    let mut total = 0;
    let mut missing = Vec::new(alloc);
    while let Some(_exchange) = exchanges.next() {
        total = exchanges.given();
        miss_unless_given(results, total, &mut missing)?;
    }
    Ok(GivenResults { total, missing })
}

/// The words that came as the reply to an exchange which has a result.
fn reply_of(results: &Results, number: u32) -> ArrayVec<u16, 33>
    ensures { (words : List ℕ) → answer results.now number ≡ Some words → result.items ≡ words }
{
    match results.reply(number) {
        Some(reply) => copied(reply),
        None => ArrayVec::new(),
    }
}

/// What is told of the first sighting that nothing explains.
fn reply_told(normal: &Normal, results: &Results, first: Unexplained) -> UnexplainedReply
    ensures { TellsPlace (description_in normal.now) (answer results.now) first result }
{
    let number = (first.marked.line % SLOT_LINES) as u32;
    let command = first.marked.command.unwrap_or(0);
    UnexplainedReply {
        number,
        command,
        label: label_of(normal, command),
        came: reply_of(results, number),
        slot: (first.marked.line / SLOT_LINES) as u32,
        possible: first.sent,
    }
}

/// The same, where there is one.
fn first_told(
    normal: &Normal,
    results: &Results,
    first: Option<Unexplained>,
) -> Option<UnexplainedReply>
    ensures { TellsUnexplainedReply (description_in normal.now) (answer results.now) first result }
{
    match first {
        Some(first) => Some(reply_told(normal, results, first)),
        None => None,
    }
}

/// Explains the results of a unit by the acceptance test of a terminal: whether some behaviour of the subsystem makes the terminal reply
/// so, up to the first exchange without a result, and else the first reply that none explains.
pub fn explain_results(
    alloc: Global,
    normal: &Normal,
    results: &Results,
) -> Result<ResultsExplained, CompareFault>
    ensures explains { (P : Description) → description_in normal.now ≡ reach P → IfOk result (ExplainsResults (description_in normal.now) P (answer results.now)) }
    ensures missing { IfOk result (TellsMissing (description_in normal.now) (answer results.now)) }
    ensures refused { IfErr result (AreNotCompared (description_in normal.now) results.now) }
{
    let GivenResults { total, missing } = count_given(alloc, normal, results)?;
    if let Some(line) = beyond(results, total) {
        return Err(CompareFault::Beyond(line));
    }
    let unexplained = watch_results(alloc, normal, results)?.end()?;
    Ok(ResultsExplained {
        total,
        missing,
        first: first_told(normal, results, unexplained),
    })
}
