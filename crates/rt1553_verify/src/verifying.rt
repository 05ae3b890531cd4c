//! What a terminal answers is compared with what a script states.
ghost use Rattle.std.specs.Prelude.{◌≡◌, ◌≢◌, ◌∷◌, ◌++◌, [], List, Ok, Err, IfOk, IfErr, OnOk, map};
ghost use Rattle.bus_legal.specs.Description.{Description};
ghost use Rattle.bus_legal.specs.Parts.{description_in};
ghost use Rattle.bus_legal.specs.Reach.{reach};
ghost use Rattle.terminal_rules.specs.declared.event.Event.{Event};
ghost use Rattle.bus_terminal.specs.Stands.{StandsAt};
ghost use Rattle.rt1553_verify.specs.Stated.{shown, stated_in};
ghost use Rattle.rt1553_verify.specs.Verify.{told_answer, wrong_answer_at, wrong_answers_from, verified};

use crate::{Stated, StatedFault, read_stated};
use bus_legal::{Legality, Normal};
use bus_terminal::Terminal;
use script_lines::write_answer;
use std::alloc::{AllocError, Global};

/// An event that is not answered as a script states.
#[derive(Drop)]
pub struct WrongAnswer {
    /// The number of the event's line, from 1.
    pub line: u64,
    /// The line of the transcript that was stated, or its mask, with its line feed; empty for nothing.
    pub expected: Vec<u8>,
    /// The line of the transcript that answered, with its line feed; empty for nothing.
    pub came: Vec<u8>,
}

/// Plays an event, and keeps where its answer differs from what is stated.
fn compare_answer<L: Legality>(
    alloc: Global,
    terminal: &mut Terminal<L>,
    stated: &Stated,
    found: &mut Vec<WrongAnswer>,
) -> Result<(), AllocError>
    ensures stands { (P : Description) (h : List Event) → StandsAt L.is_legal P h terminal.old → StandsAt L.is_legal P (stated.now.event ∷ h) terminal.new }
    ensures told { (P : Description) (h : List Event) → StandsAt L.is_legal P h terminal.old → OnOk result (map told_answer found.new.items ≡ map told_answer found.old.items ++ wrong_answer_at P h (shown stated.now)) }
{
    let answer = terminal.step(stated.event);
    let came = write_answer(&answer);
    let came = came.as_str().as_bytes();
    let expected = stated.answer.as_slice();
    if stated.matching.fits(expected, came) {
        return Ok(());
    }
    found.push(WrongAnswer {
        line: stated.line,
        expected: expected.to_vec(alloc)?,
        came: came.to_vec(alloc)?,
    })?;
    Ok(())
}

/// Plays a script to a terminal from power-up, and tells each event that is not answered as the script states, in their
/// order. An event without a stated answer is to be answered by nothing.
pub fn wrong_answers(
    alloc: Global,
    normal: &Normal,
    script: &[Stated],
) -> Result<Vec<WrongAnswer>, AllocError>
    ensures { (P : Description) → description_in normal.now ≡ reach P → IfOk result (λ found. map told_answer found.items ≡ wrong_answers_from P [] (map shown script.now)) }
{
    let setup = normal.setup();
    let mut terminal = Terminal::power_up(setup, *normal);
    let mut found = Vec::new(alloc);
    for stated in script {
        compare_answer(alloc, &mut terminal, stated, &mut found)?;
    }
    Ok(found)
}

/// Plays a script that states its answers to a terminal from power-up, and tells each event that is not answered so, in
/// their order. A script is refused by its first fault.
pub fn verify(
    alloc: Global,
    normal: &Normal,
    script: &[u8],
) -> Result<Vec<WrongAnswer>, StatedFault>
    ensures tells { (P : Description) → description_in normal.now ≡ reach P → IfOk result (λ found. verified P script.now ≡ Ok (map told_answer found.items)) }
    ensures refused { IfErr result (λ fault. fault ≢ StatedFault.Memory → stated_in script.now ≡ Err fault) }
{
    let read = read_stated(alloc, script)?;
    Ok(wrong_answers(alloc, normal, read.as_slice())?)
}
