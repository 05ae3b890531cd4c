//! A script in which the answers of a terminal are stated.
ghost use Rattle.std.specs.Prelude.{ℕ, ◌≡◌, ◌≢◌, [], List, length, Err, IfOk, IfErr, OnOk};
ghost use Rattle.bus_legal.specs.Description.{Description};
ghost use Rattle.bus_legal.specs.Parts.{description_in};
ghost use Rattle.terminal_rules.specs.declared.event.Event.{Event};
ghost use Rattle.bus_terminal.specs.Answer.{shown_answer};
ghost use Rattle.bus_terminal.specs.Stands.{StandsAt};
ghost use Rattle.script_lines.specs.Text.{lines_of};
ghost use Rattle.rt1553_verify.specs.Stated.{stated_in};
ghost use Rattle.rt1553_acceptance.specs.Text.{answer_stated};
ghost use Rattle.rt1553_acceptance.specs.Answered.{if_event, states_line, event_meant, line_answered, script_answered, stated_behind, IsAnswered};
ghost use Rattle.rt1553_acceptance.specs.inner.Fits.{AllFit};
ghost use Rattle.rt1553_acceptance.specs.inner.Answering.{WritesAnswer, events_meant};

use crate::stating::{answer_lines, fits};
use bus_legal::{Legality, Normal};
use bus_terminal::{Event, Terminal};
use line_format::after;
use refused_lines::first_line;
use rt1553_verify::{StatedFault, read_stated};
use script_lines::{MAX_LINES, read_event};
use std::alloc::{AllocError, Global};

/// What a script without fault becomes where its answers are stated.
#[derive(Drop)]
pub enum Answered {
    /// The script with the answers.
    Script(Vec<u8>),
    /// With them it would have over 1,048,576 lines.
    TooLong,
}

/// Whether a line states an answer, or goes on with one.
fn states_line(line: &[u8]) -> bool
    ensures { result ≡ states_line line.now }
{
    after(line, b"#> ").is_some() || after(line, b"#~ ").is_some() || after(line, b"#+ ").is_some()
}

/// Plays the event of a line, if it says one, and writes what is stated of the answer.
fn push_answer<L: Legality>(
    text: &mut Vec<u8>,
    terminal: &mut Terminal<L>,
    event: Option<Event>,
) -> Result<(), AllocError>
    ensures { (P : Description) (h : List Event) → StandsAt L.is_legal P h terminal.old → OnOk result (WritesAnswer L.is_legal P h terminal.new text.old.items text.new.items (stated_behind P h (if_event event)) (if_event event)) }
{
    if let Some(event) = event {
        let answer = terminal.step(event);
        fits(&answer);
        let lines = answer_lines(&answer);
        text.extend_from_slice(lines.as_str().as_bytes())?;
    }
    Ok(())
}

/// Plays the event of a line, if it says one, and writes what stands for the line.
fn push_answered<L: Legality>(
    text: &mut Vec<u8>,
    terminal: &mut Terminal<L>,
    line: &[u8],
) -> Result<(), AllocError>
    ensures { (P : Description) (h : List Event) → StandsAt L.is_legal P h terminal.old → OnOk result (WritesAnswer L.is_legal P h terminal.new text.old.items text.new.items (line_answered P h line.now) (event_meant line.now)) }
{
    if states_line(line) {
        return Ok(());
    }
    text.extend_from_slice(line)?;
    text.push(b'\n')?;
    push_answer(text, terminal, read_event(line).unwrap_or(None))
}

/// Plays a script from power-up, and writes what stands for its lines.
fn script_answered(alloc: Global, normal: &Normal, script: &[u8]) -> Result<Vec<u8>, AllocError>
    ensures { IfOk result (λ text. (text.items ≡ script_answered (description_in normal.now) script.now) × AllFit (description_in normal.now) [] (events_meant (lines_of script.now))) }
{
    let setup = normal.setup();
    let mut terminal = Terminal::power_up(setup, *normal);
    let mut text = Vec::new(alloc);
    let mut rest = script;
    while !rest.is_empty() {
        let (line, more) = first_line(rest);
        push_answered(&mut text, &mut terminal, line)?;
        rest = more;
    }
    Ok(text)
}

/// How many lines a text has.
fn count_lines(text: &[u8]) -> usize
    ensures { result ≡ length (lines_of text.now) }
{
    let mut rest = text;
    let mut count = 0;
    while !rest.is_empty() {
        let (_, more) = first_line(rest);
        count += 1;
        rest = more;
    }
    count
}

/// States the answers of a terminal in a script, each behind its event, in place of those that it states. A script is refused as
/// `read_stated` refuses it.
pub fn state_answers(alloc: Global, normal: &Normal, script: &[u8]) -> Result<Answered, StatedFault>
    ensures answered { IfOk result (IsAnswered (description_in normal.now) script.now) }
    ensures refused { IfErr result (λ fault. fault ≢ StatedFault.Memory → stated_in script.now ≡ Err fault) }
{
    read_stated(alloc, script)?;
    let text = script_answered(alloc, normal, script)?;
    if count_lines(text.as_slice()) > MAX_LINES as usize {
        return Ok(Answered::TooLong);
    }
    Ok(Answered::Script(text))
}
