//! A terminal that is played line by line, for as long as lines come.
ghost use Rattle.std.specs.Prelude.{◌≡◌, ◌<◌, ◌≤◌, ◌-◌, ◌^◌, ◌∷◌, [], ℕ, List, true, length, OnOk, IfOk, IfErr, IfSome, IsErrOf};
ghost use Rattle.std.specs.Io.KnownBytes.{Appends};
ghost use Rattle.bus_legal.specs.Description.{Description};
ghost use Rattle.terminal_rules.specs.declared.event.Event.{Event};
ghost use Rattle.bus_terminal.specs.Stands.{StandsAt};
ghost use Rattle.script_lines.specs.Text.{lines_of};
ghost use Rattle.rt1553_tool.specs.Session.{live_meaning, history_after_line, AnswersLine, AnswersLines, RefusesLine};
ghost use Rattle.rt1553_tool.specs.inner.Served.{Served, ServesLine};

use crate::input::{ServeFault, hand_on, put, take_line};
use crate::word_texts::push_decimal;
use arrayvec::{ArrayString, ArrayVec};
use bus_legal::Legality;
use bus_terminal::Terminal;
use byte_streams::{Sink, Source};
use refused_lines::{Misfit, misfit_of};
use script_lines::{read_event, write_answer};

/// The bytes of a line that are kept: one more than it may have tells that it is too long.
type Line = ArrayVec<u8, 65>;

/// What answers a line: a line of a transcript, or why the line is refused.
type LiveAnswer = ArrayString<320>;

/// Gives what answers a line that is refused.
fn refusal(misfit: Misfit) -> LiveAnswer
    requires { misfit.column < 100 }
    ensures { RefusesLine result.bytes }
{
    let mut text = LiveAnswer::new();
    text.push_str("? column ");
    push_decimal(&mut text, misfit.column as u8);
    text.push_str(": ");
    text.push_str(misfit.reason.text());
    text.push_str("\n");
    text
}

/// Plays a line, without its line feed, and gives what answers it. A line that is none of a script is answered by a question
/// mark, the column of the first byte that doesn't fit and the reason, and the terminal stands as before.
pub fn play_live_line<L: Legality>(terminal: &mut Terminal<L>, line: &[u8]) -> LiveAnswer
    ensures stands { (P : Description) (h : List Event) → StandsAt L.is_legal P h terminal.old → StandsAt L.is_legal P (history_after_line (live_meaning line.now) h) terminal.new }
    ensures answer { (P : Description) (h : List Event) → StandsAt L.is_legal P h terminal.old → AnswersLine P h (live_meaning line.now) result.bytes }
{
    if let Some(misfit) = misfit_of(line) {
        return refusal(misfit);
    }
    match read_event(line) {
        Ok(Some(event)) => {
            let answer = terminal.step(event);
            write_answer(&answer)
        }
        _ => LiveAnswer::new(),
    }
}

/// Plays a line, and writes what answers it and a line with a dot.
fn put_answer<L: Legality, W: Sink>(
    terminal: &mut Terminal<L>,
    sink: &mut W,
    line: &[u8],
) -> Result<(), ServeFault>
    ensures ok { OnOk result (Served L.is_legal W.written (terminal.old, sink.old) (terminal.new, sink.new) (line.now ∷ [])) }
    ensures fault { IfErr result (λ fault. (fault ≡ ServeFault.Write) × (W.has_failed sink.new ≡ true)) }
{
    let answer = play_live_line(terminal, line);
    if let Err(fault) = put(sink, answer.as_str().as_bytes()) {
        return Err(fault);
    }
    if let Err(fault) = put(sink, b".\n") {
        return Err(fault);
    }
    hand_on(sink)
}

/// Answers the next line, and gives whether there was one.
fn serve_line<L: Legality, S: Source, W: Sink>(
    terminal: &mut Terminal<L>,
    source: &mut S,
    sink: &mut W,
    line: &mut Line,
) -> Result<bool, ServeFault>
    ensures ok { IfOk result (λ found. IfSome (S.left source.old) (λ xs. ServesLine L.is_legal W.written (terminal.old, sink.old) (terminal.new, sink.new) found xs (S.left source.new))) }
    ensures read { IsErrOf result ServeFault.Read → S.has_failed source.new ≡ true }
    ensures write { IsErrOf result ServeFault.Write → W.has_failed sink.new ≡ true }
    ensures long { IsErrOf result ServeFault.TooLong → IfSome (S.left source.old) (λ xs. 2 ^ 64 - 1 ≤ length xs) }
{
    match take_line(source, line) {
        Err(fault) => Err(fault),
        Ok(false) => Ok(false),
        Ok(true) => match put_answer(terminal, sink, line.as_slice()) {
            Ok(()) => Ok(true),
            Err(fault) => Err(fault),
        },
    }
}

/// Plays lines till there are no more. What answers a line, and then a line with a dot, are handed on before the next is read.
/// Of a line that is too long no more than 65 bytes are kept.
pub fn serve<L: Legality, S: Source, W: Sink>(
    terminal: &mut Terminal<L>,
    source: &mut S,
    sink: &mut W,
) -> Result<(), ServeFault>
    ensures ok { OnOk result (IfSome (S.left source.old) (λ input. (P : Description) (h : List Event) → StandsAt L.is_legal P h terminal.old
        → (text : List ℕ) × AnswersLines P h (lines_of input) text × Appends (W.written sink.old) (W.written sink.new) text)) }
    ensures read { IsErrOf result ServeFault.Read → S.has_failed source.new ≡ true }
    ensures write { IsErrOf result ServeFault.Write → W.has_failed sink.new ≡ true }
    ensures long { IsErrOf result ServeFault.TooLong → IfSome (S.left source.old) (λ input. 2 ^ 64 - 1 ≤ length input) }
{
    let mut line = Line::new();
    for _turn in 0..u64::MAX {
        match serve_line(terminal, source, sink, &mut line) {
            Ok(true) => {}
            Ok(false) => return Ok(()),
            Err(fault) => return Err(fault),
        }
    }
    Err(ServeFault::TooLong)
}
