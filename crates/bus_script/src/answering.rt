//! Events are played one by one, and what the terminal answers is written.
ghost use Rattle.std.specs.Prelude.{◌≡◌, ◌<◌, ◌≤◌, ◌∷◌, [], List, ℕ, true, length, IfOk, IfErr, OnOk, OnErr};
ghost use Rattle.bus_word.specs.Word.{valid_word};
ghost use Rattle.bus_word.specs.declared.word.Kind.TheVariants.{Com};
ghost use Rattle.terminal_rules.specs.declared.event.Event.{Event};
ghost use Rattle.terminal_rules.specs.declared.event.Event.TheVariants.{Word as WordEvent, Gap};
ghost use Rattle.std.specs.Io.KnownBytes.{Appends};
ghost use Rattle.bus_terminal.specs.Answer.{shown_answer, IsSmall};
ghost use Rattle.byte_streams.specs.Device.{IsPartWritten};
ghost use Rattle.script_lines.specs.Transcript.{answer_text, may_be_answered, text_at};
ghost use Rattle.bus_script.specs.Reading.{ByFault};
ghost use Rattle.bus_script.specs.inner.Lines.{Means, IsRefused};
ghost use Rattle.bus_script.specs.inner.Pieces.{PlaysPiece, BreaksPiece};
ghost use Rattle.bus_script.specs.Played.{Played, PlayedPart};

use crate::RunFault;
use crate::piece::Piece;
use arrayvec::ArrayString;
use bus_legal::Legality;
use bus_terminal::{Answer, Event, Terminal};
use bus_word::Bus;
use byte_streams::{IoFailed, Sink, write_all};
use script_lines::{GAP_LINE, KnownPairs, LineReader, first_gap, push_answer};

/// Whether an answer has no line.
#[inline(always)]
fn is_silent(answer: &Answer) -> bool
    ensures { result ≡ true → answer_text (shown_answer answer.now) ≡ [] }
{
    matches!(answer, Answer::Silent)
}

/// Whether the event is one that may be answered.
#[inline(always)]
fn may_be_answered(event: &Event) -> bool
    ensures { result ≡ may_be_answered event.now }
{
    matches!(event, Event::Gap(_) | Event::Slot)
}

/// Writes the line of an answer, if it has one, by way of the text.
#[inline(always)]
fn write_answered<W: Sink>(
    writer: &mut W,
    text: &mut ArrayString<320>,
    pairs: Option<&KnownPairs>,
    answer: &Answer,
) -> Result<(), IoFailed>
    requires { IsSmall (shown_answer answer.now) }
    ensures ok { OnOk result (Appends (W.written writer.old) (W.written writer.new) (answer_text (shown_answer answer.now))) }
    ensures err { OnErr result (IsPartWritten (W.written writer.old) (W.written writer.new) (answer_text (shown_answer answer.now))) }
    ensures failed { OnErr result (W.has_failed writer.new ≡ true) }
{
    if is_silent(answer) {
        return Ok(());
    }
    text.clear();
    push_answer(text, pairs, answer);
    write_all(writer, text.as_str().as_bytes())
}

/// Plays an event and writes its answer, by way of the text.
#[inline(always)]
pub fn play_answered<L: Legality, W: Sink>(
    terminal: &mut Terminal<L>,
    writer: &mut W,
    text: &mut ArrayString<320>,
    pairs: Option<&KnownPairs>,
    event: Event,
) -> Result<(), IoFailed>
    ensures ok { OnOk result (Played L.is_legal text_at W.written (terminal.old, writer.old) (terminal.new, writer.new) (event ∷ [])) }
    ensures err { OnErr result (PlayedPart L.is_legal W.written (terminal.old, writer.old) (terminal.new, writer.new) [] event) }
    ensures failed { OnErr result (W.has_failed writer.new ≡ true) }
{
    let answer = terminal.step(event);
    write_answered(writer, text, pairs, &answer)
}

/// Plays a command word and the gap right behind it, and writes the answer, by way of the text.
#[inline(always)]
pub fn play_with_gap<L: Legality, W: Sink>(
    terminal: &mut Terminal<L>,
    writer: &mut W,
    text: &mut ArrayString<320>,
    bus: Bus,
    bits: u16,
) -> Result<(), IoFailed>
    ensures ok { OnOk result (Played L.is_legal text_at W.written (terminal.old, writer.old) (terminal.new, writer.new) (WordEvent bus (valid_word Com bits) ∷ Gap bus ∷ [])) }
    ensures err { OnErr result (PlayedPart L.is_legal W.written (terminal.old, writer.old) (terminal.new, writer.new) (WordEvent bus (valid_word Com bits) ∷ []) (Gap bus)) }
    ensures failed { OnErr result (W.has_failed writer.new ≡ true) }
{
    let answer = terminal.take_with_gap(bus, bits);
    write_answered(writer, text, None, &answer)
}

/// Plays an event.
fn play_event<L: Legality, W: Sink>(
    terminal: &mut Terminal<L>,
    writer: &mut W,
    text: &mut ArrayString<320>,
    event: Event,
) -> Result<(), IoFailed>
    ensures ok { OnOk result (Played L.is_legal text_at W.written (terminal.old, writer.old) (terminal.new, writer.new) (event ∷ [])) }
    ensures err { OnErr result (PlayedPart L.is_legal W.written (terminal.old, writer.old) (terminal.new, writer.new) [] event) }
    ensures failed { OnErr result (W.has_failed writer.new ≡ true) }
{
    if !may_be_answered(&event) {
        terminal.take(event);
        return Ok(());
    }
    play_answered(terminal, writer, text, None, event)
}

/// Plays a gap that stands first, if one does.
#[inline(always)]
#[tactic(auto, using(crate::proofs::FeedLaws::none_played))]
pub fn play_gap<L: Legality, W: Sink>(
    terminal: &mut Terminal<L>,
    writer: &mut W,
    text: &mut ArrayString<320>,
    bytes: &[u8],
    most: u32,
) -> Result<Piece, IoFailed>
    requires { 0 < most }
    ensures ok { IfOk result (λ piece. PlaysPiece L.is_legal W.written (terminal.old, writer.old) (terminal.new, writer.new) bytes.now most piece) }
    ensures err { OnErr result (BreaksPiece L.is_legal W.written (terminal.old, writer.old) (terminal.new, writer.new) bytes.now most) }
    ensures failed { OnErr result (W.has_failed writer.new ≡ true) }
{
    match first_gap(bytes) {
        Some(bus) => match play_answered(terminal, writer, text, None, Event::Gap(bus)) {
            Ok(()) => Ok(Piece::of(1, GAP_LINE)),
            Err(_) => Err(IoFailed),
        },
        None => Ok(Piece::NONE),
    }
}

/// Plays any line, which follows `lines` lines, and gives the number of its events: none or one.
#[inline(never)]
pub fn play_line<L: Legality, W: Sink>(
    terminal: &mut Terminal<L>,
    writer: &mut W,
    reader: &mut LineReader,
    text: &mut ArrayString<320>,
    lines: u32,
    line: &[u8],
) -> Result<u64, RunFault>
    requires { lines < 1048576 }
    ensures few { IfOk result (λ n. n ≤ 1) }
    ensures ok { IfOk result (λ n. (es : List Event) × (length es ≡ n) × Means line.now es
        × Played L.is_legal text_at W.written (terminal.old, writer.old) (terminal.new, writer.new) es) }
    ensures fault { IfErr result (λ f. ByFault f
        (IsRefused line.now lines f × Played L.is_legal text_at W.written (terminal.old, writer.old) (terminal.new, writer.new) [])
        ⊥
        ((e : Event) × Means line.now (e ∷ []) × (W.has_failed writer.new ≡ true)
        × PlayedPart L.is_legal W.written (terminal.old, writer.old) (terminal.new, writer.new) [] e)) }
{
    match reader.read_event(line) {
        Ok(None) => Ok(0),
        Ok(Some(event)) => match play_event(terminal, writer, text, event) {
            Ok(()) => Ok(1),
            Err(_) => Err(RunFault::Write),
        },
        Err(_) => Err(RunFault::Line(lines as u64 + 1)),
    }
}
