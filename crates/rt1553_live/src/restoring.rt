//! A terminal is made of a saved state.
ghost use Rattle.std.specs.Prelude.{◌≡◌, ◌≤◌, [], ◌∷◌, codes, length, IfOk, IfErr};
ghost use Rattle.line_format.specs.Reading.{read};
ghost use Rattle.line_format.specs.Shapes.{words_line};
ghost use Rattle.line_format.specs.Views.{Gives, spot};
ghost use Rattle.terminal_state.specs.Replies.{shown_reply};
ghost use Rattle.rt1553_live.specs.Numbers.{IsCounted};
ghost use Rattle.rt1553_live.specs.State.{saved_message, saved_words, state_of, IsMade};
ghost use Rattle.rt1553_live.specs.Text.{version_line, registers_line, word_number, saved, StateText, IsNoState};

use crate::bits::Bits;
use crate::coded_lines::{bits_line, message_line, reply_line};
use crate::collected::in_progress_of;
use crate::held_lines::held_lines;
use crate::message::SavedMessage;
use crate::names::{HEAD, REGISTERS, WORDS};
use crate::state_fault::StateFault;
use arrayvec::ArrayVec;
use bus_canon::canon_lines;
use bus_legal::Normal;
use bus_terminal::Terminal;
use bus_word::Command;
use line_format::{FieldKind, Lines, WrongLine, number_line, words_line};
use terminal_state::{Blocks, HeldWords, InProgress, PowerUpWords, Registers, Reply};

/// Reads the first line, which tells the version.
fn version_line(lines: Lines<'_>) -> Result<Lines<'_>, WrongLine>
    ensures { Gives (λ r. 1) (λ r. r) result (read version_line (spot lines.entry)) }
{
    match number_line(lines, HEAD, FieldKind::Digit, |n| n == 1) {
        Ok((_, behind)) => Ok(behind),
        Err(wrong) => Err(wrong),
    }
}

/// Reads the vector word, the BIT word and the last command.
fn registers_line(lines: Lines<'_>) -> Result<([u16; 3], Lines<'_>), WrongLine>
    ensures { Gives (λ r. r.0) (λ r. r.1) result (read registers_line (spot lines.entry)) }
{
    let mut words = [0; 3];
    match words_line(lines, REGISTERS, 1, &mut words) {
        Ok(behind) => Ok((words, behind)),
        Err(wrong) => Err(wrong),
    }
}

/// How many data words a message collected.
fn word_number(message: &Option<SavedMessage>) -> u8
    requires { IsCounted message.now }
    ensures count { result ≡ word_number message.now }
    ensures few { result ≤ 32 }
{
    match message {
        Some(message) => message.count,
        None => 0,
    }
}

/// Reads the data words that a message collected.
fn collected<'a>(
    lines: Lines<'a>,
    message: &Option<SavedMessage>,
) -> Result<(ArrayVec<u16, 32>, Lines<'a>), WrongLine>
    requires { IsCounted message.now }
    ensures answer { Gives (λ r. r.0.items) (λ r. r.1) result (read (words_line (codes "words") 1 (word_number message.now)) (spot lines.entry)) }
    ensures many { IfOk result (λ r. length r.0.items ≡ word_number message.now) }
{
    let mut words = [0; 32];
    let read = &mut words[..usize::from(word_number(message))];
    match words_line(lines, WORDS, 1, read) {
        Ok(behind) => {
            let mut kept = ArrayVec::new();
            let _ = kept.try_extend_from_slice(read);
            Ok((kept, behind))
        }
        Err(wrong) => Err(wrong),
    }
}

/// The registers of these truth values and words, but for the words of power-up.
fn registers_of(bits: &Bits, words: &[u16; 3]) -> Registers
    ensures flags { result.flags ≡ bits.now.flags }
    ensures inhibited { result.inhibited ≡ bits.now.inhibited }
    ensures off { result.off ≡ bits.now.off }
    ensures words { result.vector ∷ result.bit ∷ result.last ∷ [] ≡ words.now }
    ensures kept { result.kept ≡ bits.now.status }
{
    Registers {
        power_up: PowerUpWords { vector: 0, bit: 0 },
        flags: bits.flags,
        inhibited: bits.inhibited,
        off: bits.off,
        vector: words[0],
        bit: words[1],
        last: Command::of(words[2]),
        kept: bits.status,
    }
}

/// The terminal of this profile in this state.
fn terminal_of(
    bits: Bits,
    words: [u16; 3],
    reply: Option<Reply>,
    in_progress: InProgress,
    held: &Blocks,
    normal: Normal,
) -> Terminal<Normal>
    ensures state { state_of result ≡ record {
      bits = bits;
      registers = words;
      reply = shown_reply reply;
      message = saved_message in_progress.message in_progress.words.items;
      words = saved_words in_progress.message in_progress.words.items;
      held = held.now;
      parts = normal;
    } }
    ensures made { IsMade result }
{
    let setup = normal.setup();
    Terminal::keeping(
        setup,
        normal,
        bits.heard,
        in_progress,
        registers_of(&bits, &words),
        reply,
        HeldWords::holding(setup.initial, *held),
    )
}

/// Reads the lines of a state.
fn state_lines(lines: Lines<'_>) -> Result<(Terminal<Normal>, Lines<'_>), WrongLine>
    ensures state { Gives (λ r. state_of r.0) (λ r. r.1) result (read saved (spot lines.entry)) }
    ensures made { IfOk result (λ r. IsMade r.0) }
{
    let lines = version_line(lines)?;
    let (bits, lines) = bits_line(lines)?;
    let (registers, lines) = registers_line(lines)?;
    let (reply, lines) = reply_line(lines)?;
    let (message, lines) = match message_line(lines) {
        Ok(read) => read,
        Err(wrong) => return Err(wrong),
    };
    let (words, lines) = match collected(lines, &message) {
        Ok(read) => read,
        Err(wrong) => return Err(wrong),
    };
    let (held, lines) = held_lines(lines)?;
    let (normal, lines) = match canon_lines(lines) {
        Ok(read) => read,
        Err(wrong) => return Err(wrong),
    };
    let terminal = terminal_of(
        bits,
        registers,
        reply,
        in_progress_of(message, words),
        &held,
        normal,
    );
    Ok((terminal, lines))
}

/// Makes a terminal of the text of a state. Where none stands at the front, the first wrong line is told; one that lacks its line
/// feed, or that isn't there, is wrong. Takes no memory.
pub fn restore(text: &[u8]) -> Result<Terminal<Normal>, StateFault>
    ensures state { IfOk result (λ terminal. StateText (state_of terminal) text.now) }
    ensures made { IfOk result IsMade }
    ensures refused { IfErr result (IsNoState text.now) }
{
    let (terminal, after) = match state_lines(Lines::of(text)) {
        Ok(found) => found,
        Err(wrong) => return Err(StateFault::Line(wrong.line)),
    };
    if after.rest.is_empty() {
        Ok(terminal)
    } else {
        Err(StateFault::Trailing)
    }
}
