//! The words of a transcript.
ghost use Rattle.std.specs.Prelude.{◌≡◌, ◌<◌, ◌^◌, IfSome, MatchOption, None, option_map};
ghost use Rattle.bus_word.specs.declared.word.Bus.{Bus};
ghost use Rattle.bus_terminal.specs.Answer.{shown_word};
ghost use Rattle.terminal_rules.specs.Out.{Sending};
ghost use Rattle.script_lines.specs.Transcript.{sent_text};
ghost use Rattle.script_recordings.specs.Seen.{open_line};
ghost use Rattle.script_recordings.specs.inner.Words.{kind_of_letter, any_digits};

use bus_terminal::{Answer, Sent};
use bus_word::{Bus, Kind};
use script_lines::{read_bus, read_word, write_answer};

/// The kind of a word by its letter: `s` for a status word, `d` for a data word.
fn kind_of_letter(letter: u8) -> Option<Kind>
    ensures { result ≡ kind_of_letter letter }
{
    match letter {
        b's' => Some(Kind::Com),
        b'd' => Some(Kind::Dat),
        _ => None,
    }
}

/// The word of a line that has the form of one, however its digits are written.
fn read_any_digits(line: &[u8]) -> Option<Sent>
    ensures { option_map shown_word result ≡ any_digits line.now }
{
    let bus = read_bus(line)?;
    match &line[2..] {
        [letter, b' ', a, b, c, d, b'\n'] => Some(Sent {
            bus,
            kind: kind_of_letter(*letter)?,
            bits: read_word(*a, *b, *c, *d)?,
        }),
        _ => None,
    }
}

/// Gives the word of which this is the line in a transcript, with its line feed. None where it is no such line.
pub fn read_sent(line: &[u8]) -> Option<Sent>
    ensures found { IfSome result (λ sent. sent_text (shown_word sent) ≡ line.now) }
    ensures none { result ≡ None → (w : Sending) → w.bits < 2 ^ 16 → sent_text w ≡ line.now → ⊥ }
{
    let sent = read_any_digits(line)?;
    if write_answer(&Answer::Sends(sent)).as_str().as_bytes() == line {
        Some(sent)
    } else {
        None
    }
}

/// Gives the line that leaves a data word open, on this bus.
pub(crate) fn open_line(bus: Bus) -> &'static [u8]
    ensures { result.now ≡ open_line bus }
{
    match bus {
        Bus::A => b"A d ....\n",
        Bus::B => b"B d ....\n",
    }
}

/// Gives the bus of a line that leaves a data word open.
pub(crate) fn open_bus(line: &[u8]) -> Option<Bus>
    ensures { MatchOption result ((bus : Bus) → line.now ≡ open_line bus → ⊥) (λ bus. line.now ≡ open_line bus) }
{
    if line == open_line(Bus::A) {
        Some(Bus::A)
    } else if line == open_line(Bus::B) {
        Some(Bus::B)
    } else {
        None
    }
}
