//! The state of a terminal is written.
ghost use Rattle.std.specs.Prelude.{◌≡◌, ◌≤◌, [], ◌∷◌, length, IfOk, OnOk};
ghost use Rattle.line_format.specs.Writing.{Adds};
ghost use Rattle.rt1553_live.specs.State.{state_of, kept_bits, IsMade};
ghost use Rattle.rt1553_live.specs.Text.{saved, StateText, Resumes};

use crate::bits::Bits;
use crate::coded_lines::{put_bits, put_message, put_reply};
use crate::collected::{message_of, words_of};
use crate::held_lines::put_held;
use crate::names::{HEAD, REGISTERS, WORDS};
use bus_canon::put_canon;
use bus_legal::Normal;
use bus_terminal::Terminal;
use line_format::{FieldKind, put_number_line, put_words_line};
use std::alloc::{AllocError, Global};
use terminal_state::Registers;

/// The version of the texts.
const VERSION: u32 = 1;

/// How many bytes the longest text of a state has.
const LONGEST: usize = 13_028;

/// The truth values that a terminal keeps.
fn kept_bits(terminal: &Terminal<Normal>) -> Bits
    ensures { result ≡ kept_bits terminal.now }
{
    let kept = terminal.kept();
    Bits {
        heard: kept.heard,
        flags: kept.registers.flags,
        inhibited: kept.registers.inhibited,
        off: kept.registers.off,
        status: kept.registers.kept,
    }
}

/// The vector word, the BIT word and the last command.
fn register_words(registers: &Registers) -> [u16; 3]
    ensures { result ≡ registers.now.vector ∷ registers.now.bit ∷ registers.now.last ∷ [] }
{
    [registers.vector, registers.bit, registers.last.bits()]
}

/// Writes the lines of a state.
fn put_state(out: &mut Vec<u8>, terminal: &Terminal<Normal>) -> Result<(), AllocError>
    ensures { OnOk result (Adds saved (state_of terminal.now) out.old.items out.new.items) }
{
    let kept = terminal.kept();
    put_number_line(out, HEAD, FieldKind::Digit, VERSION)?;
    put_bits(out, &kept_bits(terminal))?;
    put_words_line(out, REGISTERS, 1, &register_words(kept.registers))?;
    put_reply(out, &kept.reply)?;
    put_message(out, &message_of(kept.in_progress))?;
    put_words_line(out, WORDS, 1, words_of(kept.in_progress))?;
    put_held(out, kept.held)?;
    put_canon(out, terminal.legality())?;
    Ok(())
}

/// Writes the state of a terminal, asking once for the room of the longest. The terminal must be set up as its own profile says: of
/// what it was set up with, the text has the profile alone.
pub fn save(alloc: Global, terminal: &Terminal<Normal>) -> Result<Vec<u8>, AllocError>
    requires { IsMade terminal.now }
    ensures text { IfOk result (λ bytes. StateText (state_of terminal.now) bytes.items) }
    ensures resumes { IfOk result (λ bytes. Resumes terminal.now bytes.items) }
    ensures size { IfOk result (λ bytes. length bytes.items ≤ 13028) }
{
    let mut out = Vec::with_capacity(alloc, LONGEST)?;
    put_state(&mut out, terminal)?;
    Ok(out)
}
