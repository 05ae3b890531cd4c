//! The lines of the words that are held ready.
ghost use Rattle.std.specs.Prelude.{◌≡◌, codes, OnOk};
ghost use Rattle.line_format.specs.Reading.{read};
ghost use Rattle.line_format.specs.Shapes.{words_line};
ghost use Rattle.line_format.specs.Views.{Gives, spot};
ghost use Rattle.line_format.specs.Writing.{Adds};
ghost use Rattle.rt1553_live.specs.State.{held_from};
ghost use Rattle.rt1553_live.specs.Text.{held_lines};

use crate::names::HELD;
use line_format::{Lines, WrongLine, put_words_line, words_line};
use std::alloc::AllocError;
use terminal_state::{Blocks, HeldWords};

/// Reads the 32 words of a subaddress.
fn held_line(lines: Lines<'_>, subaddress: u32) -> Result<([u16; 32], Lines<'_>), WrongLine>
    ensures { Gives (λ r. r.0) (λ r. r.1) result (read (words_line (codes "held") subaddress 32) (spot lines.entry)) }
{
    let mut words = [0; 32];
    match words_line(lines, HELD, subaddress, &mut words) {
        Ok(behind) => Ok((words, behind)),
        Err(wrong) => Err(wrong),
    }
}

/// Reads the words of the subaddresses 1 to 30.
pub fn held_lines(lines: Lines<'_>) -> Result<(Blocks, Lines<'_>), WrongLine>
    ensures { Gives (λ r. r.0) (λ r. r.1) result (read (held_lines 1 30) (spot lines.entry)) }
{
    let mut found = [[0; 32]; 30];
    let mut rest = lines;
    for index in 0..30 {
        let (words, behind) = match held_line(rest, index as u32 + 1) {
            Ok(read) => read,
            Err(wrong) => return Err(wrong),
        };
        found[index] = words;
        rest = behind;
    }
    Ok((found, rest))
}

/// Writes the words of the subaddresses 1 to 30.
pub fn put_held(out: &mut Vec<u8>, held: &HeldWords) -> Result<(), AllocError>
    ensures { OnOk result (Adds (held_lines 1 30) (held_from held.now 1 30) out.old.items out.new.items) }
{
    for index in 0..30u8 {
        put_words_line(out, HELD, u32::from(index) + 1, held.block(index + 1))?;
    }
    Ok(())
}
