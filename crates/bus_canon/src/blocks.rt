//! The lines of the words held at power-up.
ghost use Rattle.std.specs.Prelude.{◌≡◌, ◌<◌, ◌≤◌, ℕ, [], get_or, OnOk};
ghost use Rattle.line_format.specs.Reading.{read};
ghost use Rattle.line_format.specs.Views.{Gives, spot};
ghost use Rattle.line_format.specs.Writing.{Adds};
ghost use Rattle.bus_legal.specs.Tables.{largest_in};
ghost use Rattle.bus_canon.specs.Canon.{block, blocks};

use crate::names::INITIAL;
use bus_legal::largest_count;
use line_format::{Lines, WrongLine, put_words_line, words_line};
use std::alloc::AllocError;

/// Reads the words of a subaddress whose legal transmit counts are these.
fn block(
    lines: Lines<'_>,
    subaddress: u32,
    counts: u32,
) -> Result<([u16; 32], Lines<'_>), WrongLine>
    ensures { Gives (λ r. r.0) (λ r. r.1) result (read (block subaddress counts) (spot lines.entry)) }
{
    let mut words = [0; 32];
    if counts == 0 {
        return Ok((words, lines));
    }
    match words_line(
        lines,
        INITIAL,
        subaddress,
        &mut words[..largest_count(counts)],
    ) {
        Ok(behind) => Ok((words, behind)),
        Err(wrong) => Err(wrong),
    }
}

/// Reads the words of the subaddresses 1 to 30, whose legal transmit counts are these.
pub fn blocks<'a>(
    lines: Lines<'a>,
    masks: &[u32; 30],
) -> Result<([[u16; 32]; 30], Lines<'a>), WrongLine>
    ensures { Gives (λ r. r.0) (λ r. r.1) result (read (blocks 1 masks.now) (spot lines.entry)) }
{
    let mut found = [[0; 32]; 30];
    let mut rest = lines;
    for index in 0..30 {
        let (words, behind) = match block(rest, index as u32 + 1, masks[index]) {
            Ok(read) => read,
            Err(wrong) => return Err(wrong),
        };
        found[index] = words;
        rest = behind;
    }
    Ok((found, rest))
}

/// Writes the line of the words of a subaddress whose legal transmit counts are these, if any.
fn put_block(
    out: &mut Vec<u8>,
    subaddress: u32,
    counts: u32,
    words: &[u16; 32],
) -> Result<(), AllocError>
    requires place { subaddress < 100 }
    requires unsent { (i : ℕ) → i < 32 → largest_in counts ≤ i → get_or words.now i 0 ≡ 0 }
    ensures { OnOk result (Adds (block subaddress counts) words.now out.old.items out.new.items) }
{
    if counts == 0 {
        return Ok(());
    }
    put_words_line(out, INITIAL, subaddress, &words[..largest_count(counts)])
}

/// Writes the lines of the words of the subaddresses 1 to 30, whose legal transmit counts are these.
pub fn put_blocks(
    out: &mut Vec<u8>,
    masks: &[u32; 30],
    words: &[[u16; 32]; 30],
) -> Result<(), AllocError>
    requires { (s i : ℕ) → s < 30 → i < 32 → largest_in (get_or masks.now s 0) ≤ i → get_or (get_or words.now s []) i 0 ≡ 0 }
    ensures { OnOk result (Adds (blocks 1 masks.now) words.now out.old.items out.new.items) }
{
    for (index, counts) in masks.iter().enumerate() {
        put_block(out, index as u32 + 1, *counts, &words[index])?;
    }
    Ok(())
}
