//! The text of a TOML profile.
use crate::groups::{RuleGroup, broadcast_groups, held_len, named_wrap, own_codes, own_groups};
use bus_legal::{Normal, Numbers};
use bus_word::mode_name;
use std::alloc::{AllocError, Global};
use std::fmt;

/// One rule of a profile.
#[derive(Clone, Copy)]
struct RuleText(RuleGroup);

impl fmt::Display for RuleText {
    fn fmt<W: fmt::Write>(&self, f: &mut fmt::Formatter<W>) -> fmt::Result {
        let subaddresses = Numbers {
            bits: self.0.subaddresses,
            first: 1,
        };
        let counts = Numbers {
            bits: self.0.counts,
            first: 1,
        };
        write!(f, "\n[[rule]]\n")?;
        if self.0.to != "own" {
            writeln!(f, "to = \"{}\"", self.0.to)?;
        }
        writeln!(f, "direction = \"{}\"", self.0.direction)?;
        writeln!(f, "subaddresses = \"{subaddresses}\"")?;
        if self.0.counts != u32::MAX {
            writeln!(f, "counts = \"{counts}\"")?;
        }
        Ok(())
    }
}

/// Writes rules.
fn push_rules(text: &mut String, groups: &[RuleGroup]) -> Result<(), AllocError> {
    for group in groups {
        write!(text, "{}", RuleText(*group))?;
    }
    Ok(())
}

/// Writes the mode codes that are legal, with their names in comments.
fn push_codes(text: &mut String, to: &'static str, codes: u32) -> Result<(), AllocError> {
    if codes == 0 {
        return Ok(());
    }
    writeln!(text, "\n[[mode]]")?;
    for code in 0..32u8 {
        if (codes >> code) & 1 == 1 {
            writeln!(text, "# {code}: {}", mode_name(code))?;
        }
    }
    if to != "own" {
        writeln!(text, "to = \"{to}\"")?;
    }
    let codes = Numbers {
        bits: codes,
        first: 0,
    };
    writeln!(text, "codes = \"{codes}\"")
}

/// Writes the words that are held for a subaddress, up to the last that is not 0.
fn push_words(text: &mut String, subaddress: usize, row: &[u16; 32]) -> Result<(), AllocError> {
    let len = held_len(row);
    if len == 0 {
        return Ok(());
    }
    writeln!(text, "\n[[initial]]")?;
    writeln!(text, "subaddress = {subaddress}")?;
    write!(text, "words = [")?;
    for (index, word) in row.iter().enumerate() {
        if index < len {
            if 0 < index {
                write!(text, ", ")?;
            }
            write!(text, "0x{word:04x}")?;
        }
    }
    writeln!(text, "]")
}

/// Writes the wraparound subaddress, where it isn't the one that a profile has by default.
fn push_wrap(text: &mut String, normal: &Normal) -> Result<(), AllocError> {
    match named_wrap(normal) {
        None => Ok(()),
        Some(0) => writeln!(text, "wraparound = false"),
        Some(subaddress) => writeln!(text, "wraparound = {subaddress}"),
    }
}

/// Writes a word under a key, where it isn't 0.
fn push_word(text: &mut String, key: &'static str, word: u16) -> Result<(), AllocError> {
    if word == 0 {
        return Ok(());
    }
    writeln!(text, "{key} = 0x{word:04x}")
}

/// Writes the keys with one value, each where its value isn't the one of a profile that leaves it out.
fn push_settings(text: &mut String, normal: &Normal) -> Result<(), AllocError> {
    writeln!(text, "address = {}", normal.address())?;
    if normal.broadcast() {
        writeln!(text, "broadcast = true")?;
    }
    push_wrap(text, normal)?;
    if normal.accept() {
        writeln!(text, "accept_bus_control = true")?;
    }
    push_word(text, "vector", normal.vector())?;
    push_word(text, "bit", normal.bit())
}

/// Writes the text. That it means just this terminal isn't said here.
pub fn write_profile(alloc: Global, normal: &Normal) -> Result<String, AllocError> {
    let mut text = String::new(alloc);
    let tables = normal.tables();
    push_settings(&mut text, normal)?;
    let own = own_groups(alloc, &tables.own_receive, &tables.own_transmit)?;
    push_rules(&mut text, own.as_slice())?;
    let broadcast = broadcast_groups(alloc, &tables.broadcast_receive)?;
    push_rules(&mut text, broadcast.as_slice())?;
    push_codes(&mut text, "own", own_codes(tables))?;
    push_codes(&mut text, "broadcast", tables.broadcast_mode)?;
    for (index, row) in normal.initial().iter().enumerate() {
        push_words(&mut text, index + 1, row)?;
    }
    Ok(text)
}
