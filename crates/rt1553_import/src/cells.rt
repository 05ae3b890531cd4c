//! What the texts of cells say: values of the profile, and words.
ghost use Rattle.std.specs.Prelude.{◌≡◌, ◌≤◌, ◌==◌, IfOk, map, option_map};
ghost use Rattle.std.specs.List.{slice_split};
ghost use Rattle.toml.specs.View.{view};
ghost use Rattle.rt1553_import.specs.Cells.{is_numeral, number_in, cell_number, cell_truth, cell_word, cell_words, cell_value};

use crate::alike::is_alike;
use std::alloc::{AllocError, Global};
use std::str;
use toml::Value;

/// Whether a text is digits of this radix, one or more, and nothing else.
fn is_numeral(radix: u32, text: &[u8]) -> bool
    requires low { 2 ≤ radix }
    requires high { radix ≤ 36 }
    ensures { result ≡ is_numeral radix text.now }
{
    for byte in text {
        if !char::from(*byte).is_digit(radix) {
            return false;
        }
    }
    !text.is_empty()
}

/// The number that digits of this radix write, or 2 ^ 32 - 1 for all above.
fn number_in(radix: u32, digits: &[u8]) -> Option<u32>
    requires low { 2 ≤ radix }
    requires high { radix ≤ 36 }
    ensures { result ≡ number_in radix digits.now }
{
    if !is_numeral(radix, digits) {
        return None;
    }
    let Ok(text) = str::from_utf8(digits) else {
        return None;
    };
    match u32::from_str_radix(text, radix) {
        Ok(number) => Some(number),
        Err(_) => Some(u32::MAX),
    }
}

/// The number in a text: decimal digits, or hexadecimal digits behind `0x`. One that is too large for the type is given as 2 ^ 32 - 1,
/// which no value of a profile reaches.
pub fn cell_number(text: &[u8]) -> Option<u32>
    ensures { result ≡ cell_number text.now }
{
    match text {
        [first, second, digits @ ..] if *first == b'0' && *second == b'x' => number_in(16, digits),
        _ => number_in(10, text),
    }
}

/// The truth value that a text names, in any capitals.
pub fn cell_truth(text: &str) -> Option<bool>
    ensures { result ≡ cell_truth text.now }
{
    if is_alike(text, "yes") || is_alike(text, "true") {
        Some(true)
    } else if is_alike(text, "no") || is_alike(text, "false") {
        Some(false)
    } else {
        None
    }
}

/// The word of a text: 1 to 4 hexadecimal digits.
fn cell_word(text: &[u8]) -> Option<u32>
    ensures { result ≡ cell_word text.now }
{
    if text.len() > 4 {
        return None;
    }
    number_in(16, text)
}

/// The parts of a text between spaces.
fn parts_of(alloc: Global, text: &str) -> Result<Vec<&str>, AllocError>
    ensures { IfOk result (λ parts. map (λ part. part.now) parts.items ≡ slice_split (λ b. b == 32) text.now) }
{
    text.split(' ').collect(alloc)
}

/// The words of a text, with spaces between them, if each is a word.
pub fn cell_words(alloc: Global, text: &str) -> Result<Option<Vec<u32>>, AllocError>
    ensures { IfOk result (λ found. option_map (λ words. words.items) found ≡ cell_words text.now) }
{
    let parts = parts_of(alloc, text)?;
    let mut words = Vec::new(alloc);
    for part in parts.as_slice() {
        if part.is_empty() {
            continue;
        }
        let Some(word) = cell_word(part.as_bytes()) else {
            return Ok(None);
        };
        words.push(word)?;
    }
    Ok(Some(words))
}

/// The value of a text: a number, a truth value, or else the text.
pub fn cell_value(alloc: Global, text: &str) -> Result<Value, AllocError>
    ensures { IfOk result (λ value. view value ≡ cell_value text.now) }
{
    if let Some(number) = cell_number(text.as_bytes()) {
        return Ok(Value::from(number));
    }
    match cell_truth(text) {
        Some(truth) => Ok(Value::from(truth)),
        None => Value::string(alloc, text),
    }
}
