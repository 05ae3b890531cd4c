//! Words as texts of their own.
ghost use Rattle.std.specs.Prelude.{◌≡◌, IfOk, map, string_bytes};
ghost use Rattle.script_lines.specs.Digits.{digits_of};

use std::alloc::{AllocError, Global};

/// The four hexadecimal digits of a word, small.
pub fn word_string(alloc: Global, word: u16) -> Result<String, AllocError>
    ensures { IfOk result (λ text. string_bytes text ≡ digits_of word) }
{
    hex::encode(alloc, word.to_be_bytes())
}

/// The digits of each word.
pub fn word_strings(alloc: Global, words: &[u16]) -> Result<Vec<String>, AllocError>
    ensures { IfOk result (λ texts. map string_bytes texts.items ≡ map digits_of words.now) }
{
    let mut list = Vec::new(alloc);
    for word in words {
        list.push(word_string(alloc, *word)?)?;
    }
    Ok(list)
}
