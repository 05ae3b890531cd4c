//! Texts that come from outside, as they are printed.
ghost use Rattle.std.specs.Prelude.{◌≡◌, ◌++◌, IfOk, OnOk, string_bytes, encode_utf8_all};
ghost use Rattle.std.specs.List.{flat_map};
ghost use Rattle.std.specs.Char.{encode_utf8};
ghost use Rattle.std.specs.Char.Escape.{escape_ascii};
ghost use Rattle.rt1553_files.specs.Printable.{PrintsOnOneLine, printed, AddsShown, Shows};

use std::alloc::{AllocError, Global};

/// Adds a character that was escaped. One that would still end the line or command a terminal goes as a question mark: none is
/// left, and this makes it certain.
pub fn push_printable(text: &mut String, c: char) -> Result<(), AllocError>
    ensures writes { OnOk result (string_bytes text.new ≡ string_bytes text.old ++ encode_utf8 (printed c)) }
    ensures one_line { OnOk result (PrintsOnOneLine (string_bytes text.old) → PrintsOnOneLine (string_bytes text.new)) }
{
    if c < ' ' || c == '\u{7f}' {
        return text.push('?');
    }
    text.push(c)
}

/// Adds a text with its characters escaped as `str::escape_debug` has it.
fn push_text(text: &mut String, part: &str) -> Result<(), AllocError>
    ensures { OnOk result (AddsShown part.now (string_bytes text.old) (string_bytes text.new)) }
{
    for c in part.escape_debug() {
        text.push(c)?;
    }
    Ok(())
}

/// Adds bytes that are no UTF-8, as `\x` with two hexadecimal digits.
fn push_bytes(text: &mut String, bytes: &[u8]) -> Result<(), AllocError>
    ensures { OnOk result (string_bytes text.new ≡ string_bytes text.old ++ encode_utf8_all (flat_map escape_ascii bytes.now)) }
{
    for byte in bytes.escape_ascii() {
        text.push(char::from(byte))?;
    }
    Ok(())
}

/// Gives a text that comes from outside as it is printed: on one line, with control characters, characters that have no
/// shape or turn the direction of writing, quotes and backslashes escaped as `str::escape_debug` has it, and bytes that are
/// no UTF-8 as `\x` with two hexadecimal digits. So nothing of it commands the terminal on which it is shown.
pub fn escaped(alloc: Global, bytes: &[u8]) -> Result<String, AllocError>
    ensures shows { IfOk result (λ text. Shows bytes.now (string_bytes text)) }
    ensures one_line { IfOk result (λ text. PrintsOnOneLine (string_bytes text)) }
{
    let mut text = String::new(alloc);
    for chunk in bytes.utf8_chunks() {
        push_text(&mut text, chunk.valid())?;
        push_bytes(&mut text, chunk.invalid())?;
    }
    Ok(text)
}
