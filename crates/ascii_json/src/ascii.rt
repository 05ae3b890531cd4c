//! JSON of nothing but printable characters of ASCII.
ghost use Rattle.std.specs.Prelude.{◌≡◌, ◌++◌, ◌<◌, IfOk, OnOk, true};
ghost use Rattle.std.specs.List.{flat_map, list_all};
ghost use Rattle.std.specs.String.{string_bytes};
ghost use Rattle.ascii_json.specs.Ascii.{ascii_char, digit_char, escaped_unit, is_printable, IsInAscii, IsPlainText};

use std::alloc::{AllocError, Global};

/// The hexadecimal digit of a number below 16.
fn digit_of(number: u16) -> char
    requires { number < 16 }
    ensures { result ≡ digit_char number }
{
    if number < 10 {
        char::from(b'0' + number as u8)
    } else {
        char::from(b'W' + number as u8)
    }
}

/// Writes a unit of UTF-16 as JSON escapes it.
fn push_unit(text: &mut String, unit: u16) -> Result<(), AllocError>
    ensures { OnOk result (string_bytes text.new ≡ string_bytes text.old ++ escaped_unit unit) }
{
    text.push_str("\\u")?;
    text.push(digit_of(unit / 4096 % 16))?;
    text.push(digit_of(unit / 256 % 16))?;
    text.push(digit_of(unit / 16 % 16))?;
    text.push(digit_of(unit % 16))
}

/// Writes units of UTF-16.
fn push_units(text: &mut String, units: &[u16]) -> Result<(), AllocError>
    ensures { OnOk result (string_bytes text.new ≡ string_bytes text.old ++ flat_map escaped_unit units.now) }
{
    for unit in units {
        push_unit(text, *unit)?;
    }
    Ok(())
}

/// Writes a character of JSON.
fn push_ascii_char(text: &mut String, c: char) -> Result<(), AllocError>
    ensures { OnOk result (string_bytes text.new ≡ string_bytes text.old ++ ascii_char c) }
{
    if ' ' <= c && c <= '~' {
        return text.push(c);
    }
    let mut units = [0, 0];
    push_units(text, c.encode_utf16(&mut units))
}

/// Gives the same JSON with each character escaped that is no printable one of ASCII. Outside of its texts compact JSON has no such
/// character, so it means the same; and nothing of it commands a terminal or turns the direction of writing.
pub fn in_ascii(alloc: Global, json: &str) -> Result<String, AllocError>
    ensures escapes { IfOk result (λ text. IsInAscii json.now (string_bytes text)) }
    ensures plain { IfOk result (λ text. IsPlainText (string_bytes text)) }
{
    let mut text = String::new(alloc);
    for c in json.chars() {
        push_ascii_char(&mut text, c)?;
    }
    Ok(text)
}
