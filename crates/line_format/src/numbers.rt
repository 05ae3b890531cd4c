//! Digits at the front of a text, and at the end of one that is written.
ghost use Rattle.std.specs.Prelude.{◌≡◌, ◌+◌, ◌*◌, ◌/◌, ◌%◌, ◌<◌, ◌≤◌, ◌++◌, [], ◌∷◌, length, IfSome, MatchOption, OnOk, option_map};
ghost use Rattle.std.specs.List.{list_any};
ghost use Rattle.std.specs.Char.{is_ascii_uppercase};
ghost use Rattle.line_format.specs.Format.{digit, digits};
ghost use Rattle.line_format.specs.Kinds.{field_of, limit};
ghost use Rattle.line_format.specs.inner.Fields.{number_from};
ghost use Rattle.line_format.specs.Reading.{digit_at, number_at};

use crate::field_kind::FieldKind;
use std::alloc::AllocError;

/// Gives the digit at the front, of a base of at most ten, and what comes after it.
fn digit(bytes: &[u8], base: u8) -> Option<(u32, &[u8])>
    requires { base ≤ 10 }
    ensures value { option_map (λ r. (r.0, r.1.now)) result ≡ digit_at base bytes.now }
    ensures digit { IfSome result (λ r. r.0 < base) }
    ensures shorter { IfSome result (λ r. length r.1.now ≤ length bytes.now) }
{
    let [byte, rest @ ..] = bytes else {
        return None;
    };
    if byte.is_ascii_digit() && *byte - b'0' < base {
        Some((u32::from(*byte - b'0'), rest))
    } else {
        None
    }
}

/// Gives the number of two decimal digits at the front, and what comes after it.
fn decimal(bytes: &[u8]) -> Option<(u32, &[u8])>
    ensures value { option_map (λ r. (r.0, r.1.now)) result ≡ number_at 10 2 0 bytes.now }
    ensures small { IfSome result (λ r. r.0 < 100) }
    ensures shorter { IfSome result (λ r. length r.1.now ≤ length bytes.now) }
{
    let (tens, rest) = digit(bytes, 10)?;
    let (ones, rest) = digit(rest, 10)?;
    Some((tens * 10 + ones, rest))
}

/// Says whether a capital letter is among these.
fn has_capital(bytes: &[u8]) -> bool
    ensures { result ≡ list_any is_ascii_uppercase bytes.now }
{
    bytes.iter().any(|byte| byte.is_ascii_uppercase())
}

/// Reads as many bytes as there is room for, each of two hexadecimal digits, and gives what comes after them.
fn hexadecimal<'a>(bytes: &'a [u8], to: &mut [u8]) -> Option<&'a [u8]>
    requires { length to.old ≤ 4 }
    ensures value { MatchOption result (number_at 16 (2 * length to.old) 0 bytes.entry.now ≡ None) (λ r. number_at 16 (2 * length to.old) 0 bytes.entry.now ≡ Some (number_from 0 to.new, r.now)) }
    ensures shorter { IfSome result (λ r. length r.now ≤ length bytes.entry.now) }
{
    let width = 2 * to.len();
    if bytes.len() < width {
        return None;
    }
    let (digits, rest) = bytes.split_at(width);
    if has_capital(digits) {
        return None;
    }
    match hex::decode_to_slice(digits, to) {
        Ok(()) => Some(rest),
        Err(_) => None,
    }
}

/// Gives the number of four hexadecimal digits at the front, and what comes after it.
fn word(bytes: &[u8]) -> Option<(u32, &[u8])>
    ensures value { option_map (λ r. (r.0, r.1.now)) result ≡ number_at 16 4 0 bytes.now }
    ensures small { IfSome result (λ r. r.0 < 65536) }
    ensures shorter { IfSome result (λ r. length r.1.now ≤ length bytes.now) }
{
    let mut word = [0; 2];
    let rest = hexadecimal(bytes, &mut word)?;
    Some((u32::from(u16::from_be_bytes(word)), rest))
}

/// Gives the number of eight hexadecimal digits at the front, and what comes after it.
fn mask(bytes: &[u8]) -> Option<(u32, &[u8])>
    ensures value { option_map (λ r. (r.0, r.1.now)) result ≡ number_at 16 8 0 bytes.now }
    ensures shorter { IfSome result (λ r. length r.1.now ≤ length bytes.now) }
{
    let mut mask = [0; 4];
    let rest = hexadecimal(bytes, &mut mask)?;
    Some((u32::from_be_bytes(mask), rest))
}

/// The number of this kind at the front, and what comes after it.
pub fn number_of(bytes: &[u8], kind: FieldKind) -> Option<(u32, &[u8])>
    ensures value { option_map (λ r. (r.0, r.1.now)) result ≡ number_at (field_of kind).base (field_of kind).width 0 bytes.now }
    ensures shorter { IfSome result (λ r. length r.1.now ≤ length bytes.now) }
    ensures small { IfSome result (λ r. r.0 < limit (field_of kind)) }
{
    match kind {
        FieldKind::Bit => digit(bytes, 2),
        FieldKind::Digit => digit(bytes, 10),
        FieldKind::Decimal => decimal(bytes),
        FieldKind::Word => word(bytes),
        FieldKind::Mask => mask(bytes),
    }
}

/// Writes a decimal digit.
fn put_digit(out: &mut Vec<u8>, number: u8) -> Result<(), AllocError>
    requires { number < 10 }
    ensures { OnOk result (out.new.items ≡ out.old.items ++ digit number ∷ []) }
{
    out.push(b'0' + number)?;
    Ok(())
}

/// Writes a number below 100 in two decimal digits.
fn put_decimal(out: &mut Vec<u8>, number: u8) -> Result<(), AllocError>
    requires { number < 100 }
    ensures { OnOk result (out.new.items ≡ out.old.items ++ digits 10 2 number) }
{
    put_digit(out, number / 10)?;
    put_digit(out, number % 10)
}

/// Gives the four hexadecimal digits of a word.
fn word_digits(word: u16) -> [u8; 4]
    ensures { result ≡ digits 16 4 word }
{
    let mut digits = [0; 4];
    let _ = hex::encode_to_slice(word.to_be_bytes(), &mut digits);
    digits
}

/// Gives the eight hexadecimal digits of a mask.
fn mask_digits(mask: u32) -> [u8; 8]
    ensures { result ≡ digits 16 8 mask }
{
    let mut digits = [0; 8];
    let _ = hex::encode_to_slice(mask.to_be_bytes(), &mut digits);
    digits
}

/// Writes a number of this kind, with small letters.
pub fn put_number(out: &mut Vec<u8>, kind: FieldKind, number: u32) -> Result<(), AllocError>
    requires { number < limit (field_of kind) }
    ensures { OnOk result (out.new.items ≡ out.old.items ++ digits (field_of kind).base (field_of kind).width number) }
{
    match kind {
        FieldKind::Bit => put_digit(out, number as u8),
        FieldKind::Digit => put_digit(out, number as u8),
        FieldKind::Decimal => put_decimal(out, number as u8),
        FieldKind::Word => out.extend_from_slice(&word_digits(number as u16)),
        FieldKind::Mask => out.extend_from_slice(&mask_digits(number)),
    }
}
