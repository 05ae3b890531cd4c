//! Readers of what stands at the front of a text.
ghost use Rattle.std.specs.Prelude.{ℕ, Bool, IfOk, ◌≡◌, ◌*◌, ◌+◌, ◌<◌, ◌≤◌, ◌^◌, length, IfSome, MatchOption, option_map, [], ◌∷◌, true, replicate};
ghost use Rattle.line_format.specs.Front.{after};
ghost use Rattle.line_format.specs.Reading.{digit_at, digit_value, number_at, field_at, fields_at, content_at, read};
ghost use Rattle.line_format.specs.Shapes.{number_line, bit_line, numbered_line, words_line, decimal, word, mask, number_field};
ghost use Rattle.line_format.specs.Kinds.{field_of, limit};
ghost use Rattle.line_format.specs.Views.{Gives, IsTest, spot};

use crate::field_kind::FieldKind;
use crate::lines::{Lines, WrongLine};
use crate::numbers::number_of;

/// What comes after this text, where it stands first.
pub fn after<'a>(bytes: &'a [u8], text: &[u8]) -> Option<&'a [u8]>
    ensures value { option_map (λ r. r.now) result ≡ after text.now bytes.now }
    ensures shorter { IfSome result (λ r. length r.now + length text.now ≤ length bytes.now) }
{
    bytes.strip_prefix(text)
}

/// The number of this kind behind a space at the front, and what comes after it.
pub fn field(bytes: &[u8], kind: FieldKind) -> Option<(u32, &[u8])>
    ensures value { option_map (λ r. (r.0, r.1.now)) result ≡ field_at (field_of kind).base (field_of kind).width bytes.now }
    ensures shorter { IfSome result (λ r. length r.1.now < length bytes.now) }
    ensures small { IfSome result (λ r. r.0 < limit (field_of kind)) }
{
    number_of(after(bytes, b" ")?, kind)
}

/// What comes after a line with this name and one number, which it gives.
#[tactic(auto, unfolding(crate::specs::Reading::content_at))]
pub fn number_line_of<'a>(bytes: &'a [u8], name: &[u8], kind: FieldKind) -> Option<(u32, &'a [u8])>
    ensures value { option_map (λ r. (r.0 ∷ [], r.1.now)) result ≡ content_at name.now (field_of kind ∷ []) bytes.now }
    ensures shorter { IfSome result (λ r. length r.1.now < length bytes.now) }
    ensures small { IfSome result (λ r. r.0 < limit (field_of kind)) }
{
    let rest = after(bytes, name)?;
    let (number, rest) = field(rest, kind)?;
    let rest = after(rest, b"\n")?;
    Some((number, rest))
}

/// What comes after a line with this name, a number of two decimal digits and a mask of eight
/// hexadecimal ones, which it gives.
#[tactic(auto, unfolding(crate::specs::Reading::content_at))]
pub fn numbered_line_of<'a>(bytes: &'a [u8], name: &[u8]) -> Option<(u32, u32, &'a [u8])>
    ensures value { option_map (λ r. (r.0 ∷ r.1 ∷ [], r.2.now)) result ≡ content_at name.now (decimal ∷ mask ∷ []) bytes.now }
    ensures shorter { IfSome result (λ r. length r.2.now < length bytes.now) }
{
    let rest = after(bytes, name)?;
    let (number, rest) = field(rest, FieldKind::Decimal)?;
    let (mask, rest) = field(rest, FieldKind::Mask)?;
    let rest = after(rest, b"\n")?;
    Some((number, mask, rest))
}

/// Reads a line with one number that passes this test.
pub fn number_line<'a, F: Fn(u32) -> bool>(
    lines: Lines<'a>,
    name: &[u8],
    kind: FieldKind,
    is_allowed: F,
) -> Result<(u32, Lines<'a>), WrongLine>
    requires { F.IsAlwaysCallable is_allowed }
    ensures answer { (allowed : ℕ → Bool) → IsTest (limit (field_of kind)) (F.post is_allowed) allowed → Gives (λ r. r.0) (λ r. r.1) result (read (number_line name.now (field_of kind) allowed) (spot lines.entry)) }
    ensures passed { IfOk result (λ r. F.post is_allowed r.0 true) }
    ensures small { IfOk result (λ r. r.0 < limit (field_of kind)) }
{
    let Some((number, rest)) = number_line_of(lines.rest, name, kind) else {
        return Err(lines.wrong());
    };
    if !is_allowed(number) {
        return Err(lines.wrong());
    }
    Ok((number, lines.behind(rest)))
}

/// Reads a line with a 0 or a 1.
pub fn bit_line<'a>(lines: Lines<'a>, name: &[u8]) -> Result<(bool, Lines<'a>), WrongLine>
    ensures { Gives (λ r. r.0) (λ r. r.1) result (read (bit_line name.now) (spot lines.entry)) }
{
    let Some((number, rest)) = number_line_of(lines.rest, name, FieldKind::Bit) else {
        return Err(lines.wrong());
    };
    Ok((number == 1, lines.behind(rest)))
}

/// Reads a line with a word of four hexadecimal digits.
pub fn word_line<'a>(lines: Lines<'a>, name: &[u8]) -> Result<(u16, Lines<'a>), WrongLine>
    ensures { Gives (λ r. r.0) (λ r. r.1) result (read (number_line name.now word (λ _. true)) (spot lines.entry)) }
{
    let Some((number, rest)) = number_line_of(lines.rest, name, FieldKind::Word) else {
        return Err(lines.wrong());
    };
    Ok((number as u16, lines.behind(rest)))
}

/// Reads a line with this number, of two decimal digits, and a mask.
pub fn numbered_line<'a>(
    lines: Lines<'a>,
    name: &[u8],
    wanted: u32,
) -> Result<(u32, Lines<'a>), WrongLine>
    ensures { Gives (λ r. r.0) (λ r. r.1) result (read (numbered_line name.now wanted) (spot lines.entry)) }
{
    let Some((number, bits, rest)) = numbered_line_of(lines.rest, name) else {
        return Err(lines.wrong());
    };
    if number != wanted {
        return Err(lines.wrong());
    }
    Ok((bits, lines.behind(rest)))
}

/// Reads as many words as there is room for, each behind a space.
fn words<'a>(bytes: &'a [u8], to: &mut [u16]) -> Option<&'a [u8]>
    ensures value { MatchOption result (fields_at (replicate (length to.old) word) bytes.entry.now ≡ None) (λ r. fields_at (replicate (length to.old) word) bytes.entry.now ≡ Some (to.new, r.now)) }
    ensures shorter { IfSome result (λ r. length r.now ≤ length bytes.entry.now) }
{
    let mut rest = bytes;
    for index in 0..to.len() {
        let Some((word, others)) = field(rest, FieldKind::Word) else {
            return None;
        };
        to[index] = word as u16;
        rest = others;
    }
    Some(rest)
}

/// What comes after a line with this name, a number of two decimal digits, which it gives, and as many
/// words as there is room for.
#[tactic(auto, unfolding(crate::specs::Reading::content_at))]
fn words_line_of<'a>(bytes: &'a [u8], name: &[u8], to: &mut [u16]) -> Option<(u32, &'a [u8])>
    ensures value { MatchOption result (content_at name.now (decimal ∷ replicate (length to.old) word) bytes.entry.now ≡ None) (λ r. content_at name.now (decimal ∷ replicate (length to.old) word) bytes.entry.now ≡ Some (r.0 ∷ to.new, r.1.now)) }
    ensures shorter { IfSome result (λ r. length r.1.now < length bytes.entry.now) }
{
    let rest = after(bytes, name)?;
    let (number, rest) = field(rest, FieldKind::Decimal)?;
    let rest = words(rest, to)?;
    let rest = after(rest, b"\n")?;
    Some((number, rest))
}

/// Reads a line with this number, of two decimal digits, and as many words as there is room for.
pub fn words_line<'a>(
    lines: Lines<'a>,
    name: &[u8],
    wanted: u32,
    to: &mut [u16],
) -> Result<Lines<'a>, WrongLine>
    ensures { Gives (λ _. to.new) (λ r. r) result (read (words_line name.now wanted (length to.old)) (spot lines.entry)) }
{
    let Some((number, rest)) = words_line_of(lines.rest, name, to) else {
        return Err(lines.wrong());
    };
    if number != wanted {
        return Err(lines.wrong());
    }
    Ok(lines.behind(rest))
}
