//! Writers of lines.
ghost use Rattle.std.specs.Prelude.{◌≡◌, ◌+◌, ◌-◌, ◌*◌, ◌/◌, ◌%◌, ◌<◌, ◌≤◌, ◌^◌, ℕ, length, OnOk, [], ◌∷◌, ◌++◌, true, replicate, if◌then◌else◌};
ghost use Rattle.line_format.specs.Format.{digit, digits, spell_fields};
ghost use Rattle.line_format.specs.Shapes.{bit_line, words_line, decimal, word, mask, number_field};
ghost use Rattle.line_format.specs.Kinds.{field_of, limit};
ghost use Rattle.line_format.specs.Writing.{Adds};

use crate::field_kind::FieldKind;
use crate::numbers::put_number;
use std::alloc::AllocError;

/// Writes a line with this name and one number.
pub fn put_number_line(
    out: &mut Vec<u8>,
    name: &[u8],
    kind: FieldKind,
    number: u32,
) -> Result<(), AllocError>
    requires { number < limit (field_of kind) }
    ensures { OnOk result (out.new.items ≡ out.old.items ++ (name.now ++ (spell_fields (field_of kind ∷ []) (number ∷ []) ++ 10 ∷ []))) }
{
    out.extend_from_slice(name)?;
    out.push(b' ')?;
    put_number(out, kind, number)?;
    out.push(b'\n')?;
    Ok(())
}

/// Writes a line with this name, a number of two decimal digits and a mask of eight hexadecimal ones.
pub fn put_numbered_line(
    out: &mut Vec<u8>,
    name: &[u8],
    number: u32,
    bits: u32,
) -> Result<(), AllocError>
    requires { number < 100 }
    ensures { OnOk result (out.new.items ≡ out.old.items ++ (name.now ++ (spell_fields (decimal ∷ mask ∷ []) (number ∷ bits ∷ []) ++ 10 ∷ []))) }
{
    out.extend_from_slice(name)?;
    out.push(b' ')?;
    put_number(out, FieldKind::Decimal, number)?;
    out.push(b' ')?;
    put_number(out, FieldKind::Mask, bits)?;
    out.push(b'\n')?;
    Ok(())
}

fn bit_number(bit: bool) -> u32
    ensures { result ≡ (if bit then 1 else 0) }
{
    if bit { 1 } else { 0 }
}

/// Writes a line with a 0 or a 1.
pub fn put_bit_line(out: &mut Vec<u8>, name: &[u8], bit: bool) -> Result<(), AllocError>
    ensures { OnOk result (Adds (bit_line name.now) bit out.old.items out.new.items) }
{
    put_number_line(out, name, FieldKind::Bit, bit_number(bit))
}

/// Writes words, each behind a space.
fn put_words(out: &mut Vec<u8>, words: &[u16]) -> Result<(), AllocError>
    ensures { OnOk result (out.new.items ≡ out.old.items ++ spell_fields (replicate (length words.now) word) words.now) }
{
    for word in words {
        out.push(b' ')?;
        put_number(out, FieldKind::Word, u32::from(*word))?;
    }
    Ok(())
}

/// Writes a line with this name, a number of two decimal digits and these words.
pub fn put_words_line(
    out: &mut Vec<u8>,
    name: &[u8],
    number: u32,
    words: &[u16],
) -> Result<(), AllocError>
    requires { number < 100 }
    ensures { OnOk result (Adds (words_line name.now number (length words.now)) words.now out.old.items out.new.items) }
{
    out.extend_from_slice(name)?;
    out.push(b' ')?;
    put_number(out, FieldKind::Decimal, number)?;
    put_words(out, words)?;
    out.push(b'\n')?;
    Ok(())
}
