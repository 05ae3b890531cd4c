//! Keys are read, and values skipped: nothing is built of a value.
ghost use Rattle.std.specs.Prelude.{ℕ, ◌<◌, ◌≤◌, length, IfOk};
ghost use Rattle.toml_parser.specs.Reading.{key_view};
ghost use Rattle.toml.specs.Data.{Items};
ghost use Rattle.toml.specs.Tables.{Nodes};
ghost use Rattle.toml.specs.Parse as spec;
ghost use Rattle.toml_places.specs.inner.Steps.{Takes, Skips, GoesOn};
ghost use Rattle.toml_places.specs.inner.Steps as steps;

use crate::fault::StatementsFault;
use std::alloc::Global;
use toml_parser::text::{first, skip, skip_blank, skip_ws};
use toml_parser::{Key, dotted_key, quoted, starts_string, unquoted};

/// The text after the value at the front of `s`, whose arrays and inline tables are at most `depth` deep.
///
/// `StatementsFault::NotToml` where there is no such value.
#[cycle(value)]
pub(crate) fn skip_value(alloc: Global, s: &str, depth: usize) -> Result<&str, StatementsFault>
    ensures value { Skips result (spec.val depth s.now) }
    ensures shorter { IfOk result (λ rest. length rest.now < length s.now) }
{
    let byte = first(s);
    if byte != b'[' && byte != b'{' {
        return skip_atom(alloc, s);
    }
    if depth == 0 {
        return Err(StatementsFault::NotToml);
    }
    if byte == b'[' {
        skip_items(alloc, skip(s, 1), depth - 1)
    } else {
        skip_members(alloc, skip(s, 1), depth - 1)
    }
}

/// The text after the string or the scalar at the front of `s`; `StatementsFault::NotToml` where there is none.
fn skip_atom(alloc: Global, s: &str) -> Result<&str, StatementsFault>
    ensures value { Skips result (spec.atom s.now) }
    ensures shorter { IfOk result (λ rest. length rest.now < length s.now) }
{
    if starts_string(s) {
        let (_text, rest) = quoted(alloc, s)?;
        Ok(rest)
    } else {
        let (_scalar, rest) = unquoted(alloc, s)?;
        Ok(rest)
    }
}

/// The text after the rest of an array, `s`, whose elements are at most `depth` deep.
#[cycle(value)]
fn skip_items(alloc: Global, s: &str, depth: usize) -> Result<&str, StatementsFault>
    ensures value { (n : ℕ) (found : Items) → Skips result (spec.items (spec.val depth) n found s.now) }
    ensures shorter { IfOk result (λ rest. length rest.now < length s.now) }
{
    let mut rest = s;
    'items: loop {
        let start = skip_blank(rest, true);
        if first(start) == b']' {
            return Ok(skip(start, 1));
        }
        let after = skip_value(alloc, start, depth)?;
        rest = after_element(after, b']')?;
    }
}

/// The text after the rest of an inline table, `s`, whose values are at most `depth` deep.
#[cycle(value)]
fn skip_members(alloc: Global, s: &str, depth: usize) -> Result<&str, StatementsFault>
    ensures value { (n : ℕ) (found : Nodes) → Skips result (spec.members (spec.val depth) n found s.now) }
    ensures shorter { IfOk result (λ rest. length rest.now < length s.now) }
{
    let mut rest = s;
    'members: loop {
        let start = skip_blank(rest, true);
        if first(start) == b'}' {
            return Ok(skip(start, 1));
        }
        let (_key, at_value) = key_equals(alloc, start)?;
        let after = skip_value(alloc, at_value, depth)?;
        rest = after_element(after, b'}')?;
    }
}

/// The text after the comma that follows an element, or at the bracket `closing`; `StatementsFault::NotToml` at anything else.
#[tactic(auto, unfolding(toml::specs::Parse::after_element))]
fn after_element(s: &str, closing: u8) -> Result<&str, StatementsFault>
    ensures value { GoesOn result (spec.after_element closing s.now) }
    ensures within { IfOk result (λ rest. length rest.now ≤ length s.now) }
{
    let rest = skip_blank(s, true);
    if first(rest) == b',' {
        Ok(skip(rest, 1))
    } else if first(rest) == closing {
        Ok(rest)
    } else {
        Err(StatementsFault::NotToml)
    }
}

/// The key at the front of `s`, and the text after its `=` and the white space there.
pub(crate) fn key_equals(alloc: Global, s: &str) -> Result<(Key, &str), StatementsFault>
    ensures value { Takes key_view result (spec.key_equals s.now) }
    ensures shorter { IfOk result (λ p. length p.1.now < length s.now) }
{
    let (key, rest) = key_before(alloc, s, b'=')?;
    Ok((key, skip_ws(rest)))
}

/// The key at the front of `s`, and the text after the `byte` that stands behind it, an ASCII character.
///
/// `StatementsFault::NotToml` where no key stands there, or another byte behind it.
pub(crate) fn key_before(alloc: Global, s: &str, byte: u8) -> Result<(Key, &str), StatementsFault>
    requires some { 0 < byte }
    requires ascii { byte < 128 }
    ensures value { Takes key_view result (steps.key_before byte s.now) }
    ensures shorter { IfOk result (λ p. length p.1.now < length s.now) }
{
    let (key, behind) = dotted_key(alloc, s)?;
    if first(behind) == byte {
        Ok((key, skip(behind, 1)))
    } else {
        Err(StatementsFault::NotToml)
    }
}
