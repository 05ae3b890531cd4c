//! The statements of a text, read one after another.
ghost use Rattle.std.specs.Prelude.{◌≡◌, ◌≤◌, ◌<◌, All, IsSome, IfOk, IfErr, length, map};
ghost use Rattle.toml_parser.specs.Reading.{key_view};
ghost use Rattle.toml.specs.Parse as spec;
ghost use Rattle.toml_places.specs.Found.{seen, statement_view};
ghost use Rattle.toml_places.specs.inner.Steps.{Takes, heading, heading_view};
ghost use Rattle.toml_places.specs.Parsed as listed;

use crate::fault::StatementsFault;
use crate::skipping::{key_before, key_equals, skip_value};
use crate::statement::{Statement, StatementKind};
use std::alloc::Global;
use toml_parser::text::{byte_at, first, skip, skip_blank, skip_ws};
use toml_parser::{Key, RECURSION_LIMIT};

/// The statements of a TOML document, in order, each with its place, its key and its kind.
///
/// Values are skipped, and none is built. A document gives its statements, or `StatementsFault::Memory`. Of a text that is no
/// document, as one that gives a key twice, the statements may be returned, or `StatementsFault::NotToml`: read it by
/// `toml::from_str` first.
pub fn statements_of(alloc: Global, text: &str) -> Result<Vec<Statement>, StatementsFault>
    ensures found { IsSome (spec.parse_document text.now) → IfOk result (λ found. map statement_view found.items ≡ map (seen (length text.now)) (listed.statements_of text.now)) }
    ensures memory { IsSome (spec.parse_document text.now) → IfErr result (λ fault. fault ≡ StatementsFault.Memory) }
    ensures within { IfOk result (λ found. All (λ s. s.at ≤ length text.now) found.items) }
{
    let mut found = Vec::new(alloc);
    let mut rest = skip_bom(text);
    'statements: loop {
        let start = skip_blank(rest, true);
        if start.is_empty() {
            return Ok(found);
        }
        let ((key, kind), after) = statement(alloc, start)?;
        let at = text.len() - start.len();
        found.push(Statement { at, key, kind })?;
        rest = after;
    }
}

/// The text without a byte order mark.
#[tactic(auto, unfolding(toml::specs::Parse::skip_bom))]
fn skip_bom(text: &str) -> &str
    ensures rest { result.now ≡ spec.skip_bom text.now }
    ensures within { length result.now ≤ length text.now }
{
    match text.as_bytes() {
        [0xEF, 0xBB, 0xBF, ..] => &text[3..],
        _ => text,
    }
}

/// The key and the kind of the statement at the front of `s`, and the text after it; `StatementsFault::NotToml` where there is none.
fn statement(alloc: Global, s: &str) -> Result<((Key, StatementKind), &str), StatementsFault>
    ensures value { Takes heading_view result (spec.read_map heading (spec.line s.now)) }
    ensures shorter { IfOk result (λ p. length p.1.now < length s.now) }
{
    if first(s) != b'[' {
        let (key, at_value) = key_equals(alloc, s)?;
        let rest = skip_value(alloc, at_value, RECURSION_LIMIT)?;
        Ok(((key, StatementKind::Pair), rest))
    } else if byte_at(s, 1) != b'[' {
        let (key, rest) = header_key(alloc, skip(s, 1))?;
        Ok(((key, StatementKind::Table), rest))
    } else {
        let (key, rest) = header_key(alloc, skip(s, 2))?;
        if first(rest) != b']' {
            return Err(StatementsFault::NotToml);
        }
        Ok(((key, StatementKind::Entry), skip(rest, 1)))
    }
}

/// The key of a header, and the text after its first closing bracket.
fn header_key(alloc: Global, s: &str) -> Result<(Key, &str), StatementsFault>
    ensures value { Takes key_view result (spec.header_key s.now) }
    ensures shorter { IfOk result (λ p. length p.1.now < length s.now) }
{
    key_before(alloc, skip_ws(s), b']')
}
