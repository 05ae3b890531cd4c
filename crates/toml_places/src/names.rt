//! The whole names of statements.
ghost use Rattle.std.specs.Prelude.{◌≡◌, option_copied};
ghost use Rattle.std.specs.List.{slice_get};
ghost use Rattle.toml_parser.specs.Reading.{key_view};
ghost use Rattle.toml_places.specs.Parsed.{parts};
ghost use Rattle.toml_places.specs.Search.{part_is, begins_key, begins_both, is_alone, gives_whole, adds_entry};
ghost use Rattle.toml_places.specs.Statements.{section_view, name_in, named_statement, section_behind};

use crate::{Statement, StatementKind};
use toml_parser::Key;

/// The part of a key at an index, where it has one.
fn part(key: &Key, index: usize) -> Option<&str>
    ensures { option_copied result ≡ slice_get (parts (key_view key.now)) index }
{
    if index == key.path.len() {
        return Some(key.last.as_str());
    }
    match key.path.as_slice().get(index) {
        Some(part) => Some(part.as_str()),
        None => None,
    }
}

/// The part at an index of the whole name of a statement after a header, where it has one.
pub fn name_part<'a>(
    section: Option<&'a Key>,
    statement: &'a Statement,
    index: usize,
) -> Option<&'a str>
    ensures { option_copied result ≡ slice_get (name_in (section_view section.entry) statement.now) index }
{
    match (section, statement.kind) {
        (Some(section), StatementKind::Pair) => {
            if index <= section.path.len() {
                part(section, index)
            } else {
                part(&statement.key, index - section.path.len() - 1)
            }
        }
        _ => part(&statement.key, index),
    }
}

/// Whether the part at an index is this one.
fn has_part(section: Option<&Key>, statement: &Statement, index: usize, name: &str) -> bool
    ensures { result ≡ part_is name.now (slice_get (name_in (section_view section.entry) statement.now) index) }
{
    match name_part(section, statement, index) {
        Some(part) => name == part,
        None => false,
    }
}

/// The header in whose table the pairs after a statement stand.
pub fn header_after<'a>(section: Option<&'a Key>, statement: &'a Statement) -> Option<&'a Key>
    ensures { section_view result ≡ section_behind (section_view section.entry) statement.now }
{
    match statement.kind {
        StatementKind::Pair => section,
        StatementKind::Table | StatementKind::Entry => Some(&statement.key),
    }
}

/// Whether the whole name of a statement after a header begins with a key.
pub fn begins_key(section: Option<&Key>, statement: &Statement, key: &str) -> bool
    ensures { result ≡ begins_key key.now (name_in (section_view section.entry) statement.now) }
{
    has_part(section, statement, 0, key)
}

/// Whether the whole name of a statement after a header begins with a key and a name in it.
pub fn begins_both(section: Option<&Key>, statement: &Statement, key: &str, name: &str) -> bool
    ensures { result ≡ begins_both key.now name.now (name_in (section_view section.entry) statement.now) }
{
    has_part(section, statement, 0, key) && has_part(section, statement, 1, name)
}

/// Whether the whole name of a statement after a header is a key alone.
fn is_alone(section: Option<&Key>, statement: &Statement, key: &str) -> bool
    ensures { result ≡ is_alone key.now (name_in (section_view section.entry) statement.now) }
{
    has_part(section, statement, 0, key) && name_part(section, statement, 1).is_none()
}

/// Whether a statement after a header is a pair that gives a key of the root its value.
pub fn gives_whole(section: Option<&Key>, statement: &Statement, key: &str) -> bool
    ensures { result ≡ gives_whole key.now (named_statement (section_view section.entry) statement.now) }
{
    statement.kind == StatementKind::Pair && is_alone(section, statement, key)
}

/// Whether a statement after a header adds an item to the array at a key of the root.
pub fn adds_entry(section: Option<&Key>, statement: &Statement, key: &str) -> bool
    ensures { result ≡ adds_entry key.now (named_statement (section_view section.entry) statement.now) }
{
    statement.kind == StatementKind::Entry && is_alone(section, statement, key)
}
