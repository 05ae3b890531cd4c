//! The first name in a text that is none of those which are known.
ghost use Rattle.std.specs.Prelude.{◌≡◌, ◌<◌, drop, length, map, option_copied};
ghost use Rattle.toml_places.specs.Besides.{is_one_of, key_besides, name_besides, names_behind};
ghost use Rattle.toml_places.specs.Statements.{whole_names};

use crate::Statement;
use crate::names::{adds_entry, begins_key, header_after, name_part};

/// Whether a name is one of these.
fn is_one_of(name: &str, known: &[&str]) -> bool
    ensures { result ≡ is_one_of name.now (map (λ k. k.now) known.now) }
{
    for other in known {
        if name == *other {
            return true;
        }
    }
    false
}

/// The first key of the root that is none of these, by the order of the statements; None where there is none.
pub fn key_besides<'a>(statements: &'a [Statement], known: &[&str]) -> Option<&'a str>
    ensures { option_copied result ≡ key_besides (map (λ k. k.now) known.now) (whole_names statements.now) }
{
    let mut section = None;
    for statement in statements {
        if let Some(part) = name_part(section, statement, 0) {
            if !is_one_of(part, known) {
                return Some(part);
            }
        }
        section = header_after(section, statement);
    }
    None
}

/// The first name that the statements behind a header give its item and that is none of these.
pub fn name_besides<'a>(
    statements: &'a [Statement],
    key: &str,
    entry: usize,
    known: &[&str],
) -> Option<&'a str>
    requires { entry < length statements.now }
    ensures { option_copied result ≡ name_besides key.now (map (λ k. k.now) known.now) (names_behind (drop entry statements.now)) }
{
    let mut section = Some(&statements[entry].key);
    for i in entry + 1..statements.len() {
        let statement = &statements[i];
        if adds_entry(section, statement, key) {
            return None;
        }
        if begins_key(section, statement, key) {
            if let Some(part) = name_part(section, statement, 1) {
                if !is_one_of(part, known) {
                    return Some(part);
                }
            }
        }
        section = header_after(section, statement);
    }
    None
}
