//! The statement that gives a key of the root.
ghost use Rattle.std.specs.Prelude.{◌≡◌, ◌<◌, length, IfSome, None};
ghost use Rattle.toml_places.specs.Places.{is_there};
ghost use Rattle.toml_places.specs.Search.{index_of_key};
ghost use Rattle.toml_places.specs.Statements.{whole_names, IsPlace};

use crate::Statement;
use crate::names::{begins_key, header_after};

/// The index of the first statement whose whole name begins with a key.
fn first_with(statements: &[Statement], key: &str) -> Option<usize>
    ensures index { result ≡ index_of_key key.now (whole_names statements.now) }
    ensures within { IfSome result (λ j. j < length statements.now) }
{
    let mut section = None;
    for (i, statement) in statements.iter().enumerate() {
        if begins_key(section, statement, key) {
            return Some(i);
        }
        section = header_after(section, statement);
    }
    None
}

/// The statement that gives a key of the root: its index among the statements of a text, which are given in their order.
///
/// It is the first whose whole name begins with the key, and None where there is none. The statements are read once.
pub fn key_place(statements: &[Statement], key: &str) -> Option<usize>
    ensures gives { IsPlace (is_there key.now None None) statements.now result }
    ensures index { result ≡ index_of_key key.now (whole_names statements.now) }
    ensures within { IfSome result (λ j. j < length statements.now) }
{
    first_with(statements, key)
}
