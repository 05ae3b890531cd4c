//! Lines of JSON.
ghost use Rattle.std.specs.Prelude.{◌≡◌, ◌++◌, ◌∷◌, [], List, ℕ, IfOk, MatchOption, true};
ghost use Rattle.std.specs.String.{string_bytes};
ghost use Rattle.ascii_json.specs.Ascii.{IsPlainText};

use crate::ascii::in_ascii;
use std::alloc::{AllocError, Global};

/// A text of JSON as a line: with each character escaped that is no printable one of ASCII, where it has names from outside. None is
/// a text for which memory ran out. The only error is out of memory.
pub fn named_json(
    alloc: Global,
    text: Option<String>,
    has_names: bool,
) -> Result<String, AllocError>
    ensures { has_names ≡ true → IfOk result (λ line. (json : List ℕ) × IsPlainText json × (string_bytes line ≡ json ++ 10 ∷ [])) }
{
    if !has_names {
        return json_line(text);
    }
    let Some(json) = text else {
        return Err(AllocError);
    };
    json_line(Some(in_ascii(alloc, json.as_str())?))
}

/// A text of JSON as a line. None is a text for which memory ran out. The only error is out of memory.
pub fn json_line(text: Option<String>) -> Result<String, AllocError>
    ensures { IfOk result (λ line. MatchOption text ⊥ (λ json. string_bytes line ≡ string_bytes json ++ 10 ∷ [])) }
{
    let Some(mut line) = text else {
        return Err(AllocError);
    };
    line.push('\n')?;
    Ok(line)
}
