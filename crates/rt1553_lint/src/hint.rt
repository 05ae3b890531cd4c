//! What is most likely meant where a text is no TOML.
ghost use Rattle.std.specs.Prelude.{◌≤◌, length};

/// What can stand for true and false, and does not in TOML.
const TRUTHS: [&str; 6] = ["true", "false", "yes", "no", "on", "off"];

/// The letters, digits and marks of a name or a number that stand at a place of a text.
fn word_at(text: &[u8], place: usize) -> &[u8]
    requires { place ≤ length text.now }
{
    let rest = &text[place..];
    for index in 0..rest.len() {
        let byte = rest[index];
        if !byte.is_ascii_alphanumeric() && byte != b'_' && byte != b'-' {
            return &rest[..index];
        }
    }
    rest
}

/// Whether a word stands for true or false, in any spelling.
fn is_truth(word: &[u8]) -> bool {
    for truth in TRUTHS {
        if truth.as_bytes().eq_ignore_ascii_case(word) {
            return true;
        }
    }
    false
}

/// What is likely meant by a word that is no value.
fn value_hint(word: &[u8]) -> &'static str {
    let is_decimal = word.iter().all(|byte| byte.is_ascii_digit());
    let is_hexadecimal = word.iter().all(|byte| byte.is_ascii_hexdigit());
    match word {
        [] => "",
        [b'0', _, ..] if is_decimal => "; a number has no 0 in front",
        _ if is_decimal => "",
        _ if is_truth(word) => "; true and false have small letters, and there is no yes and no",
        [first, ..] if is_hexadecimal || first.is_ascii_digit() => {
            "; hexadecimal digits come after 0x, with a small x"
        }
        _ => "; a text stands between quotes",
    }
}

/// Whether the first line of a text is that of a canonical text, but for a carriage return at its end.
fn is_canon_with_return(text: &[u8]) -> bool {
    text.starts_with(b"rt1553 1\r\n") || text.starts_with(b"rt1553 2\r\n")
}

/// What to add to the message of the TOML library about this place of a text: what is likely meant there, or nothing.
pub fn hint_of(text: &[u8], message: &str, place: usize) -> &'static str
    requires { place ≤ length text.now }
{
    if is_canon_with_return(text) {
        return "; a line of a canonical text ends in a line feed, without a carriage return";
    }
    if message.starts_with("invalid value") {
        return value_hint(word_at(text, place));
    }
    if message.starts_with("invalid date-time") {
        return "; ranges stand between quotes, as \"1-3\"";
    }
    if place < text.len() && text[place] == b',' {
        return "; several numbers stand between quotes, as \"1, 3\"";
    }
    ""
}
