//! Lines that a terminal can answer, and masks that admit one.
ghost use Rattle.std.specs.Prelude.{◌≡◌, ◌<◌, length, option_map, IfSome};
ghost use Rattle.rt1553_verify.specs.Stated.{is_open_digit, may_be_digit, may_be_word, may_be_subaddress, behind_field, may_be_fields, may_be_received, is_behind, may_be_sent_line, may_be_handed, is_possible, can_be_given};

use crate::Matching;
use line_format::after;

/// Whether a byte of a mask is open to any digit.
fn is_open_digit(masked: bool, byte: u8) -> bool
    ensures { result ≡ is_open_digit masked byte }
{
    masked && byte == b'.'
}

/// Whether a byte is a digit of a word, or in a mask a dot.
fn may_be_digit(masked: bool, byte: u8) -> bool
    ensures { result ≡ may_be_digit masked byte }
{
    is_open_digit(masked, byte) || matches!(byte, b'0'..=b'9' | b'a'..=b'f')
}

/// Whether bytes are a word: four digits.
fn may_be_word(masked: bool, word: &[u8]) -> bool
    ensures { result ≡ may_be_word masked word.now }
{
    match word {
        [a, b, c, d] => {
            may_be_digit(masked, *a)
                && may_be_digit(masked, *b)
                && may_be_digit(masked, *c)
                && may_be_digit(masked, *d)
        }
        _ => false,
    }
}

/// Whether two digits are a subaddress of data, 01 to 30.
fn may_be_subaddress(masked: bool, tens: u8, ones: u8) -> bool
    ensures { result ≡ may_be_subaddress masked tens ones }
{
    let any_ones = is_open_digit(masked, ones);
    (tens == b'0' && (any_ones || matches!(ones, b'1'..=b'9')))
        || ((is_open_digit(masked, tens) || matches!(tens, b'1'..=b'2'))
            && (any_ones || matches!(ones, b'0'..=b'9')))
        || (tens == b'3' && (any_ones || ones == b'0'))
}

/// Gives what follows a space and a word at the front.
fn behind_field(masked: bool, fields: &[u8]) -> Option<&[u8]>
    ensures value { option_map (λ rest. rest.now) result ≡ behind_field masked fields.now }
    ensures shorter { IfSome result (λ rest. length rest.now < length fields.now) }
{
    let [space, a, b, c, d, rest @ ..] = fields else {
        return None;
    };
    if *space == b' ' && may_be_word(masked, &[*a, *b, *c, *d]) {
        Some(rest)
    } else {
        None
    }
}

/// Whether bytes are words, each behind a space.
fn may_be_fields(masked: bool, fields: &[u8]) -> bool
    ensures { result ≡ may_be_fields masked fields.now }
{
    let mut fields = fields;
    while !fields.is_empty() {
        match behind_field(masked, fields) {
            Some(rest) => fields = rest,
            None => return false,
        }
    }
    true
}

/// Whether bytes are a subaddress with 1 to 32 words.
fn may_be_received(masked: bool, received: &[u8]) -> bool
    ensures { result ≡ may_be_received masked received.now }
{
    match received {
        [tens, ones, words @ ..] => {
            may_be_subaddress(masked, *tens, *ones)
                && !words.is_empty()
                && words.len() <= 160
                && may_be_fields(masked, words)
        }
        _ => false,
    }
}

/// Whether a line begins so, and a word follows.
fn is_word_behind(front: &[u8], masked: bool, line: &[u8]) -> bool
    ensures { result ≡ is_behind front.now (may_be_word masked) line.now }
{
    match after(line, front) {
        Some(word) => may_be_word(masked, word),
        None => false,
    }
}

/// Whether a line begins so, and what is received follows.
fn is_received_behind(front: &[u8], masked: bool, line: &[u8]) -> bool
    ensures { result ≡ is_behind front.now (may_be_received masked) line.now }
{
    match after(line, front) {
        Some(received) => may_be_received(masked, received),
        None => false,
    }
}

/// Whether a line is a word that a terminal sends.
fn may_be_sent_line(masked: bool, line: &[u8]) -> bool
    ensures { result ≡ may_be_sent_line masked line.now }
{
    is_word_behind(b"A s ", masked, line)
        || is_word_behind(b"A d ", masked, line)
        || is_word_behind(b"B s ", masked, line)
        || is_word_behind(b"B d ", masked, line)
}

/// Whether a line is what a terminal hands over.
fn may_be_handed(masked: bool, line: &[u8]) -> bool
    ensures { result ≡ may_be_handed masked line.now }
{
    is_received_behind(b"hand receive own ", masked, line)
        || is_received_behind(b"hand receive broadcast ", masked, line)
        || is_word_behind(b"hand sync ", masked, line)
        || line == b"hand sync".as_slice()
        || line == b"hand self-test".as_slice()
        || line == b"hand bus-control".as_slice()
}

/// Whether what is stated so can be given: a terminal can answer the line, or the mask admits one that it can; or it is nothing.
pub fn can_be_given(matching: Matching, line: &[u8]) -> bool
    ensures { result ≡ can_be_given matching line.now }
{
    match matching {
        Matching::Exact => line.is_empty()
            || may_be_sent_line(false, line)
            || may_be_handed(false, line),
        Matching::Masked => may_be_sent_line(true, line) || may_be_handed(true, line),
        _ => true,
    }
}
