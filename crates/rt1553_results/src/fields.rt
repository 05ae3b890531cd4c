//! The fields of a table of results.
ghost use Rattle.std.specs.Prelude.{◌≡◌, option_map};
ghost use Rattle.std.specs.Option.{SomeIff};
ghost use Rattle.std.specs.Str.Parse.{digits_value};
ghost use Rattle.rt1553_results.specs.Results.{words_said, at_most_33, reply_said, IsExchangeNumber};

use arrayvec::ArrayVec;
use script_lines::read_word;
use std::str;

/// The number in a field: decimal digits and nothing else, from 1 on.
pub fn read_exchange_number(field: &[u8]) -> Option<u32>
    ensures { SomeIff result (IsExchangeNumber field.now) (digits_value 10 field.now) }
{
    if field.first() == Some(&b'+') {
        return None;
    }
    let Ok(text) = str::from_utf8(field) else {
        return None;
    };
    match text.parse::<u32>() {
        Ok(0) => None,
        Ok(number) => Some(number),
        Err(_) => None,
    }
}

/// Words of four hexadecimal digits with a space between two: at most 33.
fn read_words(field: &[u8]) -> Option<ArrayVec<u16, 33>>
    ensures { option_map (λ words. words.items) result ≡ at_most_33 (words_said field.now) }
{
    let mut words = ArrayVec::new();
    let mut rest = field;
    while rest.len() >= 4 && words.len() < 33 {
        let Some(word) = read_word(rest[0], rest[1], rest[2], rest[3]) else {
            return None;
        };
        words.push(word);
        if rest.len() == 4 {
            return Some(words);
        }
        if rest[4] != b' ' {
            return None;
        }
        rest = &rest[5..];
    }
    None
}

/// The reply in a field: no words for `none`, or 1 to 33 words.
pub fn read_reply(field: &[u8]) -> Option<ArrayVec<u16, 33>>
    ensures { option_map (λ words. words.items) result ≡ reply_said field.now }
{
    if field == b"none".as_slice() {
        Some(ArrayVec::new())
    } else {
        read_words(field)
    }
}
