//! Sets of numbers as texts.
ghost use Rattle.std.specs.Prelude.{◌≡◌, ◌<◌, ◌≤◌, ◌++◌, IfOk, OnOk, ◌∷◌, string_bytes, if◌then◌else◌};
ghost use Rattle.rt1553_toml.specs.Sets.{two_digits, lone_range, said_set, set_text};

use bus_word::has_bit;
use std::alloc::{AllocError, Global};

/// A number below 100 in two digits.
pub fn two_digits(number: u8) -> [u8; 2]
    requires { number < 100 }
    ensures { result ≡ two_digits number }
{
    [b'0' + number / 10, b'0' + number % 10]
}

/// Writes a number below 100 in two digits.
fn push_number(text: &mut String, number: u8) -> Result<(), AllocError>
    requires { number < 100 }
    ensures { OnOk result (string_bytes text.new ≡ string_bytes text.old ++ two_digits number) }
{
    text.push(char::from(b'0' + number / 10))?;
    text.push(char::from(b'0' + number % 10))
}

/// Writes a number of a set: the first as a range of this number alone, any other behind a comma.
fn push_item(text: &mut String, started: bool, number: u8) -> Result<(), AllocError>
    requires { number < 100 }
    ensures { OnOk result (string_bytes text.new ≡ string_bytes text.old ++ (if started then 44 ∷ two_digits number else lone_range number)) }
{
    if started {
        text.push(',')?;
    } else {
        push_number(text, number)?;
        text.push('-')?;
    }
    push_number(text, number)
}

/// The set that its text says: of an empty one the first number.
fn said_set(mask: u32) -> u32
    ensures { result ≡ said_set mask }
{
    if mask == 0 { 1 } else { mask }
}

/// The text of a set of numbers: bit `n - first` stands for `n`. Of an empty set it is the text of the first number alone.
pub fn set_text(alloc: Global, first: u8, mask: u32) -> Result<String, AllocError>
    requires { first ≤ 1 }
    ensures { IfOk result (λ text. string_bytes text ≡ set_text first mask) }
{
    let numbers = said_set(mask);
    let mut text = String::new(alloc);
    let mut started = false;
    let mut left = 32;
    while 0 < left {
        left -= 1;
        if has_bit(numbers, left) {
            push_item(&mut text, started, first + left)?;
            started = true;
        }
    }
    Ok(text)
}
