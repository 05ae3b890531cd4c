//! Fields that don't fit.
ghost use Rattle.std.specs.Prelude.{◌<◌, ◌≤◌, length, suc};

use crate::reason::{LineReason, Misfit};

/// The names with which a line can begin.
const FIRST_NAMES: [&str; 7] = ["A", "B", "slot", "write", "vector", "bit", "flag"];

/// The names that can stand behind a bus.
const BUS_NAMES: [&str; 4] = ["c", "d", "gap", "noise"];

/// Where a line doesn't fit: with so many bytes left of it.
#[derive(Clone, Copy)]
struct Stop {
    left: usize,
    reason: LineReason,
}

/// What is left of the line doesn't fit, from its first byte on.
fn stop_at(rest: &[u8], reason: LineReason) -> Stop {
    Stop {
        left: rest.len(),
        reason,
    }
}

/// A field, and what follows it: nothing, or a space and more.
fn next_field(rest: &[u8]) -> (&[u8], &[u8]) {
    for index in 0..rest.len() {
        if rest[index] == b' ' {
            return (&rest[..index], &rest[index..]);
        }
    }
    (rest, &rest[rest.len()..])
}

/// What follows a space.
fn behind_space(rest: &[u8]) -> Option<&[u8]> {
    match rest {
        [b' ', more @ ..] => Some(more),
        _ => None,
    }
}

/// Whether it is one of these names, but for capital and small letters.
fn is_spelt_otherwise(field: &[u8], names: &[&str]) -> bool {
    for name in names {
        if name.as_bytes().eq_ignore_ascii_case(field) {
            return true;
        }
    }
    false
}

/// A field that is none of these names.
fn wrong_name(rest: &[u8], field: &[u8], names: &[&str], reason: LineReason) -> Stop {
    if is_spelt_otherwise(field, names) {
        stop_at(rest, LineReason::Spelling)
    } else {
        stop_at(rest, reason)
    }
}

/// How many bytes of a field are hexadecimal digits, up to the first that is none; four at most.
fn digits_in(field: &[u8]) -> usize
    ensures { result ≤ length field.now }
{
    for index in 0..field.len() {
        if index == 4 || !field[index].is_ascii_hexdigit() {
            return index;
        }
    }
    field.len()
}

/// Passes a space and four digits.
fn past_digits(rest: &[u8]) -> Result<&[u8], Stop> {
    let Some(from) = behind_space(rest) else {
        return Err(stop_at(rest, LineReason::Digits));
    };
    let (field, more) = next_field(from);
    let count = digits_in(field);
    if count < field.len() {
        let left = field.len() - count;
        return Err(Stop {
            left: left.saturating_add(more.len()),
            reason: LineReason::Digits,
        });
    }
    if count < 4 {
        return Err(stop_at(more, LineReason::Digits));
    }
    Ok(more)
}

/// Passes a space and a number of two digits, from 01 on.
fn past_number(rest: &[u8], most: u8, reason: LineReason) -> Result<&[u8], Stop> {
    let Some(from) = behind_space(rest) else {
        return Err(stop_at(rest, reason));
    };
    let (field, more) = next_field(from);
    let number = match field {
        [t, d] if t.is_ascii_digit() && d.is_ascii_digit() => {
            t.saturating_sub(b'0')
                .saturating_mul(10)
                .saturating_add(d.saturating_sub(b'0'))
        }
        _ => 0,
    };
    if 0 < number && number <= most {
        Ok(more)
    } else {
        Err(stop_at(from, reason))
    }
}

/// A line that has all its fields but for a `0` or a `1`, or has too many.
fn in_truth(rest: &[u8], reason: LineReason) -> Stop {
    let Some(from) = behind_space(rest) else {
        return stop_at(rest, reason);
    };
    let (field, more) = next_field(from);
    if field == b"0".as_slice() || field == b"1".as_slice() {
        stop_at(more, LineReason::Much)
    } else {
        stop_at(from, reason)
    }
}

/// A line that has all its fields but for a word, or has too many.
fn in_word(rest: &[u8]) -> Stop {
    match past_digits(rest) {
        Ok(more) => stop_at(more, LineReason::Much),
        Err(stop) => stop,
    }
}

/// A line with a word on a bus.
fn in_word_on_bus(rest: &[u8]) -> Stop {
    match past_digits(rest) {
        Ok(more) => in_truth(more, LineReason::Parity),
        Err(stop) => stop,
    }
}

/// A line of what happens on a bus.
fn in_bus(rest: &[u8]) -> Stop {
    let Some(from) = behind_space(rest) else {
        return stop_at(rest, LineReason::OnBus);
    };
    let (field, more) = next_field(from);
    match field {
        b"c" | b"d" => in_word_on_bus(more),
        b"gap" | b"noise" => stop_at(more, LineReason::Much),
        b"s" => stop_at(from, LineReason::Sent),
        b"rx" | b"tx" | b"mode" | b"status" | b"data" => stop_at(from, LineReason::Message),
        _ => wrong_name(from, field, &BUS_NAMES, LineReason::OnBus),
    }
}

/// A line with which the subsystem writes a word.
fn in_write(rest: &[u8]) -> Stop {
    match past_number(rest, 30, LineReason::Subaddress) {
        Ok(more) => match past_number(more, 32, LineReason::Number) {
            Ok(more) => in_word(more),
            Err(stop) => stop,
        },
        Err(stop) => stop,
    }
}

/// A line with which the subsystem sets a flag.
fn in_flag(rest: &[u8]) -> Stop {
    let Some(from) = behind_space(rest) else {
        return stop_at(rest, LineReason::Flag);
    };
    let (field, more) = next_field(from);
    match field {
        b"service" | b"busy" | b"subsystem" | b"terminal" => in_truth(more, LineReason::Value),
        _ => stop_at(from, LineReason::Flag),
    }
}

/// A line whose fields are separated by single spaces.
fn in_line(line: &[u8]) -> Stop {
    let (field, more) = next_field(line);
    match field {
        b"A" | b"B" => in_bus(more),
        b"slot" => stop_at(more, LineReason::Much),
        b"write" => in_write(more),
        b"vector" | b"bit" => in_word(more),
        b"flag" => in_flag(more),
        _ => wrong_name(line, field, &FIRST_NAMES, LineReason::Name),
    }
}

/// Where a line that is refused, whose fields are separated by single spaces, doesn't fit, and why.
pub fn misfit_in_fields(line: &[u8]) -> Misfit
    ensures { (0 < result.column) × (result.column ≤ suc (length line.now)) }
{
    let stop = in_line(line);
    Misfit {
        column: line.len().saturating_sub(stop.left) + 1,
        reason: stop.reason,
    }
}
