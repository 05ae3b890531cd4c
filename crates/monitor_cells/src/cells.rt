//! What the cells of a monitor's table say: times, buses, syncs and words.
ghost use Rattle.std.specs.Prelude.{◌≡◌, ◌≤◌, ◌+◌, ◌-◌, ◌*◌, true, length, take, drop, ◌==◌, slice_index, map, option_map, IfSome, IfOk};
ghost use Rattle.std.specs.Char.{is_ascii_digit};
ghost use Rattle.std.specs.Option.{SomeIff};
ghost use Rattle.std.specs.List.{list_all, position_or_len, slice_split};
ghost use Rattle.std.specs.Str.Parse.{digits_value};
ghost use Rattle.monitor_cells.specs.Cells.{is_dot, is_time_byte, is_time_text, IsMicros, thousandths, is_fraction, IsTime, time_said, unit_of, unit_said, is_headed, bus_said, sync_said, kind_of_sync, word_said, words_listed};

use arrayvec::ArrayString;
use bus_word::{Bus, Kind};
use script_lines::read_word;
use std::alloc::{AllocError, Global};
use std::str;

/// How many bytes the text of a time has at most: as many as have room in a comment of a script.
const TIME_BYTES: usize = 60;

/// The text of a time.
pub type TimeText = ArrayString<60>;

/// All times are below this number of microseconds, some 317 years.
const MICROS_END: u64 = 10_000_000_000_000_000;

/// A time, as a cell says it.
#[derive(Clone, Copy)]
pub struct MonitorTime {
    /// In nanoseconds.
    pub nanos: u64,
    /// What its last digit counts, in nanoseconds.
    pub unit: u64,
    /// As it stands in the cell.
    pub text: TimeText,
}

/// The sync of a word, and for a command sync what the word is.
#[derive(Clone, Copy)]
pub enum WordSync {
    Command,
    Data,
    Status,
}

/// The kind of a word of this sync.
pub fn kind_of_sync(sync: WordSync) -> Kind
    ensures { result ≡ kind_of_sync sync }
{
    match sync {
        WordSync::Command | WordSync::Status => Kind::Com,
        WordSync::Data => Kind::Dat,
    }
}

/// Whether all bytes are decimal digits.
fn are_digits(text: &[u8]) -> bool
    ensures { result ≡ list_all is_ascii_digit text.now }
{
    text.iter().all(|byte| b'0' <= *byte && *byte <= b'9')
}

/// Whether all bytes are decimal digits and dots.
fn are_time_bytes(text: &[u8]) -> bool
    ensures { result ≡ list_all is_time_byte text.now }
{
    text.iter()
        .all(|byte| (b'0' <= *byte && *byte <= b'9') || *byte == b'.')
}

/// Whether a text has no bytes but digits and dots, and has room in a comment.
fn is_time_text(text: &[u8]) -> bool
    ensures { result ≡ is_time_text text.now }
{
    text.len() <= TIME_BYTES && are_time_bytes(text)
}

/// The place of the first dot; the length of a text without any.
fn dot_place(text: &[u8]) -> usize
    ensures place { result ≡ position_or_len is_dot text.now }
    ensures within { result ≤ length text.now }
{
    for place in 0..text.len() {
        if text[place] == b'.' {
            return place;
        }
    }
    text.len()
}

/// The number of microseconds that decimal digits write, if it is small enough.
fn micros_in(digits: &[u8]) -> Option<u64>
    ensures { SomeIff result (IsMicros digits.now) (digits_value 10 digits.now) }
{
    if digits.first() == Some(&b'+') {
        return None;
    }
    let Ok(text) = str::from_utf8(digits) else {
        return None;
    };
    match text.parse::<u64>() {
        Ok(micros) if micros < MICROS_END => Some(micros),
        _ => None,
    }
}

/// The value of a digit; 0 where there is none.
fn digit_at(digits: &[u8], place: usize) -> u64
    ensures value { result ≡ slice_index digits.now place - 48 }
    ensures small { result ≤ 255 }
{
    match digits.get(place) {
        Some(digit) => u64::from(digit.saturating_sub(b'0')),
        None => 0,
    }
}

/// The number of thousandths that the digits behind a dot write, of which the first three count.
fn thousandths(digits: &[u8]) -> u64
    ensures value { result ≡ thousandths digits.now }
    ensures small { result ≤ 28305 }
{
    digit_at(digits, 0) * 100 + digit_at(digits, 1) * 10 + digit_at(digits, 2)
}

/// Whether what follows the digits of a number is nothing, or a dot and digits, one or more.
fn is_fraction(rest: &[u8]) -> bool
    ensures { result ≡ is_fraction rest.now }
{
    match rest {
        [] => true,
        [_] => false,
        [_, digits @ ..] => are_digits(digits),
    }
}

/// The number of thousandths that what follows the digits of a number writes.
fn thousandths_behind(rest: &[u8]) -> u64
    ensures value { result ≡ thousandths (drop 1 rest.now) }
    ensures small { result ≤ 28305 }
{
    match rest {
        [_, digits @ ..] => thousandths(digits),
        [] => 0,
    }
}

/// What the last digit of a time counts, in nanoseconds, by what follows the digits of its number.
fn unit_behind(rest: &[u8]) -> u64
    ensures { result ≡ unit_of rest.now }
{
    match rest {
        [_, _] => 100,
        [_, _, _] => 10,
        [_, _, _, _, ..] => 1,
        _ => 1_000,
    }
}

/// What the last digit of a time counts whose first dot has this place.
fn unit_in(text: &[u8], dot: usize) -> u64
    requires { dot ≤ length text.now }
    ensures { result ≡ unit_of (drop dot text.now) }
{
    let (_whole, rest) = text.split_at(dot);
    unit_behind(rest)
}

/// The nanoseconds of a time whose first dot has this place.
fn nanos_in(text: &[u8], dot: usize) -> Option<u64>
    requires { dot ≤ length text.now }
    ensures { SomeIff result (IsMicros (take dot text.now) × (is_fraction (drop dot text.now) ≡ true)) (digits_value 10 (take dot text.now) * 1000 + thousandths (drop 1 (drop dot text.now))) }
{
    let (whole, rest) = text.split_at(dot);
    let Some(micros) = micros_in(whole) else {
        return None;
    };
    if !is_fraction(rest) {
        return None;
    }
    Some(micros * 1000 + thousandths_behind(rest))
}

/// The time that a cell says: microseconds in decimal digits, with a fraction behind a dot or without. Digits behind nanoseconds are
/// ignored. It has at most 60 bytes, and says less than 10,000,000,000,000,000 microseconds.
pub fn read_time(cell: &[u8]) -> Option<MonitorTime>
    ensures said { SomeIff (option_map (λ time. time.nanos) result) (IsTime cell.now) (time_said cell.now) }
    ensures unit { IfSome result (λ time. time.unit ≡ unit_said cell.now) }
    ensures text { IfSome result (λ time. time.text.bytes ≡ cell.now) }
    ensures plain { IfSome result (λ time. is_time_text time.text.bytes ≡ true) }
{
    if !is_time_text(cell) {
        return None;
    }
    let dot = dot_place(cell);
    let Some(nanos) = nanos_in(cell, dot) else {
        return None;
    };
    let Ok(text) = str::from_utf8(cell) else {
        return None;
    };
    match TimeText::from(text) {
        Ok(text) => Some(MonitorTime {
            nanos,
            unit: unit_in(cell, dot),
            text,
        }),
        Err(_) => None,
    }
}

/// Whether a cell has this name, small or capital.
pub fn is_headed(name: &str, cell: &[u8]) -> bool
    ensures { result ≡ is_headed name.now cell.now }
{
    cell.eq_ignore_ascii_case(name.as_bytes())
}

/// The bus that a cell names.
pub fn read_bus_cell(cell: &[u8]) -> Option<Bus>
    ensures { result ≡ bus_said cell.now }
{
    match cell {
        [b'A' | b'a'] => Some(Bus::A),
        [b'B' | b'b'] => Some(Bus::B),
        _ => None,
    }
}

/// The sync that a cell names.
pub fn read_sync_cell(cell: &[u8]) -> Option<WordSync>
    ensures { result ≡ sync_said cell.now }
{
    if is_headed("c", cell) || is_headed("command", cell) {
        return Some(WordSync::Command);
    }
    if is_headed("d", cell) || is_headed("data", cell) {
        return Some(WordSync::Data);
    }
    if is_headed("s", cell) || is_headed("status", cell) {
        return Some(WordSync::Status);
    }
    None
}

/// The word that a cell says: four hexadecimal digits, small or capital, and perhaps `0x` before them.
pub fn read_word_cell(cell: &[u8]) -> Option<u16>
    ensures { result ≡ word_said cell.now }
{
    match cell {
        [a, b, c, d] => read_word(*a, *b, *c, *d),
        [b'0', b'x' | b'X', a, b, c, d] => read_word(*a, *b, *c, *d),
        _ => None,
    }
}

/// The parts of a cell between spaces.
fn parts_of(alloc: Global, cell: &[u8]) -> Result<Vec<&[u8]>, AllocError>
    ensures { IfOk result (λ parts. map (λ part. part.now) parts.items ≡ slice_split (λ b. b == 32) cell.now) }
{
    cell.split(|byte| *byte == b' ').collect(alloc)
}

/// The words that a cell says, with spaces between them, if each is a word.
pub fn read_words_cell(alloc: Global, cell: &[u8]) -> Result<Option<Vec<u16>>, AllocError>
    ensures { IfOk result (λ found. option_map (λ words. words.items) found ≡ words_listed cell.now) }
{
    let parts = parts_of(alloc, cell)?;
    let mut words = Vec::new(alloc);
    for part in parts.as_slice() {
        if part.is_empty() {
            continue;
        }
        let Some(word) = read_word_cell(part) else {
            return Ok(None);
        };
        words.push(word)?;
    }
    Ok(Some(words))
}
