//! What is told of a message, field by field.
ghost use Rattle.std.specs.Prelude.{◌≡◌, ◌≤◌, ◌<◌, ◌+◌, ◌*◌, ◌++◌, length, Some, decimal};
ghost use Rattle.std.specs.List.{flat_map};
ghost use Rattle.arrayvec.specs.ArrayString.{array_string_len};
ghost use Rattle.bus_terminal.specs.Answer.{shown_copy};
ghost use Rattle.script_lines.specs.Transcript.{word_field};
ghost use Rattle.terminal_messages.specs.Ends.{handed_in};
ghost use Rattle.message_rows.specs.Texts.{bit_named, place_shown, spaced, words_told, handed_told, bits_told, transmitter_told, with_why, end_name, why, status_told, field_told, IsShortField};

use crate::status::{STATUS_BITS, is_bit_set, status_bit};
use crate::text::{end_name, place_of, why};
use arrayvec::ArrayString;
use bus_terminal::{Answer, CopiedAnswer};
use bus_word::Command;
use itoa::Buffer;
use script_lines::{push_word, write_answer};
use std::alloc::{AllocError, Global};
use std::fmt;
use terminal_messages::KeptMessage;

/// The text of a field.
type FieldText = ArrayString<512>;

/// The text of a row.
pub type RowText = ArrayString<8192>;

/// A field of a row. Where there is no text, number, word or command, nothing is told.
#[derive(Clone, Copy)]
pub enum Field<'a> {
    Text(Option<&'a str>),
    Number(u64),
    /// A field of a command word.
    Small(Option<u8>),
    /// An address: 31 is told as `all`.
    Address(u8),
    /// The subaddress of a command, or its mode code.
    Place(Command),
    /// The address of the transmitter of a transfer, and its subaddress or mode code.
    Transmitter(Option<Command>),
    /// How the message ended, and why.
    End(&'a KeptMessage),
    /// The data words with a space between two, and how many are left out.
    Words(&'a KeptMessage),
    /// What was handed over, as in a transcript without `hand ` and the line feed; silence is nothing.
    Handed(&'a CopiedAnswer),
    /// The four digits of a word.
    Digits(Option<u16>),
    /// The bits of a status word that are set, with a space between two.
    Bits(Option<u16>),
    /// A status word, and its bits.
    Status(Option<u16>),
}

/// Adds a number.
fn push_decimal<const N: usize>(text: &mut ArrayString<N>, number: u64)
    requires { array_string_len text.old + 40 ≤ N }
    ensures bytes { text.new.bytes ≡ text.old.bytes ++ decimal number }
    ensures len { array_string_len text.new ≤ array_string_len text.old + 40 }
{
    let mut buffer = Buffer::new();
    text.push_str(buffer.format(number));
}

/// Adds the subaddress of a command, or its mode code.
fn push_place<const N: usize>(text: &mut ArrayString<N>, command: Command)
    requires { array_string_len text.old + 45 ≤ N }
    ensures bytes { text.new.bytes ≡ text.old.bytes ++ place_shown command }
    ensures len { array_string_len text.new ≤ array_string_len text.old + 45 }
{
    if command.is_mode() {
        text.push_str("mode ");
    }
    push_decimal(text, u64::from(place_of(command)));
}

/// Adds the address of a command, and its subaddress or mode code.
fn push_transmitter<const N: usize>(text: &mut ArrayString<N>, command: Command)
    requires { array_string_len text.old + 86 ≤ N }
    ensures bytes { text.new.bytes ≡ text.old.bytes ++ transmitter_told (Some command) }
    ensures len { array_string_len text.new ≤ array_string_len text.old + 86 }
{
    push_decimal(text, u64::from(command.address()));
    text.push_str(" ");
    push_place(text, command);
}

/// Adds words, each behind a space.
fn push_behind<const N: usize>(text: &mut ArrayString<N>, words: &[u16])
    requires { array_string_len text.old + 5 * length words.now ≤ N }
    ensures bytes { text.new.bytes ≡ text.old.bytes ++ flat_map word_field words.now }
    ensures len { array_string_len text.new ≡ array_string_len text.old + 5 * length words.now }
{
    for word in words {
        text.push_str(" ");
        push_word(text, *word);
    }
}

/// Adds words with a space between two.
fn push_spaced<const N: usize>(text: &mut ArrayString<N>, words: &[u16])
    requires { array_string_len text.old + 5 * length words.now ≤ N }
    ensures bytes { text.new.bytes ≡ text.old.bytes ++ spaced words.now }
    ensures len { array_string_len text.new ≤ array_string_len text.old + 5 * length words.now }
{
    let [first, rest @ ..] = words else {
        return;
    };
    push_word(text, *first);
    push_behind(text, rest);
}

/// Adds data words, and how many are left out.
fn push_words<const N: usize>(text: &mut ArrayString<N>, words: &[u16], left_out: u64)
    requires { array_string_len text.old + (5 * length words.now + 50) ≤ N }
    ensures bytes { text.new.bytes ≡ text.old.bytes ++ words_told words.now left_out }
    ensures len { array_string_len text.new ≤ array_string_len text.old + (5 * length words.now + 50) }
{
    push_spaced(text, words);
    if left_out > 0 {
        text.push_str(" and ");
        push_decimal(text, left_out);
        text.push_str(" more");
    }
}

/// Adds what was handed over: its line in a transcript, without `hand ` before it and the line feed behind it.
fn push_handed<const N: usize>(text: &mut ArrayString<N>, handed: &CopiedAnswer)
    requires { array_string_len text.old + 180 ≤ N }
    ensures bytes { text.new.bytes ≡ text.old.bytes ++ handed_told (handed_in (shown_copy handed.now)) }
    ensures len { array_string_len text.new ≤ array_string_len text.old + 180 }
{
    if let Answer::Hands(hand) = handed.lent() {
        let line = write_answer(&Answer::Hands(hand));
        let line = line.as_str();
        text.push_str(&line[5..line.len() - 1]);
    }
}

/// Adds the name of the bit of this place value, if it is set: behind a space, if something stands before it.
fn push_bit<const N: usize>(
    text: &mut ArrayString<N>,
    word: u16,
    is_behind: bool,
    place: u16,
    name: &str,
)
    requires place { 0 < place }
    requires room { array_string_len text.old + 16 ≤ N }
    requires name { length name.now ≤ 15 }
    ensures bytes { text.new.bytes ≡ text.old.bytes ++ bit_named is_behind word place name.now }
    ensures len { array_string_len text.new ≤ array_string_len text.old + 16 }
{
    if is_bit_set(word, place) {
        if is_behind || word % 2048 / place / 2 > 0 {
            text.push_str(" ");
        }
        text.push_str(name);
    }
}

/// Adds the bits that are set, with a space between two; behind a word also before the first.
fn push_bits<const N: usize>(text: &mut ArrayString<N>, word: u16, is_behind: bool)
    requires { array_string_len text.old + 176 ≤ N }
    ensures bytes { text.new.bytes ≡ text.old.bytes ++ bits_told is_behind word }
    ensures len { array_string_len text.new ≤ array_string_len text.old + 176 }
{
    for index in 0..STATUS_BITS {
        let (place, name) = status_bit(index);
        push_bit(text, word, is_behind, place, name);
    }
}

/// Adds a status word, and its bits.
fn push_status<const N: usize>(text: &mut ArrayString<N>, word: u16)
    requires { array_string_len text.old + 180 ≤ N }
    ensures bytes { text.new.bytes ≡ text.old.bytes ++ status_told (Some word) }
    ensures len { array_string_len text.new ≤ array_string_len text.old + 180 }
{
    push_word(text, word);
    push_bits(text, word, true);
}

/// Adds how a message ended, and why.
fn push_end<const N: usize>(text: &mut ArrayString<N>, message: &KeptMessage)
    requires { array_string_len text.old + 100 ≤ N }
    ensures bytes { text.new.bytes ≡ text.old.bytes ++ with_why (end_name message.now.state.«end») (why message.now.state.«end» message.now.state.unsent) }
    ensures len { array_string_len text.new ≤ array_string_len text.old + 100 }
{
    text.push_str(end_name(message.state.end));
    if let Some(why) = why(message) {
        text.push_str(": ");
        text.push_str(why);
    }
}

/// Adds what a field says: at most 400 bytes, if it is no longer text.
pub fn push_field_text<const N: usize>(text: &mut ArrayString<N>, field: &Field<'_>)
    requires room { array_string_len text.old + 400 ≤ N }
    requires short { IsShortField field.now }
    ensures bytes { text.new.bytes ≡ text.old.bytes ++ field_told field.now }
    ensures len { array_string_len text.new ≤ array_string_len text.old + 400 }
{
    match *field {
        Field::Text(Some(told)) => text.push_str(told),
        Field::Number(number) => push_decimal(text, number),
        Field::Small(Some(number)) => push_decimal(text, u64::from(number)),
        Field::Address(31) => text.push_str("all"),
        Field::Address(address) => push_decimal(text, u64::from(address)),
        Field::Place(command) => push_place(text, command),
        Field::Transmitter(Some(command)) => push_transmitter(text, command),
        Field::End(message) => push_end(text, message),
        Field::Words(message) => push_words(text, message.words.as_slice(), message.left_out),
        Field::Handed(handed) => push_handed(text, handed),
        Field::Digits(Some(word)) => push_word(text, word),
        Field::Bits(Some(word)) => push_bits(text, word, false),
        Field::Status(Some(word)) => push_status(text, word),
        Field::Text(None)
        | Field::Small(None)
        | Field::Transmitter(None)
        | Field::Digits(None)
        | Field::Bits(None)
        | Field::Status(None) => {}
    }
}

impl fmt::Display for Field<'_> {
    ghost output = { λ field. Some (field_told field) };

    fn fmt<W: fmt::Write>(&self, f: &mut fmt::Formatter<W>) -> fmt::Result {
        if let Field::Text(told) = *self {
            return f.write_str(told.unwrap_or(""));
        }
        let mut text = FieldText::new();
        push_field_text(&mut text, self);
        f.write_str(text.as_str())
    }
}

/// The texts of fields.
pub fn texts_of(alloc: Global, fields: &[Field<'_>]) -> Result<Vec<String>, AllocError> {
    let mut texts = Vec::new(alloc);
    for field in fields {
        texts.push(format!(in alloc; "{field}")?)?;
    }
    Ok(texts)
}
