//! Words by their fields and by their digits, as lines.
ghost use Rattle.std.specs.Prelude.{◌≡◌, ◌≤◌, codes, drop, length, true, false, IfOk};
ghost use Rattle.std.specs.List.{slice_get, list_any};
ghost use Rattle.std.specs.Str.{bytes_eq};
ghost use Rattle.script_lines.specs.Digits.{number_of};
ghost use Rattle.rt1553_tool.specs.Fields.{AreOfWidth, IsWordOf, sync_of, bits_with, command_fields_in, status_in};
ghost use Rattle.rt1553_tool.specs.WordLines.{is_word, small_number, number_part, address_part, digits_part, ended_at, transfer_line, direction_part, mode_subaddress_part, mode_line, has_part, bit_names, name_bits, status_with, status_line, data_line, parity_part, digits_line, said_of, said_by, said_by_parts, word_line};
ghost use Rattle.rt1553_tool.specs.declared.fields.WordFields.TheVariants.{Command as CommandWord, Status as StatusWord, Data as DataWord};
ghost use Rattle.rt1553_tool.specs.inner.Parts.{texts};
ghost use Rattle.rt1553_tool.specs.inner.Said.{text_in};
ghost use Rattle.bus_word.specs.Word.{bit_of, valid_word};

use crate::fields::{
    CommandFields, StatusFields, WordFields, command_fields, status_fields, word_with,
};
use crate::parts::{MOST, line_parts};
use bus_word::{Kind, Raw, mode_row};
use script_lines::read_word;

/// The address of all terminals.
const ALL_TERMINALS: u8 = 31;

/// Why a line of words is refused.
#[derive(Clone, Copy, Debug, PartialEq, Eq)]
pub enum WordLineFault {
    /// It has over 128 bytes.
    Long,
    /// It begins with none of the names of the language.
    Name,
    /// The address is missing or none.
    Address,
    /// The subaddress is missing or none.
    Subaddress,
    /// The count is missing or none.
    Count,
    /// The mode code is missing or none.
    Code,
    /// What follows the mode code is neither `tx` nor `rx`, or the table of mode codes doesn't say which goes with the code.
    Direction,
    /// What follows a mode command is no subaddress of mode commands.
    ModeSubaddress,
    /// No bit of a status word has this name.
    Bit,
    /// The digits are missing or none.
    Digits,
    /// The parity bit is not this one, which makes the number of ones odd.
    Parity(bool),
    /// Something stands behind all that is wanted.
    Much,
}

/// What a line says of a word.
#[derive(Clone, Copy)]
pub struct WordLine {
    /// The fields of the word.
    pub fields: WordFields,
    /// The word.
    pub word: Raw,
    /// Whether the line has the fields, so that the digits answer it; else it has the digits, and the fields answer it.
    pub by_fields: bool,
}

/// Gives the part in this place, from 0.
fn part<'a>(parts: &[&'a [u8]], place: usize) -> Option<&'a [u8]>
    ensures { text_in result ≡ slice_get (texts parts.now) place }
{
    parts.get(place).copied()
}

/// Tells whether the part is this word.
fn is_word(part: Option<&[u8]>, word: &[u8]) -> bool
    ensures { result ≡ is_word word.now (text_in part.entry) }
{
    match part {
        Some(part) => part == word,
        None => false,
    }
}

/// Gives the number of two decimal digits.
fn read_number(tens: u8, ones: u8) -> Option<u8>
    ensures { result ≡ number_of tens ones }
{
    if tens.is_ascii_digit() && ones.is_ascii_digit() {
        Some((tens - b'0') * 10 + (ones - b'0'))
    } else {
        None
    }
}

/// Gives the number of one or two decimal digits.
fn small_number(part: &[u8]) -> Option<u8>
    ensures { result ≡ small_number part.now }
{
    match part {
        [d] => read_number(b'0', *d),
        [t, d] => read_number(*t, *d),
        _ => None,
    }
}

/// Gives the number that a part is, in these bounds.
fn number_part(
    part: Option<&[u8]>,
    least: u8,
    most: u8,
    fault: WordLineFault,
) -> Result<u8, WordLineFault>
    ensures value { result ≡ number_part least most fault (text_in part.entry) }
    ensures most { IfOk result (λ n. n ≤ most) }
{
    let Some(part) = part else {
        return Err(fault);
    };
    match small_number(part) {
        Some(number) if least <= number && number <= most => Ok(number),
        _ => Err(fault),
    }
}

/// Gives the address that a part is, 0 to 31.
fn address_part(part: Option<&[u8]>) -> Result<u8, WordLineFault>
    ensures value { result ≡ address_part (text_in part.entry) }
    ensures most { IfOk result (λ n. n ≤ 31) }
{
    if is_word(part, b"all") {
        return Ok(ALL_TERMINALS);
    }
    number_part(part, 0, 30, WordLineFault::Address)
}

/// Gives the four hexadecimal digits that a part is.
fn digits_part(part: Option<&[u8]>) -> Result<u16, WordLineFault>
    ensures { result ≡ digits_part (text_in part.entry) }
{
    match part {
        Some([a, b, c, d]) => read_word(*a, *b, *c, *d).ok_or(WordLineFault::Digits),
        _ => Err(WordLineFault::Digits),
    }
}

/// Gives what was said, where there are no more parts than these.
fn ended_at(count: usize, parts: &[&[u8]], said: WordFields) -> Result<WordFields, WordLineFault>
    ensures { result ≡ ended_at count (texts parts.now) said }
{
    if parts.len() > count {
        return Err(WordLineFault::Much);
    }
    Ok(said)
}

/// Reads what follows `rx` or `tx`.
fn read_transfer(parts: &[&[u8]], transmit: bool) -> Result<WordFields, WordLineFault>
    ensures value { result ≡ transfer_line transmit (texts parts.now) }
    ensures width { IfOk result AreOfWidth }
{
    let address = address_part(part(parts, 1))?;
    let subaddress = number_part(part(parts, 2), 1, 30, WordLineFault::Subaddress)?;
    let count = number_part(part(parts, 3), 1, 32, WordLineFault::Count)?;
    let fields = CommandFields {
        address,
        transmit,
        subaddress,
        low: count % 32,
    };
    ended_at(4, parts, WordFields::Command(fields))
}

/// Gives the direction that follows a mode code.
fn direction_part(code: u8, part: Option<&[u8]>) -> Result<bool, WordLineFault>
    ensures { result ≡ direction_part code (text_in part.entry) }
{
    if is_word(part, b"tx") {
        return Ok(true);
    }
    if is_word(part, b"rx") {
        return Ok(false);
    }
    match (part, mode_row(code)) {
        (None, Some(row)) => Ok(row.transmit),
        _ => Err(WordLineFault::Direction),
    }
}

/// Gives the subaddress that follows the direction.
fn mode_subaddress_part(part: Option<&[u8]>) -> Result<u8, WordLineFault>
    ensures value { result ≡ mode_subaddress_part (text_in part.entry) }
    ensures most { IfOk result (λ n. n ≤ 31) }
{
    if part.is_none() || is_word(part, b"0") {
        return Ok(0);
    }
    if is_word(part, b"31") {
        return Ok(31);
    }
    Err(WordLineFault::ModeSubaddress)
}

/// Reads what follows `mode`.
fn read_mode(parts: &[&[u8]]) -> Result<WordFields, WordLineFault>
    ensures value { result ≡ mode_line (texts parts.now) }
    ensures width { IfOk result AreOfWidth }
{
    let address = address_part(part(parts, 1))?;
    let low = number_part(part(parts, 2), 0, 31, WordLineFault::Code)?;
    let transmit = direction_part(low, part(parts, 3))?;
    let subaddress = mode_subaddress_part(part(parts, 4))?;
    let fields = CommandFields {
        address,
        transmit,
        subaddress,
        low,
    };
    ended_at(5, parts, WordFields::Command(fields))
}

/// Tells whether this word is one of the parts.
fn has_part(parts: &[&[u8]], word: &[u8]) -> bool
    ensures { result ≡ has_part word.now (texts parts.now) }
{
    for part in parts {
        if *part == word {
            return true;
        }
    }
    false
}

/// Tells whether a bit of a status word has this name.
fn is_bit_name(part: &[u8]) -> bool
    ensures { result ≡ list_any (λ name. bytes_eq part.now name) bit_names }
{
    part == b"error".as_slice()
        || part == b"instrumentation".as_slice()
        || part == b"service".as_slice()
        || part == b"reserved1".as_slice()
        || part == b"reserved2".as_slice()
        || part == b"reserved3".as_slice()
        || part == b"broadcast".as_slice()
        || part == b"busy".as_slice()
        || part == b"subsystem".as_slice()
        || part == b"accept".as_slice()
        || part == b"terminal".as_slice()
}

/// Tells whether each of these parts names a bit.
fn name_bits(parts: &[&[u8]]) -> bool
    ensures { result ≡ name_bits (texts parts.now) }
{
    for part in parts {
        if !is_bit_name(part) {
            return false;
        }
    }
    true
}

/// Gives the bit of a name: 1 where it is one of the parts.
fn bit_named(names: &[&[u8]], name: &[u8]) -> u8
    ensures value { result ≡ bit_of (has_part name.now (texts names.now)) }
    ensures small { result ≤ 1 }
{
    if has_part(names, name) { 1 } else { 0 }
}

/// Gives the status word with the bits that are named.
fn status_with(address: u8, names: &[&[u8]]) -> StatusFields
    ensures value { result ≡ status_with address (texts names.now) }
    ensures address { result.address ≡ address }
    ensures reserved { result.reserved ≤ 7 }
{
    StatusFields {
        address,
        error: has_part(names, b"error"),
        instrumentation: has_part(names, b"instrumentation"),
        service: has_part(names, b"service"),
        reserved: 4 * bit_named(names, b"reserved1")
            + (2 * bit_named(names, b"reserved2") + bit_named(names, b"reserved3")),
        broadcast: has_part(names, b"broadcast"),
        busy: has_part(names, b"busy"),
        subsystem: has_part(names, b"subsystem"),
        accept: has_part(names, b"accept"),
        terminal: has_part(names, b"terminal"),
    }
}

/// Reads what follows `status`.
fn read_status(parts: &[&[u8]]) -> Result<WordFields, WordLineFault>
    ensures value { result ≡ status_line (texts parts.now) }
    ensures width { IfOk result AreOfWidth }
{
    let address = number_part(part(parts, 1), 0, 30, WordLineFault::Address)?;
    let names = parts.get(2..).unwrap_or(&[]);
    if !name_bits(names) {
        return Err(WordLineFault::Bit);
    }
    Ok(WordFields::Status(status_with(address, names)))
}

/// Reads what follows `data`.
fn read_data(parts: &[&[u8]]) -> Result<WordFields, WordLineFault>
    ensures value { result ≡ data_line (texts parts.now) }
    ensures width { IfOk result AreOfWidth }
{
    let bits = digits_part(part(parts, 1))?;
    ended_at(2, parts, WordFields::Data(bits))
}

/// Tells whether the part is the right parity bit, or nothing.
fn parity_part(parity: bool, part: Option<&[u8]>) -> Result<bool, WordLineFault>
    ensures { result ≡ parity_part parity (text_in part.entry) }
{
    let right: &[u8] = if parity { b"1" } else { b"0" };
    if part.is_none() || is_word(part, right) {
        return Ok(parity);
    }
    if is_word(part, b"0") || is_word(part, b"1") {
        return Err(WordLineFault::Parity(parity));
    }
    Err(WordLineFault::Much)
}

/// Reads the digits of a word with this sync, and its parity bit where it stands.
fn read_digits(parts: &[&[u8]], kind: Kind) -> Result<u16, WordLineFault>
    ensures { result ≡ digits_line kind (texts parts.now) }
{
    let bits = digits_part(part(parts, 1))?;
    parity_part(Raw::of(kind, bits).parity, part(parts, 2))?;
    if parts.len() > 3 {
        return Err(WordLineFault::Much);
    }
    Ok(bits)
}

/// Gives a line that has the fields of a word, or its digits.
fn line_of(fields: WordFields, by_fields: bool) -> WordLine
    requires { AreOfWidth fields }
    ensures word { IsWordOf result.word result.fields }
    ensures width { AreOfWidth result.fields }
    ensures said { said_of result ≡ record { fields = fields; by_fields = by_fields } }
    ensures digits { result.word ≡ valid_word (sync_of fields) (bits_with fields) }
{
    WordLine {
        fields,
        word: word_with(fields),
        by_fields,
    }
}

/// Reads a line by its parts.
fn read_parts(parts: &[&[u8]]) -> Result<WordLine, WordLineFault>
    ensures word { IfOk result (λ line. IsWordOf line.word line.fields) }
    ensures width { IfOk result (λ line. AreOfWidth line.fields) }
    ensures said { said_by result ≡ said_by_parts (texts parts.now) }
    ensures digits { IfOk result (λ line. line.by_fields ≡ true → line.word ≡ valid_word (sync_of line.fields) (bits_with line.fields)) }
{
    let name = part(parts, 0);
    if is_word(name, b"rx") {
        return Ok(line_of(read_transfer(parts, false)?, true));
    }
    if is_word(name, b"tx") {
        return Ok(line_of(read_transfer(parts, true)?, true));
    }
    if is_word(name, b"mode") {
        return Ok(line_of(read_mode(parts)?, true));
    }
    if is_word(name, b"status") {
        return Ok(line_of(read_status(parts)?, true));
    }
    if is_word(name, b"data") {
        return Ok(line_of(read_data(parts)?, true));
    }
    if is_word(name, b"c") {
        let bits = read_digits(parts, Kind::Com)?;
        return Ok(line_of(WordFields::Command(command_fields(bits)), false));
    }
    if is_word(name, b"s") {
        let bits = read_digits(parts, Kind::Com)?;
        return Ok(line_of(WordFields::Status(status_fields(bits)), false));
    }
    if is_word(name, b"d") {
        let bits = read_digits(parts, Kind::Dat)?;
        return Ok(line_of(WordFields::Data(bits), false));
    }
    Err(WordLineFault::Name)
}

/// Reads a line, without its line feed, that says a word by its fields, or by its digits: what it tells of both is of one
/// word. Blanks separate the parts of a line, and what stands behind `#` is a comment.
pub fn read_word_line(line: &[u8]) -> Result<WordLine, WordLineFault>
    ensures word { IfOk result (λ line. IsWordOf line.word line.fields) }
    ensures width { IfOk result (λ line. AreOfWidth line.fields) }
    ensures said { said_by result ≡ word_line line.now }
    ensures digits { IfOk result (λ line. line.by_fields ≡ true → line.word ≡ valid_word (sync_of line.fields) (bits_with line.fields)) }
{
    if line.len() > MOST {
        return Err(WordLineFault::Long);
    }
    read_parts(line_parts(line).as_slice())
}
