//! What answers lines of words.
ghost use Rattle.std.specs.Prelude.{◌≡◌, ◌≤◌, ◌<◌, ◌+◌, ◌*◌, ◌++◌, true, if◌then◌else◌, length, IfOk};
ghost use Rattle.std.specs.List.{flat_map};
ghost use Rattle.arrayvec.specs.ArrayString.{array_string_len};
ghost use Rattle.bus_word.specs.Mode.{mode_row};
ghost use Rattle.bus_word.specs.Word.{valid_word};
ghost use Rattle.bus_word.specs.Command.{AreOfTheirWidth};
ghost use Rattle.rt1553_tool.specs.Fields.{AreOfWidth, bits_with, in_word, sync_of};
ghost use Rattle.rt1553_tool.specs.declared.fields.WordFields.TheVariants.{Data as DataWord};
ghost use Rattle.rt1553_tool.specs.WordTexts.{short_decimal, address_text, tr_text, mode_note, mode_text, transfer_text, asks_mode, command_text, command_note, bit_text, first_bits_text, reserved_text, last_bits_text, address_note, status_text, fields_text, letter_text, digits_text, fault_text, shown_byte, without_return, ended_word_line, is_passed, is_refused_line, word_answer};
ghost use Rattle.rt1553_tool.specs.WordLines.{said_by};

use crate::fields::{CommandFields, StatusFields, WordFields};
use crate::word_lines::{WordLine, WordLineFault, read_word_line};
use arrayvec::ArrayString;
use bus_word::{Raw, mode_name, mode_row};
use script_lines::{digits_of, push_word};

/// A line that answers a line: one of 128 bytes has at most 512 where each is escaped.
pub type AnswerLine = ArrayString<600>;

/// How many bytes a line may have.
const MOST: usize = 128;

/// Writes a number below 100, in decimal digits.
pub fn push_decimal<const N: usize>(text: &mut ArrayString<N>, number: u8)
    requires room { array_string_len text.old + 2 ≤ N }
    requires number { number < 100 }
    ensures bytes { text.new.bytes ≡ text.old.bytes ++ short_decimal number }
    ensures len { array_string_len text.new ≤ array_string_len text.old + 2 }
{
    if number >= 10 {
        text.push(char::from(b'0' + number / 10));
    }
    text.push(char::from(b'0' + number % 10));
}

/// Writes an address of a command word, below 100: `all` for 31.
pub fn push_address<const N: usize>(text: &mut ArrayString<N>, address: u8)
    requires room { array_string_len text.old + 3 ≤ N }
    requires address { address < 100 }
    ensures bytes { text.new.bytes ≡ text.old.bytes ++ address_text address }
    ensures len { array_string_len text.new ≤ array_string_len text.old + 3 }
{
    if address == 31 {
        text.push_str("all");
    } else {
        push_decimal(text, address);
    }
}

/// Gives the word for a direction.
fn direction_name(transmit: bool) -> &'static str
    ensures value { result.now ≡ tr_text transmit }
    ensures short { length result.now ≡ 2 }
{
    if transmit { "tx" } else { "rx" }
}

/// Gives what a mode code is called, where the table has it with this T/R.
fn note_of(transmit: bool, code: u8) -> &'static str
    ensures value { result.now ≡ mode_note transmit code (mode_row code) }
    ensures short { length result.now ≤ 40 }
{
    match mode_row(code) {
        Some(row) if row.transmit == transmit => mode_name(code),
        _ => "always illegal",
    }
}

/// Writes a mode command.
fn push_mode<const N: usize>(text: &mut ArrayString<N>, fields: CommandFields)
    requires room { array_string_len text.old + 20 ≤ N }
    requires address { fields.address < 100 }
    requires low { fields.low < 100 }
    ensures bytes { text.new.bytes ≡ text.old.bytes ++ mode_text fields }
    ensures len { array_string_len text.new ≤ array_string_len text.old + 20 }
{
    text.push_str("mode ");
    push_address(text, fields.address);
    text.push_str(" ");
    push_decimal(text, fields.low);
    text.push_str(" ");
    text.push_str(direction_name(fields.transmit));
    text.push_str(if fields.subaddress == 31 { " 31" } else { "" });
}

/// Writes a command to receive or transmit data words.
fn push_transfer<const N: usize>(text: &mut ArrayString<N>, fields: CommandFields)
    requires room { array_string_len text.old + 20 ≤ N }
    requires address { fields.address < 100 }
    requires subaddress { fields.subaddress < 100 }
    requires low { fields.low < 100 }
    ensures bytes { text.new.bytes ≡ text.old.bytes ++ transfer_text fields }
    ensures len { array_string_len text.new ≤ array_string_len text.old + 20 }
{
    text.push_str(direction_name(fields.transmit));
    text.push_str(" ");
    push_address(text, fields.address);
    text.push_str(" ");
    push_decimal(text, fields.subaddress);
    text.push_str(" ");
    push_decimal(text, if fields.low == 0 { 32 } else { fields.low });
}

/// Tells whether a command asks for a mode code.
fn asks_mode(fields: CommandFields) -> bool
    ensures { result ≡ asks_mode fields }
{
    fields.subaddress == 0 || fields.subaddress == 31
}

/// Writes a command word by its fields, as `read_word_line` reads them.
pub fn push_command_fields<const N: usize>(text: &mut ArrayString<N>, fields: CommandFields)
    requires room { array_string_len text.old + 20 ≤ N }
    requires width { AreOfTheirWidth (in_word fields) }
    ensures bytes { text.new.bytes ≡ text.old.bytes ++ command_text fields }
    ensures len { array_string_len text.new ≤ array_string_len text.old + 20 }
{
    if asks_mode(fields) {
        push_mode(text, fields);
    } else {
        push_transfer(text, fields);
    }
}

/// Writes what is noted of a command.
fn push_note(text: &mut AnswerLine, fields: CommandFields)
    requires room { array_string_len text.old ≤ 100 }
    ensures bytes { text.new.bytes ≡ text.old.bytes ++ command_note fields }
    ensures len { array_string_len text.new ≤ array_string_len text.old + 50 }
{
    if asks_mode(fields) {
        text.push_str(" # ");
        text.push_str(note_of(fields.transmit, fields.low));
    }
}

/// Writes the name of a bit that is set.
fn push_bit(text: &mut AnswerLine, is_set: bool, name: &str)
    requires room { array_string_len text.old ≤ 500 }
    requires short { length name.now ≤ 15 }
    ensures bytes { text.new.bytes ≡ text.old.bytes ++ bit_text is_set name.now }
    ensures len { array_string_len text.new ≤ array_string_len text.old + 16 }
{
    if is_set {
        text.push_str(" ");
        text.push_str(name);
    }
}

/// Writes the bits behind the address.
fn push_first_bits(text: &mut AnswerLine, fields: StatusFields)
    requires { array_string_len text.old ≤ 200 }
    ensures bytes { text.new.bytes ≡ text.old.bytes ++ first_bits_text fields }
    ensures len { array_string_len text.new ≤ array_string_len text.old + 48 }
{
    push_bit(text, fields.error, "error");
    push_bit(text, fields.instrumentation, "instrumentation");
    push_bit(text, fields.service, "service");
}

/// Writes the reserved bits.
fn push_reserved(text: &mut AnswerLine, reserved: u8)
    requires { array_string_len text.old ≤ 200 }
    ensures bytes { text.new.bytes ≡ text.old.bytes ++ reserved_text reserved }
    ensures len { array_string_len text.new ≤ array_string_len text.old + 48 }
{
    push_bit(text, reserved / 4 % 2 == 1, "reserved1");
    push_bit(text, reserved / 2 % 2 == 1, "reserved2");
    push_bit(text, reserved % 2 == 1, "reserved3");
}

/// Writes the bits behind the reserved ones.
fn push_last_bits(text: &mut AnswerLine, fields: StatusFields)
    requires { array_string_len text.old ≤ 200 }
    ensures bytes { text.new.bytes ≡ text.old.bytes ++ last_bits_text fields }
    ensures len { array_string_len text.new ≤ array_string_len text.old + 80 }
{
    push_bit(text, fields.broadcast, "broadcast");
    push_bit(text, fields.busy, "busy");
    push_bit(text, fields.subsystem, "subsystem");
    push_bit(text, fields.accept, "accept");
    push_bit(text, fields.terminal, "terminal");
}

/// Gives what is noted of an address.
fn address_note(address: u8) -> &'static str
    ensures value { result.now ≡ address_note address }
    ensures short { length result.now ≤ 40 }
{
    if address == 31 {
        " # no terminal has this address"
    } else {
        ""
    }
}

/// Writes a status word.
fn push_status(text: &mut AnswerLine, fields: StatusFields)
    requires room { array_string_len text.old ≤ 50 }
    requires address { fields.address < 100 }
    ensures bytes { text.new.bytes ≡ text.old.bytes ++ status_text fields }
    ensures len { array_string_len text.new ≤ array_string_len text.old + 250 }
{
    text.push_str("status ");
    push_decimal(text, fields.address);
    push_first_bits(text, fields);
    push_reserved(text, fields.reserved);
    push_last_bits(text, fields);
    text.push_str(address_note(fields.address));
}

/// Writes a data word.
fn push_data(text: &mut AnswerLine, bits: u16)
    requires { array_string_len text.old ≤ 100 }
    ensures bytes { text.new.bytes ≡ text.old.bytes ++ fields_text (DataWord bits) }
    ensures len { array_string_len text.new ≤ array_string_len text.old + 9 }
{
    text.push_str("data ");
    push_word(text, bits);
}

/// Writes a word by its fields.
fn push_fields(text: &mut AnswerLine, fields: WordFields)
    requires room { array_string_len text.old ≤ 50 }
    requires width { AreOfWidth fields }
    ensures bytes { text.new.bytes ≡ text.old.bytes ++ fields_text fields }
    ensures len { array_string_len text.new ≤ array_string_len text.old + 250 }
{
    match fields {
        WordFields::Command(command) => {
            push_command_fields(text, command);
            push_note(text, command);
        }
        WordFields::Status(status) => push_status(text, status),
        WordFields::Data(bits) => push_data(text, bits),
    }
}

/// Gives what stands before the digits of a word.
fn letter_of(fields: WordFields) -> &'static str
    ensures value { result.now ≡ letter_text fields }
    ensures short { length result.now ≡ 2 }
{
    match fields {
        WordFields::Command(_) => "c ",
        WordFields::Status(_) => "s ",
        WordFields::Data(_) => "d ",
    }
}

/// Writes a word by its digits and its parity bit.
fn push_digits(text: &mut AnswerLine, fields: WordFields, word: Raw)
    requires room { array_string_len text.old ≤ 100 }
    ensures bytes { text.new.bytes ≡ text.old.bytes ++ digits_text fields word }
    ensures len { array_string_len text.new ≤ array_string_len text.old + 8 }
{
    text.push_str(letter_of(fields));
    push_word(text, word.bits);
    text.push_str(if word.parity { " 1" } else { " 0" });
}

impl WordLineFault {
    /// Why the line is refused, as it is printed.
    pub fn text(self) -> &'static str
        ensures value { result.now ≡ fault_text self }
        ensures short { length result.now ≤ 200 }
    {
        match self {
            WordLineFault::Long => "a line has at most 128 bytes",
            WordLineFault::Name => "a line begins with rx, tx, mode, status, data, c, s or d",
            WordLineFault::Address => "an address is 0 to 30, or all for a command",
            WordLineFault::Subaddress => "a subaddress is 1 to 30",
            WordLineFault::Count => "a count is 1 to 32",
            WordLineFault::Code => "a mode code is 0 to 31",
            WordLineFault::Direction => {
                "after a mode code comes tx or rx; a reserved code needs it"
            }
            WordLineFault::ModeSubaddress => "the subaddress of a mode code is 0 or 31",
            WordLineFault::Bit => {
                "a status has error, instrumentation, service, reserved1 to 3, broadcast, busy, subsystem, accept, terminal"
            }
            WordLineFault::Digits => "a word is four hexadecimal digits",
            WordLineFault::Parity(false) => "the parity bit of this word is 0",
            WordLineFault::Parity(true) => "the parity bit of this word is 1",
            WordLineFault::Much => "nothing may follow the last field",
        }
    }
}

/// Writes a byte as it is shown: printable ASCII as it is, any other byte escaped.
fn push_byte(text: &mut AnswerLine, byte: u8)
    requires { array_string_len text.old ≤ 520 }
    ensures bytes { text.new.bytes ≡ text.old.bytes ++ shown_byte byte }
    ensures len { array_string_len text.new ≤ array_string_len text.old + 4 }
{
    if 32 <= byte && byte <= 126 {
        text.push(char::from(byte));
    } else {
        let digits = digits_of(u16::from(byte));
        text.push_str("\\x");
        text.push(char::from(digits[2]));
        text.push(char::from(digits[3]));
    }
}

/// Writes a line back.
fn push_shown(text: &mut AnswerLine, line: &[u8])
    requires empty { array_string_len text.old ≡ 0 }
    requires short { length line.now ≤ 128 }
    ensures bytes { text.new.bytes ≡ text.old.bytes ++ flat_map shown_byte line.now }
    ensures len { array_string_len text.new ≤ 512 }
{
    for byte in line {
        push_byte(text, *byte);
    }
}

/// Tells whether a line is answered by itself: it has at most 128 bytes, and is empty or a comment.
fn is_passed(line: &[u8]) -> bool
    ensures value { result ≡ is_passed line.now }
    ensures short { result ≡ true → length line.now ≤ 128 }
{
    line.len() <= MOST && (line.is_empty() || line[0] == b'#')
}

/// Writes what answers a line that says a word.
fn push_said(text: &mut AnswerLine, line: &WordLine)
    requires empty { array_string_len text.old ≡ 0 }
    requires width { AreOfWidth line.now.fields }
    ensures bytes { text.new.bytes ≡ text.old.bytes ++ (if line.now.by_fields then digits_text line.now.fields line.now.word else fields_text line.now.fields) }
    ensures len { array_string_len text.new ≤ 512 }
{
    if line.by_fields {
        push_digits(text, line.fields, line.word);
    } else {
        push_fields(text, line.fields);
    }
}

/// A line without the carriage return that may end it.
fn without_return(line: &[u8]) -> &[u8]
    ensures { result.now ≡ without_return line.now }
{
    let len = line.len();
    if len > 0 && line[len - 1] == b'\r' {
        &line[..len - 1]
    } else {
        line
    }
}

/// Reads a line of at most 128 bytes that a carriage return may end.
fn read_ended_line(line: &[u8]) -> Result<WordLine, WordLineFault>
    ensures said { said_by result ≡ ended_word_line line.now }
    ensures width { IfOk result (λ line. AreOfWidth line.fields) }
    ensures digits { IfOk result (λ line. line.by_fields ≡ true → line.word ≡ valid_word (sync_of line.fields) (bits_with line.fields)) }
{
    if line.len() > MOST {
        return Err(WordLineFault::Long);
    }
    read_word_line(without_return(line))
}

/// What answers a line of words, with its line feed, and whether the line is refused.
pub fn answer_word_line(line: &[u8]) -> (AnswerLine, bool)
    ensures answer { result.0.bytes ≡ word_answer line.now }
    ensures refused { result.1 ≡ is_refused_line line.now }
{
    let mut text = AnswerLine::new();
    let mut is_refused_line = false;
    if is_passed(line) {
        push_shown(&mut text, line);
    } else {
        match read_ended_line(line) {
            Ok(said) => push_said(&mut text, &said),
            Err(fault) => {
                text.push_str("? ");
                text.push_str(fault.text());
                is_refused_line = true;
            }
        }
    }
    text.push_str("\n");
    (text, is_refused_line)
}
