//! What an exchange tries, in words.
ghost use Rattle.std.specs.Prelude.{◌≡◌, ◌≤◌, ◌<◌, ◌+◌, ◌++◌, length};
ghost use Rattle.arrayvec.specs.ArrayString.{array_string_len};
ghost use Rattle.bus_word.specs.Cell.{cell_of};
ghost use Rattle.bus_legal.specs.Parts.{description_in};
ghost use Rattle.rt1553_acceptance.specs.Label.{small_decimal, words_counted, data_asked, asked, is_legal_by, label_of};

use arrayvec::ArrayString;
use bus_legal::{Legality, Normal};
use bus_word::{Command, cell_of, mode_name};

/// A line without its line feed.
pub type LabelLine = ArrayString<64>;

/// Writes a number below 100, in decimal digits.
fn push_decimal(text: &mut LabelLine, number: u8)
    requires room { array_string_len text.old ≤ 62 }
    requires number { number < 100 }
    ensures bytes { text.new.bytes ≡ text.old.bytes ++ small_decimal number }
    ensures len { array_string_len text.new ≤ array_string_len text.old + 2 }
{
    if number >= 10 {
        text.push(char::from(b'0' + number / 10));
    }
    text.push(char::from(b'0' + number % 10));
}

/// Writes how many data words.
fn push_words_counted(text: &mut LabelLine, count: u8)
    requires room { array_string_len text.old ≤ 54 }
    requires count { count < 100 }
    ensures bytes { text.new.bytes ≡ text.old.bytes ++ words_counted count }
    ensures len { array_string_len text.new ≤ array_string_len text.old + 8 }
{
    push_decimal(text, count);
    text.push_str(if count == 1 { " word" } else { " words" });
}

/// Writes a command to a subaddress of data.
fn push_data_asked(text: &mut LabelLine, command: Command)
    requires { array_string_len text.old ≤ 10 }
    ensures bytes { text.new.bytes ≡ text.old.bytes ++ data_asked command }
    ensures len { array_string_len text.new ≤ array_string_len text.old + 34 }
{
    text.push_str(if command.transmit() {
        "transmit "
    } else {
        "receive "
    });
    push_decimal(text, command.subaddress());
    text.push_str(", ");
    push_words_counted(text, command.count());
}

/// Writes what a command asks for.
fn push_asked(text: &mut LabelLine, command: Command)
    requires { array_string_len text.old ≤ 10 }
    ensures bytes { text.new.bytes ≡ text.old.bytes ++ asked command }
    ensures len { array_string_len text.new ≤ array_string_len text.old + 34 }
{
    if command.is_mode() {
        text.push_str(mode_name(command.code()));
    } else {
        push_data_asked(text, command);
    }
}

/// Whether the command is legal to the terminal.
fn is_legal(p: &Normal, command: Command) -> bool
    ensures { result ≡ is_legal_by (description_in p.now) (cell_of command) }
{
    match cell_of(command) {
        Some(cell) => p.legal(cell),
        None => false,
    }
}

/// What an exchange with this command word tries, and whether the command is legal to the terminal: as
/// `transmit 3, 5 words: illegal`, or `broadcast synchronize: legal`. At most 53 bytes, with no line feed.
pub fn label_of(p: &Normal, command: u16) -> LabelLine
    ensures bytes { result.bytes ≡ label_of (description_in p.now) command }
    ensures short { array_string_len result ≤ 53 }
{
    let command = Command::of(command);
    let mut label = LabelLine::new();
    if command.is_broadcast() {
        label.push_str("broadcast ");
    }
    push_asked(&mut label, command);
    label.push_str(if is_legal(p, command) {
        ": legal"
    } else {
        ": illegal"
    });
    label
}
