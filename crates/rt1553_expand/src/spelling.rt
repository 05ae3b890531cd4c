//! Messages, written as lines that `expand` reads.
ghost use Rattle.std.specs.Prelude.{◌≡◌, ◌≤◌, ◌+◌, ◌++◌, length, IfSome};
ghost use Rattle.std.specs.List.{flat_map};
ghost use Rattle.arrayvec.specs.ArrayString.{array_string_len};
ghost use Rattle.bus_word.specs.Command.{AreOfTheirWidth};
ghost use Rattle.script_lines.specs.Transcript.{bus_letter};
ghost use Rattle.rt1553_tool.specs.Fields.{in_word};
ghost use Rattle.rt1553_expand.specs.Gathered.{from_text, spaced_word, data_words_text, listed_line};
ghost use Rattle.rt1553_expand.specs.inner.Found.{command_message, IsOfWidth};

use crate::finding::FoundMessage;
use arrayvec::ArrayString;
use bus_word::Bus;
use rt1553_tool::{CommandFields, push_address, push_command_fields, push_decimal};
use script_lines::push_word;

/// The line of a message.
pub type MessageLine = ArrayString<256>;

/// The letter of a bus.
fn letter_of(bus: Bus) -> &'static str
    ensures { result.now ≡ bus_letter bus }
{
    match bus {
        Bus::A => "A",
        Bus::B => "B",
    }
}

/// Writes the terminal that sends in a transfer.
fn push_from(line: &mut MessageLine, sender: Option<CommandFields>)
    requires room { array_string_len line.old ≤ 80 }
    requires width { IfSome sender (λ s. AreOfTheirWidth (in_word s)) }
    ensures bytes { line.new.bytes ≡ line.old.bytes ++ from_text sender }
    ensures len { array_string_len line.new ≤ array_string_len line.old + 12 }
{
    if let Some(fields) = sender {
        line.push_str(" from ");
        push_address(line, fields.address);
        line.push_str(" ");
        push_decimal(line, fields.subaddress);
    }
}

/// Writes data words, each behind a space.
fn push_data_words(line: &mut MessageLine, words: &[u16])
    requires room { array_string_len line.old ≤ 93 }
    requires few { length words.now ≤ 32 }
    ensures { line.new.bytes ≡ line.old.bytes ++ flat_map spaced_word words.now }
{
    for word in words {
        line.push_str(" ");
        push_word(line, *word);
    }
}

/// Writes the line of a message, without a line feed.
pub fn listed_line(found: &FoundMessage) -> MessageLine
    requires { IsOfWidth found.now }
    ensures { result.bytes ≡ listed_line found.now.bus (command_message found.now) }
{
    let mut line = MessageLine::new();
    line.push_str(letter_of(found.bus));
    line.push_str(" ");
    push_command_fields(&mut line, found.command);
    push_from(&mut line, found.sender);
    if !found.words.is_empty() {
        line.push_str(":");
        push_data_words(&mut line, found.words.as_slice());
    }
    line
}
