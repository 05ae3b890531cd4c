//! The name of a message, as a remark behind what an exchange tries.
ghost use Rattle.std.specs.Prelude.{◌≡◌, ◌≤◌, ◌+◌, ◌++◌, ◌&&◌, nat_le, length, option_map};
ghost use Rattle.arrayvec.specs.ArrayString.{array_string_len};
ghost use Rattle.bus_word.specs.Cell.{cell_of};
ghost use Rattle.rt1553_acceptance.specs.Remark.{has_no_control, remark_with, name_asked, remark_of};

use crate::stating::StatedLines;
use bus_word::{Command, cell_of};
use message_names::MessageNames;

/// How many bytes a label and a name have at most that stand on one line, with the begin of a comment and the space between them.
const ROOM: usize = 61;

/// Whether a text has no control character of ASCII.
fn has_no_control(text: &[u8]) -> bool
    ensures { result ≡ has_no_control text.now }
{
    text.iter().all(|byte| 32 <= *byte && *byte != 127)
}

/// The name of the message of a command, if it has one.
fn name_asked(names: &MessageNames, command: u16) -> Option<&str>
    ensures { option_map (λ name. name.now) result ≡ name_asked names.now (cell_of command) }
{
    match cell_of(Command::of(command)) {
        Some(cell) => names.name_of(cell),
        None => None,
    }
}

/// Whether a name has room behind a label, and no control character.
fn has_room(label: &str, name: &str) -> bool
    ensures { result ≡ (nat_le (length label.now + length name.now) 61 && has_no_control name.now) }
{
    label.len() <= ROOM && name.len() <= ROOM - label.len() && has_no_control(name.as_bytes())
}

/// Adds the name of the message of a command behind a label, if there is one and it has room.
pub fn push_remark(text: &mut StatedLines, label: &str, names: &MessageNames, command: u16)
    requires { array_string_len text.old ≤ 300 }
    ensures bytes { text.new.bytes ≡ text.old.bytes ++ remark_of names.now label.now command }
    ensures len { array_string_len text.new ≤ array_string_len text.old + 62 }
{
    if let Some(name) = name_asked(names, command) {
        if has_room(label, name) {
            text.push_str(" ");
            text.push_str(name);
        }
    }
}
