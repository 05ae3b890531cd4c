//! Rows as lines, written without memory.
ghost use Rattle.std.specs.Prelude.{◌≡◌, ◌≤◌, ◌+◌, ◌*◌, ◌++◌, length, map, All};
ghost use Rattle.arrayvec.specs.ArrayString.{array_string_len};
ghost use Rattle.terminal_messages.specs.Shown.{shown_message};
ghost use Rattle.message_rows.specs.Texts.{field_told, IsShortField, comma_joined, row_line};

use crate::field::{Field, RowText, push_field_text};
use crate::table::{NAMELESS, fields_of};
use terminal_messages::KeptMessage;

/// Adds fields with a comma between two.
fn push_fields(text: &mut RowText, fields: &[Field<'_>])
    requires room { array_string_len text.old + 401 * length fields.now ≤ 8192 }
    requires short { All IsShortField fields.now }
    ensures bytes { text.new.bytes ≡ text.old.bytes ++ comma_joined (map field_told fields.now) }
    ensures len { array_string_len text.new ≤ array_string_len text.old + 401 * length fields.now }
{
    for index in 0..fields.len() {
        if index > 0 {
            text.push_str(",");
        }
        push_field_text(text, &fields[index]);
    }
}

/// The row of a message as a line: its fields as in the table without names, with a comma between two, and a line feed. Takes no memory.
pub fn row_line(message: &KeptMessage) -> RowText
    ensures { result.bytes ≡ row_line (shown_message message.now) }
{
    let fields = fields_of(message, None);
    let fields = &fields[..];
    let mut text = RowText::new();
    push_fields(&mut text, &fields[..NAMELESS]);
    text.push_str("\n");
    text
}
