//! A text of one line.
ghost use Rattle.std.specs.Prelude.{◌≡◌, ◌≤◌, false};
ghost use Rattle.arrayvec.specs.ArrayString.{array_string_len};
ghost use Rattle.rt1553.specs.OneLine.{has_line_feed, IsOneLine};

use arrayvec::ArrayString;
use std::fmt;

/// A text without line feeds, of at most 127 bytes.
#[derive(Drop)]
pub struct OneLine {
    text: ArrayString<128>,
    ghost none: { has_line_feed text.bytes ≡ false },
    ghost room: { array_string_len text ≤ 127 },
}

impl OneLine {
    /// Gives a text without bytes.
    pub fn new() -> OneLine {
        OneLine {
            text: ArrayString::new(),
        }
    }

    /// Gives the text with a line feed behind it.
    pub fn ended(self) -> ArrayString<128>
        ensures { IsOneLine result.bytes }
    {
        let mut line = self.text;
        line.push('\n');
        line
    }
}

impl fmt::Write for OneLine {
    /// Refuses a piece that has a line feed, and one for which there is no room.
    fn write_str(&mut self, piece: &str) -> fmt::Result {
        if piece.as_bytes().contains(&b'\n') || piece.len() > 127 - self.text.len() {
            return Err(fmt::Error);
        }
        self.text.push_str(piece);
        Ok(())
    }
}
