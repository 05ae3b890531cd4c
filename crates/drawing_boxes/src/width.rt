//! How wide text is. Boxes are made as wide as what they say.
use std::fmt::{self, Write};

/// How wide a character of the font for digits is, in tenths of a unit.
const DIGIT_TENTHS: u32 = 73;

/// How wide a character that is none of ASCII is at most, in tenths of a unit: one and a half times the size of the font.
const OTHER_TENTHS: u32 = 180;

/// How wide a character is at most, in tenths of a unit: in DejaVu Sans at 12 units, rounded up. Arial, Helvetica and Liberation
/// Sans are narrower. Of those that are not of ASCII only a few are wider, such as a dash of three.
fn tenths_of(c: char) -> u32 {
    if c > '~' {
        return OTHER_TENTHS;
    }
    match c {
        'i' | 'j' | 'l' | '\'' => 34,
        ' ' | '.' | ',' | ':' | ';' | '/' => 41,
        'f' | '-' => 44,
        't' | 'r' | '(' | ')' | '!' | 'I' => 50,
        's' | 'z' => 63,
        'c' | 'k' | 'v' | 'x' | 'y' => 71,
        'a'..='z' | '0'..='9' => match c {
            'w' => 99,
            'm' => 117,
            _ => 77,
        },
        'A'..='Z' => match c {
            'M' => 104,
            'W' => 119,
            _ => 95,
        },
        _ => 121,
    }
}

/// Adds up how wide the text is that is written to it.
#[derive(Drop)]
struct Width {
    tenths: u32,
}

impl fmt::Write for Width {
    fn write_str(&mut self, text: &str) -> fmt::Result {
        for c in text.chars() {
            self.tenths = self.tenths.saturating_add(tenths_of(c));
        }
        Ok(())
    }
}

/// Counts the bytes of the text that is written to it.
#[derive(Drop)]
struct ByteCount {
    bytes: u32,
}

impl fmt::Write for ByteCount {
    fn write_str(&mut self, text: &str) -> fmt::Result {
        for _byte in text.as_bytes() {
            self.bytes = self.bytes.saturating_add(1);
        }
        Ok(())
    }
}

/// How wide a text is at most, in the units of a drawing; 0 where there is none.
pub fn width_of<T: fmt::Display>(text: &T) -> u32 {
    let mut width = Width { tenths: 0 };
    match write!(width, "{text}") {
        Ok(()) | Err(_) => width.tenths.div_ceil(10),
    }
}

/// How wide a text is at most in the font for digits, of which all characters are equally wide; 0 where there is none.
pub fn digits_width_of<T: fmt::Display>(text: &T) -> u32 {
    let mut count = ByteCount { bytes: 0 };
    match write!(count, "{text}") {
        Ok(()) | Err(_) => count.bytes.saturating_mul(DIGIT_TENTHS).div_ceil(10),
    }
}
