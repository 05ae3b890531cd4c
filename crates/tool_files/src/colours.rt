//! What somebody sees of the streams, and what stands out on a terminal (ECMA-48, 8.3.117: select graphic rendition).
ghost use Rattle.std.specs.Prelude.{◌≤◌, length};

use crate::fault::ToolFault;
use crate::files::write_bytes;
use std::io::Write;

/// What somebody sees of the streams.
#[derive(Clone, Copy)]
pub struct Screen {
    /// The standard error and not the output: progress is shown there.
    pub has_progress: bool,
    /// The output, and colours are welcome there.
    pub has_colours: bool,
}

/// How a text stands out.
#[derive(Clone, Copy)]
pub enum Ink {
    Bold,
    Green,
    Red,
}

impl Ink {
    fn code(self) -> &'static [u8] {
        match self {
            Ink::Bold => b"\x1b[1m",
            Ink::Green => b"\x1b[32m",
            Ink::Red => b"\x1b[31m",
        }
    }
}

/// Writes a text, in this ink where colours are wanted. The only error is `Output`.
pub fn put_in<W: Write>(
    output: &mut W,
    has_colours: bool,
    ink: Ink,
    text: &[u8],
) -> Result<(), ToolFault> {
    if !has_colours {
        return write_bytes(output, text);
    }
    write_bytes(output, ink.code())?;
    write_bytes(output, text)?;
    write_bytes(output, b"\x1b[0m")
}

/// How many bytes of a line are its heading: of one that begins with a letter those before its first colon, or all.
fn heading_len(line: &[u8]) -> usize
    ensures { result ≤ length line.now }
{
    match line {
        [first, ..] if first.is_ascii_alphabetic() => {}
        _ => return 0,
    }
    for index in 0..line.len() {
        if line[index] == b':' || line[index] == b'\n' {
            return index;
        }
    }
    line.len()
}

/// Writes lines, whose headings stand out where colours are wanted. The only error is `Output`.
pub fn put_lines<W: Write>(
    output: &mut W,
    has_colours: bool,
    text: &[u8],
) -> Result<(), ToolFault> {
    for line in text.split_inclusive(|byte| *byte == b'\n') {
        let len = heading_len(line);
        if len > 0 {
            put_in(output, has_colours, Ink::Bold, &line[..len])?;
        }
        write_bytes(output, &line[len..])?;
    }
    Ok(())
}
