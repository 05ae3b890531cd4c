//! What could stand in place of a line that no canonical text has there.
use bus_canon::{CanonFault, read_canon};
use std::alloc::{AllocError, Global};

/// The lines that a canonical text has once, as each may be; those of the wraparound subaddress as versions 2 and 1 have them.
const SINGLE_LINES: [&str; 9] = [
    "address 00",
    "broadcast 0",
    "own-mode 00000134",
    "broadcast-mode 00000000",
    "accept 0",
    "vector 0000",
    "bit 0000",
    "wraparound 00",
    "wraparound 0",
];

/// The names of the lines that give a mask to each of 30 subaddresses.
const MASK_NAMES: [&str; 3] = ["own-receive", "own-transmit", "broadcast-receive"];

/// How many lines are tried: each above, and for each of 30 subaddresses 1 to 32 words.
const TRIED: usize = 9 + 3 * 30 + 30 * 32;

/// What of a text comes before the line of this number, from 1.
fn text_before(text: &[u8], line: usize) -> &[u8] {
    let mut number = 1;
    for (index, byte) in text.iter().enumerate() {
        if number == line {
            return &text[..index];
        }
        if *byte == b'\n' {
            number = number.saturating_add(1);
        }
    }
    text
}

/// The line of this number, from 0, of those that are tried.
fn tried_line(alloc: Global, index: usize) -> Result<String, AllocError> {
    if let Some(line) = SINGLE_LINES.get(index) {
        return String::from_str(alloc, line);
    }
    let mask = index.saturating_sub(SINGLE_LINES.len());
    if let Some(name) = MASK_NAMES.get(mask / 30) {
        return format!(in alloc; "{name} {:02} 00000000", mask % 30 + 1);
    }
    let words = mask.saturating_sub(90);
    let mut line = format!(in alloc; "initial {:02}", words / 32 + 1)?;
    for _word in 0..words % 32 + 1 {
        line.push_str(" 0000")?;
    }
    Ok(line)
}

/// Whether a text, all lines of which but the last are right, is right in this last one, the one of this number.
fn is_right_to(text: &[u8], line: usize) -> bool {
    match read_canon(text) {
        Err(CanonFault::Line(wrong)) => wrong != line,
        Ok(_) | Err(CanonFault::Trailing) => true,
    }
}

/// A line that could stand in place of the one of this number, the first that no canonical text has there.
pub fn line_in_place_of(
    alloc: Global,
    text: &[u8],
    line: usize,
) -> Result<Option<String>, AllocError> {
    let before = text_before(text, line);
    for index in 0..TRIED {
        let tried = tried_line(alloc, index)?;
        let mut changed = Vec::from_slice(alloc, before)?;
        changed.extend_from_slice(tried.as_str().as_bytes())?;
        changed.push(b'\n')?;
        if is_right_to(changed.as_slice(), line) {
            return Ok(Some(tried));
        }
    }
    Ok(None)
}
