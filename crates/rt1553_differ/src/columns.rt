//! Columns of a text.
use std::alloc::AllocError;
use unicode_width::UnicodeWidthStr;

/// Gives how wide a column has to be for this text in it, in columns of a terminal.
pub fn wider(width: usize, text: &str) -> usize {
    text.width().max(width)
}

/// Adds a text to a line, and blanks up to the next column.
pub fn push_column(line: &mut String, text: &str, width: usize) -> Result<(), AllocError> {
    line.push_str(text)?;
    for _ in text.width()..width {
        line.push_str(" ")?;
    }
    Ok(())
}
