//! Coverage as a text.
use crate::lines::{CoverageLine, illegal_lines, legal_lines};
use crate::places::{come_in, done_in};
use crate::table::CoverageTable;
use message_names::MessageNames;
use std::alloc::{AllocError, Global};

/// How wide the first two columns are.
#[derive(Clone, Copy)]
struct CoverageWidths {
    message: usize,
    outcome: usize,
}

/// Gives columns that are wide enough for these lines too.
fn wide_enough(widths: CoverageWidths, lines: &[CoverageLine]) -> CoverageWidths {
    let mut widths = widths;
    for line in lines {
        widths.message = widths.message.max(line.message.len());
        widths.outcome = widths.outcome.max(line.outcome.len());
    }
    widths
}

/// Adds a text of ASCII, and blanks up to the next column.
fn push_padded(text: &mut String, column: &str, width: usize) -> Result<(), AllocError> {
    text.push_str(column)?;
    for _ in column.len()..width {
        text.push_str(" ")?;
    }
    Ok(())
}

/// Writes lines in columns. No line ends with a blank.
fn push_lines(
    text: &mut String,
    widths: CoverageWidths,
    lines: &[CoverageLine],
) -> Result<(), AllocError> {
    for line in lines {
        push_padded(text, line.message.as_str(), widths.message)?;
        text.push_str("  ")?;
        if line.names.is_empty() {
            text.push_str(line.outcome.as_str())?;
        } else {
            push_padded(text, line.outcome.as_str(), widths.outcome)?;
            text.push_str(" ")?;
            text.push_str(line.names.as_str())?;
        }
        text.push_str("\n")?;
    }
    Ok(())
}

/// What a recording shows, as a text that a person reads: a line for each row of legal messages, one for each illegal message that came,
/// and how many came and were done. With the names of messages, where there are names.
pub fn coverage_text(
    alloc: Global,
    table: &CoverageTable,
    names: Option<&MessageNames>,
) -> Result<String, AllocError> {
    let legal = legal_lines(alloc, table, names)?;
    let illegal = illegal_lines(alloc, table, names)?;
    let none = CoverageWidths {
        message: 0,
        outcome: 0,
    };
    let widths = wide_enough(wide_enough(none, legal.as_slice()), illegal.as_slice());
    let mut text = String::new(alloc);
    push_lines(&mut text, widths, legal.as_slice())?;
    if !illegal.is_empty() {
        text.push_str("\nillegal\n")?;
        push_lines(&mut text, widths, illegal.as_slice())?;
    }
    let came = come_in(table.legal.as_slice());
    let done = done_in(table.legal.as_slice());
    let all = table.legal.len();
    writeln!(text, "\nlegal messages: {came} of {all} came, {done} done")?;
    writeln!(text, "illegal messages: {} came", table.illegal.len())?;
    Ok(text)
}
