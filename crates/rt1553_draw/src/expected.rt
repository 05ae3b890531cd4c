//! What a script states in place of an answer that is drawn.
ghost use Rattle.std.specs.Prelude.{◌≡◌, ◌==◌, IfOk, option_map, string_bytes, [], Option};
ghost use Rattle.std.specs.List.{find};
ghost use Rattle.drawing_boxes.specs.Escaped.{Escapes};
ghost use Rattle.rt1553_draw.specs.inner.Marked.{IsExpectedOf};

use drawing_boxes::{MARGIN, digits_width_of, in_xml, width_of};
use std::alloc::{AllocError, Global};

/// How many characters of what was stated a drawing has at most.
const SHORT: usize = 24;

/// How far text stands from the left and the right of its box.
const PADDING: u32 = 6;

/// An answer that a script states, and that its terminal does not give.
#[derive(Drop)]
pub struct StatedAnswer {
    /// The number of its event's line, from 1.
    pub line: u64,
    /// The line of a transcript, without its line feed, or that there is none.
    pub text: String,
}

/// What was stated, as it stands in XML.
#[derive(Drop)]
pub struct Expected {
    /// All of it, for titles.
    pub whole: String,
    /// What stands in the drawing: cut, where it is long.
    pub short: String,
    /// How wide its box is, with what stands around it.
    pub width: u32,
}

/// A text, cut where it is long.
fn cut(alloc: Global, text: &str) -> Result<String, AllocError> {
    let mut short = String::new(alloc);
    for (index, c) in text.chars().enumerate() {
        if index == SHORT {
            short.push_str(" ..")?;
            return Ok(short);
        }
        short.push(c)?;
    }
    Ok(short)
}

impl Expected {
    /// What stands above what was stated.
    pub const HEADING: &'static str = "expected";

    /// What was stated, as it is drawn.
    fn of(alloc: Global, text: &str) -> Result<Expected, AllocError>
        ensures { IfOk result (λ expected. Escapes text.now [] (string_bytes expected.whole)) }
    {
        let short = cut(alloc, text)?;
        let width = digits_width_of(&short)
            .max(width_of(&Expected::HEADING))
            .saturating_add(2 * (PADDING + MARGIN));
        Ok(Expected {
            whole: in_xml(alloc, text)?,
            short: in_xml(alloc, short.as_str())?,
            width,
        })
    }
}

/// The first answer that is stated for the event of a line.
fn stated_at(stated: &[StatedAnswer], line: u64) -> Option<&StatedAnswer>
    ensures { option_map (λ answer. answer.now) result ≡ find (λ answer. answer.line == line) stated.now }
{
    for answer in stated {
        if answer.line == line {
            return Some(answer);
        }
    }
    None
}

/// What was stated for the event of a line, if something was.
pub fn expected_at(
    alloc: Global,
    stated: &[StatedAnswer],
    line: u64,
) -> Result<Option<Expected>, AllocError>
    ensures { IfOk result (IsExpectedOf (find (λ answer. answer.line == line) stated.now)) }
{
    match stated_at(stated, line) {
        Some(answer) => Ok(Some(Expected::of(alloc, answer.text.as_str())?)),
        None => Ok(None),
    }
}
