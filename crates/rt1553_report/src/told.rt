//! How differences are told, and names.
ghost use Rattle.std.specs.Prelude.{ℕ, List, OnOk};
ghost use Rattle.std.specs.String.{string_bytes};
ghost use Rattle.rt1553_report.specs.Shown.{StandsFor};
ghost use Rattle.rt1553_report.specs.Pieces.{AddsPiece};

use crate::fault::{ReplyShown, slot_fault};
use drawing_boxes::push_escaped;
use message_names::quoted;
use rt1553_files::escaped;
use rt1553_verify::WrongAnswer;
use std::alloc::{AllocError, Global};

/// A line of a transcript as it is printed, without its line feed; None where there is none.
pub fn answer_told(alloc: Global, answer: &[u8]) -> Result<Option<String>, AllocError> {
    match answer {
        [] => Ok(None),
        [line @ .., b'\n'] => Ok(Some(escaped(alloc, line)?)),
        line => Ok(Some(escaped(alloc, line)?)),
    }
}

/// Writes a line of a transcript, or that there is none.
fn push_answer(alloc: Global, text: &mut String, answer: &[u8]) -> Result<(), AllocError> {
    match answer_told(alloc, answer)? {
        Some(line) => text.push_str(line.as_str()),
        None => text.push_str("nothing"),
    }
}

/// In which words a difference is told.
#[derive(Clone, Copy, Debug, PartialEq, Eq)]
pub enum Wording {
    /// A test expects an answer, and another came.
    Test,
    /// A word, or none, was recorded of a unit, and the terminal sends another.
    Recording,
}

/// What is told beside a difference.
#[derive(Clone, Copy)]
pub struct Beside<'a> {
    /// The name of its message, if it has one.
    pub name: Option<&'a str>,
    /// In a recording: its message, in the words of a test bench.
    pub message: Option<&'a str>,
    /// The rule under which its event stands, or its time in a recording.
    pub rule: Option<&'a str>,
    /// In a recording: what it shows of the reply.
    pub reply: ReplyShown<'a>,
}

/// Whether this is a decimal number.
fn are_digits(text: &str) -> bool {
    !text.is_empty() && text.chars().all(|c| c.is_ascii_digit())
}

/// Whether the text of a comment is a time: a number, with a fraction or without.
fn is_time(text: &str) -> bool {
    match text.split_once('.') {
        Some((whole, fraction)) => are_digits(whole) && are_digits(fraction),
        None => are_digits(text),
    }
}

/// Writes what was expected and what came.
fn push_answers(
    alloc: Global,
    text: &mut String,
    wrong: &WrongAnswer,
    words: (&str, &str),
) -> Result<(), AllocError> {
    text.push_str(words.0)?;
    push_answer(alloc, text, wrong.expected.as_slice())?;
    text.push_str(words.1)?;
    push_answer(alloc, text, wrong.came.as_slice())
}

/// Writes behind a fault to which message it belongs, unless the name of that was told.
fn push_message(text: &mut String, fault: &str, beside: Beside<'_>) -> Result<(), AllocError> {
    match (beside.name, beside.message) {
        (None, Some(message)) => {
            text.push_str(if fault == "no reply" { " to " } else { ", in " })?;
            text.push_str(message)
        }
        _ => Ok(()),
    }
}

/// Writes what is wrong with a unit, in which message, and when.
fn push_fault(
    alloc: Global,
    text: &mut String,
    wrong: &WrongAnswer,
    beside: Beside<'_>,
) -> Result<(), AllocError> {
    let (recorded, sent) = (wrong.expected.as_slice(), wrong.came.as_slice());
    let fault = slot_fault(alloc, recorded, sent, beside.reply)?;
    text.push_str(fault.as_str())?;
    push_message(text, fault.as_str(), beside)?;
    match beside.rule {
        Some(time) if is_time(time) => write!(text, " at {time}"),
        _ => Ok(()),
    }
}

/// Writes behind a difference the comment beside it, if there is one that was not told before.
fn push_comment(text: &mut String, wording: Wording, rule: Option<&str>) -> Result<(), AllocError> {
    match rule {
        Some(rule) if wording == Wording::Test || !is_time(rule) => write!(text, " # {rule}"),
        _ => Ok(()),
    }
}

/// What follows the number of the line in which an event is not answered as stated: the name of its message, if it has one, and what
/// differs; and what is told beside it. One line.
pub fn difference_told(
    alloc: Global,
    wrong: &WrongAnswer,
    wording: Wording,
    beside: Beside<'_>,
) -> Result<String, AllocError> {
    let mut text = String::new(alloc);
    if let Some(name) = beside.name {
        text.push_str(quoted(alloc, name)?.as_str())?;
        text.push_str(": ")?;
    }
    let words = match wording {
        Wording::Test => ("expected ", ", came "),
        Wording::Recording => {
            push_fault(alloc, &mut text, wrong, beside)?;
            (": recorded ", "; the terminal sends ")
        }
    };
    push_answers(alloc, &mut text, wrong, words)?;
    push_comment(&mut text, wording, beside.rule)?;
    Ok(text)
}

/// Writes a text that comes from outside into XML, as it is printed: on one line, and escaped.
pub fn push_shown(alloc: Global, text: &mut String, bytes: &[u8]) -> Result<(), AllocError>
    ensures { OnOk result ((written : List ℕ) × StandsFor bytes.now written × AddsPiece (string_bytes text.old) (string_bytes text.new) written) }
{
    let shown = escaped(alloc, bytes)?;
    push_escaped(text, shown.as_str())
}

/// Writes a piece of a text, as it stands.
pub fn push_markup(page: &mut String, markup: &str) -> Result<(), AllocError>
    ensures { OnOk result (AddsPiece (string_bytes page.old) (string_bytes page.new) markup.now) }
{
    page.push_str(markup)
}
