//! Drawings of a run: as one, or message by message.
ghost use Rattle.std.specs.Prelude.{◌≡◌, ◌≢◌, Some, None, OnOk, IfOk, IfErr, map, All};
ghost use Rattle.script_lines.specs.Text.{lines_of};
ghost use Rattle.bus_script.specs.Reading.{reading};
ghost use Rattle.drawing_boxes.specs.Refused.{refusal};
ghost use Rattle.rt1553_draw.specs.inner.Drawn.{drawn_in};
ghost use Rattle.rt1553_draw.specs.inner.Marked.{IsMarkedBy};

use crate::expected::StatedAnswer;
use crate::part::{DrawnMessage, MessageTitle};
use crate::piece::pieces_of;
use crate::plan::{plan, plan_at};
use crate::row::{bottom_of, right_of, rows_of};
use crate::shape::{push_head, push_rows, push_style};
use crate::shown_line::DrawnScript;
use bus_legal::Normal;
use drawing_boxes::DrawFault;
use message_names::MessageNames;
use std::alloc::{AllocError, Global};
use std::fmt;

/// How many messages are shown unfolded at most.
const UNFOLDED: usize = 8;

/// How many messages are folded together, where there are more.
const FOLDED_TOGETHER: usize = 50;

/// Of how many events at which another answer is stated the messages are drawn at most.
pub const MOST_STATED: usize = 1024;

/// What a drawing of a run is called.
#[derive(Clone, Copy)]
struct RunTitle {
    messages: usize,
    address: u8,
}

impl fmt::Display for RunTitle {
    fn fmt<W: fmt::Write>(&self, f: &mut fmt::Formatter<W>) -> fmt::Result {
        let address = self.address;
        match self.messages {
            1 => write!(f, "A run of 1 message, and what terminal {address} answers"),
            messages => write!(
                f,
                "A run of {messages} messages, and what terminal {address} answers"
            ),
        }
    }
}

/// Draws messages in rows.
fn drawing_of(
    alloc: Global,
    normal: &Normal,
    parts: &[DrawnMessage],
) -> Result<String, AllocError> {
    let pieces = pieces_of(alloc, parts, false)?;
    let rows = rows_of(alloc, pieces.as_slice())?;
    let rows = rows.as_slice();
    let title = RunTitle {
        messages: parts.len(),
        address: normal.setup().address,
    };
    let mut text = String::new(alloc);
    push_head(&mut text, right_of(rows), bottom_of(rows), &title)?;
    push_style(&mut text)?;
    push_rows(&mut text, rows, pieces.as_slice())?;
    text.push_str("</svg>\n")?;
    Ok(text)
}

/// Draws what comes to a terminal from power-up, by a script, and what it answers: an SVG in which each word is a box in
/// the lane of its bus, and what the subsystem gives and is handed over a box in its own lane. Comments are left aside, also
/// those that state answers. Where there are names, each message has its name. A script that has a fault, for which its run ends, and one of
/// over 4,096 events are refused.
pub fn draw(
    alloc: Global,
    normal: &Normal,
    names: Option<&MessageNames>,
    script: DrawnScript<'_>,
) -> Result<String, DrawFault>
    ensures drawn { OnOk result (refusal (reading 0 (lines_of script.entry.text.now)) ≡ None) }
    ensures refused { IfErr result (λ fault. fault ≢ DrawFault.Memory → refusal (reading 0 (lines_of script.entry.text.now)) ≡ Some fault) }
{
    let parts = plan(alloc, normal, names, script)?;
    Ok(drawing_of(alloc, normal, parts.as_slice())?)
}

/// How messages stand on a page.
#[derive(Clone, Copy)]
struct FoldLook {
    /// Whether each is unfolded.
    is_open: bool,
    /// Whether the first event of each line has an anchor.
    has_anchors: bool,
}

/// Draws a message, to be unfolded below its summary.
fn push_fold(
    alloc: Global,
    text: &mut String,
    part: &DrawnMessage,
    look: FoldLook,
) -> Result<(), AllocError> {
    let open = if look.is_open { " open=\"open\"" } else { "" };
    let summary = MessageTitle(part);
    let pieces = pieces_of(alloc, std::slice::from_ref(part), look.has_anchors)?;
    let rows = rows_of(alloc, pieces.as_slice())?;
    let rows = rows.as_slice();
    writeln!(
        text,
        "<details{open}><summary>{summary}</summary><div class=\"run\">"
    )?;
    push_head(text, right_of(rows), bottom_of(rows), &summary)?;
    push_rows(text, rows, pieces.as_slice())?;
    text.push_str("</svg></div></details>\n")
}

/// Draws messages, each to be unfolded.
fn push_folds(
    alloc: Global,
    text: &mut String,
    parts: &[DrawnMessage],
    look: FoldLook,
) -> Result<(), AllocError> {
    for part in parts {
        push_fold(alloc, text, part, look)?;
    }
    Ok(())
}

/// Draws messages that are folded together.
fn push_chunk(
    alloc: Global,
    text: &mut String,
    parts: &[DrawnMessage],
    look: FoldLook,
) -> Result<(), AllocError> {
    if let [first, .., last] = parts {
        let from = first.number;
        let to = last.number;
        let from_line = first.first_line();
        let to_line = last.last_line();
        writeln!(
            text,
            "<details><summary>messages {from} to {to}, lines {from_line} to {to_line}</summary>"
        )?;
        push_folds(alloc, text, parts, look)?;
        return text.push_str("</details>\n");
    }
    push_folds(alloc, text, parts, look)
}

/// Draws many messages, so many folded together.
fn push_chunks(
    alloc: Global,
    text: &mut String,
    parts: &[DrawnMessage],
    look: FoldLook,
) -> Result<(), AllocError> {
    for chunk in parts.chunks(FOLDED_TOGETHER) {
        push_chunk(alloc, text, chunk, look)?;
    }
    Ok(())
}

/// Draws messages one by one, each to be unfolded: a few are unfolded, and many folded together.
fn folds_of(
    alloc: Global,
    parts: &[DrawnMessage],
    has_anchors: bool,
) -> Result<String, AllocError> {
    let look = FoldLook {
        is_open: parts.len() <= UNFOLDED,
        has_anchors,
    };
    let mut text = String::new(alloc);
    if parts.len() > FOLDED_TOGETHER {
        push_chunks(alloc, &mut text, parts, look)?;
    } else {
        push_folds(alloc, &mut text, parts, look)?;
    }
    Ok(text)
}

/// Draws the same message by message, for a page: each stands below a line that says what it is, and can be folded. Line 12 of the file
/// has the anchor `line-12` at its first event, so a page has one such drawing at most.
pub fn draw_folded(
    alloc: Global,
    normal: &Normal,
    names: Option<&MessageNames>,
    script: DrawnScript<'_>,
) -> Result<String, DrawFault>
    ensures drawn { OnOk result (refusal (reading 0 (lines_of script.entry.text.now)) ≡ None) }
    ensures refused { IfErr result (λ fault. fault ≢ DrawFault.Memory → refusal (reading 0 (lines_of script.entry.text.now)) ≡ Some fault) }
{
    let parts = plan(alloc, normal, names, script)?;
    Ok(folds_of(alloc, parts.as_slice(), true)?)
}

/// The lines for whose events something is stated.
fn lines_of_stated(alloc: Global, stated: &[StatedAnswer]) -> Result<Vec<u64>, AllocError>
    ensures { IfOk result (λ lines. lines.items ≡ map (λ answer. answer.line) stated.now) }
{
    let mut lines = Vec::new(alloc);
    for answer in stated {
        lines.push(answer.line)?;
    }
    Ok(lines)
}

/// Messages with what is stated for their lines.
fn marked_messages(
    alloc: Global,
    parts: Vec<DrawnMessage>,
    stated: &[StatedAnswer],
) -> Result<Vec<DrawnMessage>, AllocError>
    ensures drawn { IfOk result (λ marked. drawn_in marked.items ≡ drawn_in parts.items) }
    ensures marked { IfOk result (λ marked. All (λ part. All (IsMarkedBy stated.now) part.columns.items) marked.items) }
{
    let mut marked = Vec::new(alloc);
    for part in parts {
        marked.push(part.marked(alloc, stated)?)?;
    }
    Ok(marked)
}

/// Draws, like `draw_folded` but without anchors and of a script of any number of events, only the messages with an event for which
/// another answer is stated, by the numbers of their lines; of over 1,024 of these those of the first. Beside the answer stands what was stated.
pub fn draw_stated(
    alloc: Global,
    normal: &Normal,
    names: Option<&MessageNames>,
    script: DrawnScript<'_>,
    stated: &[StatedAnswer],
) -> Result<String, DrawFault>
    ensures drawn { OnOk result ((reading 0 (lines_of script.entry.text.now)).fault ≡ None) }
    ensures refused { IfErr result (λ fault. fault ≢ DrawFault.Memory → refusal (reading 0 (lines_of script.entry.text.now)) ≡ Some fault) }
{
    let stated = &stated[..stated.len().min(MOST_STATED)];
    let lines = lines_of_stated(alloc, stated)?;
    let parts = plan_at(alloc, normal, names, script, lines.as_slice())?;
    let marked = marked_messages(alloc, parts, stated)?;
    Ok(folds_of(alloc, marked.as_slice(), false)?)
}
