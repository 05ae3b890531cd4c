//! The shapes that a drawing is made of.
ghost use Rattle.std.specs.Prelude.{◌≡◌, ◌++◌, OnOk};
ghost use Rattle.std.specs.String.{string_bytes};
ghost use Rattle.rt1553_draw.specs.Anchor.{anchored};

use crate::column::{Column, Mark};
use crate::cursor::ColumnCursor;
use crate::expected::Expected;
use crate::part::{Heading, MessageTitle};
use crate::piece::MessagePiece;
use crate::row::Row;
use crate::shown_line::ShownLine;
use crate::style::LIGHT_STYLE;
use drawing_boxes::{
    Caption, Digits, Frame, InOneLine, LANES_FROM, Lane, MARGIN, More, Rest, What,
};
use script_lines::write_event;
use std::alloc::AllocError;
use std::fmt;

/// A column as it is drawn: its row's frame, and how far right of the drawing's left it begins.
#[derive(Clone, Copy)]
struct Place {
    frame: Frame,
    left: u32,
    width: u32,
}

impl Place {
    /// How far right of the drawing's left the column has its middle.
    fn middle(self) -> u32 {
        self.left.saturating_add(self.width / 2)
    }
}

/// The classes of a box: what it is, of a status word the colour of its set bits, and whether another answer is stated.
#[derive(Clone, Copy)]
struct BoxClass {
    caption: Caption,
    differs: bool,
}

impl fmt::Display for BoxClass {
    fn fmt<W: fmt::Write>(&self, f: &mut fmt::Formatter<W>) -> fmt::Result {
        let class = self.caption.class();
        let bits = self.caption.bits_class();
        write!(f, "box {class}")?;
        if !bits.is_empty() {
            write!(f, " {bits}")?;
        }
        if self.differs {
            write!(f, " differing")?;
        }
        Ok(())
    }
}

/// A line of text of a box.
fn push_text<T: fmt::Display>(
    text: &mut String,
    place: Place,
    top: u32,
    class: &str,
    line: &T,
) -> Result<(), AllocError> {
    let middle = place.middle();
    writeln!(
        text,
        "<text class=\"{class}\" x=\"{middle}\" y=\"{top}\">{line}</text>"
    )
}

/// The lines of a box, which begins so far below the drawing's top.
fn push_lines(
    text: &mut String,
    place: Place,
    top: u32,
    caption: Caption,
) -> Result<(), AllocError> {
    let count = caption.lines();
    let line = |index: u32| place.frame.line_in_box(index, count).saturating_add(top);
    push_text(text, place, line(0), "what", &What(caption))?;
    if caption.has_more() {
        push_text(text, place, line(1), "what", &More(caption))?;
    }
    if caption.has_rest() {
        push_text(text, place, line(2), "what", &Rest(caption))?;
    }
    if caption.has_digits() {
        push_text(
            text,
            place,
            line(count.saturating_sub(1)),
            "digits",
            &Digits(caption),
        )?;
    }
    Ok(())
}

/// A box with its lines, and a title that says in one line what it is.
fn push_box(
    text: &mut String,
    place: Place,
    lane: Lane,
    caption: Caption,
    column: &Column,
) -> Result<(), AllocError> {
    let class = BoxClass {
        caption,
        differs: column.expected.is_some() && !caption.came(),
    };
    let left = place.left.saturating_add(MARGIN);
    let width = place.width.saturating_sub(2 * MARGIN);
    let height = place.frame.box_height();
    let top = place.frame.lane_top(lane);
    let what = InOneLine(caption);
    text.push_str("<g role=\"img\"><title>")?;
    push_said(text, column)?;
    writeln!(
        text,
        ", {what}</title><rect class=\"{class}\" x=\"{left}\" y=\"{top}\" width=\"{width}\" height=\"{height}\"/>"
    )?;
    push_lines(text, place, top, caption)?;
    text.push_str("</g>\n")
}

/// The event of a column, behind the number of its line.
fn push_event_line(text: &mut String, column: &Column) -> Result<(), AllocError> {
    let line = column.line.number;
    let event = write_event(&column.of.event);
    let event = event.as_str();
    write!(text, "line {line}: {event}")
}

/// What the script and the transcript say of a column.
fn push_said(text: &mut String, column: &Column) -> Result<(), AllocError> {
    push_event_line(text, column)?;
    let answer = column.answer.as_str();
    if !answer.is_empty() {
        write!(text, ", {answer}")?;
    }
    Ok(())
}

/// A gap on a bus.
fn push_gap(
    text: &mut String,
    place: Place,
    lane: Lane,
    column: &Column,
) -> Result<(), AllocError> {
    let middle = place.middle();
    let left = place.left;
    let width = place.width;
    let height = place.frame.box_height();
    let top = place.frame.lane_top(lane);
    let bottom = top.saturating_add(height);
    text.push_str("<g role=\"img\"><title>")?;
    push_event_line(text, column)?;
    writeln!(
        text,
        "</title><rect class=\"area\" x=\"{left}\" y=\"{top}\" width=\"{width}\" height=\"{height}\"/><line class=\"gap\" x1=\"{middle}\" y1=\"{top}\" x2=\"{middle}\" y2=\"{bottom}\"/></g>"
    )
}

/// A slot in which nothing is sent.
fn push_silence(text: &mut String, place: Place, column: &Column) -> Result<(), AllocError> {
    let middle = place.middle();
    let top = place.frame.middle();
    text.push_str("<g role=\"img\"><title>")?;
    push_event_line(text, column)?;
    writeln!(
        text,
        ", nothing is sent</title><circle class=\"silence\" cx=\"{middle}\" cy=\"{top}\" r=\"3\"/></g>"
    )
}

/// What a script states in place of an answer: a box beside what is drawn of that.
fn push_expected(
    text: &mut String,
    place: Place,
    column: &Column,
    expected: &Expected,
) -> Result<(), AllocError> {
    let lane = match column.mark {
        Mark::Box(lane, _) | Mark::Gap(lane) => lane,
        Mark::Silence => Lane::A,
    };
    let top = place.frame.lane_top(lane);
    let height = place.frame.box_height();
    let begin = place.left.saturating_add(place.width);
    let beside = Place {
        left: begin,
        width: expected.width,
        ..place
    };
    let left = begin.saturating_add(MARGIN);
    let width = expected.width.saturating_sub(2 * MARGIN);
    let whole = expected.whole.as_str();
    let number = column.line.number;
    writeln!(
        text,
        "<g role=\"img\"><title>expected at line {number}: {whole}</title><rect class=\"box expected\" x=\"{left}\" y=\"{top}\" width=\"{width}\" height=\"{height}\"/>"
    )?;
    let line = |index: u32| place.frame.line_in_box(index, 2).saturating_add(top);
    push_text(text, beside, line(0), "what", &Expected::HEADING)?;
    push_text(text, beside, line(1), "digits", &expected.short.as_str())?;
    text.push_str("</g>\n")
}

/// What stands on a bus in a column, or in its place.
fn push_mark(text: &mut String, place: Place, column: &Column) -> Result<(), AllocError> {
    match column.mark {
        Mark::Box(lane, caption) => push_box(text, place, lane, caption, column),
        Mark::Gap(lane) => push_gap(text, place, lane, column),
        Mark::Silence => push_silence(text, place, column),
    }
}

/// What gives an element the anchor of a line.
fn push_anchor(text: &mut String, line: u64) -> Result<(), AllocError>
    ensures { OnOk result (string_bytes text.new ≡ string_bytes text.old ++ anchored line) }
{
    text.push_str(" id=\"line-")?;
    write!(text, "{line}")?;
    text.push_str("\"")
}

/// The number of a line; where anchors are asked for, its first event has one.
fn push_number(
    text: &mut String,
    place: Place,
    line: ShownLine,
    has_anchors: bool,
) -> Result<(), AllocError> {
    let middle = place.middle();
    let top = place.frame.numbers();
    text.push_str("<text")?;
    if has_anchors && line.is_first {
        push_anchor(text, line.number)?;
    }
    let line = line.number;
    writeln!(
        text,
        " class=\"digits number\" x=\"{middle}\" y=\"{top}\">{line}</text>"
    )
}

/// A column: the number of its line, what stands on a bus, and what is handed over.
fn push_column(
    text: &mut String,
    place: Place,
    column: &Column,
    has_anchors: bool,
) -> Result<(), AllocError> {
    push_number(text, place, column.line, has_anchors)?;
    push_mark(text, place, column)?;
    if let Some(expected) = &column.expected {
        push_expected(text, place, column, expected)?;
    }
    let place = Place {
        width: column.handed_width,
        ..place
    };
    match column.handed {
        Some(caption) => push_box(text, place, Lane::Subsystem, caption, column),
        None => Ok(()),
    }
}

/// The columns of a piece, the first of which begins here.
fn push_columns(
    text: &mut String,
    frame: Frame,
    left: u32,
    piece: MessagePiece<'_>,
) -> Result<(), AllocError> {
    let mut cursor = ColumnCursor::at(left);
    for column in piece.columns {
        let place = Place {
            frame,
            left: cursor.begin_of(column),
            width: column.width,
        };
        push_column(text, place, column, piece.has_anchors)?;
        cursor = cursor.after(column);
    }
    Ok(())
}

/// A piece of a message, which begins here: an edge, its name, and its columns.
fn push_piece(
    text: &mut String,
    frame: Frame,
    left: u32,
    piece: MessagePiece<'_>,
) -> Result<(), AllocError> {
    let part = piece.part;
    let heading = Heading {
        number: part.number,
        is_first: piece.is_first,
    };
    let edge = if piece.is_first { "edge" } else { "edge fold" };
    let summary = MessageTitle(part);
    let name_left = left.saturating_add(2 * MARGIN);
    let names = frame.names();
    let top = frame.top;
    let bottom = frame.bottom();
    write!(
        text,
        "<g class=\"message\" role=\"img\"><title>{summary}</title><line class=\"{edge}\" x1=\"{left}\" y1=\"{top}\" x2=\"{left}\" y2=\"{bottom}\"/><text class=\"name\" x=\"{name_left}\" y=\"{names}\">{heading}"
    )?;
    if let (true, Some(name)) = (piece.is_first, &part.name) {
        write!(text, " {}", name.short.as_str())?;
    }
    text.push_str("</text>\n")?;
    push_columns(text, frame, name_left, piece)?;
    text.push_str("</g>\n")
}

/// The name and the line of a lane that ends here.
fn push_lane(
    text: &mut String,
    frame: Frame,
    right: u32,
    lane: Lane,
    name: &str,
) -> Result<(), AllocError> {
    let middle = frame.lane_top(lane).saturating_add(frame.box_height() / 2);
    let name_top = middle.saturating_add(MARGIN);
    writeln!(
        text,
        "<line class=\"lane\" x1=\"{LANES_FROM}\" y1=\"{middle}\" x2=\"{right}\" y2=\"{middle}\"/><text class=\"name\" x=\"{MARGIN}\" y=\"{name_top}\">{name}</text>"
    )
}

/// The names and the lines of the lanes that a row has.
fn push_lanes(text: &mut String, frame: Frame, right: u32) -> Result<(), AllocError> {
    let numbers = frame.numbers();
    writeln!(
        text,
        "<text class=\"name\" x=\"{MARGIN}\" y=\"{numbers}\">line</text>"
    )?;
    if frame.lanes.a {
        push_lane(text, frame, right, Lane::A, "bus A")?;
    }
    if frame.lanes.b {
        push_lane(text, frame, right, Lane::B, "bus B")?;
    }
    if frame.lanes.subsystem {
        push_lane(text, frame, right, Lane::Subsystem, "subsystem")?;
    }
    Ok(())
}

/// The pieces of a row.
fn push_pieces(text: &mut String, row: Row, pieces: &[MessagePiece<'_>]) -> Result<(), AllocError> {
    let mut left = LANES_FROM;
    for piece in pieces.iter().skip(row.first).take(row.count) {
        push_piece(text, row.frame, left, *piece)?;
        left = left.saturating_add(piece.width());
    }
    Ok(())
}

/// A row: its lanes and its pieces, which are some of these.
fn push_row(text: &mut String, row: Row, pieces: &[MessagePiece<'_>]) -> Result<(), AllocError> {
    text.push_str("<g class=\"row\">\n")?;
    push_lanes(text, row.frame, row.right())?;
    push_pieces(text, row, pieces)?;
    text.push_str("</g>\n")
}

/// Rows of pieces.
pub fn push_rows(
    text: &mut String,
    rows: &[Row],
    pieces: &[MessagePiece<'_>],
) -> Result<(), AllocError> {
    for row in rows {
        push_row(text, *row, pieces)?;
    }
    Ok(())
}

/// The begin of a drawing of this size, with what it is called.
pub fn push_head<T: fmt::Display>(
    text: &mut String,
    right: u32,
    bottom: u32,
    title: &T,
) -> Result<(), AllocError> {
    let width = right.saturating_add(MARGIN);
    let height = bottom.saturating_add(MARGIN);
    writeln!(
        text,
        "<svg xmlns=\"http://www.w3.org/2000/svg\" role=\"img\" aria-label=\"{title}\" viewBox=\"0 0 {width} {height}\" width=\"{width}\" height=\"{height}\"><title>{title}</title>"
    )?;
    writeln!(
        text,
        "<rect class=\"paper\" width=\"{width}\" height=\"{height}\"/>"
    )
}

/// What stands at the begin of a drawing of its own: how it looks, in the dark too.
pub fn push_style(text: &mut String) -> Result<(), AllocError> {
    let style = LIGHT_STYLE;
    writeln!(text, "<style>{style}</style>")
}
