//! What of a message stands in one row: all of it, or some of its columns where it is wider than a row.
ghost use Rattle.std.specs.Prelude.{◌≡◌, ◌≤◌, ◌++◌, ◌∷◌, [], length, map, OnOk, IfOk, ℕ};
ghost use Rattle.rt1553_draw.specs.inner.Drawn.{drawn_of, drawn_in};
ghost use Rattle.rt1553_draw.specs.inner.Pieces.{shown_in, shown_by};

use crate::column::Column;
use crate::cursor::ColumnCursor;
use crate::part::{DrawnMessage, Heading};
use drawing_boxes::{LANES_WIDTH, Lanes, MARGIN, width_of};
use std::alloc::{AllocError, Global};

/// How wide the columns of a row are at most.
const ROOM: u32 = LANES_WIDTH - 4 * MARGIN;

/// Some columns of a message, one behind another.
#[derive(Clone, Copy)]
pub struct MessagePiece<'a> {
    pub part: &'a DrawnMessage,
    pub columns: &'a [Column],
    /// Whether the message begins with them.
    pub is_first: bool,
    /// Whether the first column of each line has an anchor.
    pub has_anchors: bool,
}

impl MessagePiece<'_> {
    /// How wide what stands above it is.
    fn heading_width(&self) -> u32 {
        if self.is_first {
            self.part.heading_width()
        } else {
            width_of(&Heading {
                number: self.part.number,
                is_first: false,
            })
        }
    }

    /// How wide it is.
    pub fn width(&self) -> u32 {
        let mut cursor = ColumnCursor::at(0);
        for column in self.columns {
            cursor = cursor.after(column);
        }
        cursor
            .end()
            .max(self.heading_width())
            .saturating_add(4 * MARGIN)
    }

    /// The lanes that it has something in.
    pub fn lanes(&self) -> Lanes {
        let mut lanes = Lanes::NONE;
        for column in self.columns {
            lanes = lanes.and(column.lanes());
        }
        lanes
    }

    /// How many lines its boxes have at most.
    pub fn lines(&self) -> u32 {
        let mut lines = 1;
        for column in self.columns {
            lines = column.lines().max(lines);
        }
        lines
    }
}

/// How many columns have room in a row: the first at least, if there is one.
fn fitting(columns: &[Column]) -> usize
    ensures some { 1 ≤ length columns.now → 1 ≤ result }
    ensures most { result ≤ length columns.now }
{
    let mut cursor = ColumnCursor::at(0);
    for (index, column) in columns.iter().enumerate() {
        cursor = cursor.after(column);
        if 0 < index && ROOM < cursor.end() {
            return index;
        }
    }
    columns.len()
}

/// Adds the pieces of a message: as few as have room, each with as many columns as have.
fn push_pieces<'a>(
    pieces: &mut Vec<MessagePiece<'a>>,
    part: &'a DrawnMessage,
    has_anchors: bool,
) -> Result<(), AllocError>
    ensures { OnOk result (shown_by pieces.new.items ≡ shown_by pieces.old.items ++ drawn_of part.now) }
{
    let mut rest = part.columns.as_slice();
    let mut is_first = true;
    while is_first || !rest.is_empty() {
        let (columns, more) = rest.split_at(fitting(rest));
        pieces.push(MessagePiece {
            part,
            columns,
            is_first,
            has_anchors,
        })?;
        rest = more;
        is_first = false;
    }
    Ok(())
}

/// What stands in rows of messages: each of their columns once, in order; with anchors where a page asks for them.
pub fn pieces_of(
    alloc: Global,
    parts: &[DrawnMessage],
    has_anchors: bool,
) -> Result<Vec<MessagePiece<'_>>, AllocError>
    ensures { IfOk result (λ pieces. shown_by pieces.items ≡ drawn_in parts.now) }
{
    let mut pieces = Vec::new(alloc);
    for part in parts {
        push_pieces(&mut pieces, part, has_anchors)?;
    }
    Ok(pieces)
}
