//! Rows of messages: as many as have room one after another.
use crate::piece::MessagePiece;
use drawing_boxes::{Frame, LANES_FROM, LANES_WIDTH, Lanes, MARGIN};
use std::alloc::{AllocError, Global};

/// A row: so many pieces of messages from one on, and what they need.
#[derive(Clone, Copy)]
pub struct Row {
    pub first: usize,
    pub count: usize,
    pub frame: Frame,
    width: u32,
}

impl Row {
    /// An empty row, that begins so far below the drawing's top.
    fn empty(first: usize, top: u32) -> Row {
        Row {
            first,
            count: 0,
            frame: Frame {
                top,
                lanes: Lanes::NONE,
                lines: 1,
            },
            width: 0,
        }
    }

    /// The row with one piece more.
    fn with(self, piece: &MessagePiece<'_>) -> Row {
        Row {
            count: self.count.saturating_add(1),
            frame: Frame {
                lanes: self.frame.lanes.and(piece.lanes()),
                lines: self.frame.lines.max(piece.lines()),
                ..self.frame
            },
            width: self.width.saturating_add(piece.width()),
            ..self
        }
    }

    /// The row below this one, still empty.
    fn below(self) -> Row {
        Row::empty(
            self.first.saturating_add(self.count),
            self.frame.bottom().saturating_add(2 * MARGIN),
        )
    }

    /// How far right of the drawing's left the row ends.
    pub fn right(self) -> u32 {
        self.width.saturating_add(LANES_FROM)
    }
}

/// The rows of pieces of messages, from the first row's top on: a row has as many as there is room for, and at least one.
pub fn rows_of(alloc: Global, pieces: &[MessagePiece<'_>]) -> Result<Vec<Row>, AllocError> {
    let mut rows = Vec::new(alloc);
    let mut row = Row::empty(0, MARGIN);
    for piece in pieces {
        let is_full = row.width.saturating_add(piece.width()) > LANES_WIDTH;
        if row.count > 0 && is_full {
            rows.push(row)?;
            row = row.below();
        }
        row = row.with(piece);
    }
    rows.push(row)?;
    Ok(rows)
}

/// How far right the widest of some rows ends.
pub fn right_of(rows: &[Row]) -> u32 {
    let mut right = 0;
    for row in rows {
        right = row.right().max(right);
    }
    right
}

/// How far below the drawing's top the last of some rows ends.
pub fn bottom_of(rows: &[Row]) -> u32 {
    match rows {
        [.., row] => row.frame.bottom(),
        [] => 0,
    }
}
