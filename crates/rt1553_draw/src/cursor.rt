//! Where columns stand one behind another.
use crate::column::Column;

/// How far columns have come, from the drawing's left. The box of what is handed over may be wider than its column, and goes on
/// below what follows on the buses.
#[derive(Clone, Copy)]
pub struct ColumnCursor {
    /// Where the next column may begin.
    left: u32,
    /// From where on the subsystem's lane is free.
    free: u32,
}

impl ColumnCursor {
    /// No column yet.
    pub fn at(left: u32) -> ColumnCursor {
        ColumnCursor { left, free: left }
    }

    /// Where a column begins: behind the last one, and behind the last box of the subsystem's lane if it has one there too.
    pub fn begin_of(self, column: &Column) -> u32 {
        if column.is_in_subsystem() {
            self.left.max(self.free)
        } else {
            self.left
        }
    }

    /// With one column more.
    pub fn after(self, column: &Column) -> ColumnCursor {
        let begin = self.begin_of(column);
        ColumnCursor {
            left: begin.saturating_add(column.whole_width()),
            free: self.free.max(begin.saturating_add(column.handed_width)),
        }
    }

    /// Where all of them end.
    pub fn end(self) -> u32 {
        self.left.max(self.free)
    }
}
