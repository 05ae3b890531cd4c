//! Where things stand in a row of a drawing, in its units. Time runs to the right.

/// How far right of a drawing's left the lanes begin, behind their names.
pub const LANES_FROM: u32 = 76;

/// How wide a row's lanes are at most, but where a single message is wider: so a row fits on a page of paper.
pub const LANES_WIDTH: u32 = 880;

/// How far a box stands from the edges of its column, and from the edge of a drawing.
pub const MARGIN: u32 = 4;

/// How far a line of text stands below the one before it.
const LINE_STEP: u32 = 16;

/// How far below its top a row's lanes begin, behind the names of messages and the numbers of lines.
const HEAD: u32 = 38;

/// What a row has a lane for.
#[derive(Clone, Copy)]
pub enum Lane {
    A,
    B,
    Subsystem,
}

/// The lanes that a row has.
#[derive(Clone, Copy)]
pub struct Lanes {
    pub a: bool,
    pub b: bool,
    pub subsystem: bool,
}

impl Lanes {
    pub const NONE: Lanes = Lanes {
        a: false,
        b: false,
        subsystem: false,
    };

    /// These and one more.
    pub fn with(self, lane: Lane) -> Lanes {
        match lane {
            Lane::A => Lanes { a: true, ..self },
            Lane::B => Lanes { b: true, ..self },
            Lane::Subsystem => Lanes {
                subsystem: true,
                ..self
            },
        }
    }

    /// Those of both.
    pub fn and(self, others: Lanes) -> Lanes {
        Lanes {
            a: self.a || others.a,
            b: self.b || others.b,
            subsystem: self.subsystem || others.subsystem,
        }
    }

    /// How many lanes stand above this one.
    fn above(self, lane: Lane) -> u32 {
        match lane {
            Lane::A => 0,
            Lane::B => u32::from(self.a),
            Lane::Subsystem => u32::from(self.a) + u32::from(self.b),
        }
    }

    /// How many lanes there are: at least one, for which there is room.
    fn count(self) -> u32 {
        let count = u32::from(self.a) + u32::from(self.b) + u32::from(self.subsystem);
        count.max(1)
    }
}

/// A row: how far below the drawing's top it begins, its lanes, and how many lines its boxes have.
#[derive(Clone, Copy)]
pub struct Frame {
    pub top: u32,
    pub lanes: Lanes,
    pub lines: u32,
}

impl Frame {
    /// How far below the drawing's top the names of messages stand.
    pub fn names(self) -> u32 {
        self.top.saturating_add(14)
    }

    /// How far below it the numbers of lines stand.
    pub fn numbers(self) -> u32 {
        self.top.saturating_add(30)
    }

    /// How high a box is.
    pub fn box_height(self) -> u32 {
        self.lines.saturating_mul(LINE_STEP).saturating_add(10)
    }

    /// How far one lane stands below the other.
    fn lane_step(self) -> u32 {
        self.box_height().saturating_add(10)
    }

    /// How far below the drawing's top the boxes of a lane begin.
    pub fn lane_top(self, lane: Lane) -> u32 {
        self.lanes
            .above(lane)
            .saturating_mul(self.lane_step())
            .saturating_add(self.top)
            .saturating_add(HEAD)
    }

    /// How far below it the first lane has its middle.
    pub fn middle(self) -> u32 {
        self.lane_top(Lane::A).saturating_add(self.box_height() / 2)
    }

    /// How far below the top of a box line `index` of `count` stands, from 0: the lines are in the middle of the box.
    pub fn line_in_box(self, index: u32, count: u32) -> u32 {
        let free = self.lines.saturating_sub(count);
        index
            .saturating_mul(LINE_STEP)
            .saturating_add(free.saturating_mul(LINE_STEP / 2))
            .saturating_add(17)
    }

    /// How far below the drawing's top the row ends.
    pub fn bottom(self) -> u32 {
        self.lanes
            .count()
            .saturating_mul(self.lane_step())
            .saturating_add(self.top)
            .saturating_add(HEAD)
    }
}
