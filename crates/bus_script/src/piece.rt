//! How much of a script was played.
ghost use Rattle.std.specs.Prelude.{◌≡◌, ◌≤◌, ◌+◌, ◌*◌};

/// How many lines and how many events were played. Their types differ so that a compiler keeps each in a register of its
/// own: two of a size it keeps together in a vector register, and adds to both in memory.
#[derive(Clone, Copy)]
pub struct Counts {
    pub lines: u32,
    pub events: u64,
}

/// Lines that stood first and were played: how many bytes they are with their line feeds, how many lines, and how many events.
#[derive(Clone, Copy)]
pub struct Piece {
    pub bytes: usize,
    pub lines: u32,
    pub events: u64,
}

impl Piece {
    /// No line.
    pub const NONE: Piece = Piece {
        bytes: 0,
        lines: 0,
        events: 0,
    };

    /// So many lines of this length, their line feeds not counted, each with an event.
    #[inline(always)]
    pub fn of(lines: usize, length: usize) -> Piece
        requires few { lines ≤ 1048576 }
        requires short { length ≤ 64 }
        ensures { result ≡ record { bytes = (length + 1) * lines; lines = lines; events = lines } }
    {
        Piece {
            bytes: (length + 1) * lines,
            lines: lines as u32,
            events: lines as u64,
        }
    }
}
