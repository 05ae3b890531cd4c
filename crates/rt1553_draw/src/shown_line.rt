//! The lines of events as drawings show them.
ghost use Rattle.std.specs.Prelude.{◌≡◌, ◌==◌, not};
ghost use Rattle.std.specs.Option.{option_map};
ghost use Rattle.refused_lines.specs.Sources.{line_in_file};

use refused_lines::line_in_file;

/// A script that is drawn.
#[derive(Clone, Copy)]
pub struct DrawnScript<'a> {
    pub text: &'a [u8],
    /// For each line the line of the file that it stands for, by which it is shown; None where the file is the script.
    pub sources: Option<&'a [u64]>,
}

/// The line of an event, as it is shown.
#[derive(Clone, Copy)]
pub struct ShownLine {
    /// The number of the line in the file, from 1.
    pub number: u64,
    /// Whether the event is the first one of the line.
    pub is_first: bool,
}

impl ShownLine {
    /// What is before all events.
    pub const NONE: ShownLine = ShownLine {
        number: 0,
        is_first: false,
    };

    /// The line of the event behind that of this one, which stands in this line of the script.
    pub fn next(self, sources: Option<&[u64]>, line: u64) -> ShownLine
        ensures number { result.number ≡ line_in_file (option_map (λ s. s.now) sources.entry) line }
        ensures first { result.is_first ≡ not (result.number == self.number) }
    {
        let number = line_in_file(sources, line);
        ShownLine {
            number,
            is_first: number != self.number,
        }
    }
}
