//! The lines of a text that is being read.
ghost use Rattle.std.specs.Prelude.{◌≡◌, ◌+◌, ◌<◌, ◌^◌, length};

/// What is left of a text, and the number of its first line.
#[derive(Clone, Copy)]
pub struct Lines<'a> {
    /// From 1.
    pub number: usize,
    pub rest: &'a [u8],
    ghost room: { number + length rest.now < 2 ^ 64 },
}

/// The number, from 1, of a line that no text has there.
#[derive(Clone, Copy)]
pub struct WrongLine {
    pub line: usize,
}

impl<'a> Lines<'a> {
    ghost use Rattle.line_format.specs.Views.{spot};
    ghost use Rattle.line_format.specs.Reading.{start};

    /// The lines of a text, from its first.
    pub fn of(text: &'a [u8]) -> Lines<'a>
        ensures { spot result ≡ start text.now }
    {
        Lines {
            number: 1,
            rest: text,
        }
    }

    /// The first of these lines is wrong.
    pub fn wrong(self) -> WrongLine
        ensures { result.line ≡ (spot self.entry).number }
    {
        WrongLine { line: self.number }
    }

    /// The lines behind the first, which ends where `rest` begins.
    pub fn behind(self, rest: &'a [u8]) -> Lines<'a>
        requires { length rest.now < length self.rest.now }
        ensures { spot result ≡ record { number = (spot self.entry).number + 1; rest = rest.entry.now } }
    {
        Lines {
            number: self.number + 1,
            rest,
        }
    }
}
