//! Recordings, as scripts that state their answers, read event by event.
ghost use Rattle.std.specs.Prelude.{◌≡◌, ◌<◌, true, length, IfOk, IfErr, IfSome};
ghost use Rattle.script_lines.specs.Text.{lines_of};
ghost use Rattle.rt1553_verify.specs.Stated.{stated_through};
ghost use Rattle.rt1553_verify.specs.Reader.{NextIs, left_in, turns_left};
ghost use Rattle.rt1553_verify.specs.inner.Steps.{ReadsLine, IsReadFault, StepIs, IsFewer};

use crate::stated::{Stated, StatedFault, end, read_stated_line};
use refused_lines::first_line;
use std::alloc::Global;
use std::io::{BufRead, ErrorKind};

/// A recording, as a script that states its answers, which is read event by event: one event of it is kept, and one line. A line `#? A gap`
/// is an event, too: a gap that may have come.
#[derive(Drop)]
pub struct StatedReader<B> {
    alloc: Global,
    input: B,
    /// The line that was read last, with its line feed.
    line: Vec<u8>,
    /// How many lines were read.
    lines: u64,
    latest: Option<Stated>,
}

/// Reads a line, with its line feed. False at the end of the input.
fn fill_line<B: BufRead>(input: &mut B, line: &mut Vec<u8>) -> Result<bool, StatedFault>
    ensures reads { IfOk result (ReadsLine (B.remaining input.old) (B.remaining input.new) line.new.items) }
    ensures some { IfOk result (λ more. more ≡ true → 0 < length line.new.items) }
    ensures failed { IfErr result IsReadFault }
{
    line.clear();
    match input.read_until(b'\n', line) {
        Ok(count) => Ok(count > 0),
        Err(error) => match error.kind() {
            ErrorKind::OutOfMemory => Err(StatedFault::Memory),
            _ => Err(StatedFault::Read),
        },
    }
}

impl<B: BufRead> StatedReader<B> {
    /// Reads a script of any number of lines, which are counted in 64 bits.
    pub fn new(alloc: Global, input: B) -> StatedReader<B>
        ensures { IfSome (B.remaining input) (λ script. left_in B.remaining result ≡ Some (stated_through script)) }
    {
        StatedReader {
            alloc,
            input,
            line: Vec::new(alloc),
            lines: 0,
            latest: None,
        }
    }

    /// Reads a line. Gives the event that ends there, if one does, and whether the script is at its end.
    fn step(&mut self) -> Result<(Option<Stated>, bool), StatedFault>
        ensures step { StepIs (left_in B.remaining self.old) (left_in B.remaining self.new) result }
        ensures fewer { IfOk result (λ step. IsFewer (turns_left self.old) (turns_left self.new) step.1 step.0) }
    {
        if !fill_line(&mut self.input, &mut self.line)? {
            return Ok((end(self.latest.take())?, true));
        }
        if self.lines == u64::MAX {
            return Err(StatedFault::TooLong);
        }
        let (line, _) = first_line(self.line.as_slice());
        let known = read_stated_line(self.alloc, self.latest.take(), self.lines + 1, line, true)?;
        self.lines += 1;
        self.latest = known.latest;
        Ok((known.ended, false))
    }

    /// Gives the event of the script that comes next, with what is stated of it. None where none is left.
    pub fn next(&mut self) -> Result<Option<Stated>, StatedFault>
        ensures next { NextIs (left_in B.remaining self.old) (left_in B.remaining self.new) result }
        ensures fewer { IfOk result (λ next. IfSome next (λ _. turns_left self.new < turns_left self.old)) }
    {
        'lines: loop {
            let (next, is_end) = self.step()?;
            if is_end || next.is_some() {
                return Ok(next);
            }
        }
    }
}
