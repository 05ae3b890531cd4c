//! The command `words`: words of a bus by their fields and by their digits.
ghost use Rattle.std.specs.Prelude.{◌≤◌, IfOk};

use byte_streams::{FromRead, FromWrite};
use rt1553_tool::{ServeFault, answer_words};
use std::io::{BufReader, Read, Write};
use tool_files::{DIFFERENT, ToolFault};

/// Answers lines of words of the bus. The status tells whether all lines could be answered.
pub fn bus_words<R: AllocGlobal, I: Read + Drop, W: Write>(
    rt: &R,
    input: I,
    output: &mut W,
) -> Result<u8, ToolFault>
    ensures { IfOk result (λ status. status ≤ 1) }
{
    let Ok(reader) = BufReader::new(rt.alloc(), input) else {
        return Err(ToolFault::Memory);
    };
    let mut source = FromRead::new(reader);
    let mut sink = FromWrite::new(output);
    match answer_words(&mut source, &mut sink) {
        Ok(0) => Ok(0),
        Ok(_) => Ok(DIFFERENT),
        Err(ServeFault::Write) => Err(ToolFault::Output),
        Err(_) => Err(ToolFault::Input),
    }
}
