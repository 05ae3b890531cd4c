//! The command `live`: lines are played as they come.
ghost use Rattle.std.specs.Prelude.{◌≡◌, IfOk};

use bus_terminal::Terminal;
use byte_streams::{FromRead, FromWrite};
use rt1553_tool::{ServeFault, serve};
use std::io::{BufReader, Read, Write};
use std::rt::Files;
use tool_files::{ToolFault, load_profile};

/// Plays lines to the terminal of a profile as they come. The status is 0.
pub fn play_live<R: Files + AllocGlobal, I: Read + Drop, W: Write>(
    rt: &R,
    profile: &str,
    input: I,
    output: &mut W,
) -> Result<u8, ToolFault>
    ensures { IfOk result (λ status. status ≡ 0) }
{
    let normal = load_profile(rt, profile)?;
    let mut terminal = Terminal::power_up(normal.setup(), normal);
    let Ok(reader) = BufReader::new(rt.alloc(), input) else {
        return Err(ToolFault::Memory);
    };
    let mut source = FromRead::new(reader);
    let mut sink = FromWrite::new(output);
    match serve(&mut terminal, &mut source, &mut sink) {
        Ok(()) => Ok(0),
        Err(ServeFault::Write) => Err(ToolFault::Output),
        Err(_) => Err(ToolFault::Input),
    }
}
