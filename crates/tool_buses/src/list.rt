//! The messages of the terminals of a bus, a line each.
ghost use Rattle.std.specs.Prelude.{◌≡◌, IfOk};

use crate::play::{refused_script, warn};
use crate::reading::{ReadScript, SaidEvent};
use crate::watch::{TakesMessages, WatchedBus};
use message_rows::{ROW_HEADER, row_text};
use std::alloc::{AllocError, Global};
use std::io::Write;
use terminal_messages::KeptMessage;
use tool_files::{LoadedScript, ToolFault, write_bytes};

/// The lines of rows.
#[derive(Drop)]
struct RowLines {
    alloc: Global,
    text: Vec<u8>,
}

impl TakesMessages for RowLines {
    fn take(&mut self, _address: u8, message: &KeptMessage) -> Result<(), ToolFault> {
        let line = row_text(self.alloc, message, None)?;
        self.text.extend_from_slice(line.as_str().as_bytes())?;
        Ok(())
    }
}

/// The lines of the file for which events stand.
fn lines_of(
    alloc: Global,
    script: &LoadedScript,
    said: &[SaidEvent],
) -> Result<Vec<u64>, AllocError> {
    let mut lines = Vec::new(alloc);
    for said in said {
        lines.push(script.line_in_file(said.line))?;
    }
    Ok(lines)
}

/// Plays the script of a file, which was read, to terminals at power-up, and writes the rows of the messages of each that are for it, as
/// they end. Of a script that is refused, those that ended before. The status is 0.
pub fn list_on_bus<R: AllocGlobal + Eprint, W: Write>(
    rt: &R,
    name: &str,
    script: &LoadedScript,
    read: &ReadScript,
    mut watched: WatchedBus,
    output: &mut W,
) -> Result<u8, ToolFault>
    ensures { IfOk result (λ status. status ≡ 0) }
{
    let mut lines = RowLines {
        alloc: rt.alloc(),
        text: Vec::from_slice(rt.alloc(), ROW_HEADER.as_bytes())?,
    };
    let said = read.said.as_slice();
    let numbers = lines_of(rt.alloc(), script, said)?;
    let warnings = watched.play(rt.alloc(), said, numbers.as_slice(), &mut lines)?;
    if read.fault.is_none() {
        watched.end(&mut lines)?;
    }
    warn(rt, name, script, warnings.as_slice())?;
    write_bytes(output, lines.text.as_slice())?;
    match read.fault {
        Some(fault) => Err(refused_script(rt, name, script, fault)?),
        None => Ok(0),
    }
}
