//! The events of a script, with the numbers of their lines.
ghost use Rattle.std.specs.Prelude.{◌≡◌, ◌≢◌, ◌++◌, true, false, is_ok, map, Some, None, IfOk, IfErr, OnOk};
ghost use Rattle.script_lines.specs.Line.{meaning};
ghost use Rattle.script_lines.specs.Text.{lines_of};
ghost use Rattle.bus_script.specs.Reading.{reading, adds, nothing};
ghost use Rattle.drawing_boxes.specs.Refused.{event_said, events_on, refusal};

use crate::fault::DrawFault;
use bus_script::RunFault;
use bus_terminal::Event;
use refused_lines::first_line;
use script_lines::{LineFault, MAX_LINE, MAX_LINES, read_event};
use std::alloc::Global;

/// How many events are drawn at most.
pub const MAX_EVENTS: usize = 4096;

/// An event of a script.
#[derive(Clone, Copy)]
pub struct Numbered {
    /// The number of its line, from 1.
    pub line: u64,
    pub event: Event,
}

/// Reads a line, and adds its event, if it is one.
fn read_line(read: &mut Vec<Numbered>, number: u64, line: &[u8]) -> Result<(), DrawFault>
    ensures said { OnOk result (read.new.items ≡ read.old.items ++ event_said number (meaning line.now)) }
    ensures means { OnOk result (is_ok (meaning line.now) ≡ true) }
    ensures refused { IfErr result (λ fault. fault ≢ DrawFault.Memory → (fault ≡ DrawFault.Script (RunFault.Line number)) × (is_ok (meaning line.now) ≡ false)) }
{
    match read_event(line) {
        Ok(Some(event)) => {
            read.push(Numbered {
                line: number,
                event,
            })?;
            Ok(())
        }
        Ok(None) => Ok(()),
        Err(LineFault) => Err(DrawFault::Script(RunFault::Line(number))),
    }
}

/// The events of a script, in their order, each with the number of its line. A script is refused by its fault, for which its run ends too.
pub fn numbered_events(alloc: Global, script: &[u8]) -> Result<Vec<Numbered>, DrawFault>
    ensures numbered { IfOk result (λ read. events_on 0 (lines_of script.now) ≡ read.items) }
    ensures events { IfOk result (λ read. reading 0 (lines_of script.now) ≡ adds (map (λ it. it.event) read.items) nothing) }
    ensures refused { IfErr result (λ fault. fault ≢ DrawFault.Memory → refusal (reading 0 (lines_of script.now)) ≡ Some fault) }
{
    let mut read = Vec::new(alloc);
    let mut rest = script;
    let mut lines = 0;
    while !rest.is_empty() {
        let (line, more) = first_line(rest);
        if lines == MAX_LINES as u64 {
            return Err(DrawFault::Script(RunFault::TooLong));
        }
        if line.len() > MAX_LINE {
            return Err(DrawFault::Script(RunFault::LongLine(lines + 1)));
        }
        read_line(&mut read, lines + 1, line)?;
        lines += 1;
        rest = more;
    }
    Ok(read)
}

/// The events of a script that are drawn: all, in their order, each with the number of its line. A script is refused by its
/// fault, for which its run ends too; or else for having over 4,096 events.
#[tactic(auto, using(crate::proofs::NumberedLaws::few_drawn, crate::proofs::NumberedLaws::many_refused))]
pub fn events_to_draw(alloc: Global, script: &[u8]) -> Result<Vec<Numbered>, DrawFault>
    ensures drawn { IfOk result (λ read. (refusal (reading 0 (lines_of script.now)) ≡ None) × (read.items ≡ events_on 0 (lines_of script.now))) }
    ensures refused { IfErr result (λ fault. fault ≢ DrawFault.Memory → refusal (reading 0 (lines_of script.now)) ≡ Some fault) }
{
    let read = numbered_events(alloc, script)?;
    if read.len() > MAX_EVENTS {
        return Err(DrawFault::TooMany);
    }
    Ok(read)
}
