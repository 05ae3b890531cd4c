//! The parts of a script: the events that stand for one line of its file, and what each leaves behind.
ghost use Rattle.std.specs.Prelude.{◌≡◌, List, [], ◌∷◌, IfOk, map, option_map};
ghost use Rattle.bus_legal.specs.Description.{Description};
ghost use Rattle.refused_lines.specs.Sources.{line_in_file};
ghost use Rattle.tool_buses.specs.Cut.{IsCut, part_left};
ghost use Rattle.tool_buses.specs.Powered.{IsPowered};

use crate::reading::SaidEvent;
use bus_reports::PartLeft;
use refused_lines::line_in_file;
use rt1553::Normal;
use std::alloc::{AllocError, Global};
use terminal_bus::{BusEvent, TerminalBus};
use terminal_schedules::play_to_clear;

/// The events of a script that stand for one line of its file, one after the other.
#[derive(Drop)]
pub struct ScriptPart {
    /// The line of the file, from 1.
    pub line: u64,
    /// The line of the script that says the first of them, from 1.
    pub said_at: u64,
    pub events: Vec<BusEvent>,
}

/// A part of one event, which stands for this line of the file.
fn begun(alloc: Global, line: u64, said_at: u64, event: BusEvent) -> Result<ScriptPart, AllocError>
    ensures line { IfOk result (λ part. part.line ≡ line) }
    ensures events { IfOk result (λ part. part.events.items ≡ event ∷ []) }
{
    Ok(ScriptPart {
        line,
        said_at,
        events: Vec::from_slice(alloc, &[event])?,
    })
}

/// Cuts a script into its parts. `sources` has, for each line of the script, the line of the file that it stands for; None where the file is
/// the script. The only error is out of memory.
pub fn parts_of(
    alloc: Global,
    said: &[SaidEvent],
    sources: Option<&[u64]>,
) -> Result<Vec<ScriptPart>, AllocError>
    ensures { IfOk result (λ parts. IsCut (line_in_file (option_map (λ s. s.now) sources.entry)) said.now parts.items) }
{
    let mut parts = Vec::new(alloc);
    let Some((first, more)) = said.split_first() else {
        return Ok(parts);
    };
    let mut last = begun(
        alloc,
        line_in_file(sources, first.line),
        first.line,
        first.event,
    )?;
    for said in more {
        let line = line_in_file(sources, said.line);
        if line == last.line {
            last.events.push(said.event)?;
        } else {
            parts.push(last)?;
            last = begun(alloc, line, said.line, said.event)?;
        }
    }
    parts.push(last)?;
    Ok(parts)
}

/// What each part leaves behind, alone, on a bus of terminals at power-up. All are played to one bus, and behind one that leaves something
/// to another at power-up. The only error is out of memory.
pub fn lefts_of(
    alloc: Global,
    bus: &TerminalBus<Normal>,
    parts: &[ScriptPart],
) -> Result<Vec<PartLeft>, AllocError>
    ensures { IfOk result (λ lefts. (Ps : List Description) → IsPowered Ps bus.now → lefts.items ≡ map (part_left Ps) parts.now) }
{
    let mut lefts = Vec::new(alloc);
    let mut clear = bus.copy();
    for part in parts {
        let left = play_to_clear(&mut clear, part.events.as_slice());
        if left.is_some() {
            clear = bus.copy();
        }
        lefts.push(PartLeft {
            line: part.line,
            left,
        })?;
    }
    Ok(lefts)
}
