//! A script that is read and cut, and whether its messages end well in every order.
ghost use Rattle.std.specs.Prelude.{◌≡◌, List, ℕ, IfOk, IfNone, map, option_map};
ghost use Rattle.bus_legal.specs.Description.{Description};
ghost use Rattle.bus_legal.specs.Parts.{Parts, description_in};
ghost use Rattle.refused_lines.specs.Sources.{line_in_file};
ghost use Rattle.terminal_rules.specs.LookBack.{keep};
ghost use Rattle.terminal_bus.specs.declared.bus.TerminalBus.{TerminalBus as PoweredBus};
ghost use Rattle.tool_buses.specs.Cut.{told_alone, IsCutScript, JudgesOrder};
ghost use Rattle.tool_buses.specs.EndsWell.{reasons_of_part};
ghost use Rattle.tool_buses.specs.Powered.{IsPowered};
ghost use Rattle.tool_buses.specs.declared.parts.ScriptPart.{ScriptPart as FilePart};

use crate::parts::{ScriptPart, lefts_of, parts_of};
use crate::reading::{SaidEvent, read_script};
use bus_reports::{BusLoad, JudgedMessage, Judgement, PartLeft};
use rt1553::Normal;
use script_terminals::BusScriptFault;
use std::alloc::{AllocError, Global};
use terminal_bus::TerminalBus;

/// A script that was read for a bus, and cut into parts, up to its first fault.
#[derive(Drop)]
pub struct CutScript {
    pub said: Vec<SaidEvent>,
    pub parts: Vec<ScriptPart>,
    /// What each part leaves behind.
    pub lefts: Vec<PartLeft>,
    pub fault: Option<BusScriptFault>,
}

/// Reads a script for a bus of terminals at power-up, and cuts it into parts. `sources` has, for each line of the script, the line of the
/// file that it stands for; None where the file is the script. The only error is out of memory.
pub fn cut_script(
    alloc: Global,
    bus: &TerminalBus<Normal>,
    script: &[u8],
    sources: Option<&[u64]>,
) -> Result<CutScript, AllocError>
    ensures { IfOk result (λ cut. IfNone cut.fault ((Ps : List Description) → IsPowered Ps bus.now → IsCutScript Ps (line_in_file (option_map (λ s. s.now) sources.entry)) script.now cut.parts.items cut.lefts.items)) }
{
    let read = read_script(alloc, bus, script)?;
    let parts = parts_of(alloc, read.said.as_slice(), sources)?;
    let lefts = lefts_of(alloc, bus, parts.as_slice())?;
    Ok(CutScript {
        said: read.said,
        parts,
        lefts,
        fault: read.fault,
    })
}

/// What comes of a script, by what comes of its messages, what its parts leave behind, and the load.
pub fn judgement_of(
    messages: Vec<JudgedMessage>,
    lefts: Vec<PartLeft>,
    load: Option<BusLoad>,
) -> Judgement
    ensures { (vs : List Parts) (bus : PoweredBus Parts) (source : ℕ → ℕ) (script : List ℕ) (parts : List FilePart) → IsPowered (map description_in vs) bus →
        IsCutScript (map description_in vs) source script parts lefts.items → map told_alone messages.items ≡ keep (reasons_of_part vs) parts → JudgesOrder vs source script result }
{
    Judgement {
        messages,
        lefts,
        load,
    }
}
