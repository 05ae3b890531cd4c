//! The events of a script for a bus.
ghost use Rattle.std.specs.Prelude.{◌≡◌, ◌++◌, List, IfOk, OnOk};
ghost use Rattle.terminal_bus.specs.Members.{Member};
ghost use Rattle.script_terminals.specs.BusReading.{is_on_bus, said_in, to_terminal};
ghost use Rattle.script_terminals.specs.Playing.{reading_of};
ghost use Rattle.tool_buses.specs.Cut.{said_on_line, reading_shown};
ghost use Rattle.tool_buses.specs.Powered.{IsBusAt};

use refused_lines::first_line;
use rt1553::Normal;
use script_lines::MAX_LINES;
use script_terminals::{BusLineFault, BusScriptFault, read_bus_line};
use std::alloc::{AllocError, Global};
use terminal_bus::{BusEvent, TerminalBus};

/// An event of a script.
#[derive(Clone, Copy)]
pub struct SaidEvent {
    /// The number of its line, from 1.
    pub line: u64,
    pub event: BusEvent,
}

/// What a script says before its first fault.
#[derive(Drop)]
pub struct ReadScript {
    pub said: Vec<SaidEvent>,
    /// None where all of it is read.
    pub fault: Option<BusScriptFault>,
}

/// What a line says, whose address is one of the bus.
fn to_terminal(
    bus: &TerminalBus<Normal>,
    said: Result<Option<BusEvent>, BusLineFault>,
) -> Result<Option<BusEvent>, BusLineFault>
    ensures { (members : List Member) → IsBusAt members bus.now → result ≡ to_terminal (is_on_bus members) said }
{
    match said {
        Ok(Some(BusEvent::Subsystem(address, _))) if !bus.has_terminal(address) => {
            Err(BusLineFault::NoTerminal(address))
        }
        said => said,
    }
}

/// What the line of this number says.
fn said_in(
    bus: &TerminalBus<Normal>,
    number: u64,
    line: &[u8],
) -> Result<Option<BusEvent>, BusScriptFault>
    ensures { (members : List Member) → IsBusAt members bus.now → result ≡ said_in (is_on_bus members) number line.now }
{
    if number > MAX_LINES as u64 {
        return Err(BusScriptFault::TooLong);
    }
    match to_terminal(bus, read_bus_line(line)) {
        Ok(said) => Ok(said),
        Err(fault) => Err(BusScriptFault::Line(number, fault)),
    }
}

/// Adds the event of the line of this number, if it says one.
fn push_event(
    said: &mut Vec<SaidEvent>,
    line: u64,
    event: Option<BusEvent>,
) -> Result<(), AllocError>
    ensures { OnOk result (said.new.items ≡ said.old.items ++ said_on_line line event) }
{
    if let Some(event) = event {
        said.push(SaidEvent { line, event })?;
    }
    Ok(())
}

/// Reads a script for the terminals of a bus, up to its first fault. The only error is out of memory.
pub fn read_script(
    alloc: Global,
    bus: &TerminalBus<Normal>,
    script: &[u8],
) -> Result<ReadScript, AllocError>
    ensures { IfOk result (λ read. (members : List Member) → IsBusAt members bus.now → reading_shown read ≡ reading_of members script.now) }
{
    let mut said = Vec::new(alloc);
    let mut rest = script;
    let mut line = 1u64;
    while !rest.is_empty() {
        let (first, more) = first_line(rest);
        match said_in(bus, line, first) {
            Ok(event) => push_event(&mut said, line, event)?,
            Err(fault) => {
                return Ok(ReadScript {
                    said,
                    fault: Some(fault),
                });
            }
        }
        line += 1;
        rest = more;
    }
    Ok(ReadScript { said, fault: None })
}
