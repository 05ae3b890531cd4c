//! The lines of a text of events and messages that are refused on a bus.
ghost use Rattle.std.specs.Prelude.{◌≡◌, ◌++◌, [], map, IfOk, OnOk};
ghost use Rattle.script_terminals.specs.BusLine.{bus_line_meaning};
ghost use Rattle.script_terminals.specs.BusReading.{to_terminal};
ghost use Rattle.rt1553_expand.specs.Own.{plays};
ghost use Rattle.rt1553_expand.specs.Expansion.{expansion_of, refusals_in};
ghost use Rattle.rt1553_expand.specs.OnBus.{event_fault, fault_on_bus, bus_refusal_at, bus_refusals_in, bus_refusal_of};

use crate::expanding::{ReadLine, read_line};
use crate::fault::ExpandFault;
use crate::script_for::ScriptFor;
use refused_lines::first_line;
use script_terminals::{BusLineFault, read_bus_line};
use std::alloc::{AllocError, Global};
use terminal_bus::BusEvent;

/// Why a line is refused on a bus.
#[derive(Clone, Copy)]
pub enum OnBusFault {
    /// It is not expanded.
    Unexpanded(ExpandFault),
    /// It is no message, and no line of a script for the terminals of the bus.
    Event(BusLineFault),
}

/// A line that is refused on a bus.
#[derive(Clone, Copy)]
pub struct RefusedOnBus<'a> {
    /// Its number, from 1.
    pub line: u64,
    /// The line, without its line feed.
    pub text: &'a [u8],
    /// Why it is refused.
    pub fault: OnBusFault,
}

/// Why a run on the bus of these terminals refuses a line.
fn event_fault(own: &ScriptFor, line: &[u8]) -> Option<OnBusFault>
    ensures { result ≡ event_fault (to_terminal (plays own.now) (bus_line_meaning line.now)) }
{
    match read_bus_line(line) {
        Ok(Some(BusEvent::Subsystem(address, _))) if !own.plays(address) => {
            Some(OnBusFault::Event(BusLineFault::NoTerminal(address)))
        }
        Ok(_) => None,
        Err(fault) => Some(OnBusFault::Event(fault)),
    }
}

/// Why a line of a text is refused on the bus of these terminals.
fn fault_on_bus(own: &ScriptFor, line: &[u8]) -> Option<OnBusFault>
    ensures { result ≡ fault_on_bus own.now line.now (expansion_of own.now line.now) }
{
    match read_line(own, line) {
        Ok(ReadLine::Kept(_)) => event_fault(own, line),
        Ok(ReadLine::Written(_, _)) => None,
        Err(fault) => Some(OnBusFault::Unexpanded(fault)),
    }
}

/// Adds a line of this number where it is refused.
fn push_refused<'a>(
    found: &mut Vec<RefusedOnBus<'a>>,
    own: &ScriptFor,
    text: &'a [u8],
    line: u64,
) -> Result<(), AllocError>
    ensures { OnOk result (map bus_refusal_of found.new.items ≡ map bus_refusal_of found.old.items ++ bus_refusal_at line text.now (fault_on_bus own.now text.now (expansion_of own.now text.now))) }
{
    if let Some(fault) = fault_on_bus(own, text) {
        found.push(RefusedOnBus { line, text, fault })?;
    }
    Ok(())
}

/// Tells each line of a text of events and messages that is refused on the bus of these terminals, in their order. Where none is, none is
/// left unexpanded. The only error is out of memory.
pub fn refused_on_bus<'a>(
    alloc: Global,
    text: &'a [u8],
    own: &ScriptFor,
) -> Result<Vec<RefusedOnBus<'a>>, AllocError>
    ensures lines { IfOk result (λ found. map bus_refusal_of found.items ≡ bus_refusals_in own.now text.now) }
    ensures expanded { IfOk result (λ found. found.items ≡ [] → refusals_in own.now text.now ≡ []) }
{
    let mut found = Vec::new(alloc);
    let mut rest = text;
    let mut number = 1u64;
    while !rest.is_empty() {
        let (line, more) = first_line(rest);
        push_refused(&mut found, own, line, number)?;
        number += 1;
        rest = more;
    }
    Ok(found)
}
