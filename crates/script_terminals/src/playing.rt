//! A script is played to a bus of terminals.
ghost use Rattle.std.specs.Prelude.{◌≡◌, ◌++◌, [], List, OnOk, IfOk};
ghost use Rattle.terminal_bus.specs.declared.event.BusEvent.{BusEvent};
ghost use Rattle.terminal_bus.specs.Members.{Member, bus_after};
ghost use Rattle.terminal_bus.specs.AtMembers.{BusStandsAt, AnswersAt, collisions};
ghost use Rattle.script_terminals.specs.BusReading.{is_on_bus, to_terminal, said_in, breach_of, warned};
ghost use Rattle.script_terminals.specs.Playing.{text_told, PlaysScript};
ghost use Rattle.script_terminals.specs.inner.Taken.{written_so_far, PlaysEvent, PlaysBusLine};

use crate::line::{BusLineFault, read_bus_line};
use crate::texts::{push_answers, push_came};
use bus_legal::Legality;
use refused_lines::first_line;
use script_lines::MAX_LINES;
use std::alloc::{AllocError, Global};
use terminal_bus::{Breach, BusEvent, TerminalBus};
use terminal_state::OnBuses;

/// Why a script is not played to its end. Lines are numbered from 1.
#[derive(Clone, Copy, PartialEq, Eq)]
pub enum BusScriptFault {
    /// This line is refused, for this reason.
    Line(u64, BusLineFault),
    /// Something follows line 1,048,576.
    TooLong,
}

/// An event that breaks the discipline of a controller.
#[derive(Clone, Copy, PartialEq, Eq)]
pub struct BusWarning {
    /// Its line, from 1.
    pub line: u64,
    /// What of it breaks the discipline.
    pub breach: Breach,
}

/// What is told of a script that is played.
#[derive(Clone, Copy)]
pub enum BusTold {
    /// What the terminals send and hand over, and where words collide.
    Answers,
    /// What comes to the terminal at this place, as a script.
    CameTo(usize),
}

/// What comes of a script that is played to a bus of terminals, up to its first fault.
#[derive(Drop)]
pub struct PlayedOnBus {
    /// What was to be told.
    pub text: Vec<u8>,
    /// The events that break the discipline, in order.
    pub warnings: Vec<BusWarning>,
    /// The first fault, if there is one.
    pub fault: Option<BusScriptFault>,
}

/// What a line says, whose address is one of the bus.
fn to_terminal<L: Legality>(
    bus: &TerminalBus<L>,
    said: Result<Option<BusEvent>, BusLineFault>,
) -> Result<Option<BusEvent>, BusLineFault>
    ensures { (members : List Member) → BusStandsAt L.is_legal members bus.now → result ≡ to_terminal (is_on_bus members) said }
{
    match said {
        Ok(Some(BusEvent::Subsystem(address, _))) if !bus.has_terminal(address) => {
            Err(BusLineFault::NoTerminal(address))
        }
        said => said,
    }
}

/// What the line of this number says to the terminals of a bus.
fn said_in<L: Legality>(
    bus: &TerminalBus<L>,
    number: u64,
    line: &[u8],
) -> Result<Option<BusEvent>, BusScriptFault>
    ensures { (members : List Member) → BusStandsAt L.is_legal members bus.now → result ≡ said_in (is_on_bus members) number line.now }
{
    if number > MAX_LINES as u64 {
        return Err(BusScriptFault::TooLong);
    }
    match to_terminal(bus, read_bus_line(line)) {
        Ok(said) => Ok(said),
        Err(fault) => Err(BusScriptFault::Line(number, fault)),
    }
}

/// What of an event breaks the discipline, if it is one that the controller puts.
fn breach_of<L: Legality>(bus: &TerminalBus<L>, event: &BusEvent) -> Option<Breach>
    ensures { (members : List Member) → BusStandsAt L.is_legal members bus.now → result ≡ breach_of members event.now }
{
    match event {
        BusEvent::OnBus(event) => bus.may_put(*event).err(),
        _ => None,
    }
}

/// Adds the event of the line of this number, if it breaks the discipline.
fn push_warning(
    warnings: &mut Vec<BusWarning>,
    line: u64,
    breach: Option<Breach>,
) -> Result<(), AllocError>
    ensures { OnOk result (warnings.new.items ≡ warnings.old.items ++ warned line breach) }
{
    if let Some(breach) = breach {
        warnings.push(BusWarning { line, breach })?;
    }
    Ok(())
}

/// Writes what is to be told of the latest step, which took this event.
fn push_told<L: Legality>(
    text: &mut Vec<u8>,
    bus: &TerminalBus<L>,
    told: BusTold,
    event: &BusEvent,
    collided: &OnBuses,
) -> Result<(), AllocError>
    ensures { OnOk result ((members : List Member) → BusStandsAt L.is_legal (bus_after members event.now) bus.now → AnswersAt members event.now bus.now → collided.now ≡ collisions members event.now
        → text.new.items ≡ text.old.items ++ text_told told members event.now) }
{
    match told {
        BusTold::Answers => push_answers(text, bus, *collided),
        BusTold::CameTo(place) => {
            if place >= bus.len() {
                return Ok(());
            }
            push_came(text, &bus.came_to(*event, place))
        }
    }
}

/// Plays the event of the line of this number.
fn take<L: Legality>(
    bus: &mut TerminalBus<L>,
    text: &mut Vec<u8>,
    warnings: &mut Vec<BusWarning>,
    told: BusTold,
    number: u64,
    event: &BusEvent,
) -> Result<(), AllocError>
    ensures { OnOk result ((members : List Member) → BusStandsAt L.is_legal members bus.old
        → PlaysEvent L.is_legal told members number event.now (written_so_far text.old.items warnings.old.items) (written_so_far text.new.items warnings.new.items) bus.new) }
{
    push_warning(warnings, number, breach_of(bus, event))?;
    let collided = bus.step(*event);
    push_told(text, bus, told, event, &collided)
}

/// Plays the line of this number, and gives the fault that ends the script there.
fn take_line<L: Legality>(
    bus: &mut TerminalBus<L>,
    text: &mut Vec<u8>,
    warnings: &mut Vec<BusWarning>,
    told: BusTold,
    number: u64,
    line: &[u8],
) -> Result<Option<BusScriptFault>, AllocError>
    ensures { IfOk result (λ fault. (members : List Member) → BusStandsAt L.is_legal members bus.old
        → PlaysBusLine L.is_legal told members number (said_in (is_on_bus members) number line.now) fault (written_so_far text.old.items warnings.old.items) (written_so_far text.new.items warnings.new.items) bus.new) }
{
    match said_in(bus, number, line) {
        Ok(Some(event)) => {
            take(bus, text, warnings, told, number, &event)?;
            Ok(None)
        }
        Ok(None) => Ok(None),
        Err(fault) => Ok(Some(fault)),
    }
}

/// Plays a script to a bus, up to its first fault, and tells what the terminals do, or what comes to one of them. The only error
/// is out of memory.
pub fn play_on_bus<L: Legality>(
    alloc: Global,
    bus: &mut TerminalBus<L>,
    script: &[u8],
    told: BusTold,
) -> Result<PlayedOnBus, AllocError>
    ensures { IfOk result (λ played. (members : List Member) → BusStandsAt L.is_legal members bus.old → PlaysScript L.is_legal told members script.now played bus.new) }
{
    let mut text = Vec::new(alloc);
    let mut warnings = Vec::new(alloc);
    let mut rest = script;
    let mut number = 1u64;
    while !rest.is_empty() {
        let (line, more) = first_line(rest);
        let fault = take_line(bus, &mut text, &mut warnings, told, number, line)?;
        if fault.is_some() {
            return Ok(PlayedOnBus {
                text,
                warnings,
                fault,
            });
        }
        number += 1;
        rest = more;
    }
    Ok(PlayedOnBus {
        text,
        warnings,
        fault: None,
    })
}
