//! The lines of a script for a bus of terminals.
ghost use Rattle.std.specs.Prelude.{◌≡◌};
ghost use Rattle.terminal_bus.specs.Discipline.{comes_from_subsystem};
ghost use Rattle.script_lines.specs.Digits.{number_of};
ghost use Rattle.script_terminals.specs.BusLine.{address_first, of_controller, of_subsystem, bus_event, checked, bus_line_meaning};

use bus_terminal::Event;
use script_lines::{LineFault, MAX_LINE, read_event};
use terminal_bus::BusEvent;

/// How many bytes an address has in front of a line: two digits and a space.
const ADDRESS: usize = 3;

/// Why a line is refused.
#[derive(Clone, Copy, PartialEq, Eq)]
pub enum BusLineFault {
    /// It has over 64 bytes, an address in front not counted.
    Long,
    /// It is no line of a script.
    NoLine,
    /// An event of a subsystem has no address in front.
    NoAddress,
    /// An address stands in front of what is no event of a subsystem.
    NotOfSubsystem,
    /// No terminal has this address, 31 to 99 (MIL-STD-1553B, 4.3.3.5.1.2: a terminal has 0 to 30).
    HighAddress(u8),
    /// No terminal of the bus has this address, 0 to 30.
    NoTerminal(u8),
}

/// Reads the address in front of a line: two decimal digits and a space.
pub fn address_first(line: &[u8]) -> Option<u8>
    ensures { result ≡ address_first line.now }
{
    match line {
        [tens, ones, b' ', ..] if tens.is_ascii_digit() && ones.is_ascii_digit() => {
            Some((*tens - b'0') * 10 + (*ones - b'0'))
        }
        _ => None,
    }
}

/// Tells whether an event is one of a subsystem.
fn comes_from_subsystem(event: &Event) -> bool
    ensures { result ≡ comes_from_subsystem event.now }
{
    matches!(
        event,
        Event::Write(_, _) | Event::Vector(_) | Event::Bit(_) | Event::Flag(_, _)
    )
}

/// What happens on the bus by an event that has no address in front.
fn of_controller(event: Event) -> Result<BusEvent, BusLineFault>
    ensures { result ≡ of_controller event }
{
    if comes_from_subsystem(&event) {
        return Err(BusLineFault::NoAddress);
    }
    match event {
        Event::Slot => Ok(BusEvent::SlotPasses),
        event => Ok(BusEvent::OnBus(event)),
    }
}

/// What happens on the bus by an event that has this address in front.
fn of_subsystem(address: u8, event: Event) -> Result<BusEvent, BusLineFault>
    ensures { result ≡ of_subsystem address event }
{
    if !comes_from_subsystem(&event) {
        Err(BusLineFault::NotOfSubsystem)
    } else if address > 30 {
        Err(BusLineFault::HighAddress(address))
    } else {
        Ok(BusEvent::Subsystem(address, event))
    }
}

/// What a line says, whose address was taken off, if it has one.
fn bus_event(
    address: Option<u8>,
    said: Result<Option<Event>, LineFault>,
) -> Result<Option<BusEvent>, BusLineFault>
    ensures { result ≡ bus_event address said }
{
    let event = match (address, said) {
        (_, Err(_)) => return Err(BusLineFault::NoLine),
        (None, Ok(None)) => return Ok(None),
        (Some(_), Ok(None)) => return Err(BusLineFault::NotOfSubsystem),
        (None, Ok(Some(event))) => of_controller(event),
        (Some(address), Ok(Some(event))) => of_subsystem(address, event),
    };
    match event {
        Ok(event) => Ok(Some(event)),
        Err(fault) => Err(fault),
    }
}

/// What a line says that is not too long.
fn checked(address: Option<u8>, line: &[u8]) -> Result<Option<BusEvent>, BusLineFault>
    ensures { result ≡ checked address line.now }
{
    if line.len() > MAX_LINE {
        return Err(BusLineFault::Long);
    }
    bus_event(address, read_event(line))
}

/// Reads a line of a script for a bus of terminals, without its line feed; None for an empty line and for a comment. An event of
/// a subsystem begins with the address of its terminal, in two decimal digits, and a space; any other line is as for one terminal.
///
/// # Errors
///
/// Why it is refused. `NoTerminal` is none of them: a line does not tell which terminals the bus has.
pub fn read_bus_line(line: &[u8]) -> Result<Option<BusEvent>, BusLineFault>
    ensures { result ≡ bus_line_meaning line.now }
{
    match address_first(line) {
        Some(address) => checked(Some(address), &line[ADDRESS..]),
        None => checked(None, line),
    }
}
