//! A bus of terminals by its calls: a transfer between two of them, and what is refused.
ghost use Rattle.std.specs.Prelude.{◌≤◌};

use crate::terminals::Every;
use bus_legal::Setup;
use bus_terminal::{Answer, Event, Hand};
use bus_word::{Bus, Kind, Raw};
use script_terminals::{BusLineFault, BusScriptFault, BusTold, play_on_bus, read_bus_line};
use std::alloc::AllocError;
use terminal_bus::{Breach, BusEvent, NotAdded, TerminalBus};

/// A terminal with this address, at which each word held ready is its address.
fn at_address(address: u8) -> Setup
    requires { address ≤ 30 }
{
    Setup {
        address,
        broadcast: false,
        wrap: 0,
        accept: false,
        vector: 0,
        bit: 0,
        initial: [[u16::from(address); 32]; 30],
    }
}

/// A command word on bus A.
fn command(bits: u16) -> BusEvent {
    BusEvent::OnBus(Event::Word(Bus::A, Raw::of(Kind::Com, bits)))
}

/// The word that the terminal at a place sends, with its address.
fn sent_at(bus: &TerminalBus<Every>, place: usize) -> Option<(u8, u16)> {
    match bus.answer(place) {
        Some(it) => match it.answer {
            Answer::Sends(sent) => Some((it.address, sent.bits)),
            _ => None,
        },
        None => None,
    }
}

/// The first word that the terminal at a place hands over.
fn handed_at(bus: &TerminalBus<Every>, place: usize) -> Option<u16> {
    match bus.answer(place) {
        Some(it) => match it.answer {
            Answer::Hands(
                Hand::Received {
                    broadcast: _,
                    subaddress: _,
                    words,
                },
            ) => words.first().copied(),
            _ => None,
        },
        None => None,
    }
}

const GAP: BusEvent = BusEvent::OnBus(Event::Gap(Bus::A));

/// Terminal 5 sends its status word and a word to terminal 6, which hands it over, and sends its own status word.
#[test]
fn a_transfer_between_two_terminals(rt: HostRuntime) {
    let mut bus = TerminalBus::new();
    let added = [
        bus.add(at_address(5), Every(true)),
        bus.add(at_address(6), Every(true)),
    ];
    bus.step(command(0x3021));
    bus.step(command(0x2c41));
    bus.step(BusEvent::OnBus(Event::Gap(Bus::A)));
    let collided = bus.step(BusEvent::SlotPasses);
    let status = sent_at(&bus, 0);
    assert!(rt; added == [Ok(()), Ok(())]);
    assert!(rt; !collided.a && !collided.b);
    assert!(rt; status == Some((5, 0x2800)));
    assert!(rt; sent_at(&bus, 1) == None);
    bus.step(BusEvent::SlotPasses);
    assert!(rt; sent_at(&bus, 0) == Some((5, 5)));
    bus.step(GAP);
    assert!(rt; handed_at(&bus, 1) == Some(5));
    bus.step(BusEvent::SlotPasses);
    assert!(rt; sent_at(&bus, 1) == Some((6, 0x3000)));
    assert!(rt; bus.len() == 2);
}

/// A gap during a reply, a command to a terminal that is awaited, and what is not on a bus.
#[test]
fn what_breaks_the_discipline(rt: HostRuntime) {
    let mut bus = TerminalBus::new();
    let _ = bus.add(at_address(5), Every(true));
    let _ = bus.add(at_address(6), Every(true));
    bus.step(command(0x3021));
    bus.step(command(0x2c41));
    assert!(rt; bus.may_put(Event::Gap(Bus::A)) == Ok(()));
    bus.step(GAP);
    assert!(rt; bus.may_put(Event::Gap(Bus::A)) == Err(Breach::GapDuringReply(5)));
    let to_five = Event::Word(Bus::A, Raw::of(Kind::Com, 0x2821));
    assert!(rt; bus.may_put(to_five) == Err(Breach::CommandToAwaited(5)));
    assert!(rt; bus.may_put(Event::Slot) == Err(Breach::NotOnBus));
}

/// Two terminals that reply at once: their words collide.
#[test]
fn words_collide(rt: HostRuntime) {
    let mut bus = TerminalBus::new();
    let _ = bus.add(at_address(5), Every(true));
    let _ = bus.add(at_address(6), Every(true));
    bus.step(command(0x2c41));
    bus.step(GAP);
    bus.step(command(0x3441));
    bus.step(GAP);
    let collided = bus.step(BusEvent::SlotPasses);
    assert!(rt; collided.a && !collided.b);
}

/// A second terminal with the same address.
#[test]
fn each_address_is_there_once(rt: HostRuntime) {
    let mut bus = TerminalBus::new();
    let first = bus.add(at_address(5), Every(true));
    let second = bus.add(at_address(5), Every(false));
    assert!(rt; first == Ok(()));
    assert!(rt; second == Err(NotAdded::SameAddress(5)));
    assert!(rt; bus.len() == 1);
}

const TRANSFER: &[u8] =
    b"05 write 02 01 5201\nA c 3021\nA c 2c41\nA gap\nslot\nslot\nA gap\nslot\n";

/// What comes to terminal 5 of that.
const CAME_TO_FIVE: &[u8] =
    b"write 02 01 5201\nA c 3021\nA c 2c41\nA gap\nslot\nslot\nA gap\nslot\nA c 3000\n";

const TRANSCRIPT: &[u8] = b"05 A s 2800\n05 A d 5201\n06 hand receive own 01 5201\n06 A s 3000\n";

/// A bus of terminals 5 and 6.
fn two_terminals() -> TerminalBus<Every> {
    let mut bus = TerminalBus::new();
    let _ = bus.add(at_address(5), Every(true));
    let _ = bus.add(at_address(6), Every(true));
    bus
}

/// A script is played to two terminals: the transcript, and what came to the first of them.
#[test]
fn a_script_is_played_to_a_bus(rt: HostRuntime) -> Result<(), AllocError> {
    let mut bus = two_terminals();
    let played = play_on_bus(rt.alloc(), &mut bus, TRANSFER, BusTold::Answers)?;
    assert!(rt; played.text.as_slice() == TRANSCRIPT);
    assert!(rt; played.warnings.is_empty() && played.fault.is_none());
    let mut again = two_terminals();
    let alone = play_on_bus(rt.alloc(), &mut again, TRANSFER, BusTold::CameTo(0))?;
    assert!(rt; alone.text.as_slice() == CAME_TO_FIVE);
    Ok(())
}

/// The first line that is refused, and a line that breaks the discipline.
#[test]
fn lines_of_a_bus_are_refused(rt: HostRuntime) -> Result<(), AllocError> {
    assert!(rt; read_bus_line(b"bit 0001") == Err(BusLineFault::NoAddress));
    assert!(rt; read_bus_line(b"05 A gap") == Err(BusLineFault::NotOfSubsystem));
    assert!(rt; read_bus_line(b"31 bit 0001") == Err(BusLineFault::HighAddress(31)));
    let mut bus = two_terminals();
    let script = b"A c 2c41\nA gap\nA gap\n07 bit 0001\n";
    let played = play_on_bus(rt.alloc(), &mut bus, script, BusTold::Answers)?;
    let fault = BusScriptFault::Line(4, BusLineFault::NoTerminal(7));
    assert!(rt; played.fault == Some(fault));
    assert!(rt; played.warnings.len() == 1 && played.warnings[0].line == 3);
    assert!(rt; played.warnings[0].breach == Breach::GapDuringReply(5));
    Ok(())
}
