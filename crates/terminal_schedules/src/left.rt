//! What is left behind at terminals that are not clear.
ghost use Rattle.std.specs.Prelude.{◌≡◌, ◌≤◌, List, Some, slice_get, IfNone};
ghost use Rattle.bus_legal.specs.Description.{Description};
ghost use Rattle.terminal_rules.specs.declared.event.Event.{Event};
ghost use Rattle.terminal_state.specs.Buses.{on_bus};
ghost use Rattle.bus_terminal.specs.Stands.{StandsAt};
ghost use Rattle.terminal_bus.specs.Members.{Member, member_at};
ghost use Rattle.terminal_bus.specs.AtMembers.{BusStandsAt};
ghost use Rattle.terminal_bus.specs.Lists.{Each};
ghost use Rattle.terminal_bus.specs.OneSpeaker.{AddressesDiffer};
ghost use Rattle.terminal_schedules.specs.Left.{first_bus, what_is_left, left_there, left_at, first_left, left_alone, IsClearBus};
ghost use Rattle.terminal_schedules.specs.inner.Kept.{bus_of_message, left_by};

use bus_legal::Legality;
use bus_terminal::Terminal;
use bus_word::Bus;
use terminal_bus::{BusEvent, TerminalBus};
use terminal_state::{InProgress, OnBuses, Registers, Reply};

/// What is left behind at a terminal.
#[derive(Clone, Copy, PartialEq, Eq, Debug)]
pub enum LeftBehind {
    /// A message is in progress on this bus.
    Message(Bus),
    /// The run of this bus holds a word for the terminal: no gap came behind it.
    WordInRun(Bus),
    /// A reply is in progress.
    Reply,
    /// The transmitter of this bus is shut down.
    ShutDown(Bus),
    /// The terminal is busy.
    Busy,
    /// The status that it keeps has message error.
    MessageError,
}

/// What is left behind at a terminal of a bus.
#[derive(Clone, Copy, PartialEq, Eq, Debug)]
pub struct LeftAt {
    /// The address of the terminal, 0 to 30.
    pub address: u8,
    pub what: LeftBehind,
}

/// The first of the two buses of which this holds.
fn first_bus(on: OnBuses) -> Option<Bus>
    ensures { result ≡ first_bus (λ b. on_bus b on) }
{
    if on.a {
        Some(Bus::A)
    } else if on.b {
        Some(Bus::B)
    } else {
        None
    }
}

/// The bus of the message in progress.
fn bus_of_message(in_progress: &InProgress) -> Option<Bus>
    ensures { result ≡ bus_of_message in_progress.now.message }
{
    match &in_progress.message {
        Some(message) => Some(message.bus),
        None => None,
    }
}

/// What is left behind at a terminal that keeps this.
fn left_by(
    in_progress: &InProgress,
    heard: OnBuses,
    reply: Option<Reply>,
    registers: &Registers,
) -> Option<LeftBehind>
    ensures { result ≡ left_by in_progress.now heard reply registers.now }
{
    if let Some(bus) = bus_of_message(in_progress) {
        Some(LeftBehind::Message(bus))
    } else if let Some(bus) = first_bus(heard) {
        Some(LeftBehind::WordInRun(bus))
    } else if reply.is_some() {
        Some(LeftBehind::Reply)
    } else if let Some(bus) = first_bus(registers.off) {
        Some(LeftBehind::ShutDown(bus))
    } else if registers.flags.busy {
        Some(LeftBehind::Busy)
    } else if registers.kept.error {
        Some(LeftBehind::MessageError)
    } else {
        None
    }
}

/// What is left behind at a terminal: the first of a message in progress, a word for it in the run of a bus, a reply in progress, a
/// transmitter shut down, busy, and a message error that is kept. None where the terminal is clear.
pub fn left_behind<L: Legality>(terminal: &Terminal<L>) -> Option<LeftBehind>
    ensures { (P : Description) (h : List Event) → StandsAt L.is_legal P h terminal.now → result ≡ what_is_left (member_at P h) }
{
    let kept = terminal.kept();
    left_by(kept.in_progress, kept.heard, kept.reply, kept.registers)
}

/// The same with the address of the terminal.
fn left_there(address: u8, what: Option<LeftBehind>) -> Option<LeftAt>
    ensures { result ≡ left_there address what }
{
    match what {
        Some(what) => Some(LeftAt { address, what }),
        None => None,
    }
}

/// The same of the terminal at a place of a bus.
fn left_at<L: Legality + Copy>(bus: &TerminalBus<L>, place: usize) -> Option<LeftAt>
    ensures { (members : List Member) (m : Member) → BusStandsAt L.is_legal members bus.now → slice_get members place ≡ Some m → result ≡ left_at m }
{
    match bus.answer(place) {
        Some(it) => match bus.terminal(place) {
            Some(terminal) => left_there(it.address, left_behind(&terminal)),
            None => None,
        },
        None => None,
    }
}

/// What is left behind at the first terminal of a bus that is not clear.
fn first_left<L: Legality + Copy>(bus: &TerminalBus<L>) -> Option<LeftAt>
    ensures { (members : List Member) → BusStandsAt L.is_legal members bus.now → result ≡ first_left members }
{
    for place in 0..bus.len() {
        let left = left_at(bus, place);
        if left.is_some() {
            return left;
        }
    }
    None
}

/// Plays a message to the terminals of a bus, each of which is clear. Tells what it leaves behind, which is what it leaves alone, from
/// power-up: at the first terminal that is not clear after it. None where each is clear again.
pub fn play_to_clear<L: Legality + Copy>(
    bus: &mut TerminalBus<L>,
    message: &[BusEvent],
) -> Option<LeftAt>
    ensures left { (Ps : List Description) → AddressesDiffer Ps → Each (λ P. P.address ≤ 30) Ps → IsClearBus L.is_legal Ps bus.old → result ≡ left_alone Ps message.now }
    ensures clear { IfNone result ((Ps : List Description) → IsClearBus L.is_legal Ps bus.old → IsClearBus L.is_legal Ps bus.new) }
{
    for event in message {
        let _ = bus.step(*event);
    }
    first_left(bus)
}
