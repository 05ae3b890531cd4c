//! A bus with a place for the event that happens next and places for what its terminals answered last.
ghost use Rattle.live_bus.specs.Made.{EachIsMade};

use bus_legal::Normal;
use rt1553_live::{PlainAnswer, PlainEvent};
use terminal_bus::TerminalBus;

/// What a terminal of the bus sent or handed over.
#[repr(C)]
#[derive(Clone, Copy, Drop, PartialEq, Eq, Debug, Default)]
pub struct BusAnswer {
    /// The address of the terminal, 0 to 30.
    pub address: u8,
    /// What it sent or handed over.
    pub answer: PlainAnswer,
}

/// A bus of terminals, behind the event that happens next and what came of the latest one.
#[repr(C)]
#[derive(Drop)]
pub struct LiveBus {
    /// The event that happens next.
    pub event: PlainEvent,
    /// The address of the terminal to which it comes alone, 0 to 30; or 255, where it happens on a bus, for all.
    pub to: u8,
    /// How many terminals sent or handed over something.
    pub count: u8,
    /// Whether words of two or more terminals collided on bus A.
    pub collided_a: bool,
    /// Whether they did on bus B.
    pub collided_b: bool,
    /// What they sent or handed over, from the front, in the order in which they joined the bus.
    pub answers: [BusAnswer; 31],
    /// Each of its terminals is set up as its own profile says.
    pub bus: TerminalBus<Normal>,
    pub ghost made: { EachIsMade bus },
}
