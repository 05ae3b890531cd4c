//! What happens on a bus of terminals.
use terminal_rules::Event;

/// What happens on a bus of terminals.
#[derive(Clone, Copy, PartialEq, Eq, Debug)]
pub enum BusEvent {
    /// The controller, or a disturbance, puts a word, noise or a gap on a bus.
    OnBus(Event),
    /// The time of one word: each terminal that replies sends its next word.
    SlotPasses,
    /// An event of the subsystem of the terminal with this address.
    Subsystem(u8, Event),
}
