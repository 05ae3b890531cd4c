//! An event with what the terminal does with it, as far as messages go.
ghost use Rattle.std.specs.Prelude.{◌≡◌};
ghost use Rattle.terminal_rules.specs.Open.{is_on};
ghost use Rattle.terminal_messages.specs.Told.{event_bus};
ghost use Rattle.terminal_messages.specs.Parts.{is_gap_event, bits_of_word};
ghost use Rattle.terminal_messages.specs.Ends.{is_invalid, datum_heard, cause_at};

use crate::ending::ErrorCause;
use bus_terminal::{CopiedAnswer, Event};
use bus_word::{Bus, Command};
use terminal_state::{Ended, OnBuses, same_bus};

/// An event with what the terminal does with it.
#[derive(Drop)]
pub struct SeenEvent {
    /// What the caller calls it, as its line.
    pub place: u64,
    pub event: Event,
    /// It comes on the bus of the reply in progress.
    pub is_ignored: bool,
    /// It starts a message.
    pub starts: bool,
    /// How it ends the message in progress.
    pub ended: Ended,
    /// A status word was awaited on its bus.
    pub awaits: bool,
    /// The bus of the reply in progress when it came.
    pub replied: Option<Bus>,
    /// On which buses the terminal is in a message or replies, after it.
    pub engaged: OnBuses,
    pub answer: CopiedAnswer,
}

/// The bus on which an event comes.
pub fn event_bus(event: Event) -> Option<Bus>
    ensures { result ≡ event_bus event }
{
    match event {
        Event::Word(bus, _) | Event::Noise(bus) | Event::Gap(bus) => Some(bus),
        _ => None,
    }
}

/// Whether there is a bus, and it is this one.
pub fn is_on(bus: Bus, other: Option<Bus>) -> bool
    ensures { result ≡ is_on bus other }
{
    match other {
        Some(other) => same_bus(bus, other),
        None => false,
    }
}

/// The bits of a word as a command.
pub fn command_in(event: Event) -> Command
    ensures { result ≡ bits_of_word event }
{
    match event {
        Event::Word(_, word) => Command::of(word.bits),
        _ => Command::of(0),
    }
}

/// Whether this is a gap.
pub fn is_gap_event(event: Event) -> bool
    ensures { result ≡ is_gap_event event }
{
    matches!(event, Event::Gap(_))
}

/// Whether this is a word that is not valid, or noise.
pub fn is_invalid(event: Event) -> bool
    ensures { result ≡ is_invalid event }
{
    match event {
        Event::Word(_, word) => !word.is_valid(),
        Event::Noise(_) => true,
        _ => false,
    }
}

/// The bits of a valid data word.
pub fn datum_heard(event: Event) -> Option<u16>
    ensures { result ≡ datum_heard event }
{
    match event {
        Event::Word(_, word) => if word.is_data() {
            Some(word.bits)
        } else {
            None
        },
        _ => None,
    }
}

/// Why a message is in error with an event.
pub fn cause_at(event: Event, awaits: bool, has_invalid: bool, has_within: bool) -> ErrorCause
    ensures { result ≡ cause_at event awaits has_invalid has_within }
{
    match event {
        Event::Gap(_) => if awaits {
            ErrorCause::NoStatus
        } else if has_invalid {
            ErrorCause::InvalidWord
        } else if has_within {
            ErrorCause::CommandWithin
        } else {
            ErrorCause::WordCount
        },
        event => if is_invalid(event) {
            ErrorCause::InvalidWord
        } else {
            ErrorCause::NoStatus
        },
    }
}
