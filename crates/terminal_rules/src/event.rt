//! What comes to a remote terminal: over the two buses, and from its subsystem.
ghost use Rattle.std.specs.Prelude.{◌≡◌, ◌≤◌};

use bus_word::{Bus, Raw, is_data_place};
use std::marker::Model;

/// One of the four conditions that the subsystem reports, and that the status word shows as they
/// stand (MIL-STD-1553B, 4.3.3.5.3).
#[derive(Clone, Copy, PartialEq, Eq, Debug)]
pub enum Flag {
    /// Service request (4.3.3.5.3.5).
    Service,
    /// Busy (4.3.3.5.3.8).
    Busy,
    /// Subsystem flag (4.3.3.5.3.9).
    Subsystem,
    /// Terminal flag (4.3.3.5.3.11).
    Terminal,
}

/// The place of a word that the subsystem holds ready: a subaddress and the number of a word there.
#[derive(Clone, Copy, PartialEq, Eq, Debug)]
pub struct WordPlace {
    subaddress: u8,
    number: u8,
}

impl Model for WordPlace {
    ghost use Rattle.std.specs.Prelude.{◌≤◌};
    ghost use Rattle.terminal_rules.specs.Place.{Place};

    ghost Value = { Place };

    ghost view = { λ p. record { subaddress = p.subaddress; number = p.number } };

    ghost invariant = { λ p. (1 ≤ p.subaddress) × (p.subaddress ≤ 30) × (1 ≤ p.number) × (p.number ≤ 32) };

    ghost inverse = { λ p. record { subaddress = p.subaddress; number = p.number } };
}

impl WordPlace {
    ghost use Rattle.std.specs.Prelude.{Some, None, if◌then◌else◌};
    ghost use Rattle.bus_word.specs.Cell.{is_data_place};

    /// Word `number`, 1 to 32, of `subaddress`, 1 to 30; None where one of the two is out of range.
    pub fn of(subaddress: u8, number: u8) -> Option<WordPlace>
        ensures { result ≡ (if is_data_place subaddress number then Some (record { subaddress = subaddress; number = number }) else None) }
    {
        if is_data_place(subaddress, number) {
            Some(WordPlace { subaddress, number })
        } else {
            None
        }
    }

    /// The subaddress, 1 to 30.
    pub fn subaddress(self) -> u8
        ensures value { result ≡ self.subaddress }
        ensures low { 1 ≤ result }
        ensures high { result ≤ 30 }
    {
        self.subaddress
    }

    /// The number of the word, 1 to 32.
    pub fn number(self) -> u8
        ensures value { result ≡ self.number }
        ensures low { 1 ≤ result }
        ensures high { result ≤ 32 }
    {
        self.number
    }
}

/// What a terminal takes one after the other. Its own words on the buses are no events.
#[derive(Clone, Copy, PartialEq, Eq, Debug)]
pub enum Event {
    /// A word on a bus, valid or not.
    Word(Bus, Raw),
    /// What is on a bus and is no word, by its sync, its code or its bit count (4.4.1.1).
    Noise(Bus),
    /// A gap on a bus: what comes after it is another transmission (4.4.1.2).
    Gap(Bus),
    /// The subsystem replaces a word that is held ready.
    Write(WordPlace, u16),
    /// The subsystem gives a new vector word.
    Vector(u16),
    /// The subsystem gives a new BIT word.
    Bit(u16),
    /// The subsystem sets a flag or takes it back.
    Flag(Flag, bool),
    /// The time of one word of a reply: the next one is sent.
    Slot,
}

/// What an array of events holds before it is filled.
impl Default for Event {
    ghost use Rattle.bus_word.specs.declared.word.Bus.TheVariants.{A};
    ghost use Rattle.terminal_rules.specs.declared.event.Event.TheVariants.{Gap};

    /// A gap on bus A.
    fn default() -> Event
        ensures { result ≡ Gap A }
    {
        Event::Gap(Bus::A)
    }
}
