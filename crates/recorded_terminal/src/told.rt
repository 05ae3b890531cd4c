//! What a recording tells of the subsystem.
ghost use Rattle.std.specs.Prelude.{◌≡◌};
ghost use Rattle.terminal_recordings.specs.Completion.{flag_shown, next_set, word_set};
ghost use Rattle.bus_terminal.specs.Slots.{shown_next};
ghost use Rattle.recorded_terminal.specs.SentWords.{shown_status, shown_data};
ghost use Rattle.recorded_terminal.specs.Follows.{given_events, AreTold};

use bus_terminal::{Event, Flag, NextWord, Sent, WordPlace};
use bus_word::{Cell, Kind, mode};

/// The bits of a status word that was sent.
pub fn shown_status(sent: Option<Sent>) -> Option<u16>
    ensures { result ≡ shown_status sent }
{
    match sent {
        Some(word) => match word.kind {
            Kind::Com => Some(word.bits),
            Kind::Dat => None,
        },
        None => None,
    }
}

/// The bits of a data word that was sent.
pub fn shown_data(sent: Option<Sent>) -> Option<u16>
    ensures { result ≡ shown_data sent }
{
    match sent {
        Some(word) => match word.kind {
            Kind::Com => None,
            Kind::Dat => Some(word.bits),
        },
        None => None,
    }
}

/// Whether a status word shows a flag; it does not where there is none.
pub fn shows(status: Option<u16>, flag: Flag) -> bool
    ensures { result ≡ flag_shown status flag }
{
    let bits = match status {
        Some(bits) => bits,
        None => return false,
    };
    match flag {
        Flag::Service => bits / 256 % 2 == 1,
        Flag::Busy => bits / 8 % 2 == 1,
        Flag::Subsystem => bits / 4 % 2 == 1,
        Flag::Terminal => bits % 2 == 1,
    }
}

/// What the subsystem gives so that this word is sent next, where that is a data word of its own.
pub fn given(next: Option<NextWord>, sent: Option<Sent>) -> Option<Event>
    ensures given { given_events result ≡ next_set (shown_next next) (shown_data sent) }
    ensures told { AreTold (given_events result) }
{
    match (next, shown_data(sent)) {
        (Some(next), Some(bits)) => word_given(next.cell, next.number, bits),
        _ => None,
    }
}

/// What the subsystem gives so that this is data word `number` of a reply, by the cell of what was done.
fn word_given(cell: Option<Cell>, number: u8, bits: u16) -> Option<Event>
    ensures given { given_events result ≡ word_set cell number bits }
    ensures told { AreTold (given_events result) }
{
    match cell {
        Some(Cell::OwnTransmit(subaddress, _)) => match WordPlace::of(subaddress, number) {
            Some(place) => Some(Event::Write(place, bits)),
            None => None,
        },
        Some(Cell::OwnMode(mode::VECTOR_WORD)) => Some(Event::Vector(bits)),
        Some(Cell::OwnMode(mode::BIT_WORD)) => Some(Event::Bit(bits)),
        _ => None,
    }
}
