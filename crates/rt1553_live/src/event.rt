//! Events as plain numbers.
ghost use Rattle.std.specs.Prelude.{◌≡◌};
ghost use Rattle.rt1553_live.specs.PlainEvent.{bus_of_number, sync_of_number, flag_of_number, truth_of_number, plain_word, plain_write, plain_flag, plain_event};

use bus_terminal::{Event, Flag, WordPlace};
use bus_word::{Bus, Kind, Raw};

/// An event as plain numbers. What its kind doesn't name is not looked at.
#[repr(C)]
#[derive(Clone, Copy, Drop, PartialEq, Eq, Debug, Default)]
pub struct PlainEvent {
    /// 0 a word, 1 noise, 2 a gap, 3 a word that the subsystem writes, 4 a vector word, 5 a BIT word, 6 a flag, 7 a slot.
    pub what: u8,
    /// The bus of a word, of noise and of a gap: 0 A, 1 B.
    pub bus: u8,
    /// The sync of a word: 0 that of commands and status words, 1 that of data words.
    pub sync: u8,
    /// The parity bit of a word: 0 or 1, or 2 for the right one.
    pub parity: u8,
    /// The subaddress of a word that is written, 1 to 30.
    pub subaddress: u8,
    /// The number of a word that is written, 1 to 32.
    pub number: u8,
    /// Which flag: 0 service request, 1 busy, 2 subsystem flag, 3 terminal flag.
    pub flag: u8,
    /// What the flag becomes: 0 off, 1 on.
    pub value: u8,
    /// The 16 bits of a word, of a word that is written, of a vector word and of a BIT word.
    pub bits: u16,
}

fn bus_of_number(bus: u8) -> Option<Bus>
    ensures { result ≡ bus_of_number bus }
{
    match bus {
        0 => Some(Bus::A),
        1 => Some(Bus::B),
        _ => None,
    }
}

fn sync_of_number(sync: u8) -> Option<Kind>
    ensures { result ≡ sync_of_number sync }
{
    match sync {
        0 => Some(Kind::Com),
        1 => Some(Kind::Dat),
        _ => None,
    }
}

fn flag_of_number(flag: u8) -> Option<Flag>
    ensures { result ≡ flag_of_number flag }
{
    match flag {
        0 => Some(Flag::Service),
        1 => Some(Flag::Busy),
        2 => Some(Flag::Subsystem),
        3 => Some(Flag::Terminal),
        _ => None,
    }
}

fn truth_of_number(value: u8) -> Option<bool>
    ensures { result ≡ truth_of_number value }
{
    match value {
        0 => Some(false),
        1 => Some(true),
        _ => None,
    }
}

/// The word that is meant.
fn plain_word(plain: PlainEvent) -> Option<Raw>
    ensures { result ≡ plain_word plain }
{
    let kind = sync_of_number(plain.sync)?;
    if plain.parity == 2 {
        return Some(Raw::of(kind, plain.bits));
    }
    let parity = truth_of_number(plain.parity)?;
    Some(Raw {
        kind,
        bits: plain.bits,
        parity,
    })
}

/// The write of the subsystem that is meant.
fn plain_write(plain: PlainEvent) -> Option<Event>
    ensures { result ≡ plain_write plain }
{
    let place = WordPlace::of(plain.subaddress, plain.number)?;
    Some(Event::Write(place, plain.bits))
}

/// The change of a flag that is meant.
fn plain_flag(plain: PlainEvent) -> Option<Event>
    ensures { result ≡ plain_flag plain }
{
    let flag = flag_of_number(plain.flag)?;
    let value = truth_of_number(plain.value)?;
    Some(Event::Flag(flag, value))
}

/// The event that the numbers mean; None where they mean none.
pub fn plain_event(plain: PlainEvent) -> Option<Event>
    ensures { result ≡ plain_event plain }
{
    match plain.what {
        0 => {
            let bus = bus_of_number(plain.bus)?;
            let word = plain_word(plain)?;
            Some(Event::Word(bus, word))
        }
        1 => {
            let bus = bus_of_number(plain.bus)?;
            Some(Event::Noise(bus))
        }
        2 => {
            let bus = bus_of_number(plain.bus)?;
            Some(Event::Gap(bus))
        }
        3 => plain_write(plain),
        4 => Some(Event::Vector(plain.bits)),
        5 => Some(Event::Bit(plain.bits)),
        6 => plain_flag(plain),
        7 => Some(Event::Slot),
        _ => None,
    }
}
