//! The discipline of a controller, as a check.
ghost use Rattle.std.specs.Prelude.{◌≡◌, ◌&&◌, ◌++◌, ℕ, List, slice_get};
ghost use Rattle.bus_word.specs.Word.{is_command};
ghost use Rattle.bus_word.specs.Command.{address_of};
ghost use Rattle.std.specs.Option.{option_map, option_to_list};
ghost use Rattle.terminal_rules.specs.LookBack.{keep, some};
ghost use Rattle.terminal_bus.specs.declared.discipline.Breach.TheVariants.{GapDuringReply};
ghost use Rattle.terminal_bus.specs.inner.Seats.{is_addressed};
ghost use Rattle.terminal_bus.specs.inner.Replying.{replier_at, awaits_at, awaited_in_places, word_breach, places_breach};

use crate::seat::{Seat, has_address};
use bus_legal::Legality;
use bus_word::{Bus, Command, Raw};
use terminal_rules::Event;
use terminal_state::{Phase, same_bus};

/// What of an event that a controller puts breaks its discipline, under which at most one terminal replies at a time.
#[derive(Clone, Copy, Debug, PartialEq, Eq)]
pub enum Breach {
    /// A gap while the terminal with this address replies, the first by its place.
    GapDuringReply(u8),
    /// A valid word of command sync with this address, while another terminal waits on its bus for the status word of the
    /// terminal that has it (MIL-STD-1553B, 4.3.3.6.3).
    CommandToAwaited(u8),
    /// No word, noise or gap.
    NotOnBus,
}

/// The address of the terminal of a place, if it replies.
fn replier<L: Legality>(place: &Option<Seat<L>>) -> Option<u8>
    ensures { result ≡ replier_at place.now }
{
    match place {
        Some(seat) => if seat.terminal.kept().reply.is_some() {
            Some(seat.address)
        } else {
            None
        },
        None => None,
    }
}

/// The first of some addresses and one more.
fn first_of(found: Option<u8>, next: Option<u8>) -> Option<u8>
    ensures { (addresses : List ℕ) → found ≡ slice_get addresses 0 → result ≡ slice_get (addresses ++ option_to_list next) 0 }
{
    match found {
        Some(address) => Some(address),
        None => next,
    }
}

/// The address of the first terminal that replies.
fn first_replier<L: Legality>(places: &[Option<Seat<L>>]) -> Option<u8>
    ensures { result ≡ slice_get (keep replier_at places.now) 0 }
{
    let mut found = None;
    for place in places {
        found = first_of(found, replier(place));
    }
    found
}

/// Tells whether the terminal of a place waits on a bus for the status word of this address, which is to be sent.
fn awaits<L: Legality>(place: &Option<Seat<L>>, bus: Bus, address: u8) -> bool
    ensures { result ≡ awaits_at bus address place.now }
{
    match place {
        Some(seat) => seat.awaits(bus, address),
        None => false,
    }
}

/// Tells whether any terminal waits so.
fn any_awaits<L: Legality>(places: &[Option<Seat<L>>], bus: Bus, address: u8) -> bool
    ensures { result ≡ some (awaits_at bus address) places.now }
{
    let mut found = false;
    for place in places {
        found = found || awaits(place, bus, address);
    }
    found
}

/// Tells whether a terminal has this address, and any waits on a bus for its status word.
fn is_awaited<L: Legality>(places: &[Option<Seat<L>>], bus: Bus, address: u8) -> bool
    ensures { result ≡ awaited_in_places places.now bus address }
{
    has_address(places, address) && any_awaits(places, bus, address)
}

/// Tells whether a word on a bus is a command to a terminal that is awaited there.
fn is_to_awaited<L: Legality>(places: &[Option<Seat<L>>], bus: Bus, word: Raw) -> bool
    ensures { result ≡ (is_command word && awaited_in_places places.now bus (address_of word.bits)) }
{
    word.is_command() && is_awaited(places, bus, Command::of(word.bits).address())
}

/// What a word on a bus breaks.
fn breach_of_word<L: Legality>(places: &[Option<Seat<L>>], bus: Bus, word: Raw) -> Option<Breach>
    ensures { result ≡ word_breach places.now bus word }
{
    if is_to_awaited(places, bus, word) {
        Some(Breach::CommandToAwaited(Command::of(word.bits).address()))
    } else {
        None
    }
}

/// What a gap breaks.
fn breach_of_gap<L: Legality>(places: &[Option<Seat<L>>]) -> Option<Breach>
    ensures { result ≡ option_map (λ a. GapDuringReply a) (slice_get (keep replier_at places.now) 0) }
{
    match first_replier(places) {
        Some(address) => Some(Breach::GapDuringReply(address)),
        None => None,
    }
}

/// What an event breaks.
pub(crate) fn breach_of<L: Legality>(places: &[Option<Seat<L>>], event: Event) -> Option<Breach>
    ensures { result ≡ places_breach places.now event }
{
    match event {
        Event::Word(bus, word) => breach_of_word(places, bus, word),
        Event::Noise(_) => None,
        Event::Gap(_) => breach_of_gap(places),
        _ => Some(Breach::NotOnBus),
    }
}
