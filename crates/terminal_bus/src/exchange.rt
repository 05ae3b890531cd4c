//! What the terminals of a bus do with an event, and with the words that they send in a slot.
ghost use Rattle.std.specs.Prelude.{◌≡◌, [], ◌∷◌, ◌++◌, List};
ghost use Rattle.std.specs.Option.{option_map, option_to_list};
ghost use Rattle.bus_word.specs.declared.word.Bus.{Bus};
ghost use Rattle.bus_terminal.specs.Answer.{shown_word};
ghost use Rattle.terminal_rules.specs.LookBack.{keep};
ghost use Rattle.terminal_rules.specs.Out.{Sending};
ghost use Rattle.terminal_bus.specs.Members.{heard_of, unless_sends};
ghost use Rattle.terminal_bus.specs.AtMembers.{seat_at, EachSeat, AtSeat};
ghost use Rattle.terminal_bus.specs.inner.Seats.{SeatSteps, SeatTakes, StepsIfAddressed, Hears, sends_at, are_many};

use crate::seat::Seat;
use bus_legal::Legality;
use bus_terminal::{CopiedAnswer, Sent};
use bus_word::{Bus, Raw};
use terminal_rules::Event;

/// The terminal of a place takes an event, and keeps its answer.
fn step_at<L: Legality>(place: &mut Option<Seat<L>>, event: &Event)
    ensures { AtSeat (SeatSteps L.is_legal event.now) place.old place.new }
{
    match place {
        Some(seat) => seat.step(*event),
        None => {}
    }
}

/// Each terminal takes an event, and keeps its answer.
pub(crate) fn each_steps<L: Legality>(places: &mut [Option<Seat<L>>], event: &Event)
    ensures { EachSeat (SeatSteps L.is_legal event.now) places.old places.new }
{
    for place in places.iter_mut() {
        step_at(place, event);
    }
}

/// The terminal of a place takes an event of its subsystem, if it has this address. Else its answer is none.
fn step_addressed<L: Legality>(place: &mut Option<Seat<L>>, address: u8, event: &Event)
    ensures { AtSeat (StepsIfAddressed L.is_legal address event.now) place.old place.new }
{
    match place {
        Some(seat) => if seat.address == address {
            seat.step(*event);
        } else {
            seat.answer = CopiedAnswer::Silent;
        },
        None => {}
    }
}

/// The terminal with this address takes an event, and the others have no answer.
pub(crate) fn addressed_steps<L: Legality>(
    places: &mut [Option<Seat<L>>],
    address: u8,
    event: &Event,
)
    ensures { EachSeat (StepsIfAddressed L.is_legal address event.now) places.old places.new }
{
    for place in places.iter_mut() {
        step_addressed(place, address, event);
    }
}

/// The word that the terminal of a place sends on a bus in this slot.
fn sent_at<L: Legality>(place: &Option<Seat<L>>, bus: Bus) -> Option<Sent>
    ensures { option_map shown_word result ≡ sends_at bus place.now }
{
    match place {
        Some(seat) => seat.sent_on(bus),
        None => None,
    }
}

/// The word that the terminal at a place sends on a bus in this slot.
pub(crate) fn sent_by<L: Legality>(
    places: &[Option<Seat<L>>],
    place: usize,
    bus: Bus,
) -> Option<Sent>
    ensures { option_map shown_word result ≡ sends_at bus (seat_at places.now place) }
{
    match places.get(place) {
        Some(seat) => sent_at(seat, bus),
        None => None,
    }
}

/// What comes on a bus of the words so far, and of one more or none.
fn with_sent(bus: Bus, so_far: Option<Event>, sent: Option<Sent>) -> Option<Event>
    ensures { (words : List Sending) → option_to_list so_far ≡ heard_of bus words → option_to_list result ≡ heard_of bus (words ++ option_to_list (option_map shown_word sent)) }
{
    match sent {
        None => so_far,
        Some(sent) => match so_far {
            None => Some(Event::Word(bus, Raw::of(sent.kind, sent.bits))),
            Some(_) => Some(Event::Noise(bus)),
        },
    }
}

/// What comes on a bus of the words that the terminals send there in this slot.
pub(crate) fn heard_from<L: Legality>(places: &[Option<Seat<L>>], bus: Bus) -> Option<Event>
    ensures { option_to_list result ≡ heard_of bus (keep (sends_at bus) places.now) }
{
    let mut heard = None;
    for place in places {
        heard = with_sent(bus, heard, sent_at(place, bus));
    }
    heard
}

/// What comes on a bus of those words to a terminal that sends this there in this slot, or nothing.
pub(crate) fn heard_unless<L: Legality>(
    sent: Option<Sent>,
    places: &[Option<Seat<L>>],
    bus: Bus,
) -> Option<Event>
    ensures { option_to_list result ≡ unless_sends (option_map shown_word sent) (heard_of bus (keep (sends_at bus) places.now)) }
{
    match sent {
        Some(_) => None,
        None => heard_from(places, bus),
    }
}

/// This comes to the terminal of a place, if it sends nothing on the bus in this slot.
fn hear_at<L: Legality>(place: &mut Option<Seat<L>>, bus: Bus, event: &Event)
    ensures { AtSeat (Hears L.is_legal bus (event.now ∷ [])) place.old place.new }
{
    match place {
        Some(seat) => if seat.sent_on(bus).is_none() {
            seat.take(*event);
        },
        None => {}
    }
}

/// This comes to each terminal that sends nothing on the bus in this slot.
fn each_hears<L: Legality>(places: &mut [Option<Seat<L>>], bus: Bus, event: &Event)
    ensures { EachSeat (Hears L.is_legal bus (event.now ∷ [])) places.old places.new }
{
    for place in places.iter_mut() {
        hear_at(place, bus, event);
    }
}

/// Tells whether what comes on a bus is noise.
fn is_noise(heard: &Option<Event>) -> bool
    ensures { (b : Bus) (words : List Sending) → option_to_list heard.now ≡ heard_of b words → result ≡ are_many words }
{
    match heard {
        Some(event) => matches!(event, Event::Noise(_)),
        None => false,
    }
}

/// The words that were sent on a bus in this slot come to the terminals that sent nothing there. Tells whether two or more
/// collided.
pub(crate) fn exchange<L: Legality>(places: &mut [Option<Seat<L>>], bus: Bus) -> bool
    ensures hears { EachSeat (Hears L.is_legal bus (heard_of bus (keep (sends_at bus) places.old))) places.old places.new }
    ensures collides { result ≡ are_many (keep (sends_at bus) places.old) }
{
    let heard = heard_from(places, bus);
    if let Some(event) = &heard {
        each_hears(places, bus, event);
    }
    is_noise(&heard)
}
