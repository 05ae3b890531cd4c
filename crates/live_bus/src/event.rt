//! What happens on a bus, as plain numbers.
ghost use Rattle.std.specs.Prelude.{◌≡◌, List};
ghost use Rattle.terminal_bus.specs.Members.{Member};
ghost use Rattle.live_bus.specs.BusNumbers.{for_all, directed, meant_event};
ghost use Rattle.live_bus.specs.LiveBus.{StandsAtMembers};

use crate::front::LiveBus;
use rt1553_live::plain_event;
use terminal_bus::BusEvent;
use terminal_rules::Event;

/// The address that stands for all terminals.
pub(crate) const FOR_ALL: u8 = 255;

/// What happens for all terminals where this event comes to all of them.
fn for_all(event: Event) -> Option<BusEvent>
    ensures { result ≡ for_all event }
{
    match event {
        Event::Word(_, _) | Event::Noise(_) | Event::Gap(_) => Some(BusEvent::OnBus(event)),
        Event::Slot => Some(BusEvent::SlotPasses),
        _ => None,
    }
}

/// What happens where this event comes to the terminal with an address, or to all.
fn directed(live: &LiveBus, event: Event) -> Option<BusEvent>
    ensures { (members : List Member) → StandsAtMembers members live.now → result ≡ directed members live.now.to event }
{
    if live.to == FOR_ALL {
        for_all(event)
    } else if live.bus.has_terminal(live.to) {
        Some(BusEvent::Subsystem(live.to, event))
    } else {
        None
    }
}

/// What the numbers in front of the bus mean; None where they mean nothing.
pub(crate) fn meant_event(live: &LiveBus) -> Option<BusEvent>
    ensures { (members : List Member) → StandsAtMembers members live.now → result ≡ meant_event members live.now }
{
    match plain_event(live.event) {
        Some(event) => directed(live, event),
        None => None,
    }
}
