//! What came to one terminal of the bus.
ghost use Rattle.std.specs.Prelude.{◌≡◌, [], ◌∷◌};
ghost use Rattle.terminal_bus.specs.Came.{events_that_came};

use terminal_rules::Event;

/// What came to one terminal of the bus in a step, in this order.
#[derive(Clone, Copy, Debug, PartialEq, Eq)]
pub struct CameTo {
    /// What the controller put on a bus, the slot, or the event of its subsystem.
    pub event: Option<Event>,
    /// In a slot, what the others sent on bus A: a word, or noise where words collided.
    pub on_a: Option<Event>,
    /// In a slot, what the others sent on bus B.
    pub on_b: Option<Event>,
}

impl CameTo {
    /// Nothing came.
    pub(crate) const NOTHING: CameTo = CameTo {
        event: None,
        on_a: None,
        on_b: None,
    };

    /// Gives an event by itself.
    pub(crate) fn only(event: Event) -> CameTo
        ensures { events_that_came result ≡ event ∷ [] }
    {
        CameTo {
            event: Some(event),
            ..CameTo::NOTHING
        }
    }
}
