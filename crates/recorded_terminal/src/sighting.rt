//! What a monitor sees at one time.
ghost use Rattle.std.specs.Prelude.{◌≡◌, ◌↔◌, IfSome, false, true, None};
ghost use Rattle.terminal_recordings.specs.Recordings.{is_seen};
ghost use Rattle.terminal_recordings.specs.Seen.{can_be_seen, can_be_sent};
ghost use Rattle.recorded_terminal.specs.SentWords.{word_shown};

use bus_terminal::{Event, Sent};

/// What is seen at one time: an event on a bus, or a slot, and the word that the terminal sends in it, if it sends one.
#[derive(Clone, Copy)]
pub struct Sighting {
    /// A word, noise, a gap or a slot.
    pub event: Event,
    /// The word that the terminal sends.
    pub sent: Option<Sent>,
    ghost seen: { can_be_seen event ≡ true },
    ghost bits: { can_be_sent (word_shown sent) ≡ true },
}

impl Sighting {
    /// An event and the word that the terminal sends in it. None for an event of the subsystem, which is not seen.
    pub fn of(event: Event, sent: Option<Sent>) -> Option<Sighting>
        ensures seen { IfSome result (λ s. (s.event ≡ event) × (s.sent ≡ sent)) }
        ensures unseen { (result ≡ None) ↔ (is_seen event ≡ false) }
    {
        match event {
            Event::Word(_, _) | Event::Noise(_) | Event::Gap(_) | Event::Slot => {
                Some(Sighting { event, sent })
            }
            _ => None,
        }
    }
}
