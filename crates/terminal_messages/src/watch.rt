//! A run of a terminal, and the messages of it, event by event.
ghost use Rattle.std.specs.Prelude.{◌≡◌, ℕ, ◌∷◌, [], List, length, map};
ghost use Rattle.bus_legal.specs.Description.{Description, described};
ghost use Rattle.terminal_rules.specs.declared.event.Event.{Event};
ghost use Rattle.terminal_rules.specs.Past.{past};
ghost use Rattle.terminal_rules.specs.Reply.{reply_now, reply_bus};
ghost use Rattle.bus_terminal.specs.Answer.{shown_copy};
ghost use Rattle.bus_terminal.specs.Stands.{StandsAt};
ghost use Rattle.terminal_messages.specs.Told.{event_bus};
ghost use Rattle.terminal_messages.specs.Parts.{awaits_on, tell};
ghost use Rattle.terminal_messages.specs.Messages.{closed_by, still_open};
ghost use Rattle.terminal_messages.specs.View.{told_view};
ghost use Rattle.terminal_messages.specs.Fold.{shown_closed};
ghost use Rattle.terminal_messages.specs.Watch.{told_event_at, is_on_that, EngagedOn, SeesEvent, WatchStands};

use crate::fold::{ClosedMessages, MessageFold, OwnAddress};
use crate::seen::{SeenEvent, event_bus, is_on};
use bus_legal::{Legality, Setup};
use bus_terminal::{CopiedAnswer, Event, Terminal};
use bus_word::Bus;
use terminal_state::OnBuses;

/// The bus of the reply in progress.
fn reply_bus<L: Legality>(terminal: &Terminal<L>) -> Option<Bus>
    ensures { (P : Description) (h : List Event) → StandsAt L.is_legal P h terminal.now → result ≡ reply_bus (reply_now (past P h)) }
{
    match terminal.next_word() {
        Some(word) => Some(word.bus),
        None => None,
    }
}

/// Whether an event comes on this bus.
fn comes_on(event: Event, bus: Option<Bus>) -> bool
    ensures { result ≡ is_on_that (event_bus event) bus }
{
    match event_bus(event) {
        Some(on) => is_on(on, bus),
        None => false,
    }
}

/// Whether a status word is awaited on the bus of an event.
fn awaits<L: Legality>(terminal: &Terminal<L>, event: Event) -> bool
    ensures { (P : Description) (h : List Event) → StandsAt L.is_legal P h terminal.now → result ≡ awaits_on P (past P h) (event_bus event) }
{
    match event_bus(event) {
        Some(bus) => terminal.awaits_status(bus).is_some(),
        None => false,
    }
}

/// Plays an event, and keeps what is answered.
fn played<L: Legality>(terminal: &mut Terminal<L>, event: Event) -> CopiedAnswer
    ensures answer { (P : Description) (h : List Event) → StandsAt L.is_legal P h terminal.old → shown_copy result ≡ (told_event_at P h event).answer }
    ensures stands { (P : Description) (h : List Event) → StandsAt L.is_legal P h terminal.old → StandsAt L.is_legal P (event ∷ h) terminal.new }
{
    let answer = terminal.step(event);
    CopiedAnswer::of(answer)
}

/// On which buses the terminal is in a message or replies.
fn engaged<L: Legality>(terminal: &Terminal<L>) -> OnBuses
    ensures { (P : Description) (h : List Event) → StandsAt L.is_legal P h terminal.now → EngagedOn P h result }
{
    OnBuses {
        a: terminal.is_engaged(Bus::A),
        b: terminal.is_engaged(Bus::B),
    }
}

/// Plays an event, which the caller calls so, and gives what messages are told by.
pub fn see_event<L: Legality>(terminal: &mut Terminal<L>, event: &Event, place: u64) -> SeenEvent
    ensures seen { (P : Description) (h : List Event) (at : ℕ → ℕ) → StandsAt L.is_legal P h terminal.old → at (length h) ≡ place → SeesEvent P at h event.now result }
    ensures stands { (P : Description) (h : List Event) → StandsAt L.is_legal P h terminal.old → StandsAt L.is_legal P (event.now ∷ h) terminal.new }
{
    let replied = reply_bus(terminal);
    let starts = terminal.will_start(*event);
    let ended = terminal.ending(*event);
    let awaits = awaits(terminal, *event);
    let answer = played(terminal, *event);
    SeenEvent {
        place,
        event: *event,
        is_ignored: comes_on(*event, replied),
        starts,
        ended,
        awaits,
        replied,
        engaged: engaged(terminal),
        answer,
    }
}

/// A run of a terminal, and the messages that are not over.
#[derive(Drop)]
pub struct MessageWatch<L> {
    terminal: Terminal<L>,
    fold: MessageFold,
}

impl<L: Legality> MessageWatch<L> {
    /// A run that begins at power-up.
    pub fn power_up(setup: Setup, legality: L) -> MessageWatch<L>
        ensures { (at : ℕ → ℕ) → WatchStands L.is_legal (described setup (L.is_legal legality)) at [] result }
    {
        let own = OwnAddress {
            address: setup.address,
            broadcast: setup.broadcast,
        };
        MessageWatch {
            terminal: Terminal::power_up(setup, legality),
            fold: MessageFold::none(own),
        }
    }

    /// Plays an event, which the caller calls so, and gives the messages that are over with it.
    pub fn step(&mut self, event: Event, place: u64) -> ClosedMessages
        ensures stands { (P : Description) (at : ℕ → ℕ) (h : List Event) → WatchStands L.is_legal P at h self.old → at (length h) ≡ place → WatchStands L.is_legal P at (event ∷ h) self.new }
        ensures closed { (P : Description) (at : ℕ → ℕ) (h : List Event) → WatchStands L.is_legal P at h self.old → at (length h) ≡ place → shown_closed result ≡ map (told_view P at) (closed_by (tell P h) (told_event_at P h event)) }
    {
        let seen = see_event(&mut self.terminal, &event, place);
        self.fold.step(&seen)
    }

    /// Gives the messages that are not over when the run ends.
    pub fn end(&mut self) -> ClosedMessages
        ensures { (P : Description) (at : ℕ → ℕ) (h : List Event) → WatchStands L.is_legal P at h self.old → shown_closed result ≡ map (told_view P at) (still_open (tell P h)) }
    {
        self.fold.end()
    }
}
