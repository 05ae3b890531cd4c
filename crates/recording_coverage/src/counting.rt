//! The messages of some events, counted.
ghost use Rattle.std.specs.Prelude.{◌≡◌, ◌++◌, ℕ, List};
ghost use Rattle.bus_legal.specs.Description.{Description, described};
ghost use Rattle.terminal_rules.specs.declared.event.Event.{Event};
ghost use Rattle.terminal_rules.specs.Past.{history_after};
ghost use Rattle.terminal_messages.specs.View.{view_listed};
ghost use Rattle.terminal_messages.specs.Shown.{shown_slot};
ghost use Rattle.terminal_messages.specs.Fold.{shown_closed};
ghost use Rattle.terminal_messages.specs.Watch.{WatchStands};
ghost use Rattle.recording_coverage.specs.declared.outcome.MessageEnd.{MessageEnd};
ghost use Rattle.recording_coverage.specs.Endings.{ends_of};
ghost use Rattle.recording_coverage.specs.Covers.{Covers};
ghost use Rattle.recording_coverage.specs.inner.Counted.{ends_told, ends_over};

use crate::coverage::Coverage;
use crate::outcome::counted_end;
use bus_legal::{Legality, Setup};
use bus_terminal::Event;
use terminal_messages::{ClosedMessages, KeptMessage, MessageWatch};

/// Counts a message for the terminal of this address, if there is one.
fn count_message(coverage: &mut Coverage, own: u8, message: &Option<KeptMessage>)
    ensures { (ends : List MessageEnd) → Covers ends coverage.old → Covers (ends ++ ends_told own (view_listed (shown_slot message.now))) coverage.new }
{
    if let Some(message) = message {
        coverage.note(counted_end(own, &message.state));
    }
}

/// Counts messages that are over.
fn count_closed(coverage: &mut Coverage, own: u8, closed: &ClosedMessages)
    ensures { (ends : List MessageEnd) → Covers ends coverage.old → Covers (ends ++ ends_told own (shown_closed closed.now)) coverage.new }
{
    count_message(coverage, own, &closed.first);
    count_message(coverage, own, &closed.second);
    count_message(coverage, own, &closed.unheard);
}

/// Plays these events to the terminal of this address, and counts the messages that are over with them, beside those that were over before.
fn count_from<L: Legality>(
    coverage: &mut Coverage,
    own: u8,
    watch: &mut MessageWatch<L>,
    events: &[Event],
)
    ensures counts { (P : Description) (h : List Event) (ends : List MessageEnd) → own ≡ P.address → WatchStands L.is_legal P (λ _. 0) h watch.old → Covers (ends ++ ends_over P h) coverage.old → Covers (ends ++ ends_over P (history_after events.now h)) coverage.new }
    ensures stands { (P : Description) (h : List Event) → WatchStands L.is_legal P (λ _. 0) h watch.old → WatchStands L.is_legal P (λ _. 0) (history_after events.now h) watch.new }
{
    for event in events {
        let closed = watch.step(*event, 0);
        count_closed(coverage, own, &closed);
    }
}

/// Counts the messages of these events, of a terminal from power-up, beside what was counted before.
pub fn count<L: Legality + Drop>(
    coverage: &mut Coverage,
    setup: Setup,
    legality: L,
    events: &[Event],
)
    ensures { (ends : List MessageEnd) → Covers ends coverage.old → Covers (ends ++ ends_of (described setup (L.is_legal legality)) events.now) coverage.new }
{
    let own = setup.address;
    let mut watch = MessageWatch::power_up(setup, legality);
    count_from(coverage, own, &mut watch, events);
    let left = watch.end();
    count_closed(coverage, own, &left);
}
