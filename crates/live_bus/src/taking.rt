//! Terminals are taken from a bus, as they stand.
ghost use Rattle.std.specs.Prelude.{◌≡◌, List, Some, None, IfOk, IfErr, slice_get};
ghost use Rattle.terminal_rules.specs.Out.{Silence};
ghost use Rattle.terminal_bus.specs.Members.{Member};
ghost use Rattle.rt1553_live.specs.State.{IsMade};
ghost use Rattle.rt1553_live.specs.PlainAnswer.{answer_in};
ghost use Rattle.live_bus.specs.LiveBus.{StandsAtMembers, IsTaken};

use crate::front::LiveBus;
use bus_legal::Normal;
use bus_terminal::Terminal;
use rt1553_live::{Live, PlainAnswer, PlainEvent};
use std::alloc::Global;

/// Why no terminal is taken from a bus.
#[derive(Clone, Copy, Debug, PartialEq, Eq)]
pub enum NotTaken {
    /// The bus has no terminal at this place.
    NoTerminal,
    /// Out of memory.
    Memory,
}

/// A terminal of which nothing was asked yet.
fn unasked(terminal: Terminal<Normal>) -> Live
    requires { IsMade terminal }
    ensures silent { answer_in result.answer ≡ Some Silence }
    ensures terminal { result.terminal ≡ terminal }
{
    Live {
        event: PlainEvent::default(),
        answer: PlainAnswer::default(),
        terminal,
    }
}

/// The terminal at a place as a value of its own.
fn taken(live: &LiveBus, place: usize) -> Option<Live>
    ensures { (members : List Member) → StandsAtMembers members live.now → IsTaken (slice_get members place) result }
{
    match live.bus.terminal(place) {
        Some(terminal) => Some(unasked(terminal)),
        None => None,
    }
}

/// The terminal at a place of a bus once more: it goes on as that one does, which stays. Nothing was asked of it yet. The place is the
/// number of those that joined before it.
///
/// # Errors
///
/// `NoTerminal` if the bus has none there, else `Memory` if memory runs out.
pub fn terminal_of_bus(alloc: Global, live: &LiveBus, place: usize) -> Result<Box<Live>, NotTaken>
    ensures taken { IfOk result (λ it. (members : List Member) → StandsAtMembers members live.now → IsTaken (slice_get members place) (Some it.value)) }
    ensures refused { IfErr result (λ why. why ≡ NotTaken.NoTerminal → (members : List Member) → StandsAtMembers members live.now → slice_get members place ≡ None) }
{
    let Some(it) = taken(live, place) else {
        return Err(NotTaken::NoTerminal);
    };
    match Box::new(alloc, it) {
        Ok(it) => Ok(it),
        Err(_) => Err(NotTaken::Memory),
    }
}
