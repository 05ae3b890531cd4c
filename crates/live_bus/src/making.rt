//! Buses are made, joined by terminals and copied.
ghost use Rattle.std.specs.Prelude.{◌≡◌, List, [], IfSome, OnOk, OnErr};
ghost use Rattle.std.specs.Result.{result_err};
ghost use Rattle.bus_legal.specs.Description.{Description};
ghost use Rattle.terminal_rules.specs.declared.event.Event.{Event};
ghost use Rattle.rt1553_live.specs.Live.{AnswersAs};
ghost use Rattle.terminal_bus.specs.Members.{Member};
ghost use Rattle.terminal_bus.specs.AtMembers.{not_added};
ghost use Rattle.live_bus.specs.LiveBus.{StandsAtMembers, IsEmptyBus, Joins, IsBusCopy};

use crate::event::FOR_ALL;
use crate::front::{BusAnswer, LiveBus};
use rt1553_live::{Live, PlainEvent};
use std::alloc::Global;
use terminal_bus::{NotAdded, TerminalBus};

/// A bus without terminals, of which nothing was asked yet.
fn empty_bus() -> LiveBus
    ensures { IsEmptyBus result }
{
    LiveBus {
        event: PlainEvent::default(),
        to: FOR_ALL,
        count: 0,
        collided_a: false,
        collided_b: false,
        answers: [BusAnswer::default(); 31],
        bus: TerminalBus::new(),
    }
}

/// A bus without terminals. Nothing was answered yet, and the event in front is a word for all. None where memory runs out.
pub fn new_bus(alloc: Global) -> Option<Box<LiveBus>>
    ensures { IfSome result (λ it. IsEmptyBus it.value) }
{
    Box::new(alloc, empty_bus()).ok()
}

/// Puts a terminal on a bus, behind the others: it goes on there as this one would, which stays as it is. An error leaves the
/// bus as it was.
///
/// # Errors
///
/// `SameAddress` if a terminal of the bus has its address, else `Full` if the bus has 31 terminals.
pub fn join_bus(live: &mut LiveBus, terminal: &Live) -> Result<(), NotAdded>
    ensures refused { (members : List Member) → StandsAtMembers members live.old → result_err result ≡ not_added members terminal.now.terminal.legality.address }
    ensures joined { OnOk result ((members : List Member) → StandsAtMembers members live.old → Joins members terminal.now live.old live.new) }
    ensures unchanged { OnErr result (live.new ≡ live.old) }
{
    let address = terminal.terminal.legality().address();
    live.bus.join(address, terminal.terminal.copy())
}

/// The bus once more, with the same in front. None where memory runs out.
pub fn copy_bus(alloc: Global, live: &LiveBus) -> Option<Box<LiveBus>>
    ensures { IfSome result (λ it. IsBusCopy live.now it.value) }
{
    Box::new(alloc, same_bus_again(live)).ok()
}

/// The same as a value.
fn same_bus_again(live: &LiveBus) -> LiveBus
    ensures { IsBusCopy live.now result }
{
    LiveBus {
        event: live.event,
        to: live.to,
        count: live.count,
        collided_a: live.collided_a,
        collided_b: live.collided_b,
        answers: live.answers,
        bus: live.bus.copy(),
    }
}

fn is_sent<T: Send>() {}

/// A bus may be handed from thread to thread.
pub fn bus_is_sent() {
    is_sent::<LiveBus>();
}
