//! A bus takes what happens.
ghost use Rattle.std.specs.Prelude.{◌≡◌, List};
ghost use Rattle.terminal_bus.specs.Members.{Member};
ghost use Rattle.live_bus.specs.LiveBus.{StandsAtMembers, IsBusStepped, StepsAtAll};

use crate::event::meant_event;
use crate::front::LiveBus;
use crate::telling::tell_answers;
use terminal_bus::BusEvent;

/// Takes what happens, and leaves in front what comes of it.
fn take_event(live: &mut LiveBus, event: BusEvent)
    ensures { (members : List Member) → StandsAtMembers members live.old → IsBusStepped members event live.old live.new }
{
    let collided = live.bus.step(event);
    live.collided_a = collided.a;
    live.collided_b = collided.b;
    live.count = tell_answers(&mut live.answers, &live.bus, &event);
}

/// Takes the event that stands in front of the bus, and leaves there what its terminals answer. Gives 0; or 2 where the numbers
/// mean nothing that can happen: then all stays as it was.
pub fn step_bus(live: &mut LiveBus) -> u8
    ensures { StepsAtAll live.old result live.new }
{
    match meant_event(live) {
        None => 2,
        Some(event) => {
            take_event(live, event);
            0
        }
    }
}
