//! The calls of `rt1553.h` for a bus of terminals.
ghost use Rattle.std.specs.Prelude.{◌≡◌, ◌≢◌, IfOk, IfErr};
ghost use Rattle.std.specs.Borrow.{full_share, sem};
ghost use Rattle.std.specs.Ptr.{lies_at};
ghost use base.Fml.{ftrue, fsep, fex};
ghost use Rattle.rt1553_live.specs.declared.terminal.Live.{Live};
ghost use Rattle.rt1553_live.specs.contracts.terminal.Live.{the_row};
ghost use Rattle.live_bus.specs.declared.front.LiveBus.{LiveBus};
ghost use Rattle.live_bus.specs.contracts.front.LiveBus.{the_row as the_bus_row};
ghost use Rattle.live_bus.specs.LiveBus.{IsEmptyBus, StepsAtAll, IsBusCopy};
ghost use Rattle.rt1553_c.specs.Told.{IsTold, IsNoMemory, JoinsAtAll, TakenAtAll, IsNotTaken, when_done, when_ok};

use crate::{DONE, Front, hand_over, told};
use live_bus::{
    BusAnswer, LiveBus, NotTaken, copy_bus, join_bus, new_bus, step_bus, terminal_of_bus,
};
use rt1553::LoadFault;
use rt1553_live::{Live, PlainEvent, PlainFault};
use std::alloc::Global;

/// The status of a call that is refused.
const REFUSED: u8 = 2;

/// What C sees of a bus: the event that happens next, and what came of the latest one.
#[repr(C)]
#[derive(Drop)]
pub struct BusFront {
    pub event: PlainEvent,
    pub to: u8,
    pub count: u8,
    pub collided_a: bool,
    pub collided_b: bool,
    pub answers: [BusAnswer; 31],
}

/// Makes a bus without terminals, in a block of the C library's. Where it isn't made, `to` stays as it was.
#[unsafe(no_mangle)]
pub extern "C" fn rt1553_bus_new(
    alloc: Global,
    to: &mut *mut BusFront,
    fault: &mut PlainFault,
) -> u8
    ensures* lies { sem 𝓛 (when_done result (fex LiveBus (λ w. fsep (lies_at the_bus_row full_share to.new w) (fex (IsEmptyBus w) (λ _. ftrue))))) }
    ensures done { result ≡ DONE → fault.new ≡ fault.old }
    ensures refused { result ≢ DONE → IsTold IsNoMemory fault.new result × (to.new ≡ to.old) }
{
    hand_over_bus(made_bus(alloc, fault), to)
}

/// Makes a bus without terminals; or tells that memory ran out, and gives the status for it.
fn made_bus(alloc: Global, fault: &mut PlainFault) -> Result<Box<LiveBus>, u8>
    ensures made { IfOk result (λ bus. IsEmptyBus bus.value × (fault.new ≡ fault.old)) }
    ensures refused { IfErr result (λ status. (status ≢ DONE) × IsTold IsNoMemory fault.new status) }
{
    match new_bus(alloc) {
        Some(bus) => Ok(bus),
        None => Err(told(fault, LoadFault::Memory)),
    }
}

/// Hands a bus over to the caller, who owns it from here on; or gives the status, and `to` stays as it was.
fn hand_over_bus(made: Result<Box<LiveBus>, u8>, to: &mut *mut BusFront) -> u8
    ensures* lies { sem 𝓛 (when_ok made (λ bus. lies_at the_bus_row full_share to.new bus.value)) }
    ensures done { IfOk made (λ _. result ≡ DONE) }
    ensures refused { IfErr made (λ status. (result ≡ status) × (to.new ≡ to.old)) }
{
    match made {
        Ok(bus) => {
            put_bus(bus, to);
            DONE
        }
        Err(status) => status,
    }
}

/// Puts the address of a bus where the caller wants it. The caller owns what lies there.
fn put_bus(bus: Box<LiveBus>, to: &mut *mut BusFront)
    ensures* { sem 𝓛 (lies_at the_bus_row full_share to.new bus.value) }
{
    *to = Box::into_raw(bus) as *mut BusFront;
}

/// Puts a terminal on a bus, behind the others, where it goes on as this one would: 0. This one stays the caller's, and as it is. The
/// status is 2 where a terminal of the bus has its address, and then nothing changes.
#[unsafe(no_mangle)]
pub unsafe extern "C" fn rt1553_bus_join(bus: *mut BusFront, terminal: *mut Front) -> u8
    ghost x: { LiveBus × Live }
    requires* { sem 𝓛 (fsep (lies_at the_bus_row full_share bus x.0) (lies_at the_row full_share terminal x.1)) }
    ensures* same { sem 𝓛 (lies_at the_row full_share terminal x.1) }
    ensures* lies { sem 𝓛 (fex LiveBus (λ w. fsep (lies_at the_bus_row full_share bus w) (fex (JoinsAtAll x.1 x.0 result w) (λ _. ftrue)))) }
{
    let joined = bus as *mut LiveBus;
    let live = terminal as *mut Live;
    put_on_bus(unsafe { &mut *joined }, unsafe { &mut *live })
}

/// Puts a terminal on a bus, and gives the status.
fn put_on_bus(bus: &mut LiveBus, live: &mut Live) -> u8
    ensures same { live.new ≡ live.old }
    ensures joins { JoinsAtAll live.old bus.old result bus.new }
{
    match join_bus(bus, live) {
        Ok(()) => DONE,
        Err(_) => REFUSED,
    }
}

/// Takes the event that stands in front of the bus, and leaves there what comes of it: 0. The status is 2 where the numbers mean
/// nothing that can happen, and then nothing changes.
#[unsafe(no_mangle)]
pub unsafe extern "C" fn rt1553_bus_step(bus: *mut BusFront) -> u8
    ghost x: { LiveBus }
    requires* { sem 𝓛 (lies_at the_bus_row full_share bus x) }
    ensures* { sem 𝓛 (fex LiveBus (λ w. fsep (lies_at the_bus_row full_share bus w) (fex (StepsAtAll x result w) (λ _. ftrue)))) }
{
    let live = bus as *mut LiveBus;
    step_bus(unsafe { &mut *live })
}

/// Makes a bus that goes on as this one does, with the same in front, in a block of the C library's. Where it isn't made, `to` stays
/// as it was.
#[unsafe(no_mangle)]
pub unsafe extern "C" fn rt1553_bus_copy(
    alloc: Global,
    bus: *mut BusFront,
    to: &mut *mut BusFront,
    fault: &mut PlainFault,
) -> u8
    ghost x: { LiveBus }
    requires* { sem 𝓛 (lies_at the_bus_row full_share bus x) }
    ensures* same { sem 𝓛 (lies_at the_bus_row full_share bus x) }
    ensures* lies { sem 𝓛 (when_done result (fex LiveBus (λ w. fsep (lies_at the_bus_row full_share to.new w) (fex (IsBusCopy x w) (λ _. ftrue))))) }
    ensures done { result ≡ DONE → fault.new ≡ fault.old }
    ensures refused { result ≢ DONE → IsTold IsNoMemory fault.new result × (to.new ≡ to.old) }
{
    let live = bus as *mut LiveBus;
    hand_over_bus(made_bus_copy(alloc, unsafe { &mut *live }, fault), to)
}

/// Makes a copy of a bus; or tells that memory ran out, and gives the status for it.
fn made_bus_copy(
    alloc: Global,
    bus: &mut LiveBus,
    fault: &mut PlainFault,
) -> Result<Box<LiveBus>, u8>
    ensures same { bus.new ≡ bus.old }
    ensures made { IfOk result (λ copy. IsBusCopy bus.old copy.value × (fault.new ≡ fault.old)) }
    ensures refused { IfErr result (λ status. (status ≢ DONE) × IsTold IsNoMemory fault.new status) }
{
    match copy_bus(alloc, bus) {
        Some(copy) => Ok(copy),
        None => Err(told(fault, LoadFault::Memory)),
    }
}

/// Makes a terminal that goes on as the one at a place of a bus, in a block of the C library's: the place is the number of those that
/// joined before it. Where it isn't made, `to` stays as it was; the status is 2 where the bus has no terminal there.
#[unsafe(no_mangle)]
pub unsafe extern "C" fn rt1553_bus_terminal(
    alloc: Global,
    bus: *mut BusFront,
    place: usize,
    to: &mut *mut Front,
    fault: &mut PlainFault,
) -> u8
    ghost x: { LiveBus }
    requires* { sem 𝓛 (lies_at the_bus_row full_share bus x) }
    ensures* same { sem 𝓛 (lies_at the_bus_row full_share bus x) }
    ensures* lies { sem 𝓛 (when_done result (fex Live (λ w. fsep (lies_at the_row full_share to.new w) (fex (TakenAtAll x place w) (λ _. ftrue))))) }
    ensures done { result ≡ DONE → fault.new ≡ fault.old }
    ensures refused { result ≢ DONE → IsNotTaken x place fault.old fault.new result × (to.new ≡ to.old) }
{
    let live = bus as *mut LiveBus;
    hand_over(made_taken(alloc, unsafe { &mut *live }, place, fault), to)
}

/// Makes the terminal at a place of a bus; or tells why there is none, and gives the status for it.
fn made_taken(
    alloc: Global,
    bus: &mut LiveBus,
    place: usize,
    fault: &mut PlainFault,
) -> Result<Box<Live>, u8>
    ensures same { bus.new ≡ bus.old }
    ensures made { IfOk result (λ it. TakenAtAll bus.old place it.value × (fault.new ≡ fault.old)) }
    ensures refused { IfErr result (λ status. (status ≢ DONE) × IsNotTaken bus.old place fault.old fault.new status) }
{
    match terminal_of_bus(alloc, bus, place) {
        Ok(it) => Ok(it),
        Err(NotTaken::NoTerminal) => Err(REFUSED),
        Err(NotTaken::Memory) => Err(told(fault, LoadFault::Memory)),
    }
}
