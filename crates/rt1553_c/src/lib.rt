//! The calls of `rt1553.h`, for programs in C and in languages that call C. A status is as that of the program `rt1553`: 0
//! done, or the same; 1 the two differ; 2 refused; 4 out of memory; and 5 where the room that the caller gives was too
//! small. With 2 and 4 the fault is told; with the others it stays as it was.
#![tactic(auto)]

ghost use Rattle.std.specs.Prelude.{◌≡◌, ◌≢◌, ◌<◌, ℕ, List, length, take, IfOk, IfErr};
ghost use Rattle.std.specs.Borrow.{full_share, sem};
ghost use Rattle.std.specs.Ptr.{lies_at};
ghost use base.Fml.{ftrue, fsep, fex};
ghost use Rattle.bus_legal.specs.Description.{Description};
ghost use Rattle.terminal_rules.specs.declared.event.Event.{Event};
ghost use Rattle.rt1553.specs.Load.{Of, IsNotLoaded};
ghost use Rattle.rt1553.specs.Canon.{IsCanon};
ghost use Rattle.rt1553.specs.Compare.{AreSame, AreDifferent, IsNotCompared};
ghost use Rattle.rt1553.specs.Report.{exit_status_of};
ghost use Rattle.rt1553_live.specs.PlainFault.{TellsFault};
ghost use Rattle.rt1553_live.specs.declared.terminal.Live.{Live};
ghost use Rattle.rt1553_live.specs.contracts.terminal.Live.{the_row};
ghost use Rattle.rt1553_live.specs.State.{state_of};
ghost use Rattle.rt1553_live.specs.Text.{StateText};
ghost use Rattle.rt1553_live.specs.Live.{Steps, IsCopy, IsRestored};
ghost use Rattle.script_lines.specs.EventLine.{script_text};
ghost use Rattle.rt1553_c.specs.Told.{IsTold, IsNotWritten, IsTooLong, RunsThrough, IsStopped, IsPlayed, IsNoMemory, IsLongState, IsNotRestoredFor, IsNewOf, when_done, when_ok};

mod bus;
mod memory;

use memory::{TextSource, TranscriptSink};
use rt1553::{EngineFault, LoadFault, Verdict, canonical, compare, load, run};
use rt1553_live::{
    Live, PlainAnswer, PlainEvent, PlainFault, copy_live, event_lines, new_live, put_all,
    restore_live, save_live, step_live, tell_fault, tell_restore_fault,
};
use std::alloc::Global;

const DONE: u8 = 0;

const DIFFER: u8 = 1;

const NO_ROOM: u8 = 5;

/// The version of the library.
#[repr(C)]
#[derive(Clone, Copy, Drop, PartialEq, Eq, Debug)]
pub struct Version {
    pub major: u16,
    pub minor: u16,
    /// The version of the canonical texts that are written. Those of earlier versions are read.
    pub canonical_text: u16,
}

/// What C sees of a terminal: the event that is played next, and what was answered last.
#[repr(C)]
#[derive(Drop)]
pub struct Front {
    pub event: PlainEvent,
    pub answer: PlainAnswer,
}

/// The version of the library.
#[unsafe(no_mangle)]
pub extern "C" fn rt1553_version(version: &mut Version)
    ensures { version.new ≡ record { major = 0; minor = 1; canonical_text = 2 } }
{
    *version = Version {
        major: 0,
        minor: 1,
        canonical_text: 2,
    };
}

/// Tells why a text is not loaded, and gives the status for it.
fn told(fault: &mut PlainFault, why: LoadFault) -> u8
    ensures told { TellsFault fault.new (EngineFault.Load why) }
    ensures status { result ≡ exit_status_of (EngineFault.Load why) }
    ensures not_done { result ≢ DONE }
    ensures not_compared { result ≢ DIFFER }
    ensures not_room { result ≢ NO_ROOM }
{
    tell_fault(fault, &EngineFault::Load(why))
}

/// Says whether a profile text or a canonical text is accepted.
#[unsafe(no_mangle)]
pub extern "C" fn rt1553_check(alloc: Global, text: &[u8], fault: &mut PlainFault) -> u8
    ensures accepted { result ≡ DONE → (P : Description) × Of text.now P × (fault.new ≡ fault.old) }
    ensures refused { result ≢ DONE → IsTold (IsNotLoaded text.now) fault.new result }
{
    match load(alloc, text) {
        Ok(_) => DONE,
        Err(why) => told(fault, why),
    }
}

/// Writes the canonical bytes of a text at the front of the room, and how many they are. Where the room is too small it
/// stays as it was.
#[unsafe(no_mangle)]
pub extern "C" fn rt1553_canonical(
    alloc: Global,
    text: &[u8],
    to: &mut [u8],
    filled: &mut usize,
    fault: &mut PlainFault,
) -> u8
    ensures canonical { result ≡ DONE → IsCanon text.now (take filled.new to.new) × (fault.new ≡ fault.old) }
    ensures no_room { result ≡ NO_ROOM → IsTooLong text.now filled.new (length to.old) × (to.new ≡ to.old) × (fault.new ≡ fault.old) }
    ensures refused { result ≢ DONE → result ≢ NO_ROOM → IsTold (IsNotWritten text.now) fault.new result × (to.new ≡ to.old) × (filled.new ≡ 0) }
{
    *filled = 0;
    match canonical(alloc, text) {
        Ok(bytes) => {
            if put_all(to, filled, bytes.as_slice()) {
                DONE
            } else {
                NO_ROOM
            }
        }
        Err(why) => told(fault, why),
    }
}

/// Says whether two texts mean the same terminal. Where they don't, writes a script that shows it at the front of the room,
/// its lines with their line feeds, and how many bytes it has. A room of 4,608 bytes is enough.
#[unsafe(no_mangle)]
pub extern "C" fn rt1553_compare(
    alloc: Global,
    first: &[u8],
    second: &[u8],
    to: &mut [u8],
    filled: &mut usize,
    fault: &mut PlainFault,
) -> u8
    ensures same { result ≡ DONE → AreSame first.now second.now × (to.new ≡ to.old) × (filled.new ≡ 0) × (fault.new ≡ fault.old) }
    ensures differ { result ≡ DIFFER → (script : List Event) × AreDifferent first.now second.now script
        × (take filled.new to.new ≡ script_text script) × (fault.new ≡ fault.old) }
    ensures no_room { result ≡ NO_ROOM → (script : List Event) × AreDifferent first.now second.now script
        × (filled.new ≡ length (script_text script)) × (length to.old < length (script_text script)) × (to.new ≡ to.old) × (fault.new ≡ fault.old) }
    ensures enough { result ≡ NO_ROOM → length to.old < 4608 }
    ensures refused { result ≢ DONE → result ≢ DIFFER → result ≢ NO_ROOM → IsTold (IsNotCompared first.now second.now) fault.new result
        × (to.new ≡ to.old) × (filled.new ≡ 0) }
{
    *filled = 0;
    match compare(alloc, first, second) {
        Ok(Verdict::Same) => DONE,
        Ok(Verdict::Differ(script)) => {
            if put_all(to, filled, event_lines(script.as_slice()).as_slice()) {
                DIFFER
            } else {
                NO_ROOM
            }
        }
        Err(why) => told(fault, why),
    }
}

/// Plays a script to the terminal of a text, from power-up, and writes its transcript at the front of the room, and how many
/// bytes it has. Where the run is stopped, the transcript so far is there. Where it has more bytes than the room, the room stays
/// as it was.
#[unsafe(no_mangle)]
pub extern "C" fn rt1553_run(
    alloc: Global,
    profile: &[u8],
    script: &[u8],
    to: &mut [u8],
    filled: &mut usize,
    fault: &mut PlainFault,
) -> u8
    ensures done { result ≡ DONE → RunsThrough profile.now script.now (take filled.new to.new) × (fault.new ≡ fault.old) }
    ensures stopped { result ≢ DONE → result ≢ NO_ROOM → IsStopped profile.now script.now (take filled.new to.new) fault.new result }
    ensures no_room { result ≡ NO_ROOM → (transcript : List ℕ) × IsPlayed profile.now script.now transcript
        × (filled.new ≡ length transcript) × (length to.old < length transcript) × (to.new ≡ to.old) × (fault.new ≡ fault.old) }
{
    *filled = 0;
    let mut source = TextSource::new(script);
    let mut sink = TranscriptSink::new(alloc);
    match run(alloc, profile, &mut source, &mut sink) {
        Ok(_) => {
            if put_all(to, filled, sink.as_slice()) {
                DONE
            } else {
                NO_ROOM
            }
        }
        Err(EngineFault::Load(why)) => told(fault, why),
        Err(EngineFault::Script(why)) => {
            if put_all(to, filled, sink.as_slice()) {
                tell_fault(fault, &EngineFault::Script(why))
            } else {
                NO_ROOM
            }
        }
    }
}

/// Makes the terminal of a text, at power-up, in a block of the C library's. Where it isn't made, `to` stays as it was.
#[unsafe(no_mangle)]
pub extern "C" fn rt1553_terminal_new(
    alloc: Global,
    text: &[u8],
    to: &mut *mut Front,
    fault: &mut PlainFault,
) -> u8
    ensures* lies { sem 𝓛 (when_done result (fex Live (λ w. fsep (lies_at the_row full_share to.new w) (fex (IsNewOf text.now w) (λ _. ftrue))))) }
    ensures made { result ≡ DONE → (P : Description) × Of text.now P × (fault.new ≡ fault.old) }
    ensures refused { result ≢ DONE → IsTold (IsNotWritten text.now) fault.new result × (to.new ≡ to.old) }
{
    hand_over(made_new(alloc, text, fault), to)
}

/// Makes the terminal of a text, at power-up; or tells why there is none, and gives the status for it.
fn made_new(alloc: Global, text: &[u8], fault: &mut PlainFault) -> Result<Box<Live>, u8>
    ensures made { IfOk result (λ live. IsNewOf text.now live.value × (fault.new ≡ fault.old)) }
    ensures refused { IfErr result (λ status. (status ≢ DONE) × IsTold (IsNotWritten text.now) fault.new status) }
{
    match new_live(alloc, text) {
        Ok(live) => Ok(live),
        Err(why) => Err(told(fault, why)),
    }
}

/// Hands a terminal over to the caller, who owns it from here on; or gives the status, and `to` stays as it was.
pub(crate) fn hand_over(made: Result<Box<Live>, u8>, to: &mut *mut Front) -> u8
    ensures* lies { sem 𝓛 (when_ok made (λ live. lies_at the_row full_share to.new live.value)) }
    ensures done { IfOk made (λ _. result ≡ DONE) }
    ensures refused { IfErr made (λ status. (result ≡ status) × (to.new ≡ to.old)) }
{
    match made {
        Ok(live) => {
            put_live(live, to);
            DONE
        }
        Err(status) => status,
    }
}

/// Puts the address of a terminal where the caller wants it. The caller owns what lies there.
fn put_live(live: Box<Live>, to: &mut *mut Front)
    ensures* { sem 𝓛 (lies_at the_row full_share to.new live.value) }
{
    *to = Box::into_raw(live) as *mut Front;
}

/// Makes a terminal that goes on as this one does, with the same event in front and the same answer, in a block of the C library's.
/// Where it isn't made, `to` stays as it was.
#[unsafe(no_mangle)]
pub unsafe extern "C" fn rt1553_terminal_copy(
    alloc: Global,
    terminal: *mut Front,
    to: &mut *mut Front,
    fault: &mut PlainFault,
) -> u8
    ghost x: { Live }
    requires* { sem 𝓛 (lies_at the_row full_share terminal x) }
    ensures* same { sem 𝓛 (lies_at the_row full_share terminal x) }
    ensures* lies { sem 𝓛 (when_done result (fex Live (λ w. fsep (lies_at the_row full_share to.new w) (fex (IsCopy x w) (λ _. ftrue))))) }
    ensures done { result ≡ DONE → fault.new ≡ fault.old }
    ensures refused { result ≢ DONE → IsTold IsNoMemory fault.new result × (to.new ≡ to.old) }
{
    let live = terminal as *mut Live;
    hand_over(made_copy(alloc, unsafe { &mut *live }, fault), to)
}

/// Writes the state of a terminal at the front of the room, and how many bytes it has: never more than 13,028. Where the room is too
/// small it stays as it was.
#[unsafe(no_mangle)]
pub unsafe extern "C" fn rt1553_terminal_save(
    alloc: Global,
    terminal: *mut Front,
    to: &mut [u8],
    filled: &mut usize,
    fault: &mut PlainFault,
) -> u8
    ghost x: { Live }
    requires* { sem 𝓛 (lies_at the_row full_share terminal x) }
    ensures* same { sem 𝓛 (lies_at the_row full_share terminal x) }
    ensures saved { result ≡ DONE → StateText (state_of x.terminal) (take filled.new to.new) × (fault.new ≡ fault.old) }
    ensures no_room { result ≡ NO_ROOM → IsLongState (state_of x.terminal) filled.new (length to.old) × (to.new ≡ to.old) × (fault.new ≡ fault.old) }
    ensures enough { result ≡ NO_ROOM → length to.old < 13028 }
    ensures refused { result ≢ DONE → result ≢ NO_ROOM → IsTold IsNoMemory fault.new result × (to.new ≡ to.old) × (filled.new ≡ 0) }
{
    let live = terminal as *mut Live;
    put_state(alloc, unsafe { &mut *live }, to, filled, fault)
}

/// Makes a copy of a terminal; or tells that memory ran out, and gives the status for it.
fn made_copy(alloc: Global, live: &mut Live, fault: &mut PlainFault) -> Result<Box<Live>, u8>
    ensures same { live.new ≡ live.old }
    ensures made { IfOk result (λ copy. IsCopy live.old copy.value × (fault.new ≡ fault.old)) }
    ensures refused { IfErr result (λ status. (status ≢ DONE) × IsTold IsNoMemory fault.new status) }
{
    match copy_live(alloc, live) {
        Some(copy) => Ok(copy),
        None => Err(told(fault, LoadFault::Memory)),
    }
}

/// Puts the state of a terminal into a room.
fn put_state(
    alloc: Global,
    live: &mut Live,
    to: &mut [u8],
    filled: &mut usize,
    fault: &mut PlainFault,
) -> u8
    ensures same { live.new ≡ live.old }
    ensures saved { result ≡ DONE → StateText (state_of live.old.terminal) (take filled.new to.new) × (fault.new ≡ fault.old) }
    ensures no_room { result ≡ NO_ROOM → IsLongState (state_of live.old.terminal) filled.new (length to.old) × (to.new ≡ to.old) × (fault.new ≡ fault.old) }
    ensures enough { result ≡ NO_ROOM → length to.old < 13028 }
    ensures refused { result ≢ DONE → result ≢ NO_ROOM → IsTold IsNoMemory fault.new result × (to.new ≡ to.old) × (filled.new ≡ 0) }
{
    *filled = 0;
    match save_live(alloc, live) {
        Ok(state) => {
            if put_all(to, filled, state.as_slice()) {
                DONE
            } else {
                NO_ROOM
            }
        }
        Err(_) => told(fault, LoadFault::Memory),
    }
}

/// Makes the terminal of a saved state, in a block of the C library's. Where it isn't made, `to` stays as it was.
#[unsafe(no_mangle)]
pub extern "C" fn rt1553_terminal_restore(
    alloc: Global,
    state: &[u8],
    to: &mut *mut Front,
    fault: &mut PlainFault,
) -> u8
    ensures* lies { sem 𝓛 (when_done result (fex Live (λ w. fsep (lies_at the_row full_share to.new w) (fex (IsRestored state.now w) (λ _. ftrue))))) }
    ensures made { result ≡ DONE → (live : Live) × IsRestored state.now live × (fault.new ≡ fault.old) }
    ensures refused { result ≢ DONE → IsNotRestoredFor state.now fault.new result × (to.new ≡ to.old) }
{
    hand_over(made_restored(alloc, state, fault), to)
}

/// Makes the terminal of a saved state; or tells why there is none, and gives the status for it.
fn made_restored(alloc: Global, state: &[u8], fault: &mut PlainFault) -> Result<Box<Live>, u8>
    ensures made { IfOk result (λ live. IsRestored state.now live.value × (fault.new ≡ fault.old)) }
    ensures refused { IfErr result (λ status. (status ≢ DONE) × IsNotRestoredFor state.now fault.new status) }
{
    match restore_live(alloc, state) {
        Ok(live) => Ok(live),
        Err(why) => Err(tell_restore_fault(fault, &why)),
    }
}

/// Plays the event that stands in front of the terminal, and leaves there what is answered: 0. The status is 2 where the
/// numbers mean no event, and then nothing changes.
#[unsafe(no_mangle)]
pub unsafe extern "C" fn rt1553_terminal_step(terminal: *mut Front) -> u8
    ghost x: { Live }
    requires* { sem 𝓛 (lies_at the_row full_share terminal x) }
    ensures* { sem 𝓛 (fex Live (λ w. fsep (lies_at the_row full_share terminal w) (fex (Steps x result w) (λ _. ftrue)))) }
{
    let live = terminal as *mut Live;
    step_live(unsafe { &mut *live })
}
