//! The calls of the page: a terminal for a web browser, over canonical texts. None takes memory. A status is as that of the
//! program `rt1553`: 0 done, or the same; 1 the two differ; 2 refused; and 5 where the room that the caller gives was too
//! small. With 2 the fault is told; with the others it stays as it was.
#![tactic(auto)]

ghost use Rattle.std.specs.Prelude.{◌≡◌, ◌≢◌, ◌<◌, ◌≤◌, ℕ, List, Option, Some, Err, [], false, length, take, All, IfOk, IfErr, IsErrOf};
ghost use Rattle.bus_legal.specs.Description.{Description};
ghost use Rattle.terminal_rules.specs.declared.event.Event.{Event};
ghost use Rattle.rt1553.specs.Load.{IsCanonText, IsNoCanonText};
ghost use Rattle.rt1553.specs.Compare.{AreSame, AreDifferent, IsNotComparedCanonical};
ghost use Rattle.rt1553.specs.Engine.{RunCompletes, RunStops, OnLoad, OnScript};
ghost use Rattle.script_lines.specs.EventLine.{script_text};
ghost use Rattle.rt1553_page.specs.PageTold.{TellsRefusal, TellsStop, IsFront};
ghost use Rattle.rt1553_page.specs.Listed.{ListsAll, ListsTooMany, TellsListing};

mod listing;
mod room;
mod script;

use bus_script::RunFault;
use listing::list_rows;
use room::Room;
use rt1553::{EngineFault, Verdict, compare_canonical, load_canonical, run_canonical};
use rt1553_live::{PlainFault, event_lines, put_all, tell_fault};
use script::ScriptBytes;

const DONE: u8 = 0;

const DIFFER: u8 = 1;

const REFUSED: u8 = 2;

const NO_ROOM: u8 = 5;

/// Says whether a text is a canonical text, of version 1 or 2.
#[unsafe(no_mangle)]
pub extern "C" fn page_check(text: &[u8], fault: &mut PlainFault) -> u8
    ensures accepted { result ≡ DONE → (P : Description) × IsCanonText text.now P × (fault.new ≡ fault.old) }
    ensures refused { result ≢ DONE → (result ≡ REFUSED) × TellsRefusal (IsNoCanonText text.now) fault.new }
{
    match load_canonical(text) {
        Ok(_) => DONE,
        Err(why) => {
            tell_fault(fault, &EngineFault::Load(why));
            REFUSED
        }
    }
}

/// Says whether two canonical texts mean the same terminal. Where they don't, writes a script that shows it at the front of the
/// room, its lines with their line feeds, and how many bytes it has. A room of 4,608 bytes is enough.
#[unsafe(no_mangle)]
pub extern "C" fn page_compare(
    first: &[u8],
    second: &[u8],
    to: &mut [u8],
    filled: &mut usize,
    fault: &mut PlainFault,
) -> u8
    ensures same { result ≡ DONE → AreSame first.now second.now × (to.new ≡ to.old) × (filled.new ≡ 0) × (fault.new ≡ fault.old) }
    ensures differ { result ≡ DIFFER → (script : List Event) × AreDifferent first.now second.now script
        × (take filled.new to.new ≡ script_text script) × (fault.new ≡ fault.old) }
    ensures no_room { result ≡ NO_ROOM → (script : List Event) × AreDifferent first.now second.now script
        × (filled.new ≡ length (script_text script)) × (length to.old < length (script_text script)) × (to.new ≡ to.old) × (fault.new ≡ fault.old) }
    ensures enough { result ≡ NO_ROOM → length to.old < 4608 }
    ensures refused { result ≢ DONE → result ≢ DIFFER → result ≢ NO_ROOM → (result ≡ REFUSED)
        × TellsRefusal (IsNotComparedCanonical first.now second.now) fault.new × (to.new ≡ to.old) × (filled.new ≡ 0) }
{
    *filled = 0;
    match compare_canonical(first, second) {
        Ok(Verdict::Same) => DONE,
        Ok(Verdict::Differ(script)) => {
            if put_all(to, filled, event_lines(script.as_slice()).as_slice()) {
                DIFFER
            } else {
                NO_ROOM
            }
        }
        Err(why) => {
            tell_fault(fault, &EngineFault::Load(why));
            REFUSED
        }
    }
}

/// Plays a script to the terminal of a canonical text, from power-up, into a room in which nothing is written yet.
fn play<'a>(text: &[u8], script: &[u8], room: &mut Room<'a>) -> Result<u64, EngineFault>
    requires empty { room.old.filled ≡ 0 }
    requires fresh { room.old.failed ≡ false }
    ensures same_room { room.new.bytes.ghost_name ≡ room.old.bytes.ghost_name }
    ensures same_ends { room.new.ends.ghost_name ≡ room.old.ends.ghost_name }
    ensures done { IfOk result (RunCompletes text.now (Some script.now) (Some []) (Some (take room.new.filled room.new.bytes.now))) }
    ensures not_loaded { IfErr result (λ fault. OnLoad fault (λ f.
        IsNoCanonText text.now f × (take room.new.filled room.new.bytes.now ≡ []))) }
    ensures stopped { IfErr result (λ fault. OnScript fault (λ f. (left : Option (List ℕ))
        × RunStops text.now (Some script.now) left (Some []) (Some (take room.new.filled room.new.bytes.now)) f)) }
    ensures not_read { result ≢ Err (EngineFault.Script RunFault.Read) }
    ensures full { IsErrOf result (EngineFault.Script RunFault.Write) → room.new.filled ≡ length room.new.bytes.now }
{
    let mut source = ScriptBytes::new(script);
    run_canonical(text, &mut source, room)
}

/// Plays a script to the terminal of a canonical text, from power-up, and writes its transcript at the front of the room, and how
/// many bytes it has. Where the run is stopped, the transcript so far is there. Where it has more bytes than the room, the room
/// holds its front. Behind each line from the first event on, and once more at the end, it notes where the transcript ends by then, as long
/// as there is a place for that, and counts these notes.
#[unsafe(no_mangle)]
pub extern "C" fn page_run(
    text: &[u8],
    script: &[u8],
    to: &mut [u8],
    filled: &mut usize,
    ends: &mut [usize],
    noted: &mut usize,
    fault: &mut PlainFault,
) -> u8
    ensures done { result ≡ DONE → (n : ℕ) × RunCompletes text.now (Some script.now) (Some []) (Some (take filled.new to.new)) n
        × (fault.new ≡ fault.old) }
    ensures stopped { result ≢ DONE → result ≢ NO_ROOM → (result ≡ REFUSED) × TellsStop text.now script.now (take filled.new to.new) fault.new }
    ensures no_room { result ≡ NO_ROOM → IsFront text.now script.now (take filled.new to.new) × (filled.new ≡ length to.new)
        × (fault.new ≡ fault.old) }
    ensures noted { noted.new ≤ length ends.new }
    ensures ends { All (λ end. end ≤ filled.new) (take noted.new ends.new) }
{
    let mut room = Room::new(to, ends);
    let ended = play(text, script, &mut room);
    *filled = room.filled;
    *noted = room.noted;
    match ended {
        Ok(_) => DONE,
        Err(EngineFault::Script(RunFault::Write)) => NO_ROOM,
        Err(why) => {
            tell_fault(fault, &why);
            REFUSED
        }
    }
}

/// Lists the messages that the terminal of a canonical text has in a script, from power-up: writes a row for each at the front of the room,
/// in the order in which they are over, and how many bytes the rows have. A row is a line of fields as `rt1553-tool messages --format csv`
/// prints them. Where a line of the script is refused, the rows are those of the events before it.
#[unsafe(no_mangle)]
pub extern "C" fn page_messages(
    text: &[u8],
    script: &[u8],
    to: &mut [u8],
    filled: &mut usize,
    fault: &mut PlainFault,
) -> u8
    ensures done { result ≡ DONE → ListsAll text.now script.now (take filled.new to.new) × (fault.new ≡ fault.old) }
    ensures no_room { result ≡ NO_ROOM → ListsTooMany text.now script.now (length to.old) × (filled.new ≡ 0) × (fault.new ≡ fault.old) }
    ensures refused { result ≢ DONE → result ≢ NO_ROOM → (result ≡ REFUSED) × TellsListing text.now script.now (take filled.new to.new) fault.new }
{
    *filled = 0;
    let normal = match load_canonical(text) {
        Ok(normal) => normal,
        Err(why) => {
            tell_fault(fault, &EngineFault::Load(why));
            return REFUSED;
        }
    };
    let (ended, listed) = list_rows(normal, script, to);
    if listed.is_over {
        return NO_ROOM;
    }
    *filled = listed.bytes;
    match ended {
        None => DONE,
        Some(why) => {
            tell_fault(fault, &EngineFault::Script(why));
            REFUSED
        }
    }
}
