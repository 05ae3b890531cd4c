//! The messages of a script as rows in a room. It takes no memory.
ghost use Rattle.std.specs.Prelude.{◌≡◌, ◌≤◌, ◌<◌, ◌+◌, ◌++◌, ◌∷◌, ℕ, List, [], length, map, Ok, Some, None, IfOk, IfErr};
ghost use Rattle.bus_legal.specs.Description.{Description};
ghost use Rattle.bus_legal.specs.Parts.{description_in};
ghost use Rattle.bus_legal.specs.Reach.{reach};
ghost use Rattle.terminal_rules.specs.declared.event.Event.{Event};
ghost use Rattle.terminal_rules.specs.Past.{history_after};
ghost use Rattle.script_lines.specs.Line.{meaning};
ghost use Rattle.script_lines.specs.Text.{lines_of};
ghost use Rattle.bus_script.specs.Reading.{reading, stops};
ghost use Rattle.terminal_messages.specs.Fold.{shown_closed};
ghost use Rattle.terminal_messages.specs.Messages.{closed, closed_by};
ghost use Rattle.terminal_messages.specs.Parts.{tell};
ghost use Rattle.terminal_messages.specs.Shown.{shown_slot};
ghost use Rattle.terminal_messages.specs.View.{told_view, view_listed};
ghost use Rattle.terminal_messages.specs.Watch.{WatchStands, told_event_at};
ghost use Rattle.rt1553_page.specs.Listed.{line_of_event, rows_told, script_rows};
ghost use Rattle.rt1553_page.specs.inner.Held.{Holds};

use crate::room::put;
use bus_legal::{Legality, Normal};
use bus_script::RunFault;
use bus_terminal::Event;
use message_rows::row_line;
use refused_lines::first_line;
use script_lines::{LineFault, MAX_LINE, MAX_LINES, read_event};
use terminal_messages::{ClosedMessages, KeptMessage, MessageWatch};

/// How far a room is filled.
#[derive(Clone, Copy)]
pub struct Filled {
    /// How many bytes stand in front.
    pub bytes: usize,
    /// There are more than the room has.
    pub is_over: bool,
}

/// Adds bytes behind those that a room has.
fn put_behind(to: &mut [u8], filled: &mut Filled, bytes: &[u8])
    requires { filled.old.bytes ≤ length to.old }
    ensures size { length to.new ≡ length to.old }
    ensures within { filled.new.bytes ≤ length to.new }
    ensures held { (rows : List ℕ) → Holds rows to.old filled.old → Holds (rows ++ bytes.now) to.new filled.new }
{
    if !filled.is_over {
        let count = put(to, filled.bytes, bytes);
        filled.bytes += count;
        filled.is_over = count < bytes.len();
    }
}

/// Adds the row of a message, if there is one.
fn put_slot(to: &mut [u8], filled: &mut Filled, slot: &Option<KeptMessage>)
    requires { filled.old.bytes ≤ length to.old }
    ensures size { length to.new ≡ length to.old }
    ensures within { filled.new.bytes ≤ length to.new }
    ensures held { (rows : List ℕ) → Holds rows to.old filled.old → Holds (rows ++ rows_told (view_listed (shown_slot slot.now))) to.new filled.new }
{
    if let Some(message) = slot {
        put_behind(to, filled, row_line(message).as_str().as_bytes());
    }
}

/// Adds the rows of messages that are over.
fn put_closed(to: &mut [u8], filled: &mut Filled, closed: &ClosedMessages)
    requires { filled.old.bytes ≤ length to.old }
    ensures size { length to.new ≡ length to.old }
    ensures within { filled.new.bytes ≤ length to.new }
    ensures held { (rows : List ℕ) → Holds rows to.old filled.old → Holds (rows ++ rows_told (shown_closed closed.now)) to.new filled.new }
{
    put_slot(to, filled, &closed.first);
    put_slot(to, filled, &closed.second);
    put_slot(to, filled, &closed.unheard);
}

/// The event of a line behind so many lines, if it says one.
fn event_of(lines: u64, line: &[u8]) -> Result<Option<Event>, RunFault>
    requires { lines ≤ 1048576 }
    ensures said { IfOk result (λ said. (meaning line.now ≡ Ok said) × (lines < 1048576) × (length line.now ≤ 64)) }
    ensures fault { IfErr result (λ fault. (more : List (List ℕ)) → reading lines (line.now ∷ more) ≡ stops fault) }
{
    if lines == MAX_LINES as u64 {
        return Err(RunFault::TooLong);
    }
    if line.len() > MAX_LINE {
        return Err(RunFault::LongLine(lines + 1));
    }
    match read_event(line) {
        Ok(said) => Ok(said),
        Err(LineFault) => Err(RunFault::Line(lines + 1)),
    }
}

/// Plays the event of the line of this number, if it says one, and adds the rows of the messages that are over then.
fn put_event<L: Legality>(
    watch: &mut MessageWatch<L>,
    said: Option<Event>,
    number: u64,
    to: &mut [u8],
    filled: &mut Filled,
)
    requires { filled.old.bytes ≤ length to.old }
    ensures size { length to.new ≡ length to.old }
    ensures within { filled.new.bytes ≤ length to.new }
    ensures none { said ≡ None → (watch.new ≡ watch.old) × (to.new ≡ to.old) × (filled.new ≡ filled.old) }
    ensures stands { (e : Event) (P : Description) (at : ℕ → ℕ) (h : List Event) → said ≡ Some e → WatchStands L.is_legal P at h watch.old → at (length h) ≡ number
        → WatchStands L.is_legal P at (e ∷ h) watch.new }
    ensures held { (e : Event) (P : Description) (at : ℕ → ℕ) (h : List Event) (rows : List ℕ) → said ≡ Some e → WatchStands L.is_legal P at h watch.old → at (length h) ≡ number
        → Holds rows to.old filled.old → Holds (rows ++ rows_told (map (told_view P at) (closed_by (tell P h) (told_event_at P h e)))) to.new filled.new }
{
    if let Some(event) = said {
        put_closed(to, filled, &watch.step(event, number));
    }
}

/// Plays a script, and adds the rows of the messages that are over. Gives the fault for which it ends, if it has one.
fn put_script<L: Legality>(
    watch: &mut MessageWatch<L>,
    script: &[u8],
    to: &mut [u8],
    filled: &mut Filled,
) -> Option<RunFault>
    requires { filled.old.bytes ≤ length to.old }
    ensures size { length to.new ≡ length to.old }
    ensures within { filled.new.bytes ≤ length to.new }
    ensures fault { result ≡ (reading 0 (lines_of script.now)).fault }
    ensures stands { (P : Description) → WatchStands L.is_legal P (line_of_event script.now) [] watch.old
        → WatchStands L.is_legal P (line_of_event script.now) (history_after (reading 0 (lines_of script.now)).events []) watch.new }
    ensures held { (P : Description) → WatchStands L.is_legal P (line_of_event script.now) [] watch.old → Holds [] to.old filled.old
        → Holds (rows_told (map (told_view P (line_of_event script.now)) (closed (tell P (history_after (reading 0 (lines_of script.now)).events []))))) to.new filled.new }
{
    let mut rest = script;
    let mut lines = 0;
    while !rest.is_empty() {
        let (line, more) = first_line(rest);
        let said = match event_of(lines, line) {
            Ok(said) => said,
            Err(fault) => return Some(fault),
        };
        put_event(watch, said, lines + 1, to, filled);
        lines += 1;
        rest = more;
    }
    None
}

/// Writes the rows of the messages of a terminal in a script, up to the first fault of it, to the front of a room. Gives that fault, if there
/// is one, and how far the room is filled.
pub fn list_rows(normal: Normal, script: &[u8], to: &mut [u8]) -> (Option<RunFault>, Filled)
    ensures size { length to.new ≡ length to.old }
    ensures within { result.1.bytes ≤ length to.new }
    ensures fault { result.0 ≡ (reading 0 (lines_of script.now)).fault }
    ensures held { (P : Description) × (reach P ≡ description_in normal) × Holds (script_rows P script.now) to.new result.1 }
{
    let mut filled = Filled {
        bytes: 0,
        is_over: false,
    };
    let mut watch = MessageWatch::power_up(normal.setup(), normal);
    let fault = put_script(&mut watch, script, to, &mut filled);
    put_closed(to, &mut filled, &watch.end());
    (fault, filled)
}
