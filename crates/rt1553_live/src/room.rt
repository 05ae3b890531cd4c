//! Bytes are put into the room that a caller gives.
ghost use Rattle.std.specs.Prelude.{◌≡◌, ◌≤◌, ◌<◌, ◌+◌, ◌*◌, ◌++◌, true, false, length, take};
ghost use Rattle.script_lines.specs.EventLine.{event_line, script_text};

use arrayvec::ArrayVec;
use bus_terminal::Event;
use script_lines::write_event;

/// The lines of a script, which has at most 80 events. A line has at most 65 bytes, with its line feed.
type ScriptLines = ArrayVec<u8, 5200>;

/// Puts bytes at the front of a room, and tells how many they are. False where they are more than the room, which stays as it was.
pub fn put_all(to: &mut [u8], filled: &mut usize, bytes: &[u8]) -> bool
    ensures filled { filled.new ≡ length bytes.now }
    ensures put { result ≡ true → take (length bytes.now) to.new ≡ bytes.now }
    ensures full { result ≡ false → length to.old < length bytes.now }
    ensures same { result ≡ false → to.new ≡ to.old }
{
    *filled = bytes.len();
    if bytes.len() > to.len() {
        return false;
    }
    to[..bytes.len()].copy_from_slice(bytes);
    true
}

/// Adds the line of an event, with its line feed.
fn push_event(lines: &mut ScriptLines, event: &Event)
    requires { length lines.old.items + 65 ≤ 5200 }
    ensures line { lines.new.items ≡ lines.old.items ++ event_line event.now }
    ensures short { length lines.new.items ≤ length lines.old.items + 65 }
{
    let text = write_event(event);
    let _ = lines.try_extend_from_slice(text.as_str().as_bytes());
    lines.push(b'\n');
}

/// The lines of a script.
pub fn event_lines(script: &[Event]) -> ScriptLines
    requires { length script.now ≤ 80 }
    ensures lines { result.items ≡ script_text script.now }
    ensures short { length result.items ≤ 65 * length script.now }
{
    let mut lines = ScriptLines::new();
    for event in script {
        push_event(&mut lines, event);
    }
    lines
}
