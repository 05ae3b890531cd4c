//! The run loop: reads a piece, plays the whole lines that came, and leaves the rest in the buffer for the next read.
ghost use Rattle.std.specs.Prelude.{◌≡◌, ◌≤◌, ◌<◌, ◌+◌, ◌-◌, ◌∷◌, ◌++◌, [], List, ℕ, true, false, length, take, drop, IfOk, IfErr, OnOk, OnErr, IsErrOf};
ghost use Rattle.std.specs.Io.KnownBytes.{Keeps, Consumes, IsAtEnd};
ghost use Rattle.terminal_rules.specs.declared.event.Event.{Event};
ghost use Rattle.script_lines.specs.Text.{lines_of};
ghost use Rattle.script_lines.specs.Transcript.{text_at};
ghost use Rattle.bus_script.specs.Reading.{reading, adds, stops, nothing, ByFault};
ghost use Rattle.bus_script.specs.Fault.{is_of_script};
ghost use Rattle.bus_script.specs.Played.{Played, PlayedPart, Completed, Stopped};
ghost use Rattle.bus_script.specs.inner.Lines.{IsRest};
ghost use Rattle.bus_script.specs.inner.Fed.{AreCounts, StoppedAfter};

use crate::RunFault;
use crate::answering::play_line;
use crate::feed::feed_lines;
use crate::piece::Counts;
use arrayvec::ArrayString;
use bus_legal::Legality;
use bus_terminal::Terminal;
use byte_streams::{IoFailed, Sink, Source};
use script_lines::{KnownPairs, LineReader};

/// How many bytes are read at most at once.
const BLOCK: usize = 65_536;

/// Reads behind the first `buffered` bytes, which are not played yet.
fn fill<R: Source>(reader: &mut R, buffer: &mut [u8], buffered: usize) -> Result<usize, IoFailed>
    requires { buffered < length buffer.old }
    ensures fits { IfOk result (λ n. buffered + n ≤ length buffer.new) }
    ensures ok { IfOk result (λ n. (bytes : List ℕ) × (length bytes ≡ n) × (take (buffered + n) buffer.new ≡ take buffered buffer.old ++ bytes)
        × Consumes (R.left reader.old) (R.left reader.new) bytes × (n ≡ 0 → IsAtEnd (R.left reader.new))) }
    ensures err { OnErr result (Keeps (R.left reader.old) (R.left reader.new)) }
    ensures failed { OnErr result (R.has_failed reader.new ≡ true) }
{
    match reader.read(&mut buffer[buffered..]) {
        Ok(count) => Ok(count),
        Err(_) => Err(IoFailed),
    }
}

/// Moves what stands from `done` to `total` to the front.
fn move_to_front(buffer: &mut [u8], done: usize, total: usize)
    requires within { done ≤ total }
    requires fits { total ≤ length buffer.old }
    ensures { take (total - done) buffer.new ≡ drop done (take total buffer.old) }
{
    buffer.copy_within(done..total, 0);
}

/// Flushes the writer, if there was an event.
fn flush_after_events<W: Sink>(writer: &mut W, events: u64) -> Result<(), IoFailed>
    ensures bytes { Keeps (W.written writer.old) (W.written writer.new) }
    ensures some { OnErr result (0 < events) }
    ensures failed { OnErr result (W.has_failed writer.new ≡ true) }
{
    if events == 0 {
        return Ok(());
    }
    writer.flush()
}

/// Plays a last line that lacks its line feed, and counts its event.
fn finish<L: Legality, W: Sink>(
    terminal: &mut Terminal<L>,
    writer: &mut W,
    counts: &mut Counts,
    rest: &[u8],
) -> Result<(), RunFault>
    requires rest { IsRest counts.old.lines rest.now }
    requires counts { AreCounts counts.old }
    ensures ok { OnOk result ((es : List Event) × (reading counts.old.lines (lines_of rest.now) ≡ adds es nothing) × (counts.new.events ≡ counts.old.events + length es)
        × Played L.is_legal text_at W.written (terminal.old, writer.old) (terminal.new, writer.new) es) }
    ensures fault { IfErr result (λ f. ByFault f
        ((reading counts.old.lines (lines_of rest.now) ≡ stops f) × (counts.new ≡ counts.old) × Played L.is_legal text_at W.written (terminal.old, writer.old) (terminal.new, writer.new) [])
        ⊥
        ((e : Event) × (reading counts.old.lines (lines_of rest.now) ≡ adds (e ∷ []) nothing) × (W.has_failed writer.new ≡ true)
        × PlayedPart L.is_legal W.written (terminal.old, writer.old) (terminal.new, writer.new) [] e)) }
{
    if rest.is_empty() {
        return Ok(());
    }
    let (mut reader, mut text) = (LineReader::new(), ArrayString::new());
    match play_line(terminal, writer, &mut reader, &mut text, counts.lines, rest) {
        Ok(events) => {
            counts.events += events;
            Ok(())
        }
        Err(fault) => Err(fault),
    }
}

/// Plays the lines of a script, and counts the events. The end of the transcript may be left unwritten in the writer's buffer.
fn run_lines<L: Legality, R: Source, W: Sink>(
    terminal: &mut Terminal<L>,
    reader: &mut R,
    writer: &mut W,
    counts: &mut Counts,
) -> Result<(), RunFault>
    requires reader { R.has_failed reader.old ≡ false }
    requires writer { W.has_failed writer.old ≡ false }
    requires lines { counts.old.lines ≡ 0 }
    requires events { counts.old.events ≡ 0 }

    ensures read_failed { IsErrOf result RunFault.Read → R.has_failed reader.new ≡ true }
    ensures write_failed { IsErrOf result RunFault.Write → W.has_failed writer.new ≡ true }
    ensures ok { OnOk result (Completed L.is_legal W.written (R.left reader.old) (terminal.old, writer.old) (terminal.new, writer.new) counts.new.events) }
    ensures fault { IfErr result (StoppedAfter L.is_legal W.written (R.left reader.old) (R.left reader.new) (terminal.old, writer.old) (terminal.new, writer.new) counts.new.events) }
{
    let pairs = KnownPairs::asked();
    let mut buffer = [0u8; BLOCK];
    let mut buffered = 0;
    'reads: loop {
        match flush_after_events(writer, counts.events) {
            Ok(()) => {}
            Err(_) => return Err(RunFault::Write),
        }
        let count = match fill(reader, &mut buffer, buffered) {
            Ok(count) => count,
            Err(_) => return Err(RunFault::Read),
        };
        if count == 0 {
            break 'reads;
        }
        let total = buffered + count;
        let done = match feed_lines(terminal, writer, &pairs, counts, &buffer[..total]) {
            Ok(done) => done,
            Err(fault) => return Err(fault),
        };
        move_to_front(&mut buffer, done, total);
        buffered = total - done;
    }
    finish(terminal, writer, counts, &buffer[..buffered])
}

/// Says whether the script has the fault, and no device.
fn is_of_script(fault: &RunFault) -> bool
    ensures { result ≡ is_of_script fault.now }
{
    match fault {
        RunFault::Line(_) | RunFault::LongLine(_) | RunFault::TooLong => true,
        RunFault::Read | RunFault::Write => false,
    }
}

/// Runs a script and writes its transcript, and gives the number of its events. Where there are events, the
/// writer is flushed before each read that follows one, at the end of the script, and where a line is refused; where that
/// fails, the answer is `Write`. Without events the writer is left as it was, with what a
/// caller had put into it.
pub fn run_script<L: Legality, R: Source, W: Sink>(
    terminal: &mut Terminal<L>,
    reader: &mut R,
    writer: &mut W,
) -> Result<u64, RunFault>
    requires reader { R.has_failed reader.old ≡ false }
    requires writer { W.has_failed writer.old ≡ false }

    ensures read_failed { IsErrOf result RunFault.Read → R.has_failed reader.new ≡ true }
    ensures write_failed { IsErrOf result RunFault.Write → W.has_failed writer.new ≡ true }
    ensures ok { IfOk result (Completed L.is_legal W.written (R.left reader.old) (terminal.old, writer.old) (terminal.new, writer.new)) }
    ensures fault { IfErr result (Stopped L.is_legal W.written (R.left reader.old) (R.left reader.new) (terminal.old, writer.old) (terminal.new, writer.new)) }
{
    let mut counts = Counts {
        lines: 0,
        events: 0,
    };
    match run_lines(terminal, reader, writer, &mut counts) {
        Ok(()) => match flush_after_events(writer, counts.events) {
            Ok(()) => Ok(counts.events),
            Err(_) => Err(RunFault::Write),
        },
        Err(fault) => {
            if !is_of_script(&fault) {
                return Err(fault);
            }
            match flush_after_events(writer, counts.events) {
                Ok(()) => Err(fault),
                Err(_) => Err(RunFault::Write),
            }
        }
    }
}
