//! What was heard, as lines of a script.
ghost use Rattle.std.specs.Prelude.{◌≡◌, ◌≤◌, ◌<◌, ◌+◌, ◌^◌, ◌++◌, ◌∷◌, [], ◌||◌, true, length, not, is_ok, decimal, codes, OnOk};
ghost use Rattle.std.specs.Io.KnownBytes.{Appends};
ghost use Rattle.arrayvec.specs.ArrayString.{array_string_len};
ghost use Rattle.bus_terminal.specs.Answer.{shown_word};
ghost use Rattle.script_lines.specs.EventLine.{event_line};
ghost use Rattle.script_lines.specs.Transcript.{sent_text};
ghost use Rattle.monitor_cells.specs.Cells.{is_time_text};
ghost use Rattle.monitor_tables.specs.Recording.{time_line, late_line, heard_line, noted_text, refused_line, HasWords, PutsRefusal};
ghost use Rattle.monitor_tables.specs.inner.Puts.{PutsNoted};

use crate::fault::{EarlyEnd, RefusedRow};
use arrayvec::ArrayString;
use bus_terminal::{Answer, Event, Sent};
use bus_word::Raw;
use byte_streams::{IoFailed, Sink, write_all};
use itoa::Buffer;
use monitor_cells::{HeardItem, kind_of_sync};
use script_lines::{push_answer, write_event};

/// The lines of one thing that was heard.
type HeardLines = ArrayString<320>;

/// Writes the line of an event.
fn push_event(lines: &mut HeardLines, event: &Event)
    requires { array_string_len lines.old ≤ 100 }
    ensures { lines.new.bytes ≡ lines.old.bytes ++ event_line event.now }
{
    lines.push_str(write_event(event).as_str());
    lines.push_str("\n");
}

/// Writes the line of an event that may have come or not, or of a slot in which the terminal may be silent.
fn push_maybe(lines: &mut HeardLines, event: &Event)
    requires { array_string_len lines.old ≤ 90 }
    ensures { lines.new.bytes ≡ lines.old.bytes ++ (codes "#? " ++ event_line event.now) }
{
    lines.push_str("#? ");
    push_event(lines, event);
}

/// Writes the line of a word that the terminal sent, behind what tells how it stands there.
fn push_sent(lines: &mut HeardLines, front: &str, sent: Sent)
    requires room { array_string_len lines.old ≤ 160 }
    requires front { length front.now ≤ 40 }
    ensures { lines.new.bytes ≡ lines.old.bytes ++ (front.now ++ sent_text (shown_word sent)) }
{
    lines.push_str(front);
    push_answer(lines, None, &Answer::Sends(sent));
}

/// Writes the comment on a word that the terminal sent too late, by so many nanoseconds.
fn push_late(lines: &mut HeardLines, sent: Sent, late: u64)
    requires { array_string_len lines.old ≤ 90 }
    ensures { lines.new.bytes ≡ lines.old.bytes ++ (late_line late ++ sent_text (shown_word sent)) }
{
    if late == 0 {
        return push_sent(lines, "# later than no response: ", sent);
    }
    lines.push_str("# later than no response by ");
    push_number(lines, (late - 1) / 1000 + 1);
    push_sent(lines, " us: ", sent);
}

/// Writes what was heard.
fn push_heard(lines: &mut HeardLines, heard: &HeardItem)
    requires { array_string_len lines.old ≤ 90 }
    ensures { lines.new.bytes ≡ lines.old.bytes ++ heard_line heard.now }
{
    match heard {
        HeardItem::Gap(bus) => push_event(lines, &Event::Gap(*bus)),
        HeardItem::Word(bus, sync, bits) => {
            push_event(
                lines,
                &Event::Word(*bus, Raw::of(kind_of_sync(*sync), *bits)),
            );
        }
        HeardItem::Noise(bus) => push_event(lines, &Event::Noise(*bus)),
        HeardItem::Reply(sent) => push_sent(lines, "slot\n#> ", *sent),
        HeardItem::Late(sent, late) => push_late(lines, *sent, *late),
        HeardItem::Slot | HeardItem::Pause => push_event(lines, &Event::Slot),
        HeardItem::MaybeSilent => push_maybe(lines, &Event::Slot),
        HeardItem::MaybeGap(bus) => push_maybe(lines, &Event::Gap(*bus)),
    }
}

/// Writes a time as a comment, if there is one.
fn push_time(lines: &mut HeardLines, time: &str)
    requires room { array_string_len lines.old ≤ 20 }
    requires short { length time.now ≤ 60 }
    ensures bytes { lines.new.bytes ≡ lines.old.bytes ++ time_line time.now }
    ensures len { array_string_len lines.new ≤ array_string_len lines.old + 63 }
{
    if !time.is_empty() {
        lines.push_str("# ");
        lines.push_str(time);
        lines.push_str("\n");
    }
}

/// The lines of what was heard, at this time.
fn heard_lines(time: &str, heard: &HeardItem) -> HeardLines
    requires { length time.now ≤ 60 }
    ensures { result.bytes ≡ noted_text (record { time = time.now; heard = heard.now }) }
{
    let mut lines = HeardLines::new();
    push_time(&mut lines, time);
    push_heard(&mut lines, heard);
    lines
}

/// A word has 16 bits.
fn has_16_bits(word: u16)
    ensures { word < 2 ^ 16 }
{}

/// A time has 64 bits.
fn has_64_bits(nanos: u64)
    ensures { nanos < 2 ^ 64 }
{}

/// Words that were heard have 16 bits.
fn has_words(heard: &HeardItem)
    ensures { HasWords heard.now }
{
    match heard {
        HeardItem::Word(_, _, bits) => has_16_bits(*bits),
        HeardItem::Reply(sent) => has_16_bits(sent.bits),
        HeardItem::Late(sent, late) => {
            has_16_bits(sent.bits);
            has_64_bits(*late);
        }
        _ => {}
    }
}

/// Writes what was heard, at this time, which may be left out.
pub fn put_heard<W: Sink>(sink: &mut W, time: &str, heard: HeardItem) -> Result<(), IoFailed>
    requires { is_time_text time.now ≡ true }
    ensures puts { OnOk result (PutsNoted W.written sink.old sink.new (record { time = time.now; heard = heard } ∷ [])) }
    ensures failed { W.has_failed sink.new ≡ (W.has_failed sink.old || not (is_ok result)) }
{
    has_words(&heard);
    let lines = heard_lines(time, &heard);
    write_all(sink, lines.as_str().as_bytes())
}

/// Writes a number.
fn push_number(lines: &mut HeardLines, number: u64)
    requires { array_string_len lines.old ≤ 120 }
    ensures bytes { lines.new.bytes ≡ lines.old.bytes ++ decimal number }
    ensures len { array_string_len lines.new ≤ array_string_len lines.old + 40 }
{
    let mut buffer = Buffer::new();
    lines.push_str(buffer.format(number));
}

/// The last line of a recording that ends early: this row was refused, and so many before it were written.
fn refused_line(row: u64, rows: u64) -> HeardLines
    ensures { result.bytes ≡ refused_line row rows }
{
    let mut lines = HeardLines::new();
    lines.push_str("#! row ");
    push_number(&mut lines, row);
    lines.push_str(" was refused; rows written: ");
    push_number(&mut lines, rows);
    lines.push_str("\n");
    lines
}

/// Writes the last line of a recording that ends early at this row.
pub fn end_early<W: Sink>(sink: &mut W, refused: RefusedRow) -> EarlyEnd
    ensures { PutsRefusal W.written W.has_failed sink.old sink.new refused result }
{
    let line = refused_line(refused.row, refused.rows);
    match write_all(sink, line.as_str().as_bytes()) {
        Ok(()) => EarlyEnd::Refused(refused),
        Err(_) => EarlyEnd::Write,
    }
}
