//! Events as lines of a script.
ghost use Rattle.std.specs.Prelude.{◌≡◌, ◌≤◌, ◌+◌, ◌++◌, ◌<◌, ◌^◌, true, Ok, Some};
ghost use Rattle.arrayvec.specs.ArrayString.{array_string_len};
ghost use Rattle.bus_word.specs.Cell.{is_data_place};
ghost use Rattle.terminal_rules.specs.Same.{IsProper};
ghost use Rattle.script_lines.specs.Line.{meaning};
ghost use Rattle.script_lines.specs.Transcript.{bus_letter};
ghost use Rattle.script_lines.specs.EventLine.{word_text, place_text, flag_name, truth_field, event_text};

use crate::digits::{push_number, push_word};
use arrayvec::ArrayString;
use bus_terminal::{Event, Flag, WordPlace};
use bus_word::{Bus, Kind, Raw};

pub fn bus_letter(bus: Bus) -> &'static str
    ensures { result.now ≡ bus_letter bus }
{
    match bus {
        Bus::A => "A",
        Bus::B => "B",
    }
}

/// The name of a flag in a script.
pub fn flag_name(flag: Flag) -> &'static str
    ensures { result.now ≡ flag_name flag }
{
    match flag {
        Flag::Service => "service",
        Flag::Busy => "busy",
        Flag::Subsystem => "subsystem",
        Flag::Terminal => "terminal",
    }
}

fn truth_field(value: bool) -> &'static str
    ensures { result.now ≡ truth_field value }
{
    if value { " 1" } else { " 0" }
}

/// Writes what follows the bus, with the parity bit only where it is the wrong one.
fn push_raw(text: &mut ArrayString<64>, word: &Raw)
    requires { array_string_len text.old ≤ 40 }
    ensures bytes { text.new.bytes ≡ text.old.bytes ++ word_text word.now }
    ensures width { word.now.bits < 2 ^ 16 }
{
    text.push_str(match word.kind {
        Kind::Com => " c ",
        Kind::Dat => " d ",
    });
    push_word(text, word.bits);
    if !word.is_valid() {
        text.push_str(truth_field(word.parity));
    }
}

fn push_place(text: &mut ArrayString<64>, place: WordPlace)
    requires { array_string_len text.old ≤ 40 }
    ensures bytes { text.new.bytes ≡ text.old.bytes ++ place_text place }
    ensures len { array_string_len text.new ≡ array_string_len text.old + 5 }
    ensures there { is_data_place place.subaddress place.number ≡ true }
{
    push_number(text, place.subaddress());
    text.push_str(" ");
    push_number(text, place.number());
}

fn event_text(event: &Event) -> ArrayString<64>
    ensures text { result.bytes ≡ event_text event.now }
    ensures proper { IsProper event.now }
{
    let mut text = ArrayString::new();
    match event {
        Event::Word(bus, word) => {
            text.push_str(bus_letter(*bus));
            push_raw(&mut text, word);
        }
        Event::Noise(bus) => {
            text.push_str(bus_letter(*bus));
            text.push_str(" noise");
        }
        Event::Gap(bus) => {
            text.push_str(bus_letter(*bus));
            text.push_str(" gap");
        }
        Event::Write(place, word) => {
            text.push_str("write ");
            push_place(&mut text, *place);
            text.push_str(" ");
            push_word(&mut text, *word);
        }
        Event::Vector(word) => {
            text.push_str("vector ");
            push_word(&mut text, *word);
        }
        Event::Bit(word) => {
            text.push_str("bit ");
            push_word(&mut text, *word);
        }
        Event::Flag(flag, value) => {
            text.push_str("flag ");
            text.push_str(flag_name(*flag));
            text.push_str(truth_field(*value));
        }
        Event::Slot => text.push_str("slot"),
    }
    text
}

/// The line of an event, without its line feed, in small digits. Of a word it has the parity bit only
/// where that is the wrong one. `read_event` reads that event from it.
pub fn write_event(event: &Event) -> ArrayString<64>
    ensures text { result.bytes ≡ event_text event.now }
    ensures read { meaning result.bytes ≡ Ok (Some event.now) }
{
    event_text(event)
}
