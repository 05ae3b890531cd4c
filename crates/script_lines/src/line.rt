//! The lines of a script.
ghost use Rattle.std.specs.Str.{bytes_eq};
ghost use Rattle.std.specs.Prelude.{codes, ◌≡◌, [], ◌∷◌, IfSome, IfNone, Some, None, length};
ghost use Rattle.bus_word.specs.Word.{valid_word};
ghost use Rattle.bus_word.specs.declared.word.Bus.{Bus};
ghost use Rattle.terminal_rules.specs.declared.event.Event.TheVariants.{Word as WordEvent};
ghost use Rattle.script_lines.specs.Text.{NoLineFeed};
ghost use Rattle.script_lines.specs.Line.{bus_first, kind_of, truth_of, word_on, event_on, bits_in, write_of, flag_to, flag_on, subsystem_event, event_of, meaning};

use crate::digits::read_number;
use crate::known_digits::KnownDigits;
use bus_terminal::{Event, Flag, WordPlace};
use bus_word::{Bus, Kind, Raw};
use line_format::after;

/// How many lines a script may have.
pub const MAX_LINES: u32 = 1_048_576;

/// How many bytes a line of a script may have before its line feed.
pub const MAX_LINE: usize = 64;

/// A line that is refused.
#[derive(Clone, Copy, Debug, PartialEq, Eq)]
pub struct LineFault;

/// Whether this is what follows the bus in the line of a gap.
#[inline(always)]
fn is_gap(rest: &[u8]) -> bool
    ensures { result ≡ bytes_eq rest.now (codes "gap") }
{
    matches!(rest, b"gap")
}

/// The bus with which a line begins: its letter and a space.
#[inline(always)]
pub fn read_bus(line: &[u8]) -> Option<Bus>
    ensures { result ≡ bus_first line.now }
{
    match line {
        [b'A', b' ', ..] => Some(Bus::A),
        [b'B', b' ', ..] => Some(Bus::B),
        _ => None,
    }
}

#[inline(always)]
fn read_kind(byte: u8) -> Option<Kind>
    ensures { result ≡ kind_of byte }
{
    match byte {
        b'c' => Some(Kind::Com),
        b'd' => Some(Kind::Dat),
        _ => None,
    }
}

fn read_truth(byte: u8) -> Option<bool>
    ensures { result ≡ truth_of byte }
{
    match byte {
        b'0' => Some(false),
        b'1' => Some(true),
        _ => None,
    }
}

/// The new value of a flag.
fn read_flag_to(flag: Flag, rest: &[u8]) -> Option<Event>
    ensures { result ≡ flag_to flag rest.now }
{
    match rest {
        [value] => {
            let value = read_truth(*value)?;
            Some(Event::Flag(flag, value))
        }
        _ => None,
    }
}

/// The name of a flag, and its new value.
fn read_flag(rest: &[u8]) -> Option<Event>
    ensures { result ≡ flag_on rest.now }
{
    if let Some(value) = after(rest, b"service ") {
        return read_flag_to(Flag::Service, value);
    }
    if let Some(value) = after(rest, b"busy ") {
        return read_flag_to(Flag::Busy, value);
    }
    if let Some(value) = after(rest, b"subsystem ") {
        return read_flag_to(Flag::Subsystem, value);
    }
    let value = after(rest, b"terminal ")?;
    read_flag_to(Flag::Terminal, value)
}

/// Reads lines of scripts, and keeps what it learnt of digits.
#[derive(Drop)]
pub struct LineReader {
    pub(crate) digits: KnownDigits,
}

impl LineReader {
    /// Knows no digit yet.
    pub fn new() -> LineReader {
        LineReader {
            digits: KnownDigits::none(),
        }
    }

    /// A word, with its parity bit or without.
    fn read_word_on(&mut self, bus: Bus, rest: &[u8]) -> Option<Event>
        ensures { result ≡ word_on bus rest.now }
    {
        match rest {
            [kind, b' ', a, b, c, d, b' ', parity] => {
                let kind = read_kind(*kind)?;
                let bits = self.digits.word(*a, *b, *c, *d)?;
                let parity = read_truth(*parity)?;
                Some(Event::Word(bus, Raw { kind, bits, parity }))
            }
            [kind, b' ', a, b, c, d] => {
                let kind = read_kind(*kind)?;
                let bits = self.digits.word(*a, *b, *c, *d)?;
                Some(Event::Word(bus, Raw::of(kind, bits)))
            }
            _ => None,
        }
    }

    /// What follows the bus.
    fn read_on_bus(&mut self, bus: Bus, rest: &[u8]) -> Option<Event>
        ensures { result ≡ event_on bus rest.now }
    {
        if is_gap(rest) {
            return Some(Event::Gap(bus));
        }
        if rest == b"noise".as_slice() {
            return Some(Event::Noise(bus));
        }
        self.read_word_on(bus, rest)
    }

    /// A word, and nothing else.
    fn read_bits(&mut self, rest: &[u8]) -> Option<u16>
        ensures { result ≡ bits_in rest.now }
    {
        match rest {
            [a, b, c, d] => self.digits.word(*a, *b, *c, *d),
            _ => None,
        }
    }

    /// A place, and the word that is written there.
    fn read_write(&mut self, rest: &[u8]) -> Option<Event>
        ensures { result ≡ write_of rest.now }
    {
        match rest {
            [s, t, b' ', i, j, b' ', a, b, c, d] => {
                let subaddress = read_number(*s, *t)?;
                let number = read_number(*i, *j)?;
                let place = WordPlace::of(subaddress, number)?;
                let word = self.digits.word(*a, *b, *c, *d)?;
                Some(Event::Write(place, word))
            }
            _ => None,
        }
    }

    /// What the subsystem does.
    fn read_subsystem(&mut self, line: &[u8]) -> Option<Event>
        ensures { result ≡ subsystem_event line.now }
    {
        if let Some(rest) = after(line, b"write ") {
            return self.read_write(rest);
        }
        if let Some(rest) = after(line, b"vector ") {
            return Some(Event::Vector(self.read_bits(rest)?));
        }
        if let Some(rest) = after(line, b"bit ") {
            return Some(Event::Bit(self.read_bits(rest)?));
        }
        let rest = after(line, b"flag ")?;
        read_flag(rest)
    }

    /// The event of a line that is neither empty nor a comment.
    fn read_line(&mut self, line: &[u8]) -> Option<Event>
        ensures { result ≡ event_of line.now }
    {
        if let Some(bus) = read_bus(line) {
            return self.read_on_bus(bus, &line[2..]);
        }
        if line == b"slot".as_slice() {
            return Some(Event::Slot);
        }
        self.read_subsystem(line)
    }

    /// The event of a line without its line feed; None for an empty line and for a comment, which begins
    /// with `#`.
    #[tactic(auto, unfolding(crate::specs::Line::meaning))]
    pub fn read_event(&mut self, line: &[u8]) -> Result<Option<Event>, LineFault>
        ensures { result ≡ meaning line.now }
    {
        match line {
            [] | [b'#', ..] => Ok(None),
            _ => match self.read_line(line) {
                Some(event) => Ok(Some(event)),
                None => Err(LineFault),
            },
        }
    }
}

/// The event of a line without its line feed; None for an empty line and for a comment, which begins
/// with `#`. Who reads many lines keeps a `LineReader`.
pub fn read_event(line: &[u8]) -> Result<Option<Event>, LineFault>
    ensures { result ≡ meaning line.now }
{
    LineReader::new().read_event(line)
}
