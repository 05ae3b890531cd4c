//! The lines of which most scripts are made, told at fixed places: where a line feed stands there, it needs no search. The
//! lines themselves are read as any others.
ghost use Rattle.std.specs.Prelude.{◌≡◌, ◌≤◌, ◌<◌, ◌+◌, ◌*◌, ◌++◌, ℕ, true, length, take, drop, codes, IfSome, IsAscii};
ghost use Rattle.terminal_rules.specs.declared.event.Event.TheVariants.{Word as WordEvent, Gap, Slot};
ghost use Rattle.bus_word.specs.Word.{valid_word};
ghost use Rattle.bus_word.specs.declared.word.Kind.TheVariants.{Dat};
ghost use Rattle.script_lines.specs.Digits.{digits_of};
ghost use Rattle.script_lines.specs.Transcript.{bus_letter};
ghost use Rattle.script_lines.specs.EventLine.{kind_text};
ghost use Rattle.script_lines.specs.Begins.{BeginsWith};
ghost use Rattle.script_lines.specs.inner.Leads.{LeadsWord};

use crate::line::LineReader;
use bus_word::{Bus, Kind};

/// How long the line of a word with the right parity is, its line feed not counted.
pub const WORD_LINE: usize = 8;

/// How long the line of a gap is.
pub const GAP_LINE: usize = 5;

/// How long the line of a slot is.
pub const SLOT_LINE: usize = 4;

/// How many lines of slots are told at once.
pub const SLOTS: usize = 4;

impl LineReader {
    /// The bits of a word of this kind whose line stands first, with the right parity, and its bus. None, where another line stands
    /// first, or its line feed isn't there yet.
    #[inline(always)]
    pub fn first_word(&mut self, bytes: &[u8], kind: Kind) -> Option<(Bus, u16)>
        ensures { IfSome result (λ found. BeginsWith bytes.now 8 (WordEvent found.0 (valid_word kind found.1))) }
    {
        let bus = word_bus(bytes, kind)?;
        let bits = self.digits.word(bytes[4], bytes[5], bytes[6], bytes[7])?;
        Some((bus, bits))
    }

    /// The digits, small, of a data word on this bus whose line stands first, with the right parity. None, where another line
    /// stands first, or its line feed isn't there yet.
    #[inline(always)]
    pub fn first_data(&mut self, bytes: &[u8], bus: Bus) -> Option<[u8; 4]>
        ensures says { IfSome result (λ digits. (w : ℕ) × (digits ≡ digits_of w) × BeginsWith bytes.now 8 (WordEvent bus (valid_word Dat w))) }
        ensures ascii { IfSome result (λ digits. IsAscii digits) }
    {
        if is_word_on(bytes, bus, Kind::Dat) {
            return self.digits.small(bytes[4], bytes[5], bytes[6], bytes[7]);
        }
        None
    }
}

/// Whether four bytes are those of this text, told by one comparison.
#[inline(always)]
fn are(bytes: [u8; 4], text: [u8; 4]) -> bool
    ensures { result ≡ true → bytes ≡ text }
{
    u32::from_le_bytes(bytes) == u32::from_le_bytes(text)
}

/// What the line of a word on this bus begins with.
#[inline(always)]
fn word_lead(bus: Bus, kind: Kind) -> [u8; 4]
    ensures { result ≡ bus_letter bus ++ kind_text kind }
{
    match (bus, kind) {
        (Bus::A, Kind::Com) => *b"A c ",
        (Bus::A, Kind::Dat) => *b"A d ",
        (Bus::B, Kind::Com) => *b"B c ",
        (Bus::B, Kind::Dat) => *b"B d ",
    }
}

/// Whether a line stands first that is that of a word of this kind on this bus, if its digits are any.
#[inline(always)]
fn is_word_on(bytes: &[u8], bus: Bus, kind: Kind) -> bool
    ensures { result ≡ true → LeadsWord bytes.now bus kind }
{
    bytes.len() > WORD_LINE
        && bytes[WORD_LINE] == b'\n'
        && are(
            [bytes[0], bytes[1], bytes[2], bytes[3]],
            word_lead(bus, kind),
        )
}

/// On which bus that is, if on one.
#[inline(always)]
fn word_bus(bytes: &[u8], kind: Kind) -> Option<Bus>
    ensures { IfSome result (λ bus. LeadsWord bytes.now bus kind) }
{
    if is_word_on(bytes, Bus::A, kind) {
        Some(Bus::A)
    } else if is_word_on(bytes, Bus::B, kind) {
        Some(Bus::B)
    } else {
        None
    }
}

/// What the line of a gap on this bus begins with.
#[inline(always)]
fn gap_lead(bus: Bus) -> [u8; 4]
    ensures { result ≡ bus_letter bus ++ codes " ga" }
{
    match bus {
        Bus::A => *b"A ga",
        Bus::B => *b"B ga",
    }
}

/// Whether the line of a gap on this bus stands first, with its line feed.
#[inline(always)]
pub fn is_gap_first(bytes: &[u8], bus: Bus) -> bool
    ensures { result ≡ true → BeginsWith bytes.now 5 (Gap bus) }
{
    if bytes.len() > GAP_LINE && bytes[GAP_LINE] == b'\n' && bytes[4] == b'p' {
        return are([bytes[0], bytes[1], bytes[2], bytes[3]], gap_lead(bus));
    }
    false
}

/// The bus of a gap whose line stands first, with its line feed. None, where another line does, or its line feed isn't
/// there yet.
#[inline(always)]
pub fn first_gap(bytes: &[u8]) -> Option<Bus>
    ensures { IfSome result (λ bus. BeginsWith bytes.now 5 (Gap bus)) }
{
    if is_gap_first(bytes, Bus::A) {
        Some(Bus::A)
    } else if is_gap_first(bytes, Bus::B) {
        Some(Bus::B)
    } else {
        None
    }
}

/// Whether the line of a slot stands first, with its line feed.
#[inline(always)]
pub fn is_slot_first(bytes: &[u8]) -> bool
    ensures { result ≡ true → BeginsWith bytes.now 4 Slot }
{
    if bytes.len() > SLOT_LINE && bytes[SLOT_LINE] == b'\n' {
        return are([bytes[0], bytes[1], bytes[2], bytes[3]], *b"slot");
    }
    false
}

/// Four of the bytes, from this one on.
#[inline(always)]
fn four_at(bytes: &[u8], at: usize) -> [u8; 4]
    requires { at + 4 ≤ length bytes.now }
    ensures { result ≡ take 4 (drop at bytes.now) }
{
    [bytes[at], bytes[at + 1], bytes[at + 2], bytes[at + 3]]
}

/// Whether the lines of four slots stand first, with their line feeds, told by five comparisons.
#[inline(always)]
pub fn are_slots_first(bytes: &[u8]) -> bool
    ensures { result ≡ true → (k : ℕ) → k < 4 → BeginsWith (drop (5 * k) bytes.now) 4 Slot }
{
    if bytes.len() >= SLOTS * (SLOT_LINE + 1)
        && are(four_at(bytes, 0), *b"slot")
        && are(four_at(bytes, 4), *b"\nslo")
        && are(four_at(bytes, 8), *b"t\nsl")
        && are(four_at(bytes, 12), *b"ot\ns")
    {
        return are(four_at(bytes, 16), *b"lot\n");
    }
    false
}
