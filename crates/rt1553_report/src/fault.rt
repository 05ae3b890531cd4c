//! What is wrong with a unit, by the word that was recorded in a slot and that which the terminal sends there.
ghost use Rattle.std.specs.Prelude.{◌≡◌, ◌<◌, ◌++◌, [], ◌∷◌, None, IfOk, OnOk, option_map, string_bytes};
ghost use Rattle.std.specs.List.{flat_map};
ghost use Rattle.std.specs.Option.{unwrap_or};
ghost use Rattle.script_lines.specs.Digits.{word_of};
ghost use Rattle.rt1553_report.specs.Recorded.{bit_name, bit_state, bit_told, differing_bit, is_first, is_bit_on, bit_mask, other_bits, other_status, other_word, slot_fault, line_word, all_status_bits, fault_by_words, late_text, lateness, no_reply, shortfall, too_late, too_short};

use bus_word::Command;
use script_lines::read_word;
use std::alloc::{AllocError, Global};

/// A word of a transcript.
#[derive(Clone, Copy)]
pub struct SlotWord {
    /// The letter of its bus.
    pub bus: u8,
    /// Whether it is a status word, or else a data word.
    pub is_status: bool,
    /// Its bits, 0 of a data word that is left open.
    pub bits: u16,
}

/// A bit of a status word behind its address (MIL-STD-1553B, 4.3.3.5.3).
#[derive(Clone, Copy)]
pub enum StatusBit {
    MessageError,
    Instrumentation,
    ServiceRequest,
    Reserved1,
    Reserved2,
    Reserved3,
    BroadcastReceived,
    Busy,
    SubsystemFlag,
    BusControl,
    TerminalFlag,
}

/// All of them, the first sent first.
const STATUS_BITS: [StatusBit; 11] = [
    StatusBit::MessageError,
    StatusBit::Instrumentation,
    StatusBit::ServiceRequest,
    StatusBit::Reserved1,
    StatusBit::Reserved2,
    StatusBit::Reserved3,
    StatusBit::BroadcastReceived,
    StatusBit::Busy,
    StatusBit::SubsystemFlag,
    StatusBit::BusControl,
    StatusBit::TerminalFlag,
];

impl StatusBit {
    /// The word in which it alone is set.
    fn mask(self) -> u16
        ensures mask { result ≡ bit_mask self }
        ensures some { 0 < result }
    {
        match self {
            StatusBit::MessageError => 0x0400,
            StatusBit::Instrumentation => 0x0200,
            StatusBit::ServiceRequest => 0x0100,
            StatusBit::Reserved1 => 0x0080,
            StatusBit::Reserved2 => 0x0040,
            StatusBit::Reserved3 => 0x0020,
            StatusBit::BroadcastReceived => 0x0010,
            StatusBit::Busy => 0x0008,
            StatusBit::SubsystemFlag => 0x0004,
            StatusBit::BusControl => 0x0002,
            StatusBit::TerminalFlag => 0x0001,
        }
    }

    /// What it is called.
    fn name(self) -> &'static str
        ensures { result.now ≡ bit_name self }
    {
        match self {
            StatusBit::MessageError => "message error",
            StatusBit::Instrumentation => "instrumentation",
            StatusBit::ServiceRequest => "service request",
            StatusBit::Reserved1 => "reserved bit 1",
            StatusBit::Reserved2 => "reserved bit 2",
            StatusBit::Reserved3 => "reserved bit 3",
            StatusBit::BroadcastReceived => "broadcast command received",
            StatusBit::Busy => "busy",
            StatusBit::SubsystemFlag => "subsystem flag",
            StatusBit::BusControl => "dynamic bus control acceptance",
            StatusBit::TerminalFlag => "terminal flag",
        }
    }

    /// Whether it is set in a status word.
    fn is_set_in(self, word: u16) -> bool
        ensures { result ≡ is_bit_on word self }
    {
        word / self.mask() % 2 == 1
    }

    /// Whether two status words are the same before it.
    fn is_first_of(self, recorded: u16, sent: u16) -> bool
        ensures { result ≡ is_first recorded sent self }
    {
        let mask = self.mask();
        recorded / mask / 2 == sent / mask / 2
    }
}

/// The bits of four hexadecimal digits, 0 of any others.
fn bits_of(a: u8, b: u8, c: u8, d: u8) -> u16
    ensures { result ≡ unwrap_or (word_of (a ∷ b ∷ c ∷ d ∷ [])) 0 }
{
    read_word(a, b, c, d).unwrap_or(0)
}

/// The word of a line of a transcript; None for no line.
fn line_word(line: &[u8]) -> Option<SlotWord>
    ensures { result ≡ line_word line.now }
{
    match line {
        [bus, _, kind, _, a, b, c, d, ..] => Some(SlotWord {
            bus: *bus,
            is_status: *kind == b's',
            bits: bits_of(*a, *b, *c, *d),
        }),
        _ => None,
    }
}

/// What is told of a bit that differs, behind its name.
fn bit_state(is_first: bool, is_set: bool) -> &'static str
    ensures { result.now ≡ bit_state is_first is_set }
{
    match (is_first, is_set) {
        (_, true) => " is set",
        (true, false) => " is not set",
        (false, false) => " is not",
    }
}

/// Writes a bit that differs.
fn push_differing(
    text: &mut String,
    is_first: bool,
    is_set: bool,
    name: &str,
) -> Result<(), AllocError>
    ensures { OnOk result (string_bytes text.new ≡ string_bytes text.old ++ differing_bit is_first is_set name.now) }
{
    text.push_str(if is_first { ": " } else { ", " })?;
    text.push_str(name)?;
    text.push_str(bit_state(is_first, is_set))
}

/// Writes a bit of two status words, if it differs.
fn push_bit(text: &mut String, recorded: u16, sent: u16, bit: StatusBit) -> Result<(), AllocError>
    ensures { OnOk result (string_bytes text.new ≡ string_bytes text.old ++ bit_told recorded sent bit) }
{
    let is_set = bit.is_set_in(recorded);
    if is_set == bit.is_set_in(sent) {
        return Ok(());
    }
    push_differing(text, bit.is_first_of(recorded, sent), is_set, bit.name())
}

/// Writes those of some bits in which two status words differ.
fn push_bits(
    text: &mut String,
    bits: &[StatusBit],
    recorded: u16,
    sent: u16,
) -> Result<(), AllocError>
    ensures { OnOk result (string_bytes text.new ≡ string_bytes text.old ++ flat_map (bit_told recorded sent) bits.now) }
{
    for bit in bits {
        push_bit(text, recorded, sent, *bit)?;
    }
    Ok(())
}

/// Writes that a status word is another one, and the bits in which it differs.
fn push_other_bits(text: &mut String, recorded: u16, sent: u16) -> Result<(), AllocError>
    ensures { OnOk result (string_bytes text.new ≡ string_bytes text.old ++ other_bits recorded sent) }
{
    text.push_str("another status word")?;
    push_bits(text, &STATUS_BITS, recorded, sent)
}

/// Writes in what a status word is another one.
fn push_other_status(text: &mut String, recorded: u16, sent: u16) -> Result<(), AllocError>
    ensures { OnOk result (string_bytes text.new ≡ string_bytes text.old ++ other_status recorded sent) }
{
    let address = Command::of(recorded).address();
    if address == Command::of(sent).address() {
        push_other_bits(text, recorded, sent)
    } else {
        write!(text, "another address: {address}")
    }
}

/// Writes that a word on its bus is another one.
fn push_other_word(text: &mut String, recorded: SlotWord, sent: SlotWord) -> Result<(), AllocError>
    ensures { OnOk result (string_bytes text.new ≡ string_bytes text.old ++ other_word recorded sent recorded.is_status sent.is_status) }
{
    match (recorded.is_status, sent.is_status) {
        (true, true) => push_other_status(text, recorded.bits, sent.bits),
        (true, false) => text.push_str("a status word in place of a data word"),
        (false, true) => text.push_str("a data word in place of a status word"),
        (false, false) => text.push_str("another data word"),
    }
}

/// What a recording shows of the reply in which nothing was sent.
#[derive(Clone, Copy)]
pub struct ReplyShown<'a> {
    /// Where it came too late: by how much, or empty where that is not known.
    pub late: Option<&'a str>,
    /// How many of its data words are missing; 0 where that is not known.
    pub missing: u8,
}

/// Writes how many data words of a reply are missing, if that is known.
fn push_shortfall(text: &mut String, missing: u8) -> Result<(), AllocError>
    ensures { OnOk result (string_bytes text.new ≡ string_bytes text.old ++ shortfall missing) }
{
    if missing == 0 {
        return Ok(());
    }
    let words = if missing == 1 { "word" } else { "words" };
    write!(text, " by {missing} {words}")
}

/// Writes that a reply is too short.
fn push_too_short(text: &mut String, missing: u8) -> Result<(), AllocError>
    ensures { OnOk result (string_bytes text.new ≡ string_bytes text.old ++ too_short missing) }
{
    text.push_str("the reply is too short")?;
    push_shortfall(text, missing)
}

/// Writes by how much a reply came too late, if that is known.
fn push_lateness(text: &mut String, late: &str) -> Result<(), AllocError>
    ensures { OnOk result (string_bytes text.new ≡ string_bytes text.old ++ lateness late.now) }
{
    if late.is_empty() {
        return Ok(());
    }
    text.push_str(" by ")?;
    text.push_str(late)
}

/// Writes that a reply came too late.
fn push_too_late(text: &mut String, late: &str) -> Result<(), AllocError>
    ensures { OnOk result (string_bytes text.new ≡ string_bytes text.old ++ too_late late.now) }
{
    text.push_str("the reply is too late")?;
    push_lateness(text, late)
}

/// Writes that there is no reply, or that it came too late.
fn push_no_reply(text: &mut String, late: Option<&str>) -> Result<(), AllocError>
    ensures { OnOk result (string_bytes text.new ≡ string_bytes text.old ++ no_reply (option_map (λ late. late.now) late.entry)) }
{
    match late {
        Some(late) => push_too_late(text, late),
        None => text.push_str("no reply"),
    }
}

/// Writes what is wrong with a unit that sent nothing where the terminal sends a word, or nothing.
fn push_missing(
    text: &mut String,
    sent: Option<SlotWord>,
    reply: ReplyShown<'_>,
) -> Result<(), AllocError>
    ensures { OnOk result (string_bytes text.new ≡ string_bytes text.old ++ fault_by_words (late_text reply.entry) reply.entry.missing None sent) }
{
    match sent {
        Some(sent) if sent.is_status => push_no_reply(text, reply.late),
        _ => push_too_short(text, reply.missing),
    }
}

/// Writes what is wrong with a unit by two words, or none.
fn push_fault(
    text: &mut String,
    recorded: Option<SlotWord>,
    sent: Option<SlotWord>,
    reply: ReplyShown<'_>,
) -> Result<(), AllocError>
    ensures { OnOk result (string_bytes text.new ≡ string_bytes text.old ++ fault_by_words (late_text reply.entry) reply.entry.missing recorded sent) }
{
    match (recorded, sent) {
        (None, sent) => push_missing(text, sent, reply),
        (Some(recorded), None) => text.push_str(if recorded.is_status {
            "no reply is due"
        } else {
            "the reply is too long"
        }),
        (Some(recorded), Some(sent)) => {
            if recorded.bus == sent.bus {
                push_other_word(text, recorded, sent)
            } else {
                text.push_str("the reply is on the other bus")
            }
        }
    }
}

/// What is wrong with a unit that sent one word, or none, where the terminal sends another, or none. Each is a line of a transcript, or
/// empty. Where a reply came too late, nothing was sent.
pub fn slot_fault(
    alloc: Global,
    recorded: &[u8],
    sent: &[u8],
    reply: ReplyShown<'_>,
) -> Result<String, AllocError>
    ensures { IfOk result (λ text. string_bytes text ≡ slot_fault reply.entry recorded.now sent.now) }
{
    let mut text = String::new(alloc);
    push_fault(&mut text, line_word(recorded), line_word(sent), reply)?;
    Ok(text)
}
