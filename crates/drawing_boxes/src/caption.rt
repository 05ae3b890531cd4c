//! What the boxes of a drawing say.
ghost use Rattle.std.specs.Prelude.{◌≡◌};
ghost use Rattle.drawing_boxes.specs.SetBits.{bits_class, status_class};

use crate::frame::MARGIN;
use crate::width::{digits_width_of, width_of};
use bus_terminal::{Flag, Hand, Sent};
use bus_word::{Command, Kind, Raw, mode_name};
use std::fmt;

/// The bits of a status word that tell of the message, with short names (MIL-STD-1553B, 4.3.3.5.3).
const UPPER_BITS: [(u16, &str); 4] = [
    (0x0400, "error"),
    (0x0200, "instrumentation"),
    (0x0100, "service"),
    (0x00e0, "reserved"),
];

/// The other bits of a status word.
const LOWER_BITS: [(u16, &str); 5] = [
    (0x0010, "broadcast"),
    (0x0008, "busy"),
    (0x0004, "subsystem"),
    (0x0002, "accept"),
    (0x0001, "terminal"),
];

/// The bits of `UPPER_BITS`.
const UPPER_MASK: u16 = 0x07e0;

/// How many of the words that are handed over a box tells.
const TOLD_WORDS: usize = 3;

/// How far text stands from the left and the right of its box.
const PADDING: u32 = 6;

/// What a box stands for.
#[derive(Clone, Copy)]
pub enum Caption {
    /// A command word that came.
    Command(u16),
    /// The status word of another terminal.
    OtherStatus(u16),
    /// A word of data sync that came.
    Data(u16),
    /// A word that came with the wrong parity.
    Invalid(u16),
    /// What is no word.
    Noise,
    /// The status word that the terminal sends.
    Status(u16),
    /// A data word that the terminal sends.
    SentData(u16),
    /// The subsystem replaces a word that is held ready.
    Write {
        subaddress: u8,
        number: u8,
        word: u16,
    },
    /// The subsystem gives a new vector word.
    Vector(u16),
    /// The subsystem gives a new BIT word.
    Bit(u16),
    /// The subsystem sets a flag or takes it back.
    Flag(Flag, bool),
    /// So many words are handed over, of which these are the first.
    Received {
        broadcast: bool,
        subaddress: u8,
        count: usize,
        first: [u16; TOLD_WORDS],
    },
    /// Synchronize is handed over.
    Synchronize,
    /// Synchronize with data word is handed over.
    SynchronizeWith(u16),
    /// Initiate self test is handed over.
    SelfTest,
    /// It is handed over that the offer of dynamic bus control was accepted.
    BusControl,
}

/// The first of some words, and 0 where there are none.
fn first_of(words: &[u16]) -> [u16; TOLD_WORDS] {
    let mut first = [0; TOLD_WORDS];
    for (to, word) in first.iter_mut().zip(words) {
        *to = *word;
    }
    first
}

/// The class by which a status word is coloured: `error` with message error, or else `busy` with busy, or else `flagged` with
/// another bit behind its address; empty without any.
fn status_class(word: u16) -> &'static str
    ensures { result.now ≡ status_class word }
{
    if word / 0x0400 % 2 == 1 {
        "error"
    } else if word / 0x0008 % 2 == 1 {
        "busy"
    } else if word % 2048 == 0 {
        ""
    } else {
        "flagged"
    }
}

impl Caption {
    /// What a word that came is; `is_status` says of one with command sync that it is the status word of another terminal.
    pub fn of_word(word: Raw, is_status: bool) -> Caption {
        if !word.is_valid() {
            return Caption::Invalid(word.bits);
        }
        match word.kind {
            Kind::Com if is_status => Caption::OtherStatus(word.bits),
            Kind::Com => Caption::Command(word.bits),
            Kind::Dat => Caption::Data(word.bits),
        }
    }

    /// What a word that is sent is.
    pub fn of_sent(sent: Sent) -> Caption {
        match sent.kind {
            Kind::Com => Caption::Status(sent.bits),
            Kind::Dat => Caption::SentData(sent.bits),
        }
    }

    /// What is handed over.
    pub fn of_hand(hand: Hand<'_>) -> Caption {
        match hand {
            Hand::Received {
                broadcast,
                subaddress,
                words,
            } => Caption::Received {
                broadcast,
                subaddress,
                count: words.len(),
                first: first_of(words),
            },
            Hand::Synchronize => Caption::Synchronize,
            Hand::SynchronizeWith(word) => Caption::SynchronizeWith(word),
            Hand::SelfTest => Caption::SelfTest,
            Hand::BusControl => Caption::BusControl,
        }
    }

    /// The class of the box, by which it is coloured.
    pub fn class(&self) -> &'static str {
        match self {
            Caption::Command(_) => "command",
            Caption::OtherStatus(_) => "status",
            Caption::Data(_) => "data",
            Caption::Invalid(_) | Caption::Noise => "wrong",
            Caption::Status(_) | Caption::SentData(_) => "sent",
            Caption::Write { .. } | Caption::Vector(_) | Caption::Bit(_) | Caption::Flag(_, _) =>
                "given",
            Caption::Received { .. }
            | Caption::Synchronize
            | Caption::SynchronizeWith(_)
            | Caption::SelfTest
            | Caption::BusControl => "handed",
        }
    }

    /// The second class of the box of a status word, by which its set bits have a colour (MIL-STD-1553B, 4.3.3.5.3): `error` with
    /// message error, or else `busy` with busy, or else `flagged` with another bit. Empty without any, and for any other box.
    pub fn bits_class(&self) -> &'static str
        ensures { result.now ≡ bits_class self.now }
    {
        match self {
            Caption::Status(word) | Caption::OtherStatus(word) => status_class(*word),
            _ => "",
        }
    }

    /// Whether it is a word or noise that came on a bus.
    pub fn came(&self) -> bool {
        matches!(
            self,
            Caption::Command(_)
                | Caption::OtherStatus(_)
                | Caption::Data(_)
                | Caption::Invalid(_)
                | Caption::Noise
        )
    }

    /// Whether its box has the line `More`.
    pub fn has_more(&self) -> bool {
        match self {
            Caption::Command(_)
            | Caption::Write { .. }
            | Caption::Flag(_, _)
            | Caption::Received { .. }
            | Caption::BusControl => true,
            Caption::Status(bits) | Caption::OtherStatus(bits) => bits & 0x07ff != 0,
            _ => false,
        }
    }

    /// Whether its box has the line `Rest`.
    pub fn has_rest(&self) -> bool {
        match self {
            Caption::Command(bits) => {
                let command = Command::of(*bits);
                command.is_mode() && !halves(mode_name(command.code())).1.is_empty()
            }
            Caption::Status(bits) | Caption::OtherStatus(bits) => bits & UPPER_MASK != 0
                && bits & 0x001f != 0,
            _ => false,
        }
    }

    /// Whether its box has the line `Digits`.
    pub fn has_digits(&self) -> bool {
        !matches!(
            self,
            Caption::Noise
                | Caption::Flag(_, _)
                | Caption::Synchronize
                | Caption::SelfTest
                | Caption::BusControl
        )
    }

    /// How many lines its box has.
    pub fn lines(&self) -> u32 {
        1 + u32::from(self.has_more()) + u32::from(self.has_rest()) + u32::from(self.has_digits())
    }

    /// How wide the column of its box is: as wide as its longest line, with what stands around it.
    pub fn width(self) -> u32 {
        let what = width_of(&What(self));
        let more = width_of(&More(self)).max(width_of(&Rest(self)));
        let digits = digits_width_of(&Digits(self));
        what.max(more)
            .max(digits)
            .saturating_add(2 * (PADDING + MARGIN))
    }
}

/// The first word of a name, and the others.
fn halves(name: &'static str) -> (&'static str, &'static str) {
    match name.split_once(' ') {
        Some(halves) => halves,
        None => (name, ""),
    }
}

fn flag_caption(flag: Flag) -> &'static str {
    match flag {
        Flag::Service => "service request",
        Flag::Busy => "busy",
        Flag::Subsystem => "subsystem flag",
        Flag::Terminal => "terminal flag",
    }
}

/// Whom a command is for.
#[derive(Clone, Copy)]
struct AddressText(Command);

impl fmt::Display for AddressText {
    fn fmt<W: fmt::Write>(&self, f: &mut fmt::Formatter<W>) -> fmt::Result {
        if self.0.is_broadcast() {
            return f.write_str("all");
        }
        let address = self.0.address();
        write!(f, "{address}")
    }
}

/// The first line of a box: what it is.
#[derive(Clone, Copy)]
pub struct What(pub Caption);

/// Writes what a command asks for.
fn write_command<W: fmt::Write>(f: &mut fmt::Formatter<W>, command: Command) -> fmt::Result {
    let to = AddressText(command);
    if command.is_mode() {
        let code = command.code();
        return write!(f, "to {to}: mode {code}");
    }
    let direction = if command.transmit() {
        "transmit"
    } else {
        "receive"
    };
    let subaddress = command.subaddress();
    write!(f, "to {to}: {direction} {subaddress}")
}

impl fmt::Display for What {
    fn fmt<W: fmt::Write>(&self, f: &mut fmt::Formatter<W>) -> fmt::Result {
        match self.0 {
            Caption::Command(bits) => write_command(f, Command::of(bits)),
            Caption::Data(_) | Caption::SentData(_) => f.write_str("data"),
            Caption::Invalid(_) => f.write_str("wrong parity"),
            Caption::Noise => f.write_str("noise"),
            Caption::Status(bits) | Caption::OtherStatus(bits) => {
                let address = bits >> 11;
                write!(f, "status of {address}")
            }
            Caption::Write { subaddress, .. } => write!(f, "write at {subaddress}"),
            Caption::Vector(_) => f.write_str("vector word"),
            Caption::Bit(_) => f.write_str("BIT word"),
            Caption::Flag(flag, _) => f.write_str(flag_caption(flag)),
            Caption::Received { subaddress, .. } => write!(f, "received at {subaddress}"),
            Caption::Synchronize => f.write_str("synchronize"),
            Caption::SynchronizeWith(_) => f.write_str("synchronize with"),
            Caption::SelfTest => f.write_str("self test"),
            Caption::BusControl => f.write_str("bus control"),
        }
    }
}

/// The second line of a box: more of it.
#[derive(Clone, Copy)]
pub struct More(pub Caption);

/// Writes how many words a command asks for, or the first word of what its mode code is called.
fn write_amount<W: fmt::Write>(f: &mut fmt::Formatter<W>, command: Command) -> fmt::Result {
    if command.is_mode() {
        return f.write_str(halves(mode_name(command.code())).0);
    }
    match command.count() {
        1 => f.write_str("1 word"),
        count => write!(f, "{count} words"),
    }
}

/// Writes the names of the bits that are set.
fn write_bits<W: fmt::Write>(
    f: &mut fmt::Formatter<W>,
    names: &[(u16, &'static str)],
    bits: u16,
) -> fmt::Result {
    let mut is_first = true;
    for (mask, name) in names {
        if bits & *mask != 0 {
            if !is_first {
                f.write_str(" ")?;
            }
            f.write_str(name)?;
            is_first = false;
        }
    }
    Ok(())
}

/// Writes the names of the upper bits of a status word that are set, or of the lower ones where none of those is.
fn write_first_bits<W: fmt::Write>(f: &mut fmt::Formatter<W>, bits: u16) -> fmt::Result {
    if bits & UPPER_MASK != 0 {
        write_bits(f, &UPPER_BITS, bits)
    } else {
        write_bits(f, &LOWER_BITS, bits)
    }
}

/// Writes how words came that are handed over, and how many.
fn write_received<W: fmt::Write>(
    f: &mut fmt::Formatter<W>,
    broadcast: bool,
    count: usize,
) -> fmt::Result {
    let how = if broadcast { "broadcast" } else { "own" };
    match count {
        1 => write!(f, "{how}, 1 word"),
        count => write!(f, "{how}, {count} words"),
    }
}

impl fmt::Display for More {
    fn fmt<W: fmt::Write>(&self, f: &mut fmt::Formatter<W>) -> fmt::Result {
        match self.0 {
            Caption::Command(bits) => write_amount(f, Command::of(bits)),
            Caption::Status(bits) | Caption::OtherStatus(bits) => write_first_bits(f, bits),
            Caption::Write { number, .. } => write!(f, "word {number}"),
            Caption::Flag(_, is_set) => f.write_str(if is_set { "set" } else { "taken back" }),
            Caption::Received {
                broadcast,
                count,
                ..
            } => write_received(f, broadcast, count),
            Caption::BusControl => f.write_str("accepted"),
            _ => Ok(()),
        }
    }
}

/// The third line of a box: what had no room in the second.
#[derive(Clone, Copy)]
pub struct Rest(pub Caption);

impl fmt::Display for Rest {
    fn fmt<W: fmt::Write>(&self, f: &mut fmt::Formatter<W>) -> fmt::Result {
        if !self.0.has_rest() {
            return Ok(());
        }
        match self.0 {
            Caption::Command(bits) => f.write_str(halves(mode_name(Command::of(bits).code())).1),
            Caption::Status(bits) | Caption::OtherStatus(bits) => write_bits(f, &LOWER_BITS, bits),
            _ => Ok(()),
        }
    }
}

/// The last line of a box: its bits, as hexadecimal digits.
#[derive(Clone, Copy)]
pub struct Digits(pub Caption);

/// Writes the first of so many words, and that there are more.
fn write_words<W: fmt::Write>(
    f: &mut fmt::Formatter<W>,
    count: usize,
    first: &[u16; TOLD_WORDS],
) -> fmt::Result {
    for (index, word) in first.iter().enumerate() {
        if index < count {
            if 0 < index {
                f.write_str(" ")?;
            }
            write!(f, "{word:04x}")?;
        }
    }
    if count > TOLD_WORDS {
        f.write_str(" ..")?;
    }
    Ok(())
}

impl fmt::Display for Digits {
    fn fmt<W: fmt::Write>(&self, f: &mut fmt::Formatter<W>) -> fmt::Result {
        match self.0 {
            Caption::Command(bits)
            | Caption::OtherStatus(bits)
            | Caption::Data(bits)
            | Caption::Invalid(bits)
            | Caption::Status(bits)
            | Caption::SentData(bits)
            | Caption::Write { word: bits, .. }
            | Caption::Vector(bits)
            | Caption::Bit(bits)
            | Caption::SynchronizeWith(bits) => write!(f, "{bits:04x}"),
            Caption::Received { count, first, .. } => write_words(f, count, &first),
            _ => Ok(()),
        }
    }
}

/// What a box stands for in one line, without the digits of words.
#[derive(Clone, Copy)]
pub struct InOneLine(pub Caption);

impl fmt::Display for InOneLine {
    fn fmt<W: fmt::Write>(&self, f: &mut fmt::Formatter<W>) -> fmt::Result {
        let what = What(self.0);
        let more = More(self.0);
        let rest = Rest(self.0);
        write!(f, "{what}")?;
        if self.0.has_more() {
            write!(f, ", {more}")?;
        }
        if self.0.has_rest() {
            write!(f, " {rest}")?;
        }
        Ok(())
    }
}
