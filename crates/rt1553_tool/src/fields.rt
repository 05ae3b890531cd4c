//! The fields of the words of a bus (MIL-STD-1553B, 4.3.3.5).
ghost use Rattle.std.specs.Prelude.{◌≡◌, ◌≤◌, ◌<◌, ◌/◌, ◌%◌, ◌==◌};
ghost use Rattle.bus_word.specs.Word.{bit_of, valid_word};
ghost use Rattle.bus_word.specs.Command.{AreOfTheirWidth, fields_of, command_bits};
ghost use Rattle.rt1553_tool.specs.Fields.{in_word, HasStatusFields, command_fields_in, status_in, sync_of, status_bits, bits_with, AreOfWidth, HasFields, IsWordOf};

use bus_word::{Command, Kind, Raw};

/// The fields of a command word (4.3.3.5.1).
#[derive(Clone, Copy)]
pub struct CommandFields {
    /// The address, 0 to 31: the terminal that is meant, or 31 for all.
    pub address: u8,
    /// Whether T/R is 1: the terminal is to transmit.
    pub transmit: bool,
    /// The subaddress, 0 to 31; 0 and 31 say that the low field is a mode code.
    pub subaddress: u8,
    /// The low field, 0 to 31: a word count, of which 0 means 32, or a mode code.
    pub low: u8,
}

/// The fields of a status word (4.3.3.5.3).
#[derive(Clone, Copy)]
pub struct StatusFields {
    /// The address, 0 to 31.
    pub address: u8,
    /// Message error (4.3.3.5.3.3).
    pub error: bool,
    /// Instrumentation (4.3.3.5.3.4).
    pub instrumentation: bool,
    /// Service request (4.3.3.5.3.5).
    pub service: bool,
    /// The three reserved bits, 0 to 7, the first sent being the highest (4.3.3.5.3.6).
    pub reserved: u8,
    /// Broadcast command received (4.3.3.5.3.7).
    pub broadcast: bool,
    /// Busy (4.3.3.5.3.8).
    pub busy: bool,
    /// Subsystem flag (4.3.3.5.3.9).
    pub subsystem: bool,
    /// Dynamic bus control acceptance (4.3.3.5.3.10).
    pub accept: bool,
    /// Terminal flag (4.3.3.5.3.11).
    pub terminal: bool,
}

/// The fields of a word.
#[derive(Clone, Copy)]
pub enum WordFields {
    /// A command word.
    Command(CommandFields),
    /// A status word.
    Status(StatusFields),
    /// A data word: its 16 bits.
    Data(u16),
}

/// Gives a truth value as a bit.
fn bit(is_set: bool) -> u16
    ensures value { result ≡ bit_of is_set }
    ensures small { result ≤ 1 }
{
    if is_set { 1 } else { 0 }
}

/// Tells whether the bit of this place value is set.
fn is_set(bits: u16, place: u16) -> bool
    requires { 0 < place }
    ensures bit { bits / place % 2 ≡ bit_of result }
    ensures value { result ≡ (bits / place % 2 == 1) }
{
    bits / place % 2 == 1
}

/// The fields of a command word of these bits.
pub fn command_fields(bits: u16) -> CommandFields
    ensures fields { fields_of bits ≡ in_word result }
    ensures value { result ≡ command_fields_in bits }
{
    let command = Command::of(bits);
    CommandFields {
        address: command.address(),
        transmit: command.transmit(),
        subaddress: command.subaddress(),
        low: command.code(),
    }
}

/// The bits of the command word of these fields.
pub fn command_bits(fields: CommandFields) -> u16
    requires { AreOfTheirWidth (in_word fields) }
    ensures fields { fields_of result ≡ in_word fields }
    ensures value { result ≡ command_bits (in_word fields) }
{
    u16::from(fields.address) * 2048
        + bit(fields.transmit) * 1024
        + u16::from(fields.subaddress) * 32
        + u16::from(fields.low)
}

/// The fields of a status word of these bits.
pub fn status_fields(bits: u16) -> StatusFields
    ensures fields { HasStatusFields bits result }
    ensures value { result ≡ status_in bits }
{
    StatusFields {
        address: (bits / 2048) as u8,
        error: is_set(bits, 0x0400),
        instrumentation: is_set(bits, 0x0200),
        service: is_set(bits, 0x0100),
        reserved: (bits / 32 % 8) as u8,
        broadcast: is_set(bits, 0x0010),
        busy: is_set(bits, 0x0008),
        subsystem: is_set(bits, 0x0004),
        accept: is_set(bits, 0x0002),
        terminal: is_set(bits, 0x0001),
    }
}

/// The bits of the status word of these fields.
pub fn status_word_bits(fields: StatusFields) -> u16
    requires address { fields.address ≤ 31 }
    requires reserved { fields.reserved ≤ 7 }
    ensures fields { HasStatusFields result fields }
    ensures value { result ≡ status_bits fields }
{
    u16::from(fields.address) * 2048
        + bit(fields.error) * 0x0400
        + bit(fields.instrumentation) * 0x0200
        + bit(fields.service) * 0x0100
        + u16::from(fields.reserved) * 0x0020
        + bit(fields.broadcast) * 0x0010
        + bit(fields.busy) * 0x0008
        + bit(fields.subsystem) * 0x0004
        + bit(fields.accept) * 0x0002
        + bit(fields.terminal)
}

/// The word of these fields, with its right parity bit. Each field is to be of its width.
pub fn word_with(fields: WordFields) -> Raw
    requires { AreOfWidth fields }
    ensures word { IsWordOf result fields }
    ensures value { result ≡ valid_word (sync_of fields) (bits_with fields) }
{
    match fields {
        WordFields::Command(command) => Raw::of(Kind::Com, command_bits(command)),
        WordFields::Status(status) => Raw::of(Kind::Com, status_word_bits(status)),
        WordFields::Data(bits) => Raw::of(Kind::Dat, bits),
    }
}
