//! Exchanges: a command word, the data words after it and a gap; and slots in which it is answered.
ghost use Rattle.std.specs.Prelude.{◌≡◌, ◌-◌, ◌≤◌, ◌<◌, ◌∷◌, replicate};
ghost use Rattle.bus_word.specs.Word.{bit_of};
ghost use Rattle.terminal_exchanges.specs.Distinguish.{slots_for, command_of, receive, transmit, mode_code_with, ask};
ghost use Rattle.terminal_exchanges.specs.Values.{exchange_in};

use bus_word::mode::{SYNCHRONIZE_WITH_WORD, TRANSMIT_STATUS};

/// The address of all terminals (MIL-STD-1553B, 4.3.3.5.1.2).
pub const ALL_TERMINALS: u8 = 31;

/// A command word, the data words after it and a gap, on bus A; then so many slots. Of the data words the first is kept, and
/// how many words of 0 come after it.
#[derive(Clone, Copy, PartialEq, Eq, Debug, Default)]
pub struct Exchange {
    /// The command word.
    pub command: u16,
    /// The first data word, if there is one.
    pub first: Option<u16>,
    /// The number of data words after the first, each of them 0.
    pub zeros: u8,
    /// The number of slots.
    pub slots: u8,
}

/// Gives the command word of these fields (4.3.3.5.1).
fn command(address: u8, transmit: bool, subaddress: u8, low: u8) -> u16
    requires address { address < 32 }
    requires subaddress { subaddress < 32 }
    requires low { low < 32 }
    ensures { result ≡ command_of address (bit_of transmit) subaddress low }
{
    let direction = if transmit { 1024 } else { 0 };
    u16::from(address) * 2048 + direction + u16::from(subaddress) * 32 + u16::from(low)
}

/// Gives so many slots, and none after a command to all terminals.
fn slots_for(address: u8, count: u8) -> u8
    ensures number { result ≡ slots_for address count }
    ensures few { result ≤ count }
{
    if address == ALL_TERMINALS { 0 } else { count }
}

/// So many words to a subaddress, 1 to 32: the first of them, and others of 0. With a count of 0 the command announces 32
/// words, and only the first goes with it.
pub fn receive(address: u8, subaddress: u8, count: u8, first: u16) -> Exchange
    requires address { address < 32 }
    requires subaddress { subaddress < 32 }
    requires few { count ≤ 32 }
    ensures exchange { exchange_in result ≡ receive address subaddress count (first ∷ replicate (count - 1) 0) }
    ensures zeros { result.zeros ≤ 31 }
    ensures slots { result.slots ≤ 1 }
{
    Exchange {
        command: command(address, false, subaddress, count % 32),
        first: Some(first),
        zeros: count.saturating_sub(1),
        slots: slots_for(address, 1),
    }
}

/// So many words from a subaddress, 1 to 32, with so many slots, to all terminals too. Of a greater count the command holds
/// the rest by 32, and one of 0 asks for 32 words.
pub fn transmit(address: u8, subaddress: u8, count: u8, slots: u8) -> Exchange
    requires address { address < 32 }
    requires subaddress { subaddress < 32 }
    ensures exchange { exchange_in result ≡ transmit address subaddress count slots }
    ensures zeros { result.zeros ≡ 0 }
    ensures slots { result.slots ≡ slots }
{
    Exchange {
        command: command(address, true, subaddress, count % 32),
        first: None,
        zeros: 0,
        slots,
    }
}

/// A mode code, with so many slots, and none to all terminals; synchronize with data word goes with a data word of 0
/// (4.3.3.5.1.7.12).
pub fn mode_code(slots: u8, address: u8, code: u8) -> Exchange
    requires address { address < 32 }
    requires code { code < 32 }
    ensures exchange { exchange_in result ≡ mode_code_with slots address code }
    ensures zeros { result.zeros ≡ 0 }
    ensures slots { result.slots ≤ slots }
{
    let with_word = code == SYNCHRONIZE_WITH_WORD;
    Exchange {
        command: command(address, !with_word, 0, code),
        first: if with_word { Some(0) } else { None },
        zeros: 0,
        slots: slots_for(address, slots),
    }
}

/// The question for the status that is kept: transmit status word (4.3.3.5.1.7.3).
pub fn ask(address: u8) -> Exchange
    requires { address < 32 }
    ensures exchange { exchange_in result ≡ ask address }
    ensures zeros { result.zeros ≡ 0 }
    ensures slots { result.slots ≤ 1 }
{
    mode_code(1, address, TRANSMIT_STATUS)
}
