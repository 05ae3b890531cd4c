//! Numbers that stand in a saved state for small things.
ghost use Rattle.std.specs.Prelude.{◌≡◌, ◌<◌};
ghost use Rattle.rt1553_live.specs.Numbers.{bit, is_set, bus_number, bus_from, byte};

use bus_word::Bus;

/// 1 for true, 0 for false.
pub fn bit(value: bool) -> u16
    ensures { result ≡ bit value }
{
    if value { 1 } else { 0 }
}

/// Says whether a word stands for true.
pub fn is_set(word: u16) -> bool
    ensures { result ≡ is_set word }
{
    word == 1
}

/// 0 for A, 1 for B.
pub fn bus_number(bus: Bus) -> u16
    ensures number { result ≡ bus_number bus }
    ensures back { bus_from result ≡ bus }
{
    match bus {
        Bus::A => 0,
        Bus::B => 1,
    }
}

/// The bus for which a word stands.
pub fn bus_from(word: u16) -> Bus
    ensures { result ≡ bus_from word }
{
    if word == 1 { Bus::B } else { Bus::A }
}

/// A number of a byte; 0 for any other.
pub fn byte(word: u16) -> u8
    ensures { result ≡ byte word }
{
    if word < 256 { word as u8 } else { 0 }
}

/// A byte as a word.
pub fn wide(small: u8) -> u16
    ensures word { result ≡ small }
    ensures back { byte result ≡ small }
{
    u16::from(small)
}
