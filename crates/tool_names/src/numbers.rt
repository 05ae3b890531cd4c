//! The numbers that the texts of cells name.
ghost use Rattle.std.specs.Prelude.{◌≡◌, ◌-◌, ◌≤◌};
ghost use Rattle.tool_names.specs.Numbers.{set_of_number, set_of_ranges, numbers_named, counts_in};

use bus_profile::parse_ranges;
use rt1553_import::cell_number;

/// The set of a number, bit `n - low` for `n`; empty where it is not from `low` to `high`.
fn set_of_number(number: u32, low: u8, high: u8) -> u32
    requires order { low ≤ high }
    requires width { high - low ≤ 31 }
    ensures { result ≡ set_of_number low high number }
{
    if number < u32::from(low) || u32::from(high) < number {
        return 0;
    }
    1 << (number - u32::from(low))
}

/// The set of a text of ranges; empty where it is none.
fn set_of_ranges(text: &str, low: u8, high: u8) -> u32
    requires order { low ≤ high }
    requires width { high - low ≤ 31 }
    ensures { result ≡ set_of_ranges low high text.now }
{
    match parse_ranges(text, low, high) {
        Ok(mask) => mask,
        Err(_) => 0,
    }
}

/// The numbers that a text names, from `low` to `high`, bit `n - low` for `n`: a number, or ranges.
pub fn numbers_named(text: &str, low: u8, high: u8) -> u32
    requires order { low ≤ high }
    requires width { high - low ≤ 31 }
    ensures { result ≡ numbers_named low high text.now }
{
    match cell_number(text.as_bytes()) {
        Some(number) => set_of_number(number, low, high),
        None => set_of_ranges(text, low, high),
    }
}

/// The word counts that a text names, bit `n - 1` for `n`: all where there is no text.
pub fn counts_in(text: &str) -> u32
    ensures { result ≡ counts_in text.now }
{
    if text.is_empty() {
        u32::MAX
    } else {
        numbers_named(text, 1, 32)
    }
}
