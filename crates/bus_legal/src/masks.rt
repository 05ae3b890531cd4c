//! Sets of small numbers, kept as the bits of a mask.
ghost use Rattle.std.specs.Prelude.{◌≡◌, ◌<◌, ◌≤◌, ℕ, if◌then◌else◌, true};
ghost use Rattle.bus_word.specs.Mask.{has_bit};
ghost use Rattle.bus_legal.specs.Tables.{largest_in};

/// The mask with the bits of `given` set, or with them cleared.
pub fn with_bits(mask: u32, given: u32, set: bool) -> u32
    ensures { (i : ℕ) → i < 32 → has_bit result i ≡ (if has_bit given i then set else has_bit mask i) }
{
    if set { mask | given } else { mask & !given }
}

/// The largest word count of a mask in which bit `n - 1` stands for a word count of `n`, or 0 where
/// it has none.
pub fn largest_count(mask: u32) -> usize
    ensures count { result ≡ largest_in mask }
    ensures room { result ≤ 32 }
{
    (32 - mask.leading_zeros()) as usize
}
