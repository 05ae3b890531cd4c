//! Texts of ranges, as `1-3, 5`, and the sets of numbers that they name.
ghost use Rattle.std.specs.Prelude.{◌≡◌, ℕ, ◌+◌, ◌-◌, ◌<◌, ◌≤◌, ◌==◌, ◌∷◌, map, length, option_map, IfSome, nat_le, ◌&&◌, ◌||◌};
ghost use Rattle.std.specs.List.{slice_split};
ghost use Rattle.bus_word.specs.Mask.{has_bit};
ghost use Rattle.bus_profile.specs.Ranges.{IsReading};
ghost use Rattle.bus_profile.specs.inner.RangeParts.{parts_after};
ghost use Rattle.bus_profile.specs.RangesOf.{trim_start, trim_end, decimal_of, range_number, range_item, item_of, is_within, ranges_of};

use thiserror::Error;

/// Why a text of ranges is refused.
#[derive(Clone, Copy, Debug, PartialEq, Eq, Error)]
pub enum RangeFault {
    /// The text is no list of items with commas between them.
    #[error("not a list of ranges")]
    Syntax,
    /// The text is such a list, but one of its numbers is out of the range asked for, or an item
    /// `n-m` has n greater than m.
    #[error("out of range")]
    Bounds,
}

/// One item of a text of ranges: the numbers from `first` to `last`.
#[derive(Clone, Copy, Debug, PartialEq, Eq)]
struct Item {
    first: u16,
    last: u16,
}

impl Item {
    ghost use Rattle.bus_profile.specs.RangesOf.{is_within};

    /// Tells whether the item doesn't fall and its numbers are from `low` to `high`.
    fn is_within(self, low: u8, high: u8) -> bool
        ensures { result ≡ is_within low high self }
    {
        u16::from(low) <= self.first && self.first <= self.last && self.last <= u16::from(high)
    }
}

/// The set of numbers that a text of ranges names: bit `n - low` of the answer is set exactly if
/// the text names `n`.
///
/// The text is one or more items with commas between them. An item is a number, or two numbers with
/// a minus sign between them; a number is one to three decimal digits. Spaces may stand before and
/// after each number.
#[tactic(auto, using(crate::proofs::RangesMeaning::reading))]
pub fn parse_ranges(text: &str, low: u8, high: u8) -> Result<u32, RangeFault>
    requires order { low ≤ high }
    requires width { high - low ≤ 31 }
    ensures reading { IsReading text.now low high result }
    ensures value { result ≡ ranges_of low high text.now }
{
    mask_of_items(text, low, high)
}

/// Reads the set of a text, to its end also after an item that is out of range, since a text that is no
/// list of items is refused for that alone.
fn mask_of_items(text: &str, low: u8, high: u8) -> Result<u32, RangeFault>
    requires order { low ≤ high }
    requires width { high - low ≤ 31 }
    ensures { result ≡ ranges_of low high text.now }
{
    let mut mask = 0;
    let mut within = true;
    let mut rest = Some(text.as_bytes());
    while let Some(items) = rest {
        let (part, after) = first_part(items, b',');
        let Some(item) = item_of(part) else {
            return Err(RangeFault::Syntax);
        };
        if item.is_within(low, high) {
            let first = (item.first - u16::from(low)) as u8;
            let last = (item.last - u16::from(low)) as u8;
            mask = with_range(mask, first, last);
        } else {
            within = false;
        }
        rest = after;
    }
    if within {
        Ok(mask)
    } else {
        Err(RangeFault::Bounds)
    }
}

/// Gives the text before the first such byte, and the text after it.
fn first_part(text: &[u8], at: u8) -> (&[u8], Option<&[u8]>)
    ensures parts { slice_split (λ b. b == at) text.now ≡ result.0.now ∷ parts_after at (option_map (λ t. t.now) result.1) }
    ensures shorter { IfSome result.1 (λ t. length t.now < length text.now) }
{
    for (index, byte) in text.iter().enumerate() {
        if *byte == at {
            return (&text[..index], Some(&text[index + 1..]));
        }
    }
    (text, None)
}

/// Reads one item.
#[tactic(auto, unfolding(crate::specs::RangesOf::item_of))]
fn item_of(text: &[u8]) -> Option<Item>
    ensures { result ≡ item_of text.now }
{
    let (first, after) = first_part(text, b'-');
    match after {
        Some(rest) => range_item(first, rest),
        None => {
            let number = range_number(first)?;
            Some(Item {
                first: number,
                last: number,
            })
        }
    }
}

/// Reads the item of a number and what follows its minus sign.
#[tactic(auto, using(crate::proofs::Parts::no_third_part))]
fn range_item(first: &[u8], rest: &[u8]) -> Option<Item>
    ensures { result ≡ range_item (range_number first.now ∷ map range_number (slice_split (λ b. b == 45) rest.now)) }
{
    let (last, after) = first_part(rest, b'-');
    if after.is_some() {
        return None;
    }
    Some(Item {
        first: range_number(first)?,
        last: range_number(last)?,
    })
}

/// Reads a number with spaces before and after it.
#[tactic(auto, unfolding(crate::specs::RangesOf::range_number))]
fn range_number(text: &[u8]) -> Option<u16>
    ensures { result ≡ range_number text.now }
{
    decimal_of(trim_end(trim_start(text)))
}

/// Takes the spaces off the front.
fn trim_start(text: &[u8]) -> &[u8]
    ensures { result.now ≡ trim_start text.now }
{
    let mut rest = text;
    while let [b' ', after @ ..] = rest {
        rest = after;
    }
    rest
}

/// Takes the spaces off the end.
fn trim_end(text: &[u8]) -> &[u8]
    ensures { result.now ≡ trim_end text.now }
{
    let mut rest = text;
    while let [before @ .., last] = rest {
        if *last != b' ' {
            return rest;
        }
        rest = before;
    }
    rest
}

/// Reads one to three decimal digits.
fn decimal_of(digits: &[u8]) -> Option<u16>
    ensures { result ≡ decimal_of digits.now }
{
    match digits {
        [a] if a.is_ascii_digit() => Some(u16::from(*a - b'0')),
        [a, b] if a.is_ascii_digit() && b.is_ascii_digit() => Some(
            u16::from(*a - b'0') * 10 + u16::from(*b - b'0'),
        ),
        [a, b, c] if a.is_ascii_digit() && b.is_ascii_digit() && c.is_ascii_digit() => {
            Some(u16::from(*a - b'0') * 100 + u16::from(*b - b'0') * 10 + u16::from(*c - b'0'))
        }
        _ => None,
    }
}

/// Gives the mask with the bits from `first` to `last` set too.
fn with_range(mask: u32, first: u8, last: u8) -> u32
    requires order { first ≤ last }
    requires room { last < 32 }
    ensures { (i : ℕ) → i < 32 → has_bit result i ≡ (has_bit mask i || (nat_le first i && nat_le i last)) }
{
    let mut wider = mask;
    for bit in first..last + 1 {
        wider |= 1 << bit;
    }
    wider
}
