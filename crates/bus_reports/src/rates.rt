//! How often messages are sent, as comments of a file tell it.
ghost use Rattle.std.specs.Prelude.{codes};
ghost use Rattle.std.specs.Option.{SomeIff};
ghost use Rattle.std.specs.Str.Parse.{digits_value};
ghost use Rattle.line_format.specs.Front.{after};
ghost use Rattle.bus_reports.specs.Rates.{IsRate, TellsRate};

use line_format::after;

/// The most that a rate can be, a message each microsecond.
const MOST_RATE: u32 = 1_000_000;

/// What a line tells of rates.
#[derive(Clone, Copy)]
pub enum RateLine {
    /// The messages below are sent so many times a second; with 0 nothing is told of them.
    Rate(u32),
    /// It looks like a rate, and is none.
    Wrong,
    /// Nothing.
    Other,
}

/// The rate of these digits, if they are one.
fn rate_of(digits: &[u8]) -> Option<u32>
    ensures { SomeIff result (IsRate digits.now) (digits_value 10 digits.now) }
{
    if digits.first() == Some(&b'+') {
        return None;
    }
    let Ok(text) = str::from_utf8(digits) else {
        return None;
    };
    match text.parse::<u32>() {
        Ok(rate) if rate <= MOST_RATE => Some(rate),
        _ => None,
    }
}

/// What a line tells of rates. A comment with a digit behind `# rate ` is meant as one.
pub fn rate_line(line: &[u8]) -> RateLine
    ensures { TellsRate (after (codes "# rate ") line.now) result }
{
    let Some(digits) = after(line, b"# rate ") else {
        return RateLine::Other;
    };
    match (rate_of(digits), digits) {
        (Some(rate), _) => RateLine::Rate(rate),
        (None, [b'0'..=b'9', ..]) => RateLine::Wrong,
        _ => RateLine::Other,
    }
}
