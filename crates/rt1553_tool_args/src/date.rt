//! Dates with times, as XML Schema and JUnit write them.
ghost use Rattle.std.specs.Prelude.{◌≡◌};
ghost use Rattle.rt1553_tool_args.specs.Dates.{are_marks, days_in, digit_pair, is_between, is_date, is_day, is_time, is_zone};

/// The number that two decimal digits write; 100 where they are none.
fn digit_pair(tens: u8, ones: u8) -> u16
    ensures { result ≡ digit_pair tens ones }
{
    if tens < b'0' || b'9' < tens || ones < b'0' || b'9' < ones {
        return 100;
    }
    u16::from(tens - b'0') * 10 + u16::from(ones - b'0')
}

/// Whether a number lies between two others, or is one of them.
fn is_between(low: u16, high: u16, number: u16) -> bool
    ensures { result ≡ is_between low high number }
{
    low <= number && number <= high
}

/// Whether this is nothing, `Z`, or an offset of at most 14 hours.
fn is_zone(zone: &[u8]) -> bool
    ensures { result ≡ is_zone zone.now }
{
    match zone {
        [] => true,
        [z] => *z == b'Z',
        [sign, a, b, colon, c, d] => {
            let (hours, minutes) = (digit_pair(*a, *b), digit_pair(*c, *d));
            (*sign == b'+' || *sign == b'-')
                && *colon == b':'
                && is_between(0, 59, minutes)
                && is_between(0, 840, hours * 60 + minutes)
        }
        _ => false,
    }
}

/// Whether this is `HH:MM:SS`, and the zone, if one is there.
#[tactic(auto, unfolding(crate::specs::Dates::is_time))]
fn is_time(time: &[u8]) -> bool
    ensures { result ≡ is_time time.now }
{
    match time {
        [a, b, colon, c, d, other, e, f, zone @ ..] => {
            *colon == b':'
                && *other == b':'
                && is_between(0, 23, digit_pair(*a, *b))
                && is_between(0, 59, digit_pair(*c, *d))
                && is_between(0, 59, digit_pair(*e, *f))
                && is_zone(zone)
        }
        _ => false,
    }
}

/// How many days a month of a year has.
fn days_in(year: u16, month: u16) -> u16
    ensures { result ≡ days_in year month }
{
    if month == 2 {
        if year % 4 == 0 && (year % 100 != 0 || year % 400 == 0) {
            29
        } else {
            28
        }
    } else if month == 4 || month == 6 || month == 9 || month == 11 {
        30
    } else {
        31
    }
}

/// Whether these are a year, from 1 to 9999, a month of it, and a day of this.
#[tactic(auto, unfolding(crate::specs::Dates::is_day))]
fn is_day(century: u16, rest: u16, month: u16, day: u16) -> bool
    ensures { result ≡ is_day century rest month day }
{
    is_between(0, 99, century)
        && is_between(0, 99, rest)
        && is_between(1, 9999, century * 100 + rest)
        && is_between(1, 12, month)
        && is_between(1, days_in(century * 100 + rest, month), day)
}

/// Whether these stand between the numbers of a date and of a time.
#[tactic(auto, unfolding(crate::specs::Dates::are_marks))]
fn are_marks(dash: u8, other: u8, t: u8) -> bool
    ensures { result ≡ are_marks dash other t }
{
    dash == b'-' && other == b'-' && t == b'T'
}

/// Whether this is `YYYY-MM-DDTHH:MM:SS`, of a day and a time that there are, alone or with `Z` or an offset behind it, as `+01:00`.
pub fn is_date(text: &[u8]) -> bool
    ensures { result ≡ is_date text.now }
{
    match text {
        [a, b, c, d, dash, e, f, other, g, h, t, time @ ..] => {
            let (century, rest) = (digit_pair(*a, *b), digit_pair(*c, *d));
            let (month, day) = (digit_pair(*e, *f), digit_pair(*g, *h));
            let is_day = is_day(century, rest, month, day);
            are_marks(*dash, *other, *t) && is_day && is_time(time)
        }
        _ => false,
    }
}
