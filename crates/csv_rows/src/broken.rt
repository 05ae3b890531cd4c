//! Where a text is no CSV.
ghost use Rattle.std.specs.Prelude.{◌≡◌, ◌<◌, ◌+◌, ◌^◌, ◌==◌, MatchOption};
ghost use Rattle.std.specs.List.{list_any};
ghost use Rattle.csv_rows.specs.Csv.{line_end_of, IsCsv, IsBrokenAt};
ghost use Rattle.csv_rows.specs.inner.Scan.{line_after, place_after};

use crate::field::{FieldState, next_state};
use crate::place::CellPlace;

/// Whether a text has a line feed.
fn has_line_feed(text: &[u8]) -> bool
    ensures { result ≡ list_any (λ b. b == 10) text.now }
{
    text.iter().any(|byte| *byte == b'\n')
}

/// The byte that ends a line of a text: a line feed, or if the text has none a carriage return.
pub fn line_end_of(text: &[u8]) -> u8
    ensures { result ≡ line_end_of text.now }
{
    if has_line_feed(text) { b'\n' } else { b'\r' }
}

/// The line of the byte after this one, which is of this line; lines end in `feed`.
fn line_after(feed: u8, line: u64, byte: u8) -> u64
    requires { line + 1 < 2 ^ 64 }
    ensures { result ≡ line_after feed line byte }
{
    if byte == feed { line + 1 } else { line }
}

/// The place of the field after the one at this place, which this byte ends; the next byte is of this line.
fn place_after(delimiter: u8, place: CellPlace, line: u64, byte: u8) -> CellPlace
    requires { place.column + 1 < 2 ^ 64 }
    ensures { result ≡ place_after delimiter place line byte }
{
    let column = if byte == delimiter {
        place.column + 1
    } else {
        1
    };
    CellPlace { row: line, column }
}

/// The place of the first field of a text that breaks the rules of CSV, if there is one.
pub fn broken_field(delimiter: u8, text: &[u8]) -> Option<CellPlace>
    ensures { MatchOption result (IsCsv delimiter text.now) (IsBrokenAt delimiter text.now) }
{
    let feed = line_end_of(text);
    let mut state = FieldState::Start;
    let mut place = CellPlace { row: 1, column: 1 };
    let mut line = 1;
    for byte in text {
        let Some(next) = next_state(delimiter, state, *byte) else {
            return Some(place);
        };
        line = line_after(feed, line, *byte);
        if let FieldState::Start = next {
            place = place_after(delimiter, place, line, *byte);
        }
        state = next;
    }
    match state {
        FieldState::Quoted => Some(place),
        _ => None,
    }
}
