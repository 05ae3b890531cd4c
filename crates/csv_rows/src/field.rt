//! How far a field is read.
ghost use Rattle.std.specs.Prelude.{◌≡◌};
ghost use Rattle.csv_rows.specs.Csv.{is_separator};
ghost use Rattle.csv_rows.specs.inner.Scan.{next_state};

/// How far a field is read.
#[derive(Clone, Copy)]
pub enum FieldState {
    /// No byte of it is read.
    Start,
    /// It has no quotes.
    Plain,
    /// Its opening quote is read.
    Quoted,
    /// So is a second quote, which closes it or is the first half of a doubled one.
    Closed,
}

/// Whether a byte ends a field: the delimiter, or one of a line end.
pub fn is_separator(delimiter: u8, byte: u8) -> bool
    ensures { result ≡ is_separator delimiter byte }
{
    byte == delimiter || byte == b'\n' || byte == b'\r'
}

/// How far the field is read after one more byte: `Start` of the next field after a separator, None where the byte breaks the field.
pub fn next_state(delimiter: u8, state: FieldState, byte: u8) -> Option<FieldState>
    ensures { result ≡ next_state delimiter state byte }
{
    match state {
        FieldState::Quoted if byte == b'"' => Some(FieldState::Closed),
        FieldState::Quoted => Some(FieldState::Quoted),
        FieldState::Closed if byte == b'"' => Some(FieldState::Quoted),
        FieldState::Start if byte == b'"' => Some(FieldState::Quoted),
        _ if is_separator(delimiter, byte) => Some(FieldState::Start),
        FieldState::Closed => None,
        FieldState::Plain if byte == b'"' => None,
        _ => Some(FieldState::Plain),
    }
}
