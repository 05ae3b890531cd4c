//! What stands between the fields of a text.
ghost use Rattle.std.specs.Prelude.{◌≡◌};
ghost use Rattle.csv_rows.specs.Delimiter.{is_delimiter, delimiter_of};

/// Whether a byte is a comma, a semicolon or a tab.
fn is_delimiter(byte: u8) -> bool
    ensures { result ≡ is_delimiter byte }
{
    byte == b',' || byte == b';' || byte == b'\t'
}

/// What stands between the fields of a text: its first comma, semicolon or tab outside quotes, or a comma if there is none.
pub fn delimiter_of(text: &[u8]) -> u8
    ensures { result ≡ delimiter_of text.now }
{
    let mut within = false;
    for byte in text {
        if *byte == b'"' {
            within = !within;
        } else if !within && is_delimiter(*byte) {
            return *byte;
        }
    }
    b','
}
