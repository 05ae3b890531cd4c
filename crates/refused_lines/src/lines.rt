//! The lines of a text, one after the other.
ghost use Rattle.std.specs.Prelude.{◌≡◌, ◌<◌, ◌∷◌, length};
ghost use Rattle.std.specs.Option.{option_map};
ghost use Rattle.script_lines.specs.Text.{lines_of};
ghost use Rattle.refused_lines.specs.Sources.{line_in_file};

use script_lines::find_line_feed;

/// The first line, without its line feed, and what follows it.
pub fn first_line(bytes: &[u8]) -> (&[u8], &[u8])
    requires { 0 < length bytes.now }
    ensures lines { lines_of bytes.now ≡ result.0.now ∷ lines_of result.1.now }
    ensures shorter { length result.1.now < length bytes.now }
{
    match find_line_feed(bytes) {
        Some(len) => (&bytes[..len], &bytes[len + 1..]),
        None => (bytes, &bytes[bytes.len()..]),
    }
}

/// The line of the file that a line of a script stands for, by those of all its lines; the same where the file is the script and there
/// are none.
pub fn line_in_file(sources: Option<&[u64]>, line: u64) -> u64
    ensures { result ≡ line_in_file (option_map (λ s. s.now) sources.entry) line }
{
    let Some(sources) = sources else {
        return line;
    };
    match sources.get(line.saturating_sub(1) as usize) {
        Some(source) => *source,
        None => line,
    }
}
