//! Comments that look like stated answers.
ghost use Rattle.std.specs.Prelude.{◌≡◌};
ghost use Rattle.refused_lines.specs.Refused.{lacks_space, mistyped};

use line_format::after;

/// Whether a line begins with a mark, and not with the mark and its space.
fn lacks_space(line: &[u8], mark: &[u8], spaced: &[u8]) -> bool
    ensures { result ≡ lacks_space mark.now spaced.now line.now }
{
    after(line, mark).is_some() && after(line, spaced).is_none()
}

/// The column of the first byte that doesn't fit of a comment that looks like a stated answer and is none: a space is missing after `#>`,
/// `#~` or `#+`, or stands before the mark. None for any other line.
pub fn mistyped_answer(line: &[u8]) -> Option<usize>
    ensures { result ≡ mistyped line.now }
{
    if after(line, b"# >").is_some() || after(line, b"# ~").is_some() {
        return Some(2);
    }
    if lacks_space(line, b"#>", b"#> ")
        || lacks_space(line, b"#~", b"#~ ")
        || lacks_space(line, b"#+", b"#+ ")
    {
        Some(3)
    } else {
        None
    }
}
