//! What stands between fields and should not.
ghost use Rattle.std.specs.Prelude.{◌<◌, ◌≤◌, IfSome, length};

use crate::reason::{LineReason, Misfit};

/// What is wrong with a byte of this line, for the byte before it and the one behind it.
fn wrong_byte(line: &[u8], index: usize) -> Option<LineReason>
    requires { index < length line.now }
{
    let is_last = index + 1 == line.len();
    match line[index] {
        b'\t' => Some(LineReason::Tab),
        b'\r' if is_last => Some(LineReason::Return),
        b' ' if index == 0 => Some(LineReason::Front),
        b' ' if line[index - 1] == b' ' => Some(LineReason::Spaces),
        b' ' if is_last => Some(LineReason::End),
        b'#' if index > 0 && line[index - 1] == b' ' => Some(LineReason::Comment),
        _ => None,
    }
}

/// The first byte of a line, which is no comment, that is a blank where none may stand, begins a comment behind a field, or
/// belongs to a byte order mark.
pub fn misplaced_blank(line: &[u8]) -> Option<Misfit>
    ensures { IfSome result (λ misfit. (0 < misfit.column) × (misfit.column ≤ length line.now)) }
{
    if line.starts_with(b"\xef\xbb\xbf") {
        return Some(Misfit {
            column: 1,
            reason: LineReason::Mark,
        });
    }
    for index in 0..line.len() {
        if let Some(reason) = wrong_byte(line, index) {
            return Some(Misfit {
                column: index + 1,
                reason,
            });
        }
    }
    None
}
