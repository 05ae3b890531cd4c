//! The lines of a piece of a script: the next one, and comments.
ghost use Rattle.std.specs.Prelude.{◌≡◌, ◌<◌, [], true, length, IfOk, IfErr, IfSome, MatchOption, take};
ghost use Rattle.script_lines.specs.Line.{meaning};
ghost use Rattle.bus_script.specs.Reading.{ByFault};
ghost use Rattle.bus_script.specs.inner.Lines.{Faults, StartsLine, IsRest, IsComment};
ghost use Rattle.bus_script.specs.inner.Pieces.{IsPiece};

use crate::RunFault;
use crate::piece::Piece;
use script_lines::{MAX_LINE, MAX_LINES, find_line_feed};

/// The length of the line that stands first, or None where its end hasn't come yet; `lines` lines came
/// before.
#[inline(always)]
pub fn next_line(lines: u32, bytes: &[u8]) -> Result<Option<usize>, RunFault>
    requires { lines < MAX_LINES }
    ensures ok { IfOk result (λ found. MatchOption found (IsRest lines bytes.now) (λ i. StartsLine lines bytes.now i)) }
    ensures fault { IfErr result (λ f. ByFault f (Faults lines bytes.now [] f) ⊥ ⊥) }
{
    match find_line_feed(bytes) {
        Some(len) => {
            if len > MAX_LINE {
                return Err(RunFault::LongLine(lines as u64 + 1));
            }
            Ok(Some(len))
        }
        None => {
            if bytes.len() > MAX_LINE {
                return Err(RunFault::LongLine(lines as u64 + 1));
            }
            Ok(None)
        }
    }
}

/// The length of a comment that stands first, with its line feed.
#[inline(always)]
fn comment_line(bytes: &[u8]) -> Option<usize>
    ensures { IfSome result (λ i. IsComment bytes.now i) }
{
    if bytes.is_empty() || bytes[0] != b'#' {
        return None;
    }
    let len = find_line_feed(bytes)?;
    if len > MAX_LINE {
        return None;
    }
    Some(len)
}

/// Passes the comments that stand first, at most so many. They say no event.
#[inline(always)]
pub fn pass_comments(bytes: &[u8], most: u32) -> Piece
    ensures { IsPiece bytes.now most result [] }
{
    let mut piece = Piece::NONE;
    let mut rest = bytes;
    while piece.lines < most {
        match comment_line(rest) {
            Some(len) => {
                piece.bytes += len + 1;
                piece.lines += 1;
                rest = &rest[len + 1..];
            }
            None => break,
        }
    }
    piece
}
