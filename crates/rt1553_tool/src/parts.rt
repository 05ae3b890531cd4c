//! The parts of a line.
ghost use Rattle.std.specs.Prelude.{◌≡◌, ◌≤◌, ◌<◌, ◌*◌, ◌+◌, ◌++◌, ◌∷◌, [], length};
ghost use Rattle.rt1553_tool.specs.Parts.{before_comment, is_blank, pieces_of, with_bytes, line_parts};
ghost use Rattle.rt1553_tool.specs.inner.Parts.{piece_len, comment_at, texts};

use arrayvec::ArrayVec;

/// How many bytes a line of words may have, its line feed not counted.
pub const MOST: usize = 128;

/// Parts of a line: a line of 128 bytes has at most 64.
pub type Parts<'a> = ArrayVec<&'a [u8], 64>;

/// Gives the number of bytes before the first `#`, of all where there is none.
#[tactic(auto, using(crate::proofs::PartLaws::comment_step, crate::proofs::PartLaws::comment_found, crate::proofs::PartLaws::comment_end))]
fn comment_at(line: &[u8]) -> usize
    ensures value { result ≡ comment_at line.now }
    ensures within { result ≤ length line.now }
{
    let mut len = 0;
    while len < line.len() && line[len] != b'#' {
        len += 1;
    }
    len
}

/// Whether a byte separates the parts of a line: a space, a tab or a form feed.
pub fn is_blank(byte: u8) -> bool
    ensures { result ≡ is_blank byte }
{
    byte == b' ' || byte == b'\t' || byte == b'\x0c'
}

/// Gives the number of bytes before the first blank, of all where there is none.
#[tactic(auto, using(crate::proofs::PartLaws::piece_step, crate::proofs::PartLaws::piece_found, crate::proofs::PartLaws::piece_end))]
fn piece_len(text: &[u8]) -> usize
    ensures value { result ≡ piece_len text.now }
    ensures within { result ≤ length text.now }
{
    let mut len = 0;
    while len < text.len() && !is_blank(text[len]) {
        len += 1;
    }
    len
}

/// Gives a line without its comment.
#[tactic(auto, using(crate::proofs::PartLaws::comment_front))]
fn before_comment(line: &[u8]) -> &[u8]
    ensures value { result.now ≡ before_comment line.now }
    ensures within { length result.now ≤ length line.now }
{
    &line[..comment_at(line)]
}

/// Adds a piece that has a byte to the parts.
fn push_piece<'a>(parts: &mut Parts<'a>, piece: &'a [u8])
    requires { 0 < length piece.now → length parts.old.items < 64 }
    ensures parts { texts parts.new.items ≡ texts parts.old.items ++ with_bytes (piece.now ∷ []) }
    ensures few { 2 * length parts.new.items ≤ 2 * length parts.old.items + (length piece.now + 1) }
{
    if !piece.is_empty() {
        parts.push(piece);
    }
}

/// Gives the parts of a text without comment.
fn split_parts(text: &[u8]) -> Parts<'_>
    requires { length text.now ≤ 128 }
    ensures { texts result.items ≡ with_bytes (pieces_of text.now) }
{
    let mut parts = ArrayVec::new();
    let mut at = 0;
    while at < text.len() {
        let len = piece_len(&text[at..]);
        push_piece(&mut parts, &text[at..at + len]);
        at += len + 1;
    }
    parts
}

/// The parts of a line of at most 128 bytes.
pub fn line_parts(line: &[u8]) -> Parts<'_>
    requires { length line.now ≤ 128 }
    ensures { texts result.items ≡ line_parts line.now }
{
    split_parts(before_comment(line))
}
