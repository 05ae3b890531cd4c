//! The whole lines of a piece of a script are played.
ghost use Rattle.std.specs.Prelude.{◌≡◌, ◌<◌, ◌≤◌, true, IfOk, IfErr, OnErr};
ghost use Rattle.bus_script.specs.Reading.{ByFault};
ghost use Rattle.bus_script.specs.inner.Pieces.{PlaysPiece, BreaksPiece};
ghost use Rattle.bus_script.specs.inner.Fed.{AreCounts, FedAll, FedToFault, FedPart};

use crate::RunFault;
use crate::answering::{play_gap, play_line};
use crate::lines::{next_line, pass_comments};
use crate::piece::{Counts, Piece};
use crate::receiving::{play_command, play_received, take_word};
use crate::sending::play_slots;
use arrayvec::ArrayString;
use bus_legal::Legality;
use bus_terminal::Terminal;
use byte_streams::{IoFailed, Sink};
use script_lines::{KnownPairs, LineReader, MAX_LINES};

/// Plays lines that stand first, if they are such as most scripts are made of: what they begin with tells. The words of a message
/// are looked for behind its command, so data words that come first are a whole message only where a chunk begins.
#[inline(always)]
#[tactic(auto, using(crate::proofs::FeedLaws::none_played, crate::proofs::FeedLaws::taken_played, crate::proofs::FeedLaws::then_played, crate::proofs::FeedLaws::then_broken))]
fn play_usual<L: Legality, W: Sink>(
    terminal: &mut Terminal<L>,
    writer: &mut W,
    reader: &mut LineReader,
    text: &mut ArrayString<320>,
    pairs: &KnownPairs,
    bytes: &[u8],
    most: u32,
    is_first: bool,
) -> Result<Piece, IoFailed>
    requires some { 0 < most }
    requires few { most ≤ 1048576 }
    ensures ok { IfOk result (λ piece. PlaysPiece L.is_legal W.written (terminal.old, writer.old) (terminal.new, writer.new) bytes.now most piece) }
    ensures err { OnErr result (BreaksPiece L.is_legal W.written (terminal.old, writer.old) (terminal.new, writer.new) bytes.now most) }
    ensures failed { OnErr result (W.has_failed writer.new ≡ true) }
{
    match bytes {
        [b'A' | b'B', _, b'c', ..] => play_command(terminal, writer, reader, text, bytes, most),
        [b'A' | b'B', _, b'd', ..] => {
            if !is_first {
                return Ok(take_word(terminal, reader, bytes, most));
            }
            match play_received(terminal, writer, reader, text, bytes, most) {
                Ok(piece) if piece.lines == 0 => Ok(take_word(terminal, reader, bytes, most)),
                played => played,
            }
        }
        [b'A' | b'B', ..] => play_gap(terminal, writer, text, bytes, most),
        [b's', ..] => play_slots(terminal, writer, text, pairs, bytes, most),
        [b'#', ..] => Ok(pass_comments(bytes, most)),
        _ => Ok(Piece::NONE),
    }
}

/// Plays the whole lines of a chunk, and gives the number of their bytes. Meanwhile the counts have a place of their own, which
/// a compiler can keep in registers. So have the text and what is known of digits: they stand in its own frame, and nothing
/// that it reaches by a reference can be them.
pub fn feed_lines<L: Legality, W: Sink>(
    terminal: &mut Terminal<L>,
    writer: &mut W,
    pairs: &KnownPairs,
    counts: &mut Counts,
    chunk: &[u8],
) -> Result<usize, RunFault>
    requires { AreCounts counts.old }
    ensures ok { IfOk result (λ done. FedAll L.is_legal W.written (terminal.old, writer.old) (terminal.new, writer.new) counts.old counts.new chunk.now done) }
    ensures fault { IfErr result (λ f. ByFault f
        (FedToFault L.is_legal W.written (terminal.old, writer.old) (terminal.new, writer.new) counts.old counts.new chunk.now f)
        ⊥
        ((W.has_failed writer.new ≡ true) × FedPart L.is_legal W.written (terminal.old, writer.old) (terminal.new, writer.new) counts.old chunk.now)) }
{
    let mut reader = LineReader::new();
    let mut text = ArrayString::new();
    let mut now = *counts;
    let mut at = 0;
    let result = 'lines: loop {
        let rest = &chunk[at..];
        if rest.is_empty() {
            break 'lines Ok(at);
        }
        if now.lines == MAX_LINES {
            break 'lines Err(RunFault::TooLong);
        }
        match play_usual(
            terminal,
            writer,
            &mut reader,
            &mut text,
            pairs,
            rest,
            MAX_LINES - now.lines,
            at == 0,
        ) {
            Ok(piece) if piece.lines > 0 => {
                at += piece.bytes;
                now.lines += piece.lines;
                now.events += piece.events;
                continue 'lines;
            }
            Ok(_) => {}
            Err(_) => break 'lines Err(RunFault::Write),
        }
        let len = match next_line(now.lines, rest) {
            Ok(Some(len)) => len,
            Ok(None) => break 'lines Ok(at),
            Err(fault) => break 'lines Err(fault),
        };
        match play_line(
            terminal,
            writer,
            &mut reader,
            &mut text,
            now.lines,
            &rest[..len],
        ) {
            Ok(events) => now.events += events,
            Err(fault) => break 'lines Err(fault),
        }
        now.lines += 1;
        at += len + 1;
    };
    *counts = now;
    result
}
