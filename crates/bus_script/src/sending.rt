//! Slots: as many are played at once as there are lines, where the terminal stays silent in them or sends words of a
//! subaddress, of which long replies are made.
ghost use Rattle.std.specs.Prelude.{◌≡◌, ◌≤◌, ◌<◌, ◌*◌, List, ℕ, true, false, length, take, is_some, IfOk, OnErr};
ghost use Rattle.std.specs.List.{flat_map};
ghost use Rattle.bus_word.specs.declared.word.Bus.{Bus};
ghost use Rattle.script_lines.specs.Transcript.{data_text};
ghost use Rattle.bus_legal.specs.Description.{Description};
ghost use Rattle.terminal_rules.specs.declared.event.Event.{Event};
ghost use Rattle.terminal_rules.specs.Past.{past};
ghost use Rattle.terminal_rules.specs.Reply.{reply_now};
ghost use Rattle.bus_terminal.specs.Stands.{StandsAt};
ghost use Rattle.bus_terminal.specs.Slots.{slots, AreSent};
ghost use Rattle.bus_script.specs.inner.Lines.{LinesFirst};
ghost use Rattle.bus_script.specs.inner.Pieces.{TakesPiece, PlaysPiece, BreaksPiece};

use crate::answering::play_answered;
use crate::piece::Piece;
use arrayvec::ArrayString;
use bus_legal::Legality;
use bus_terminal::{Event, Terminal};
use byte_streams::{IoFailed, Sink, write_front};
use script_lines::{KnownPairs, SLOT_LINE, SLOTS, are_slots_first, is_slot_first, push_data_words};

/// How many lines of words that are sent have room in a text.
const ROOM: usize = 32;

/// How long the line of a word that is sent is, with its line feed.
const SENT_LINE: usize = 9;

/// How many lines of slots stand first, at most so many, as far as they are told many at once.
#[inline(always)]
fn slot_lines_at_once(bytes: &[u8], most: usize) -> usize
    ensures most { result ≤ most }
    ensures lines { (k : ℕ) → k ≤ result → LinesFirst bytes.now (5 * k) k (slots k) }
{
    let mut count = 0;
    let mut rest = bytes;
    while most - count >= SLOTS && are_slots_first(rest) {
        count += SLOTS;
        rest = &rest[SLOTS * (SLOT_LINE + 1)..];
    }
    count
}

/// How many lines of slots stand first, at most so many.
#[inline(always)]
fn slot_lines(bytes: &[u8], most: usize) -> usize
    ensures most { result ≤ most }
    ensures lines { (k : ℕ) → k ≤ result → LinesFirst bytes.now (5 * k) k (slots k) }
{
    let mut count = slot_lines_at_once(bytes, most);
    let mut rest = &bytes[(SLOT_LINE + 1) * count..];
    while count < most && is_slot_first(rest) {
        count += 1;
        rest = &rest[SLOT_LINE + 1..];
    }
    count
}

/// Takes slots that stand first, in which nothing is sent, as many as there are lines.
#[inline(always)]
fn pass_slots<L: Legality>(terminal: &mut Terminal<L>, bytes: &[u8], most: u32) -> Piece
    requires few { most ≤ 1048576 }
    requires silent { (P : Description) (h : List Event) → StandsAt L.is_legal P h terminal.old → is_some (reply_now (past P h)) ≡ false }
    ensures { TakesPiece L.is_legal terminal.old terminal.new bytes.now most result }
{
    let count = slot_lines(bytes, most as usize);
    terminal.take_slots(count);
    Piece::of(count, SLOT_LINE)
}

/// Writes the lines of the words of a subaddress that are sent in the slots that stand first, and gives how many they are: all such,
/// or as many as there are lines.
#[inline(always)]
fn push_words<L: Legality>(
    terminal: &Terminal<L>,
    text: &mut ArrayString<320>,
    pairs: &KnownPairs,
    bytes: &[u8],
    most: u32,
) -> usize
    ensures most { result ≤ most }
    ensures lines { (k : ℕ) → k ≤ result → LinesFirst bytes.now (5 * k) k (slots k) }
    ensures sent { 0 < result → (b : Bus) × (words : List ℕ) × (result ≤ length words) × (text.new.bytes ≡ flat_map (data_text b) (take result words))
        × ((P : Description) (h : List Event) → StandsAt L.is_legal P h terminal.now → AreSent P h b words) }
{
    let next = match terminal.words_to_send() {
        Some(next) => next,
        None => return 0,
    };
    let count = slot_lines(bytes, next.words.len().min(most as usize).min(ROOM));
    text.clear();
    push_data_words(text, pairs, next.bus, &next.words[..count]);
    count
}

/// Plays slots that stand first, in which words of a subaddress are sent.
#[inline(always)]
#[tactic(auto, using(crate::proofs::FeedLaws::none_played))]
fn send_words<L: Legality, W: Sink>(
    terminal: &mut Terminal<L>,
    writer: &mut W,
    text: &mut ArrayString<320>,
    pairs: &KnownPairs,
    bytes: &[u8],
    most: u32,
) -> Result<Piece, IoFailed>
    requires { most ≤ 1048576 }
    ensures ok { IfOk result (λ piece. PlaysPiece L.is_legal W.written (terminal.old, writer.old) (terminal.new, writer.new) bytes.now most piece) }
    ensures err { OnErr result (BreaksPiece L.is_legal W.written (terminal.old, writer.old) (terminal.new, writer.new) bytes.now most) }
    ensures failed { OnErr result (W.has_failed writer.new ≡ true) }
{
    let count = push_words(terminal, text, pairs, bytes, most);
    if count == 0 {
        return Ok(Piece::NONE);
    }
    let lines = text.as_str().as_bytes();
    let written = write_front(writer, lines);
    if written < lines.len() {
        terminal.take_slots(written / SENT_LINE + 1);
        return Err(IoFailed);
    }
    terminal.take_slots(count);
    Ok(Piece::of(count, SLOT_LINE))
}

/// Plays a slot that stands first, if one does.
#[inline(always)]
#[tactic(auto, using(crate::proofs::FeedLaws::none_played))]
fn play_slot<L: Legality, W: Sink>(
    terminal: &mut Terminal<L>,
    writer: &mut W,
    text: &mut ArrayString<320>,
    pairs: &KnownPairs,
    bytes: &[u8],
    most: u32,
) -> Result<Piece, IoFailed>
    requires { 0 < most }
    ensures ok { IfOk result (λ piece. PlaysPiece L.is_legal W.written (terminal.old, writer.old) (terminal.new, writer.new) bytes.now most piece) }
    ensures err { OnErr result (BreaksPiece L.is_legal W.written (terminal.old, writer.old) (terminal.new, writer.new) bytes.now most) }
    ensures failed { OnErr result (W.has_failed writer.new ≡ true) }
{
    if !is_slot_first(bytes) {
        return Ok(Piece::NONE);
    }
    match play_answered(terminal, writer, text, Some(pairs), Event::Slot) {
        Ok(()) => Ok(Piece::of(1, SLOT_LINE)),
        Err(_) => Err(IoFailed),
    }
}

/// Plays slots that stand first: those in which nothing is sent, or those in which words of a subaddress are, or else one.
#[inline(always)]
#[tactic(auto, using(crate::proofs::FeedLaws::taken_played, crate::proofs::FeedLaws::then_played, crate::proofs::FeedLaws::then_broken))]
pub fn play_slots<L: Legality, W: Sink>(
    terminal: &mut Terminal<L>,
    writer: &mut W,
    text: &mut ArrayString<320>,
    pairs: &KnownPairs,
    bytes: &[u8],
    most: u32,
) -> Result<Piece, IoFailed>
    requires some { 0 < most }
    requires few { most ≤ 1048576 }
    ensures ok { IfOk result (λ piece. PlaysPiece L.is_legal W.written (terminal.old, writer.old) (terminal.new, writer.new) bytes.now most piece) }
    ensures err { OnErr result (BreaksPiece L.is_legal W.written (terminal.old, writer.old) (terminal.new, writer.new) bytes.now most) }
    ensures failed { OnErr result (W.has_failed writer.new ≡ true) }
{
    if !terminal.is_replying() {
        return Ok(pass_slots(terminal, bytes, most));
    }
    match send_words(terminal, writer, text, pairs, bytes, most) {
        Ok(piece) if piece.lines == 0 => play_slot(terminal, writer, text, pairs, bytes, most),
        sent => sent,
    }
}
