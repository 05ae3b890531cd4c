//! Words, of which messages are made. The words of a message that is received are taken all at once with its gap, and their
//! digits go from the script to the transcript as text.
ghost use Rattle.std.specs.Prelude.{◌≡◌, ◌≤◌, ◌<◌, ◌+◌, ◌*◌, ◌++◌, ◌∷◌, [], List, ℕ, true, length, IfOk, OnErr};
ghost use Rattle.std.specs.List.{flat_map};
ghost use Rattle.arrayvec.specs.ArrayString.{array_string_len};
ghost use Rattle.terminal_rules.specs.declared.event.Event.TheVariants.{Gap};
ghost use Rattle.bus_terminal.specs.Received.{data_words_on};
ghost use Rattle.script_lines.specs.Transcript.{word_field, received_text};
ghost use Rattle.bus_script.specs.inner.Lines.{LinesFirst};
ghost use Rattle.bus_script.specs.inner.Pieces.{TakesPiece, PlaysPiece, BreaksPiece};

use crate::answering::play_with_gap;
use crate::piece::Piece;
use arrayvec::ArrayString;
use bus_legal::Legality;
use bus_terminal::{Receiving, Terminal};
use bus_word::{Bus, Kind};
use byte_streams::{IoFailed, Sink, write_all};
use script_lines::{
    GAP_LINE, LineReader, WORD_LINE, is_gap_first, push_field, push_received_by, read_bus,
};

/// Takes a data word that stands first, if one does. No word is answered.
#[inline(always)]
#[tactic(auto, using(crate::proofs::FeedLaws::none_taken))]
pub fn take_word<L: Legality>(
    terminal: &mut Terminal<L>,
    reader: &mut LineReader,
    bytes: &[u8],
    most: u32,
) -> Piece
    requires { 0 < most }
    ensures { TakesPiece L.is_legal terminal.old terminal.new bytes.now most result }
{
    match reader.first_word(bytes, Kind::Dat) {
        Some((bus, bits)) => {
            terminal.take_valid(bus, Kind::Dat, bits);
            Piece::of(1, WORD_LINE)
        }
        None => Piece::NONE,
    }
}

/// Writes the digits of so many data words on this bus as fields, where their lines stand first. Else it may have written some.
#[inline(always)]
fn copy_words(
    reader: &mut LineReader,
    text: &mut ArrayString<320>,
    bytes: &[u8],
    bus: Bus,
    count: u8,
) -> bool
    requires { array_string_len text.old + 5 * count ≤ 320 }
    ensures { result ≡ true → (ds : List ℕ) × (length ds ≡ count) × LinesFirst bytes.now (9 * count) count (data_words_on bus ds)
        × (text.new.bytes ≡ text.old.bytes ++ flat_map word_field ds) × (array_string_len text.new ≡ array_string_len text.old + 5 * count) }
{
    let mut rest = bytes;
    for _ in 0..count {
        match reader.first_data(rest, bus) {
            Some(digits) => {
                push_field(text, digits);
                rest = &rest[WORD_LINE + 1..];
            }
            None => return false,
        }
    }
    true
}

/// Writes the line of the words that are to be received on this bus, where their lines and that of a gap stand first, of so many
/// lines at most.
#[inline(always)]
fn copy_message(
    reader: &mut LineReader,
    text: &mut ArrayString<320>,
    bytes: &[u8],
    bus: Bus,
    it: &Receiving,
    most: u32,
) -> bool
    ensures { result ≡ true → (ds : List ℕ) × (length ds ≡ it.now.count) × (it.now.count + 1 ≤ most)
        × LinesFirst bytes.now (9 * it.now.count + 6) (it.now.count + 1) (data_words_on bus ds ++ Gap bus ∷ [])
        × (text.new.bytes ≡ received_text it.now.broadcast it.now.subaddress ds) }
{
    if it.count > 32 || it.count as u32 >= most {
        return false;
    }
    text.clear();
    push_received_by(text, it.broadcast, it.subaddress);
    if !copy_words(reader, text, bytes, bus, it.count) {
        return false;
    }
    text.push_str("\n");
    is_gap_first(&bytes[(WORD_LINE + 1) * it.count as usize..], bus)
}

/// Plays a message of which the words stand first, with their gap, where the terminal is to receive just these: one whose command
/// was the last line that had been read.
#[inline(never)]
#[tactic(auto, using(crate::proofs::FeedLaws::none_played))]
pub fn play_received<L: Legality, W: Sink>(
    terminal: &mut Terminal<L>,
    writer: &mut W,
    reader: &mut LineReader,
    text: &mut ArrayString<320>,
    bytes: &[u8],
    most: u32,
) -> Result<Piece, IoFailed>
    ensures ok { IfOk result (λ piece. PlaysPiece L.is_legal W.written (terminal.old, writer.old) (terminal.new, writer.new) bytes.now most piece) }
    ensures err { OnErr result (BreaksPiece L.is_legal W.written (terminal.old, writer.old) (terminal.new, writer.new) bytes.now most) }
    ensures failed { OnErr result (W.has_failed writer.new ≡ true) }
{
    if let Some(bus) = read_bus(bytes) {
        if let Some(it) = terminal.receives(bus) {
            if copy_message(reader, text, bytes, bus, &it, most) {
                terminal.take_received(bus);
                return match write_all(writer, text.as_str().as_bytes()) {
                    Ok(()) => Ok(Piece {
                        bytes: (WORD_LINE + 1) * it.count as usize + GAP_LINE + 1,
                        lines: it.count as u32 + 1,
                        events: it.count as u64 + 1,
                    }),
                    Err(_) => Err(IoFailed),
                };
            }
        }
    }
    Ok(Piece::NONE)
}

/// Plays a command word that stands first, if one does, and what ends its message right behind it: a gap, or the words that the
/// terminal is to receive by it and their gap.
#[inline(always)]
#[tactic(auto, using(crate::proofs::FeedLaws::none_played))]
pub fn play_command<L: Legality, W: Sink>(
    terminal: &mut Terminal<L>,
    writer: &mut W,
    reader: &mut LineReader,
    text: &mut ArrayString<320>,
    bytes: &[u8],
    most: u32,
) -> Result<Piece, IoFailed>
    requires some { 0 < most }
    ensures ok { IfOk result (λ piece. PlaysPiece L.is_legal W.written (terminal.old, writer.old) (terminal.new, writer.new) bytes.now most piece) }
    ensures err { OnErr result (BreaksPiece L.is_legal W.written (terminal.old, writer.old) (terminal.new, writer.new) bytes.now most) }
    ensures failed { OnErr result (W.has_failed writer.new ≡ true) }
{
    let (bus, bits) = match reader.first_word(bytes, Kind::Com) {
        Some(word) => word,
        None => return Ok(Piece::NONE),
    };
    let rest = &bytes[WORD_LINE + 1..];
    if most > 1 && is_gap_first(rest, bus) {
        return match play_with_gap(terminal, writer, text, bus, bits) {
            Ok(()) => Ok(Piece {
                bytes: WORD_LINE + GAP_LINE + 2,
                lines: 2,
                events: 2,
            }),
            Err(_) => Err(IoFailed),
        };
    }
    if let Some(it) = terminal.receives_by(bus, bits) {
        if copy_message(reader, text, rest, bus, &it, most - 1) {
            terminal.take_message(bus, bits);
            return match write_all(writer, text.as_str().as_bytes()) {
                Ok(()) => Ok(Piece {
                    bytes: (WORD_LINE + 1) * it.count as usize + WORD_LINE + GAP_LINE + 2,
                    lines: it.count as u32 + 2,
                    events: it.count as u64 + 2,
                }),
                Err(_) => Err(IoFailed),
            };
        }
    }
    terminal.take_valid(bus, Kind::Com, bits);
    Ok(Piece::of(1, WORD_LINE))
}
