//! The words that stand for the reply in progress.
ghost use Rattle.std.specs.Prelude.{◌≡◌, ◌==◌, false, [], ◌∷◌};
ghost use Rattle.terminal_state.specs.Replies.{shown_reply};
ghost use Rattle.rt1553_live.specs.Numbers.{byte, cell_kind, cell_place, cell_count, cell_from, reply_numbers, reply_from};

use crate::numbers::{bus_from, bus_number, byte, wide};
use bus_word::Cell;
use terminal_state::Reply;

/// The words that stand for the cell of a message that was done, or of none.
fn cell_words(cell: Option<Cell>) -> [u16; 3]
    ensures words { result ≡ cell_kind cell ∷ cell_place cell ∷ cell_count cell ∷ [] }
    ensures back { cell_from (cell_kind cell) (byte (cell_place cell)) (byte (cell_count cell)) ≡ cell }
    ensures some { (cell_kind cell == 0) ≡ false }
{
    match cell {
        None => [1, 0, 0],
        Some(Cell::OwnReceive(subaddress, count)) => [2, wide(subaddress), wide(count)],
        Some(Cell::OwnTransmit(subaddress, count)) => [3, wide(subaddress), wide(count)],
        Some(Cell::BroadReceive(subaddress, count)) => [4, wide(subaddress), wide(count)],
        Some(Cell::OwnMode(code)) => [5, wide(code), 0],
        Some(Cell::BroadMode(code)) => [6, wide(code), 0],
    }
}

/// The cell for which a kind, a subaddress or code, and a word count stand.
fn cell_from(kind: u16, place: u8, count: u8) -> Option<Cell>
    ensures { result ≡ cell_from kind place count }
{
    match kind {
        2 => Some(Cell::OwnReceive(place, count)),
        3 => Some(Cell::OwnTransmit(place, count)),
        4 => Some(Cell::BroadReceive(place, count)),
        5 => Some(Cell::OwnMode(place)),
        6 => Some(Cell::BroadMode(place)),
        _ => None,
    }
}

/// The words that stand for the reply in progress, or for none.
pub fn words_of(reply: &Option<Reply>) -> [u16; 5]
    ensures words { result ≡ reply_numbers (shown_reply reply.now) }
    ensures back { reply_from result ≡ shown_reply reply.now }
{
    match reply {
        None => [0; 5],
        Some(reply) => {
            let cell = cell_words(reply.cell);
            [
                cell[0],
                bus_number(reply.bus),
                cell[1],
                cell[2],
                wide(reply.next),
            ]
        }
    }
}

/// The reply in progress for which words stand, or none.
pub fn reply_from(words: &[u16; 5]) -> Option<Reply>
    ensures { shown_reply result ≡ reply_from words.now }
{
    if words[0] == 0 {
        return None;
    }
    Reply::at(
        bus_from(words[1]),
        cell_from(words[0], byte(words[2]), byte(words[3])),
        byte(words[4]),
    )
}
