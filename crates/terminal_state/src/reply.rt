//! The reply in progress.
ghost use Rattle.std.specs.Prelude.{◌≡◌, ◌≤◌, true};
ghost use Rattle.terminal_rules.specs.Reply.{words_after_status};
ghost use Rattle.terminal_state.specs.Places.{has_place};

mod steps;

use bus_word::{Bus, Cell, mode};
pub use steps::{advance, advance_by, begin};

/// A reply of which words are still to be sent.
#[derive(Clone, Copy)]
pub struct Reply {
    pub bus: Bus,
    /// The cell of the message that is answered, where that was done. It says what data words follow the status.
    pub cell: Option<Cell>,
    /// The number of the word that is sent next. The status is number 0.
    pub next: u8,
    /// How many data words follow the status. It is asked at each slot, and found once.
    pub count: u8,
    ghost counted: { count ≡ words_after_status cell },
    ghost there: { has_place cell count ≡ true },
    ghost within: { next ≤ count },
}

/// Tells how many data words follow the status.
#[inline(always)]
fn words_after_status(cell: Option<Cell>) -> u8
    ensures { result ≡ words_after_status cell }
{
    match cell {
        Some(Cell::OwnTransmit(_, count)) => count,
        Some(Cell::OwnMode(code)) => if matches!(
            code,
            mode::VECTOR_WORD | mode::LAST_COMMAND | mode::BIT_WORD
        ) {
            1
        } else {
            0
        },
        _ => 0,
    }
}
