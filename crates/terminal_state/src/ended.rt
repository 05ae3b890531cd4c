//! What an event ends, and what the cell of a command says of it.
ghost use Rattle.std.specs.Prelude.{◌≡◌, List, ℕ, Some};
ghost use Rattle.terminal_rules.specs.Ends.{is_blocked_by_busy, verdict};
ghost use Rattle.terminal_rules.specs.SinceReset.{code_in, done_code};
ghost use Rattle.terminal_rules.specs.Turn.{is_answered, done_cell};
ghost use Rattle.terminal_rules.specs.Steps.{resets_at_gap};
ghost use Rattle.terminal_state.specs.Ended.{ending_of};
ghost use Rattle.terminal_rules.specs.Status.{reports_kept};

use bus_word::{Cell, Command, mode};

/// How an event ends the message in progress. The words of a message that is done are in the buffer.
#[derive(Clone, Copy)]
pub enum Ended {
    /// Not at all.
    Nothing,
    /// In error.
    Badly(Command),
    /// Well, and illegal.
    Illegal(Command),
    /// Well, and kept from being carried out by the busy flag.
    Blocked(Command, Cell),
    /// Well.
    Done(Command, Cell),
}

impl Ended {
    /// Gives the mode code that was carried out.
    #[inline(always)]
    pub fn done_code(&self) -> Option<u8>
        ensures { (ds : List ℕ) → result ≡ done_code (ending_of self.now ds) }
    {
        match self {
            Ended::Done(_, cell) => code_in(*cell),
            _ => None,
        }
    }

    /// Gives the cell of what was done.
    #[inline(always)]
    pub fn done_cell(&self) -> Option<Cell>
        ensures { (ds : List ℕ) → result ≡ done_cell (ending_of self.now ds) }
    {
        match self {
            Ended::Done(_, cell) => Some(*cell),
            _ => None,
        }
    }

    /// Tells whether a reply begins, by whether the transmitter is shut down: a broadcast has none.
    #[inline(always)]
    pub fn is_answered(&self, off: bool) -> bool
        ensures { (ds : List ℕ) → result ≡ is_answered off (ending_of self.now ds) }
    {
        match self {
            Ended::Nothing | Ended::Badly(_) => false,
            Ended::Illegal(command) | Ended::Blocked(command, _) | Ended::Done(command, _) =>
                !(command.is_broadcast() || off),
        }
    }

    /// Tells whether a reset acts at the gap, by whether a reply begins: one by broadcast does, and one by the own address
    /// where no reply begins.
    #[inline(always)]
    pub fn resets_at_gap(&self, begins: bool) -> bool
        ensures { (ds : List ℕ) → result ≡ resets_at_gap begins (ending_of self.now ds) }
    {
        match self {
            Ended::Done(_, Cell::BroadMode(code)) => *code == mode::RESET,
            Ended::Done(_, Cell::OwnMode(code)) => *code == mode::RESET && !begins,
            _ => false,
        }
    }
}

/// Tells whether the busy flag keeps a terminal from what this cell means.
#[inline(always)]
fn is_blocked_by_busy(cell: Cell) -> bool
    ensures { result ≡ is_blocked_by_busy cell }
{
    match cell {
        Cell::OwnMode(code) | Cell::BroadMode(code) => matches!(
            code,
            mode::VECTOR_WORD | mode::SYNCHRONIZE_WITH_WORD
        ),
        _ => true,
    }
}

/// Tells whether a cell is an own mode code that reports the kept status and spares it.
#[inline(always)]
pub fn reports_kept(cell: Cell) -> bool
    ensures { result ≡ reports_kept cell }
{
    matches!(
        cell,
        Cell::OwnMode(mode::TRANSMIT_STATUS | mode::LAST_COMMAND)
    )
}

/// Gives the mode code of a cell, own or by broadcast.
#[inline(always)]
pub fn code_in(cell: Cell) -> Option<u8>
    ensures { result ≡ code_in cell }
{
    match cell {
        Cell::OwnMode(code) | Cell::BroadMode(code) => Some(code),
        _ => None,
    }
}

/// Tells how a message ends well, by whether its cell is legal and whether the busy flag stands.
#[inline(always)]
pub fn verdict_of(command: Command, cell: Cell, is_legal: bool, busy: bool) -> Ended
    ensures { (ds : List ℕ) → ending_of result ds ≡ verdict (λ _. is_legal) busy command ds (Some cell) }
{
    if !is_legal {
        Ended::Illegal(command)
    } else if busy && is_blocked_by_busy(cell) {
        Ended::Blocked(command, cell)
    } else {
        Ended::Done(command, cell)
    }
}
