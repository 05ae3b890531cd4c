//! The acceptance test played to a terminal, a row for each exchange.
ghost use Rattle.std.specs.Prelude.{◌≡◌, ◌<◌, ◌+◌, ◌∷◌, [], ℕ, List, MatchOption, OnSome};
ghost use Rattle.bus_legal.specs.Parts.{description_in};

use crate::playing::{TestRow, play_exchange};
use bus_complete_test::Exchanges;
use bus_legal::Normal;
use bus_terminal::Terminal;

/// The rows of the acceptance test that are still to come: the terminal is played to, step by step, and no row is kept.
#[derive(Drop)]
pub struct Rows {
    exchanges: Exchanges,
    terminal: Terminal<Normal>,
}

impl Rows {
    ghost use Rattle.rt1553_results.specs.Rows.{Answered, rows_of};
    ghost use Rattle.rt1553_results.specs.Handed.{answered_in};
    ghost use Rattle.rt1553_results.specs.Left.{rows_left, AreLeft};

    /// All rows of the acceptance test of a terminal, which is at power-up.
    pub fn new(normal: &Normal) -> Rows
        ensures { AreLeft result 1 (rows_of (description_in normal.now)) }
    {
        Rows {
            exchanges: Exchanges::new(normal),
            terminal: Terminal::power_up(normal.setup(), *normal),
        }
    }

    /// The next row, or None after the last.
    pub fn next(&mut self) -> Option<TestRow>
        ensures next { (n : ℕ) (left : List Answered) → AreLeft self.old n left → MatchOption result (left ≡ []) (λ row. (row.number ≡ n) × ((rest : List Answered) × (left ≡ answered_in row ∷ rest) × AreLeft self.new (n + 1) rest)) }
        ensures fewer { OnSome result (rows_left self.new < rows_left self.old) }
    {
        let exchange = self.exchanges.next()?;
        let number = self.exchanges.given();
        Some(play_exchange(&mut self.terminal, number, exchange))
    }
}
