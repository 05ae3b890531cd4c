//! The exchanges of the complete test, one after the other, in constant memory.
ghost use Rattle.std.specs.Prelude.{◌≡◌, ◌≤◌, ◌+◌, ◌*◌, true, length};
ghost use Rattle.bus_complete_test.specs.Trials.{trials_left};
ghost use Rattle.bus_complete_test.specs.inner.Waiting.{is_trial, are_short};

use crate::exchanges::exchanges_of;
use crate::trial::{Trial, first_trial, next_trial};
use arrayvec::ArrayVec;
use bus_legal::Normal;
use terminal_exchanges::Exchange;

/// The exchanges of the complete test of a terminal that are still to come.
#[derive(Drop)]
pub struct Exchanges {
    normal: Normal,
    /// Those of the trial at hand.
    waiting: ArrayVec<Exchange, 2>,
    /// The trial after it.
    trial: Option<Trial>,
    /// How many were given.
    given: u32,
    ghost ranges: { is_trial trial ≡ true },
    ghost short: { are_short waiting.items ≡ true },
    ghost small: { given + (length waiting.items + 2 * trials_left trial) ≤ 20000 },
}

impl Exchanges {
    ghost use Rattle.std.specs.Prelude.{◌<◌, ◌++◌, ◌∷◌, [], ℕ, MatchOption, IfSome, None, OnSome, IsNone};
    ghost use Rattle.terminal_exchanges.specs.Values.{exchange_in, IsShort};
    ghost use Rattle.bus_legal.specs.Parts.{description_in};
    ghost use Rattle.bus_complete_test.specs.CompleteTest.{tried};
    ghost use Rattle.bus_complete_test.specs.Left.{exchanges_left};

    /// All exchanges of the complete test of a terminal.
    pub fn new(normal: &Normal) -> Exchanges
        ensures left { exchanges_left result ≡ tried (description_in normal.now) }
        ensures given { result.given ≡ 0 }
    {
        Exchanges {
            normal: *normal,
            waiting: ArrayVec::new(),
            trial: Some(first_trial()),
            given: 0,
        }
    }

    /// Fetches the exchanges of the trial that is next.
    fn fetch(&mut self, trial: Trial)
        requires trial { self.old.trial ≡ Some trial }
        requires none { self.old.waiting.items ≡ [] }
        ensures left { exchanges_left self.new ≡ exchanges_left self.old }
        ensures fewer { trials_left self.new.trial < trials_left self.old.trial }
        ensures given { self.new.given ≡ self.old.given }
    {
        let waiting = exchanges_of(&self.normal, trial);
        self.trial = next_trial(&self.normal, trial);
        self.waiting = waiting;
    }

    /// Fetches exchanges until some wait, or none are left.
    fn refill(&mut self)
        ensures left { exchanges_left self.new ≡ exchanges_left self.old }
        ensures waits { self.new.waiting.items ≡ [] → exchanges_left self.new ≡ [] }
        ensures given { self.new.given ≡ self.old.given }
    {
        while self.waiting.is_empty() {
            match self.trial {
                Some(trial) => self.fetch(trial),
                None => return,
            }
        }
    }

    /// The next exchange.
    pub fn next(&mut self) -> Option<Exchange>
        ensures next { MatchOption result (exchanges_left self.old ≡ []) (λ x. exchanges_left self.old ≡ exchange_in x ∷ exchanges_left self.new) }
        ensures given { OnSome result (self.new.given ≡ self.old.given + 1) }
        ensures short { IfSome result IsShort }
    {
        self.refill();
        if self.waiting.is_empty() {
            return None;
        }
        self.given += 1;
        Some(self.waiting.remove(0))
    }

    /// How many exchanges were given.
    pub fn given(&self) -> u32
        ensures { result ≡ self.now.given }
    {
        self.given
    }
}
