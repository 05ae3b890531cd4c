//! A recording that is watched from each of the four beginnings: what a unit that was on before may have left is which transmitters are
//! shut down.
ghost use Rattle.std.specs.Prelude.{◌≡◌, ◌++◌, ◌∷◌, [], List, IfOk, IfErr, OnOk};
ghost use Rattle.bus_legal.specs.Description.{Description, described};
ghost use Rattle.recorded_terminal.specs.declared.watch.Marked.{Marked};
ghost use Rattle.recorded_terminal.specs.declared.watch.WatchFault.TheVariants.{TooManyWays};
ghost use Rattle.recorded_terminal.specs.Marks.{maybe_in, HasManyWays};
ghost use Rattle.recorded_terminal.specs.Judged.{IsBest, WatchBegun};
ghost use Rattle.recorded_terminal.specs.inner.Latest.{IsBetter};

use crate::watch::{Marked, Unexplained, Watch, WatchFault};
use bus_legal::{Legality, Setup};
use std::alloc::{AllocError, Global};
use terminal_state::OnBuses;

/// A watch for each of the four beginnings.
#[derive(Drop)]
pub struct Beginnings<L> {
    /// No transmitter is shut down.
    none: Watch<L>,
    /// That of bus A is.
    a: Watch<L>,
    /// That of bus B is.
    b: Watch<L>,
    both: Watch<L>,
}

/// What comes of the watch of a beginning.
#[derive(Clone, Copy)]
pub struct BestBeginning {
    /// The transmitters that are shut down.
    pub shut: OnBuses,
    /// The first sighting that no behaviour of the subsystem explains after it.
    pub first: Option<Unexplained>,
}

/// The one of two after which more is explained.
fn better_of(one: BestBeginning, other: BestBeginning) -> BestBeginning
    ensures { IsBetter one other result }
{
    match (one.first, other.first) {
        (None, _) => one,
        (_, None) => other,
        (Some(first), Some(second)) if first.number < second.number => other,
        _ => one,
    }
}

impl<L: Legality + Drop + Copy> Beginnings<L> {
    /// Watches a terminal of this set-up and legality from each beginning.
    pub fn of(alloc: Global, setup: Setup, legality: L) -> Result<Beginnings<L>, AllocError>
        ensures { IfOk result (WatchBegun L.is_legal (described setup (L.is_legal legality)) []) }
    {
        Ok(Beginnings {
            none: Watch::shut(alloc, setup, legality, OnBuses { a: false, b: false })?,
            a: Watch::shut(alloc, setup, legality, OnBuses { a: true, b: false })?,
            b: Watch::shut(alloc, setup, legality, OnBuses { a: false, b: true })?,
            both: Watch::shut(alloc, setup, legality, OnBuses { a: true, b: true })?,
        })
    }

    /// Takes what is seen next.
    pub fn see(&mut self, marked: &Marked) -> Result<(), WatchFault>
        ensures sees { OnOk result ((P : Description) (ms : List Marked) → WatchBegun L.is_legal P ms self.old → WatchBegun L.is_legal P (ms ++ marked.now ∷ []) self.new) }
        ensures refused { IfErr result (λ fault. fault ≡ TooManyWays → (P : Description) (ms : List Marked) → WatchBegun L.is_legal P ms self.old → HasManyWays (maybe_in (ms ++ marked.now ∷ []))) }
    {
        self.none.see(*marked)?;
        self.a.see(*marked)?;
        self.b.see(*marked)?;
        self.both.see(*marked)?;
        Ok(())
    }

    /// Gives the beginning after which most is explained, and the first sighting that no behaviour of the subsystem explains after any.
    /// None where one explains all, as this one does then.
    pub fn end(self) -> Result<BestBeginning, WatchFault>
        ensures best { IfOk result (λ best. (P : Description) (ms : List Marked) → WatchBegun L.is_legal P ms self → IsBest P ms best) }
        ensures refused { IfErr result (λ fault. fault ≡ TooManyWays → (P : Description) (ms : List Marked) → WatchBegun L.is_legal P ms self → HasManyWays (maybe_in ms)) }
    {
        let Beginnings { none, a, b, both } = self;
        let none = BestBeginning {
            shut: OnBuses { a: false, b: false },
            first: none.end()?,
        };
        let of_a = BestBeginning {
            shut: OnBuses { a: true, b: false },
            first: a.end()?,
        };
        let of_b = BestBeginning {
            shut: OnBuses { a: false, b: true },
            first: b.end()?,
        };
        let both = BestBeginning {
            shut: OnBuses { a: true, b: true },
            first: both.end()?,
        };
        Ok(better_of(better_of(none, of_a), better_of(of_b, both)))
    }
}
