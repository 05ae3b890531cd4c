//! How many words a recording states, and where the last of them is.
ghost use Rattle.std.specs.Prelude.{◌≡◌, ◌++◌, ◌∷◌, [], List, OnOk, drop};
ghost use Rattle.recorded_terminal.specs.declared.watch.Marked.{Marked};
ghost use Rattle.recorded_terminal.specs.Marks.{maybe, maybe_in};
ghost use Rattle.script_recordings.specs.Seen.{recorded_warning, shows_word};
ghost use Rattle.script_recordings.specs.inner.Tallies.{IsTally};

use recorded_terminal::{Marked, maybe_gap};
use rt1553_verify::{ScriptWarning, stated_warning};
use std::alloc::AllocError;

/// The sightings so far.
#[derive(Clone, Copy)]
pub struct Tally {
    /// How many there are.
    seen: u64,
    /// How many there were with the last in which a word was sent; 0 before the first.
    last: u64,
    /// In how many a word was sent.
    pub answers: usize,
}

/// Whether a word was sent in a sighting.
fn shows_word(marked: &Marked) -> bool
    ensures { result ≡ shows_word (maybe marked.now) }
{
    match maybe_gap(marked) {
        Some(_) => false,
        None => marked.sighting.sent.is_some(),
    }
}

impl Tally {
    /// None yet.
    pub fn new() -> Tally
        ensures { IsTally [] result }
    {
        Tally {
            seen: 0,
            last: 0,
            answers: 0,
        }
    }

    /// Takes one more. More than 2^64 - 1 are as if memory had run out.
    pub fn take(&mut self, marked: &Marked) -> Result<(), AllocError>
        ensures { OnOk result ((ms : List Marked) → IsTally ms self.old → IsTally (ms ++ marked.now ∷ []) self.new) }
    {
        let Some(seen) = self.seen.checked_add(1) else {
            return Err(AllocError);
        };
        self.seen = seen;
        if shows_word(marked) {
            self.last = seen;
            self.answers = self.answers.saturating_add(1);
        }
        Ok(())
    }

    /// Why what comes behind so many of them shows nothing, where it does.
    pub fn warning_behind(&self, before: u64) -> Option<ScriptWarning>
        ensures { (ms : List Marked) → IsTally ms self.now → result ≡ recorded_warning (maybe_in (drop before ms)) }
    {
        if before < self.last {
            return None;
        }
        stated_warning(before < self.seen, 0)
    }
}
