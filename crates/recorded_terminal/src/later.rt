//! A recording that began at any time: the part of it that begins afresh is watched.
ghost use Rattle.std.specs.Prelude.{◌≡◌, ◌+◌, ◌++◌, ◌∷◌, [], List, IfOk, IfErr, OnOk};
ghost use Rattle.bus_legal.specs.Description.{Description, described};
ghost use Rattle.terminal_recordings.specs.Later.{are_two, command_for, gaps_with};
ghost use Rattle.terminal_rules.specs.Status.{spares};
ghost use Rattle.recorded_terminal.specs.SentWords.{word_shown};
ghost use Rattle.recorded_terminal.specs.declared.watch.Marked.{Marked};
ghost use Rattle.recorded_terminal.specs.declared.watch.WatchFault.TheVariants.{TooManyWays};
ghost use Rattle.recorded_terminal.specs.Marks.{maybe, maybe_in, HasManyWays};
ghost use Rattle.recorded_terminal.specs.Judged.{CanBegin, IsJudgedBy, WatchesLater, shown_gaps};
ghost use Rattle.recorded_terminal.specs.inner.Gaps.{AreGaps, IsPartOn, IsPartWith, at_most_two};
ghost use Rattle.recorded_terminal.specs.Sightings.{shown_sighting};

use crate::beginnings::Beginnings;
use crate::watch::{Marked, Unexplained, WatchFault};
use crate::ways::maybe_gap;
use bus_legal::{Legality, Setup};
use bus_terminal::{Event, Sent};
use bus_word::{Bus, Command, cell_of};
use std::alloc::{AllocError, Global};
use terminal_state::{OnBuses, reports_kept};

/// How many gaps came on each bus, 2 standing for more, with no word or noise since the first of them, and no word sent.
#[derive(Clone, Copy)]
pub struct Gaps {
    a: u8,
    b: u8,
}

/// Which part of a recording a watch is in.
#[derive(Clone, Copy)]
pub enum WatchPhase {
    /// A pause is sought.
    Sought(Gaps),
    /// A pause came, and no command for the terminal since.
    Begun,
    /// The first command since did not ask back: what comes after the pause is judged.
    Afresh,
}

/// The part of a recording that is judged, since it begins afresh after a pause.
#[derive(Clone, Copy)]
pub struct FreshPart {
    /// The line of the slot that ends the pause.
    pub after: u64,
    /// How many sightings come before the part: those up to that slot.
    pub before: u64,
    /// The transmitters that are shut down after the beginning which explains most of it.
    pub shut: OnBuses,
    /// The first sighting in it that no behaviour of the subsystem explains, whatever came before the pause.
    pub first: Option<Unexplained>,
}

/// One more gap.
fn one_more(gaps: u8) -> u8
    ensures { result ≡ at_most_two (gaps + 1) }
{
    if gaps < 2 { gaps + 1 } else { 2 }
}

impl Gaps {
    const NONE: Gaps = Gaps { a: 0, b: 0 };

    /// Whether there are two or more on each bus.
    fn are_two(self) -> bool
        ensures { result ≡ are_two (shown_gaps self) }
    {
        self.a >= 2 && self.b >= 2
    }

    /// Counts an event, in which this word is sent, or none. None where it ends a pause.
    fn with(self, event: Event, sent: Option<Sent>) -> Option<Gaps>
        ensures { AreGaps (gaps_with (shown_gaps self) event (word_shown sent)) result }
    {
        match (event, sent) {
            (Event::Gap(Bus::A), _) => Some(Gaps {
                a: one_more(self.a),
                b: self.b,
            }),
            (Event::Gap(Bus::B), _) => Some(Gaps {
                a: self.a,
                b: one_more(self.b),
            }),
            (Event::Slot, None) => if self.are_two() { None } else { Some(self) },
            _ => Some(Gaps::NONE),
        }
    }
}

/// Watches a recording that began at any time, from the first pause in it after which it begins afresh.
#[derive(Drop)]
pub struct LaterWatch<L> {
    alloc: Global,
    setup: Setup,
    legality: L,
    part: WatchPhase,
    /// How many sightings were seen.
    seen: u64,
    /// The line of the slot that ended the last pause.
    after: u64,
    /// How many had been seen then, with that slot.
    before: u64,
    beginnings: Beginnings<L>,
}

impl<L: Legality + Drop + Copy> LaterWatch<L> {
    /// Watches a terminal of this set-up and legality.
    pub fn new(alloc: Global, setup: Setup, legality: L) -> Result<LaterWatch<L>, AllocError>
        ensures { IfOk result (λ watch. CanBegin (described setup (L.is_legal legality)) → WatchesLater L.is_legal (described setup (L.is_legal legality)) [] watch) }
    {
        Ok(LaterWatch {
            alloc,
            setup,
            legality,
            part: WatchPhase::Sought(Gaps::NONE),
            seen: 0,
            after: 0,
            before: 0,
            beginnings: Beginnings::of(alloc, setup, legality)?,
        })
    }

    /// The command in a word for the terminal.
    fn command_for(&self, event: Event) -> Option<u16>
        ensures { result ≡ command_for (described self.now.setup (L.is_legal self.now.legality)) event }
    {
        match event {
            Event::Word(_, word) if word.is_for(self.setup.address, self.setup.broadcast) => Some(
                word.bits,
            ),
            _ => None,
        }
    }

    /// Whether a command is a legal own mode code 2 or 18, which asks for what was kept before it.
    fn asks_back(&self, command: u16) -> bool
        ensures { result ≡ spares (described self.now.setup (L.is_legal self.now.legality)) command }
    {
        match cell_of(Command::of(command)) {
            Some(cell) => reports_kept(cell) && self.legality.legal(cell),
            None => false,
        }
    }

    /// Which part the sighting is in that comes next. A gap that may have come is not counted.
    fn part_with(&self, marked: &Marked) -> WatchPhase
        ensures { IsPartOn (described self.now.setup (L.is_legal self.now.legality)) self.now.part (maybe marked.now) result }
    {
        if maybe_gap(marked).is_some() {
            self.part
        } else {
            self.part_seen(marked)
        }
    }

    /// The same where it is no such gap.
    fn part_seen(&self, marked: &Marked) -> WatchPhase
        ensures { IsPartWith (described self.now.setup (L.is_legal self.now.legality)) self.now.part (shown_sighting marked.now.sighting) result }
    {
        match self.part {
            WatchPhase::Sought(gaps) => match gaps.with(
                marked.sighting.event,
                marked.sighting.sent,
            ) {
                Some(gaps) => WatchPhase::Sought(gaps),
                None => WatchPhase::Begun,
            },
            WatchPhase::Begun => match self.command_for(marked.sighting.event) {
                Some(command) if self.asks_back(command) => WatchPhase::Sought(Gaps::NONE),
                Some(_) => WatchPhase::Afresh,
                None => WatchPhase::Begun,
            },
            WatchPhase::Afresh => WatchPhase::Afresh,
        }
    }

    /// Takes what is seen next. More than 2^64 - 1 sightings are as if memory had run out.
    pub fn see(&mut self, marked: Marked) -> Result<(), WatchFault>
        ensures sees { OnOk result ((P : Description) (ms : List Marked) → WatchesLater L.is_legal P ms self.old → WatchesLater L.is_legal P (ms ++ marked ∷ []) self.new) }
        ensures refused { IfErr result (λ fault. fault ≡ TooManyWays → (P : Description) (ms : List Marked) → WatchesLater L.is_legal P ms self.old → HasManyWays (maybe_in (ms ++ marked ∷ []))) }
    {
        let Some(seen) = self.seen.checked_add(1) else {
            return Err(WatchFault::Memory);
        };
        let part = self.part;
        self.seen = seen;
        self.part = self.part_with(&marked);
        match (part, self.part) {
            (_, WatchPhase::Sought(_)) => Ok(()),
            (WatchPhase::Sought(_), _) => {
                self.after = marked.line;
                self.before = seen;
                self.beginnings = Beginnings::of(self.alloc, self.setup, self.legality)?;
                Ok(())
            }
            _ => {
                self.beginnings.see(&marked)?;
                Ok(())
            }
        }
    }

    /// Gives the part that is judged, and the first sighting there that no behaviour of the subsystem explains. None where no part
    /// begins afresh after a pause.
    pub fn end(self) -> Result<Option<FreshPart>, WatchFault>
        ensures judged { IfOk result (λ judged. (P : Description) (ms : List Marked) → WatchesLater L.is_legal P ms self → IsJudgedBy P ms judged) }
        ensures refused { IfErr result (λ fault. fault ≡ TooManyWays → (P : Description) (ms : List Marked) → WatchesLater L.is_legal P ms self → HasManyWays (maybe_in ms)) }
    {
        let LaterWatch {
            part,
            after,
            before,
            beginnings,
            ..
        } = self;
        if let WatchPhase::Sought(_) = part {
            return Ok(None);
        }
        let best = beginnings.end()?;
        Ok(Some(FreshPart {
            after,
            before,
            shut: best.shut,
            first: best.first,
        }))
    }
}
