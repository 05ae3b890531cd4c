//! A recording that is watched, sighting by sighting.
ghost use Rattle.std.specs.Prelude.{◌≡◌, ◌+◌, ◌<◌, ◌≤◌, ◌^◌, ◌↔◌, ◌++◌, ◌∷◌, [], List, length, IfOk, IfErr, IsTrue, OnOk};
ghost use Rattle.bus_legal.specs.Description.{Description, described};
ghost use Rattle.terminal_rules.specs.declared.event.Event.{Event};
ghost use Rattle.terminal_recordings.specs.Later.{shut_history};
ghost use Rattle.recorded_terminal.specs.declared.watch.Marked.{Marked};
ghost use Rattle.recorded_terminal.specs.Follows.{FollowsAt, shut_down};
ghost use Rattle.bus_terminal.specs.Answer.{shown_word};
ghost use Rattle.terminal_recordings.specs.Masks.{AreDataWords, FitsWord};
ghost use Rattle.recorded_terminal.specs.SentWords.{word_shown};
ghost use Rattle.recorded_terminal.specs.Marks.{maybe_in, seen_in, HasManyWays};
ghost use Rattle.terminal_recordings.specs.Completion.{next_status};
ghost use Rattle.recorded_terminal.specs.Watched.{IsDecidedAt, Watches};
ghost use Rattle.recorded_terminal.specs.inner.Followed.{Followed};
ghost use Rattle.recorded_terminal.specs.Ways.{AreWays};
ghost use Rattle.recorded_terminal.specs.declared.watch.WatchFault.TheVariants.{Memory, TooManyWays};

use crate::flag_ways::{FlagWays, choose_flags, follow_by_flags, part_by_flags};
use crate::follower::Follower;
use crate::sighting::Sighting;
use crate::told::shown_status;
use crate::way::Way;
use crate::ways::{maybe_gap, see};
use bus_legal::{Legality, Setup};
use bus_terminal::Sent;
use bus_word::Kind;
use std::alloc::{AllocError, AllocFailed, Global};
use terminal_state::OnBuses;

/// So many sightings wait for a status word at most; then the ways for all flags are followed.
const MOST_WAITING: usize = 16_384;

/// A sighting, and where it stands in a recording.
#[derive(Clone, Copy)]
pub struct Marked {
    pub sighting: Sighting,
    /// The number of its line.
    pub line: u64,
    /// The command word of the message in progress after it, if there is one.
    pub command: Option<u16>,
    /// Whether the data word that was seen is left open: any may stand in its place.
    pub any_word: bool,
    /// Whether a gap may have come or not; all else came.
    pub is_maybe: bool,
}

/// Why a recording is not judged.
#[derive(Clone, Copy, Debug, PartialEq, Eq)]
pub enum WatchFault {
    /// Memory ran out.
    Memory,
    /// Gaps that may have come leave more ways open than are followed.
    TooManyWays,
}

/// To callers for whom too many ways are as if memory had run out.
impl From<WatchFault> for AllocError {
    fn from(_fault: WatchFault) -> AllocError {
        AllocError
    }
}

impl From<AllocError> for WatchFault {
    ghost from_gives = { λ _ fault. fault ≡ Memory };

    fn from(_error: AllocError) -> WatchFault {
        WatchFault::Memory
    }
}

impl<T: Drop> From<AllocFailed<T>> for WatchFault {
    ghost from_gives = { λ _ fault. fault ≡ Memory };

    fn from(_failed: AllocFailed<T>) -> WatchFault {
        WatchFault::Memory
    }
}

/// The first sighting that no behaviour of the subsystem explains.
#[derive(Clone, Copy)]
pub struct Unexplained {
    pub marked: Marked,
    /// How many sightings come before it.
    pub number: u64,
    /// What the terminal can send there in place of what was seen.
    pub sent: Option<Sent>,
}

impl Marked {
    /// Tells whether the word that a terminal sends, or none, is the one that was seen, or a data word where that is left open.
    pub fn is_as_seen(&self, sent: Option<Sent>) -> bool
        ensures { IsTrue result ↔ FitsWord self.now.any_word (word_shown self.now.sighting.sent) (word_shown sent) }
    {
        match (self.any_word, self.sighting.sent, sent) {
            (false, seen, _) => sent == seen,
            (true, Some(seen), Some(sent)) => are_data_words(seen, sent),
            _ => false,
        }
    }
}

/// Whether two words are data words on the same bus.
fn are_data_words(one: Sent, other: Sent) -> bool
    ensures { IsTrue result ↔ AreDataWords (shown_word one) (shown_word other) }
{
    one.kind == Kind::Dat && other.kind == Kind::Dat && one.bus == other.bus
}

/// The status word that is seen in a sighting.
fn status_in(marked: &Marked) -> Option<u16>
    ensures { result ≡ next_status (seen_in (marked.now ∷ [])) }
{
    if maybe_gap(marked).is_some() {
        None
    } else {
        shown_status(marked.sighting.sent)
    }
}

/// Follows sightings on each way, before which so many were followed, where `status` is the next status word that is seen, in each of them
/// or later. Gives the first for which no way is left.
pub fn follow<L: Legality + Copy + Drop>(
    alloc: Global,
    ways: &mut Vec<Way<L>>,
    followed: u64,
    waiting: &[Marked],
    status: Option<u16>,
) -> Result<Option<Unexplained>, WatchFault>
    ensures found { IfOk result (λ found. (P : Description) (h : List Event) (ms : List Marked) → P.address ≤ 30 → followed + length waiting.now < 2 ^ 64 → AreWays L.is_legal P h ms ways.old.items → Followed L.is_legal P h ms followed status waiting.now ways.old.items ways.new.items found) }
    ensures refused { IfErr result (λ fault. fault ≡ TooManyWays → (P : Description) (h : List Event) (ms : List Marked) → P.address ≤ 30 → AreWays L.is_legal P h ms ways.old.items → HasManyWays (maybe_in (ms ++ waiting.now))) }
{
    for (number, marked) in waiting.iter().enumerate() {
        if let Some(instead) = see(alloc, ways, marked, status)? {
            return Ok(Some(Unexplained {
                marked: *marked,
                number: followed.saturating_add(number as u64),
                sent: instead.sent,
            }));
        }
    }
    Ok(None)
}

/// Watches a recording for the first sighting that no behaviour of the subsystem explains. It keeps the sightings behind the last status
/// word that was seen, since the next one tells which flags the subsystem has there; where they are many, the ways for all flags.
#[derive(Drop)]
pub struct Watch<L> {
    alloc: Global,
    /// The ways up to the last status word.
    ways: Vec<Way<L>>,
    /// The same ways, followed further for all flags that the next status word can show; none where few sightings came since.
    by_flags: Vec<FlagWays<L>>,
    /// How many sightings were followed; then come those that wait.
    followed: u64,
    waiting: Vec<Marked>,
    first: Option<Unexplained>,
}

impl<L: Legality + Copy + Drop> Watch<L> {
    /// Watches a terminal from power-up.
    pub fn power_up(alloc: Global, setup: Setup, legality: L) -> Result<Watch<L>, AllocError>
        ensures { IfOk result (Watches L.is_legal (described setup (L.is_legal legality)) [] []) }
    {
        Watch::from(alloc, Follower::power_up(setup, legality))
    }

    /// Watches a terminal whose transmitters on these buses were shut down, and which has seen nothing else.
    pub fn shut(
        alloc: Global,
        setup: Setup,
        legality: L,
        shut: OnBuses,
    ) -> Result<Watch<L>, AllocError>
        ensures { IfOk result (Watches L.is_legal (described setup (L.is_legal legality)) (shut_history (described setup (L.is_legal legality)) (shut_down shut)) []) }
    {
        Watch::from(alloc, Follower::shut(setup, legality, shut))
    }

    /// Watches a terminal that this one stands for, from now on.
    fn from(alloc: Global, follower: Follower<L>) -> Result<Watch<L>, AllocError>
        ensures { IfOk result (λ watch. (P : Description) (h : List Event) → P.address ≤ 30 → FollowsAt L.is_legal P h follower → Watches L.is_legal P h [] watch) }
    {
        let mut ways = Vec::new(alloc);
        ways.push(Way::from(follower))?;
        Ok(Watch {
            alloc,
            ways,
            by_flags: Vec::new(alloc),
            followed: 0,
            waiting: Vec::new(alloc),
            first: None,
        })
    }

    /// Takes what is seen next. More than 2^64 - 1 sightings are as if memory had run out, and too many ways come only of gaps that may
    /// have come, and leave room for them.
    pub fn see(&mut self, marked: Marked) -> Result<(), WatchFault>
        ensures sees { OnOk result ((P : Description) (h : List Event) (ms : List Marked) → Watches L.is_legal P h ms self.old → Watches L.is_legal P h (ms ++ marked ∷ []) self.new) }
        ensures refused { IfErr result (λ fault. fault ≡ TooManyWays → (P : Description) (h : List Event) (ms : List Marked) → Watches L.is_legal P h ms self.old → HasManyWays (maybe_in (ms ++ marked ∷ []))) }
    {
        if self.first.is_some() {
            return Ok(());
        }
        let status = status_in(&marked);
        self.waiting.push(marked)?;
        let Some(seen) = self.followed.checked_add(self.waiting.len() as u64) else {
            return Err(WatchFault::Memory);
        };
        if status.is_some() {
            choose_flags(&mut self.ways, &mut self.by_flags, status);
            self.first = follow(
                self.alloc,
                &mut self.ways,
                self.followed,
                self.waiting.as_slice(),
                status,
            )?;
        } else if self.waiting.len() >= MOST_WAITING {
            part_by_flags(self.alloc, self.ways.as_slice(), &mut self.by_flags)?;
            self.first = follow_by_flags(
                self.alloc,
                &mut self.by_flags,
                self.followed,
                self.waiting.as_slice(),
            )?;
        } else {
            return Ok(());
        }
        self.followed = seen;
        self.waiting.clear();
        Ok(())
    }

    /// Gives the first sighting that no behaviour of the subsystem explains: those before it are explained, and with it they are not.
    /// None where the whole recording is explained.
    pub fn end(self) -> Result<Option<Unexplained>, WatchFault>
        ensures first { IfOk result (λ first. (P : Description) (h : List Event) (ms : List Marked) → Watches L.is_legal P h ms self → IsDecidedAt P h ms first) }
        ensures refused { IfErr result (λ fault. fault ≡ TooManyWays → (P : Description) (h : List Event) (ms : List Marked) → Watches L.is_legal P h ms self → HasManyWays (maybe_in ms)) }
    {
        let Watch {
            alloc,
            mut ways,
            mut by_flags,
            followed,
            waiting,
            first,
        } = self;
        if first.is_some() {
            return Ok(first);
        }
        choose_flags(&mut ways, &mut by_flags, None);
        follow(alloc, &mut ways, followed, waiting.as_slice(), None)
    }
}
