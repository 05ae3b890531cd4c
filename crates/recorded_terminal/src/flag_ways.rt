//! The ways that a recording can have gone, for all flags that the next status word can show.
ghost use Rattle.std.specs.Prelude.{◌≡◌, ◌+◌, ◌<◌, ◌≤◌, ◌^◌, ◌++◌, ◌↔◌, ℕ, List, [], Option, None, length, IfOk, IfErr, IsTrue, OnOk};
ghost use Rattle.bus_legal.specs.Description.{Description};
ghost use Rattle.terminal_rules.specs.declared.event.Event.{Event};
ghost use Rattle.terminal_recordings.specs.Completion.{next_status};
ghost use Rattle.recorded_terminal.specs.declared.watch.Marked.{Marked};
ghost use Rattle.recorded_terminal.specs.declared.watch.WatchFault.TheVariants.{TooManyWays};
ghost use Rattle.recorded_terminal.specs.Follows.{ShowTheSame};
ghost use Rattle.recorded_terminal.specs.Marks.{maybe_in, seen_in, HasManyWays};
ghost use Rattle.recorded_terminal.specs.Watched.{LeadOn, LeadOnByFlags, LeadOnBy};
ghost use Rattle.recorded_terminal.specs.inner.Steps.{AreCopies};
ghost use Rattle.recorded_terminal.specs.inner.Followed.{FollowedByFlags};

use crate::told::shows;
use crate::watch::{Marked, Unexplained, WatchFault, follow};
use crate::way::Way;
use bus_legal::Legality;
use bus_terminal::Flag;
use std::alloc::{AllocError, Global};

/// A status word for each choice of the flags that it shows (MIL-STD-1553B, 4.3.3.5.3): service request, busy, subsystem and terminal flag.
const STATUS_WORDS: [u16; 16] = [
    0x000, 0x001, 0x004, 0x005, 0x008, 0x009, 0x00c, 0x00d, 0x100, 0x101, 0x104, 0x105, 0x108,
    0x109, 0x10c, 0x10d,
];

/// Ways that are followed as if the next status word showed the flags of this one.
#[derive(Drop)]
pub struct FlagWays<L> {
    pub status: u16,
    pub ways: Vec<Way<L>>,
}

/// Whether two status words show the same flags, where none shows none.
fn show_the_same(one: Option<u16>, other: Option<u16>) -> bool
    ensures { IsTrue result ↔ ShowTheSame one other }
{
    shows(one, Flag::Service) == shows(other, Flag::Service)
        && shows(one, Flag::Busy) == shows(other, Flag::Busy)
        && shows(one, Flag::Subsystem) == shows(other, Flag::Subsystem)
        && shows(one, Flag::Terminal) == shows(other, Flag::Terminal)
}

/// Copies of ways.
fn copies_of<L: Legality + Copy + Drop>(
    alloc: Global,
    ways: &[Way<L>],
) -> Result<Vec<Way<L>>, AllocError>
    ensures { IfOk result (λ copies. AreCopies L.is_legal ways.now copies.items) }
{
    let mut copies = Vec::new(alloc);
    for way in ways {
        copies.push(way.copy())?;
    }
    Ok(copies)
}

/// Parts ways by the flags that the next status word can show, where they are not parted yet.
pub fn part_by_flags<L: Legality + Copy + Drop>(
    alloc: Global,
    ways: &[Way<L>],
    by_flags: &mut Vec<FlagWays<L>>,
) -> Result<(), AllocError>
    ensures { OnOk result ((P : Description) (h : List Event) (ms : List Marked) → LeadOnBy L.is_legal P h ms ways.now by_flags.old.items → LeadOnByFlags L.is_legal P h ms by_flags.new.items) }
{
    if !by_flags.is_empty() {
        return Ok(());
    }
    for status in STATUS_WORDS {
        by_flags.push(FlagWays {
            status,
            ways: copies_of(alloc, ways)?,
        })?;
    }
    Ok(())
}

/// Leaves the ways for this status word, the next.
pub fn choose_flags<L: Legality + Drop>(
    ways: &mut Vec<Way<L>>,
    by_flags: &mut Vec<FlagWays<L>>,
    status: Option<u16>,
)
    ensures leads { (P : Description) (h : List Event) (ms : List Marked) → LeadOnBy L.is_legal P h ms ways.old.items by_flags.old.items → LeadOn L.is_legal P h ms status ways.new.items }
    ensures emptied { by_flags.new.items ≡ [] }
{
    while let Some(others) = by_flags.pop() {
        if show_the_same(status, Some(others.status)) {
            *ways = others.ways;
        }
    }
}

/// Follows sightings on the ways for all flags, before which so many were followed, and in which no status word is seen. Gives the first that
/// nothing explains, whatever the next status word shows.
pub fn follow_by_flags<L: Legality + Copy + Drop>(
    alloc: Global,
    by_flags: &mut Vec<FlagWays<L>>,
    followed: u64,
    waiting: &[Marked],
) -> Result<Option<Unexplained>, WatchFault>
    ensures found { IfOk result (λ found. (P : Description) (h : List Event) (ms : List Marked) → P.address ≤ 30 → LeadOnByFlags L.is_legal P h ms by_flags.old.items → followed ≡ length ms → followed + length waiting.now < 2 ^ 64 → next_status (seen_in waiting.now) ≡ None → FollowedByFlags L.is_legal P h (ms ++ waiting.now) by_flags.new.items found) }
    ensures refused { IfErr result (λ fault. fault ≡ TooManyWays → (P : Description) (h : List Event) (ms : List Marked) → P.address ≤ 30 → LeadOnByFlags L.is_legal P h ms by_flags.old.items → HasManyWays (maybe_in (ms ++ waiting.now))) }
{
    for others in by_flags.iter_mut() {
        let status = Some(others.status);
        if let Some(found) = follow(alloc, &mut others.ways, followed, waiting, status)? {
            return Ok(Some(found));
        }
    }
    Ok(None)
}
