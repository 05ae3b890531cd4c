//! All ways that a recording can have gone so far. Where a gap may have come or not, and that makes a difference, one way becomes two.
ghost use Rattle.std.specs.Prelude.{◌≡◌, ◌≤◌, ◌<◌, ◌*◌, ℕ, List, Option, Some, None, true, length, IfOk, IfErr, OnOk};
ghost use Rattle.std.specs.List.{AllByRecursion};
ghost use Rattle.bus_word.specs.declared.word.Bus.{Bus};
ghost use Rattle.bus_legal.specs.Description.{Description};
ghost use Rattle.terminal_rules.specs.declared.event.Event.{Event};
ghost use Rattle.recorded_terminal.specs.SentWords.{word_shown};
ghost use Rattle.recorded_terminal.specs.declared.watch.Marked.{Marked};
ghost use Rattle.recorded_terminal.specs.declared.watch.WatchFault.TheVariants.{Memory, TooManyWays};
ghost use Rattle.recorded_terminal.specs.Marks.{most_ways, IsMaybeGapOn, IsSeen};
ghost use Rattle.recorded_terminal.specs.Ways.{AnyOf, AreWays, EachSees, WaysHaveMet};
ghost use Rattle.recorded_terminal.specs.inner.Steps.{Keeps, LeftOf, SentFirst, Splits, SeesNext};

use crate::watch::{Marked, WatchFault};
use crate::way::Way;
use bus_legal::Legality;
use bus_terminal::{Event, Sent};
use bus_word::Bus;
use std::alloc::{AllocError, Global};

/// More ways than these are not followed.
pub const MOST_WAYS: usize = 64;

/// What a terminal sends in a sighting, or nothing, where it can't be what was seen.
#[derive(Clone, Copy)]
pub struct Instead {
    pub sent: Option<Sent>,
}

/// The bus of a gap that may have come or not.
pub fn maybe_gap(marked: &Marked) -> Option<Bus>
    ensures some { (bus : Bus) → result ≡ Some bus → IsMaybeGapOn bus marked.now }
    ensures none { result ≡ None → IsSeen marked.now }
{
    match marked.sighting.event {
        Event::Gap(bus) if marked.is_maybe => Some(bus),
        _ => None,
    }
}

/// Takes a sighting on each way.
fn see_each<L: Legality>(ways: &mut Vec<Way<L>>, marked: &Marked, status: Option<u16>)
    ensures { EachSees L.is_legal status marked.now ways.old.items ways.new.items }
{
    for way in ways.iter_mut() {
        way.see(marked, status);
    }
}

/// Whether on each way just what was seen was sent.
fn are_left<L: Legality>(ways: &[Way<L>]) -> bool
    ensures { result ≡ true → AllByRecursion (λ w. w.is_left ≡ true) ways.now }
{
    for way in ways {
        if !way.is_left {
            return false;
        }
    }
    true
}

/// What was sent on the first way.
fn sent_first<L: Legality>(ways: &[Way<L>]) -> Option<Sent>
    ensures { SentFirst ways.now result }
{
    match ways {
        [way, ..] => way.sent,
        [] => None,
    }
}

/// Copies of those ways on which just what was seen was sent.
fn left_of<L: Legality + Copy + Drop>(
    alloc: Global,
    ways: &[Way<L>],
) -> Result<Vec<Way<L>>, AllocError>
    ensures { IfOk result (λ left. LeftOf L.is_legal ways.now left.items) }
{
    let mut left = Vec::new(alloc);
    for way in ways {
        if way.is_left {
            left.push(way.copy())?;
        }
    }
    Ok(left)
}

/// Whether one of these ways has met another.
fn have_met<L: Legality>(ways: &[Way<L>], other: &Way<L>) -> bool
    ensures { result ≡ true → AnyOf (λ w. WaysHaveMet L.is_legal other.now w) ways.now }
{
    for way in ways {
        if other.has_met(way) {
            return true;
        }
    }
    false
}

/// Pushes a way, unless it has met one that is there.
fn push_unless_met<L: Legality + Drop>(
    ways: &mut Vec<Way<L>>,
    way: Way<L>,
) -> Result<(), WatchFault>
    ensures keeps { OnOk result (Keeps L.is_legal ways.old.items way ways.new.items) }
    ensures refused { IfErr result (λ fault. fault ≡ TooManyWays → most_ways ≤ length ways.old.items) }
{
    if have_met(ways.as_slice(), &way) {
        return Ok(());
    }
    if ways.len() >= MOST_WAYS {
        return Err(WatchFault::TooManyWays);
    }
    ways.push(way)?;
    Ok(())
}

/// Whether on each way a gap on this bus would be a second one that ends no message.
fn all_pass<L: Legality>(ways: &[Way<L>], bus: Bus) -> bool
    ensures { result ≡ true → (status : Option ℕ) → Splits L.is_legal bus status ways.now ways.now }
{
    for way in ways {
        if !way.passes_gap(bus) {
            return false;
        }
    }
    true
}

/// The ways without and with a gap on this bus, one of those that have met.
fn split<L: Legality + Copy + Drop>(
    alloc: Global,
    ways: &[Way<L>],
    bus: Bus,
    status: Option<u16>,
) -> Result<Vec<Way<L>>, WatchFault>
    ensures splits { IfOk result (λ all. Splits L.is_legal bus status ways.now all.items) }
    ensures refused { IfErr result (λ fault. fault ≡ TooManyWays → most_ways < 2 * length ways.now) }
{
    let mut all = Vec::new(alloc);
    for way in ways {
        if !way.passes_gap(bus) {
            push_unless_met(&mut all, way.with_gap(bus, status))?;
        }
        push_unless_met(&mut all, way.copy())?;
    }
    Ok(all)
}

/// Takes what came for certain on each way, and keeps those on which just that is sent. Where there is none, gives what is sent instead.
fn see_certain<L: Legality + Copy + Drop>(
    alloc: Global,
    ways: &mut Vec<Way<L>>,
    marked: &Marked,
    status: Option<u16>,
) -> Result<Option<Instead>, AllocError>
    ensures { IfOk result (λ instead. (P : Description) (h : List Event) (ms : List Marked) → P.address ≤ 30 → IsSeen marked.now → AreWays L.is_legal P h ms ways.old.items → SeesNext L.is_legal P h ms marked.now status ways.old.items ways.new.items instead) }
{
    see_each(ways, marked, status);
    if are_left(ways.as_slice()) {
        return Ok(None);
    }
    let instead = Instead {
        sent: sent_first(ways.as_slice()),
    };
    *ways = left_of(alloc, ways.as_slice())?;
    if ways.as_slice().is_empty() {
        return Ok(Some(instead));
    }
    Ok(None)
}

/// Takes what is seen on each way, and keeps those on which it can be. Where there is none, gives what is sent instead.
pub fn see<L: Legality + Copy + Drop>(
    alloc: Global,
    ways: &mut Vec<Way<L>>,
    marked: &Marked,
    status: Option<u16>,
) -> Result<Option<Instead>, WatchFault>
    ensures sees { IfOk result (λ instead. (P : Description) (h : List Event) (ms : List Marked) → P.address ≤ 30 → AreWays L.is_legal P h ms ways.old.items → SeesNext L.is_legal P h ms marked.now status ways.old.items ways.new.items instead) }
    ensures refused { IfErr result (λ fault. fault ≡ TooManyWays → ((bus : Bus) × IsMaybeGapOn bus marked.now) × (most_ways < 2 * length ways.old.items)) }
{
    match maybe_gap(marked) {
        Some(bus) => {
            if !all_pass(ways.as_slice(), bus) {
                *ways = split(alloc, ways.as_slice(), bus, status)?;
            }
            Ok(None)
        }
        None => Ok(see_certain(alloc, ways, marked, status)?),
    }
}
