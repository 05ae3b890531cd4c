//! One reading of a recording in which gaps may have come: each of them came, or is left out.
ghost use Rattle.std.specs.Prelude.{◌≡◌, ◌≤◌, ◌↔◌, ◌++◌, IfErr, IfOk, IsTrue, List, OnOk};
ghost use Rattle.bus_word.specs.declared.word.Bus.{Bus as SeenBus};
ghost use Rattle.bus_legal.specs.Description.{Description};
ghost use Rattle.bus_legal.specs.Parts.{description_in};
ghost use Rattle.bus_legal.specs.Tables.{tables_say};
ghost use Rattle.terminal_rules.specs.declared.event.Event.{Event as SeenEvent};
ghost use Rattle.terminal_recordings.specs.Later.{shut_history};
ghost use Rattle.terminal_recordings.specs.MaybeGaps.{IsExplainedSomehow, gap_on};
ghost use Rattle.recorded_terminal.specs.declared.watch.Marked.{Marked};
ghost use Rattle.recorded_terminal.specs.declared.watch.WatchFault.TheVariants.{TooManyWays};
ghost use Rattle.recorded_terminal.specs.Follows.{shut_down};
ghost use Rattle.recorded_terminal.specs.Marks.{HasManyWays, IsMaybeGapOn, IsSeen, masked, maybe_in};
ghost use Rattle.recorded_terminal.specs.Watched.{Watches};
ghost use Rattle.script_recordings.specs.inner.Settled.{IsSettled, SettlesOne};

use bus_legal::Normal;
use bus_terminal::Event;
use bus_word::Bus;
use recorded_terminal::{Marked, Sighting, Watch, WatchFault, maybe_gap};
use std::alloc::Global;
use terminal_state::OnBuses;

/// Gives a watch what is seen next.
fn see_all(watch: &mut Watch<Normal>, recording: &[Marked]) -> Result<(), WatchFault>
    ensures sees { OnOk result ((P : Description) (h : List SeenEvent) (ms : List Marked) → Watches (λ normal. tables_say normal.tables) P h ms watch.old → Watches (λ normal. tables_say normal.tables) P h (ms ++ recording.now) watch.new) }
    ensures refused { IfErr result (λ fault. fault ≡ TooManyWays → (P : Description) (h : List SeenEvent) (ms : List Marked) → Watches (λ normal. tables_say normal.tables) P h ms watch.old → HasManyWays (maybe_in (ms ++ recording.now))) }
{
    'sightings: for marked in recording {
        watch.see(*marked)?;
    }
    Ok(())
}

/// Tells whether some behaviour of the subsystem explains these sightings and then the rest, after transmitters were shut down on these
/// buses.
fn is_explained(
    alloc: Global,
    normal: &Normal,
    shut: OnBuses,
    front: &[Marked],
    rest: &[Marked],
) -> Result<bool, WatchFault>
    ensures explained { IfOk result (λ truth. IsTrue truth ↔ IsExplainedSomehow (description_in normal.now) (shut_history (description_in normal.now) (shut_down shut)) (maybe_in (front.now ++ rest.now))) }
    ensures refused { IfErr result (λ fault. fault ≡ TooManyWays → HasManyWays (maybe_in (front.now ++ rest.now))) }
{
    let mut watch = Watch::shut(alloc, normal.setup(), *normal, shut)?;
    see_all(&mut watch, front)?;
    see_all(&mut watch, rest)?;
    let first = watch.end()?;
    Ok(first.is_none())
}

/// A gap that may have come on this bus, as one that came.
fn came(marked: &Marked, bus: Bus) -> Marked
    ensures { IsSeen result × (masked result ≡ gap_on bus) }
{
    Marked {
        sighting: Sighting {
            event: Event::Gap(bus),
            sent: None,
        },
        line: marked.line,
        command: marked.command,
        any_word: false,
        is_maybe: false,
    }
}

/// Settles whether a sighting comes, behind those that are settled: a gap that may have come does if nothing explains these and the rest
/// without it.
fn settle_one(
    alloc: Global,
    normal: &Normal,
    shut: OnBuses,
    settled: &mut Vec<Marked>,
    marked: &Marked,
    rest: &[Marked],
) -> Result<(), WatchFault>
    ensures settled { OnOk result (SettlesOne (description_in normal.now) (shut_history (description_in normal.now) (shut_down shut)) marked.now rest.now settled.old.items settled.new.items) }
    ensures refused { IfErr result (λ fault. fault ≡ TooManyWays → ((bus : SeenBus) × IsMaybeGapOn bus marked.now) × HasManyWays (maybe_in (settled.old.items ++ rest.now))) }
{
    match maybe_gap(marked) {
        None => settled.push(*marked)?,
        Some(bus) => {
            if !is_explained(alloc, normal, shut, settled.as_slice(), rest)? {
                settled.push(came(marked, bus))?;
            }
        }
    }
    Ok(())
}

/// Gives a reading of a recording that begins after transmitters were shut down on these buses: one that is explained, if any is. To settle
/// a gap that may have come takes as long as to watch the whole.
pub fn settle(
    alloc: Global,
    normal: &Normal,
    shut: OnBuses,
    recording: &[Marked],
) -> Result<Vec<Marked>, WatchFault>
    ensures settled { IfOk result (λ it. IsSettled (description_in normal.now) (shut_history (description_in normal.now) (shut_down shut)) recording.now it.items) }
    ensures refused { IfErr result (λ fault. fault ≡ TooManyWays → HasManyWays (maybe_in recording.now)) }
{
    let mut settled = Vec::new(alloc);
    for (number, marked) in recording.iter().enumerate() {
        let rest = &recording[number + 1..];
        settle_one(alloc, normal, shut, &mut settled, marked, rest)?;
    }
    Ok(settled)
}
