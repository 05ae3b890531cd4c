//! Whether a profile text may be proposed: whether it explains the recording.
ghost use Rattle.std.specs.Prelude.{◌≡◌, ◌↔◌, IfErr, IfOk, IsTrue};
ghost use Rattle.bus_legal.specs.Parts.{description_in, IsNormal};
ghost use Rattle.terminal_recordings.specs.Recordings.{IsExplained};
ghost use Rattle.terminal_recordings.specs.MaybeGaps.{ExplainsReading};
ghost use Rattle.recorded_terminal.specs.Marks.{maybe_in, HasManyWays};
ghost use Rattle.recorded_terminal.specs.declared.watch.WatchFault.TheVariants.{TooManyWays};
ghost use Rattle.rt1553.specs.Load.{is_canon_text};
ghost use Rattle.inferred_profiles.specs.Proposed.{IsProposal};

use recorded_terminal::{Marked, Watch, WatchFault};
use rt1553::{LoadFault, Normal, load};
use std::alloc::Global;

/// Tells whether some behaviour of the subsystem makes this terminal send what was seen.
fn is_explained(alloc: Global, normal: &Normal, recording: &[Marked]) -> Result<bool, WatchFault>
    ensures explained { IfOk result (λ truth. IsTrue truth ↔ ExplainsReading (IsExplained (description_in normal.now)) (maybe_in recording.now)) }
    ensures refused { IfErr result (λ fault. fault ≡ TooManyWays → HasManyWays (maybe_in recording.now)) }
    ensures normal { IsNormal normal.now }
{
    let mut watch = Watch::power_up(alloc, normal.setup(), *normal)?;
    'sightings: for marked in recording {
        watch.see(*marked)?;
    }
    let first = watch.end()?;
    Ok(first.is_none())
}

/// Tells whether a text begins as a canonical text of either version.
fn is_canon_text(text: &[u8]) -> bool
    ensures { result ≡ is_canon_text text.now }
{
    text.starts_with(b"rt1553 1\n") || text.starts_with(b"rt1553 2\n")
}

/// Tells whether this is a profile text for the terminal of this address, and explains the recording.
pub fn is_proposal(
    alloc: Global,
    address: u8,
    recording: &[Marked],
    text: &str,
) -> Result<bool, WatchFault>
    ensures proposed { IfOk result (λ truth. IsTrue truth ↔ IsProposal address (maybe_in recording.now) text.now) }
    ensures refused { IfErr result (λ fault. fault ≡ TooManyWays → HasManyWays (maybe_in recording.now)) }
{
    let bytes = text.as_bytes();
    if is_canon_text(bytes) {
        return Ok(false);
    }
    match load(alloc, bytes) {
        Ok(normal) => if normal.address() == address {
            is_explained(alloc, &normal, recording)
        } else {
            Ok(false)
        },
        Err(LoadFault::Memory) => Err(WatchFault::Memory),
        Err(LoadFault::Profile(_)) => Ok(false),
        Err(LoadFault::Canon(_)) => Ok(false),
    }
}
