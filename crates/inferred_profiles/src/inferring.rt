//! A profile that explains a recording, by trials.
ghost use Rattle.std.specs.Prelude.{◌≡◌, ◌≤◌, IfErr, IfOk, IfSome, string_bytes};
ghost use Rattle.recorded_terminal.specs.Marks.{maybe_in, HasManyWays};
ghost use Rattle.recorded_terminal.specs.declared.watch.WatchFault.TheVariants.{TooManyWays};
ghost use Rattle.inferred_profiles.specs.Proposed.{IsProposal};

use crate::asked::{Asked, asked_in};
use crate::assumed::Assumed;
use crate::checking::is_proposal;
use crate::evidence::Evidence;
use crate::following::{GuessOutcome, outcome_of};
use crate::guess::Guess;
use crate::proposal::{Proposal, Unseen};
use recorded_terminal::{Marked, Sighting, WatchFault, maybe_gap, sightings_of};
use std::alloc::{AllocError, Global};

/// How many assumptions there are.
const ASSUMPTIONS: u8 = 32;

/// More than there are cells, each of which is turned once at most, and fronts.
const MOST_TURNS: u16 = 4096;

/// How many sightings the first of the fronts has that are followed.
const FIRST_FRONT: usize = 4096;

/// The first of these sightings, so many, or all where there are fewer.
fn front_of(sightings: &[Sighting], count: usize) -> &[Sighting] {
    &sightings[..count.min(sightings.len())]
}

/// What a recording shows under these assumptions, if a terminal of some guess follows it. Where a status word is against the guess, the cell
/// that it reports is turned, and the same front of the recording is followed again; then one that is twice as long is.
fn evidence_by(
    alloc: Global,
    address: u8,
    assumed: Assumed,
    asked: &Asked,
    sightings: &[Sighting],
    recording: &[Marked],
) -> Result<Option<Evidence>, AllocError>
    requires { address ≤ 30 }
{
    let mut guess = Guess::first(assumed, asked.accepted.is_some());
    let mut front = FIRST_FRONT;
    'turns: for _ in 0..MOST_TURNS {
        let seen = front_of(sightings, front);
        match outcome_of(alloc, address, &guess, seen, recording)? {
            GuessOutcome::Follows(evidence) => if seen.len() == sightings.len() {
                return Ok(Some(evidence));
            } else {
                front = front.saturating_mul(2);
            },
            GuessOutcome::Wrong(cell) => if !guess.turn(cell) {
                return Ok(None);
            },
            GuessOutcome::Differs => return Ok(None),
        }
    }
    Ok(None)
}

/// The assumptions of a trial: what is unseen is first assumed as it is proposed.
fn assumed_in(unseen: Unseen, trial: u8) -> Assumed {
    match unseen {
        Unseen::Illegal => Assumed::of(trial),
        Unseen::Legal => Assumed::of(!trial & 31),
    }
}

/// The text that is proposed under these assumptions, if a terminal of some guess follows the recording.
fn text_by(
    alloc: Global,
    address: u8,
    unseen: Unseen,
    assumed: Assumed,
    asked: &Asked,
    sightings: &[Sighting],
    recording: &[Marked],
) -> Result<Option<String>, AllocError>
    requires { address ≤ 30 }
{
    match evidence_by(alloc, address, assumed, asked, sightings, recording)? {
        Some(evidence) => {
            let proposal = Proposal {
                address,
                unseen,
                assumed,
                asked: *asked,
                evidence,
            };
            Ok(Some(proposal.text(alloc)?))
        }
        None => Ok(None),
    }
}

/// What came for certain.
fn certain_in(alloc: Global, recording: &[Marked]) -> Result<Vec<Marked>, AllocError> {
    let mut certain = Vec::new(alloc);
    for marked in recording {
        if maybe_gap(marked).is_none() {
            certain.push(*marked)?;
        }
    }
    Ok(certain)
}

/// Proposes a profile for the terminal of this address, from a recording of it that begins at power-up: a text in TOML that explains the
/// recording, with comments that say what shows each entry. None where none of at most 18 trials finds one; they leave out gaps that may
/// have come. Too many ways come only of such gaps, and leave room for them.
pub fn infer(
    alloc: Global,
    address: u8,
    unseen: Unseen,
    recording: &[Marked],
) -> Result<Option<String>, WatchFault>
    ensures found { IfOk result (λ found. IfSome found (λ text. IsProposal address (maybe_in recording.now) (string_bytes text))) }
    ensures refused { IfErr result (λ fault. fault ≡ TooManyWays → HasManyWays (maybe_in recording.now)) }
{
    if 30 < address {
        return Ok(None);
    }
    let certain = certain_in(alloc, recording)?;
    let sightings = sightings_of(alloc, certain.as_slice())?;
    let asked = asked_in(address, certain.as_slice());
    'trials: for trial in 0..ASSUMPTIONS {
        let assumed = assumed_in(unseen, trial);
        if assumed.is_tried(&asked) {
            if let Some(text) = text_by(
                alloc,
                address,
                unseen,
                assumed,
                &asked,
                sightings.as_slice(),
                certain.as_slice(),
            )? {
                if is_proposal(alloc, address, recording, text.as_str())? {
                    return Ok(Some(text));
                }
            }
        }
    }
    Ok(None)
}
