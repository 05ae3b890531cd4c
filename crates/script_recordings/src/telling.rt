//! What a subsystem did, as a script.
ghost use Rattle.std.specs.Prelude.{◌≡◌, ◌≤◌, ◌↔◌, ◌++◌, IfOk, IfErr, IfSome, MatchOption, None, OnOk, List, drop, length};
ghost use Rattle.bus_legal.specs.Description.{Description};
ghost use Rattle.bus_legal.specs.Parts.{description_in, IsNormal};
ghost use Rattle.bus_legal.specs.Reach.{reach};
ghost use Rattle.terminal_rules.specs.declared.event.Event.{Event as ScriptEvent};
ghost use Rattle.recorded_terminal.specs.Behaviour.{IsBehaviourAfter};
ghost use Rattle.recorded_terminal.specs.Follows.{shut_down};
ghost use Rattle.recorded_terminal.specs.Judged.{IsJudgedBy};
ghost use Rattle.recorded_terminal.specs.Marks.{HasManyWays, maybe_in, seen_in};
ghost use Rattle.recorded_terminal.specs.declared.watch.WatchFault.TheVariants.{TooManyWays};
ghost use Rattle.script_lines.specs.EventLine.{event_line, script_text};
ghost use Rattle.script_recordings.specs.Seen.{GivesNoWitness, StatesNoRecording};
ghost use Rattle.script_recordings.specs.Explained.{HasNoPart, IsLaterWitness, PlaysCertain, IsWitness};
ghost use Rattle.script_recordings.specs.inner.Plays.{AnswerAlike, PlaysSeen};

use crate::reading::{RecordingFault, read_recording};
use crate::settling::settle;
use bus_legal::Normal;
use bus_terminal::Event;
use recorded_terminal::{
    FreshPart, LaterWatch, Marked, WatchFault, behaviour, behaviour_after, sightings_of,
};
use script_lines::write_event;
use std::alloc::{AllocError, Global};
use std::io::BufRead;
use terminal_state::OnBuses;

/// At power-up no transmitter is shut down.
const NONE_SHUT: OnBuses = OnBuses { a: false, b: false };

/// Pushes the line of an event.
fn push_line(text: &mut Vec<u8>, event: &Event) -> Result<(), AllocError>
    ensures { OnOk result (text.new.items ≡ text.old.items ++ event_line event.now) }
{
    text.extend_from_slice(write_event(event).as_str().as_bytes())?;
    text.push(b'\n')?;
    Ok(())
}

/// Gives events as a script.
fn script_of(alloc: Global, events: &[Event]) -> Result<Vec<u8>, AllocError>
    ensures { IfOk result (λ text. text.items ≡ script_text events.now) }
{
    let mut text = Vec::new(alloc);
    for event in events {
        push_line(&mut text, event)?;
    }
    Ok(text)
}

/// Gives the events of a recording, and before them what the subsystem did, as the recording tells it. Gaps that may have come are left out.
fn events_of(alloc: Global, normal: &Normal, recording: &[Marked]) -> Result<Vec<Event>, AllocError>
    ensures plays { IfOk result (λ events. (P : Description) → description_in normal.now ≡ reach P → PlaysSeen P recording.now events.items) }
    ensures alike { IfOk result (λ _. (P : Description) → description_in normal.now ≡ reach P → AnswerAlike (description_in normal.now) P) }
{
    let sightings = sightings_of(alloc, recording)?;
    behaviour(alloc, normal.setup(), *normal, sightings.as_slice())
}

/// Gives the events of a script that states a recording, and before them what the subsystem did, as the recording tells it: from power-up
/// on they make the terminal send what is stated, if any behaviour of the subsystem does. Gaps that may have come are left out.
pub fn recorded_events<B: BufRead + Drop>(
    alloc: Global,
    normal: &Normal,
    input: B,
) -> Result<Vec<Event>, RecordingFault>
    ensures plays { IfOk result (λ events. IfSome (B.remaining input) (λ script. (P : Description) → description_in normal.now ≡ reach P → PlaysCertain P script events.items)) }
    ensures refused { IfErr result (λ fault. IfSome (B.remaining input) (λ script. StatesNoRecording script fault)) }
{
    let recording = read_recording(alloc, normal.address(), input)?;
    Ok(events_of(alloc, normal, recording.as_slice())?)
}

/// Gives the events of a script that states a recording, and before them what the subsystem did, as a script. Of gaps that may have come
/// those come without which nothing explains the rest.
pub fn witness<B: BufRead + Drop>(
    alloc: Global,
    normal: &Normal,
    input: B,
) -> Result<Vec<u8>, RecordingFault>
    ensures plays { IfOk result (λ text. IfSome (B.remaining input) (λ script. (events : List ScriptEvent) × (text.items ≡ script_text events) × ((P : Description) → description_in normal.now ≡ reach P → IsWitness P script events))) }
    ensures refused { IfErr result (λ fault. IfSome (B.remaining input) (λ script. GivesNoWitness script fault)) }
{
    let recording = read_recording(alloc, normal.address(), input)?;
    let settled = settle(alloc, normal, NONE_SHUT, recording.as_slice())?;
    let events = events_of(alloc, normal, settled.as_slice())?;
    Ok(script_of(alloc, events.as_slice())?)
}

/// Seeks the part of a recording that began at any time which begins afresh after a pause.
fn fresh_part_of(
    alloc: Global,
    normal: &Normal,
    recording: &[Marked],
) -> Result<Option<FreshPart>, WatchFault>
    ensures judged { IfOk result (IsJudgedBy (description_in normal.now) recording.now) }
    ensures refused { IfErr result (λ fault. fault ≡ TooManyWays → HasManyWays (maybe_in recording.now)) }
{
    let mut watch = LaterWatch::new(alloc, normal.setup(), *normal)?;
    'sightings: for marked in recording {
        watch.see(*marked)?;
    }
    watch.end()
}

/// What comes behind so many sightings.
fn behind(recording: &[Marked], before: u64) -> &[Marked]
    requires { before ≤ length recording.now }
    ensures { result.now ≡ drop before recording.now }
{
    &recording[before as usize..]
}

/// Gives the events of such a part, behind those that shut transmitters down.
fn part_events(
    alloc: Global,
    normal: &Normal,
    part: &[Marked],
    shut: OnBuses,
) -> Result<Vec<Event>, AllocError>
    ensures events { IfOk result (λ events. IsBehaviourAfter (description_in normal.now) (shut_down shut) (seen_in part.now) events.items) }
    ensures normal { IsNormal normal.now }
{
    let setup = normal.setup();
    let sightings = sightings_of(alloc, part)?;
    behaviour_after(alloc, setup, *normal, shut, sightings.as_slice())
}

/// Gives the same of a recording that began at any time: what was shut down before its part that begins afresh after a pause, and that
/// part. None where there is no such part.
pub fn witness_since<B: BufRead + Drop>(
    alloc: Global,
    normal: &Normal,
    input: B,
) -> Result<Option<Vec<u8>>, RecordingFault>
    ensures plays { IfOk result (λ it. IfSome (B.remaining input) (λ script. MatchOption it (HasNoPart (description_in normal.now) script) (λ text. (events : List ScriptEvent) × (text.items ≡ script_text events) × IsLaterWitness (description_in normal.now) script events))) }
    ensures refused { IfErr result (λ fault. IfSome (B.remaining input) (λ script. GivesNoWitness script fault)) }
{
    let recording = read_recording(alloc, normal.address(), input)?;
    let Some(part) = fresh_part_of(alloc, normal, recording.as_slice())? else {
        return Ok(None);
    };
    let behind = behind(recording.as_slice(), part.before);
    let settled = settle(alloc, normal, part.shut, behind)?;
    let events = part_events(alloc, normal, settled.as_slice(), part.shut)?;
    Ok(Some(script_of(alloc, events.as_slice())?))
}
