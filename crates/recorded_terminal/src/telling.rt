//! What the subsystem did, as a recording tells it.
ghost use Rattle.std.specs.Prelude.{◌≡◌, ◌≤◌, ◌++◌, ◌∷◌, [], IfOk, OnOk};
ghost use Rattle.bus_legal.specs.Description.{Description, described};
ghost use Rattle.terminal_rules.specs.Same.{AreProper};
ghost use Rattle.terminal_recordings.specs.Recordings.{sightings};
ghost use Rattle.terminal_recordings.specs.Completion.{next_status, shown_of};
ghost use Rattle.terminal_recordings.specs.Later.{if_shut, shutting};
ghost use Rattle.bus_word.specs.declared.word.Kind.TheVariants.{Com};
ghost use Rattle.bus_word.specs.Word.{valid_word};
ghost use Rattle.terminal_rules.specs.declared.event.Event.TheVariants.{Word as WordEvent, Gap as GapEvent, Slot as SlotEvent};
ghost use Rattle.recorded_terminal.specs.Behaviour.{IsBehaviourAfter};
ghost use Rattle.recorded_terminal.specs.Follows.{given_events, shut_down, told_events};
ghost use Rattle.recorded_terminal.specs.Sightings.{recorded, shown_sighting};
ghost use Rattle.std.specs.Option.{option_map, option_to_list};
ghost use Rattle.recorded_terminal.specs.Marks.{seen_in};

use crate::follower::{Follower, Told, shutdown_command};
use crate::sighting::Sighting;
use crate::told::shown_status;
use crate::watch::Marked;
use crate::ways::maybe_gap;
use bus_legal::{Legality, Setup};
use bus_terminal::Event;
use bus_word::{Bus, Kind, Raw};
use std::alloc::{AllocError, Global};
use terminal_state::OnBuses;

/// The next status word that is seen in these sightings.
fn next_status(later: &[Sighting]) -> Option<u16>
    ensures { result ≡ next_status (recorded later.now) }
{
    for sighting in later {
        let status = shown_status(sighting.sent);
        if status.is_some() {
            return status;
        }
    }
    None
}

/// Gives the next status word that is seen behind a sighting, where `status` is the next with it: no sighting is looked through twice.
fn status_behind(status: Option<u16>, sighting: &Sighting, later: &[Sighting]) -> Option<u16>
    requires { status ≡ next_status (recorded (sighting.now ∷ later.now)) }
    ensures { result ≡ next_status (recorded later.now) }
{
    if shown_status(sighting.sent).is_some() {
        next_status(later)
    } else {
        status
    }
}

/// Pushes an event, if there is one.
fn push_if(events: &mut Vec<Event>, event: Option<Event>) -> Result<(), AllocError>
    ensures { OnOk result (events.new.items ≡ events.old.items ++ given_events event) }
{
    if let Some(event) = event {
        events.push(event)?;
    }
    Ok(())
}

/// Pushes what is told of the subsystem.
fn push_told(events: &mut Vec<Event>, told: Told) -> Result<(), AllocError>
    ensures { OnOk result (events.new.items ≡ events.old.items ++ told_events told) }
{
    push_if(events, told.service)?;
    push_if(events, told.busy)?;
    push_if(events, told.subsystem)?;
    push_if(events, told.terminal)?;
    push_if(events, told.word)
}

/// What was seen, or nothing for a gap that may have come.
fn certain(marked: &Marked) -> Option<Sighting>
    ensures { option_to_list (option_map shown_sighting result) ≡ seen_in (marked.now ∷ []) }
{
    match maybe_gap(marked) {
        Some(_) => None,
        None => Some(marked.sighting),
    }
}

/// Gives the sightings of a recording, without their places and without gaps that may have come.
pub fn sightings_of(alloc: Global, recording: &[Marked]) -> Result<Vec<Sighting>, AllocError>
    ensures { IfOk result (λ sightings. recorded sightings.items ≡ seen_in recording.now) }
{
    let mut sightings = Vec::new(alloc);
    'marked: for marked in recording {
        if let Some(sighting) = certain(marked) {
            sightings.push(sighting)?;
        }
    }
    Ok(sightings)
}

/// Pushes a command on a bus, a gap, and a slot for the status, or nothing.
fn push_exchange_if(
    events: &mut Vec<Event>,
    takes: bool,
    bus: Bus,
    command: u16,
) -> Result<(), AllocError>
    ensures { OnOk result (events.new.items ≡ events.old.items ++ if_shut takes (WordEvent bus (valid_word Com command) ∷ GapEvent bus ∷ SlotEvent ∷ [])) }
{
    if takes {
        events.push(Event::Word(bus, Raw::of(Kind::Com, command)))?;
        events.push(Event::Gap(bus))?;
        events.push(Event::Slot)?;
    }
    Ok(())
}

/// Gives the events that shut the transmitters on these buses down.
fn shutting_events(alloc: Global, address: u8, shut: OnBuses) -> Result<Vec<Event>, AllocError>
    requires { address ≤ 30 }
    ensures { IfOk result (λ events. (P : Description) → P.address ≡ address → events.items ≡ shutting P (shut_down shut)) }
{
    let command = shutdown_command(address);
    let mut events = Vec::new(alloc);
    push_exchange_if(&mut events, shut.a, Bus::B, command)?;
    push_exchange_if(&mut events, shut.b, Bus::A, command)?;
    Ok(events)
}

/// Gives the events that are seen in a recording, from power-up, and between them what the subsystem did, as the recording tells it. What is
/// seen of them is the recording, if anything explains it.
pub fn behaviour<L: Legality + Drop>(
    alloc: Global,
    setup: Setup,
    legality: L,
    recording: &[Sighting],
) -> Result<Vec<Event>, AllocError>
    ensures proper { IfOk result (λ events. AreProper events.items) }
    ensures shown { IfOk result (λ events. sightings (described setup (L.is_legal legality)) events.items ≡ shown_of (described setup (L.is_legal legality)) (recorded recording.now)) }
{
    behaviour_after(alloc, setup, legality, OnBuses::NONE, recording)
}

/// Gives the same of a recording that begins after the transmitters on these buses were shut down, behind the events that shut them.
pub fn behaviour_after<L: Legality + Drop>(
    alloc: Global,
    setup: Setup,
    legality: L,
    shut: OnBuses,
    recording: &[Sighting],
) -> Result<Vec<Event>, AllocError>
    ensures { IfOk result (λ events. IsBehaviourAfter (described setup (L.is_legal legality)) (shut_down shut) (recorded recording.now) events.items) }
{
    let mut events = shutting_events(alloc, setup.address, shut)?;
    let mut follower = Follower::shut(setup, legality, shut);
    let mut status = next_status(recording);
    for (number, sighting) in recording.iter().enumerate() {
        let followed = follower.see(*sighting, status);
        push_told(&mut events, followed.told)?;
        events.push(sighting.event)?;
        status = status_behind(status, sighting, &recording[number + 1..]);
    }
    Ok(events)
}
