//! What is written of a step of the bus.
ghost use Rattle.std.specs.Prelude.{◌≡◌, ◌++◌, List, Some, OnOk, slice_get};
ghost use Rattle.std.specs.List.{flat_map};
ghost use Rattle.std.specs.Option.{option_to_list};
ghost use Rattle.bus_terminal.specs.Answer.{shown_answer, IsSmall};
ghost use Rattle.script_lines.specs.EventLine.{script_text};
ghost use Rattle.terminal_bus.specs.declared.event.BusEvent.{BusEvent};
ghost use Rattle.terminal_bus.specs.Came.{events_that_came};
ghost use Rattle.terminal_bus.specs.Members.{Member, bus_after};
ghost use Rattle.terminal_bus.specs.AtMembers.{BusStandsAt, AnswersAt, collisions};
ghost use Rattle.script_terminals.specs.BusTexts.{line_in_front, addressed_text, member_text, collision_text, collisions_text, step_text};

use bus_legal::Legality;
use bus_terminal::Event;
use bus_word::Bus;
use script_lines::{write_answer, write_event};
use std::alloc::AllocError;
use terminal_bus::{AddressedAnswer, CameTo, TerminalBus};
use terminal_state::OnBuses;

/// Writes a line with an address in front, if there is one.
fn push_in_front(text: &mut Vec<u8>, address: u8, line: &[u8]) -> Result<(), AllocError>
    ensures { OnOk result (text.new.items ≡ text.old.items ++ line_in_front address line.now) }
{
    if line.is_empty() {
        return Ok(());
    }
    text.extend_from_slice(&[b'0' + address / 10, b'0' + address % 10, b' '])?;
    text.extend_from_slice(line)
}

/// Writes the line of what a terminal sent or handed over.
fn push_addressed(text: &mut Vec<u8>, it: &AddressedAnswer<'_>) -> Result<(), AllocError>
    requires { IsSmall (shown_answer it.now.answer) }
    ensures { OnOk result (text.new.items ≡ text.old.items ++ addressed_text it.now.address (shown_answer it.now.answer)) }
{
    let line = write_answer(&it.answer);
    push_in_front(text, it.address, line.as_str().as_bytes())
}

/// Writes what the terminal at a place did in the latest step.
fn push_at<L: Legality>(
    text: &mut Vec<u8>,
    bus: &TerminalBus<L>,
    place: usize,
) -> Result<(), AllocError>
    ensures { OnOk result ((members : List Member) (x : BusEvent) (m : Member) → BusStandsAt L.is_legal (bus_after members x) bus.now → AnswersAt members x bus.now
        → slice_get members place ≡ Some m → text.new.items ≡ text.old.items ++ member_text members x m) }
{
    match bus.answer(place) {
        Some(it) => push_addressed(text, &it),
        None => Ok(()),
    }
}

/// Writes what each terminal did in the latest step.
fn push_each<L: Legality>(text: &mut Vec<u8>, bus: &TerminalBus<L>) -> Result<(), AllocError>
    ensures { OnOk result ((members : List Member) (x : BusEvent) → BusStandsAt L.is_legal (bus_after members x) bus.now → AnswersAt members x bus.now
        → text.new.items ≡ text.old.items ++ flat_map (member_text members x) members) }
{
    for place in 0..bus.len() {
        push_at(text, bus, place)?;
    }
    Ok(())
}

/// Writes that words collided on a bus, if they did.
fn push_collision(text: &mut Vec<u8>, bus: Bus, collided: bool) -> Result<(), AllocError>
    ensures { OnOk result (text.new.items ≡ text.old.items ++ collision_text bus collided) }
{
    match (collided, bus) {
        (false, _) => Ok(()),
        (true, Bus::A) => text.extend_from_slice(b"A collision\n"),
        (true, Bus::B) => text.extend_from_slice(b"B collision\n"),
    }
}

/// Writes on which buses words collided.
fn push_collisions(text: &mut Vec<u8>, collided: OnBuses) -> Result<(), AllocError>
    ensures { OnOk result (text.new.items ≡ text.old.items ++ collisions_text collided) }
{
    push_collision(text, Bus::A, collided.a)?;
    push_collision(text, Bus::B, collided.b)
}

/// Writes what the terminals of a bus did in the latest step, each line with the address of its terminal in front, and then on
/// which buses words collided, as the step told. The only error is out of memory.
pub fn push_answers<L: Legality>(
    text: &mut Vec<u8>,
    bus: &TerminalBus<L>,
    collided: OnBuses,
) -> Result<(), AllocError>
    ensures { OnOk result ((members : List Member) (x : BusEvent) → BusStandsAt L.is_legal (bus_after members x) bus.now → AnswersAt members x bus.now
        → collided ≡ collisions members x → text.new.items ≡ text.old.items ++ step_text members x) }
{
    push_each(text, bus)?;
    push_collisions(text, collided)
}

/// Writes the line of an event, if there is one.
fn push_event(text: &mut Vec<u8>, event: &Option<Event>) -> Result<(), AllocError>
    ensures { OnOk result (text.new.items ≡ text.old.items ++ script_text (option_to_list event.now)) }
{
    match event {
        Some(event) => {
            text.extend_from_slice(write_event(event).as_str().as_bytes())?;
            text.push(b'\n')?;
            Ok(())
        }
        None => Ok(()),
    }
}

/// Writes what came to one terminal as lines of a script. The only error is out of memory.
pub fn push_came(text: &mut Vec<u8>, came: &CameTo) -> Result<(), AllocError>
    ensures { OnOk result (text.new.items ≡ text.old.items ++ script_text (events_that_came came.now)) }
{
    push_event(text, &came.event)?;
    push_event(text, &came.on_a)?;
    push_event(text, &came.on_b)
}
