//! Why a message doesn't end well that is put on a bus alone, at power-up.
ghost use Rattle.std.specs.Prelude.{◌≡◌, ◌++◌, List, ℕ, Some, IfOk, OnOk, length, map, slice_get};
ghost use Rattle.std.specs.Option.{option_to_list};
ghost use Rattle.bus_legal.specs.Description.{Description};
ghost use Rattle.bus_legal.specs.Parts.{Parts, description_in};
ghost use Rattle.terminal_rules.specs.declared.event.Event.{Event as TerminalEvent};
ghost use Rattle.terminal_rules.specs.Past.{history_after};
ghost use Rattle.terminal_bus.specs.Came.{events_that_came};
ghost use Rattle.terminal_bus.specs.Members.{all_events_for, member_of, powered_up};
ghost use Rattle.terminal_messages.specs.Fold.{shown_closed};
ghost use Rattle.terminal_messages.specs.Messages.{messages_of};
ghost use Rattle.terminal_messages.specs.Shown.{shown_message, shown_slot};
ghost use Rattle.terminal_messages.specs.View.{told_view, view_listed};
ghost use Rattle.tool_buses.specs.EndsWell.{MessageAt, speaks_to, came_alone, messages_alone, reasons_alone};
ghost use Rattle.tool_buses.specs.Powered.{IsPowered};
ghost use Rattle.tool_buses.specs.inner.Results.{message_of_terminal, AreResultsAt, HasWatched};

use crate::ended::{MessageResult, is_transmitter_at};
use bus_reports::PutMessage;
use bus_word::Command;
use rt1553::{Event, Normal};
use std::alloc::{AllocError, Global};
use terminal_bus::{BusEvent, CameTo, TerminalBus};
use terminal_messages::{ClosedMessages, KeptMessage, MessageWatch};

/// Pushes a message, if there is one.
fn push_some(
    messages: &mut Vec<KeptMessage>,
    message: Option<KeptMessage>,
) -> Result<(), AllocError>
    ensures { OnOk result (map shown_message messages.new.items ≡ map shown_message messages.old.items ++ view_listed (shown_slot message)) }
{
    if let Some(message) = message {
        messages.push(message)?;
    }
    Ok(())
}

/// Pushes messages that are over.
fn push_closed(messages: &mut Vec<KeptMessage>, closed: ClosedMessages) -> Result<(), AllocError>
    ensures { OnOk result (map shown_message messages.new.items ≡ map shown_message messages.old.items ++ shown_closed closed) }
{
    let ClosedMessages {
        first,
        second,
        unheard,
    } = closed;
    push_some(messages, first)?;
    push_some(messages, second)?;
    push_some(messages, unheard)
}

/// Plays an event to a terminal, if there is one, and pushes the messages that are over with it.
fn watch_event(
    watch: &mut MessageWatch<Normal>,
    event: Option<Event>,
    messages: &mut Vec<KeptMessage>,
) -> Result<(), AllocError>
    ensures { OnOk result ((P : Description) (h : List TerminalEvent) → HasWatched P h watch.old messages.old.items → HasWatched P (history_after (option_to_list event) h) watch.new messages.new.items) }
{
    match event {
        Some(event) => push_closed(messages, watch.step(event, 0)),
        None => Ok(()),
    }
}

/// Plays to a terminal what came to it in a step of the bus, and pushes the messages that are over.
fn watch_came(
    watch: &mut MessageWatch<Normal>,
    came: &CameTo,
    messages: &mut Vec<KeptMessage>,
) -> Result<(), AllocError>
    ensures { OnOk result ((P : Description) (h : List TerminalEvent) → HasWatched P h watch.old messages.old.items → HasWatched P (history_after (events_that_came came.now) h) watch.new messages.new.items) }
{
    watch_event(watch, came.event, messages)?;
    watch_event(watch, came.on_a, messages)?;
    watch_event(watch, came.on_b, messages)
}

/// The messages of the terminal at a place of a bus that stands at power-up, while these events happen on it. The terminal is that of this
/// profile.
fn messages_at(
    alloc: Global,
    bus: &TerminalBus<Normal>,
    place: usize,
    normal: &Normal,
    events: &[BusEvent],
) -> Result<Vec<KeptMessage>, AllocError>
    ensures { IfOk result (λ messages. (vs : List Parts) → IsPowered (map description_in vs) bus.now → slice_get vs place ≡ Some normal.now →
        map shown_message messages.items ≡ map (told_view (description_in normal.now) (λ _. 0)) (messages_of (description_in normal.now) (all_events_for (powered_up (map description_in vs)) events.now (member_of (description_in normal.now))))) }
{
    let mut played = bus.copy();
    let mut watch = MessageWatch::power_up(normal.setup(), *normal);
    let mut messages = Vec::new(alloc);
    for event in events {
        let _ = played.step(*event);
        let came = played.came_to(*event, place);
        watch_came(&mut watch, &came, &mut messages)?;
    }
    push_closed(&mut messages, watch.end())?;
    Ok(messages)
}

/// Takes messages of the terminal of this address for what came of one.
fn take_all(
    alloc: Global,
    put: PutMessage,
    address: u8,
    messages: &[KeptMessage],
    result_of: &mut MessageResult,
) -> Result<(), AllocError>
    ensures { OnOk result ((ms : List MessageAt) → AreResultsAt put ms result_of.old → AreResultsAt put (ms ++ map (message_of_terminal address) messages.now) result_of.new) }
{
    for message in messages {
        result_of.take(alloc, put, address, message)?;
    }
    Ok(())
}

/// Whether a message speaks to the terminal of this address.
fn speaks_to(put: PutMessage, address: u8) -> bool
    ensures { result ≡ speaks_to put address }
{
    let to = Command::of(put.command).address();
    to == 31 || to == address || is_transmitter_at(put.transmitter, address)
}

/// Takes what came of a message at the terminal at a place, which is that of this profile.
fn take_place(
    alloc: Global,
    put: PutMessage,
    bus: &TerminalBus<Normal>,
    place: usize,
    normal: &Normal,
    events: &[BusEvent],
    result_of: &mut MessageResult,
) -> Result<(), AllocError>
    ensures { OnOk result ((vs : List Parts) (ms : List MessageAt) → IsPowered (map description_in vs) bus.now → slice_get vs place ≡ Some normal.now →
        AreResultsAt put ms result_of.old → AreResultsAt put (ms ++ messages_alone put (map description_in vs) events.now normal.now) result_of.new) }
{
    let address = normal.address();
    if !speaks_to(put, address) {
        return Ok(());
    }
    let messages = messages_at(alloc, bus, place, normal, events)?;
    take_all(alloc, put, address, messages.as_slice(), result_of)
}

/// What comes of a message of these events, alone on a bus at power-up, whose terminals are those of these profiles in their order.
fn result_alone(
    alloc: Global,
    put: PutMessage,
    events: &[BusEvent],
    bus: &TerminalBus<Normal>,
    normals: &[Normal],
) -> Result<MessageResult, AllocError>
    ensures { IfOk result (λ it. IsPowered (map description_in normals.now) bus.now → AreResultsAt put (came_alone put normals.now events.now) it) }
{
    let mut result_of = MessageResult::none(alloc);
    for (place, normal) in normals.iter().enumerate() {
        take_place(alloc, put, bus, place, normal, events, &mut result_of)?;
    }
    Ok(result_of)
}

/// Why such a message doesn't end well at the terminals that it speaks to; empty where it does.
pub fn alone_reasons(
    alloc: Global,
    put: PutMessage,
    events: &[BusEvent],
    bus: &TerminalBus<Normal>,
    normals: &[Normal],
) -> Result<Vec<String>, AllocError>
    ensures { IfOk result (λ reasons. IsPowered (map description_in normals.now) bus.now → length reasons.items ≡ reasons_alone put normals.now events.now) }
{
    let alone = result_alone(alloc, put, events, bus, normals)?;
    alone.reasons(alloc, put, normals)
}
