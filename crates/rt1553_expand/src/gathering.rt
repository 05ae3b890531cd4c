//! The messages of a script: the reverse of `expand`.
ghost use Rattle.std.specs.Prelude.{ℕ, ◌≡◌, ◌≢◌, ◌≤◌, ◌<◌, ◌^◌, ◌++◌, [], ◌∷◌, All, List, length, drop, true, is_some, option_map, Some, None, IfOk, IfSome, IfNone};
ghost use Rattle.bus_word.specs.Command.{AreOfTheirWidth};
ghost use Rattle.terminal_rules.specs.declared.event.Event.{Event};
ghost use Rattle.script_lines.specs.Text.{lines_of};
ghost use Rattle.bus_script.specs.Reading.{reading, adds, nothing};
ghost use Rattle.rt1553_tool.specs.Fields.{in_word};
ghost use Rattle.rt1553_expand.specs.Gathered.{IsSender, IsMessage, NoneNext, GathersScript, GivesBack};
ghost use Rattle.rt1553_expand.specs.inner.Found.{command_message, IsOfWidth};
ghost use Rattle.rt1553_expand.specs.inner.Gathering.{IsNextLine, WroteNext, WroteSo, ReadsOn};

use crate::finding::{FoundMessage, as_read, message_found};
use crate::message::{ALL_TERMINALS, words_wanted};
use crate::script_for::ScriptFor;
use crate::spelling::{MessageLine, listed_line};
use crate::writing::{push_events, write_line};
use bus_terminal::Event;
use bus_word::Command;
use refused_lines::first_line;
use rt1553_tool::{CommandFields, WordFields, command_bits};
use script_lines::{MAX_LINE, MAX_LINES, read_event};
use std::alloc::{AllocError, Global};

/// Tells whether the terminal of one command can send what another command asks to be received.
fn is_sender(receiver: CommandFields, sender: CommandFields) -> bool
    requires { AreOfTheirWidth (in_word receiver) }
    ensures yes { AreOfTheirWidth (in_word sender) → result ≡ true → IsSender receiver sender }
    ensures not { IsSender receiver sender → result ≡ true }
{
    sender.address != ALL_TERMINALS
        && sender.address != receiver.address
        && sender.transmit
        && sender.subaddress >= 1
        && sender.subaddress <= 30
        && sender.low == receiver.low
        && Command::of(command_bits(receiver)).is_receive()
}

/// Tells whether a message that was found has no sender, or one that can send.
fn has_right_sender(found: &FoundMessage) -> bool
    requires { IsOfWidth found.now }
    ensures yes { result ≡ true → IfSome found.now.sender (IsSender found.now.command) }
    ensures not { IfSome found.now.sender (IsSender found.now.command) → result ≡ true }
{
    match found.sender {
        Some(sender) => is_sender(found.command, sender),
        None => true,
    }
}

/// Does nothing: its contract says that words have 16 bits.
fn have_16_bits(words: &[u16])
    ensures { All (λ word. word < 2 ^ 16) words.now }
{}

/// All but the first items, so many.
pub fn rest_from<T>(items: &[T], count: usize) -> &[T]
    requires { count ≤ length items.now }
    ensures { result.now ≡ drop count items.now }
{
    &items[count..]
}

/// Tells whether two events are the same.
fn same_event(a: Event, b: Event) -> bool
    ensures yes { result ≡ true → a ≡ b }
    ensures not { a ≡ b → result ≡ true }
{
    a == b
}

/// Tells whether events begin with these.
fn begins_with(events: &[Event], front: &[Event]) -> bool
    ensures yes { result ≡ true → events.now ≡ front.now ++ drop (length front.now) events.now }
    ensures within { result ≡ true → length front.now ≤ length events.now }
    ensures not { (rest : List Event) → events.now ≡ front.now ++ rest → result ≡ true }
{
    if front.len() > events.len() {
        return false;
    }
    for i in 0..front.len() {
        if !same_event(events[i], front[i]) {
            return false;
        }
    }
    true
}

/// Tells whether what was found is a message: it has all its data words, and the right sender.
fn is_message(found: &FoundMessage) -> bool
    requires { IsOfWidth found.now }
    ensures yes { result ≡ true → IsMessage (command_message found.now) }
    ensures not { IsMessage (command_message found.now) → result ≡ true }
{
    have_16_bits(found.words.as_slice());
    found.words.len() == usize::from(words_wanted(WordFields::Command(found.command)))
        && has_right_sender(found)
}

/// The line of the message that comes next, if one does that can be listed; then `room` becomes its events.
fn next_message(
    room: &mut Vec<Event>,
    own: &ScriptFor,
    events: &[Event],
) -> Result<Option<MessageLine>, AllocError>
    ensures some { IfOk result (λ o. IfSome o (λ line. IsNextLine own.now events.now room.new.items line.bytes)) }
    ensures none { IfOk result (λ o. IfNone o (NoneNext own.now events.now)) }
{
    let Some(found) = message_found(own, events) else {
        return Ok(None);
    };
    if !is_message(&found) {
        return Ok(None);
    }
    let line = listed_line(&found);
    let bus = found.bus;
    room.clear();
    push_events(room, own, bus, &as_read(found))?;
    if !begins_with(events, room.as_slice()) {
        return Ok(None);
    }
    Ok(Some(line))
}

/// Writes the line of what comes next, a message or an event, and tells how many events it has.
fn push_piece(
    out: &mut Vec<u8>,
    room: &mut Vec<Event>,
    own: &ScriptFor,
    events: &[Event],
) -> Result<usize, AllocError>
    requires { 0 < length events.now }
    ensures { IfOk result (WroteNext own.now out.old.items out.new.items events.now) }
{
    match next_message(room, own, events)? {
        Some(line) => {
            out.extend_from_slice(line.as_str().as_bytes())?;
            out.push(b'\n')?;
            Ok(room.as_slice().len())
        }
        None => {
            write_line(out, events[0])?;
            Ok(1)
        }
    }
}

/// Writes the lines of all events.
fn lines_of_events(alloc: Global, own: &ScriptFor, events: &[Event]) -> Result<Vec<u8>, AllocError>
    ensures { IfOk result (λ text. WroteSo own.now events.now [] text.items) }
{
    let mut text = Vec::new(alloc);
    let mut room = Vec::new(alloc);
    let mut rest = events;
    while !rest.is_empty() {
        let taken = push_piece(&mut text, &mut room, own, rest)?;
        rest = rest_from(rest, taken);
    }
    Ok(text)
}

/// Adds the event of a line of a script, which stands behind so many lines. Tells whether the line is accepted.
fn push_said(events: &mut Vec<Event>, before: u32, line: &[u8]) -> Result<bool, AllocError>
    ensures on { IfOk result (ReadsOn before events.old.items events.new.items line.now) }
    ensures few { IfOk result (λ is_read. is_read ≡ true → before < 1048576) }
{
    if before >= MAX_LINES {
        return Ok(false);
    }
    if line.len() > MAX_LINE {
        return Ok(false);
    }
    match read_event(line) {
        Ok(Some(event)) => events.push(event)?,
        Ok(None) => {}
        Err(_) => return Ok(false),
    }
    Ok(true)
}

/// The events of a script; None where a run refuses it.
fn script_events(alloc: Global, script: &[u8]) -> Result<Option<Vec<Event>>, AllocError>
    ensures some { IfOk result (λ o. IfSome o (λ events. reading 0 (lines_of script.now) ≡ adds events.items nothing)) }
    ensures none { IfOk result (λ o. IfNone o (is_some (reading 0 (lines_of script.now)).fault ≡ true)) }
{
    let mut events = Vec::new(alloc);
    let mut rest = script;
    let mut before = 0;
    while !rest.is_empty() {
        let (line, more) = first_line(rest);
        if !push_said(&mut events, before, line)? {
            return Ok(None);
        }
        before += 1;
        rest = more;
    }
    Ok(Some(events))
}

/// Gathers the events of a script into messages, as `expand` reads them: a line for each message, and for each event between
/// them. Comments are left out. The script is for the terminals `own`: where one of them sends in a transfer, its words are written
/// as 0000. None where a run refuses the script. The only error is out of memory.
pub fn gather(alloc: Global, script: &[u8], own: &ScriptFor) -> Result<Option<Vec<u8>>, AllocError>
    ensures gathered { IfOk result (λ o. GathersScript own.now (reading 0 (lines_of script.now)) (option_map (λ text. text.items) o)) }
    ensures back { IfOk result (λ o. GivesBack own.now (reading 0 (lines_of script.now)) (option_map (λ text. text.items) o)) }
{
    match script_events(alloc, script)? {
        Some(events) => Ok(Some(lines_of_events(alloc, own, events.as_slice())?)),
        None => Ok(None),
    }
}
