//! Messages, written as the lines of a script.
ghost use Rattle.std.specs.Prelude.{◌≡◌, ◌≤◌, ◌+◌, [], ◌∷◌, ◌++◌, length, replicate, Ok, Some, IfOk, IfSome, OnOk};
ghost use Rattle.bus_word.specs.declared.word.Bus.{Bus};
ghost use Rattle.bus_word.specs.Command.{AreOfTheirWidth};
ghost use Rattle.terminal_rules.specs.declared.event.Event.TheVariants.{Slot as SlotEvent};
ghost use Rattle.rt1553_tool.specs.Fields.{AreOfWidth, in_word};
ghost use Rattle.rt1553_tool.specs.WordLines.{status_with};
ghost use Rattle.rt1553_expand.specs.Own.{is_own};
ghost use Rattle.rt1553_expand.specs.Events.{word_event, data_events, data_words_sent, reply_words, message_end, sender_events, own_events, other_receives, receiver_events, heard_events, message_events};
ghost use Rattle.rt1553_expand.specs.inner.Said.{said_message};
ghost use Rattle.rt1553_expand.specs.inner.Wrote.{Wrote};

use crate::message::BusMessage;
use crate::script_for::ScriptFor;
use bus_terminal::Event;
use bus_word::{Bus, Command};
use rt1553_tool::{CommandFields, StatusFields, WordFields, command_bits, word_with};
use script_lines::write_event;
use std::alloc::AllocError;

/// Adds a word with these fields.
fn push_word(out: &mut Vec<Event>, bus: Bus, fields: WordFields) -> Result<(), AllocError>
    requires { AreOfWidth fields }
    ensures { OnOk result (out.new.items ≡ out.old.items ++ word_event bus fields ∷ []) }
{
    out.push(Event::Word(bus, word_with(fields)))?;
    Ok(())
}

/// Adds data words.
fn push_data(out: &mut Vec<Event>, bus: Bus, words: &[u16]) -> Result<(), AllocError>
    ensures { OnOk result (out.new.items ≡ out.old.items ++ data_events bus words.now) }
{
    for word in words {
        push_word(out, bus, WordFields::Data(*word))?;
    }
    Ok(())
}

/// Adds so many slots.
fn push_slots(out: &mut Vec<Event>, count: u8) -> Result<(), AllocError>
    ensures { OnOk result (out.new.items ≡ out.old.items ++ replicate count SlotEvent) }
{
    for _ in 0..count {
        out.push(Event::Slot)?;
    }
    Ok(())
}

/// How many data words a terminal sends behind its status word in the reply to a command, 0 to 32.
fn data_words_sent(command: Command) -> u8
    ensures value { result ≡ data_words_sent command }
    ensures few { result ≤ 32 }
{
    if !command.transmit() {
        0
    } else if !command.is_mode() {
        command.count()
    } else if command.code() >= 16 {
        1
    } else {
        0
    }
}

/// How many words the reply to a command can have, 0 to 33.
fn reply_words(command: Command) -> u8
    ensures value { result ≡ reply_words command }
    ensures few { result ≤ 33 }
{
    if command.is_broadcast() {
        0
    } else {
        data_words_sent(command) + 1
    }
}

/// Adds what comes behind a message that begins with this word.
fn push_end(out: &mut Vec<Event>, bus: Bus, first: WordFields) -> Result<(), AllocError>
    requires { AreOfWidth first }
    ensures { OnOk result (out.new.items ≡ out.old.items ++ message_end bus first) }
{
    if let WordFields::Command(command) = first {
        out.push(Event::Gap(bus))?;
        push_slots(out, reply_words(Command::of(command_bits(command))))?;
    }
    Ok(())
}

/// The status word of a terminal, without a bit that is set.
fn plain_status(address: u8) -> StatusFields
    ensures { result ≡ status_with address [] }
{
    StatusFields {
        address,
        error: false,
        instrumentation: false,
        service: false,
        reserved: 0,
        broadcast: false,
        busy: false,
        subsystem: false,
        accept: false,
        terminal: false,
    }
}

/// Adds what comes from and to the terminal that sends in a transfer, up to its data words.
fn push_sender(
    out: &mut Vec<Event>,
    bus: Bus,
    sender: Option<CommandFields>,
) -> Result<(), AllocError>
    requires { IfSome sender (λ s. AreOfTheirWidth (in_word s)) }
    ensures { OnOk result (out.new.items ≡ out.old.items ++ sender_events bus sender) }
{
    if let Some(command) = sender {
        push_word(out, bus, WordFields::Command(command))?;
        out.push(Event::Gap(bus))?;
        push_word(out, bus, WordFields::Status(plain_status(command.address)))?;
    }
    Ok(())
}

/// How many lines a message ends with that begins with this word, 0 to 34.
fn end_lines(first: WordFields) -> usize
    requires { AreOfWidth first }
    ensures value { (bus : Bus) → result ≡ length (message_end bus first) }
    ensures few { result ≤ 34 }
{
    match first {
        WordFields::Command(command) => {
            usize::from(reply_words(Command::of(command_bits(command)))) + 1
        }
        _ => 0,
    }
}

/// Whether the terminal that sends in a transfer plays its own part.
pub fn is_own(own: &ScriptFor, sender: Option<CommandFields>) -> bool
    ensures { result ≡ is_own own.now sender }
{
    match sender {
        Some(command) => own.plays(command.address),
        None => false,
    }
}

/// How many lines come behind the first word where an own terminal sends, 0 to 35.
fn own_lines(sender: Option<CommandFields>) -> usize
    requires { IfSome sender (λ s. AreOfTheirWidth (in_word s)) }
    ensures value { (bus : Bus) → result ≡ length (own_events bus sender) }
    ensures few { result ≤ 35 }
{
    match sender {
        Some(command) => 1 + end_lines(WordFields::Command(command)),
        None => 0,
    }
}

/// Whether another own terminal than the sender receives in a transfer.
fn other_receives(own: &ScriptFor, first: WordFields, sender: Option<CommandFields>) -> bool
    ensures { result ≡ other_receives own.now first sender }
{
    match (first, sender) {
        (WordFields::Command(command), Some(sender)) => {
            own.other_hears(command.address, sender.address)
        }
        _ => false,
    }
}

/// How many lines come behind those of the sender where another own terminal receives, 0 to 34.
fn receiver_lines(own: &ScriptFor, message: &BusMessage) -> usize
    requires { AreOfWidth message.now.first }
    ensures value { (bus : Bus) → result ≡ length (receiver_events own.now bus (said_message message.now)) }
    ensures few { result ≤ 34 }
{
    if other_receives(own, message.first, message.sender) {
        end_lines(message.first)
    } else {
        0
    }
}

/// How many lines others' words have behind the first, with the slots, 0 to 69.
fn heard_lines(message: &BusMessage) -> usize
    requires { AreOfWidth message.now.first }
    ensures value { (bus : Bus) → result ≡ length (heard_events bus (said_message message.now)) }
    ensures few { result ≤ 69 }
{
    let of_sender = if message.sender.is_some() { 3 } else { 0 };
    of_sender + message.words.len() + end_lines(message.first)
}

/// How many lines a message has for these terminals: 1 to 70.
pub fn message_lines(own: &ScriptFor, message: &BusMessage) -> usize
    requires width { AreOfWidth message.now.first }
    requires sender { IfSome message.now.sender (λ s. AreOfTheirWidth (in_word s)) }
    ensures value { (bus : Bus) → result ≡ length (message_events own.now bus (said_message message.now)) }
    ensures few { result ≤ 70 }
{
    if is_own(own, message.sender) {
        1 + own_lines(message.sender) + receiver_lines(own, message)
    } else {
        1 + heard_lines(message)
    }
}

/// Adds what comes behind the first word where an own terminal sends.
fn push_own(out: &mut Vec<Event>, bus: Bus, sender: Option<CommandFields>) -> Result<(), AllocError>
    requires { IfSome sender (λ s. AreOfTheirWidth (in_word s)) }
    ensures { OnOk result (out.new.items ≡ out.old.items ++ own_events bus sender) }
{
    if let Some(command) = sender {
        push_word(out, bus, WordFields::Command(command))?;
        push_end(out, bus, WordFields::Command(command))?;
    }
    Ok(())
}

/// Adds what comes behind that where another own terminal receives.
fn push_receiver(
    out: &mut Vec<Event>,
    own: &ScriptFor,
    bus: Bus,
    message: &BusMessage,
) -> Result<(), AllocError>
    requires { AreOfWidth message.now.first }
    ensures { OnOk result (out.new.items ≡ out.old.items ++ receiver_events own.now bus (said_message message.now)) }
{
    if other_receives(own, message.first, message.sender) {
        push_end(out, bus, message.first)?;
    }
    Ok(())
}

/// Adds what others put on the bus behind the first word, and the slots.
fn push_heard(out: &mut Vec<Event>, bus: Bus, message: &BusMessage) -> Result<(), AllocError>
    requires width { AreOfWidth message.now.first }
    requires sender { IfSome message.now.sender (λ s. AreOfTheirWidth (in_word s)) }
    ensures { OnOk result (out.new.items ≡ out.old.items ++ heard_events bus (said_message message.now)) }
{
    push_sender(out, bus, message.sender)?;
    push_data(out, bus, message.words.as_slice())?;
    push_end(out, bus, message.first)?;
    Ok(())
}

/// Adds the events of a message for these terminals.
pub fn push_events(
    out: &mut Vec<Event>,
    own: &ScriptFor,
    bus: Bus,
    message: &BusMessage,
) -> Result<(), AllocError>
    requires width { AreOfWidth message.now.first }
    requires sender { IfSome message.now.sender (λ s. AreOfTheirWidth (in_word s)) }
    ensures { OnOk result (out.new.items ≡ out.old.items ++ message_events own.now bus (said_message message.now)) }
{
    push_word(out, bus, message.first)?;
    if is_own(own, message.sender) {
        push_own(out, bus, message.sender)?;
        push_receiver(out, own, bus, message)?;
    } else {
        push_heard(out, bus, message)?;
    }
    Ok(())
}

/// Writes the line of an event.
pub fn write_line(out: &mut Vec<u8>, event: Event) -> Result<(), AllocError>
    ensures { OnOk result (Wrote out.old.items out.new.items (event ∷ [])) }
{
    let line = write_event(&event);
    out.extend_from_slice(line.as_str().as_bytes())?;
    out.push(b'\n')?;
    Ok(())
}

/// Writes the lines of events.
pub fn write_lines(out: &mut Vec<u8>, events: &[Event]) -> Result<(), AllocError>
    ensures { OnOk result (Wrote out.old.items out.new.items events.now) }
{
    for event in events {
        write_line(out, *event)?;
    }
    Ok(())
}
