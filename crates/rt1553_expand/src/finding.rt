//! The message that events seem to begin with.
ghost use Rattle.std.specs.Prelude.{◌≡◌, ◌≤◌, map, take, replicate, IfSome, option_map};
ghost use Rattle.bus_word.specs.Command.{AreOfTheirWidth};
ghost use Rattle.rt1553_tool.specs.Fields.{in_word, AreOfWidth};
ghost use Rattle.rt1553_expand.specs.Gathered.{said};
ghost use Rattle.rt1553_expand.specs.inner.Said.{said_message};
ghost use Rattle.rt1553_expand.specs.inner.Found.{heard_in, command_first, sender_found, bits_heard, events_before, words_found, message_at, heard_command, command_message, message_on, IsOfWidth};

use crate::message::{BusMessage, Words, words_wanted};
use crate::script_for::ScriptFor;
use crate::writing::is_own;
use arrayvec::ArrayVec;
use bus_terminal::Event;
use bus_word::{Bus, Command};
use rt1553_tool::{CommandFields, WordFields, command_bits, command_fields};

/// A message of a command.
#[derive(Drop)]
pub struct FoundMessage {
    pub bus: Bus,
    pub command: CommandFields,
    /// In a transfer between terminals, the command to the terminal that sends.
    pub sender: Option<CommandFields>,
    /// The data words.
    pub words: Words,
}

/// The command that an event is, with its bus.
fn heard_in(event: Event) -> Option<(Bus, CommandFields)>
    ensures value { option_map heard_command result ≡ heard_in event }
    ensures width { IfSome result (λ heard. AreOfTheirWidth (in_word heard.1)) }
{
    match event {
        Event::Word(bus, word) if word.is_command() => Some((bus, command_fields(word.bits))),
        _ => None,
    }
}

/// Behind a command to receive, the command to the terminal that sends.
fn sender_found(command: CommandFields, events: &[Event]) -> Option<CommandFields>
    requires { AreOfTheirWidth (in_word command) }
    ensures value { result ≡ sender_found command events.now }
    ensures width { IfSome result (λ s. AreOfTheirWidth (in_word s)) }
{
    if events.is_empty() || !Command::of(command_bits(command)).is_receive() {
        return None;
    }
    match heard_in(events[0]) {
        Some((_, sender)) => Some(sender),
        None => None,
    }
}

/// The bits of a word; of what is none, 0.
fn bits_heard(event: Event) -> u16
    ensures { result ≡ bits_heard event }
{
    match event {
        Event::Word(_, word) => word.bits,
        _ => 0,
    }
}

/// The bits of the first events, at most so many.
fn first_bits(events: &[Event], most: u8) -> Words
    requires { most ≤ 32 }
    ensures { result.items ≡ map bits_heard (take most events.now) }
{
    let mut words = Words::new();
    for event in events {
        if words.len() == usize::from(most) {
            break;
        }
        words.push(bits_heard(*event));
    }
    words
}

/// How many events stand between the first command and the data words.
fn events_before(sender: Option<CommandFields>) -> usize
    ensures { result ≡ events_before sender }
{
    if sender.is_some() { 3 } else { 0 }
}

/// So many words 0.
fn zeros(count: u8) -> Words
    requires { count ≤ 32 }
    ensures { result.items ≡ replicate count 0 }
{
    let mut words = Words::new();
    for _ in 0..count {
        words.push(0);
    }
    words
}

/// The data words of a message, of which these events stand behind the first command.
fn words_found(
    own: &ScriptFor,
    sender: Option<CommandFields>,
    wanted: u8,
    events: &[Event],
) -> Words
    requires { wanted ≤ 32 }
    ensures { result.items ≡ words_found own.now sender wanted events.now }
{
    if is_own(own, sender) {
        return zeros(wanted);
    }
    let before = events_before(sender).min(events.len());
    first_bits(&events[before..], wanted)
}

/// The message that events seem to begin with: what they have where its parts would stand.
pub fn message_found(own: &ScriptFor, events: &[Event]) -> Option<FoundMessage>
    ensures value { option_map message_on result ≡ message_at own.now events.now }
    ensures width { IfSome result IsOfWidth }
{
    if events.is_empty() {
        return None;
    }
    let (bus, command) = heard_in(events[0])?;
    let behind = &events[1..];
    let sender = sender_found(command, behind);
    let wanted = words_wanted(WordFields::Command(command));
    Some(FoundMessage {
        bus,
        command,
        sender,
        words: words_found(own, sender, wanted, behind),
    })
}

/// A message that was found, as messages are read.
pub fn as_read(found: FoundMessage) -> BusMessage
    ensures value { said_message result ≡ said (command_message found) }
    ensures width { IsOfWidth found → AreOfWidth result.first × IfSome result.sender (λ s. AreOfTheirWidth (in_word s)) }
{
    BusMessage {
        first: WordFields::Command(found.command),
        sender: found.sender,
        words: found.words,
    }
}
