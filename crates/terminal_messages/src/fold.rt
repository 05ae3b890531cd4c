//! The messages of a run, event by event, in fixed room.
ghost use Rattle.std.specs.Prelude.{◌≡◌, ◌&&◌, ◌||◌, ◌++◌, [], List, ℕ, false, if◌then◌else◌};
ghost use Rattle.std.specs.Option.{option_map};
ghost use Rattle.bus_word.specs.declared.word.Bus.TheVariants.{A, B};
ghost use Rattle.bus_legal.specs.Description.{Description};
ghost use Rattle.terminal_rules.specs.Reply.{is_other};
ghost use Rattle.bus_terminal.specs.Answer.{shown_copy};
ghost use Rattle.terminal_messages.specs.Told.{is_first_command, begins_message, event_bus, sent_bus};
ghost use Rattle.terminal_messages.specs.State.{facts_in};
ghost use Rattle.terminal_messages.specs.View.{begins_by, closes_by, concerns_by, newest_after, next_number, number_after, part_of_kept, part_by, added_view, closed_view, begun_after, message_after, closed_after, alone_after, view_listed, view_turn};
ghost use Rattle.terminal_messages.specs.Shown.{shown_slot};
ghost use Rattle.terminal_messages.specs.Fold.{shown_closed, fold_view, FoldStands, FoldSteps};

use crate::kept::KeptMessage;
use crate::part::MessagePart;
use crate::seen::{SeenEvent, event_bus, is_on};
use bus_terminal::{CopiedAnswer, Event};
use bus_word::{Bus, Command, Raw};
use terminal_state::same_bus;

/// Whether there is a bus, and it is the other one.
fn is_other(bus: Bus, other: Option<Bus>) -> bool
    ensures { result ≡ is_other bus other }
{
    match other {
        Some(other) => !same_bus(bus, other),
        None => false,
    }
}

/// The bus on which a word is sent.
fn sent_bus(answer: &CopiedAnswer) -> Option<Bus>
    ensures { result ≡ sent_bus (shown_copy answer.now) }
{
    match answer {
        CopiedAnswer::Sends(sent) => Some(sent.bus),
        _ => None,
    }
}

/// The number of a message that begins behind so many.
fn next_number(begun: u64) -> u64
    ensures { result ≡ next_number begun }
{
    begun.saturating_add(1)
}

/// How many messages have begun with an event of this part.
fn number_after(part: MessagePart, begun: u64) -> u64
    ensures { result ≡ number_after part begun }
{
    if part.is_first_command() || part.is_unheard() {
        next_number(begun)
    } else {
        begun
    }
}

/// Whether an event of this part begins a message on this bus.
fn begins(bus: Bus, seen: &SeenEvent, part: MessagePart) -> bool
    ensures { (ds : List ℕ) → result ≡ begins_by bus (facts_in seen.now ds) part }
{
    part.is_first_command() && is_on(bus, event_bus(seen.event))
}

/// Whether it begins a message on the other bus than this one, or starts one there.
fn begins_elsewhere(bus: Bus, seen: &SeenEvent, part: MessagePart) -> bool
    ensures { result ≡ ((is_first_command part || seen.now.starts) && is_other bus (event_bus seen.now.event)) }
{
    (part.is_first_command() || seen.starts) && is_other(bus, event_bus(seen.event))
}

/// Whether it closes the message on this bus.
fn closes(bus: Bus, seen: &SeenEvent, part: MessagePart) -> bool
    ensures { (ds : List ℕ) → result ≡ closes_by bus (facts_in seen.now ds) part }
{
    begins(bus, seen, part) || (begins_elsewhere(bus, seen, part) && !seen.engaged.on(bus))
}

/// Whether it belongs to the message on this bus.
fn concerns(bus: Bus, seen: &SeenEvent) -> bool
    ensures { (ds : List ℕ) → result ≡ concerns_by bus (facts_in seen.now ds) seen.now.is_ignored }
{
    !seen.is_ignored && (is_on(bus, event_bus(seen.event)) || is_on(bus, sent_bus(&seen.answer)))
}

/// The part of a command, by the message on its bus.
fn part_of(
    command: Command,
    seen: &SeenEvent,
    is_engaged: bool,
    slot: &Option<KeptMessage>,
) -> MessagePart
    ensures { result ≡ part_of_kept command seen.now.is_ignored seen.now.starts is_engaged seen.now.awaits (shown_slot slot.now) }
{
    if seen.is_ignored {
        return MessagePart::Unheard;
    }
    let (is_second_command, is_status) = match slot {
        Some(message) => (
            message.state.takes_second(command),
            message.state.takes_status(command),
        ),
        None => (false, false),
    };
    if is_second_command {
        MessagePart::Second
    } else if seen.starts {
        MessagePart::First
    } else if is_engaged {
        if seen.awaits {
            MessagePart::Status
        } else {
            MessagePart::Within
        }
    } else if is_status {
        MessagePart::Status
    } else {
        MessagePart::First
    }
}

/// The bus of the message that began last, after an event of this part.
fn newest_after(newest: Bus, seen: &SeenEvent, part: MessagePart) -> Bus
    ensures { (ds : List ℕ) → result ≡ newest_after (facts_in seen.now ds) part newest }
{
    if part.is_first_command() {
        match event_bus(seen.event) {
            Some(bus) => bus,
            None => newest,
        }
    } else {
        newest
    }
}

/// The message that is over with an event.
fn closed_message(slot: Option<KeptMessage>, seen: &SeenEvent) -> Option<KeptMessage>
    ensures { (ds : List ℕ) → shown_slot result ≡ option_map (closed_view (facts_in seen.now ds)) (shown_slot slot) }
{
    match slot {
        Some(mut message) => {
            message.close(seen);
            Some(message)
        }
        None => None,
    }
}

/// Adds an event of this part to the message on a bus, if it belongs to it.
fn add_on(slot: &mut Option<KeptMessage>, own: u8, bus: Bus, seen: &SeenEvent, part: MessagePart)
    ensures { (ds : List ℕ) → shown_slot slot.new ≡ (if concerns_by bus (facts_in seen.now ds) seen.now.is_ignored then option_map (added_view own (facts_in seen.now ds) part) (shown_slot slot.old) else shown_slot slot.old) }
{
    if concerns(bus, seen) {
        if let Some(message) = slot {
            message.add(own, seen, part);
        }
    }
}

/// The terminal for which messages are told: its address, 0 to 30, and whether it has the broadcast option.
#[derive(Clone, Copy)]
pub struct OwnAddress {
    pub address: u8,
    pub broadcast: bool,
}

/// The message that an event of this part begins on a bus, if it does.
fn begun_on(
    own: OwnAddress,
    bus: Bus,
    seen: &SeenEvent,
    part: MessagePart,
    number: u64,
) -> Option<KeptMessage>
    ensures { (ds : List ℕ) → shown_slot result ≡ begun_after own.address own.broadcast bus (facts_in seen.now ds) part number }
{
    if begins(bus, seen, part) {
        KeptMessage::begin(own.address, own.broadcast, bus, seen, false, number)
    } else {
        None
    }
}

/// Takes an event of this part, with the message on a bus, and gives that if it is over.
fn take_on(
    slot: &mut Option<KeptMessage>,
    own: OwnAddress,
    bus: Bus,
    seen: &SeenEvent,
    part: MessagePart,
    number: u64,
) -> Option<KeptMessage>
    ensures closed { (ds : List ℕ) → shown_slot result ≡ closed_after bus (facts_in seen.now ds) part (shown_slot slot.old) }
    ensures kept { (ds : List ℕ) → shown_slot slot.new ≡ message_after own.address own.broadcast bus (facts_in seen.now ds) part seen.now.is_ignored number (shown_slot slot.old) }
{
    if closes(bus, seen, part) {
        let closed = closed_message(slot.take(), seen);
        *slot = begun_on(own, bus, seen, part, number);
        return closed;
    }
    add_on(slot, own.address, bus, seen, part);
    None
}

/// Whether an event of this part can close or begin a message.
fn can_close(seen: &SeenEvent, part: MessagePart) -> bool
    ensures { result ≡ (seen.now.starts || begins_message part) }
{
    seen.starts || part.is_first_command() || part.is_unheard()
}

/// A command that is not heard, alone.
fn alone(own: OwnAddress, seen: &SeenEvent, part: MessagePart, number: u64) -> Option<KeptMessage>
    ensures { (ds : List ℕ) → shown_slot result ≡ alone_after own.address own.broadcast (facts_in seen.now ds) part number }
{
    if part.is_unheard() {
        match event_bus(seen.event) {
            Some(bus) => KeptMessage::begin(own.address, own.broadcast, bus, seen, true, number),
            None => None,
        }
    } else {
        None
    }
}

/// Messages that are over, in the order in which they began; a command that is not heard is the last.
#[derive(Drop)]
pub struct ClosedMessages {
    pub first: Option<KeptMessage>,
    pub second: Option<KeptMessage>,
    pub unheard: Option<KeptMessage>,
}

impl ClosedMessages {
    /// The messages of the two buses, by which began last, and a command that is not heard.
    fn in_turn(
        newest: Bus,
        a: Option<KeptMessage>,
        b: Option<KeptMessage>,
        unheard: Option<KeptMessage>,
    ) -> ClosedMessages
        ensures { shown_closed result ≡ view_turn newest (shown_slot a) (shown_slot b) ++ view_listed (shown_slot unheard) }
    {
        match newest {
            Bus::A => ClosedMessages {
                first: b,
                second: a,
                unheard,
            },
            Bus::B => ClosedMessages {
                first: a,
                second: b,
                unheard,
            },
        }
    }
}

/// The messages that are not over: one on each bus at most.
#[derive(Drop)]
pub struct MessageFold {
    own: OwnAddress,
    /// How many messages have begun.
    begun: u64,
    /// The bus of the message that began last.
    newest: Bus,
    a: Option<KeptMessage>,
    b: Option<KeptMessage>,
}

impl MessageFold {
    /// None, of the terminal of this address.
    pub fn none(own: OwnAddress) -> MessageFold
        ensures { (P : Description) (place : ℕ → ℕ) → own.address ≡ P.address → own.broadcast ≡ P.broadcast → FoldStands P place [] result }
    {
        MessageFold {
            own,
            begun: 0,
            newest: Bus::A,
            a: None,
            b: None,
        }
    }

    /// What an event that comes next is to the messages.
    pub fn part(&self, seen: &SeenEvent) -> MessagePart
        ensures { (ds : List ℕ) → result ≡ part_by seen.now.event (facts_in seen.now ds) seen.now.is_ignored (fold_view self.now) }
    {
        match seen.event {
            Event::Word(bus, word) => {
                if word.is_command() {
                    let slot = match bus {
                        Bus::A => &self.a,
                        Bus::B => &self.b,
                    };
                    part_of(Command::of(word.bits), seen, seen.engaged.on(bus), slot)
                } else {
                    MessagePart::Plain
                }
            }
            _ => MessagePart::Plain,
        }
    }

    /// Takes an event of this part, and gives the messages that are over with it.
    fn take(&mut self, seen: &SeenEvent, part: MessagePart) -> ClosedMessages
        ensures { (ds : List ℕ) → FoldSteps (facts_in seen.now ds) seen.now.is_ignored part self.old self.new result }
    {
        let (newest, number) = (self.newest, next_number(self.begun));
        let on_a = take_on(&mut self.a, self.own, Bus::A, seen, part, number);
        let on_b = take_on(&mut self.b, self.own, Bus::B, seen, part, number);
        self.newest = newest_after(newest, seen, part);
        self.begun = number_after(part, self.begun);
        let unheard = alone(self.own, seen, part, number);
        ClosedMessages::in_turn(newest, on_a, on_b, unheard)
    }

    /// Takes an event of this part that closes and begins none, as most.
    fn go_on(&mut self, seen: &SeenEvent, part: MessagePart) -> ClosedMessages
        ensures { (ds : List ℕ) → (seen.now.starts || begins_message part) ≡ false → FoldSteps (facts_in seen.now ds) seen.now.is_ignored part self.old self.new result }
    {
        add_on(&mut self.a, self.own.address, Bus::A, seen, part);
        add_on(&mut self.b, self.own.address, Bus::B, seen, part);
        ClosedMessages::in_turn(self.newest, None, None, None)
    }

    /// Takes an event, and gives the messages that are over with it.
    pub fn step(&mut self, seen: &SeenEvent) -> ClosedMessages
        ensures { (ds : List ℕ) → FoldSteps (facts_in seen.now ds) seen.now.is_ignored (part_by seen.now.event (facts_in seen.now ds) seen.now.is_ignored (fold_view self.old)) self.old self.new result }
    {
        let part = self.part(seen);
        if can_close(seen, part) {
            self.take(seen, part)
        } else {
            self.go_on(seen, part)
        }
    }

    /// Gives the messages that are left.
    pub fn end(&mut self) -> ClosedMessages
        ensures { shown_closed result ≡ view_turn self.old.newest (fold_view self.old A) (fold_view self.old B) }
    {
        let a = self.a.take();
        let b = self.b.take();
        ClosedMessages::in_turn(self.newest, a, b, None)
    }
}
