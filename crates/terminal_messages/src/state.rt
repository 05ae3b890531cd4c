//! What is kept of a message that is not over, its data words aside.
ghost use Rattle.std.specs.Prelude.{◌≡◌, ℕ, List, ◌&&◌, if◌then◌else◌, nat_lt, Some};
ghost use Rattle.terminal_messages.specs.Ends.{end_after, with_gap_within, superseded_end, expected_words, cause_at};
ghost use Rattle.terminal_rules.specs.Reply.{is_slot};
ghost use Rattle.terminal_messages.specs.Told.{is_second_command, is_status, is_command_within};
ghost use Rattle.terminal_messages.specs.declared.ending.MessageEnding.TheVariants.{Open};
ghost use Rattle.terminal_messages.specs.declared.ending.Unsent.TheVariants.{ShutDown, Dropped};
ghost use Rattle.terminal_messages.specs.Parts.{is_gap_event, bits_of_word};
ghost use Rattle.terminal_messages.specs.State.{facts_in, begun_state, first_end, tail_pair, other_of, pair_for, state_after, state_closed, newer, status_answered, has_datum, datum_told, lacks, drops, takes_second_in, takes_status_in};
ghost use Rattle.terminal_state.specs.Ended.{ending_of};
ghost use Rattle.bus_terminal.specs.Answer.{shown_copy};

use crate::ending::{ErrorCause, IgnoreCause, MessageEnding, Unsent};
use crate::part::MessagePart;
use crate::seen::{
    SeenEvent, cause_at, command_in, datum_heard, event_bus, is_gap_event, is_invalid, is_on,
};
use bus_terminal::{CopiedAnswer, Event};
use bus_word::{Bus, Command, Kind, Raw};
use terminal_state::Ended;

/// The other terminals whose status words are to come, in order.
#[derive(Clone, Copy)]
pub struct ToAnswer {
    pub next: Option<u8>,
    pub last: Option<u8>,
}

/// What is kept of a message that is not over, its data words aside.
#[derive(Clone, Copy)]
pub struct MessageState {
    pub bus: Bus,
    /// Its first command.
    pub command: Command,
    /// In a transfer between two terminals the second one.
    pub second: Option<Command>,
    /// The status word of the terminal.
    pub status: Option<u16>,
    pub end: MessageEnding,
    /// Why the reply that the terminal owes is not sent, or not whole.
    pub unsent: Option<Unsent>,
    /// How many data words the terminal expects.
    pub expected: u8,
    /// Nothing followed its first command.
    pub is_fresh: bool,
    /// The last that came on its bus was a gap.
    pub is_after_gap: bool,
    /// A word that is not valid, or noise, came.
    pub has_invalid: bool,
    /// A command came within it.
    pub has_within: bool,
    pub to_answer: ToAnswer,
}

/// The address of a command, if it is that of a terminal other than the `own` one.
fn other_of(own: u8, command: Command) -> Option<u8>
    ensures { result ≡ other_of own command }
{
    if command.address() == own || command.is_broadcast() {
        None
    } else {
        Some(command.address())
    }
}

/// The other terminals that answer a message of these commands.
fn pair_for(own: u8, second: Option<Command>, command: Command) -> ToAnswer
    ensures { result ≡ pair_for own second command }
{
    match second {
        None => ToAnswer {
            next: other_of(own, command),
            last: None,
        },
        Some(second) => match other_of(own, second) {
            Some(address) => ToAnswer {
                next: Some(address),
                last: other_of(own, command),
            },
            None => ToAnswer {
                next: other_of(own, command),
                last: None,
            },
        },
    }
}

impl ToAnswer {
    /// Without the first.
    fn tail(self) -> ToAnswer
        ensures { result ≡ tail_pair self }
    {
        match self.next {
            Some(_) => ToAnswer {
                next: self.last,
                last: None,
            },
            None => ToAnswer {
                next: None,
                last: None,
            },
        }
    }
}

/// How a message stands after an end: in error for this cause.
fn end_after(before: MessageEnding, cause: ErrorCause, ended: Ended) -> MessageEnding
    ensures { (ds : List ℕ) → result ≡ end_after before cause (ending_of ended ds) }
{
    match ended {
        Ended::Nothing => before,
        Ended::Badly(_) => MessageEnding::InError(cause),
        Ended::Illegal(_) => MessageEnding::Illegal,
        Ended::Blocked(_, _) => MessageEnding::Busy,
        Ended::Done(_, _) => MessageEnding::Done,
    }
}

/// The same where too few words came before a gap, and one behind it.
fn with_gap_within(has_gap_within: bool, end: MessageEnding) -> MessageEnding
    ensures { result ≡ with_gap_within has_gap_within end }
{
    match end {
        MessageEnding::InError(ErrorCause::WordCount) => if has_gap_within {
            MessageEnding::InError(ErrorCause::GapWithin)
        } else {
            end
        },
        _ => end,
    }
}

/// A message that goes on is superseded by a start on the other bus.
fn superseded_end(end: MessageEnding) -> MessageEnding
    ensures { result ≡ superseded_end end }
{
    match end {
        MessageEnding::Open => MessageEnding::Superseded,
        _ => end,
    }
}

/// How many data words the terminal expects.
fn expected_words(own: u8, second: Option<Command>, command: Command) -> u8
    ensures { result ≡ expected_words own second command }
{
    match second {
        Some(second) => if second.address() == own {
            0
        } else {
            command.expected()
        },
        None => command.expected(),
    }
}

/// The status word after what is answered.
fn status_after(answer: &CopiedAnswer, before: Option<u16>) -> Option<u16>
    ensures { result ≡ newer (status_answered (shown_copy answer.now)) before }
{
    match answer {
        CopiedAnswer::Sends(sent) => match sent.kind {
            Kind::Com => Some(sent.bits),
            Kind::Dat => before,
        },
        _ => before,
    }
}

/// The data word that came, or that the terminal sent.
pub fn datum_told(seen: &SeenEvent) -> Option<u16>
    ensures { (ds : List ℕ) → result ≡ datum_told (facts_in seen.now ds) }
{
    match datum_heard(seen.event) {
        Some(bits) => Some(bits),
        None => match &seen.answer {
            CopiedAnswer::Sends(sent) => match sent.kind {
                Kind::Com => None,
                Kind::Dat => Some(sent.bits),
            },
            _ => None,
        },
    }
}

/// Whether there is one.
fn has_datum(seen: &SeenEvent) -> bool
    ensures { (ds : List ℕ) → result ≡ has_datum (facts_in seen.now ds) }
{
    datum_told(seen).is_some()
}

/// Whether a message on this bus is to be answered, and no reply began.
fn lacks(bus: Bus, seen: &SeenEvent) -> bool
    ensures { (ds : List ℕ) → result ≡ lacks bus (facts_in seen.now ds) }
{
    seen.ended.is_answered(false) && !seen.engaged.on(bus)
}

/// Whether an event drops the rest of the reply of a message on this bus.
fn drops(bus: Bus, seen: &SeenEvent) -> bool
    ensures { (ds : List ℕ) → result ≡ drops bus (facts_in seen.now ds) }
{
    seen.starts && (!is_on(bus, event_bus(seen.event)) && is_on(bus, seen.replied))
}

/// Whether this is a slot.
fn is_slot(event: Event) -> bool
    ensures { result ≡ is_slot event }
{
    matches!(event, Event::Slot)
}

/// How a message stands with its first command.
fn first_end(starts: bool, is_ours: bool, is_unheard: bool) -> MessageEnding
    ensures { result ≡ first_end starts is_ours is_unheard }
{
    if starts {
        MessageEnding::Open
    } else if is_ours {
        MessageEnding::Ignored(if is_unheard {
            IgnoreCause::Reply
        } else {
            IgnoreCause::NoGap
        })
    } else {
        MessageEnding::Other
    }
}

impl MessageState {
    /// What is kept with the first command.
    pub fn begin(
        own: u8,
        broadcast: bool,
        bus: Bus,
        word: Raw,
        starts: bool,
        is_unheard: bool,
    ) -> MessageState
        ensures { result ≡ begun_state own broadcast bus word starts is_unheard }
    {
        let command = Command::of(word.bits);
        MessageState {
            bus,
            command,
            second: None,
            status: None,
            end: first_end(starts, word.is_for(own, broadcast), is_unheard),
            unsent: None,
            expected: expected_words(own, None, command),
            is_fresh: true,
            is_after_gap: false,
            has_invalid: false,
            has_within: false,
            to_answer: pair_for(own, None, command),
        }
    }

    /// Whether a data word comes, or is sent, after so many, where the terminal expects more.
    fn is_short(&self, seen: &SeenEvent, count: usize) -> bool
        ensures { (ds : List ℕ) → result ≡ (has_datum (facts_in seen.now ds) && nat_lt count self.now.expected) }
    {
        has_datum(seen) && count < usize::from(self.expected)
    }

    /// How it stands after an event, before what the event ends.
    fn end_before(&self, seen: &SeenEvent, count: usize) -> MessageEnding
        ensures { (ds : List ℕ) → result ≡ (if seen.now.starts then Open else with_gap_within (has_datum (facts_in seen.now ds) && nat_lt count self.now.expected) self.now.«end») }
    {
        if seen.starts {
            MessageEnding::Open
        } else {
            with_gap_within(self.is_short(seen, count), self.end)
        }
    }

    /// How it stands after an event, of which so many data words came before.
    fn end_after(&self, seen: &SeenEvent, count: usize) -> MessageEnding
        ensures { (ds : List ℕ) → result ≡ end_after (if seen.now.starts then Open else with_gap_within (has_datum (facts_in seen.now ds) && nat_lt count self.now.expected) self.now.«end») (cause_at seen.now.event seen.now.awaits self.now.has_invalid self.now.has_within) (ending_of seen.now.ended ds) }
    {
        let cause = cause_at(seen.event, seen.awaits, self.has_invalid, self.has_within);
        end_after(self.end_before(seen, count), cause, seen.ended)
    }

    /// Its second command after an event of this part.
    fn second_after(&self, event: Event, part: MessagePart) -> Option<Command>
        ensures { result ≡ (if is_second_command part then Some (bits_of_word event) else self.now.second) }
    {
        if part.is_second_command() {
            Some(command_in(event))
        } else {
            self.second
        }
    }

    /// Why its reply is missing, after an event.
    fn unsent_after(&self, seen: &SeenEvent) -> Option<Unsent>
        ensures { (ds : List ℕ) → result ≡ (if lacks self.now.bus (facts_in seen.now ds) then Some ShutDown else self.now.unsent) }
    {
        if lacks(self.bus, seen) {
            Some(Unsent::ShutDown)
        } else {
            self.unsent
        }
    }

    /// How many data words the terminal expects after an event of this part.
    fn expected_after(&self, own: u8, event: Event, part: MessagePart) -> u8
        ensures { result ≡ (if is_second_command part then expected_words own (Some (bits_of_word event)) self.now.command else self.now.expected) }
    {
        if part.is_second_command() {
            expected_words(own, Some(command_in(event)), self.command)
        } else {
            self.expected
        }
    }

    /// Whether the last that came on its bus was a gap, after an event.
    fn is_after_gap_after(&self, seen: &SeenEvent) -> bool
        ensures { result ≡ (if is_slot seen.now.event then self.now.is_after_gap else is_gap_event seen.now.event) }
    {
        if is_slot(seen.event) {
            self.is_after_gap
        } else {
            is_gap_event(seen.event)
        }
    }

    /// The other terminals that are to answer after an event of this part.
    fn to_answer_after(&self, own: u8, event: Event, part: MessagePart) -> ToAnswer
        ensures { result ≡ (if is_second_command part then pair_for own (Some (bits_of_word event)) self.now.command else if is_status part then tail_pair self.now.to_answer else self.now.to_answer) }
    {
        if part.is_second_command() {
            pair_for(own, Some(command_in(event)), self.command)
        } else if part.is_status() {
            self.to_answer.tail()
        } else {
            self.to_answer
        }
    }

    /// What is kept after an event that belongs to it, of which so many data words came before.
    pub fn after(self, own: u8, seen: &SeenEvent, part: MessagePart, count: usize) -> MessageState
        ensures { (ds : List ℕ) → result ≡ state_after own (facts_in seen.now ds) part count self }
    {
        MessageState {
            bus: self.bus,
            command: self.command,
            second: self.second_after(seen.event, part),
            status: status_after(&seen.answer, self.status),
            end: self.end_after(seen, count),
            unsent: self.unsent_after(seen),
            expected: self.expected_after(own, seen.event, part),
            is_fresh: false,
            is_after_gap: self.is_after_gap_after(seen),
            has_invalid: is_invalid(seen.event) || self.has_invalid,
            has_within: part.is_command_within() || self.has_within,
            to_answer: self.to_answer_after(own, seen.event, part),
        }
    }

    /// How it ended, where it is over with an event.
    fn end_closed(&self, seen: &SeenEvent) -> MessageEnding
        ensures { (ds : List ℕ) → result ≡ (state_closed (facts_in seen.now ds) self.now).«end» }
    {
        if is_on(self.bus, event_bus(seen.event)) {
            end_after(
                self.end,
                cause_at(seen.event, seen.awaits, false, false),
                seen.ended,
            )
        } else if seen.starts {
            superseded_end(self.end)
        } else {
            self.end
        }
    }

    /// Why its reply is missing or cut, where it is over with an event.
    fn unsent_closed(&self, seen: &SeenEvent) -> Option<Unsent>
        ensures { (ds : List ℕ) → result ≡ (if drops self.now.bus (facts_in seen.now ds) then Some Dropped else self.now.unsent) }
    {
        if drops(self.bus, seen) {
            Some(Unsent::Dropped)
        } else {
            self.unsent
        }
    }

    /// What is told of it, where it is over with an event.
    pub fn closed(self, seen: &SeenEvent) -> MessageState
        ensures { (ds : List ℕ) → result ≡ state_closed (facts_in seen.now ds) self }
    {
        MessageState {
            end: self.end_closed(seen),
            unsent: self.unsent_closed(seen),
            ..self
        }
    }

    /// Whether a command on its bus is the second one of a transfer.
    pub fn takes_second(&self, command: Command) -> bool
        ensures { result ≡ takes_second_in command self.now }
    {
        self.is_fresh
            && self.command.is_receive()
            && command.transmit()
            && !command.is_broadcast()
            && command.address() != self.command.address()
    }

    /// Whether a word of command sync on its bus is the status word of another terminal, as far as it tells.
    pub fn takes_status(&self, command: Command) -> bool
        ensures { result ≡ takes_status_in command self.now }
    {
        let is_next = match self.to_answer.next {
            Some(address) => address == command.address(),
            None => false,
        };
        self.is_after_gap && (is_next && command.bits() & 0x02e0 == 0)
    }
}
