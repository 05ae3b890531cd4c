//! Messages by their times: what is heard of the silences between them.
ghost use Rattle.std.specs.Prelude.{◌≡◌, ◌-◌, ◌^◌, min};
ghost use Rattle.monitor_tables.specs.Messages.{is_meant_command, is_own_status, first_or_second, field_words, message_words, message_replies, commands_end, latest_end, words_end, is_awaiting, is_asked, sent_no_status, recovery_with, second_recovery, message_recovery, may_be_unheard, is_last_unheard, may_be_silent, ends_in_reply, message_last, no_messages, last_message, last_after, message_known, words_of_last, end_of_last, commands_of_last, is_heard_before, begins_within, has_unclear_begin, is_above, gap_at_latest, has_surely_ended, went_on, may_go_on, may_have_ended, gap_between, late_gap, is_pause_between, heard_above, silent_until, is_long_over, is_followed, has_slot_behind, has_slot_between, has_given_up, may_have_given_up, second_between, maybe_between, silence_between, silence_behind};

use crate::hearing::{is_surely_before, left_open};
use crate::messages::{MessageRow, is_own_status};
use bus_word::{Bus, Command};
use monitor_cells::{
    HeardItem, LONGEST_WAIT, RecordingSetup, SHORTEST_WAIT, Silence, WORD_TIME, becomes_longer,
    gap_if, has_lasted, has_passed, is_before_end, is_meant_for, is_over_before, later_end,
    may_be_deaf, maybe_gap_if, maybe_silent_if, other_bus, pause_if, recovered_at, slot_if,
    word_end,
};
use terminal_state::same_bus;

/// The last message on a bus.
#[derive(Clone, Copy)]
pub struct LastMessage {
    /// When it begins.
    begin: u64,
    /// What the last digit of that time counts.
    unit: u64,
    /// When its command words end.
    commands_end: u64,
    /// When its words have ended at the earliest.
    words_end: u64,
    /// When it has ended at the latest.
    end: u64,
    /// Whether a command of it is for the terminal, or for all.
    is_asked: bool,
    /// Whether the terminal waits for the status word of another.
    is_awaiting: bool,
    /// Whether the terminal sent no status word, though a command is for it.
    sent_no_status: bool,
    /// Whether that may be since it has not heard the message.
    may_be_unheard: bool,
    /// Whether the last words are the reply of the terminal.
    ends_in_reply: bool,
}

/// The last message on each bus.
#[derive(Clone, Copy)]
pub struct MessageTimes {
    /// What they are read by.
    pub setup: RecordingSetup,
    /// When the last one of all begins.
    pub begin: u64,
    /// On which bus that is, if there was one.
    above: Option<Bus>,
    /// When all have ended at the latest, if there were any.
    end: Option<u64>,
    /// Until when the terminal may be deaf, behind a reset or a self test, if it ever may.
    recovering: Option<u64>,
    a: Option<LastMessage>,
    b: Option<LastMessage>,
}

/// One word, if there is one.
fn field_words(word: Option<u16>) -> u64
    ensures { result ≡ field_words word }
{
    match word {
        Some(_) => 1,
        None => 0,
    }
}

/// Whether it is a command word for the terminal of this address, or for all.
fn is_meant_command(address: u8, command: Option<u16>) -> bool
    ensures { result ≡ is_meant_command address command }
{
    match command {
        Some(bits) => is_meant_for(address, bits),
        None => false,
    }
}

/// The first word, or else the second.
fn first_or_second(first: Option<u16>, second: Option<u16>) -> Option<u16>
    ensures { result ≡ first_or_second first second }
{
    match first {
        Some(bits) => Some(bits),
        None => second,
    }
}

/// How many words a message has.
fn message_words(row: &MessageRow) -> u64
    ensures { result ≡ min (message_words row.now) (2 ^ 64 - 1) }
{
    let others = 1 + field_words(row.command2) + field_words(row.status) + field_words(row.status2);
    (row.words.len() as u64).saturating_add(others)
}

/// When the words of a message have ended at the earliest: none comes later than right behind the one before it.
fn words_end(row: &MessageRow) -> u64
    ensures { result ≡ words_end row.now }
{
    let sent = message_words(row).saturating_mul(WORD_TIME);
    row.time.nanos.saturating_add(sent)
}

/// When the command words of a message end.
fn commands_end(row: &MessageRow) -> u64
    ensures { result ≡ commands_end row.now }
{
    let sent = (1 + field_words(row.command2)).saturating_mul(WORD_TIME);
    row.time.nanos.saturating_add(sent)
}

/// When a message ends at the latest: each of its words lasts 20 microseconds, and before a status word the bus is silent for no longer
/// than no response.
fn latest_end(setup: &RecordingSetup, row: &MessageRow) -> u64
    ensures { result ≡ latest_end setup.now row.now }
{
    let replies = field_words(row.status) + field_words(row.status2);
    let sent = message_words(row).saturating_mul(WORD_TIME);
    let silent = setup.no_response.saturating_mul(replies);
    row.time.nanos.saturating_add(sent.saturating_add(silent))
}

/// Whether the terminal waits for the status word of another behind the commands of a message.
fn is_awaiting(address: u8, row: &MessageRow) -> bool
    ensures { result ≡ is_awaiting address row.now }
{
    row.command2.is_some()
        && is_meant_for(address, row.command)
        && row.status.is_none()
        && row.words.is_empty()
}

/// Whether a command of a message is for the terminal, or for all.
fn is_asked(address: u8, row: &MessageRow) -> bool
    ensures { result ≡ is_asked address row.now }
{
    is_meant_for(address, row.command) || is_meant_command(address, row.command2)
}

/// Whether the terminal sent no status word, though a command is for it.
fn sent_no_status(address: u8, row: &MessageRow) -> bool
    ensures { result ≡ sent_no_status address row.now }
{
    is_asked(address, row)
        && !is_own_status(address, row.status)
        && !is_own_status(address, row.status2)
}

/// How long the terminal may be deaf behind a message with this command: it replied to that, or that is to all.
fn recovery_with(setup: &RecordingSetup, row: &MessageRow, command: u16) -> u64
    ensures { result ≡ recovery_with setup.now row.now command }
{
    let to = Command::of(command);
    let has_replied = to.address() == setup.address && !sent_no_status(setup.address, row);
    if to.is_broadcast() || has_replied {
        setup.recovery_of(command)
    } else {
        0
    }
}

/// The same of the second command, if there is one.
fn second_recovery(setup: &RecordingSetup, row: &MessageRow, command: Option<u16>) -> u64
    ensures { result ≡ second_recovery setup.now row.now command }
{
    match command {
        Some(command) => recovery_with(setup, row, command),
        None => 0,
    }
}

/// How long the terminal may be deaf behind a message.
fn message_recovery(setup: &RecordingSetup, row: &MessageRow) -> u64
    ensures { result ≡ message_recovery setup.now row.now }
{
    recovery_with(setup, row, row.command).max(second_recovery(setup, row, row.command2))
}

/// Whether the last words of a message are the reply of the terminal.
fn ends_in_reply(address: u8, row: &MessageRow) -> bool
    ensures { result ≡ ends_in_reply address row.now }
{
    is_own_status(address, first_or_second(row.status2, row.status))
}

/// Whether the terminal may not have heard the last message on a bus.
fn is_last_unheard(last: &Option<LastMessage>) -> bool
    ensures { result ≡ is_last_unheard last.now }
{
    match last {
        Some(message) => message.may_be_unheard,
        None => false,
    }
}

/// When the words of the last message on a bus have ended at the earliest, if there was one.
fn words_of_last(last: &Option<LastMessage>) -> Option<u64>
    ensures { result ≡ words_of_last last.now }
{
    match last {
        Some(message) => Some(message.words_end),
        None => None,
    }
}

/// When it has ended at the latest.
fn end_of_last(last: &Option<LastMessage>) -> Option<u64>
    ensures { result ≡ end_of_last last.now }
{
    match last {
        Some(message) => Some(message.end),
        None => None,
    }
}

/// When its command words have ended.
fn commands_of_last(last: &Option<LastMessage>) -> Option<u64>
    ensures { result ≡ commands_of_last last.now }
{
    match last {
        Some(message) => Some(message.commands_end),
        None => None,
    }
}

/// Up to when a bus is silent, before a message.
fn silent_until(row: &MessageRow, bus: Bus) -> u64
    ensures { result ≡ silent_until row.now bus }
{
    if same_bus(bus, row.bus) {
        row.time.nanos
    } else {
        word_end(row.time.nanos)
    }
}

/// Whether the terminal may have given up by this time, or not, waiting for the status word of another.
fn may_have_given_up(last: &Option<LastMessage>, time: u64) -> bool
    ensures { result ≡ may_have_given_up last.now time }
{
    match last {
        Some(message) => {
            message.is_awaiting
                && has_lasted(Some(message.end), SHORTEST_WAIT, time)
                && !has_passed(Some(message.end), LONGEST_WAIT, time)
        }
        None => false,
    }
}

/// Whether the first command of a message is heard before this end, if there was one.
fn is_heard_before(row: &MessageRow, end: Option<u64>) -> bool
    ensures { result ≡ is_heard_before row.now end }
{
    match end {
        Some(end) => word_end(row.time.nanos) < end,
        None => false,
    }
}

/// By when a terminal has taken a silence for a gap: when it would have to reply, at the latest.
fn gap_at_latest(setup: &RecordingSetup) -> u64
    ensures { result ≡ gap_at_latest setup.now }
{
    setup.gap.max(setup.no_response)
}

impl MessageTimes {
    /// No message yet.
    pub fn new(setup: RecordingSetup) -> MessageTimes
        ensures { result ≡ no_messages setup }
    {
        MessageTimes {
            setup,
            begin: 0,
            above: None,
            end: None,
            recovering: None,
            a: None,
            b: None,
        }
    }

    /// The last message on a bus, if there was one.
    fn last_message(&self, bus: Bus) -> Option<LastMessage>
        ensures { result ≡ last_message self.now bus }
    {
        match bus {
            Bus::A => self.a,
            Bus::B => self.b,
        }
    }

    /// Whether a message begins before the words of the one above it on its bus have ended, or between the commands of the one above it on the
    /// other bus.
    pub fn begins_within(&self, row: &MessageRow) -> bool
        ensures { result ≡ begins_within self.now row.now }
    {
        is_before_end(row.time.nanos, words_of_last(&self.last_message(row.bus)))
            || is_heard_before(
                row,
                commands_of_last(&self.last_message(other_bus(row.bus))),
            )
    }

    /// Whether the order of its first command and of the commands of the last message on the other bus decides, and times don't tell it.
    pub fn has_unclear_begin(&self, row: &MessageRow) -> bool
        ensures { result ≡ has_unclear_begin self.now row.now }
    {
        match self.last_message(other_bus(row.bus)) {
            Some(message) => {
                message.is_asked
                    && is_asked(self.setup.address, row)
                    && !is_surely_before(
                        message.commands_end,
                        left_open(3, row.time.unit, message.unit),
                        word_end(row.time.nanos),
                    )
            }
            None => false,
        }
    }

    /// Whether a pause is heard before a message that begins at this time.
    fn is_pause_between(&self, time: u64) -> bool
        ensures { result ≡ is_pause_between self.now time }
    {
        has_passed(self.end, self.setup.pause_time(), time)
    }

    /// When the first command of the message above was heard.
    fn heard_above(&self) -> u64
        ensures { result ≡ heard_above self.now }
    {
        word_end(self.begin)
    }

    /// Whether the last message on a bus has surely been over for longer than no response by this time, and was not when the message above
    /// was heard.
    fn is_long_over(&self, message: &LastMessage, time: u64) -> bool
        ensures { result ≡ is_long_over self.now message.now time }
    {
        becomes_longer(
            Some(message.end),
            self.setup.no_response,
            self.heard_above(),
            time,
        )
    }

    /// Whether a reply is over since the next message begins on its bus.
    fn is_followed(&self, message: &LastMessage, is_here: bool) -> bool
        ensures { result ≡ is_followed self.now message.now is_here }
    {
        message.ends_in_reply
            && is_here
            && !has_passed(
                Some(message.end),
                self.setup.no_response,
                self.heard_above(),
            )
    }

    /// Whether there is a slot in which the terminal sends nothing behind the last message on a bus.
    fn has_slot_behind(
        &self,
        bus: Bus,
        last: &Option<LastMessage>,
        is_here: bool,
        time: u64,
    ) -> bool
        ensures { result ≡ has_slot_behind self.now bus last.now is_here time }
    {
        match last {
            Some(message) => {
                let other = self.last_message(other_bus(bus));
                let has_heard = !message.may_be_unheard;
                let is_silent = (message.sent_no_status && has_heard) || message.ends_in_reply;
                ((is_silent && self.is_long_over(message, time))
                    || self.is_followed(message, is_here))
                    && is_over_before(commands_of_last(&other), word_end(message.begin))
                    && is_over_before(end_of_last(&other), time)
            }
            None => false,
        }
    }

    /// The same before a message.
    fn has_slot_between(&self, row: &MessageRow, bus: Bus) -> bool
        ensures { result ≡ has_slot_between self.now row.now bus }
    {
        let last = self.last_message(bus);
        let is_here = same_bus(bus, row.bus);
        self.has_slot_behind(bus, &last, is_here, silent_until(row, bus))
    }

    /// Whether there is a slot behind the message above in which the terminal may be silent, since it may not have heard the message.
    fn may_be_silent(&self) -> bool
        ensures { result ≡ may_be_silent self.now }
    {
        match self.above {
            Some(bus) => is_last_unheard(&self.last_message(bus)),
            None => false,
        }
    }

    /// Whether the terminal has given up by this time waiting for the status word of another.
    fn has_given_up(&self, last: &Option<LastMessage>, time: u64) -> bool
        ensures { result ≡ has_given_up self.now last.now time }
    {
        match last {
            Some(message) => {
                message.is_awaiting
                    && becomes_longer(Some(message.end), LONGEST_WAIT, self.heard_above(), time)
            }
            None => false,
        }
    }

    /// Whether the message above is on this bus.
    fn is_above(&self, bus: Bus) -> bool
        ensures { result ≡ is_above self.now bus }
    {
        match self.above {
            Some(on) => same_bus(bus, on),
            None => false,
        }
    }

    /// Whether the last message on a bus has surely ended with a gap before a message.
    fn has_surely_ended(&self, row: &MessageRow, bus: Bus) -> bool
        ensures { result ≡ has_surely_ended self.now row.now bus }
    {
        let end = end_of_last(&self.last_message(bus));
        same_bus(bus, row.bus)
            || has_passed(end, gap_at_latest(&self.setup), silent_until(row, bus))
    }

    /// Whether it is the one above, and its gap may be heard later.
    fn may_go_on(&self, row: &MessageRow, bus: Bus) -> bool
        ensures { result ≡ may_go_on self.now row.now bus }
    {
        self.is_above(bus) && !self.has_surely_ended(row, bus)
    }

    /// Whether its gap may be heard before, too.
    fn may_have_ended(&self, row: &MessageRow, bus: Bus) -> bool
        ensures { result ≡ may_have_ended self.now row.now bus }
    {
        let end = words_of_last(&self.last_message(bus));
        self.may_go_on(row, bus) && has_passed(end, self.setup.gap, silent_until(row, bus))
    }

    /// Whether the last message on a bus had not surely ended with a gap when the message above was heard.
    fn went_on(&self, bus: Bus) -> bool
        ensures { result ≡ went_on self.now bus }
    {
        let last = self.last_message(bus);
        last.is_some()
            && !has_passed(
                end_of_last(&last),
                gap_at_latest(&self.setup),
                self.heard_above(),
            )
    }

    /// The gap on a bus before a message, if there is one.
    fn gap_between(&self, row: &MessageRow, bus: Bus) -> Option<HeardItem>
        ensures { result ≡ gap_between self.now row.now bus }
    {
        let has_ended = self.went_on(bus) && self.has_surely_ended(row, bus);
        gap_if(has_ended || self.is_pause_between(row.time.nanos), bus)
    }

    /// The gap of the message above that may be heard only behind the first command of a message, on the other bus. If no command of that
    /// is for the terminal, it may come later still, or never.
    pub fn late_gap(&self, row: &MessageRow) -> Option<HeardItem>
        ensures { result ≡ late_gap self.now row.now }
    {
        let other = other_bus(row.bus);
        let may_go_on = self.may_go_on(row, other);
        if is_asked(self.setup.address, row) {
            gap_if(may_go_on, other)
        } else {
            maybe_gap_if(may_go_on, other)
        }
    }

    /// The second gap on a bus before a message, if there is one.
    fn second_between(&self, row: &MessageRow, bus: Bus) -> Option<HeardItem>
        ensures { result ≡ second_between self.now row.now bus }
    {
        let last = self.last_message(bus);
        let has_given_up = self.has_given_up(&last, silent_until(row, bus));
        gap_if(has_given_up || self.is_pause_between(row.time.nanos), bus)
    }

    /// The gap that may have come: a second one, or that of the message above.
    fn maybe_between(&self, row: &MessageRow, bus: Bus) -> Option<HeardItem>
        ensures { result ≡ maybe_between self.now row.now bus }
    {
        let last = self.last_message(bus);
        let has_given_up = may_have_given_up(&last, silent_until(row, bus));
        maybe_gap_if(has_given_up || self.may_have_ended(row, bus), bus)
    }

    /// What is heard of the silence before a message.
    pub fn silence_between(&self, row: &MessageRow) -> Silence
        ensures { result ≡ silence_between self.now row.now }
    {
        let own = row.bus;
        let other = other_bus(own);
        let is_pause = self.is_pause_between(row.time.nanos);
        Silence {
            maybe_silent: maybe_silent_if(self.may_be_silent()),
            other_gap: self.gap_between(row, other),
            own_gap: self.gap_between(row, own),
            slot: slot_if(self.has_slot_between(row, other) || self.has_slot_between(row, own)),
            other_second: self.second_between(row, other),
            own_second: self.second_between(row, own),
            pause: pause_if(is_pause),
            other_maybe: self.maybe_between(row, other),
            own_maybe: self.maybe_between(row, own),
        }
    }

    /// What is heard of the silence behind the last message, which goes on.
    pub fn silence_behind(&self) -> Silence
        ensures { result ≡ silence_behind self.now }
    {
        let forever = u64::MAX;
        let is_slot = self.has_slot_behind(Bus::A, &self.a, false, forever)
            || self.has_slot_behind(Bus::B, &self.b, false, forever);
        Silence {
            maybe_silent: None,
            other_gap: gap_if(self.is_above(Bus::A), Bus::A),
            own_gap: gap_if(self.is_above(Bus::B), Bus::B),
            slot: slot_if(is_slot),
            other_second: None,
            own_second: None,
            pause: None,
            other_maybe: None,
            own_maybe: None,
        }
    }

    /// Whether the terminal may not have heard a message.
    fn may_be_unheard(&self, row: &MessageRow) -> bool
        ensures { result ≡ may_be_unheard self.now row.now }
    {
        sent_no_status(self.setup.address, row) && may_be_deaf(self.recovering, row.time.nanos)
    }

    /// A message, as the last one on its bus.
    fn message_last(&self, row: &MessageRow) -> LastMessage
        ensures { result ≡ message_last self.now row.now }
    {
        let setup = &self.setup;
        LastMessage {
            begin: row.time.nanos,
            unit: row.time.unit,
            commands_end: commands_end(row),
            words_end: words_end(row),
            end: latest_end(setup, row),
            is_asked: is_asked(setup.address, row),
            is_awaiting: is_awaiting(setup.address, row),
            sent_no_status: sent_no_status(setup.address, row),
            may_be_unheard: self.may_be_unheard(row),
            ends_in_reply: ends_in_reply(setup.address, row),
        }
    }

    /// The last message on a bus after one more.
    fn last_after(&self, row: &MessageRow, bus: Bus) -> Option<LastMessage>
        ensures { result ≡ last_after self.now row.now bus }
    {
        if same_bus(bus, row.bus) {
            Some(self.message_last(row))
        } else {
            self.last_message(bus)
        }
    }

    /// Takes one message more.
    pub fn take(&mut self, row: &MessageRow)
        ensures { self.new ≡ message_known self.old row.now }
    {
        let end = latest_end(&self.setup, row);
        let recovery = message_recovery(&self.setup, row);
        *self = MessageTimes {
            setup: self.setup,
            begin: row.time.nanos,
            above: Some(row.bus),
            end: later_end(self.end, Some(end)),
            recovering: recovered_at(self.recovering, end, recovery),
            a: self.last_after(row, Bus::A),
            b: self.last_after(row, Bus::B),
        };
    }
}
