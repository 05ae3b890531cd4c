//! What is heard on two buses, by the last word on each.
ghost use Rattle.std.specs.Prelude.{◌≡◌};
ghost use Rattle.monitor_cells.specs.Listening.{word_end, has_passed, has_lasted, later_end, recovery_of, recovered_at, may_be_deaf, was_unheard, is_unheard_behind, recovery_behind, recovery_from, may_be_silent_on, is_unheard_on, is_any_command, ends_unheard, is_over_before, is_before_end, is_own_word, is_reply, counts, heard_time, end_of_word, time_of, silent_since, speaker_of, speaker_at, speaker_with, late_by, heard_by, speaker_seen, heard_seen, is_meant_for, is_contiguous, is_open_at, is_open_behind, last_on, with_last, listening_first, latest_time, row_heard, row_last, row_known, row_time, is_own_row, is_open_row, is_command_row, end_on, is_open_last, is_open_on, is_command_for, was_command_for, becomes_longer, falls_silent, may_be_gap, was_unclear_gap, is_unclear_gap, is_pause_before, is_silent_reply, is_reply_over, has_slot_on, gives_up, may_give_up, other_until, first_gap_on, other_gap_on, second_on, maybe_on, silence_before, last_silence};

use crate::cells::{WordSync, kind_of_sync};
use crate::heard::{HeardItem, is_command_sync, other_bus};
use crate::seen::{SeenWord, WordRow};
use crate::setup::{LONGEST_WAIT, RecordingSetup, SHORTEST_WAIT, TOLERANCE, WORD_TIME};
use crate::silence::{Silence, gap_if, maybe_gap_if, maybe_silent_if, pause_if, slot_if};
use bus_terminal::Sent;
use bus_word::{Bus, Command, mode};

/// Whose words come on a bus, as long as no gap comes.
#[derive(Clone, Copy)]
pub enum Speaker {
    /// Not those of the terminal.
    Another,
    /// Its reply.
    Terminal,
    /// What it sends too late for a reply.
    LateTerminal,
}

/// The last word on a bus.
#[derive(Clone, Copy)]
pub struct LastWord {
    /// When its sync begins.
    pub begin: u64,
    /// What it was heard as.
    pub heard: HeardItem,
    /// Whose data words follow it without a gap.
    pub speaker: Speaker,
    /// Whether a message to the terminal, or to all, is open behind it.
    pub is_open: bool,
    /// Whether the terminal may not have heard that message.
    pub may_be_unheard: bool,
}

/// When a word ends that begins at this time.
pub fn word_end(time: u64) -> u64
    ensures { result ≡ word_end time }
{
    time.saturating_add(WORD_TIME)
}

/// Whether a time is before this end, if there was one, by more than what rounding makes of it.
pub fn is_before_end(time: u64, end: Option<u64>) -> bool
    ensures { result ≡ is_before_end time end }
{
    match end {
        Some(end) => time.saturating_add(TOLERANCE) < end,
        None => false,
    }
}

/// The later of two ends.
pub fn later_end(first: Option<u64>, second: Option<u64>) -> Option<u64>
    ensures { result ≡ later_end first second }
{
    match (first, second) {
        (Some(first), Some(second)) => Some(first.max(second)),
        (Some(first), None) => Some(first),
        (None, second) => second,
    }
}

/// Whether more than this lies between an end, if there was one, and a time.
pub fn has_passed(end: Option<u64>, silence: u64, time: u64) -> bool
    ensures { result ≡ has_passed end silence time }
{
    match end {
        Some(end) => silence < time.saturating_sub(end),
        None => false,
    }
}

/// Whether this or more lies between an end, if there was one, and a time.
pub fn has_lasted(end: Option<u64>, silence: u64, time: u64) -> bool
    ensures { result ≡ has_lasted end silence time }
{
    match end {
        Some(end) => silence <= time.saturating_sub(end),
        None => false,
    }
}

/// Whether a silence behind an end, if there was one, becomes longer than this after one time, and not later than another.
pub fn becomes_longer(end: Option<u64>, silence: u64, from: u64, until: u64) -> bool
    ensures { result ≡ becomes_longer end silence from until }
{
    has_passed(end, silence, until) && !has_passed(end, silence, from)
}

/// Whether an end, if there was one, was before this time, by more than what rounding makes of it.
pub fn is_over_before(end: Option<u64>, time: u64) -> bool
    ensures { result ≡ is_over_before end time }
{
    match end {
        Some(end) => is_before_end(end, Some(time)),
        None => true,
    }
}

/// Up to when a terminal may be deaf, if it recovers for so long from an end on.
pub fn recovered_at(recovering: Option<u64>, end: u64, recovery: u64) -> Option<u64>
    ensures { result ≡ recovered_at recovering end recovery }
{
    if recovery == 0 {
        recovering
    } else {
        later_end(recovering, Some(end.saturating_add(recovery)))
    }
}

/// Whether a command that begins at this time may not be heard, while the terminal recovers.
pub fn may_be_deaf(recovering: Option<u64>, time: u64) -> bool
    ensures { result ≡ may_be_deaf recovering time }
{
    match recovering {
        Some(until) => time <= until,
        None => false,
    }
}

/// Whether a command is for the terminal of this address, or for all.
pub fn is_meant_for(address: u8, bits: u16) -> bool
    ensures { result ≡ is_meant_for address bits }
{
    let command = Command::of(bits);
    command.address() == address || command.address() == 31
}

/// Whether it is a word of the terminal.
fn is_own_word(heard: &HeardItem) -> bool
    ensures { result ≡ is_own_word heard.now }
{
    matches!(heard, HeardItem::Reply(_) | HeardItem::Late(..))
}

/// Whether it is a word of its reply.
fn is_reply(heard: &HeardItem) -> bool
    ensures { result ≡ is_reply heard.now }
{
    matches!(heard, HeardItem::Reply(_))
}

/// Whether what was heard is anything but a word that came too late.
fn counts(heard: &HeardItem) -> bool
    ensures { result ≡ counts heard.now }
{
    !matches!(heard, HeardItem::Late(..))
}

/// When a word that begins at this time is heard, or sent.
fn heard_time(heard: &HeardItem, time: u64) -> u64
    ensures { result ≡ heard_time heard.now time }
{
    if is_own_word(heard) {
        time
    } else {
        word_end(time)
    }
}

/// When the last word on a bus ends, if there was one.
fn end_of_word(last: &Option<LastWord>) -> Option<u64>
    ensures { result ≡ end_of_word last.now }
{
    match last {
        Some(word) => Some(word_end(word.begin)),
        None => None,
    }
}

/// When it was heard, or sent; 0 if there was none.
fn time_of(last: &Option<LastWord>) -> u64
    ensures { result ≡ time_of last.now }
{
    match last {
        Some(word) => heard_time(&word.heard, word.begin),
        None => 0,
    }
}

/// Since when the bus is silent. Nothing is heard of a silence behind a word that came too late.
fn silent_since(last: &Option<LastWord>) -> Option<u64>
    ensures { result ≡ silent_since last.now }
{
    match last {
        Some(word) if counts(&word.heard) => Some(word_end(word.begin)),
        _ => None,
    }
}

/// Whether a message to the terminal is open behind the last word on a bus.
fn is_open_last(last: &Option<LastWord>) -> bool
    ensures { result ≡ is_open_last last.now }
{
    match last {
        Some(word) => word.is_open,
        None => false,
    }
}

/// Whether the terminal may not have heard the message that is open behind the last word on a bus.
fn was_unheard(last: &Option<LastWord>) -> bool
    ensures { result ≡ was_unheard last.now }
{
    match last {
        Some(word) => word.may_be_unheard,
        None => false,
    }
}

/// Whether it is a command word, for whomever.
fn is_any_command(heard: &HeardItem) -> bool
    ensures { result ≡ is_any_command heard.now }
{
    matches!(heard, HeardItem::Word(_, WordSync::Command, _))
}

/// Whether it is a command word for the terminal of this address, or for all.
fn is_command_for(address: u8, heard: &HeardItem) -> bool
    ensures { result ≡ is_command_for address heard.now }
{
    match heard {
        HeardItem::Word(_, WordSync::Command, bits) => is_meant_for(address, *bits),
        _ => false,
    }
}

/// Whether the last word on a bus was one.
fn was_command_for(address: u8, last: &Option<LastWord>) -> bool
    ensures { result ≡ was_command_for address last.now }
{
    match last {
        Some(word) => is_command_for(address, &word.heard),
        None => false,
    }
}

/// The terminal, in time or too late.
fn speaker_of(is_late: bool) -> Speaker
    ensures { result ≡ speaker_of is_late }
{
    if is_late {
        Speaker::LateTerminal
    } else {
        Speaker::Terminal
    }
}

/// What is heard as a word of this speaker, who is late by so much, if at all.
fn heard_by(speaker: Speaker, late: u64, bus: Bus, sync: WordSync, bits: u16) -> HeardItem
    ensures { result ≡ heard_by speaker late bus sync bits }
{
    let kind = kind_of_sync(sync);
    match speaker {
        Speaker::Another => HeardItem::Word(bus, sync, bits),
        Speaker::Terminal => HeardItem::Reply(Sent { bus, kind, bits }),
        Speaker::LateTerminal => HeardItem::Late(Sent { bus, kind, bits }, late),
    }
}

impl RecordingSetup {
    /// How long the terminal may hear nothing behind its status word to this command: a reset, or one that begins a self test.
    pub fn recovery_of(&self, bits: u16) -> u64
        ensures { result ≡ recovery_of self.now bits }
    {
        let command = Command::of(bits);
        if !(command.transmit() && command.is_mode()) {
            return 0;
        }
        match command.code() {
            mode::RESET => self.after_reset,
            mode::SELF_TEST => self.after_self_test,
            _ => 0,
        }
    }

    /// Whose data words come at this time.
    fn speaker_at(&self, last: &Option<LastWord>, time: u64) -> Speaker
        ensures { result ≡ speaker_at self.now last.now time }
    {
        match last {
            Some(word) => {
                if has_passed(Some(word_end(word.begin)), self.gap, time) {
                    Speaker::Another
                } else {
                    word.speaker
                }
            }
            None => Speaker::Another,
        }
    }

    /// Whose word it is that begins at this time.
    fn speaker_with(&self, last: &Option<LastWord>, time: u64, sync: WordSync, bits: u16) -> Speaker
        ensures { result ≡ speaker_with self.now last.now time sync bits }
    {
        match sync {
            WordSync::Command => Speaker::Another,
            WordSync::Data => self.speaker_at(last, time),
            WordSync::Status if Command::of(bits).address() == self.address => {
                speaker_of(has_passed(end_of_word(last), self.no_response, time))
            }
            WordSync::Status => Speaker::Another,
        }
    }

    /// By how many nanoseconds the silence before a word that begins at this time is too long for a reply; 0 where it is not.
    fn late_by(&self, last: &Option<LastWord>, time: u64) -> u64
        ensures { result ≡ late_by self.now last.now time }
    {
        match last {
            Some(word) => time
                .saturating_sub(word_end(word.begin))
                .saturating_sub(self.no_response),
            None => 0,
        }
    }

    /// Who speaks after this word.
    fn speaker_seen(&self, last: &Option<LastWord>, time: u64, word: SeenWord) -> Speaker
        ensures { result ≡ speaker_seen self.now last.now time word }
    {
        match word {
            SeenWord::Noise => self.speaker_at(last, time),
            SeenWord::Valid(sync, bits) => self.speaker_with(last, time, sync, bits),
        }
    }

    /// What is heard as this word.
    fn heard_seen(&self, last: &Option<LastWord>, time: u64, bus: Bus, word: SeenWord) -> HeardItem
        ensures { result ≡ heard_seen self.now last.now time bus word }
    {
        match word {
            SeenWord::Noise => HeardItem::Noise(bus),
            SeenWord::Valid(sync, bits) => {
                let speaker = self.speaker_with(last, time, sync, bits);
                heard_by(speaker, self.late_by(last, time), bus, sync, bits)
            }
        }
    }

    /// Whether a word at this time follows the last one without a gap.
    fn is_contiguous(&self, last: &Option<LastWord>, time: u64) -> bool
        ensures { result ≡ is_contiguous self.now last.now time }
    {
        match last {
            Some(word) => {
                counts(&word.heard) && !has_passed(Some(word_end(word.begin)), self.gap, time)
            }
            None => false,
        }
    }

    /// Whether a message to the terminal is open at this time.
    fn is_open_at(&self, last: &Option<LastWord>, time: u64) -> bool
        ensures { result ≡ is_open_at self.now last.now time }
    {
        match last {
            Some(word) => {
                word.is_open && !has_passed(Some(word_end(word.begin)), self.pause_time(), time)
            }
            None => false,
        }
    }

    /// Whether one is open behind a word that begins at this time.
    fn is_open_behind(&self, last: &Option<LastWord>, time: u64, heard: &HeardItem) -> bool
        ensures { result ≡ is_open_behind self.now last.now time heard.now }
    {
        let is_open = self.is_open_at(last, time);
        match heard {
            HeardItem::Word(_, WordSync::Command, bits) => {
                is_meant_for(self.address, *bits) || (self.is_contiguous(last, time) && is_open)
            }
            HeardItem::Reply(sent) => !is_command_sync(sent.kind) && is_open,
            _ => is_open,
        }
    }
}

/// The last word on each bus.
#[derive(Clone, Copy)]
pub struct Listening {
    setup: RecordingSetup,
    a: Option<LastWord>,
    b: Option<LastWord>,
    /// Until when the terminal may be deaf, if it ever may.
    recovering: Option<u64>,
    /// How long it may be behind its status word to the last command to it; 0 if that is no reset, and begins no self test.
    recovery: u64,
}

impl Listening {
    /// None yet.
    pub fn new(setup: RecordingSetup) -> Listening
        ensures { result ≡ listening_first setup }
    {
        Listening {
            setup,
            a: None,
            b: None,
            recovering: None,
            recovery: 0,
        }
    }

    /// The last word on a bus, if there was one.
    fn last_on(&self, bus: Bus) -> Option<LastWord>
        ensures { result ≡ last_on self.now bus }
    {
        match bus {
            Bus::A => self.a,
            Bus::B => self.b,
        }
    }

    /// Sets the last word on a bus.
    fn set(&mut self, bus: Bus, word: LastWord)
        ensures { self.new ≡ with_last self.old bus word }
    {
        match bus {
            Bus::A => self.a = Some(word),
            Bus::B => self.b = Some(word),
        }
    }

    /// When the latest word was heard, or sent.
    fn latest_time(&self) -> u64
        ensures { result ≡ latest_time self.now }
    {
        time_of(&self.a).max(time_of(&self.b))
    }

    /// When the last word on a bus ends, if there was one.
    pub fn end_on(&self, bus: Bus) -> Option<u64>
        ensures { result ≡ end_on self.now bus }
    {
        end_of_word(&self.last_on(bus))
    }

    /// What is heard as the word of a row.
    fn row_heard(&self, row: &WordRow) -> HeardItem
        ensures { result ≡ row_heard self.now row.now }
    {
        let last = self.last_on(row.bus);
        self.setup
            .heard_seen(&last, row.time.nanos, row.bus, row.word)
    }

    /// When the word of a row is heard, or sent.
    pub fn row_time(&self, row: &WordRow) -> u64
        ensures { result ≡ row_time self.now row.now }
    {
        heard_time(&self.row_heard(row), row.time.nanos)
    }

    /// Whether the word of a row is one of the terminal.
    pub fn is_own_row(&self, row: &WordRow) -> bool
        ensures { result ≡ is_own_row self.now row.now }
    {
        is_own_word(&self.row_heard(row))
    }

    /// Whether it is one of another, behind which a message to the terminal is open.
    pub fn is_open_row(&self, row: &WordRow) -> bool
        ensures { result ≡ is_open_row self.now row.now }
    {
        let heard = self.row_heard(row);
        let last = self.last_on(row.bus);
        !is_own_word(&heard) && self.setup.is_open_behind(&last, row.time.nanos, &heard)
    }

    /// Whether it is a command to the terminal.
    pub fn is_command_row(&self, row: &WordRow) -> bool
        ensures { result ≡ is_command_row self.now row.now }
    {
        is_command_for(self.setup.address, &self.row_heard(row))
    }

    /// Up to when the other bus is silent, before the word of a row is heard or sent.
    fn other_until(&self, row: &WordRow, next: Option<u64>) -> u64
        ensures { result ≡ other_until self.now row.now next }
    {
        let time = self.row_time(row);
        match next {
            Some(begin) => begin.min(time),
            None => time,
        }
    }

    /// Hears the word of a row.
    pub fn hear(&mut self, row: &WordRow) -> HeardItem
        ensures heard { result ≡ row_heard self.old row.now }
        ensures known { self.new ≡ row_known self.old row.now }
    {
        let last = self.last_on(row.bus);
        let begin = row.time.nanos;
        let heard = self.row_heard(row);
        let speaker = self.setup.speaker_seen(&last, begin, row.word);
        let is_open = self.setup.is_open_behind(&last, begin, &heard);
        let may_be_unheard = self.is_unheard_behind(&last, begin, &heard);
        let recovery = self.recovery_from(&heard);
        let recovering = recovered_at(self.recovering, word_end(begin), recovery);
        let recovery = self.recovery_behind(&heard);
        self.set(
            row.bus,
            LastWord {
                begin,
                heard,
                speaker,
                is_open,
                may_be_unheard,
            },
        );
        self.recovering = recovering;
        self.recovery = recovery;
        heard
    }

    /// Whether the terminal may not have heard the message that is open behind a word.
    fn is_unheard_behind(&self, last: &Option<LastWord>, time: u64, heard: &HeardItem) -> bool
        ensures { result ≡ is_unheard_behind self.now last.now time heard.now }
    {
        match heard {
            HeardItem::Word(_, WordSync::Command, bits)
                if is_meant_for(self.setup.address, *bits) => { may_be_deaf(self.recovering, time) }
            _ => was_unheard(last),
        }
    }

    /// How long it may be deaf behind its next status word, once this word was heard.
    fn recovery_behind(&self, heard: &HeardItem) -> u64
        ensures { result ≡ recovery_behind self.now heard.now }
    {
        match heard {
            HeardItem::Word(_, WordSync::Command, bits)
                if Command::of(*bits).address() == self.setup.address => {
                self.setup.recovery_of(*bits)
            }
            HeardItem::Reply(sent) if is_command_sync(sent.kind) => 0,
            _ => self.recovery,
        }
    }

    /// How long from the end of this word on: it is the status word, or a command to all, which has none.
    fn recovery_from(&self, heard: &HeardItem) -> u64
        ensures { result ≡ recovery_from self.now heard.now }
    {
        match heard {
            HeardItem::Word(_, WordSync::Command, bits) if Command::of(*bits).is_broadcast() => {
                self.setup.recovery_of(*bits)
            }
            HeardItem::Reply(sent) if is_command_sync(sent.kind) => self.recovery,
            _ => 0,
        }
    }

    /// Whether a message to the terminal is open behind the last word on a bus.
    fn is_open_on(&self, bus: Bus) -> bool
        ensures { result ≡ is_open_on self.now bus }
    {
        is_open_last(&self.last_on(bus))
    }

    /// Whether the silence of a bus becomes longer than this behind the latest word on both, and not later than this time.
    fn falls_silent(&self, bus: Bus, silence: u64, time: u64) -> bool
        ensures { result ≡ falls_silent self.now bus silence time }
    {
        let since = silent_since(&self.last_on(bus));
        becomes_longer(since, silence, self.latest_time(), time)
    }

    /// Whether the terminal may have taken the silence of a bus for a gap by this time, or not: it does no later than it has to reply.
    fn may_be_gap(&self, bus: Bus, time: u64) -> bool
        ensures { result ≡ may_be_gap self.now bus time }
    {
        let since = silent_since(&self.last_on(bus));
        has_passed(since, self.setup.gap, time) && !has_passed(since, self.setup.no_response, time)
    }

    /// Whether such a silence goes on up to here since a command to the terminal on the other bus, the latest word.
    fn was_unclear_gap(&self, bus: Bus, time: u64) -> bool
        ensures { result ≡ was_unclear_gap self.now bus time }
    {
        let latest = self.latest_time();
        was_command_for(self.setup.address, &self.last_on(other_bus(bus)))
            && self.may_be_gap(bus, latest)
            && !is_before_end(time, Some(latest))
    }

    /// Whether the gap on the other bus may come before the word of a row or behind it, a command to the terminal.
    fn is_unclear_gap(&self, row: &WordRow, next: Option<u64>) -> bool
        ensures { result ≡ is_unclear_gap self.now row.now next }
    {
        let time = self.row_time(row);
        self.is_command_row(row)
            && self.may_be_gap(other_bus(row.bus), time)
            && !is_before_end(self.other_until(row, next), Some(time))
    }

    /// Whether a pause is heard before a word that begins at this time.
    fn is_pause_before(&self, time: u64) -> bool
        ensures { result ≡ is_pause_before self.now time }
    {
        let end = later_end(end_of_word(&self.a), end_of_word(&self.b));
        has_passed(end, self.setup.pause_time(), time)
    }

    /// Whether the terminal had to send by this time, and did not.
    fn is_silent_reply(&self, bus: Bus, last: &Option<LastWord>, time: u64) -> bool
        ensures { result ≡ is_silent_reply self.now bus last.now time }
    {
        match last {
            Some(word) => {
                word.is_open
                    && self.falls_silent(bus, self.setup.no_response, time)
                    && is_over_before(self.end_on(other_bus(bus)), word_end(word.begin))
            }
            None => false,
        }
    }

    /// Whether its reply is over by this time.
    fn is_reply_over(&self, bus: Bus, last: &Option<LastWord>, time: u64) -> bool
        ensures { result ≡ is_reply_over self.now bus last.now time }
    {
        match last {
            Some(word) => {
                is_reply(&word.heard)
                    && self.falls_silent(bus, self.setup.gap, time)
                    && is_over_before(self.end_on(other_bus(bus)), word.begin)
            }
            None => false,
        }
    }

    /// Whether the silence of a bus up to this time has a slot in which the terminal sends nothing, though it has heard the message.
    fn has_slot_on(&self, bus: Bus, time: u64) -> bool
        ensures { result ≡ has_slot_on self.now bus time }
    {
        let last = self.last_on(bus);
        (self.is_silent_reply(bus, &last, time) && !was_unheard(&last))
            || self.is_reply_over(bus, &last, time)
    }

    /// Whether it has one in which the terminal may be silent, since it may not have heard the message: whatever words were on the other bus.
    fn may_be_silent_on(&self, bus: Bus, time: u64) -> bool
        ensures { result ≡ may_be_silent_on self.now bus time }
    {
        let last = self.last_on(bus);
        is_open_last(&last)
            && was_unheard(&last)
            && self.falls_silent(bus, self.setup.no_response, time)
    }

    /// Whether a message without a reply is open on a bus that the terminal may not have heard.
    fn is_unheard_on(&self, bus: Bus, time: u64) -> bool
        ensures { result ≡ is_unheard_on self.now bus time }
    {
        let last = self.last_on(bus);
        self.setup.is_open_at(&last, time) && was_unheard(&last)
    }

    /// Whether one ends without a reply with the word of a row: a command that begins a message on its bus; or on the other bus one to the terminal,
    /// or to all, or a word that the terminal goes on to send there.
    fn ends_unheard(&self, row: &WordRow) -> bool
        ensures { result ≡ ends_unheard self.now row.now }
    {
        let begin = row.time.nanos;
        let begins_message = is_any_command(&self.row_heard(row))
            && !self.setup.is_contiguous(&self.last_on(row.bus), begin);
        let shows_it = self.is_command_row(row) || self.is_own_row(row);
        (self.is_unheard_on(other_bus(row.bus), begin) && shows_it)
            || (self.is_unheard_on(row.bus, begin) && begins_message)
    }

    /// Whether the terminal has given up waiting on a bus by this time.
    fn gives_up(&self, bus: Bus, time: u64) -> bool
        ensures { result ≡ gives_up self.now bus time }
    {
        self.is_open_on(bus) && self.falls_silent(bus, LONGEST_WAIT, time)
    }

    /// Whether it may have given up or not.
    fn may_give_up(&self, bus: Bus, time: u64) -> bool
        ensures { result ≡ may_give_up self.now bus time }
    {
        let since = silent_since(&self.last_on(bus));
        self.is_open_on(bus)
            && has_lasted(since, SHORTEST_WAIT, time)
            && !has_passed(since, LONGEST_WAIT, time)
    }

    /// The gap on a bus that was silent up to this time, or in a pause.
    fn first_gap_on(&self, bus: Bus, time: u64, is_pause: bool) -> Option<HeardItem>
        ensures { result ≡ first_gap_on self.now bus time is_pause }
    {
        gap_if(
            self.falls_silent(bus, self.setup.gap, time)
                || self.was_unclear_gap(bus, time)
                || is_pause,
            bus,
        )
    }

    /// The gap on the other bus before the word of a row.
    fn other_gap_on(&self, row: &WordRow, next: Option<u64>) -> Option<HeardItem>
        ensures { result ≡ other_gap_on self.now row.now next }
    {
        let other = other_bus(row.bus);
        if self.is_unclear_gap(row, next) {
            Some(HeardItem::MaybeGap(other))
        } else {
            self.first_gap_on(
                other,
                self.other_until(row, next),
                self.is_pause_before(row.time.nanos),
            )
        }
    }

    /// The second gap there.
    fn second_on(&self, bus: Bus, time: u64, is_pause: bool) -> Option<HeardItem>
        ensures { result ≡ second_on self.now bus time is_pause }
    {
        gap_if(self.gives_up(bus, time) || is_pause, bus)
    }

    /// The second gap that may have come before this word.
    fn maybe_on(&self, bus: Bus, time: u64, heard: &HeardItem) -> Option<HeardItem>
        ensures { result ≡ maybe_on self.now bus time heard.now }
    {
        maybe_gap_if(!is_own_word(heard) && self.may_give_up(bus, time), bus)
    }

    /// What is heard of the silence before the word of a row. `next` is when the next word on the other bus begins, if one was read.
    pub fn silence_before(&self, row: &WordRow, next: Option<u64>) -> Silence
        ensures { result ≡ silence_before self.now row.now next }
    {
        let own = row.bus;
        let other = other_bus(own);
        let begin = row.time.nanos;
        let heard = self.row_heard(row);
        let until = self.other_until(row, next);
        let is_pause = self.is_pause_before(begin);
        let may_be_silent = self.may_be_silent_on(other, until)
            || self.may_be_silent_on(own, begin);
        Silence {
            maybe_silent: maybe_silent_if(may_be_silent || self.ends_unheard(row)),
            other_gap: self.other_gap_on(row, next),
            own_gap: self.first_gap_on(own, begin, is_pause),
            slot: slot_if(self.has_slot_on(other, until) || self.has_slot_on(own, begin)),
            other_second: self.second_on(other, until, is_pause),
            own_second: self.second_on(own, begin, is_pause),
            pause: pause_if(is_pause),
            other_maybe: self.maybe_on(other, until, &heard),
            own_maybe: self.maybe_on(own, begin, &heard),
        }
    }

    /// What is heard of the silence behind the last words, which goes on.
    pub fn last_silence(&self) -> Silence
        ensures { result ≡ last_silence self.now }
    {
        let forever = u64::MAX;
        Silence {
            maybe_silent: None,
            other_gap: self.first_gap_on(Bus::A, forever, false),
            own_gap: self.first_gap_on(Bus::B, forever, false),
            slot: slot_if(self.has_slot_on(Bus::A, forever) || self.has_slot_on(Bus::B, forever)),
            other_second: None,
            own_second: None,
            pause: None,
            other_maybe: None,
            own_maybe: None,
        }
    }
}
