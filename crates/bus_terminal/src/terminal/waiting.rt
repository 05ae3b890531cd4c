//! Whose status word is awaited, which flags are set, and how an event will end the message in progress.
use super::Terminal;
use bus_legal::Legality;
use bus_word::{Bus, Raw};
use terminal_rules::{Event, Flag};
use terminal_state::{Ended, Phase, same_bus};

impl<L: Legality> Terminal<L> {
    ghost use Rattle.std.specs.Prelude.{◌≡◌, ◌&&◌, ◌||◌, not, ℕ, List, Some};
    ghost use Rattle.bus_legal.specs.Description.{Description};
    ghost use Rattle.terminal_rules.specs.declared.event.Event.{Event};
    ghost use Rattle.terminal_rules.specs.Flags.{flag_now};
    ghost use Rattle.terminal_rules.specs.Ends.{ends_now, unless_ignored};
    ghost use Rattle.terminal_rules.specs.Open.{is_on};
    ghost use Rattle.terminal_rules.specs.Reply.{reply_bus};
    ghost use Rattle.terminal_state.specs.Replies.{shown_reply};
    ghost use Rattle.terminal_rules.specs.Past.{past};
    ghost use Rattle.terminal_state.specs.Ended.{ending_of};
    ghost use Rattle.terminal_state.specs.Message.{standing_on};
    ghost use Rattle.terminal_rules.specs.Starts.{starts_now};
    ghost use Rattle.terminal_state.specs.Standing.{starts_by};
    ghost use Rattle.terminal_state.specs.Buses.{on_bus};
    ghost use Rattle.bus_terminal.specs.Stands.{StandsAt, own_description};
    ghost use Rattle.bus_terminal.specs.Waiting.{awaited, awaited_in, is_open, is_engaged};
    ghost use Rattle.bus_terminal.specs.inner.Terminal.{ends_at_gap, ends_at_entry};

    /// Gives the address of the terminal for whose status word the message on this bus waits: that of a transfer between two
    /// terminals, of which this one receives. None where no message waits there.
    pub fn awaits_status(&self, bus: Bus) -> Option<u8>
        ensures { (P : Description) (h : List Event) → StandsAt L.is_legal P h self.now → result ≡ awaited P h bus }
    {
        self.awaited_on(bus)
    }

    /// Tells the same from what is kept.
    fn awaited_on(&self, bus: Bus) -> Option<u8>
        ensures { result ≡ awaited_in (standing_on bus self.now.in_progress) }
    {
        match &self.in_progress.message {
            Some(message) => match message.phase {
                Phase::Waits(address) if same_bus(bus, message.bus) => Some(address),
                _ => None,
            },
            None => None,
        }
    }

    /// Tells whether a flag of the subsystem is set.
    #[inline(always)]
    pub fn flag(&self, flag: Flag) -> bool
        ensures { (P : Description) (h : List Event) → StandsAt L.is_legal P h self.now → result ≡ flag_now (past P h) flag }
    {
        match flag {
            Flag::Service => self.registers.flags.service,
            Flag::Busy => self.registers.flags.busy,
            Flag::Subsystem => self.registers.flags.subsystem,
            Flag::Terminal => self.registers.flags.terminal,
        }
    }

    /// Tells how this event, which is yet to come, ends the message in progress. Of a message that is done the data words aren't told.
    pub fn ending(&self, event: Event) -> Ended
        ensures { (P : Description) (h : List Event) → StandsAt L.is_legal P h self.now → (ds : List ℕ) × (ending_of result ds ≡ ends_now P (past P h) event) }
    {
        match event {
            Event::Gap(bus) => self.ending_at_gap(bus),
            Event::Word(bus, word) => self.ending_at_entry(bus, Some(word)),
            Event::Noise(bus) => self.ending_at_entry(bus, None),
            _ => Ended::Nothing,
        }
    }

    /// Tells the same of a gap on this bus.
    fn ending_at_gap(&self, bus: Bus) -> Ended
        ensures { ending_of result self.now.in_progress.words.items ≡ unless_ignored (is_on bus (reply_bus (shown_reply self.now.reply))) (ends_at_gap L.is_legal self.now bus) }
    {
        if self.replies_on(bus) {
            return Ended::Nothing;
        }
        self.judge(self.in_progress.copy().end_at_gap(bus))
    }

    /// Tells the same of a word on this bus, or of noise.
    fn ending_at_entry(&self, bus: Bus, word: Option<Raw>) -> Ended
        ensures { (ds : List ℕ) → ending_of result ds ≡ unless_ignored (is_on bus (reply_bus (shown_reply self.now.reply))) (ends_at_entry word (standing_on bus self.now.in_progress)) }
    {
        if self.replies_on(bus) {
            return Ended::Nothing;
        }
        match self.in_progress.failed_by(bus, word) {
            Some(command) => Ended::Badly(command),
            None => Ended::Nothing,
        }
    }

    /// Tells whether this event, which is yet to come, starts a message.
    pub fn will_start(&self, event: Event) -> bool
        ensures { (P : Description) (h : List Event) → StandsAt L.is_legal P h self.now → result ≡ starts_now P (past P h) event }
    {
        match event {
            Event::Word(bus, word) => self.will_start_by(bus, word),
            _ => false,
        }
    }

    /// Tells the same of a word on this bus.
    fn will_start_by(&self, bus: Bus, word: Raw) -> bool
        ensures { result ≡ (not (is_on bus (reply_bus (shown_reply self.now.reply))) && starts_by (own_description L.is_legal self.now) (Some word) (on_bus bus self.now.heard) (standing_on bus self.now.in_progress)) }
    {
        if self.replies_on(bus) {
            return false;
        }
        let ours = word.is_for(self.settings.address, self.settings.broadcast);
        self.starts(bus, word, ours)
    }

    /// Tells whether the terminal is in a message on this bus, or replies there.
    pub fn is_engaged(&self, bus: Bus) -> bool
        ensures { (P : Description) (h : List Event) → StandsAt L.is_legal P h self.now → result ≡ is_engaged P (past P h) bus }
    {
        self.is_open_on(bus) || self.replies_on(bus)
    }

    /// Tells whether a message is in progress on this bus.
    fn is_open_on(&self, bus: Bus) -> bool
        ensures { result ≡ is_open (standing_on bus self.now.in_progress) }
    {
        match &self.in_progress.message {
            Some(message) => same_bus(bus, message.bus),
            None => false,
        }
    }
}
