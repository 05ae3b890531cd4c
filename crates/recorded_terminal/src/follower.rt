//! A terminal that follows a recording.
ghost use Rattle.std.specs.Prelude.{◌≡◌, ◌≤◌};
ghost use Rattle.bus_word.specs.Command.{command_bits};
ghost use Rattle.bus_word.specs.Mode as code;

use crate::sighting::Sighting;
use crate::told::{given, shows};
use bus_legal::{Legality, Setup};
use bus_terminal::{Answer, Event, Flag, Sent, Terminal};
use bus_word::{Bus, Kind, mode};
use terminal_state::{OnBuses, Registers};

/// What of that which a recording tells of the subsystem before a sighting changes anything, in this order.
#[derive(Clone, Copy)]
pub struct Told {
    pub service: Option<Event>,
    pub busy: Option<Event>,
    pub subsystem: Option<Event>,
    pub terminal: Option<Event>,
    /// A data word, vector word or BIT word.
    pub word: Option<Event>,
}

/// A sighting that was followed.
#[derive(Clone, Copy)]
pub struct Followed {
    pub told: Told,
    /// The word that the terminal sends.
    pub sent: Option<Sent>,
}

/// The command word of own mode code 4, transmitter shutdown.
pub fn shutdown_command(address: u8) -> u16
    requires { address ≤ 30 }
    ensures { result ≡ command_bits (record { address = address; tr = 1; subaddress = 0; low = code.shutdown }) }
{
    u16::from(address) * 2048 + 1024 + u16::from(mode::SHUTDOWN)
}

/// A terminal that follows a recording: it takes what is seen, and before it what the recording tells of the subsystem.
#[derive(Drop)]
pub struct Follower<L> {
    terminal: Terminal<L>,
}

impl<L: Legality> Follower<L> {
    ghost use Rattle.std.specs.Prelude.{◌≡◌, true, List, [], ◌∷◌};
    ghost use Rattle.terminal_rules.specs.Past.{past, history_after};
    ghost use Rattle.terminal_state.specs.Registers.{registers_now};
    ghost use Rattle.bus_terminal.specs.Waiting.{awaited};
    ghost use Rattle.recorded_terminal.specs.inner.Kept.{IsFree};
    ghost use Rattle.bus_legal.specs.Description.{Description, described};
    ghost use Rattle.terminal_rules.specs.declared.event.Event.{Event};
    ghost use Rattle.terminal_rules.specs.Out.{out, sent_in};
    ghost use Rattle.terminal_recordings.specs.Completion.{flag_shown};
    ghost use Rattle.terminal_recordings.specs.Later.{shut_history, if_shut};
    ghost use Rattle.bus_word.specs.Word.{valid_word};
    ghost use Rattle.bus_word.specs.declared.word.Kind.TheVariants.{Com};
    ghost use Rattle.terminal_rules.specs.declared.event.Event.TheVariants.{Word as WordEvent, Gap as GapEvent, Slot as SlotEvent};
    ghost use Rattle.bus_terminal.specs.Stands.{TakesEvent};
    ghost use Rattle.terminal_rules.specs.declared.event.Event.TheVariants.{Flag as FlagIs};
    ghost use Rattle.recorded_terminal.specs.SentWords.{word_shown};
    ghost use Rattle.recorded_terminal.specs.Follows.{FollowsAt, shut_down, told_by, given_events, told_events, AreTold, TakesEvents};

    /// Gives one that has seen nothing: its terminal is at power-up.
    pub fn power_up(setup: Setup, legality: L) -> Follower<L>
        ensures { FollowsAt L.is_legal (described setup (L.is_legal legality)) [] result }
    {
        Follower {
            terminal: Terminal::power_up(setup, legality),
        }
    }

    /// Gives one whose terminal has the transmitters on these buses shut down, and has seen nothing else.
    pub fn shut(setup: Setup, legality: L, shut: OnBuses) -> Follower<L>
        ensures { FollowsAt L.is_legal (described setup (L.is_legal legality)) (shut_history (described setup (L.is_legal legality)) (shut_down shut)) result }
    {
        let command = shutdown_command(setup.address);
        let mut follower = Follower::power_up(setup, legality);
        follower.exchange_if(shut.a, Bus::B, command);
        follower.exchange_if(shut.b, Bus::A, command);
        follower
    }

    /// One that stands wherever this one stands.
    pub fn copy(&self) -> Follower<L>
    where
        L: Copy,
        ensures { (P : Description) (h : List Event) → FollowsAt L.is_legal P h self.now → FollowsAt L.is_legal P h result }
    {
        Follower {
            terminal: self.terminal.copy(),
        }
    }

    /// The address of the terminal for whose status word the message on this bus waits, if one waits there.
    pub fn awaits_status(&self, bus: Bus) -> Option<u8>
        ensures { (P : Description) (h : List Event) → FollowsAt L.is_legal P h self.now → result ≡ awaited P h bus }
    {
        self.terminal.awaits_status(bus)
    }

    /// What the terminal remembers beside messages, replies and words held ready.
    pub fn registers(&self) -> &Registers
        ensures { (P : Description) (h : List Event) → FollowsAt L.is_legal P h self.now → result.now ≡ registers_now P (past P h) }
    {
        self.terminal.kept().registers
    }

    /// Whether neither a message nor a reply is in progress.
    pub fn is_idle(&self) -> bool
        ensures { result ≡ true → (P : Description) (h : List Event) → FollowsAt L.is_legal P h self.now → IsFree P h }
    {
        let kept = self.terminal.kept();
        kept.in_progress.message.is_none() && kept.reply.is_none()
    }

    /// Takes a command on a bus, a gap, and a slot for the status, or nothing.
    fn exchange_if(&mut self, takes: bool, bus: Bus, command: u16)
        ensures { TakesEvents L.is_legal (if_shut takes (WordEvent bus (valid_word Com command) ∷ GapEvent bus ∷ SlotEvent ∷ [])) self.old.terminal self.new.terminal }
    {
        if takes {
            self.terminal.take_valid(bus, Kind::Com, command);
            self.terminal.take(Event::Gap(bus));
            self.terminal.take(Event::Slot);
        }
    }

    /// Takes what is seen, where `status` is the next status word that is seen, in this sighting or later. Gives what the recording
    /// tells of the subsystem before it, and the word that the terminal sends: the one which was seen, wherever some subsystem makes the
    /// terminal send it.
    pub fn see(&mut self, sighting: Sighting, status: Option<u16>) -> Followed
        ensures sent { (P : Description) (h : List Event) → FollowsAt L.is_legal P h self.old → word_shown result.sent ≡ sent_in (out P (history_after (told_by P h status (word_shown sighting.sent)) h) sighting.event) }
        ensures stands { (P : Description) (h : List Event) → FollowsAt L.is_legal P h self.old → FollowsAt L.is_legal P (sighting.event ∷ history_after (told_by P h status (word_shown sighting.sent)) h) self.new }
        ensures told { AreTold (told_events result.told) }
        ensures sent_told { (P : Description) (h : List Event) → FollowsAt L.is_legal P h self.old → word_shown result.sent ≡ sent_in (out P (history_after (told_events result.told) h) sighting.event) }
        ensures stands_told { (P : Description) (h : List Event) → FollowsAt L.is_legal P h self.old → FollowsAt L.is_legal P (sighting.event ∷ history_after (told_events result.told) h) self.new }
    {
        let told = self.tell(status, sighting.sent);
        let sent = match self.terminal.step(sighting.event) {
            Answer::Sends(sent) => Some(sent),
            _ => None,
        };
        Followed { told, sent }
    }

    /// Takes what the recording tells of the subsystem, and gives what of that changes anything.
    fn tell(&mut self, status: Option<u16>, sent: Option<Sent>) -> Told
        ensures stands { (P : Description) (h : List Event) → FollowsAt L.is_legal P h self.old → FollowsAt L.is_legal P (history_after (told_by P h status (word_shown sent)) h) self.new }
        ensures told { AreTold (told_events result) }
        ensures stands_told { (P : Description) (h : List Event) → FollowsAt L.is_legal P h self.old → FollowsAt L.is_legal P (history_after (told_events result) h) self.new }
    {
        let next = self.terminal.next_word();
        let service = self.set(Flag::Service, status);
        let busy = self.set(Flag::Busy, status);
        let subsystem = self.set(Flag::Subsystem, status);
        let terminal = self.set(Flag::Terminal, status);
        self.take_if(given(next, sent));
        Told {
            service,
            busy,
            subsystem,
            terminal,
            word: given(next, sent),
        }
    }

    /// Sets one flag as a status word shows it, where it stands otherwise, and gives the event that does.
    fn set(&mut self, flag: Flag, status: Option<u16>) -> Option<Event>
        ensures stands { TakesEvent L.is_legal (FlagIs flag (flag_shown status flag)) self.old.terminal self.new.terminal }
        ensures told { AreTold (given_events result) }
        ensures stands_told { TakesEvents L.is_legal (given_events result) self.old.terminal self.new.terminal }
    {
        let value = shows(status, flag);
        if self.terminal.flag(flag) == value {
            return None;
        }
        self.terminal.take(Event::Flag(flag, value));
        Some(Event::Flag(flag, value))
    }

    /// Takes an event, if there is one.
    fn take_if(&mut self, event: Option<Event>)
        ensures { TakesEvents L.is_legal (given_events event) self.old.terminal self.new.terminal }
    {
        if let Some(event) = event {
            self.terminal.take(event);
        }
    }
}
