//! One of the ways that a recording can have gone.
ghost use Rattle.std.specs.Prelude.{◌≡◌, true, None, List};
ghost use Rattle.bus_legal.specs.Description.{Description};
ghost use Rattle.terminal_rules.specs.declared.event.Event.{Event};
ghost use Rattle.bus_terminal.specs.Stands.{StandsAt};
ghost use Rattle.terminal_rules.specs.Past.{past, open_at};
ghost use Rattle.terminal_rules.specs.Open.{Idle};
ghost use Rattle.terminal_rules.specs.Reply.{reply_now};
ghost use Rattle.terminal_recordings.specs.MaybeGaps.{gap_does_nothing, waits};
ghost use Rattle.recorded_terminal.specs.Follows.{FollowsAt};
ghost use Rattle.recorded_terminal.specs.Ways.{WayIsAt, WaySees, WayTakesGap, WaysHaveMet, quiet_with};
ghost use Rattle.recorded_terminal.specs.inner.Kept.{KeepTheSame, IsIdleAt};

use crate::follower::Follower;
use crate::sighting::Sighting;
use crate::watch::Marked;
use bus_legal::Legality;
use bus_terminal::{Event, Sent};
use bus_word::Bus;
use terminal_state::{OnBuses, Registers};

/// One of the ways that a recording can have gone: a terminal that has followed it so far.
#[derive(Drop)]
pub struct Way<L> {
    pub follower: Follower<L>,
    /// On which buses no word or noise came since the last gap.
    pub quiet: OnBuses,
    /// The word that the terminal sent in the last sighting.
    pub sent: Option<Sent>,
    /// Whether that is as it was seen.
    pub is_left: bool,
}

/// The buses that are quiet after an event.
fn quiet_with(quiet: OnBuses, event: Event) -> OnBuses
    ensures { result ≡ quiet_with event quiet }
{
    let mut quiet = quiet;
    match event {
        Event::Word(bus, _) | Event::Noise(bus) => quiet.set(bus, false),
        Event::Gap(bus) => quiet.set(bus, true),
        _ => {}
    }
    quiet
}

/// Whether two terminals have the same transmitters shut down, last command, inhibited flag and kept status.
fn are_alike(one: &Registers, other: &Registers) -> bool
    ensures { result ≡ true → KeepTheSame one.now other.now }
{
    if one.off.a != other.off.a {
        return false;
    }
    if one.off.b != other.off.b {
        return false;
    }
    if one.last.bits() != other.last.bits() {
        return false;
    }
    if one.inhibited != other.inhibited {
        return false;
    }
    one.kept == other.kept
}

impl<L: Legality> Way<L> {
    /// One that begins where this terminal stands.
    pub fn from(follower: Follower<L>) -> Way<L>
        ensures { (P : Description) (h : List Event) → FollowsAt L.is_legal P h follower → WayIsAt L.is_legal P h result }
    {
        Way {
            follower,
            quiet: OnBuses::NONE,
            sent: None,
            is_left: true,
        }
    }

    /// Takes what is seen, where `status` is the next status word that is seen, in this sighting or later.
    pub fn see(&mut self, marked: &Marked, status: Option<u16>)
        ensures { WaySees L.is_legal status marked.now self.old self.new }
    {
        self.sent = self.follower.see(marked.sighting, status).sent;
        self.is_left = marked.is_as_seen(self.sent);
        self.quiet = quiet_with(self.quiet, marked.sighting.event);
    }

    /// The same way once more.
    pub fn copy(&self) -> Way<L>
    where
        L: Copy,
        ensures { (P : Description) (h : List Event) → WayIsAt L.is_legal P h self.now → WayIsAt L.is_legal P h result }
    {
        Way {
            follower: self.follower.copy(),
            quiet: self.quiet,
            sent: self.sent,
            is_left: self.is_left,
        }
    }

    /// The same way, with a gap on this bus.
    pub fn with_gap(&self, bus: Bus, status: Option<u16>) -> Way<L>
    where
        L: Copy,
        ensures { WayTakesGap L.is_legal bus status self.now result }
    {
        let mut follower = self.follower.copy();
        let gap = Sighting {
            event: Event::Gap(bus),
            sent: None,
        };
        follower.see(gap, status);
        Way {
            follower,
            quiet: quiet_with(self.quiet, Event::Gap(bus)),
            sent: None,
            is_left: true,
        }
    }

    /// Whether a gap on this bus would be a second one that ends no message.
    pub fn passes_gap(&self, bus: Bus) -> bool
        ensures { result ≡ true → (P : Description) (h : List Event) → WayIsAt L.is_legal P h self.now → gap_does_nothing P h bus ≡ true }
    {
        match self.follower.awaits_status(bus) {
            Some(_) => false,
            None => self.quiet.on(bus),
        }
    }

    /// Whether the same is left of this way and another, whatever comes: both are quiet, and what their terminals keep is alike.
    pub fn has_met(&self, other: &Way<L>) -> bool
        ensures { result ≡ true → WaysHaveMet L.is_legal self.now other.now }
    {
        if !self.is_idle() {
            return false;
        }
        if !other.is_idle() {
            return false;
        }
        let own = self.follower.registers();
        let others = other.follower.registers();
        are_alike(own, others)
    }

    /// Whether both buses are quiet, and neither a message nor a reply is in progress.
    fn is_idle(&self) -> bool
        ensures { result ≡ true → (P : Description) (h : List Event) → WayIsAt L.is_legal P h self.now → IsIdleAt P h }
    {
        self.quiet.a && self.quiet.b && self.follower.is_idle()
    }
}
