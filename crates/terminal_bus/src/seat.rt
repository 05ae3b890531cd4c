//! A terminal at its place on the bus.
ghost use Rattle.std.specs.Prelude.{◌≡◌, ◌||◌};
ghost use Rattle.terminal_rules.specs.LookBack.{some};
ghost use Rattle.terminal_bus.specs.AtMembers.{AtSeat, IsTerminalAt};
ghost use Rattle.terminal_bus.specs.inner.Seats.{is_addressed, Stays};

use bus_legal::{Legality, Setup};
use bus_terminal::{Answer, CopiedAnswer, Sent, Terminal};
use bus_word::{Bus, Kind, Raw};
use terminal_rules::Event;
use terminal_state::{Phase, same_bus};

/// A terminal at its place on the bus, with its answer to the latest event of the bus.
#[derive(Drop)]
pub(crate) struct Seat<L> {
    pub address: u8,
    pub terminal: Terminal<L>,
    pub answer: CopiedAnswer,
}

impl<L: Legality> Seat<L> {
    ghost use Rattle.std.specs.Prelude.{◌≡◌, [], ◌∷◌};
    ghost use Rattle.std.specs.Option.{option_map};
    ghost use Rattle.bus_legal.specs.Description.{described};
    ghost use Rattle.terminal_rules.specs.Out.{Silence};
    ghost use Rattle.bus_terminal.specs.Answer.{shown_word, shown_copy};
    ghost use Rattle.terminal_bus.specs.Members.{member_of};
    ghost use Rattle.terminal_bus.specs.AtMembers.{SeatStands};
    ghost use Rattle.terminal_state.specs.Message.{standing_on};
    ghost use Rattle.terminal_bus.specs.inner.Replying.{awaits_in};
    ghost use Rattle.terminal_bus.specs.inner.Seats.{SeatSteps, SeatTakes, Stays, sends_there};

    /// Gives a terminal at power-up, without an answer.
    pub(crate) fn power_up(setup: Setup, legality: L) -> Seat<L>
        ensures { SeatStands L.is_legal result (member_of (described setup (L.is_legal legality))) }
    {
        Seat {
            address: setup.address,
            terminal: Terminal::power_up(setup, legality),
            answer: CopiedAnswer::Silent,
        }
    }

    /// Gives a terminal that stands wherever this one stands, without an answer.
    pub(crate) fn copy(&self) -> Seat<L>
    where
        L: Copy,
        ensures { Stays L.is_legal self.now result }
    {
        Seat {
            address: self.address,
            terminal: self.terminal.copy(),
            answer: CopiedAnswer::Silent,
        }
    }

    /// Takes an event, and keeps the answer. Words, of which most events are, have none.
    #[inline(always)]
    pub(crate) fn step(&mut self, event: Event)
        ensures { SeatSteps L.is_legal event self.old self.new }
    {
        if let Event::Word(_, _) = event {
            self.terminal.take(event);
            self.answer = CopiedAnswer::Silent;
            return;
        }
        match self.terminal.step(event) {
            Answer::Silent => self.answer = CopiedAnswer::Silent,
            answer => self.answer = CopiedAnswer::of(answer),
        }
    }

    /// Takes an event that is not answered.
    #[inline(always)]
    pub(crate) fn take(&mut self, event: Event)
        ensures { SeatTakes L.is_legal (event ∷ []) self.old self.new }
    {
        self.terminal.take(event);
    }

    /// Tells whether it waits on a bus for the status word of this address, which is to be sent.
    pub(crate) fn awaits(&self, bus: Bus, address: u8) -> bool
        ensures { result ≡ awaits_in address (standing_on bus self.now.terminal.in_progress) }
    {
        let in_progress = self.terminal.kept().in_progress;
        match &in_progress.message {
            Some(message) => match message.phase {
                Phase::Waits(awaited) => same_bus(bus, message.bus)
                    && awaited == address
                    && !message.decoded.command.is_broadcast(),
                _ => false,
            },
            None => false,
        }
    }

    /// The word that it sends on a bus in this slot, if it sends one there.
    pub(crate) fn sent_on(&self, bus: Bus) -> Option<Sent>
        ensures { option_map shown_word result ≡ sends_there bus self.now }
    {
        match self.answer.sent() {
            Some(sent) if same_bus(bus, sent.bus) => Some(sent),
            _ => None,
        }
    }
}

/// Tells whether the terminal of a place has this address.
pub(crate) fn is_addressed<L>(place: &Option<Seat<L>>, address: u8) -> bool
    ensures { result ≡ is_addressed address place.now }
{
    match place {
        Some(seat) => seat.address == address,
        None => false,
    }
}

/// Tells whether a terminal has this address.
pub(crate) fn has_address<L>(places: &[Option<Seat<L>>], address: u8) -> bool
    ensures { result ≡ some (is_addressed address) places.now }
{
    let mut found = false;
    for place in places {
        found = found || is_addressed(place, address);
    }
    found
}

/// Gives a place with the terminal of this one once more, without an answer.
pub(crate) fn place_copy<L: Legality + Copy>(place: &Option<Seat<L>>) -> Option<Seat<L>>
    ensures { AtSeat (Stays L.is_legal) place.now result }
{
    match place {
        Some(seat) => Some(seat.copy()),
        None => None,
    }
}

/// Gives the terminal of a place once more.
pub(crate) fn terminal_copy<L: Legality + Copy>(place: &Option<Seat<L>>) -> Option<Terminal<L>>
    ensures { IsTerminalAt L.is_legal place.now result }
{
    match place {
        Some(seat) => Some(seat.terminal.copy()),
        None => None,
    }
}
