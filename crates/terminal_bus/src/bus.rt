//! A bus of terminals that are stepped together.
use crate::answers::{AddressedAnswer, answer_of};
use crate::came::CameTo;
use crate::discipline::{Breach, breach_of};
use crate::event::BusEvent;
use crate::exchange::{addressed_steps, each_steps, exchange, heard_unless, sent_by};
use crate::seat::{Seat, has_address, is_addressed, place_copy, terminal_copy};
use arrayvec::ArrayVec;
use bus_legal::{Legality, Setup};
use bus_terminal::{CopiedAnswer, Terminal};
use bus_word::Bus;
use terminal_rules::Event;
use terminal_state::OnBuses;

/// Why a terminal is not added to a bus.
#[derive(Clone, Copy, Debug, PartialEq, Eq)]
pub enum NotAdded {
    /// A terminal of the bus has this address (MIL-STD-1553B, 4.3.3.5.1.2: each has one of its own).
    SameAddress(u8),
    /// The bus has 31 terminals.
    Full,
}

/// Up to 31 terminals on one bus, each at its place: the number of those that were added before it. Nothing of it lies on the heap.
#[derive(Drop)]
pub struct TerminalBus<L> {
    seats: ArrayVec<Option<Seat<L>>, 31>,
}

impl<L: Legality> TerminalBus<L> {
    ghost use Rattle.std.specs.Prelude.{◌≡◌, List, []};
    ghost use Rattle.std.specs.Prelude.{length, IfSome, IfNone, ◌<◌, ◌≤◌, is_ok};
    ghost use Rattle.std.specs.Result.{result_err};
    ghost use Rattle.terminal_bus.specs.Breaches.{breach};
    ghost use Rattle.terminal_bus.specs.Discipline.{may_put, has_address};
    ghost use Rattle.std.specs.Prelude.{slice_get, Some};
    ghost use Rattle.std.specs.Option.{option_map, option_to_list};
    ghost use Rattle.bus_terminal.specs.Answer.{shown_answer, IsSmall};
    ghost use Rattle.terminal_bus.specs.declared.event.BusEvent.TheVariants.{SlotPasses};
    ghost use Rattle.terminal_bus.specs.Came.{events_that_came};
    ghost use Rattle.terminal_rules.specs.LookBack.{some};
    ghost use Rattle.terminal_bus.specs.Members.{Member, bus_after, events_for, heard_on};
    ghost use Rattle.terminal_bus.specs.AtMembers.{BusStandsAt, AnswersAt, AreSameTerminals, collisions, seat_at, kept_at, not_added, answered_address, member_address};
    ghost use Rattle.terminal_bus.specs.inner.Seats.{SlotSteps};

    /// Gives a bus without terminals.
    pub fn new() -> TerminalBus<L>
        ensures { BusStandsAt L.is_legal [] result }
    {
        TerminalBus {
            seats: ArrayVec::new(),
        }
    }

    /// The number of terminals, 0 to 31.
    pub fn len(&self) -> usize
        ensures count { (members : List Member) → BusStandsAt L.is_legal members self.now → result ≡ length members }
        ensures most { result ≤ 31 }
    {
        self.seats.len()
    }

    /// Tells whether a terminal of the bus has this address.
    pub fn has_terminal(&self, address: u8) -> bool
        ensures { (members : List Member) → BusStandsAt L.is_legal members self.now → result ≡ some (has_address address) members }
    {
        has_address(self.seats.as_slice(), address)
    }

    /// Lends what the terminal at a place sent or handed over in the latest step, with its address: at most 32 data words. None
    /// where the bus has no terminal there.
    pub fn answer(&self, place: usize) -> Option<AddressedAnswer<'_>>
        ensures answer { IfSome result (λ it. shown_answer it.answer ≡ kept_at (seat_at self.now.seats.items place)) }
        ensures small { IfSome result (λ it. IsSmall (shown_answer it.answer)) }
        ensures address { (members : List Member) → BusStandsAt L.is_legal members self.now → option_map answered_address result ≡ member_address members place }
    {
        match self.seats.as_slice().get(place) {
            Some(seat) => answer_of(seat),
            None => None,
        }
    }

    /// What came on a bus to the terminal at a place in the latest step, which was a slot.
    fn heard(&self, bus: Bus, place: usize) -> Option<Event>
        ensures { (members : List Member) (m : Member) → BusStandsAt L.is_legal (bus_after members SlotPasses) self.now → AnswersAt members SlotPasses self.now → slice_get members place ≡ Some m → option_to_list result ≡ heard_on bus members m }
    {
        let seats = self.seats.as_slice();
        heard_unless(sent_by(seats, place, bus), seats, bus)
    }

    /// Tells whether the terminal at a place has this address.
    fn is_at(&self, address: u8, place: usize) -> bool
        ensures { (members : List Member) (m : Member) → BusStandsAt L.is_legal members self.now → slice_get members place ≡ Some m → result ≡ has_address address m }
    {
        match self.seats.as_slice().get(place) {
            Some(seat) => is_addressed(seat, address),
            None => false,
        }
    }

    /// What came to the terminal at a place in the latest step, which took this event.
    pub fn came_to(&self, event: BusEvent, place: usize) -> CameTo
        ensures { (members : List Member) (m : Member) → BusStandsAt L.is_legal (bus_after members event) self.now → AnswersAt members event self.now → slice_get members place ≡ Some m → events_that_came result ≡ events_for members event m }
    {
        match event {
            BusEvent::OnBus(event) => CameTo::only(event),
            BusEvent::SlotPasses => CameTo {
                event: Some(Event::Slot),
                on_a: self.heard(Bus::A, place),
                on_b: self.heard(Bus::B, place),
            },
            BusEvent::Subsystem(address, event) => if self.is_at(address, place) {
                CameTo::only(event)
            } else {
                CameTo::NOTHING
            },
        }
    }

    /// Why a terminal with this address is not added.
    fn not_added(&self, address: u8) -> Option<NotAdded>
        ensures not_added { (members : List Member) → BusStandsAt L.is_legal members self.now → result ≡ not_added members address }
        ensures room { IfNone result (length self.now.seats.items < 31) }
    {
        if has_address(self.seats.as_slice(), address) {
            Some(NotAdded::SameAddress(address))
        } else if self.seats.is_full() {
            Some(NotAdded::Full)
        } else {
            None
        }
    }

    /// Tells whether a controller that keeps to the discipline may put this event on a bus now. If all events of the controller are
    /// so from power-up, at most one terminal replies at a time.
    ///
    /// # Errors
    ///
    /// What of the event breaks the discipline.
    pub fn may_put(&self, event: Event) -> Result<(), Breach>
        ensures breach { (members : List Member) → BusStandsAt L.is_legal members self.now → result_err result ≡ breach members event }
        ensures allowed { (members : List Member) → BusStandsAt L.is_legal members self.now → is_ok result ≡ may_put members event }
    {
        match breach_of(self.seats.as_slice(), event) {
            Some(breach) => Err(breach),
            None => Ok(()),
        }
    }

    /// Takes what happens on the bus. Tells on which buses words of two or more terminals collide. What each terminal does is
    /// its answer.
    pub fn step(&mut self, event: BusEvent) -> OnBuses
        ensures stands { (members : List Member) → BusStandsAt L.is_legal members self.old → BusStandsAt L.is_legal (bus_after members event) self.new }
        ensures answers { (members : List Member) → BusStandsAt L.is_legal members self.old → AnswersAt members event self.new }
        ensures collisions { (members : List Member) → BusStandsAt L.is_legal members self.old → result ≡ collisions members event }
        ensures same { AreSameTerminals L.is_legal self.old self.new }
    {
        match event {
            BusEvent::OnBus(event) => {
                each_steps(self.seats.as_mut_slice(), &event);
                OnBuses::NONE
            }
            BusEvent::SlotPasses => self.pass_slot(),
            BusEvent::Subsystem(address, event) => {
                addressed_steps(self.seats.as_mut_slice(), address, &event);
                OnBuses::NONE
            }
        }
    }

    /// Takes a slot.
    fn pass_slot(&mut self) -> OnBuses
        ensures { SlotSteps L.is_legal self.old.seats.items self.new.seats.items result }
    {
        let places = self.seats.as_mut_slice();
        each_steps(places, &Event::Slot);
        let a = exchange(places, Bus::A);
        let b = exchange(places, Bus::B);
        OnBuses { a, b }
    }
}

impl<L: Legality + Drop> TerminalBus<L> {
    ghost use Rattle.std.specs.Prelude.{◌≡◌, List, [], ◌∷◌, ◌++◌, OnOk, OnErr};
    ghost use Rattle.std.specs.Result.{result_err};
    ghost use Rattle.bus_legal.specs.Description.{Description, described};
    ghost use Rattle.terminal_rules.specs.declared.event.Event.{Event};
    ghost use Rattle.bus_terminal.specs.Stands.{StandsAt, own_description};
    ghost use Rattle.terminal_bus.specs.Members.{Member, member_of, member_at};
    ghost use Rattle.terminal_bus.specs.AtMembers.{BusStandsAt, AreSameTerminals, IsBehind, IsTerminalAt, not_added, seat_at};

    /// Adds a terminal at power-up behind the others. An error leaves the bus as it was.
    ///
    /// # Errors
    ///
    /// `SameAddress` if a terminal of the bus has its address, else `Full` if the bus has 31 terminals.
    pub fn add(&mut self, setup: Setup, legality: L) -> Result<(), NotAdded>
        ensures not_added { (members : List Member) → BusStandsAt L.is_legal members self.old → result_err result ≡ not_added members setup.address }
        ensures added { OnOk result ((members : List Member) → BusStandsAt L.is_legal members self.old → BusStandsAt L.is_legal (members ++ member_of (described setup (L.is_legal legality)) ∷ []) self.new) }
        ensures unchanged { OnErr result (self.new ≡ self.old) }
    {
        if let Some(reason) = self.not_added(setup.address) {
            return Err(reason);
        }
        self.seats.push(Some(Seat::power_up(setup, legality)));
        Ok(())
    }

    /// Adds a terminal with this address behind the others, where it stands. An error leaves the bus as it was.
    ///
    /// # Errors
    ///
    /// `SameAddress` if a terminal of the bus has its address, else `Full` if the bus has 31 terminals.
    pub fn join(&mut self, address: u8, terminal: Terminal<L>) -> Result<(), NotAdded>
        requires { (own_description L.is_legal terminal).address ≡ address }
        ensures not_added { (members : List Member) → BusStandsAt L.is_legal members self.old → result_err result ≡ not_added members address }
        ensures joined { OnOk result ((members : List Member) (P : Description) (h : List Event) → BusStandsAt L.is_legal members self.old → StandsAt L.is_legal P h terminal
            → BusStandsAt L.is_legal (members ++ member_at P h ∷ []) self.new) }
        ensures behind { OnOk result (IsBehind terminal self.old self.new) }
        ensures unchanged { OnErr result (self.new ≡ self.old) }
    {
        if let Some(reason) = self.not_added(address) {
            return Err(reason);
        }
        self.seats.push(Some(Seat {
            address,
            terminal,
            answer: CopiedAnswer::Silent,
        }));
        Ok(())
    }

    /// Gives the terminal at a place once more: it stands wherever that one stands. None where the bus has no terminal there.
    pub fn terminal(&self, place: usize) -> Option<Terminal<L>>
    where
        L: Copy,
        ensures { IsTerminalAt L.is_legal (seat_at self.now.seats.items place) result }
    {
        match self.seats.as_slice().get(place) {
            Some(seat) => terminal_copy(seat),
            None => None,
        }
    }

    /// Gives a bus whose terminals stand wherever those of this one stand, each at its place, without answers.
    pub fn copy(&self) -> TerminalBus<L>
    where
        L: Copy,
        ensures stands { (members : List Member) → BusStandsAt L.is_legal members self.now → BusStandsAt L.is_legal members result }
        ensures same { AreSameTerminals L.is_legal self.now result }
    {
        let places = self.seats.as_slice();
        let mut seats = ArrayVec::new();
        for place in places {
            seats.push(place_copy(place));
        }
        TerminalBus { seats }
    }
}
