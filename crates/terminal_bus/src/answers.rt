//! The answers of the terminals of a bus, as callers read them.
ghost use Rattle.std.specs.Prelude.{◌≡◌, IfSome};
ghost use Rattle.std.specs.Option.{option_map};
ghost use Rattle.bus_terminal.specs.Answer.{shown_answer, IsSmall};
ghost use Rattle.terminal_bus.specs.AtMembers.{kept_at, answered_address};
ghost use Rattle.terminal_bus.specs.inner.Seats.{address_at};

use crate::seat::Seat;
use bus_terminal::Answer;

/// What a terminal of the bus did in a step.
#[derive(Clone, Copy, Debug, PartialEq, Eq)]
pub struct AddressedAnswer<'a> {
    /// The address of the terminal, 0 to 30.
    pub address: u8,
    /// What it sent or handed over.
    pub answer: Answer<'a>,
}

/// Lends the answer that a place keeps.
pub(crate) fn answer_of<L>(place: &Option<Seat<L>>) -> Option<AddressedAnswer<'_>>
    ensures answer { IfSome result (λ it. shown_answer it.answer ≡ kept_at place.now) }
    ensures small { IfSome result (λ it. IsSmall (shown_answer it.answer)) }
    ensures address { option_map answered_address result ≡ address_at place.now }
{
    match place {
        Some(seat) => Some(AddressedAnswer {
            address: seat.address,
            answer: seat.answer.lent(),
        }),
        None => None,
    }
}
