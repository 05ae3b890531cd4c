//! What is answered: the next word of a reply, and what is handed over.
use super::Terminal;
use crate::answer::{Answer, Hand, Sent};
use bus_legal::Legality;
use bus_word::{Cell, Kind, mode, status_of};
use terminal_state::{Ended, Reply};

impl<L: Legality> Terminal<L> {
    ghost use Rattle.std.specs.Prelude.{◌≡◌, true, Some};
    ghost use Rattle.terminal_rules.specs.Out.{hands, code_hands, handing_over, HandsReceived};
    ghost use Rattle.terminal_state.specs.Ended.{ending_of};
    ghost use Rattle.terminal_state.specs.Places.{has_place};
    ghost use Rattle.terminal_state.specs.Replies.{shown_reply, can_send};
    ghost use Rattle.bus_terminal.specs.inner.Terminal.{reply_word_from, sends_from};
    ghost use Rattle.bus_terminal.specs.Answer.{shown_answer, AreFew, IsSmall};
    ghost use Rattle.bus_terminal.specs.inner.Answer.{shown_sent, shown_hand};
    ghost use Rattle.bus_terminal.specs.Stands.{own_description, held_word};

    /// Gives data word `number` of a reply, by the cell of what was done.
    #[inline(always)]
    fn reply_word(&self, cell: Option<Cell>, number: u8) -> u16
        ensures { has_place cell number ≡ true → result ≡ reply_word_from self.now.registers (held_word self.now) cell number }
    {
        match cell {
            Some(Cell::OwnTransmit(subaddress, _)) => self.held.word(subaddress, number),
            Some(Cell::OwnMode(code)) => match code {
                mode::VECTOR_WORD => self.registers.vector,
                mode::LAST_COMMAND => self.registers.last.bits(),
                mode::BIT_WORD => self.registers.bit,
                _ => 0,
            },
            _ => 0,
        }
    }

    /// Gives the next word of a reply.
    #[inline(always)]
    pub(super) fn next_sent(&self, reply: &Reply) -> Sent
        ensures { can_send (shown_reply (Some reply.now)) ≡ true → shown_sent (Some result) ≡ sends_from self.now.settings.address self.now.registers (held_word self.now) (shown_reply (Some reply.now)) }
    {
        if reply.next == 0 {
            Sent {
                bus: reply.bus,
                kind: Kind::Com,
                bits: status_of(self.settings.address, self.registers.kept),
            }
        } else {
            Sent {
                bus: reply.bus,
                kind: Kind::Dat,
                bits: self.reply_word(reply.cell, reply.next),
            }
        }
    }

    /// Gives what is handed over, where a gap ended a message so, as an answer.
    #[inline(always)]
    pub(super) fn handed(&self, ended: &Ended) -> Answer<'_>
        ensures answer { shown_answer result ≡ handing_over (hands (own_description L.is_legal self.now) (ending_of ended.now self.now.in_progress.words.items)) }
        ensures small { IsSmall (shown_answer result) }
    {
        match self.hand(ended) {
            Some(hand) => Answer::Hands(hand),
            None => Answer::Silent,
        }
    }

    /// Gives what is handed over, where a gap ended a message so.
    #[inline(always)]
    fn hand(&self, ended: &Ended) -> Option<Hand<'_>>
        ensures hand { shown_hand result ≡ hands (own_description L.is_legal self.now) (ending_of ended.now self.now.in_progress.words.items) }
        ensures few { AreFew (shown_hand result) }
    {
        match ended {
            Ended::Done(_, Cell::OwnReceive(subaddress, _)) => Some(self.received(
                false,
                *subaddress,
            )),
            Ended::Done(_, Cell::BroadReceive(subaddress, _)) => Some(self.received(
                true,
                *subaddress,
            )),
            Ended::Done(_, Cell::OwnMode(code)) => self.hand_of_code(*code, self.settings.accept),
            Ended::Done(_, Cell::BroadMode(code)) => self.hand_of_code(*code, false),
            _ => None,
        }
    }

    /// Lends the words in the buffer, as received at this subaddress.
    #[inline(always)]
    fn received(&self, broadcast: bool, subaddress: u8) -> Hand<'_>
        ensures hand { shown_hand (Some result) ≡ Some (HandsReceived broadcast subaddress self.now.in_progress.words.items) }
        ensures few { AreFew (shown_hand (Some result)) }
    {
        Hand::Received {
            broadcast,
            subaddress,
            words: self.in_progress.words.as_slice(),
        }
    }

    /// Gives what a mode code hands over.
    #[inline(always)]
    fn hand_of_code(&self, code: u8, accepts: bool) -> Option<Hand<'_>>
        ensures hand { shown_hand result ≡ code_hands code accepts self.now.in_progress.words.items }
        ensures few { AreFew (shown_hand result) }
    {
        match code {
            mode::DYNAMIC_BUS_CONTROL if accepts => Some(Hand::BusControl),
            mode::SYNCHRONIZE => Some(Hand::Synchronize),
            mode::SELF_TEST => Some(Hand::SelfTest),
            mode::SYNCHRONIZE_WITH_WORD => Some(Hand::SynchronizeWith(
                self.in_progress.first_word(),
            )),
            _ => None,
        }
    }
}
