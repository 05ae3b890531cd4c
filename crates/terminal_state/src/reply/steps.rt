//! How a reply begins and goes on.
ghost use Rattle.std.specs.Prelude.{◌≡◌, true, Some};
ghost use Rattle.terminal_state.specs.Places.{has_place, can_reply};
ghost use Rattle.terminal_state.specs.Replies.{shown_reply, reply_at, sent_many};
ghost use Rattle.terminal_rules.specs.Steps.{begun_if, sent_one, resets_next};

use super::{Reply, words_after_status};
use bus_word::{Bus, Cell, is_data_place, mode};

impl Reply {
    /// Tells whether the next word is the status of a reset.
    #[inline(always)]
    pub fn resets(&self) -> bool
        ensures { result ≡ resets_next (shown_reply (Some self.now)) }
    {
        self.next == 0 && matches!(self.cell, Some(Cell::OwnMode(mode::RESET)))
    }

    /// Gives the reply to a message of this cell whose word `next` is sent next. None where its words are not those of a place
    /// that can be read, or fewer follow the status.
    pub fn at(bus: Bus, cell: Option<Cell>, next: u8) -> Option<Reply>
        ensures { shown_reply result ≡ reply_at bus cell next }
    {
        let count = words_after_status(cell);
        if has_place(cell, count) && next <= count {
            Some(Reply {
                bus,
                cell,
                next,
                count,
            })
        } else {
            None
        }
    }
}

/// Tells whether so many data words of a reply are those of places that can be read.
fn has_place(cell: Option<Cell>, count: u8) -> bool
    ensures { result ≡ has_place cell count }
{
    match cell {
        Some(Cell::OwnTransmit(subaddress, _)) => is_data_place(subaddress, count),
        _ => true,
    }
}

/// Begins the reply on this bus to a message of this cell, where that was done, if one begins. Its status is sent next.
#[inline(always)]
pub fn begin(reply: &mut Option<Reply>, begins: bool, bus: Bus, cell: Option<Cell>)
    requires { can_reply cell ≡ true }
    ensures { shown_reply reply.new ≡ begun_if begins bus cell (shown_reply reply.old) }
{
    if begins {
        *reply = Some(Reply {
            bus,
            cell,
            next: 0,
            count: words_after_status(cell),
        });
    }
}

/// Takes the slot in which the next word of the reply in progress is sent: what is left is the rest of it, or nothing. Where
/// words are left, their number alone is written: a slot of a long reply stays short.
#[inline(always)]
pub fn advance(reply: &mut Option<Reply>)
    ensures { shown_reply reply.new ≡ sent_one (shown_reply reply.old) }
{
    if let Some(it) = reply {
        if it.next < it.count {
            it.next += 1;
            return;
        }
    }
    *reply = None;
}

/// Takes so many slots of the reply in progress at once.
#[inline(always)]
#[tactic(auto, using(crate::proofs::SentLaw::sent_none, crate::proofs::SentLaw::sent_law))]
pub fn advance_by(reply: &mut Option<Reply>, slots: usize)
    ensures { shown_reply reply.new ≡ sent_many slots (shown_reply reply.old) }
{
    if let Some(it) = reply {
        if slots <= it.count.saturating_sub(it.next) as usize {
            it.next += slots as u8;
            return;
        }
    }
    *reply = None;
}
