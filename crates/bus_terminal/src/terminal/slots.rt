//! Many slots at once: what a reply sends in them is asked first, and then they are taken.
use super::Terminal;
use crate::answer::{NextWord, WordsToSend};
use bus_legal::Legality;
use bus_word::Cell;
use terminal_rules::Event;
use terminal_state::advance_by;

impl<L: Legality> Terminal<L> {
    ghost use Rattle.std.specs.Prelude.{◌≡◌, is_some, List, IfSome, IfNone, length};
    ghost use Rattle.bus_legal.specs.Description.{Description};
    ghost use Rattle.terminal_rules.specs.Past.{past, history_after};
    ghost use Rattle.terminal_rules.specs.Reply.{reply_now};
    ghost use Rattle.bus_terminal.specs.Stands.{StandsAt};
    ghost use Rattle.bus_terminal.specs.Slots.{slots, words_left, AreSent, shown_next};

    /// Tells whether a reply is in progress. Where none is, nothing is sent in the slots to come.
    #[inline(always)]
    pub fn is_replying(&self) -> bool
        ensures { (P : Description) (h : List Event) → StandsAt L.is_legal P h self.now → result ≡ is_some (reply_now (past P h)) }
    {
        self.reply.is_some()
    }

    /// Gives the word that the reply in progress sends next. None where no reply is in progress.
    #[inline(always)]
    pub fn next_word(&self) -> Option<NextWord>
        ensures { (P : Description) (h : List Event) → StandsAt L.is_legal P h self.now → shown_next result ≡ reply_now (past P h) }
    {
        match &self.reply {
            Some(reply) => Some(NextWord {
                bus: reply.bus,
                cell: reply.cell,
                number: reply.next,
            }),
            None => None,
        }
    }

    /// Lends the words of a subaddress that the reply in progress is still to send, all of them. None where the next slot sends no such
    /// word.
    #[inline(always)]
    pub fn words_to_send(&self) -> Option<WordsToSend<'_>>
        ensures words { IfSome result (λ it. (P : Description) (h : List Event) → StandsAt L.is_legal P h self.now → AreSent P h it.bus it.words.now) }
        ensures all { IfSome result (λ it. (P : Description) (h : List Event) → StandsAt L.is_legal P h self.now → length it.words.now ≡ words_left (reply_now (past P h))) }
        ensures none { IfNone result ((P : Description) (h : List Event) → StandsAt L.is_legal P h self.now → words_left (reply_now (past P h)) ≡ 0) }
    {
        match &self.reply {
            Some(reply) => match reply.cell {
                Some(Cell::OwnTransmit(subaddress, _)) if reply.next > 0 => Some(WordsToSend {
                    bus: reply.bus,
                    words: self.held.words(subaddress, reply.next, reply.count),
                }),
                _ => None,
            },
            None => None,
        }
    }

    /// Takes so many slots, and drops what they send.
    #[inline(always)]
    pub fn take_slots(&mut self, count: usize)
        ensures { (P : Description) (h : List Event) → StandsAt L.is_legal P h self.old → StandsAt L.is_legal P (history_after (slots count) h) self.new }
    {
        if count > 0 {
            // the first may be that of a status, which resets
            self.take_slot();
            advance_by(&mut self.reply, count - 1);
        }
    }
}
