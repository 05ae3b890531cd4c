//! An answer with words of its own, which outlives the terminal's next event.
ghost use Rattle.std.specs.Prelude.{◌≡◌, ◌≤◌, length};
ghost use Rattle.std.specs.Option.{option_map};
ghost use Rattle.bus_terminal.specs.declared.answer.Answer.TheVariants.{Hands};
ghost use Rattle.terminal_rules.specs.Out.{sent_in};
ghost use Rattle.bus_terminal.specs.Answer.{shown_word, shown_answer, shown_copy, IsSmall};

use crate::answer::{Answer, Hand, Sent};
use arrayvec::ArrayVec;

/// An answer with words of its own: the same cases as those of `Answer` and `Hand`.
#[derive(Drop)]
pub enum CopiedAnswer {
    Silent,
    Sends(Sent),
    Received {
        broadcast: bool,
        subaddress: u8,
        words: ArrayVec<u16, 32>,
    },
    Synchronize,
    SynchronizeWith(u16),
    SelfTest,
    BusControl,
}

/// Copies at most 32 words.
fn copied(words: &[u16]) -> ArrayVec<u16, 32>
    requires { length words.now ≤ 32 }
    ensures { result.items ≡ words.now }
{
    let mut copy = ArrayVec::new();
    match copy.try_extend_from_slice(words) {
        Ok(()) => {}
        Err(_) => {}
    }
    copy
}

/// Copies what is handed over.
fn copied_hand(hand: Hand<'_>) -> CopiedAnswer
    requires { IsSmall (shown_answer (Hands hand)) }
    ensures { shown_copy result ≡ shown_answer (Hands hand.entry) }
{
    match hand {
        Hand::Received {
            broadcast,
            subaddress,
            words,
        } => CopiedAnswer::Received {
            broadcast,
            subaddress,
            words: copied(words),
        },
        Hand::Synchronize => CopiedAnswer::Synchronize,
        Hand::SynchronizeWith(word) => CopiedAnswer::SynchronizeWith(word),
        Hand::SelfTest => CopiedAnswer::SelfTest,
        Hand::BusControl => CopiedAnswer::BusControl,
    }
}

impl CopiedAnswer {
    /// Copies an answer.
    pub fn of(answer: Answer<'_>) -> CopiedAnswer
        requires { IsSmall (shown_answer answer) }
        ensures { shown_copy result ≡ shown_answer answer.entry }
    {
        match answer {
            Answer::Silent => CopiedAnswer::Silent,
            Answer::Sends(sent) => CopiedAnswer::Sends(sent),
            Answer::Hands(hand) => copied_hand(hand),
        }
    }

    /// Lends the answer.
    pub fn lent(&self) -> Answer<'_>
        ensures answer { shown_answer result ≡ shown_copy self.now }
        ensures small { IsSmall (shown_answer result) }
    {
        match self {
            CopiedAnswer::Silent => Answer::Silent,
            CopiedAnswer::Sends(sent) => Answer::Sends(*sent),
            CopiedAnswer::Received {
                broadcast,
                subaddress,
                words,
            } => Answer::Hands(Hand::Received {
                broadcast: *broadcast,
                subaddress: *subaddress,
                words: words.as_slice(),
            }),
            CopiedAnswer::Synchronize => Answer::Hands(Hand::Synchronize),
            CopiedAnswer::SynchronizeWith(word) => Answer::Hands(Hand::SynchronizeWith(*word)),
            CopiedAnswer::SelfTest => Answer::Hands(Hand::SelfTest),
            CopiedAnswer::BusControl => Answer::Hands(Hand::BusControl),
        }
    }

    /// The word that is sent, if one is.
    pub fn sent(&self) -> Option<Sent>
        ensures { option_map shown_word result ≡ sent_in (shown_copy self.now) }
    {
        match self {
            CopiedAnswer::Sends(sent) => Some(*sent),
            _ => None,
        }
    }
}
