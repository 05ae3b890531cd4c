//! Answers as plain numbers.
ghost use Rattle.std.specs.Prelude.{◌≡◌, ◌≤◌, length, take, drop, Some};
ghost use Rattle.terminal_rules.specs.Out.{SendsWord, HandsOver};
ghost use Rattle.bus_terminal.specs.Answer.{shown_answer, shown_word, shown_handing, words_handed, IsSmall};
ghost use Rattle.rt1553_live.specs.PlainEvent.{bus_of_number};
ghost use Rattle.rt1553_live.specs.PlainAnswer.{answer_in};

use bus_terminal::{Answer, Hand, Sent};
use bus_word::{Bus, Kind};

/// An answer as plain numbers. What its kind doesn't name says nothing.
#[repr(C)]
#[derive(Clone, Copy, Drop, PartialEq, Eq, Debug, Default)]
pub struct PlainAnswer {
    /// 0 nothing; a word is sent: 1 a status word, 2 a data word; something is handed over: 3 words that were received,
    /// 4 synchronize, 5 synchronize with a word, 6 initiate self test, 7 the offer of bus control was accepted.
    pub what: u8,
    /// The bus on which a word is sent: 0 A, 1 B.
    pub bus: u8,
    /// The 16 bits of a word that is sent, or the word of synchronize with a word.
    pub bits: u16,
    /// Whether words that were received came by broadcast.
    pub broadcast: bool,
    /// The subaddress of words that were received, 1 to 30.
    pub subaddress: u8,
    /// How many words were received, at most 32.
    pub count: u8,
    /// The words that were received, in order, from the front.
    pub words: [u16; 32],
}

fn bus_number(bus: Bus) -> u8
    ensures { bus_of_number result ≡ Some bus }
{
    match bus {
        Bus::A => 0,
        Bus::B => 1,
    }
}

/// Puts items at the front of a row.
pub fn put_first<T: Copy>(row: &mut [T], items: &[T])
    requires { length items.now ≤ length row.old }
    ensures front { take (length items.now) row.new ≡ items.now }
    ensures behind { drop (length items.now) row.new ≡ drop (length items.now) row.old }
{
    row[..items.len()].copy_from_slice(items);
}

/// Shows a word that is sent.
fn show_sent(to: &mut PlainAnswer, sent: &Sent)
    ensures { answer_in to.new ≡ Some (SendsWord (shown_word sent.now)) }
{
    to.what = match sent.kind {
        Kind::Com => 1,
        Kind::Dat => 2,
    };
    to.bus = bus_number(sent.bus);
    to.bits = sent.bits;
}

/// Shows what is handed over.
fn show_hand(to: &mut PlainAnswer, hand: &Hand<'_>)
    requires { length (words_handed (shown_handing hand.now)) ≤ 32 }
    ensures { answer_in to.new ≡ Some (HandsOver (shown_handing hand.now)) }
{
    match hand {
        Hand::Received {
            broadcast,
            subaddress,
            words,
        } => {
            to.what = 3;
            to.broadcast = *broadcast;
            to.subaddress = *subaddress;
            to.count = words.len() as u8;
            put_first(&mut to.words, words);
        }
        Hand::Synchronize => to.what = 4,
        Hand::SynchronizeWith(word) => {
            to.what = 5;
            to.bits = *word;
        }
        Hand::SelfTest => to.what = 6,
        Hand::BusControl => to.what = 7,
    }
}

/// Shows an answer.
pub fn show(to: &mut PlainAnswer, answer: &Answer<'_>)
    requires { IsSmall (shown_answer answer.now) }
    ensures { answer_in to.new ≡ Some (shown_answer answer.now) }
{
    match answer {
        Answer::Silent => to.what = 0,
        Answer::Sends(sent) => show_sent(to, sent),
        Answer::Hands(hand) => show_hand(to, hand),
    }
}
