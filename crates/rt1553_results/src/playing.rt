//! An exchange, played to a terminal, and what is answered to it.
ghost use Rattle.std.specs.Prelude.{◌≡◌, ◌≤◌, ◌<◌, ◌+◌, ◌++◌, [], ◌∷◌, List, length, replicate, option_map};
ghost use Rattle.arrayvec.specs.ArrayVec.{array_vec_len};
ghost use Rattle.bus_word.specs.declared.word.Bus.TheVariants.{A};
ghost use Rattle.bus_legal.specs.Description.{Description};
ghost use Rattle.terminal_rules.specs.declared.event.Event.{Event};
ghost use Rattle.terminal_rules.specs.declared.event.Event.TheVariants.{Gap as GapEvent, Slot as SlotEvent};
ghost use Rattle.terminal_rules.specs.Out.{out, outs_from};
ghost use Rattle.terminal_exchanges.specs.Exchanges.{slots_then};
ghost use Rattle.terminal_exchanges.specs.Values.{exchange_in};
ghost use Rattle.terminal_exchanges.specs.ExchangeLaws.{after_words, before_its_gap, after_slots};
ghost use Rattle.bus_terminal.specs.Answer.{shown_handing, words_handed};
ghost use Rattle.bus_terminal.specs.Stands.{StandsAt};
ghost use Rattle.rt1553_results.specs.Rows.{sent_word, words_sent, handing_of, row_at, after_exchange};
ghost use Rattle.rt1553_results.specs.Handed.{handing_in, answered_in};

use arrayvec::ArrayVec;
use bus_complete_test::Exchange;
use bus_legal::Legality;
use bus_terminal::{Answer, Event, Hand, Terminal};
use bus_word::{Bus, Kind};

/// What a terminal handed over to its subsystem, kept.
#[derive(Drop)]
pub enum Handed {
    /// Words that were received.
    Received {
        /// Whether they came by broadcast.
        broadcast: bool,
        /// The subaddress, 1 to 30.
        subaddress: u8,
        /// The data words, in order.
        words: ArrayVec<u16, 32>,
    },
    /// Synchronize.
    Synchronize,
    /// Synchronize with this data word.
    SynchronizeWith(u16),
    /// Initiate self test.
    SelfTest,
    /// The offer of dynamic bus control was accepted.
    BusControl,
}

/// An exchange of the acceptance test, and what a terminal answers to it.
#[derive(Drop)]
pub struct TestRow {
    /// The number of the exchange, from 1.
    pub number: u32,
    pub exchange: Exchange,
    /// The words that are sent in the slots, the status word first; empty for no reply.
    pub reply: ArrayVec<u16, 33>,
    /// What is handed over at the gap.
    pub handed: Option<Handed>,
}

/// Copies words, for which there is room.
pub fn copied<const N: usize>(words: &[u16]) -> ArrayVec<u16, N>
    requires { length words.now ≤ N }
    ensures { result.items ≡ words.now }
{
    let mut copy = ArrayVec::new();
    let _ = copy.try_extend_from_slice(words);
    copy
}

/// Keeps what a terminal hands over.
fn kept(hand: &Hand<'_>) -> Handed
    requires { length (words_handed (shown_handing hand.now)) ≤ 32 }
    ensures { handing_in result ≡ shown_handing hand.now }
{
    match hand {
        Hand::Received {
            broadcast,
            subaddress,
            words,
        } => Handed::Received {
            broadcast: *broadcast,
            subaddress: *subaddress,
            words: copied(words),
        },
        Hand::Synchronize => Handed::Synchronize,
        Hand::SynchronizeWith(word) => Handed::SynchronizeWith(*word),
        Hand::SelfTest => Handed::SelfTest,
        Hand::BusControl => Handed::BusControl,
    }
}

/// Plays so many data words of 0.
fn take_zeros<L: Legality>(terminal: &mut Terminal<L>, count: u8)
    ensures { (P : Description) (h : List Event) → StandsAt L.is_legal P h terminal.old → StandsAt L.is_legal P (after_words (replicate count 0) h) terminal.new }
{
    for i in 0..count {
        terminal.take_valid(Bus::A, Kind::Dat, 0);
    }
}

/// Plays the command and the data words of an exchange.
fn take_words<L: Legality>(terminal: &mut Terminal<L>, exchange: &Exchange)
    ensures { (P : Description) (h : List Event) → StandsAt L.is_legal P h terminal.old → StandsAt L.is_legal P (before_its_gap (exchange_in exchange.now) h) terminal.new }
{
    terminal.take_valid(Bus::A, Kind::Com, exchange.command);
    if let Some(first) = exchange.first {
        terminal.take_valid(Bus::A, Kind::Dat, first);
        take_zeros(terminal, exchange.zeros);
    }
}

/// Plays the gap of an exchange, and keeps what is handed over at it.
fn take_gap<L: Legality>(terminal: &mut Terminal<L>) -> Option<Handed>
    ensures stands { (P : Description) (h : List Event) → StandsAt L.is_legal P h terminal.old → StandsAt L.is_legal P (GapEvent A ∷ h) terminal.new }
    ensures handed { (P : Description) (h : List Event) → StandsAt L.is_legal P h terminal.old → option_map handing_in result ≡ handing_of (out P h (GapEvent A)) }
{
    match terminal.step(Event::Gap(Bus::A)) {
        Answer::Hands(hand) => Some(kept(&hand)),
        Answer::Silent => None,
        Answer::Sends(_) => None,
    }
}

/// Plays a slot, and keeps the word that is sent in it.
fn take_slot<L: Legality>(terminal: &mut Terminal<L>, reply: &mut ArrayVec<u16, 33>)
    requires { array_vec_len reply.old < 33 }
    ensures stands { (P : Description) (h : List Event) → StandsAt L.is_legal P h terminal.old → StandsAt L.is_legal P (SlotEvent ∷ h) terminal.new }
    ensures sent { (P : Description) (h : List Event) → StandsAt L.is_legal P h terminal.old → reply.new.items ≡ reply.old.items ++ sent_word (out P h SlotEvent) }
    ensures len { array_vec_len reply.new ≤ array_vec_len reply.old + 1 }
{
    if let Answer::Sends(sent) = terminal.step(Event::Slot) {
        reply.push(sent.bits);
    }
}

/// Plays so many slots, and keeps the words that are sent in them.
fn take_slots<L: Legality>(terminal: &mut Terminal<L>, slots: u8) -> ArrayVec<u16, 33>
    requires { slots ≤ 33 }
    ensures stands { (P : Description) (h : List Event) → StandsAt L.is_legal P h terminal.old → StandsAt L.is_legal P (after_slots slots h) terminal.new }
    ensures sent { (P : Description) (h : List Event) → StandsAt L.is_legal P h terminal.old → result.items ≡ words_sent (outs_from P h (slots_then slots [])) }
{
    let mut reply = ArrayVec::new();
    for i in 0..slots {
        take_slot(terminal, &mut reply);
    }
    reply
}

/// Plays an exchange, and keeps what is answered to it.
pub fn play_exchange<L: Legality>(
    terminal: &mut Terminal<L>,
    number: u32,
    exchange: Exchange,
) -> TestRow
    requires { exchange.slots ≤ 33 }
    ensures stands { (P : Description) (h : List Event) → StandsAt L.is_legal P h terminal.old → StandsAt L.is_legal P (after_exchange (exchange_in exchange) h) terminal.new }
    ensures row { (P : Description) (h : List Event) → StandsAt L.is_legal P h terminal.old → answered_in result ≡ row_at P h (exchange_in exchange) }
    ensures number { result.number ≡ number }
{
    take_words(terminal, &exchange);
    let handed = take_gap(terminal);
    let reply = take_slots(terminal, exchange.slots);
    TestRow {
        number,
        exchange,
        reply,
        handed,
    }
}
