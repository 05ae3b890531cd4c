//! The exchanges by which the complete test tries each thing.
ghost use Rattle.std.specs.Prelude.{◌≡◌, ◌≤◌, ◌<◌, [], ◌∷◌, map};
ghost use Rattle.bus_legal.specs.Parts.{description_in, IsNormal};
ghost use Rattle.terminal_exchanges.specs.Distinguish.{ask};
ghost use Rattle.terminal_exchanges.specs.Values.{exchange_in, IsShort, AreShort};
ghost use Rattle.bus_complete_test.specs.CompleteTest.{own_code_tried, broadcast_code_tried, wraparound_tried};
ghost use Rattle.bus_complete_test.specs.Trials.{IsTrialInRange, tried_at};

use crate::trial::Trial;
use arrayvec::ArrayVec;
use bus_legal::Normal;
use bus_word::mode::{BIT_WORD, LAST_COMMAND, TRANSMIT_STATUS, VECTOR_WORD};
use bus_word::mode_row;
use terminal_exchanges::{
    ALL_TERMINALS, Exchange, ask, mode_code, receive, shortest_receive, shortest_transmit, transmit,
};

/// Gives one exchange.
fn alone(exchange: Exchange) -> ArrayVec<Exchange, 2>
    requires { IsShort exchange }
    ensures exchanges { map exchange_in result.items ≡ exchange_in exchange ∷ [] }
    ensures short { AreShort result.items }
{
    let mut exchanges = ArrayVec::new();
    exchanges.push(exchange);
    exchanges
}

/// Gives an exchange, and then the question for the status that is kept.
fn asked(exchange: Exchange, address: u8) -> ArrayVec<Exchange, 2>
    requires short { IsShort exchange }
    requires address { address < 32 }
    ensures exchanges { map exchange_in result.items ≡ exchange_in exchange ∷ ask address ∷ [] }
    ensures short { AreShort result.items }
{
    let mut exchanges = ArrayVec::new();
    exchanges.push(exchange);
    exchanges.push(ask(address));
    exchanges
}

/// Gives the exchange of an own mode code, if it may be legal, with the slots that its reply can need.
fn own_code(p: &Normal, code: u8) -> ArrayVec<Exchange, 2>
    requires normal { IsNormal p.now }
    requires code { code < 32 }
    ensures exchanges { map exchange_in result.items ≡ own_code_tried (description_in p.now) code }
    ensures short { AreShort result.items }
{
    if mode_row(code).is_none() {
        return ArrayVec::new();
    }
    let slots = if code == VECTOR_WORD || code == LAST_COMMAND || code == BIT_WORD {
        2
    } else {
        1
    };
    alone(mode_code(slots, p.address(), code))
}

/// Gives the exchanges of a broadcast mode code, if it may be legal.
fn broadcast_code(p: &Normal, code: u8) -> ArrayVec<Exchange, 2>
    requires normal { IsNormal p.now }
    requires code { code < 32 }
    ensures exchanges { map exchange_in result.items ≡ broadcast_code_tried (description_in p.now) code }
    ensures short { AreShort result.items }
{
    match mode_row(code) {
        Some(row) if row.broadcast => asked(mode_code(1, ALL_TERMINALS, code), p.address()),
        _ => ArrayVec::new(),
    }
}

/// Gives the exchanges that show wraparound at a subaddress, 1 to 30, where words can come back.
fn wraparound(p: &Normal, subaddress: u8) -> ArrayVec<Exchange, 2>
    requires normal { IsNormal p.now }
    requires low { 1 ≤ subaddress }
    requires high { subaddress ≤ 30 }
    ensures exchanges { map exchange_in result.items ≡ wraparound_tried (description_in p.now) subaddress }
    ensures short { AreShort result.items }
{
    let mut exchanges = ArrayVec::new();
    if p.tables().can_wrap(subaddress) {
        exchanges.push(shortest_receive(p, subaddress));
        exchanges.push(shortest_transmit(p, subaddress));
    }
    exchanges
}

/// The exchanges of a trial: at most two, each of at most 32 data words and 33 slots.
pub fn exchanges_of(p: &Normal, trial: Trial) -> ArrayVec<Exchange, 2>
    requires { IsTrialInRange trial }
    ensures exchanges { map exchange_in result.items ≡ tried_at (description_in p.now) trial }
    ensures short { AreShort result.items }
{
    // With a set-up comes the promise that nothing unreached is in the `Normal`.
    p.setup();
    let own = p.address();
    match trial {
        Trial::BroadcastOption => asked(mode_code(1, ALL_TERMINALS, TRANSMIT_STATUS), own),
        Trial::Transmit(s, n) => alone(transmit(own, s, n, n + 1)),
        Trial::Receive(s, n) => alone(receive(own, s, n, 0)),
        Trial::OwnCode(code) => own_code(p, code),
        Trial::BroadcastReceive(s, n) => asked(receive(ALL_TERMINALS, s, n, 0), own),
        Trial::BroadcastCode(code) => broadcast_code(p, code),
        Trial::Wraparound(s) => wraparound(p, s),
    }
}
