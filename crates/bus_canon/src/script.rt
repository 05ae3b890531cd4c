//! Scripts of one exchange or two that tell two terminals apart.
ghost use Rattle.std.specs.Prelude.{◌≡◌, ◌≢◌, ◌+◌, ◌≤◌, [], ◌∷◌};
ghost use Rattle.bus_legal.specs.Parts.{description_in, IsNormal};
ghost use Rattle.terminal_exchanges.specs.Exchanges.{script_of};
ghost use Rattle.terminal_exchanges.specs.Distinguish.{initial_script, wraparound_script, shown_subaddress};
ghost use Rattle.terminal_exchanges.specs.Values.{exchange_in};
ghost use Rattle.bus_canon.specs.Difference.{AreAlike, IsInRange, script_for};

use crate::difference::Difference;
use bus_legal::{Normal, largest_count};
use bus_word::mode::{BIT_WORD, DYNAMIC_BUS_CONTROL, TRANSMIT_STATUS, VECTOR_WORD};
use terminal_exchanges::{
    ALL_TERMINALS, Exchange, Script, ask, mode_code, push_exchange, receive, shortest_receive,
    shortest_transmit, transmit,
};

/// Gives the script of one exchange.
fn script_of_one(exchange: Exchange) -> Script
    requires { exchange.zeros + exchange.slots ≤ 77 }
    ensures { result.items ≡ script_of (exchange_in exchange ∷ []) }
{
    let mut script = Script::new();
    push_exchange(&mut script, exchange);
    script
}

/// Gives the script of two exchanges.
fn script_of_two(first: Exchange, second: Exchange) -> Script
    requires { first.zeros + first.slots + second.zeros + second.slots ≤ 74 }
    ensures { result.items ≡ script_of (exchange_in first ∷ exchange_in second ∷ []) }
{
    let mut script = Script::new();
    push_exchange(&mut script, first);
    push_exchange(&mut script, second);
    script
}

/// Gives the longest legal transmit command of a subaddress, 1 to 30.
fn initial_script(p: &Normal, subaddress: u8) -> Script
    requires normal { IsNormal p.now }
    requires low { 1 ≤ subaddress }
    requires high { subaddress ≤ 30 }
    ensures { result.items ≡ initial_script (description_in p.now) subaddress }
{
    let counts = p.tables().own_transmit[usize::from(subaddress) - 1];
    let count = largest_count(counts) as u8;
    script_of_one(transmit(p.address(), subaddress, count, count + 1))
}

/// Gives the shortest legal receive command of a subaddress, 1 to 30, and then the shortest legal transmit command.
fn wraparound_script(p: &Normal, subaddress: u8) -> Script
    requires normal { IsNormal p.now }
    requires low { 1 ≤ subaddress }
    requires high { subaddress ≤ 30 }
    ensures { result.items ≡ wraparound_script (description_in p.now) subaddress }
{
    script_of_two(
        shortest_receive(p, subaddress),
        shortest_transmit(p, subaddress),
    )
}

/// The subaddress that shows that two terminals don't have the same wraparound subaddress: that of the first, or
/// of the other where the first has none.
pub fn shown_subaddress(p: &Normal, q: &Normal) -> u8
    requires first { IsNormal p.now }
    requires second { IsNormal q.now }
    requires differ { p.now.wrap ≢ q.now.wrap }
    ensures value { result ≡ shown_subaddress p.now.wrap q.now.wrap }
    ensures low { 1 ≤ result }
    ensures high { result ≤ 30 }
{
    if p.wrap() == 0 { q.wrap() } else { p.wrap() }
}

/// The script that shows this difference between the first terminal and another.
pub fn script_for(p: &Normal, q: &Normal, difference: Difference) -> Script
    requires normal { IsNormal p.now }
    requires other { IsNormal q.now }
    requires differ { AreAlike (description_in p.now) (description_in q.now) difference → ⊥ }
    requires range { IsInRange difference }
    ensures { result.items ≡ script_for (description_in p.now) (description_in q.now) difference }
{
    let own = p.address();
    match difference {
        Difference::Address => script_of_one(ask(own)),
        Difference::BroadcastOption => {
            script_of_two(mode_code(1, ALL_TERMINALS, TRANSMIT_STATUS), ask(own))
        }
        Difference::ReceiveCell(s, n) => script_of_one(receive(own, s, n, 0)),
        Difference::TransmitCell(s, n) => script_of_one(transmit(own, s, n, 1)),
        Difference::BroadcastReceiveCell(s, n) => {
            script_of_two(receive(ALL_TERMINALS, s, n, 0), ask(own))
        }
        Difference::OwnCode(code) => script_of_one(mode_code(1, own, code)),
        Difference::BroadcastCode(code) => {
            script_of_two(mode_code(1, ALL_TERMINALS, code), ask(own))
        }
        Difference::Acceptance => script_of_one(mode_code(1, own, DYNAMIC_BUS_CONTROL)),
        Difference::VectorWord => script_of_one(mode_code(2, own, VECTOR_WORD)),
        Difference::BitWord => script_of_one(mode_code(2, own, BIT_WORD)),
        Difference::InitialWord(s, _) => initial_script(p, s),
        Difference::Wraparound => wraparound_script(p, shown_subaddress(p, q)),
    }
}
