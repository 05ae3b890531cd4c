//! The shortest legal commands of a subaddress, by which wraparound is shown.
ghost use Rattle.std.specs.Prelude.{◌≡◌, ◌≤◌};
ghost use Rattle.bus_legal.specs.Parts.{description_in, IsNormal};
ghost use Rattle.terminal_exchanges.specs.Distinguish.{shortest_receive, shortest_transmit};
ghost use Rattle.terminal_exchanges.specs.Values.{exchange_in};
ghost use Rattle.terminal_exchanges.specs.inner.Counts.{least_in};

use crate::exchange::{ALL_TERMINALS, Exchange, receive, transmit};
use bus_legal::Normal;

/// Gives the least word count of a mask in which bit `n - 1` stands for a word count of `n`, or 0 where it has none.
fn least_count(mask: u32) -> u8
    ensures count { result ≡ least_in mask }
    ensures room { result ≤ 32 }
{
    if mask == 0 {
        0
    } else {
        mask.trailing_zeros() as u8 + 1
    }
}

/// The shortest legal receive command of a subaddress, 1 to 30, by broadcast only where there is no other, with the
/// complement of the first word that is held there. Where none is legal, it is the command by broadcast with a count of 0.
pub fn shortest_receive(p: &Normal, subaddress: u8) -> Exchange
    requires normal { IsNormal p.now }
    requires low { 1 ≤ subaddress }
    requires high { subaddress ≤ 30 }
    ensures exchange { exchange_in result ≡ shortest_receive (description_in p.now) subaddress }
    ensures zeros { result.zeros ≤ 31 }
    ensures slots { result.slots ≤ 1 }
{
    let index = usize::from(subaddress) - 1;
    let tables = p.tables();
    let first = !p.initial()[index][0];
    if tables.own_receive[index] != 0 {
        let count = least_count(tables.own_receive[index]);
        receive(p.address(), subaddress, count, first)
    } else {
        let count = least_count(tables.broadcast_receive[index]);
        receive(ALL_TERMINALS, subaddress, count, first)
    }
}

/// The shortest legal transmit command of a subaddress, 1 to 30, with slots for the status and all its words. Where none is
/// legal, it is the command with a count of 0, and one slot.
pub fn shortest_transmit(p: &Normal, subaddress: u8) -> Exchange
    requires normal { IsNormal p.now }
    requires low { 1 ≤ subaddress }
    requires high { subaddress ≤ 30 }
    ensures exchange { exchange_in result ≡ shortest_transmit (description_in p.now) subaddress }
    ensures zeros { result.zeros ≡ 0 }
    ensures slots { result.slots ≤ 33 }
{
    let index = usize::from(subaddress) - 1;
    let count = least_count(p.tables().own_transmit[index]);
    transmit(p.address(), subaddress, count, count + 1)
}
