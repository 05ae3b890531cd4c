//! The first difference between what can be reached of two terminals.
ghost use Rattle.bus_legal.specs.Parts.{description_in, IsNormal};
ghost use Rattle.bus_canon.specs.inner.Search.{AlikeBefore, Found};

use crate::places::{first_bit, first_count, first_word};
use bus_legal::Normal;

/// In what two terminals differ. Subaddresses are 1 to 30, word counts and numbers of words 1 to 32,
/// mode codes 0 to 31.
#[derive(Clone, Copy, PartialEq, Eq, Debug)]
pub enum Difference {
    /// The address.
    Address,
    /// The broadcast option.
    BroadcastOption,
    /// Whether the own address may receive this count of words at this subaddress.
    ReceiveCell(u8, u8),
    /// Whether the own address may transmit this count of words from this subaddress.
    TransmitCell(u8, u8),
    /// Whether this count of words may be received at this subaddress by broadcast.
    BroadcastReceiveCell(u8, u8),
    /// Whether this mode code is legal to the own address.
    OwnCode(u8),
    /// Whether this mode code is legal by broadcast.
    BroadcastCode(u8),
    /// Whether dynamic bus control is accepted.
    Acceptance,
    /// The vector word.
    VectorWord,
    /// The BIT word.
    BitWord,
    /// The word of this subaddress and this number that is held at power-up.
    InitialWord(u8, u8),
    /// The wraparound subaddress, at which words that are received replace those held there.
    Wraparound,
}

/// Gives the first difference in what is legal, where address and broadcast option are alike.
fn cell_difference(p: &Normal, q: &Normal) -> Option<Difference>
    requires first { IsNormal p.now }
    requires second { IsNormal q.now }
    requires before { AlikeBefore 3 (description_in p.now) (description_in q.now) }
    ensures { Found 8 (description_in p.now) (description_in q.now) result }
{
    let (ours, theirs) = (p.tables(), q.tables());
    if let Some((s, n)) = first_count(&ours.own_receive, &theirs.own_receive) {
        return Some(Difference::ReceiveCell(s, n));
    }
    if let Some((s, n)) = first_count(&ours.own_transmit, &theirs.own_transmit) {
        return Some(Difference::TransmitCell(s, n));
    }
    if let Some((s, n)) = first_count(&ours.broadcast_receive, &theirs.broadcast_receive) {
        return Some(Difference::BroadcastReceiveCell(s, n));
    }
    if let Some(code) = first_bit(ours.own_mode, theirs.own_mode) {
        return Some(Difference::OwnCode(code));
    }
    if let Some(code) = first_bit(ours.broadcast_mode, theirs.broadcast_mode) {
        return Some(Difference::BroadcastCode(code));
    }
    None
}

/// Gives the first difference in the words and in what is done with them, where all before is alike.
fn word_difference(p: &Normal, q: &Normal) -> Option<Difference>
    requires before { AlikeBefore 8 (description_in p.now) (description_in q.now) }
    ensures { Found 13 (description_in p.now) (description_in q.now) result }
{
    if p.accept() != q.accept() {
        return Some(Difference::Acceptance);
    }
    if p.vector() != q.vector() {
        return Some(Difference::VectorWord);
    }
    if p.bit() != q.bit() {
        return Some(Difference::BitWord);
    }
    if let Some((s, i)) = first_word(p.initial(), q.initial()) {
        return Some(Difference::InitialWord(s, i));
    }
    if p.wrap() != q.wrap() {
        return Some(Difference::Wraparound);
    }
    None
}

/// The first difference, in the order of `Difference` and there by the least numbers.
pub fn first_difference(p: &Normal, q: &Normal) -> Option<Difference>
    requires first { IsNormal p.now }
    requires second { IsNormal q.now }
    ensures { Found 13 (description_in p.now) (description_in q.now) result }
{
    if p.address() != q.address() {
        return Some(Difference::Address);
    }
    if p.broadcast() != q.broadcast() {
        return Some(Difference::BroadcastOption);
    }
    if let Some(difference) = cell_difference(p, q) {
        return Some(difference);
    }
    word_difference(p, q)
}
