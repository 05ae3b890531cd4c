//! The scripts that tell two terminals apart.
ghost use Rattle.std.specs.Prelude.{◌≡◌, ◌↔◌, ◌≤◌, ◌⊎◌, ◌-◌, ℕ, IsNone, IfSome, IsTrue, true, get_or};
ghost use Rattle.bus_word.specs.Cell.{is_data_place};
ghost use Rattle.bus_word.specs.declared.cell.Cell.TheVariants.{OwnReceive, OwnTransmit, BroadReceive};
ghost use Rattle.bus_legal.specs.Parts.{description_in, IsNormal};
ghost use Rattle.terminal_exchanges.specs.Distinguish.{TellsApart};
ghost use Rattle.bus_canon.specs.declared.difference.Difference.{Difference};
ghost use Rattle.bus_canon.specs.Difference.{AreAlike, AreAlikeAt, IsFirstDifference, IsInRange, NothingHides, script_for};

use crate::difference::{Difference, first_difference};
use crate::script::{script_for, shown_subaddress};
use bus_legal::{Legality, Normal};
use bus_word::Cell;
use bus_word::mode::{BIT_WORD, DYNAMIC_BUS_CONTROL, VECTOR_WORD};
use terminal_exchanges::Script;

/// The script that shows the first difference between two terminals, by what can be reached of them;
/// None exactly where the two are equal. From power-up the two answer the script otherwise: at most 70 events of
/// bus A, made for the address of the first.
pub fn distinguish(p: &Normal, q: &Normal) -> Option<Script>
    ensures same { IsNone result ↔ (p.now ≡ q.now) }
    ensures first { IfSome result (λ script. (d : Difference) × IsFirstDifference (description_in p.now) (description_in q.now) d × (script.items ≡ script_for (description_in p.now) (description_in q.now) d)) }
    ensures apart { IfSome result (λ script. TellsApart (description_in p.now) (description_in q.now) script.items) }
    ensures normal_first { IsNormal p.now }
    ensures normal_second { IsNormal q.now }
{
    // With a set-up comes the promise that nothing unreached is in the `Normal`.
    p.setup();
    q.setup();
    match first_difference(p, q) {
        Some(difference) => Some(script_for(p, q, difference)),
        None => None,
    }
}

/// Tells whether two tables have the same word counts at a subaddress.
fn has_same_counts(ours: &[u32; 30], theirs: &[u32; 30], subaddress: u8) -> bool
    requires low { 1 ≤ subaddress }
    requires high { subaddress ≤ 30 }
    ensures { IsTrue result ↔ (get_or ours.now (subaddress - 1) 0 ≡ get_or theirs.now (subaddress - 1) 0) }
{
    let index = usize::from(subaddress) - 1;
    ours[index] == theirs[index]
}

/// Tells whether the own addresses may receive the same word counts at a subaddress.
fn receives_same(p: &Normal, q: &Normal, subaddress: u8) -> bool
    requires first { IsNormal p.now }
    requires second { IsNormal q.now }
    requires low { 1 ≤ subaddress }
    requires high { subaddress ≤ 30 }
    ensures { IsTrue result ↔ ((n : ℕ) → (description_in p.now).legal (OwnReceive subaddress n) ≡ (description_in q.now).legal (OwnReceive subaddress n)) }
{
    has_same_counts(&p.tables().own_receive, &q.tables().own_receive, subaddress)
}

/// Tells whether the own addresses may transmit the same word counts from a subaddress.
fn transmits_same(p: &Normal, q: &Normal, subaddress: u8) -> bool
    requires first { IsNormal p.now }
    requires second { IsNormal q.now }
    requires low { 1 ≤ subaddress }
    requires high { subaddress ≤ 30 }
    ensures { IsTrue result ↔ ((n : ℕ) → (description_in p.now).legal (OwnTransmit subaddress n) ≡ (description_in q.now).legal (OwnTransmit subaddress n)) }
{
    has_same_counts(
        &p.tables().own_transmit,
        &q.tables().own_transmit,
        subaddress,
    )
}

/// Tells whether the same word counts may be received at a subaddress by broadcast.
fn hears_same(p: &Normal, q: &Normal, subaddress: u8) -> bool
    requires first { IsNormal p.now }
    requires second { IsNormal q.now }
    requires low { 1 ≤ subaddress }
    requires high { subaddress ≤ 30 }
    ensures { IsTrue result ↔ ((n : ℕ) → (description_in p.now).legal (BroadReceive subaddress n) ≡ (description_in q.now).legal (BroadReceive subaddress n)) }
{
    has_same_counts(
        &p.tables().broadcast_receive,
        &q.tables().broadcast_receive,
        subaddress,
    )
}

/// Tells whether the two hold the same word of this number at a subaddress.
fn holds_same(p: &Normal, q: &Normal, subaddress: u8, number: u8) -> bool
    requires { is_data_place subaddress number ≡ true }
    ensures { IsTrue result ↔ ((description_in p.now).initial subaddress number ≡ (description_in q.now).initial subaddress number) }
{
    let row = usize::from(subaddress) - 1;
    let at = usize::from(number) - 1;
    p.initial()[row][at] == q.initial()[row][at]
}

/// Tells whether what is received and transmitted at a subaddress is alike, and so is the first word that is held there.
fn is_alike_at(p: &Normal, q: &Normal, subaddress: u8) -> bool
    requires first { IsNormal p.now }
    requires second { IsNormal q.now }
    requires low { 1 ≤ subaddress }
    requires high { subaddress ≤ 30 }
    ensures { IsTrue result ↔ AreAlikeAt subaddress (description_in p.now) (description_in q.now) }
{
    p.broadcast() == q.broadcast()
        && receives_same(p, q, subaddress)
        && transmits_same(p, q, subaddress)
        && hears_same(p, q, subaddress)
        && holds_same(p, q, subaddress, 1)
}

/// Tells whether the cell is legal in both or in neither.
fn is_alike(p: &Normal, q: &Normal, cell: Cell) -> bool
    ensures { IsTrue result ↔ ((description_in p.now).legal cell ≡ (description_in q.now).legal cell) }
{
    p.legal(cell) == q.legal(cell)
}

/// Tells whether the two are alike in this.
fn are_alike(p: &Normal, q: &Normal, difference: Difference) -> bool
    requires { IsInRange difference }
    ensures { IsTrue result ↔ AreAlike (description_in p.now) (description_in q.now) difference }
{
    match difference {
        Difference::Address => p.address() == q.address(),
        Difference::BroadcastOption => p.broadcast() == q.broadcast(),
        Difference::ReceiveCell(s, n) => is_alike(p, q, Cell::OwnReceive(s, n)),
        Difference::TransmitCell(s, n) => is_alike(p, q, Cell::OwnTransmit(s, n)),
        Difference::BroadcastReceiveCell(s, n) => is_alike(p, q, Cell::BroadReceive(s, n)),
        Difference::OwnCode(code) => is_alike(p, q, Cell::OwnMode(code)),
        Difference::BroadcastCode(code) => is_alike(p, q, Cell::BroadMode(code)),
        Difference::Acceptance => p.accept() == q.accept(),
        Difference::VectorWord => p.vector() == q.vector(),
        Difference::BitWord => p.bit() == q.bit(),
        Difference::InitialWord(s, i) => holds_same(p, q, s, i),
        Difference::Wraparound => p.wrap() == q.wrap(),
    }
}

/// Tells whether nothing is in the way of a difference.
fn nothing_hides(p: &Normal, q: &Normal, difference: Difference) -> bool
    requires range { IsInRange difference }
    requires first { IsNormal p.now }
    requires second { IsNormal q.now }
    requires differ { AreAlike (description_in p.now) (description_in q.now) difference → ⊥ }
    ensures { IsTrue result ↔ NothingHides (description_in p.now) (description_in q.now) difference }
{
    let address = p.address() == q.address();
    let option = p.broadcast() == q.broadcast();
    match difference {
        Difference::Address => true,
        Difference::BroadcastOption
        | Difference::ReceiveCell(_, _)
        | Difference::TransmitCell(_, _)
        | Difference::OwnCode(_) => address,
        Difference::BroadcastReceiveCell(_, _) | Difference::BroadcastCode(_) => address && option,
        Difference::Acceptance => address && is_alike(p, q, Cell::OwnMode(DYNAMIC_BUS_CONTROL)),
        Difference::VectorWord => address && is_alike(p, q, Cell::OwnMode(VECTOR_WORD)),
        Difference::BitWord => address && is_alike(p, q, Cell::OwnMode(BIT_WORD)),
        Difference::InitialWord(s, _) => address && transmits_same(p, q, s),
        Difference::Wraparound => address && is_alike_at(p, q, shown_subaddress(p, q)),
    }
}

/// The script of this difference, given exactly where the two differ in it and nothing is in its way: then it shows the
/// difference whatever else differs. From power-up the two answer it otherwise.
pub fn script_showing(p: &Normal, q: &Normal, difference: Difference) -> Option<Script>
    requires { IsInRange difference }
    ensures none { IsNone result ↔ (AreAlike (description_in p.now) (description_in q.now) difference ⊎ (NothingHides (description_in p.now) (description_in q.now) difference → ⊥)) }
    ensures script { IfSome result (λ script. script.items ≡ script_for (description_in p.now) (description_in q.now) difference) }
    ensures apart { IfSome result (λ script. TellsApart (description_in p.now) (description_in q.now) script.items) }
{
    // With a set-up comes the promise that nothing unreached is in the `Normal`.
    p.setup();
    q.setup();
    if are_alike(p, q, difference) {
        None
    } else if nothing_hides(p, q, difference) {
        Some(script_for(p, q, difference))
    } else {
        None
    }
}
