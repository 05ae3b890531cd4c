//! All in which two terminals differ, by what can be reached of them.
ghost use Rattle.std.specs.Prelude.{◌≡◌, ◌≤◌, ◌<◌, ◌++◌, ◌∷◌, ◌↔◌, [], true, IfOk, OnOk};
ghost use Rattle.bus_word.specs.Cell.{is_data_place};
ghost use Rattle.bus_legal.specs.Parts.{description_in};
ghost use Rattle.bus_canon.specs.Difference.{IsInRange};
ghost use Rattle.rt1553_differ.specs.Told.{unlike, at_place, of_code, differ, wraps_alone, follows, is_told, told_differences, in_row, in_rows, possible};

use bus_canon::Difference;
use bus_legal::{Legality, Normal, Tables, largest_count};
use bus_word::Cell;
use bus_word::mode::{BIT_WORD, DYNAMIC_BUS_CONTROL, VECTOR_WORD};
use std::alloc::{AllocError, Global};

/// The kinds of difference that there are at each subaddress and count.
#[derive(Clone, Copy)]
pub enum PlaceKind {
    /// What the own address may receive.
    Receiving,
    /// What the own address may transmit.
    Transmitting,
    /// What may be received by broadcast.
    Broadcasting,
    /// The words that are held.
    Holding,
}

/// Gives the difference of a kind at a subaddress and a count, or a number of a word.
fn at_place(kind: PlaceKind, s: u8, n: u8) -> Difference
    requires { is_data_place s n ≡ true }
    ensures value { result ≡ at_place kind s n }
    ensures range { IsInRange result }
{
    match kind {
        PlaceKind::Receiving => Difference::ReceiveCell(s, n),
        PlaceKind::Transmitting => Difference::TransmitCell(s, n),
        PlaceKind::Broadcasting => Difference::BroadcastReceiveCell(s, n),
        PlaceKind::Holding => Difference::InitialWord(s, n),
    }
}

/// Gives the difference in a mode code, by broadcast or to the own address.
fn of_code(broadcast: bool, code: u8) -> Difference
    requires { code < 32 }
    ensures value { result ≡ of_code broadcast code }
    ensures range { IsInRange result }
{
    if broadcast {
        Difference::BroadcastCode(code)
    } else {
        Difference::OwnCode(code)
    }
}

/// Tells whether the cell is legal in one of the two alone.
fn is_unlike(p: &Normal, q: &Normal, cell: Cell) -> bool
    ensures { result ≡ unlike ((description_in p.now).legal cell) ((description_in q.now).legal cell) }
{
    p.legal(cell) != q.legal(cell)
}

/// Tells whether the two differ in this.
fn differs(p: &Normal, q: &Normal, difference: Difference) -> bool
    requires { IsInRange difference }
    ensures { result ≡ differ (description_in p.now) (description_in q.now) difference }
{
    match difference {
        Difference::Address => p.address() != q.address(),
        Difference::BroadcastOption => p.broadcast() != q.broadcast(),
        Difference::ReceiveCell(s, n) => is_unlike(p, q, Cell::OwnReceive(s, n)),
        Difference::TransmitCell(s, n) => is_unlike(p, q, Cell::OwnTransmit(s, n)),
        Difference::BroadcastReceiveCell(s, n) => is_unlike(p, q, Cell::BroadReceive(s, n)),
        Difference::OwnCode(code) => is_unlike(p, q, Cell::OwnMode(code)),
        Difference::BroadcastCode(code) => is_unlike(p, q, Cell::BroadMode(code)),
        Difference::Acceptance => p.accept() != q.accept(),
        Difference::VectorWord => p.vector() != q.vector(),
        Difference::BitWord => p.bit() != q.bit(),
        Difference::InitialWord(s, i) => {
            let (row, at) = (usize::from(s) - 1, usize::from(i) - 1);
            p.initial()[row][at] != q.initial()[row][at]
        }
        Difference::Wraparound => p.wrap() != q.wrap(),
    }
}

/// Tells whether words can come back at this subaddress of one terminal, and not of another that has no wraparound
/// subaddress.
fn wraps_alone(wrap: u8, other: u8, tables: &Tables) -> bool
    requires { wrap ≤ 30 }
    ensures { result ≡ wraps_alone wrap other tables.now }
{
    wrap != 0 && other == 0 && !tables.can_wrap(wrap)
}

/// Tells whether this difference follows from another that is told.
fn follows(p: &Normal, q: &Normal, difference: Difference) -> bool
    requires { IsInRange difference }
    ensures { result ≡ follows p.now q.now difference }
{
    match difference {
        Difference::BroadcastReceiveCell(_, _) | Difference::BroadcastCode(_) => {
            p.broadcast() != q.broadcast()
        }
        Difference::Acceptance => is_unlike(p, q, Cell::OwnMode(DYNAMIC_BUS_CONTROL)),
        Difference::VectorWord => is_unlike(p, q, Cell::OwnMode(VECTOR_WORD)),
        Difference::BitWord => is_unlike(p, q, Cell::OwnMode(BIT_WORD)),
        Difference::InitialWord(s, i) => {
            let row = usize::from(s) - 1;
            let ours = largest_count(p.tables().own_transmit[row]);
            let theirs = largest_count(q.tables().own_transmit[row]);
            (usize::from(i) <= ours) != (usize::from(i) <= theirs)
        }
        Difference::Wraparound => {
            p.setup();
            q.setup();
            wraps_alone(p.wrap(), q.wrap(), q.tables())
                || wraps_alone(q.wrap(), p.wrap(), p.tables())
        }
        _ => false,
    }
}

/// Tells whether the two differ in this, and it doesn't follow from another.
pub(crate) fn is_told(p: &Normal, q: &Normal, difference: Difference) -> bool
    requires { IsInRange difference }
    ensures { result ≡ is_told p.now q.now difference }
{
    differs(p, q, difference) && !follows(p, q, difference)
}

/// Adds the difference where it is told.
#[tactic(auto, unfolding(crate::specs::Told::told_differences))]
fn push_if(
    list: &mut Vec<Difference>,
    p: &Normal,
    q: &Normal,
    difference: Difference,
) -> Result<(), AllocError>
    requires { IsInRange difference }
    ensures { OnOk result (list.new.items ≡ list.old.items ++ told_differences p.now q.now (difference ∷ [])) }
{
    if is_told(p, q, difference) {
        list.push(difference)?;
    }
    Ok(())
}

/// Adds the differences of a kind at a subaddress.
fn push_row(
    list: &mut Vec<Difference>,
    p: &Normal,
    q: &Normal,
    kind: PlaceKind,
    s: u8,
) -> Result<(), AllocError>
    requires low { 1 ≤ s }
    requires high { s ≤ 30 }
    ensures { OnOk result (list.new.items ≡ list.old.items ++ told_differences p.now q.now (in_row (at_place kind s) 1 32)) }
{
    for n in 1..33u8 {
        push_if(list, p, q, at_place(kind, s, n))?;
    }
    Ok(())
}

/// Adds the differences of a kind at all subaddresses.
fn push_rows(
    list: &mut Vec<Difference>,
    p: &Normal,
    q: &Normal,
    kind: PlaceKind,
) -> Result<(), AllocError>
    ensures { OnOk result (list.new.items ≡ list.old.items ++ told_differences p.now q.now (in_rows (at_place kind) 1 30)) }
{
    for s in 1..31u8 {
        push_row(list, p, q, kind, s)?;
    }
    Ok(())
}

/// Adds the differences in mode codes, by broadcast or to the own address.
fn push_codes(
    list: &mut Vec<Difference>,
    p: &Normal,
    q: &Normal,
    broadcast: bool,
) -> Result<(), AllocError>
    ensures { OnOk result (list.new.items ≡ list.old.items ++ told_differences p.now q.now (in_row (of_code broadcast) 0 32)) }
{
    for code in 0..32u8 {
        push_if(list, p, q, of_code(broadcast, code))?;
    }
    Ok(())
}

/// Gives all in which two terminals differ.
fn all_told(alloc: Global, p: &Normal, q: &Normal) -> Result<Vec<Difference>, AllocError>
    ensures { IfOk result (λ found. found.items ≡ told_differences p.now q.now possible) }
{
    let mut list = Vec::new(alloc);
    push_if(&mut list, p, q, Difference::Address)?;
    push_if(&mut list, p, q, Difference::BroadcastOption)?;
    push_rows(&mut list, p, q, PlaceKind::Receiving)?;
    push_rows(&mut list, p, q, PlaceKind::Transmitting)?;
    push_rows(&mut list, p, q, PlaceKind::Broadcasting)?;
    push_codes(&mut list, p, q, false)?;
    push_codes(&mut list, p, q, true)?;
    push_if(&mut list, p, q, Difference::Acceptance)?;
    push_if(&mut list, p, q, Difference::VectorWord)?;
    push_if(&mut list, p, q, Difference::BitWord)?;
    push_rows(&mut list, p, q, PlaceKind::Holding)?;
    push_if(&mut list, p, q, Difference::Wraparound)?;
    Ok(list)
}

/// All in which two terminals differ, by what can be reached of them and so by their canonical texts: of all that is
/// possible, in its order, that which differs and doesn't follow from another that is told. Nothing is told exactly if the
/// two are the same.
pub fn differences(alloc: Global, p: &Normal, q: &Normal) -> Result<Vec<Difference>, AllocError>
    ensures told { IfOk result (λ found. found.items ≡ told_differences p.now q.now possible) }
    ensures none { IfOk result (λ found. (found.items ≡ []) ↔ (p.now ≡ q.now)) }
{
    // With a set-up comes the promise that nothing unreached is in the `Normal`.
    p.setup();
    q.setup();
    let found = all_told(alloc, p, q)?;
    Ok(found)
}
