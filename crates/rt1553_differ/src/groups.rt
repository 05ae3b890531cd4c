//! Differences in groups, as people read them.
ghost use Rattle.std.specs.Prelude.{◌≡◌, ◌≤◌, ◌<◌, ◌-◌, ◌==◌, ◌||◌, ◌&&◌, ◌++◌, ◌∷◌, [], ℕ, not, true, get_or, IfOk, OnOk};
ghost use Rattle.bus_word.specs.Mask.{has_bit};
ghost use Rattle.rt1553_differ.specs.Groups.{of_count, is_so, is_told_in, AreGroups};
ghost use Rattle.rt1553_differ.specs.inner.Alone.{masks_of, is_untold, alone_mask, is_had, said_at, is_beside, singles, AddsGroups};

use bus_canon::Difference;
use bus_legal::{Legality, Normal};
use bus_word::Cell;
use std::alloc::{AllocError, Global};

/// Differences that are told together: in what may be received or transmitted all subaddresses that have the same, and else
/// one.
#[derive(Clone, Copy)]
pub struct Group {
    /// The first of them.
    pub difference: Difference,
    /// Their subaddresses, bit `s - 1` for `s`.
    pub subaddresses: u32,
    /// Their word counts, bit `n - 1` for `n`.
    pub counts: u32,
    /// Whether they are legal in the first terminal alone, or accepted there alone.
    pub in_first: bool,
}

/// The three kinds of differences in word counts.
#[derive(Clone, Copy, PartialEq, Eq)]
pub enum CountKind {
    /// What the own address may receive.
    Receive,
    /// What the own address may transmit.
    Transmit,
    /// What may be received by broadcast.
    Broadcast,
}

/// Gives the difference of a kind at a subaddress and a word count.
fn of_count(kind: CountKind, s: u8, n: u8) -> Difference
    ensures { result ≡ of_count kind s n }
{
    match kind {
        CountKind::Receive => Difference::ReceiveCell(s, n),
        CountKind::Transmit => Difference::TransmitCell(s, n),
        CountKind::Broadcast => Difference::BroadcastReceiveCell(s, n),
    }
}

/// Gives the mask of a kind at a subaddress.
fn mask_of(normal: &Normal, kind: CountKind, s: u8) -> u32
    requires low { 1 ≤ s }
    requires high { s ≤ 30 }
    ensures { result ≡ get_or (masks_of kind normal.now.tables) (s - 1) 0 }
{
    let tables = normal.tables();
    let index = usize::from(s) - 1;
    match kind {
        CountKind::Receive => tables.own_receive[index],
        CountKind::Transmit => tables.own_transmit[index],
        CountKind::Broadcast => tables.broadcast_receive[index],
    }
}

/// Tells whether nothing of a kind is told: commands by broadcast where the option differs.
fn is_untold(p: &Normal, q: &Normal, kind: CountKind) -> bool
    ensures { result ≡ is_untold kind p.now q.now }
{
    match kind {
        CountKind::Broadcast => p.broadcast() != q.broadcast(),
        CountKind::Receive | CountKind::Transmit => false,
    }
}

/// Gives the word counts of a kind at a subaddress that are legal in the first alone, or in the second.
#[tactic(auto, unfolding(crate::specs::inner::Alone::alone_mask))]
fn alone_at(p: &Normal, q: &Normal, kind: CountKind, first: bool, s: u8) -> u32
    requires low { 1 ≤ s }
    requires high { s ≤ 30 }
    ensures { result ≡ alone_mask p.now q.now kind first s }
{
    if is_untold(p, q, kind) {
        return 0;
    }
    let (ours, theirs) = (mask_of(p, kind, s), mask_of(q, kind, s));
    if first {
        ours & !theirs
    } else {
        theirs & !ours
    }
}

/// Sets the bit of a subaddress, if it is asked for.
fn with_subaddress(bits: u32, s: u8, set: bool) -> u32
    requires low { 1 ≤ s }
    requires high { s ≤ 30 }
    ensures { (t : ℕ) → 1 ≤ t → has_bit result (t - 1) ≡ ((set && (t == s)) || has_bit bits (t - 1)) }
{
    if set {
        bits | 1 << u32::from(s - 1)
    } else {
        bits
    }
}

/// Gives the subaddresses, bit `s - 1` for `s`, at which just these word counts are legal in one alone.
fn subaddresses_with(p: &Normal, q: &Normal, kind: CountKind, first: bool, mask: u32) -> u32
    ensures { (t : ℕ) → 1 ≤ t → t ≤ 30 → has_bit result (t - 1) ≡ (mask == alone_mask p.now q.now kind first t) }
{
    let mut bits = 0u32;
    for s in 1..31u8 {
        bits = with_subaddress(bits, s, mask == alone_at(p, q, kind, first, s));
    }
    bits
}

/// Tells whether no subaddress before this one has its mask.
fn is_first(p: &Normal, q: &Normal, kind: CountKind, first: bool, s: u8) -> bool
    requires low { 1 ≤ s }
    requires high { s ≤ 30 }
    ensures { result ≡ not (is_had (alone_mask p.now q.now kind first) (s - 1) (alone_mask p.now q.now kind first s)) }
{
    let mask = alone_at(p, q, kind, first, s);
    for t in 1..s {
        if alone_at(p, q, kind, first, t) == mask {
            return false;
        }
    }
    true
}

/// Gives the least word count of a mask.
fn least_count(counts: u32) -> u8
    requires { 0 < counts }
    ensures low { 1 ≤ result }
    ensures high { result ≤ 32 }
    ensures has { has_bit counts (result - 1) ≡ true }
{
    counts.trailing_zeros() as u8 + 1
}

/// Adds the group of a subaddress, if some word counts are told there and no subaddress before has the same.
fn push_side(
    groups: &mut Vec<Group>,
    p: &Normal,
    q: &Normal,
    kind: CountKind,
    first: bool,
    s: u8,
) -> Result<(), AllocError>
    requires low { 1 ≤ s }
    requires high { s ≤ 30 }
    ensures { OnOk result (AddsGroups kind groups.old.items groups.new.items (said_at (alone_mask p.now q.now kind) first s)) }
{
    let counts = alone_at(p, q, kind, first, s);
    if counts == 0 {
        return Ok(());
    }
    if !is_first(p, q, kind, first, s) {
        return Ok(());
    }
    let subaddresses = subaddresses_with(p, q, kind, first, counts);
    let least = least_count(counts);
    let difference = of_count(kind, s, least);
    let group = Group {
        difference,
        subaddresses,
        counts,
        in_first: first,
    };
    groups.push(group)?;
    Ok(())
}

/// Adds the groups of a kind: one for each mask that some subaddress has, where its first subaddress stands.
fn push_counts(
    groups: &mut Vec<Group>,
    p: &Normal,
    q: &Normal,
    kind: CountKind,
) -> Result<(), AllocError>
    ensures { OnOk result (AddsGroups kind groups.old.items groups.new.items (λ first s n. is_told_in p.now q.now first (of_count kind s n))) }
{
    // With a set-up comes the promise that nothing unreached is in the `Normal`.
    p.setup();
    q.setup();
    for s in 1..31u8 {
        push_side(groups, p, q, kind, true, s)?;
        push_side(groups, p, q, kind, false, s)?;
    }
    Ok(())
}

/// Gives whether what differs is so in a terminal: legal, accepted or heard.
fn is_so(normal: &Normal, difference: Difference) -> bool
    ensures { result ≡ is_so normal.now difference }
{
    match difference {
        Difference::BroadcastOption => normal.broadcast(),
        Difference::ReceiveCell(s, n) => normal.legal(Cell::OwnReceive(s, n)),
        Difference::TransmitCell(s, n) => normal.legal(Cell::OwnTransmit(s, n)),
        Difference::BroadcastReceiveCell(s, n) => normal.legal(Cell::BroadReceive(s, n)),
        Difference::OwnCode(code) => normal.legal(Cell::OwnMode(code)),
        Difference::BroadcastCode(code) => normal.legal(Cell::BroadMode(code)),
        Difference::Acceptance => normal.accept(),
        _ => true,
    }
}

/// Tells whether a difference comes before those in word counts, or behind them.
fn is_beside(behind: bool, difference: Difference) -> bool
    ensures { result ≡ is_beside behind difference }
{
    match difference {
        Difference::Address | Difference::BroadcastOption => !behind,
        Difference::ReceiveCell(_, _)
        | Difference::TransmitCell(_, _)
        | Difference::BroadcastReceiveCell(_, _) => false,
        _ => behind,
    }
}

/// Adds the group of one difference, if it comes before those in word counts, or behind them.
#[tactic(auto, unfolding(crate::specs::inner::Alone::singles))]
fn push_single(
    groups: &mut Vec<Group>,
    difference: Difference,
    p: &Normal,
    behind: bool,
) -> Result<(), AllocError>
    ensures { OnOk result (groups.new.items ≡ groups.old.items ++ singles p.now behind (difference ∷ [])) }
{
    if is_beside(behind, difference) {
        groups.push(Group {
            difference,
            subaddresses: 0,
            counts: 0,
            in_first: is_so(p, difference),
        })?;
    }
    Ok(())
}

/// Adds the groups of single differences, of those before word counts, or behind them.
fn push_singles(
    groups: &mut Vec<Group>,
    found: &[Difference],
    p: &Normal,
    behind: bool,
) -> Result<(), AllocError>
    ensures { OnOk result (groups.new.items ≡ groups.old.items ++ singles p.now behind found.now) }
{
    for difference in found {
        push_single(groups, *difference, p, behind)?;
    }
    Ok(())
}

/// The differences between two terminals in groups, in their order: those in word counts together, where of several
/// subaddresses the same counts are legal in one alone, and each other by itself. `found` are the `differences` of the two.
pub fn groups_of(
    alloc: Global,
    found: &[Difference],
    p: &Normal,
    q: &Normal,
) -> Result<Vec<Group>, AllocError>
    ensures { IfOk result (λ groups. AreGroups p.now q.now found.now groups.items) }
{
    let mut groups = Vec::new(alloc);
    push_singles(&mut groups, found, p, false)?;
    push_counts(&mut groups, p, q, CountKind::Receive)?;
    push_counts(&mut groups, p, q, CountKind::Transmit)?;
    push_counts(&mut groups, p, q, CountKind::Broadcast)?;
    push_singles(&mut groups, found, p, true)?;
    Ok(groups)
}
