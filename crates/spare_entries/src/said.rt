//! Which of the entries that set and clear the bits of a mask have no effect on it.
ghost use Rattle.std.specs.Prelude.{◌≡◌, ◌<◌, ◌&&◌, ◌↔◌, ℕ, suc, not, false, if◌then◌else◌, IsTrue, OnOk, IfOk, length, drop, map, get_or};
ghost use Rattle.std.specs.List.{list_any};
ghost use Rattle.bus_word.specs.Mask.{has_bit};
ghost use Rattle.spare_entries.specs.inner.Says.{AreLastBits, SameBits};

use std::alloc::{AllocError, Global};

/// What an entry says of the bits of a mask: of which it speaks, and whether it sets or clears them.
#[derive(Clone, Copy)]
pub struct Said {
    pub bits: u32,
    pub legal: bool,
}

/// Clears in each mask the bits that a later mask has.
pub fn keep_last(masks: &mut [u32])
    ensures { (k i : ℕ) → k < length masks.old → i < 32 → has_bit (get_or masks.new k 0) i ≡ (not (list_any (λ mask. has_bit mask i) (drop (suc k) masks.old)) && has_bit (get_or masks.old k 0) i) }
{
    let mut later = 0;
    for k in (0..masks.len()).rev() {
        let bits = masks[k];
        masks[k] = bits & !later;
        later |= bits;
    }
}

/// The mask with these bits set, or with them cleared.
fn with_bits(mask: u32, given: u32, set: bool) -> u32
    ensures { (i : ℕ) → i < 32 → has_bit result i ≡ (if has_bit given i then set else has_bit mask i) }
{
    if set { mask | given } else { mask & !given }
}

/// Of these bits those that are another in the mask.
fn changed(given: u32, mask: u32, set: bool) -> u32
    ensures { (i : ℕ) → i < 32 → has_bit result i ≡ ((if set then not (has_bit mask i) else has_bit mask i) && has_bit given i) }
{
    if set { given & !mask } else { given & mask }
}

/// The bits of which each entry speaks.
fn bits_of(alloc: Global, entries: &[Said]) -> Result<Vec<u32>, AllocError>
    ensures { IfOk result (λ masks. masks.items ≡ map (λ said. said.bits) entries.now) }
{
    entries.iter().map(|said| said.bits).collect(alloc)
}

/// The bits of which each entry is the last to speak.
pub fn last_bits(alloc: Global, entries: &[Said]) -> Result<Vec<u32>, AllocError>
    ensures length { IfOk result (λ masks. length masks.items ≡ length entries.now) }
    ensures bits { IfOk result (λ masks. AreLastBits entries.now masks.items) }
{
    let mut masks = bits_of(alloc, entries)?;
    keep_last(&mut masks);
    Ok(masks)
}

/// Takes the marks from the entries without which some of the bits of these numbers are others. The mask is this before the first.
pub fn unmark(
    alloc: Global,
    spares: &mut [bool],
    entries: &[Said],
    start: u32,
    numbers: u32,
) -> Result<(), AllocError>
    requires { length spares.old ≡ length entries.now }
    ensures { OnOk result ((k : ℕ) → k < length entries.now → IsTrue (get_or spares.new k false) ↔ (IsTrue (get_or spares.old k false) × SameBits start numbers entries.now k)) }
{
    let last = last_bits(alloc, entries)?;
    let mut mask = start;
    for (k, said) in entries.iter().enumerate() {
        let effect = changed(last[k], mask, said.legal) & numbers;
        spares[k] &= effect == 0;
        mask = with_bits(mask, said.bits, said.legal);
    }
    Ok(())
}
