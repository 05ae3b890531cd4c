//! Which mode entries of a profile have no effect.
ghost use Rattle.std.specs.Prelude.{◌≡◌, ◌<◌, ◌↔◌, ℕ, false, IsTrue, OnOk, IfOk, length, map, get_or};
ghost use Rattle.bus_word.specs.Mask.{has_bit};
ghost use Rattle.spare_entries.specs.Without.{IsSpareMode};
ghost use Rattle.spare_entries.specs.inner.Codes.{addresses, codes_said, is_first_legal, may_be_legal, SameCodes, SameModes};

use crate::said::{Said, unmark};
use bus_legal::{BROADCAST_CODES, OWN_CODES, REQUIRED_CODES};
use bus_profile::{ModeRule, Profile};
use std::alloc::{AllocError, Global};

/// A table of the legal mode codes.
#[derive(Clone, Copy)]
enum CodeTable {
    Own,
    Broadcast,
}

/// The codes of the table that are legal before the first entry.
fn first_codes(table: CodeTable) -> u32
    ensures { (c : ℕ) → c < 32 → has_bit result c ≡ is_first_legal table c }
{
    match table {
        CodeTable::Own => REQUIRED_CODES,
        CodeTable::Broadcast => 0,
    }
}

/// The codes of the table that may be legal.
fn codes_of(table: CodeTable) -> u32
    ensures { (c : ℕ) → c < 32 → has_bit result c ≡ may_be_legal table c }
{
    match table {
        CodeTable::Own => OWN_CODES,
        CodeTable::Broadcast => BROADCAST_CODES,
    }
}

/// Whether the entry speaks of commands of the table.
fn addresses(table: CodeTable, mode: &ModeRule) -> bool
    ensures { result ≡ addresses table mode.now }
{
    match table {
        CodeTable::Own => mode.own,
        CodeTable::Broadcast => mode.broadcast,
    }
}

/// What a mode entry says of the codes of the table.
fn codes_said(table: CodeTable, mode: &ModeRule) -> Said
    ensures { result ≡ codes_said table mode.now }
{
    let bits = if addresses(table, mode) {
        mode.codes
    } else {
        0
    };
    Said {
        bits,
        legal: mode.legal,
    }
}

/// What each mode entry says of the codes of the table.
fn all_codes_said(
    alloc: Global,
    modes: &[ModeRule],
    table: CodeTable,
) -> Result<Vec<Said>, AllocError>
    ensures { IfOk result (λ said. said.items ≡ map (codes_said table) modes.now) }
{
    modes
        .iter()
        .map(|mode| codes_said(table, mode))
        .collect(alloc)
}

/// Takes the marks from the mode entries without which the table is another.
fn unmark_modes(
    alloc: Global,
    spares: &mut [bool],
    modes: &[ModeRule],
    table: CodeTable,
) -> Result<(), AllocError>
    requires { length spares.old ≡ length modes.now }
    ensures { OnOk result ((k : ℕ) → k < length modes.now → IsTrue (get_or spares.new k false) ↔ (IsTrue (get_or spares.old k false) × SameCodes table modes.now k)) }
{
    let said = all_codes_said(alloc, modes, table)?;
    unmark(alloc, spares, &said, first_codes(table), codes_of(table))?;
    Ok(())
}

/// Takes the marks from the mode entries without which the tables of the codes that the terminal hears are others.
fn unmark_all(alloc: Global, spares: &mut [bool], profile: &Profile) -> Result<(), AllocError>
    requires { length spares.old ≡ length profile.now.modes }
    ensures { OnOk result ((k : ℕ) → k < length profile.now.modes → IsTrue (get_or spares.new k false) ↔ (IsTrue (get_or spares.old k false) × SameModes profile.now k)) }
{
    let modes = profile.modes.as_slice();
    unmark_modes(alloc, spares, modes, CodeTable::Own)?;
    if profile.broadcast {
        unmark_modes(alloc, spares, modes, CodeTable::Broadcast)?;
    }
    Ok(())
}

/// Tells of each mode entry whether it has no effect: without it the profile is accepted, and the terminal is the same.
/// The only error is out of memory.
pub fn spare_modes(alloc: Global, profile: &Profile) -> Result<Vec<bool>, AllocError>
    ensures length { IfOk result (λ spares. length spares.items ≡ length profile.now.modes) }
    ensures each { IfOk result (λ spares. (k : ℕ) → k < length profile.now.modes → IsTrue (get_or spares.items k false) ↔ IsSpareMode profile.now k) }
{
    let mut spares = vec![in alloc; true; profile.modes.as_slice().len()]?;
    unmark_all(alloc, &mut spares, profile)?;
    Ok(spares)
}
