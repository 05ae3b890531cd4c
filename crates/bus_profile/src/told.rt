//! All the faults of a profile's tree, in the order of their places, and which keys a table doesn't know.
ghost use Rattle.std.specs.Prelude.{◌≡◌, ◌++◌, OnOk, IfOk, map};
ghost use Rattle.toml.specs.View.{table_view};
ghost use Rattle.bus_profile.specs.Faults.{faults};
ghost use Rattle.bus_profile.specs.AllFaults.{failing, HasShortArrays, told_keys, told_faults, unknown_names};
ghost use Rattle.bus_profile.specs.inner.AllFaults.{codes_told};

use crate::entry_faults::{EntryKind, push_array};
use crate::fault::{Key, Part, ProfileFault};
use crate::key_faults::{push_some, push_where};
use crate::keys::{SETTING_KEYS, known_keys};
use crate::mode::modes_of;
use crate::own_codes::is_own_code_legal;
use crate::section::{Section, is_known};
use bus_legal::ModeRule;
use bus_word::mode;
use std::alloc::{AllocError, Global};
use toml::Table;

/// Adds the faults of all keys of a tree.
fn push_tree(faults: &mut Vec<ProfileFault>, table: &Table) -> Result<(), AllocError>
    ensures { OnOk result (faults.new.items ≡ faults.old.items ++ failing (told_keys (table_view table.now))) }
{
    let root = Section {
        table,
        part: Part::Root,
    };
    push_some(faults, root.unknown_fault())?;
    root.push_keys(faults, &SETTING_KEYS)?;
    push_array(faults, table, EntryKind::Rule)?;
    push_array(faults, table, EntryKind::Mode)?;
    push_array(faults, table, EntryKind::Initial)
}

/// Adds the faults of the codes that must be legal.
fn push_code_faults(faults: &mut Vec<ProfileFault>, modes: &[ModeRule]) -> Result<(), AllocError>
    ensures { OnOk result (faults.new.items ≡ faults.old.items ++ codes_told modes.now) }
{
    for code in mode::REQUIRED {
        let legal = is_own_code_legal(modes, code);
        push_where(faults, ProfileFault::RequiredCode(code), !legal)?;
    }
    Ok(())
}

/// Adds the faults of the codes that must be legal where there is no other.
fn push_required(
    alloc: Global,
    faults: &mut Vec<ProfileFault>,
    table: &Table,
) -> Result<(), AllocError>
    requires { faults.now.items ≡ failing (told_keys (table_view table.now)) }
    ensures { OnOk result (faults.new.items ≡ told_faults (table_view table.now)) }
{
    if !faults.as_slice().is_empty() {
        return Ok(());
    }
    let root = Section {
        table,
        part: Part::Root,
    };
    let Ok(values) = root.entries(Key::Mode) else {
        return Err(AllocError);
    };
    let Ok(modes) = modes_of(alloc, values) else {
        return Err(AllocError);
    };
    push_code_faults(faults, modes.as_slice())
}

/// Gives all the faults of the tree of a profile text, in their order: that which `read_profile` tells is the first.
///
/// Of an array of more than 256 entries that alone is told, and nothing of its entries. The only error is out of memory.
pub fn all_faults(alloc: Global, table: &Table) -> Result<Vec<ProfileFault>, AllocError>
    ensures told { IfOk result (λ fs. fs.items ≡ told_faults (table_view table.now)) }
    ensures all { IfOk result (λ fs. HasShortArrays (table_view table.now) → fs.items ≡ failing (faults (table_view table.now))) }
{
    let mut faults = Vec::new(alloc);
    push_tree(&mut faults, table)?;
    push_required(alloc, &mut faults, table)?;
    Ok(faults)
}

/// Gives the keys of a table that it may not have, as they are written. The only error is out of memory.
pub fn unknown_keys<'a>(
    alloc: Global,
    table: &'a Table,
    part: Part,
) -> Result<Vec<&'a str>, AllocError>
    ensures { IfOk result (λ names. map (λ name. name.now) names.items ≡ unknown_names part (table_view table.entry.now)) }
{
    let keys = known_keys(part);
    let mut names = Vec::new(alloc);
    for name in table.keys() {
        if !is_known(keys, name.as_str()) {
            names.push(name.as_str())?;
        }
    }
    Ok(names)
}
