//! The faults of the entries of the three arrays, all of them.
ghost use Rattle.std.specs.Prelude.{◌≡◌, ◌≤◌, ◌++◌, OnOk, length};
ghost use Rattle.toml.specs.Data.{table as table_data};
ghost use Rattle.toml.specs.View.{view, items_view, table_view};
ghost use Rattle.bus_profile.specs.Faults.{each_item};
ghost use Rattle.bus_profile.specs.AllFaults.{failing, told_array};
ghost use Rattle.bus_profile.specs.inner.AllFaults.{failing_parts, array_row, checks_of};

use crate::fault::{Key, Part, ProfileFault};
use crate::key_faults::push_some;
use crate::keys::{MODE_KEYS, RULE_KEYS};
use crate::section::Section;
use std::alloc::AllocError;
use toml::{Table, Value};

/// Which of the arrays of entries.
#[derive(Clone, Copy, PartialEq, Eq)]
pub enum EntryKind {
    Rule,
    Mode,
    Initial,
}

impl EntryKind {
    ghost use Rattle.bus_profile.specs.inner.AllFaults.{array_row, part_of};

    /// The key of the array.
    fn key(self) -> Key
        ensures { result ≡ (array_row self).key }
    {
        match self {
            EntryKind::Rule => Key::Rule,
            EntryKind::Mode => Key::Mode,
            EntryKind::Initial => Key::Initial,
        }
    }

    /// The entry of this number.
    fn part(self, number: u16) -> Part
        ensures { result ≡ part_of self number }
    {
        match self {
            EntryKind::Rule => Part::Rule(number),
            EntryKind::Mode => Part::Mode(number),
            EntryKind::Initial => Part::Initial(number),
        }
    }
}

/// Adds the faults of the table of an entry.
fn push_table(
    faults: &mut Vec<ProfileFault>,
    kind: EntryKind,
    table: &Table,
    number: u16,
) -> Result<(), AllocError>
    ensures { OnOk result (faults.new.items ≡ faults.old.items ++ failing (checks_of kind number (table_data (table_view table.now)))) }
{
    let section = Section {
        table,
        part: kind.part(number),
    };
    push_some(faults, section.unknown_fault())?;
    match kind {
        EntryKind::Rule => section.push_keys(faults, &RULE_KEYS),
        EntryKind::Mode => section.push_keys(faults, &MODE_KEYS),
        EntryKind::Initial => {
            section.push_keys(faults, &[Key::Subaddress, Key::At])?;
            section.push_words(faults)
        }
    }
}

/// Adds the faults of an item of an array of entries.
#[tactic(auto, unfolding(crate::specs::Checks::in_order, crate::specs::Faults::entry_checks))]
fn push_item(
    faults: &mut Vec<ProfileFault>,
    kind: EntryKind,
    value: &Value,
    number: u16,
) -> Result<(), AllocError>
    ensures { OnOk result (faults.new.items ≡ faults.old.items ++ failing (checks_of kind number (view value.now))) }
{
    match value {
        Value::Table(table) => push_table(faults, kind, table, number),
        _ => {
            faults.push(ProfileFault::WrongKind(kind.part(number), kind.key()))?;
            Ok(())
        }
    }
}

/// Adds the faults of the items of an array of entries.
fn push_items(
    faults: &mut Vec<ProfileFault>,
    kind: EntryKind,
    values: &[Value],
) -> Result<(), AllocError>
    requires { length values.now ≤ 256 }
    ensures { OnOk result (faults.new.items ≡ faults.old.items ++ failing_parts (each_item (checks_of kind) 1 (items_view values.now))) }
{
    for (index, value) in values.iter().enumerate() {
        push_item(faults, kind, value, index as u16 + 1)?;
    }
    Ok(())
}

/// Adds the faults of an array of entries: of one that is too long that alone.
pub fn push_array(
    faults: &mut Vec<ProfileFault>,
    table: &Table,
    kind: EntryKind,
) -> Result<(), AllocError>
    ensures { OnOk result (faults.new.items ≡ faults.old.items ++ failing (told_array (array_row kind) (checks_of kind) (table_view table.now))) }
{
    let root = Section {
        table,
        part: Part::Root,
    };
    push_some(faults, root.key_fault(kind.key()))?;
    let values = root.items_in(kind.key());
    if values.len() > 256 {
        faults.push(ProfileFault::TooMany(Part::Root, kind.key()))?;
        return Ok(());
    }
    push_items(faults, kind, values)
}
