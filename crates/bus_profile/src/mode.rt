//! The mode entries of a profile text.
ghost use Rattle.std.specs.Prelude.{◌≡◌, ◌≤◌, ◌<◌, length, IfOk};
ghost use Rattle.toml.specs.Data.{table as table_data};
ghost use Rattle.toml.specs.View.{view, items_view, table_view};
ghost use Rattle.bus_profile.specs.Checks.{first_fault};
ghost use Rattle.bus_profile.specs.inner.FirstFault.{fault_of_parts, Reads, ReadsInMemory};
ghost use Rattle.bus_profile.specs.Faults.{mode_checks, each_item};
ghost use Rattle.bus_profile.specs.Gives.{mode_in, each_of};

use crate::fault::{Key, Part, ProfileFault};
use crate::keys::MODE_KEYS;
use crate::section::Section;
use bus_legal::{Entries, ModeRule};
use std::alloc::Global;
use toml::{Table, Value};

/// The mode entries that are the items of an array.
pub fn modes_of(alloc: Global, values: &[Value]) -> Result<Entries<ModeRule>, ProfileFault>
    requires { length values.now ≤ 256 }
    ensures reads { ReadsInMemory (λ modes. modes) (fault_of_parts (each_item mode_checks 1 (items_view values.now))) (each_of mode_in (items_view values.now)) result }
    ensures few { IfOk result (λ modes. length modes ≤ 256) }
{
    let mut modes = Vec::new(alloc);
    for (index, value) in values.iter().enumerate() {
        modes.push(mode_of(value, index as u16 + 1)?)?;
    }
    Ok(Entries::of(modes))
}

/// Reads the mode entry that a value is.
#[tactic(auto, unfolding(crate::specs::Checks::in_order, crate::specs::Faults::entry_checks))]
fn mode_of(value: &Value, number: u16) -> Result<ModeRule, ProfileFault>
    ensures { Reads (first_fault (mode_checks number (view value.now))) (mode_in (view value.now)) result }
{
    match value {
        Value::Table(table) => mode_from(table, number),
        _ => Err(ProfileFault::WrongKind(Part::Mode(number), Key::Mode)),
    }
}

/// Reads the mode entry of a table.
#[tactic(auto, using(crate::proofs::Sections::mode_fault))]
fn mode_from(table: &Table, number: u16) -> Result<ModeRule, ProfileFault>
    ensures { Reads (first_fault (mode_checks number (table_data (table_view table.now)))) (mode_in (table_data (table_view table.now))) result }
{
    let section = Section {
        table,
        part: Part::Mode(number),
    };
    if section.has_unknown_key(&MODE_KEYS) {
        return Err(ProfileFault::UnknownKey(section.part));
    }
    let addressee = section.addressee()?;
    let codes = section.required_ranges(Key::Codes, 0, 31)?;
    let legal = section.optional_truth(Key::Legal, true)?;
    Ok(ModeRule {
        own: addressee.is_own(),
        broadcast: addressee.is_broadcast(),
        codes,
        legal,
    })
}
