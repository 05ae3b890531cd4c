//! Where findings stand.
ghost use Rattle.std.specs.Prelude.{◌≡◌, ◌⊎◌, All, IfOk, Some};
ghost use Rattle.toml.specs.View.{table_view};
ghost use Rattle.bus_profile.specs.Read.{IsTree};
ghost use Rattle.bus_profile.specs.declared.fault.Part.TheVariants.{Root};
ghost use Rattle.rt1553_lint.specs.Findings.{subjects};
ghost use Rattle.rt1553_lint.specs.Standing.{IsAtCanon, IsAtExcess, IsAtFault, IsAtMode, IsAtPart, IsAtSubject, IsAtUnknown, IsAtValue, IsPlaced, is_of_entry};

use crate::errors::first_unknown;
use crate::finding::{Finding, LintFault, Position};
use crate::lines::{position_at, position_of_line};
use crate::places::Places;
use crate::tree::{MOST_ENTRIES, last_mode, numbered, table_of};
use bus_canon::CanonFault;
use bus_profile::{Key, Part, ProfileFault, unknown_keys};
use std::alloc::{AllocError, Global};
use toml::Table;

/// Whether a fault of this key is one of the whole entry, which is no table.
fn is_of_entry(part: Part, key: Key) -> bool
    ensures { result ≡ is_of_entry part key }
{
    match part {
        Part::Root => false,
        Part::Rule(_) | Part::Mode(_) | Part::Initial(_) => {
            matches!(key, Key::Rule | Key::Mode | Key::Initial)
        }
    }
}

/// Where a value stands; of an entry that is no table the entry.
fn value_position(places: &Places<'_>, part: Part, key: Key) -> Option<Position>
    ensures { IsAtValue part key places.now.text.now result }
{
    if is_of_entry(part, key) {
        places.part_position(part)
    } else {
        places.key_position(part, key.name())
    }
}

/// Where what is too much stands: the first entry that is too many, or the words of an entry.
fn excess_position(places: &Places<'_>, part: Part, key: Key) -> Option<Position>
    ensures { IsAtExcess part key places.now.text.now result }
{
    if part == Part::Root {
        places.part_position(numbered(key, MOST_ENTRIES))
    } else {
        value_position(places, part, key)
    }
}

/// Where the first unknown key of a part stands.
fn unknown_position(
    alloc: Global,
    places: &Places<'_>,
    table: &Table,
    part: Part,
) -> Result<Option<Position>, AllocError>
    requires { IsTree places.now.text.now (table_view table.now) }
    ensures { IfOk result (IsAtUnknown part places.now.text.now) }
{
    let Some(inner) = table_of(table, part) else {
        return Ok(None);
    };
    let names = unknown_keys(alloc, inner, part)?;
    if names.is_empty() {
        return Ok(None);
    }
    let first = first_unknown(alloc, places, part, names.as_slice())?;
    Ok(places.key_position(part, names[first]))
}

/// Where the mode entry stands that makes this code illegal, or the root where there is none.
fn required_position(places: &Places<'_>, table: &Table, code: u8) -> Option<Position>
    requires { IsTree places.now.text.now (table_view table.now) }
    ensures { IsAtPart Root places.now.text.now result ⊎ IsAtMode places.now.text.now result }
{
    match last_mode(table, code) {
        Some(index) => places.part_position(numbered(Key::Mode, index)),
        None => places.part_position(Part::Root),
    }
}

/// Where a fault stands.
fn fault_position(
    alloc: Global,
    places: &Places<'_>,
    table: &Table,
    fault: ProfileFault,
) -> Result<Option<Position>, AllocError>
    requires { IsTree places.now.text.now (table_view table.now) }
    ensures { IfOk result (IsAtFault fault places.now.text.now) }
{
    Ok(match fault {
        ProfileFault::UnknownKey(part) => unknown_position(alloc, places, table, part)?,
        ProfileFault::Missing(part, _) => places.part_position(part),
        ProfileFault::WrongKind(part, key)
        | ProfileFault::OutOfRange(part, key)
        | ProfileFault::BadRanges(part, key) => value_position(places, part, key),
        ProfileFault::TooMany(part, key) => excess_position(places, part, key),
        ProfileFault::RequiredCode(code) => required_position(places, table, code),
        ProfileFault::NotToml | ProfileFault::Memory => Some(position_at(places.text, 0)),
    })
}

/// Where a fault of a canonical text stands: its line, or the end of the text.
pub fn canon_position(text: &[u8], fault: CanonFault) -> Position
    ensures { IsAtCanon fault text.now (Some result) }
{
    match fault {
        CanonFault::Line(line) => position_of_line(line),
        CanonFault::Trailing => position_at(text, text.len()),
    }
}

/// Where stands what a finding is of.
fn position_of(
    alloc: Global,
    places: &Places<'_>,
    table: &Table,
    finding: &Finding,
) -> Result<Option<Position>, AllocError>
    requires { IsTree places.now.text.now (table_view table.now) }
    ensures { IfOk result (IsAtSubject (finding.now.fault, finding.now.spare) places.now.text.now) }
{
    match finding.fault {
        Some(LintFault::Profile(fault)) => fault_position(alloc, places, table, fault),
        Some(LintFault::Canon(fault)) => Ok(Some(canon_position(places.text, fault))),
        None => Ok(match finding.spare {
            Some(spare) => places.spare_position(spare),
            None => None,
        }),
    }
}

/// The findings of a text that is TOML, each with the position of what it is of.
pub fn with_positions(
    alloc: Global,
    places: &Places<'_>,
    table: &Table,
    findings: Vec<Finding>,
) -> Result<Vec<Finding>, AllocError>
    requires { IsTree places.now.text.now (table_view table.now) }
    ensures subjects { IfOk result (λ found. subjects found.items ≡ subjects findings.items) }
    ensures placed { IfOk result (λ found. All (IsPlaced places.now.text.now) found.items) }
{
    let mut placed = Vec::new(alloc);
    for finding in findings {
        let mut finding = finding;
        finding.position = position_of(alloc, places, table, &finding)?;
        placed.push(finding)?;
    }
    Ok(placed)
}
