//! Which keys the tables of a profile text may have.
ghost use Rattle.std.specs.Prelude.{◌≡◌};
ghost use Rattle.bus_profile.specs.Keys.{keys_of};
ghost use Rattle.bus_profile.specs.AllFaults.{rows_at};

use crate::fault::{Key, Part};

/// The keys of the root.
pub const ROOT_KEYS: [Key; 9] = [
    Key::Address,
    Key::Broadcast,
    Key::Wraparound,
    Key::AcceptBusControl,
    Key::Vector,
    Key::Bit,
    Key::Rule,
    Key::Mode,
    Key::Initial,
];

/// The keys of the root that hold one value.
pub const SETTING_KEYS: [Key; 6] = [
    Key::Address,
    Key::Broadcast,
    Key::Wraparound,
    Key::AcceptBusControl,
    Key::Vector,
    Key::Bit,
];

/// The keys of a rule.
pub const RULE_KEYS: [Key; 5] = [
    Key::To,
    Key::Direction,
    Key::Subaddresses,
    Key::Counts,
    Key::Legal,
];

/// The keys of a mode entry.
pub const MODE_KEYS: [Key; 3] = [Key::To, Key::Codes, Key::Legal];

/// The keys of an initial entry.
pub const INITIAL_KEYS: [Key; 3] = [Key::Subaddress, Key::At, Key::Words];

/// The keys that a table of this part may have.
pub fn known_keys(part: Part) -> &'static [Key]
    ensures { result.now ≡ keys_of (rows_at part) }
{
    match part {
        Part::Root => &ROOT_KEYS,
        Part::Rule(_) => &RULE_KEYS,
        Part::Mode(_) => &MODE_KEYS,
        Part::Initial(_) => &INITIAL_KEYS,
    }
}
