//! A table of the profile text, and the readers of its keys: one for each kind of value.
ghost use Rattle.std.specs.Prelude.{◌≡◌, ◌+◌, ◌-◌, ◌^◌, ◌<◌, ◌≤◌, pos, length, option_map, Some, IfOk, IfSome};
ghost use Rattle.toml.specs.Data.{as_array, integer, boolean, array, no_items};
ghost use Rattle.toml.specs.View.{view, items_view};
ghost use Rattle.bus_profile.specs.Checks.{first_fault};
ghost use Rattle.bus_profile.specs.inner.FirstFault.{Reads, ReadsAs};
ghost use Rattle.bus_profile.specs.Faults.{key_checks, head_checks};
ghost use Rattle.bus_profile.specs.Keys.{key_row, whole, truth, ranges, tables, required, optional, counts_row, wraparound_row};
ghost use Rattle.bus_profile.specs.Kinds.{found, whole_in, truth_value, wrap_value, set_from, items, in_range, is_too_long, is_known, has_unknown};
ghost use Rattle.bus_profile.specs.inner.Section.{tree_of, value_at, fault_at};

use crate::fault::{Key, Part, ProfileFault};
use crate::ranges::{RangeFault, parse_ranges};
use bus_word::WRAPAROUND_SUBADDRESS;
use toml::{Table, Value};

/// A table of the profile text, and which part of the profile it is.
#[derive(Clone, Copy)]
pub struct Section<'a> {
    pub table: &'a Table,
    pub part: Part,
}

impl Section<'_> {
    /// Whether the table has a key that is none of these.
    pub fn has_unknown_key(&self, keys: &[Key]) -> bool
        ensures { result ≡ has_unknown keys.now (tree_of self.now) }
    {
        for name in self.table.keys() {
            if !is_known(keys, name.as_str()) {
                return true;
            }
        }
        false
    }

    /// The value of a key, where it is there.
    pub fn value(&self, key: Key) -> Option<&Value>
        ensures { option_map (λ v. view v.now) result ≡ found key (tree_of self.now) }
    {
        self.table.get(key.name())
    }

    /// A whole number from `low` to `high` that must be there.
    #[tactic(auto, unfolding(crate::specs::Checks::in_order))]
    pub fn required_whole(&self, key: Key, low: u16, high: u16) -> Result<u16, ProfileFault>
        ensures reads { let line = key_row key (whole low high) required in Reads (fault_at line self.now) (whole_in (value_at line self.now)) result }
        ensures range { IfOk result (λ n. (low ≤ n) × (n ≤ high)) }
    {
        let Some(value) = self.value(key) else {
            return Err(ProfileFault::Missing(self.part, key));
        };
        let Some(n) = value.as_integer() else {
            return Err(ProfileFault::WrongKind(self.part, key));
        };
        in_range(n, low, high).ok_or(ProfileFault::OutOfRange(self.part, key))
    }

    /// A whole number from `low` to `high`, or the default.
    #[tactic(auto, unfolding(crate::specs::Checks::in_order))]
    pub fn optional_whole(
        &self,
        key: Key,
        low: u16,
        high: u16,
        default: u16,
    ) -> Result<u16, ProfileFault>
        requires low { low ≤ default }
        requires high { default ≤ high }
        ensures reads { let line = key_row key (whole low high) (optional (integer (pos default))) in Reads (fault_at line self.now) (whole_in (value_at line self.now)) result }
        ensures range { IfOk result (λ n. (low ≤ n) × (n ≤ high)) }
    {
        let Some(value) = self.value(key) else {
            return Ok(default);
        };
        let Some(n) = value.as_integer() else {
            return Err(ProfileFault::WrongKind(self.part, key));
        };
        in_range(n, low, high).ok_or(ProfileFault::OutOfRange(self.part, key))
    }

    /// A truth value, or the default.
    #[tactic(auto, unfolding(crate::specs::Checks::in_order))]
    pub fn optional_truth(&self, key: Key, default: bool) -> Result<bool, ProfileFault>
        ensures { let line = key_row key truth (optional (boolean default)) in Reads (fault_at line self.now) (truth_value (value_at line self.now)) result }
    {
        match self.value(key) {
            Some(value) => value
                .as_bool()
                .ok_or(ProfileFault::WrongKind(self.part, key)),
            None => Ok(default),
        }
    }

    /// The wraparound subaddress, 0 for none: a truth value or a whole number, `WRAPAROUND_SUBADDRESS` where there is neither.
    #[tactic(auto, unfolding(crate::specs::Checks::in_order))]
    pub fn wraparound(&self) -> Result<u8, ProfileFault>
        ensures reads { Reads (fault_at wraparound_row self.now) (wrap_value (value_at wraparound_row self.now)) result }
        ensures range { IfOk result (λ n. n ≤ 30) }
    {
        let Some(value) = self.value(Key::Wraparound) else {
            return Ok(WRAPAROUND_SUBADDRESS);
        };
        match value {
            Value::Boolean(true) => Ok(WRAPAROUND_SUBADDRESS),
            Value::Boolean(false) => Ok(0),
            Value::Integer(n) => match in_range(*n, 1, 30) {
                Some(n) => Ok(n as u8),
                None => Err(ProfileFault::OutOfRange(self.part, Key::Wraparound)),
            },
            _ => Err(ProfileFault::WrongKind(self.part, Key::Wraparound)),
        }
    }

    /// Numbers from `low` to `high` that must be there, bit `n - low` for `n`.
    #[tactic(auto, unfolding(crate::specs::Checks::in_order))]
    pub fn required_ranges(&self, key: Key, low: u8, high: u8) -> Result<u32, ProfileFault>
        requires order { low ≤ high }
        requires width { high - low ≤ 31 }
        ensures reads { let line = key_row key (ranges low high) required in Reads (fault_at line self.now) (set_from low high (value_at line self.now)) result }
        ensures small { IfOk result (λ set. set < 2 ^ (high - low + 1)) }
    {
        match self.value(key) {
            Some(value) => self.ranges_in(key, value, low, high),
            None => Err(ProfileFault::Missing(self.part, key)),
        }
    }

    /// The word counts of a rule, bit `n - 1` for `n`: 1 to 32 where there are none.
    #[tactic(auto, unfolding(crate::specs::Checks::in_order), using(crate::proofs::Defaults::all_counts))]
    pub fn counts(&self) -> Result<u32, ProfileFault>
        ensures { Reads (fault_at counts_row self.now) (set_from 1 32 (value_at counts_row self.now)) result }
    {
        match self.value(Key::Counts) {
            Some(value) => self.ranges_in(Key::Counts, value, 1, 32),
            None => Ok(u32::MAX),
        }
    }

    /// Reads the numbers of a value, which is a text of ranges or one whole number.
    #[tactic(auto, unfolding(crate::specs::Checks::in_order))]
    fn ranges_in(&self, key: Key, value: &Value, low: u8, high: u8) -> Result<u32, ProfileFault>
        requires order { low ≤ high }
        requires width { high - low ≤ 31 }
        ensures reads { Reads (first_fault (key_checks self.now.part (key_row key (ranges low high) required) (Some (view value.now)))) (set_from low high (Some (view value.now))) result }
        ensures small { IfOk result (λ set. set < 2 ^ (high - low + 1)) }
    {
        match value {
            Value::String(text) => match parse_ranges(text.as_str(), low, high) {
                Ok(set) => Ok(set),
                Err(RangeFault::Syntax) => Err(ProfileFault::BadRanges(self.part, key)),
                Err(RangeFault::Bounds) => Err(ProfileFault::OutOfRange(self.part, key)),
            },
            Value::Integer(n) => match in_range(*n, u16::from(low), u16::from(high)) {
                Some(n) => Ok(1 << (n - u16::from(low))),
                None => Err(ProfileFault::OutOfRange(self.part, key)),
            },
            _ => Err(ProfileFault::WrongKind(self.part, key)),
        }
    }

    /// The items of an array of tables, at most 256: none where there is no such key.
    #[tactic(auto, unfolding(crate::specs::Checks::in_order))]
    pub fn entries(&self, key: Key) -> Result<&[Value], ProfileFault>
        ensures reads { let line = key_row key (tables 256) (optional (array no_items)) in ReadsAs (λ values. items_view values.now) (first_fault (head_checks self.now.part line (is_too_long line.kind) (tree_of self.now))) (items (value_at line self.now)) result }
        ensures few { IfOk result (λ values. length values.now ≤ 256) }
    {
        let Some(value) = self.value(key) else {
            return Ok(&[]);
        };
        let Some(items) = items_of(value) else {
            return Err(ProfileFault::WrongKind(self.part, key));
        };
        if items.len() > 256 {
            return Err(ProfileFault::TooMany(self.part, key));
        }
        Ok(items)
    }
}

/// The items of an array, where the value is one.
pub fn items_of(value: &Value) -> Option<&[Value]>
    ensures { option_map (λ values. items_view values.now) result ≡ as_array (view value.now) }
{
    match value.as_array() {
        Some(array) => Some(array.as_slice()),
        None => None,
    }
}

/// The number, where it is from `low` to `high`.
pub fn in_range(n: i64, low: u16, high: u16) -> Option<u16>
    ensures value { result ≡ in_range low high n }
    ensures range { IfSome result (λ m. (low ≤ m) × (m ≤ high)) }
{
    if n < i64::from(low) || i64::from(high) < n {
        return None;
    }
    Some(n as u16)
}

/// Tells whether a name is that of one of the keys.
pub fn is_known(keys: &[Key], name: &str) -> bool
    ensures { result ≡ is_known keys.now name.now }
{
    for key in keys {
        if key.name() == name {
            return true;
        }
    }
    false
}
