//! The parts of a profile's tree.
ghost use Rattle.std.specs.Prelude.{◌≡◌, ◌<◌, ◌+◌, ◌-◌, true, IfSome, option_map};
ghost use Rattle.toml.specs.Data.{get_member};
ghost use Rattle.toml.specs.View.{view, table_view};
ghost use Rattle.bus_profile.specs.Keys.{key_name};
ghost use Rattle.bus_profile.specs.declared.fault.Part.TheVariants.{Mode};
ghost use Rattle.rt1553_lint.specs.Places.{has_entry};
ghost use Rattle.rt1553_lint.specs.Standing.{array_item, item_table, part_numbered, part_table};

use bus_profile::{Key, Part, ProfileFault, parse_ranges, word_fault};
use toml::{Table, Value};

/// How many entries an array may have.
pub const MOST_ENTRIES: usize = 256;

/// The index of the entry of this number.
pub fn index_of(number: u16) -> usize
    ensures { result ≡ number - 1 }
{
    usize::from(number).saturating_sub(1)
}

/// The key of the array and the index of the entry that a part is.
fn entry_of(part: Part) -> Option<(Key, usize)> {
    match part {
        Part::Root => None,
        Part::Rule(number) => Some((Key::Rule, index_of(number))),
        Part::Mode(number) => Some((Key::Mode, index_of(number))),
        Part::Initial(number) => Some((Key::Initial, index_of(number))),
    }
}

/// The entry of this index of an array; the root where the key is of no array.
pub fn numbered(array: Key, index: usize) -> Part
    ensures { index < 65535 → result ≡ part_numbered array (index + 1) }
{
    let number = match u16::try_from(index) {
        Ok(index) => index.saturating_add(1),
        Err(_) => u16::MAX,
    };
    match array {
        Key::Rule => Part::Rule(number),
        Key::Mode => Part::Mode(number),
        Key::Initial => Part::Initial(number),
        _ => Part::Root,
    }
}

/// The value of a key of the root.
fn root_value(table: &Table, key: Key) -> Option<&Value>
    ensures { option_map (λ v. view v.now) result ≡ get_member (key_name key) (table_view table.now) }
{
    table.get(key.name())
}

/// An item of an array.
fn array_item(table: &Table, array: Key, index: usize) -> Option<&Value>
    ensures { option_map (λ v. view v.now) result ≡ array_item (key_name array) index (table_view table.now) }
{
    match root_value(table, array) {
        Some(items) => items.get(index),
        None => None,
    }
}

/// The table that an item of an array is, where it is one.
fn item_table(table: &Table, array: Key, index: usize) -> Option<&Table>
    ensures { option_map (λ t. table_view t.now) result ≡ item_table (key_name array) index (table_view table.now) }
{
    match array_item(table, array, index) {
        Some(item) => item.as_table(),
        None => None,
    }
}

/// The table that a part is, where it is one.
pub fn table_of(table: &Table, part: Part) -> Option<&Table>
    ensures { option_map (λ t. table_view t.now) result ≡ part_table part (table_view table.now) }
{
    match part {
        Part::Root => Some(table),
        Part::Rule(number) => item_table(table, Key::Rule, index_of(number)),
        Part::Mode(number) => item_table(table, Key::Mode, index_of(number)),
        Part::Initial(number) => item_table(table, Key::Initial, index_of(number)),
    }
}

/// The value of a key of a part; of an entry that is no table the entry.
pub fn value_of(table: &Table, part: Part, key: Key) -> Option<&Value> {
    let Some((array, index)) = entry_of(part) else {
        return root_value(table, key);
    };
    let Some(item) = array_item(table, array, index) else {
        return None;
    };
    if array == key {
        Some(item)
    } else {
        item.get(key.name())
    }
}

/// The index of the first wrong word from `from` on, of the words of an initial entry.
pub fn wrong_word(table: &Table, part: Part, from: usize) -> Option<usize> {
    let Some(value) = value_of(table, part, Key::Words) else {
        return None;
    };
    let Some(items) = value.as_array() else {
        return None;
    };
    for (index, item) in items.as_slice().iter().enumerate() {
        if from <= index && word_fault(item, part).is_some() {
            return Some(index);
        }
    }
    None
}

/// Whether a mode entry speaks of this own code.
fn speaks_of(entry: &Value, code: u8) -> bool {
    let to_own = match entry.get(Key::To.name()) {
        Some(to) => to.as_str() != Some("broadcast"),
        None => true,
    };
    let among = match entry.get(Key::Codes.name()) {
        Some(Value::Integer(number)) => *number == i64::from(code),
        Some(Value::String(text)) => match parse_ranges(text.as_str(), 0, 31) {
            Ok(codes) => code < 32 && (codes >> code) & 1 == 1,
            Err(_) => false,
        },
        _ => false,
    };
    to_own && among
}

/// The index of the last mode entry that speaks of this own code, among as many as there may be.
pub fn last_mode(table: &Table, code: u8) -> Option<usize>
    ensures { IfSome result (λ k. (k < 256) × (has_entry (Mode (k + 1)) (table_view table.now) ≡ true)) }
{
    let mut last = None;
    for index in 0..MOST_ENTRIES {
        if let Some(entry) = array_item(table, Key::Mode, index) {
            if speaks_of(entry, code) {
                last = Some(index);
            }
        }
    }
    last
}

/// Whether the fault is one of a single word of an initial entry, where the words are an array.
pub fn is_of_word(table: &Table, fault: ProfileFault) -> Option<Part> {
    match fault {
        ProfileFault::WrongKind(part, Key::Words) | ProfileFault::OutOfRange(part, Key::Words) => {
            match value_of(table, part, Key::Words) {
                Some(Value::Array(_)) => Some(part),
                _ => None,
            }
        }
        _ => None,
    }
}
