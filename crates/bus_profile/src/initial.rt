//! The initial entries of a profile text: the words that subaddresses hold at power-up.
ghost use Rattle.std.specs.Prelude.{◌≡◌, ◌+◌, ◌-◌, ◌≤◌, length, map, take, IfOk};
ghost use Rattle.toml.specs.Data.{table as table_data};
ghost use Rattle.toml.specs.View.{view, items_view, table_view};
ghost use Rattle.bus_profile.specs.Checks.{first_fault};
ghost use Rattle.bus_profile.specs.inner.FirstFault.{fault_of_parts, Reads, ReadsAs, ReadsInMemory};
ghost use Rattle.bus_profile.specs.Faults.{initial_checks, head_checks, goes_beyond, word_checks, each_item};
ghost use Rattle.bus_profile.specs.Keys.{at_row, words_row};
ghost use Rattle.bus_profile.specs.Kinds.{items};
ghost use Rattle.bus_legal.specs.Plain.{plain_initial};
ghost use Rattle.bus_profile.specs.Gives.{initial_in, initial_word_in, each_of};
ghost use Rattle.bus_profile.specs.inner.Section.{tree_of, value_at};
ghost use Rattle.bus_profile.specs.inner.FirstWord.{IsFirstWord};

use crate::fault::{Key, Part, ProfileFault};
use crate::keys::INITIAL_KEYS;
use crate::section::{Section, in_range, items_of};
use bus_legal::{Entries, InitialWords};
use std::alloc::Global;
use toml::{Table, Value};

/// The initial entries that are the items of an array.
pub fn initials_of(alloc: Global, values: &[Value]) -> Result<Entries<InitialWords>, ProfileFault>
    requires { length values.now ≤ 256 }
    ensures reads { ReadsInMemory (map plain_initial) (fault_of_parts (each_item initial_checks 1 (items_view values.now))) (each_of initial_in (items_view values.now)) result }
    ensures few { IfOk result (λ initials. length initials ≤ 256) }
{
    let mut initials = Vec::new(alloc);
    for (index, value) in values.iter().enumerate() {
        initials.push(initial_of(value, index as u16 + 1)?)?;
    }
    Ok(Entries::of(initials))
}

/// Reads the initial entry that a value is.
#[tactic(auto, unfolding(crate::specs::Checks::in_order, crate::specs::Faults::entry_checks))]
fn initial_of(value: &Value, number: u16) -> Result<InitialWords, ProfileFault>
    ensures { ReadsAs plain_initial (first_fault (initial_checks number (view value.now))) (initial_in (view value.now)) result }
{
    match value {
        Value::Table(table) => initial_from(table, number),
        _ => Err(ProfileFault::WrongKind(Part::Initial(number), Key::Initial)),
    }
}

/// Reads the initial entry of a table.
#[tactic(auto, using(crate::proofs::Sections::initial_fault))]
fn initial_from(table: &Table, number: u16) -> Result<InitialWords, ProfileFault>
    ensures { ReadsAs plain_initial (first_fault (initial_checks number (table_data (table_view table.now)))) (initial_in (table_data (table_view table.now))) result }
{
    let section = Section {
        table,
        part: Part::Initial(number),
    };
    if section.has_unknown_key(&INITIAL_KEYS) {
        return Err(ProfileFault::UnknownKey(section.part));
    }
    let subaddress = section.required_whole(Key::Subaddress, 1, 30)?;
    let first = section.optional_whole(Key::At, 1, 32, 1)?;
    let values = section.word_values(first)?;
    let words = words_of(values, section.part)?;
    Ok(InitialWords {
        subaddress: subaddress as u8,
        first: first as u8,
        len: values.len() as u8,
        words,
    })
}

impl Section<'_> {
    /// Gives the values of the words, of which none goes beyond number 32 where `first` is that of the first.
    #[tactic(auto, unfolding(crate::specs::Checks::in_order))]
    fn word_values(&self, first: u16) -> Result<&[Value], ProfileFault>
        requires { IsFirstWord first (value_at at_row self.now) }
        ensures reads { ReadsAs (λ values. items_view values.now) (first_fault (head_checks self.now.part words_row (goes_beyond (value_at at_row self.now)) (tree_of self.now))) (items (value_at words_row self.now)) result }
        ensures room { IfOk result (λ values. first + length values.now ≤ 33) }
    {
        let Some(value) = self.value(Key::Words) else {
            return Err(ProfileFault::Missing(self.part, Key::Words));
        };
        let Some(values) = items_of(value) else {
            return Err(ProfileFault::WrongKind(self.part, Key::Words));
        };
        if values.len() > 33 - usize::from(first) {
            return Err(ProfileFault::TooMany(self.part, Key::Words));
        }
        Ok(values)
    }
}

/// Reads the words, which stand in front of the answer, as many as there are.
fn words_of(values: &[Value], part: Part) -> Result<[u16; 32], ProfileFault>
    requires { length values.now ≤ 32 }
    ensures { ReadsAs (take (length values.now)) (fault_of_parts (each_item (λ _. word_checks part) 1 (items_view values.now))) (each_of initial_word_in (items_view values.now)) result }
{
    let mut words = [0; 32];
    for (index, value) in values.iter().enumerate() {
        words[index] = word_of(value, part)?;
    }
    Ok(words)
}

/// Reads one word.
#[tactic(auto, unfolding(crate::specs::Checks::in_order))]
pub fn word_of(value: &Value, part: Part) -> Result<u16, ProfileFault>
    ensures { Reads (first_fault (word_checks part (view value.now))) (initial_word_in (view value.now)) result }
{
    let Some(n) = value.as_integer() else {
        return Err(ProfileFault::WrongKind(part, Key::Words));
    };
    in_range(n, 0, 65535).ok_or(ProfileFault::OutOfRange(part, Key::Words))
}
