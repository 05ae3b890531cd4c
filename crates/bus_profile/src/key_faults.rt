//! The faults of the keys of one table, all of them.
ghost use Rattle.std.specs.Prelude.{◌≡◌, ◌++◌, ◌∷◌, [], if◌then◌else◌, OnOk};
ghost use Rattle.toml.specs.View.{view, items_view};
ghost use Rattle.bus_profile.specs.Checks.{first_fault};
ghost use Rattle.bus_profile.specs.Keys.{at_row};
ghost use Rattle.bus_profile.specs.Kinds.{found, items};
ghost use Rattle.bus_profile.specs.Faults.{each_item, word_checks, words_checks, goes_beyond};
ghost use Rattle.bus_profile.specs.AllFaults.{failing, rows_at};
ghost use Rattle.bus_profile.specs.inner.AllFaults.{failing_parts, present, unknown_told, array_told, key_told, keys_told};
ghost use Rattle.bus_profile.specs.inner.Section.{tree_of, value_at};

use crate::fault::{Key, Part, ProfileFault};
use crate::initial::word_of;
use crate::keys::known_keys;
use crate::section::{Section, items_of};
use std::alloc::AllocError;
use toml::Value;

/// Adds a fault where there is one.
pub fn push_some(
    faults: &mut Vec<ProfileFault>,
    fault: Option<ProfileFault>,
) -> Result<(), AllocError>
    ensures { OnOk result (faults.new.items ≡ faults.old.items ++ present fault) }
{
    if let Some(fault) = fault {
        faults.push(fault)?;
    }
    Ok(())
}

/// Adds a fault where it is one.
pub fn push_where(
    faults: &mut Vec<ProfileFault>,
    fault: ProfileFault,
    is: bool,
) -> Result<(), AllocError>
    ensures { OnOk result (faults.new.items ≡ faults.old.items ++ (if is then fault ∷ [] else [])) }
{
    if is {
        faults.push(fault)?;
    }
    Ok(())
}

impl Section<'_> {
    /// The fault of a key that is none of those of this part.
    pub fn unknown_fault(&self) -> Option<ProfileFault>
        ensures { result ≡ unknown_told self.now.part (rows_at self.now.part) (tree_of self.now) }
    {
        if self.has_unknown_key(known_keys(self.part)) {
            Some(ProfileFault::UnknownKey(self.part))
        } else {
            None
        }
    }

    /// The fault of an array as such: that it isn't there, or is none.
    #[tactic(auto, unfolding(crate::specs::Checks::in_order))]
    fn array_fault(&self, key: Key, required: bool) -> Option<ProfileFault>
        ensures { result ≡ array_told self.now.part key required (found key (tree_of self.now)) }
    {
        match self.value(key) {
            Some(value) => {
                if value.is_array() {
                    None
                } else {
                    Some(ProfileFault::WrongKind(self.part, key))
                }
            }
            None => {
                if required {
                    Some(ProfileFault::Missing(self.part, key))
                } else {
                    None
                }
            }
        }
    }

    /// The fault of a key. Of an array its items are not asked.
    pub fn key_fault(&self, key: Key) -> Option<ProfileFault>
        ensures { result ≡ key_told self.now.part (tree_of self.now) key }
    {
        match key {
            Key::Address => self.required_whole(Key::Address, 0, 30).err(),
            Key::Broadcast => self.optional_truth(Key::Broadcast, false).err(),
            Key::Wraparound => self.wraparound().err(),
            Key::AcceptBusControl => self.optional_truth(Key::AcceptBusControl, false).err(),
            Key::Vector => self.optional_whole(Key::Vector, 0, 65535, 0).err(),
            Key::Bit => self.optional_whole(Key::Bit, 0, 65535, 0).err(),
            Key::Rule => self.array_fault(Key::Rule, false),
            Key::Mode => self.array_fault(Key::Mode, false),
            Key::Initial => self.array_fault(Key::Initial, false),
            Key::To => self.addressee().err(),
            Key::Direction => self.direction().err(),
            Key::Subaddresses => self.required_ranges(Key::Subaddresses, 1, 30).err(),
            Key::Counts => self.counts().err(),
            Key::Legal => self.optional_truth(Key::Legal, true).err(),
            Key::Codes => self.required_ranges(Key::Codes, 0, 31).err(),
            Key::Subaddress => self.required_whole(Key::Subaddress, 1, 30).err(),
            Key::At => self.optional_whole(Key::At, 1, 32, 1).err(),
            Key::Words => self.array_fault(Key::Words, true),
        }
    }

    /// The items of an array, none where there is no array.
    pub fn items_in(&self, key: Key) -> &[Value]
        ensures { items_view result.now ≡ items (found key (tree_of self.now)) }
    {
        let Some(value) = self.value(key) else {
            return &[];
        };
        match items_of(value) {
            Some(items) => items,
            None => &[],
        }
    }

    /// Adds the faults of these keys.
    #[tactic(auto, using(crate::proofs::AllFaults::row_failing))]
    pub fn push_keys(&self, faults: &mut Vec<ProfileFault>, keys: &[Key]) -> Result<(), AllocError>
        ensures { OnOk result (faults.new.items ≡ faults.old.items ++ keys_told self.now.part (tree_of self.now) keys.now) }
    {
        for key in keys {
            push_some(faults, self.key_fault(*key))?;
        }
        Ok(())
    }

    /// Whether these words go beyond number 32. Of an `at` with a fault this isn't asked.
    fn goes_beyond(&self, values: &[Value]) -> bool
        ensures { result ≡ goes_beyond (value_at at_row self.now) (items_view values.now) }
    {
        match self.optional_whole(Key::At, 1, 32, 1) {
            Ok(first) => values.len() > 33 - usize::from(first),
            Err(_) => false,
        }
    }

    /// Adds the faults of the words of an initial entry.
    pub fn push_words(&self, faults: &mut Vec<ProfileFault>) -> Result<(), AllocError>
        ensures { OnOk result (faults.new.items ≡ faults.old.items ++ failing (words_checks self.now.part (tree_of self.now))) }
    {
        push_some(faults, self.key_fault(Key::Words))?;
        let values = self.items_in(Key::Words);
        push_where(
            faults,
            ProfileFault::TooMany(self.part, Key::Words),
            self.goes_beyond(values),
        )?;
        push_each_word(faults, values, self.part)
    }
}

/// The fault of one word of an initial entry.
pub fn word_fault(value: &Value, part: Part) -> Option<ProfileFault>
    ensures { result ≡ first_fault (word_checks part (view value.now)) }
{
    word_of(value, part).err()
}

/// Adds the fault of each word.
#[tactic(auto, using(crate::proofs::AllFaults::word_failing))]
fn push_each_word(
    faults: &mut Vec<ProfileFault>,
    values: &[Value],
    part: Part,
) -> Result<(), AllocError>
    ensures { OnOk result (faults.new.items ≡ faults.old.items ++ failing_parts (each_item (λ _. word_checks part) 1 (items_view values.now))) }
{
    for value in values {
        push_some(faults, word_fault(value, part))?;
    }
    Ok(())
}
