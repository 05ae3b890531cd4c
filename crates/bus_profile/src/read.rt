//! The reading of a profile text.
ghost use Rattle.std.specs.Prelude.{◌≤◌, IfOk, IfErr, length, map};
ghost use Rattle.toml.specs.View.{table_view};
ghost use Rattle.bus_legal.specs.Plain.{plain, plain_rule, plain_initial};
ghost use Rattle.bus_profile.specs.Faults.{faults, rule_checks, mode_checks, initial_checks};
ghost use Rattle.bus_profile.specs.Gives.{profile_of, rules_of, modes_of, initials_of};
ghost use Rattle.bus_profile.specs.Keys.{rules_key, modes_key, initials_key};
ghost use Rattle.bus_profile.specs.Checks.{first_fault};
ghost use Rattle.bus_profile.specs.inner.FirstFault.{ReadsInMemory};
ghost use Rattle.bus_profile.specs.inner.Section.{tree_of, entries_fault};
ghost use Rattle.bus_profile.specs.Read.{Accepts, Refuses};

use crate::fault::{Key, Part, ProfileFault};
use crate::initial::initials_of;
use crate::keys::ROOT_KEYS;
use crate::mode::modes_of;
use crate::own_codes::missing_code;
use crate::rule::rules_of;
use crate::section::Section;
use bus_legal::{Entries, InitialWords, ModeRule, Profile, Rule};
use std::alloc::Global;
use toml::Table;

/// Reads a profile text: a TOML document in UTF-8.
///
/// A refusal gives the first fault of the text. `Memory` may come in place of any answer, where a
/// growth was refused.
pub fn read_profile(alloc: Global, text: &[u8]) -> Result<Profile, ProfileFault>
    ensures accepted { IfOk result (Accepts text.now) }
    ensures refused { IfErr result (Refuses text.now) }
{
    match toml::table_from_slice(alloc, text) {
        Ok(table) => profile_of(alloc, &table),
        Err(error) if error.is_memory() => Err(ProfileFault::Memory),
        Err(_) => Err(ProfileFault::NotToml),
    }
}

/// Reads the rules.
fn rules_in(alloc: Global, root: &Section<'_>) -> Result<Entries<Rule>, ProfileFault>
    ensures reads { ReadsInMemory (map plain_rule) (entries_fault root.now.part rules_key rule_checks (tree_of root.now)) (rules_of (tree_of root.now)) result }
    ensures few { IfOk result (λ rules. length rules ≤ 256) }
{
    rules_of(alloc, root.entries(Key::Rule)?)
}

/// Reads the mode entries.
fn modes_in(alloc: Global, root: &Section<'_>) -> Result<Entries<ModeRule>, ProfileFault>
    ensures reads { ReadsInMemory (λ modes. modes) (entries_fault root.now.part modes_key mode_checks (tree_of root.now)) (modes_of (tree_of root.now)) result }
    ensures few { IfOk result (λ modes. length modes ≤ 256) }
{
    modes_of(alloc, root.entries(Key::Mode)?)
}

/// Reads the initial entries.
fn initials_in(alloc: Global, root: &Section<'_>) -> Result<Entries<InitialWords>, ProfileFault>
    ensures reads { ReadsInMemory (map plain_initial) (entries_fault root.now.part initials_key initial_checks (tree_of root.now)) (initials_of (tree_of root.now)) result }
    ensures few { IfOk result (λ initials. length initials ≤ 256) }
{
    initials_of(alloc, root.entries(Key::Initial)?)
}

/// Reads the profile of a tree.
#[tactic(auto, using(crate::proofs::Tree::tree_fault))]
fn profile_of(alloc: Global, table: &Table) -> Result<Profile, ProfileFault>
    ensures { ReadsInMemory plain (first_fault (faults (table_view table.now))) (profile_of (table_view table.now)) result }
{
    let root = Section {
        table,
        part: Part::Root,
    };
    if root.has_unknown_key(&ROOT_KEYS) {
        return Err(ProfileFault::UnknownKey(root.part));
    }
    let address = root.required_whole(Key::Address, 0, 30)?;
    let broadcast = root.optional_truth(Key::Broadcast, false)?;
    let wrap = root.wraparound()?;
    let accept = root.optional_truth(Key::AcceptBusControl, false)?;
    let vector = root.optional_whole(Key::Vector, 0, 65535, 0)?;
    let bit = root.optional_whole(Key::Bit, 0, 65535, 0)?;
    let rules = rules_in(alloc, &root)?;
    let modes = modes_in(alloc, &root)?;
    let initials = initials_in(alloc, &root)?;
    if let Some(code) = missing_code(modes.as_slice()) {
        return Err(ProfileFault::RequiredCode(code));
    }
    Ok(Profile {
        address: address as u8,
        broadcast,
        wrap,
        accept,
        vector,
        bit,
        rules,
        modes,
        initials,
    })
}
