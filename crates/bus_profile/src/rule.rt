//! The rules of a profile text.
ghost use Rattle.std.specs.Prelude.{◌≤◌, length, IfOk, map};
ghost use Rattle.toml.specs.Data.{table as table_data};
ghost use Rattle.toml.specs.View.{view, items_view, table_view};
ghost use Rattle.bus_profile.specs.Checks.{first_fault};
ghost use Rattle.bus_profile.specs.inner.FirstFault.{fault_of_parts, ReadsAs, ReadsInMemory};
ghost use Rattle.bus_profile.specs.Faults.{rule_checks, each_item};
ghost use Rattle.bus_legal.specs.Plain.{plain_rule};
ghost use Rattle.bus_profile.specs.Gives.{rule_in, each_of};

use crate::fault::{Key, Part, ProfileFault};
use crate::keys::RULE_KEYS;
use crate::section::Section;
use bus_legal::{Entries, Rule};
use std::alloc::Global;
use toml::{Table, Value};

/// The rules that are the items of an array.
pub fn rules_of(alloc: Global, values: &[Value]) -> Result<Entries<Rule>, ProfileFault>
    requires { length values.now ≤ 256 }
    ensures reads { ReadsInMemory (map plain_rule) (fault_of_parts (each_item rule_checks 1 (items_view values.now))) (each_of rule_in (items_view values.now)) result }
    ensures few { IfOk result (λ rules. length rules ≤ 256) }
{
    let mut rules = Vec::new(alloc);
    for (index, value) in values.iter().enumerate() {
        rules.push(rule_of(value, index as u16 + 1)?)?;
    }
    Ok(Entries::of(rules))
}

/// Reads the rule that a value is.
#[tactic(auto, unfolding(crate::specs::Checks::in_order, crate::specs::Faults::entry_checks))]
fn rule_of(value: &Value, number: u16) -> Result<Rule, ProfileFault>
    ensures { ReadsAs plain_rule (first_fault (rule_checks number (view value.now))) (rule_in (view value.now)) result }
{
    match value {
        Value::Table(table) => rule_from(table, number),
        _ => Err(ProfileFault::WrongKind(Part::Rule(number), Key::Rule)),
    }
}

/// Reads the rule of a table.
#[tactic(auto, using(crate::proofs::Sections::rule_fault))]
fn rule_from(table: &Table, number: u16) -> Result<Rule, ProfileFault>
    ensures { ReadsAs plain_rule (first_fault (rule_checks number (table_data (table_view table.now)))) (rule_in (table_data (table_view table.now))) result }
{
    let section = Section {
        table,
        part: Part::Rule(number),
    };
    if section.has_unknown_key(&RULE_KEYS) {
        return Err(ProfileFault::UnknownKey(section.part));
    }
    let addressee = section.addressee()?;
    let direction = section.direction()?;
    let subaddresses = section.required_ranges(Key::Subaddresses, 1, 30)?;
    let counts = section.counts()?;
    let legal = section.optional_truth(Key::Legal, true)?;
    Ok(Rule {
        own: addressee.is_own(),
        broadcast: addressee.is_broadcast(),
        receive: direction.is_receive(),
        transmit: direction.is_transmit(),
        subaddresses,
        counts,
        legal,
    })
}
