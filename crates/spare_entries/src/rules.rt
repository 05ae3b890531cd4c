//! Which rules of a profile have no effect.
ghost use Rattle.std.specs.Prelude.{◌≡◌, ◌<◌, ◌↔◌, ℕ, false, IsTrue, OnOk, IfOk, length, map, get_or};
ghost use Rattle.bus_legal.specs.Meaning.{description_of};
ghost use Rattle.terminal_rules.specs.Same.{Same};
ghost use Rattle.spare_entries.specs.Without.{without_rule};
ghost use Rattle.spare_entries.specs.inner.Says.{concerns, counts_said, SameTable, SameTables};

use crate::said::{Said, unmark};
use bus_profile::{Profile, Rule};
use bus_word::has_bit;
use std::alloc::{AllocError, Global};

/// A table of the legal commands to subaddresses of data.
#[derive(Clone, Copy)]
pub enum Table {
    OwnReceive,
    OwnTransmit,
    BroadcastReceive,
}

/// Whether the rule speaks of commands of the table.
fn concerns(table: Table, rule: &Rule) -> bool
    ensures { result ≡ concerns table rule.now }
{
    match table {
        Table::OwnReceive => rule.own && rule.receive,
        Table::OwnTransmit => rule.own && rule.transmit,
        Table::BroadcastReceive => rule.broadcast && rule.receive,
    }
}

/// What a rule says of the word counts at a subaddress, from 0.
fn counts_said(table: Table, subaddress: u8, rule: &Rule) -> Said
    requires { subaddress < 32 }
    ensures { result ≡ counts_said table subaddress rule.now }
{
    let bits = if concerns(table, rule) && has_bit(rule.subaddresses, subaddress) {
        rule.counts
    } else {
        0
    };
    Said {
        bits,
        legal: rule.legal,
    }
}

/// What each rule says of the word counts at a subaddress, from 0.
pub fn all_counts_said(
    alloc: Global,
    rules: &[Rule],
    table: Table,
    subaddress: u8,
) -> Result<Vec<Said>, AllocError>
    requires { subaddress < 32 }
    ensures { IfOk result (λ said. said.items ≡ map (counts_said table subaddress) rules.now) }
{
    rules
        .iter()
        .map(|rule| counts_said(table, subaddress, rule))
        .collect(alloc)
}

/// Takes the marks from the rules without which the table is another.
fn unmark_rules(
    alloc: Global,
    spares: &mut [bool],
    rules: &[Rule],
    table: Table,
) -> Result<(), AllocError>
    requires { length spares.old ≡ length rules.now }
    ensures { OnOk result ((k : ℕ) → k < length rules.now → IsTrue (get_or spares.new k false) ↔ (IsTrue (get_or spares.old k false) × SameTable table rules.now k)) }
{
    for subaddress in 0..30u8 {
        let said = all_counts_said(alloc, rules, table, subaddress)?;
        unmark(alloc, spares, &said, 0, u32::MAX)?;
    }
    Ok(())
}

/// Takes the marks from the rules without which the tables of the commands that the terminal hears are others.
fn unmark_all(alloc: Global, spares: &mut [bool], profile: &Profile) -> Result<(), AllocError>
    requires { length spares.old ≡ length profile.now.rules }
    ensures { OnOk result ((k : ℕ) → k < length profile.now.rules → IsTrue (get_or spares.new k false) ↔ (IsTrue (get_or spares.old k false) × SameTables profile.now k)) }
{
    let rules = profile.rules.as_slice();
    unmark_rules(alloc, spares, rules, Table::OwnReceive)?;
    unmark_rules(alloc, spares, rules, Table::OwnTransmit)?;
    if profile.broadcast {
        unmark_rules(alloc, spares, rules, Table::BroadcastReceive)?;
    }
    Ok(())
}

/// Tells of each rule whether it has no effect: without it the terminal is the same. The only error is out of memory.
pub fn spare_rules(alloc: Global, profile: &Profile) -> Result<Vec<bool>, AllocError>
    ensures length { IfOk result (λ spares. length spares.items ≡ length profile.now.rules) }
    ensures each { IfOk result (λ spares. (k : ℕ) → k < length profile.now.rules → IsTrue (get_or spares.items k false) ↔ Same (description_of profile.now) (without_rule profile.now k)) }
{
    let mut spares = vec![in alloc; true; profile.rules.as_slice().len()]?;
    unmark_all(alloc, &mut spares, profile)?;
    Ok(spares)
}
