//! The full tree of what can be reached of a terminal, as a TOML table.
ghost use Rattle.std.specs.Prelude.{◌≡◌, ◌++◌, IfOk, OnOk, map};
ghost use Rattle.toml.specs.View.{table_view, view};
ghost use Rattle.rt1553_toml.specs.inner.FullTree.{put_member, from_number, rule_data, mode_data, initial_data, wraparound_data, rules_by, modes_by, initials_by, full_tree};

use crate::sets::set_text;
use bus_legal::{Normal, Tables};
use std::alloc::{AllocError, Global};
use toml::{Table, Value};

/// Puts a value at a key of a table.
fn put(alloc: Global, members: &mut Table, key: &str, value: Value) -> Result<(), AllocError>
    ensures { OnOk result (table_view members.new ≡ put_member key.now (view value) (table_view members.old)) }
{
    match members.insert(String::from_str(alloc, key)?, value) {
        Ok(_) => Ok(()),
        Err(_) => Err(AllocError),
    }
}

/// One rule.
fn rule_value(
    alloc: Global,
    to: &str,
    direction: &str,
    subaddress: u8,
    counts: u32,
) -> Result<Value, AllocError>
    ensures { IfOk result (λ value. view value ≡ rule_data to.now direction.now subaddress counts) }
{
    let mut members = Table::new(alloc);
    put(
        alloc,
        &mut members,
        "counts",
        Value::from(set_text(alloc, 1, counts)?),
    )?;
    put(
        alloc,
        &mut members,
        "direction",
        Value::string(alloc, direction)?,
    )?;
    put(alloc, &mut members, "legal", Value::from(counts != 0))?;
    put(alloc, &mut members, "subaddresses", Value::from(subaddress))?;
    put(alloc, &mut members, "to", Value::string(alloc, to)?)?;
    Ok(Value::from(members))
}

/// One mode entry.
fn mode_value(alloc: Global, to: &str, codes: u32) -> Result<Value, AllocError>
    ensures { IfOk result (λ value. view value ≡ mode_data to.now codes) }
{
    let mut members = Table::new(alloc);
    put(
        alloc,
        &mut members,
        "codes",
        Value::from(set_text(alloc, 0, codes)?),
    )?;
    put(alloc, &mut members, "legal", Value::from(codes != 0))?;
    put(alloc, &mut members, "to", Value::string(alloc, to)?)?;
    Ok(Value::from(members))
}

/// The words held for a subaddress.
fn initial_value(alloc: Global, subaddress: u8, row: &[u16; 32]) -> Result<Value, AllocError>
    ensures { IfOk result (λ value. view value ≡ initial_data subaddress row.now) }
{
    let mut words = Vec::new(alloc);
    for word in row {
        words.push(Value::from(u32::from(*word)))?;
    }
    let mut members = Table::new(alloc);
    put(alloc, &mut members, "subaddress", Value::from(subaddress))?;
    put(alloc, &mut members, "words", Value::from(words))?;
    Ok(Value::from(members))
}

/// Adds the rules of one kind, a rule for each subaddress.
fn push_rules(
    alloc: Global,
    rules: &mut Vec<Value>,
    to: &str,
    direction: &str,
    masks: &[u32; 30],
) -> Result<(), AllocError>
    ensures { OnOk result (map view rules.new.items ≡ map view rules.old.items ++ from_number (rule_data to.now direction.now) 1 masks.now) }
{
    for index in 0..30u8 {
        let counts = masks[usize::from(index)];
        rules.push(rule_value(alloc, to, direction, index + 1, counts)?)?;
    }
    Ok(())
}

/// The rules of all three kinds.
fn rules_of(alloc: Global, tables: &Tables) -> Result<Vec<Value>, AllocError>
    ensures { IfOk result (λ rules. map view rules.items ≡ rules_by tables.now) }
{
    let mut rules = Vec::new(alloc);
    push_rules(alloc, &mut rules, "own", "receive", &tables.own_receive)?;
    push_rules(alloc, &mut rules, "own", "transmit", &tables.own_transmit)?;
    push_rules(
        alloc,
        &mut rules,
        "broadcast",
        "receive",
        &tables.broadcast_receive,
    )?;
    Ok(rules)
}

/// The mode entries of both kinds.
fn modes_of(alloc: Global, tables: &Tables) -> Result<Vec<Value>, AllocError>
    ensures { IfOk result (λ modes. map view modes.items ≡ modes_by tables.now) }
{
    let mut modes = Vec::new(alloc);
    modes.push(mode_value(alloc, "own", tables.own_mode)?)?;
    modes.push(mode_value(alloc, "broadcast", tables.broadcast_mode)?)?;
    Ok(modes)
}

/// The initial entries.
fn initials_of(alloc: Global, words: &[[u16; 32]; 30]) -> Result<Vec<Value>, AllocError>
    ensures { IfOk result (λ initials. map view initials.items ≡ initials_by words.now) }
{
    let mut initials = Vec::new(alloc);
    for index in 0..30u8 {
        initials.push(initial_value(alloc, index + 1, &words[usize::from(index)])?)?;
    }
    Ok(initials)
}

/// The wraparound subaddress, or that there is none.
fn wraparound_value(wrap: u8) -> Value
    ensures { view result ≡ wraparound_data wrap }
{
    if wrap == 0 {
        Value::from(false)
    } else {
        Value::from(wrap)
    }
}

/// The table of this terminal.
pub fn full_table(alloc: Global, normal: &Normal) -> Result<Table, AllocError>
    ensures { IfOk result (λ root. table_view root ≡ full_tree normal.now) }
{
    let tables = normal.tables();
    let accept = Value::from(normal.accept());
    let address = Value::from(normal.address());
    let bit = Value::from(u32::from(normal.bit()));
    let broadcast = Value::from(normal.broadcast());
    let initial = Value::from(initials_of(alloc, normal.initial())?);
    let mode = Value::from(modes_of(alloc, tables)?);
    let rule = Value::from(rules_of(alloc, tables)?);
    let vector = Value::from(u32::from(normal.vector()));
    let mut root = Table::new(alloc);
    put(alloc, &mut root, "accept_bus_control", accept)?;
    put(alloc, &mut root, "address", address)?;
    put(alloc, &mut root, "bit", bit)?;
    put(alloc, &mut root, "broadcast", broadcast)?;
    put(alloc, &mut root, "initial", initial)?;
    put(alloc, &mut root, "mode", mode)?;
    put(alloc, &mut root, "rule", rule)?;
    put(alloc, &mut root, "vector", vector)?;
    put(
        alloc,
        &mut root,
        "wraparound",
        wraparound_value(normal.wrap()),
    )?;
    Ok(root)
}
