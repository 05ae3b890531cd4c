//! The findings of a tree's faults: for each the value as it is written, and what would be allowed.
ghost use Rattle.std.specs.Prelude.{◌≡◌, ◌<◌, ◌++◌, IfOk, OnOk, Some, None, length, map};
ghost use Rattle.toml.specs.View.{table_view};
ghost use Rattle.bus_profile.specs.AllFaults.{told_faults};
ghost use Rattle.rt1553_lint.specs.declared.finding.LintFault.TheVariants as LintFault;
ghost use Rattle.rt1553_lint.specs.Findings.{subjects, profile_error};

use crate::finding::{Finding, LintFault};
use crate::places::Places;
use crate::shown::{Quoted, Shown};
use crate::tree::{is_of_word, last_mode, table_of, value_of, wrong_word};
use bus_profile::{Key, Part, ProfileFault, all_faults, known_keys, unknown_keys};
use std::alloc::{AllocError, Global};
use toml::Table;

/// How many unknown keys a message names.
const MOST_NAMES: usize = 10;

/// What a key takes.
fn allowed(key: Key) -> &'static str {
    match key {
        Key::Address => "a whole number from 0 to 30",
        Key::Broadcast | Key::AcceptBusControl | Key::Legal => "true or false",
        Key::Wraparound => "true, false or a whole number from 1 to 30",
        Key::Vector | Key::Bit => "a whole number from 0 to 65535",
        Key::Rule => "at most 256 tables [[rule]]",
        Key::Mode => "at most 256 tables [[mode]]",
        Key::Initial => "at most 256 tables [[initial]]",
        Key::To => "\"own\", \"broadcast\" or \"both\"",
        Key::Direction => "\"receive\", \"transmit\" or \"both\"",
        Key::Subaddresses => "a number or ranges from 1 to 30, as \"1-3, 5\"",
        Key::Counts => "a number or ranges from 1 to 32, as \"1-3, 5\"",
        Key::Codes => "a number or ranges from 0 to 31, as \"1-3, 5\"",
        Key::Subaddress => "a whole number from 1 to 30",
        Key::At => "a whole number from 1 to 32",
        Key::Words => "an array of whole numbers from 0 to 65535, none beyond number 32",
    }
}

/// The names that the keys of a part may have.
fn known_names(alloc: Global, part: Part) -> Result<Vec<&'static str>, AllocError> {
    let mut names = Vec::new(alloc);
    for key in known_keys(part) {
        names.push(key.name())?;
    }
    Ok(names)
}

/// Which of these keys of a part, that it may not have, comes first in the text.
pub fn first_unknown(
    alloc: Global,
    places: &Places<'_>,
    part: Part,
    names: &[&str],
) -> Result<usize, AllocError>
    requires { 0 < length names.now }
    ensures { IfOk result (λ i. i < length names.now) }
{
    let known = known_names(alloc, part)?;
    let Some(first) = places.first_besides(part, known.as_slice()) else {
        return Ok(0);
    };
    for index in 0..names.len() {
        if names[index] == first {
            return Ok(index);
        }
    }
    Ok(0)
}

/// The keys of a part that it may not have, of which that comes first that is first in the text.
fn unknown_names<'a>(
    alloc: Global,
    places: &Places<'_>,
    table: &'a Table,
    part: Part,
) -> Result<Vec<&'a str>, AllocError> {
    let Some(inner) = table_of(table, part) else {
        return Ok(Vec::new(alloc));
    };
    let mut names = unknown_keys(alloc, inner, part)?;
    if !names.is_empty() {
        let first = first_unknown(alloc, places, part, names.as_slice())?;
        let name = names.remove(first);
        names.insert(0, name)?;
    }
    Ok(names)
}

/// Adds the keys of a table that it may not have, and those that it may.
fn push_unknown(
    alloc: Global,
    message: &mut String,
    places: &Places<'_>,
    table: &Table,
    part: Part,
) -> Result<(), AllocError> {
    let names = unknown_names(alloc, places, table, part)?;
    for (index, name) in names.as_slice().iter().enumerate() {
        if index == MOST_NAMES {
            write!(
                message,
                ", .. and {} more",
                names.len().saturating_sub(index)
            )?;
            break;
        }
        if index > 0 {
            message.push_str(",")?;
        }
        write!(message, " {}", Quoted(name))?;
    }
    message.push_str("; known are")?;
    for (index, key) in known_keys(part).iter().enumerate() {
        if index > 0 {
            message.push_str(",")?;
        }
        write!(message, " {key}")?;
    }
    Ok(())
}

/// Adds the value as it is written, and what would be allowed.
fn push_value(
    message: &mut String,
    table: &Table,
    part: Part,
    key: Key,
    word: Option<usize>,
) -> Result<(), AllocError> {
    if let Some(value) = value_of(table, part, key) {
        match word {
            Some(index) => {
                if let Some(item) = value.get(index) {
                    write!(
                        message,
                        ": word {} is {}",
                        index.saturating_add(1),
                        Shown(item)
                    )?;
                }
            }
            None => write!(message, ": {}", Shown(value))?,
        }
    }
    write!(message, "; allowed is {}", allowed(key))
}

/// Adds which entry makes a code illegal that must be legal.
fn push_required(message: &mut String, table: &Table, code: u8) -> Result<(), AllocError> {
    if let Some(index) = last_mode(table, code) {
        write!(
            message,
            "; mode {} makes it illegal",
            index.saturating_add(1)
        )?;
    }
    Ok(())
}

/// The message of a fault; `word` is the index of the word that has it.
fn message_of(
    alloc: Global,
    places: &Places<'_>,
    table: &Table,
    fault: ProfileFault,
    word: Option<usize>,
) -> Result<String, AllocError> {
    let mut message = String::new(alloc);
    write!(message, "{fault}")?;
    match fault {
        ProfileFault::UnknownKey(part) => push_unknown(alloc, &mut message, places, table, part)?,
        ProfileFault::Missing(_, key) => write!(message, "; allowed is {}", allowed(key))?,
        ProfileFault::WrongKind(part, key)
        | ProfileFault::OutOfRange(part, key)
        | ProfileFault::BadRanges(part, key)
        | ProfileFault::TooMany(part, key) => push_value(&mut message, table, part, key, word)?,
        ProfileFault::RequiredCode(code) => push_required(&mut message, table, code)?,
        ProfileFault::NotToml | ProfileFault::Memory => {}
    }
    Ok(message)
}

/// The finding of a fault, without its position; `word` is the index of the word that has it.
fn finding_of(
    alloc: Global,
    places: &Places<'_>,
    table: &Table,
    fault: ProfileFault,
    word: Option<usize>,
) -> Result<Finding, AllocError>
    ensures fault { IfOk result (λ finding. finding.fault ≡ Some (LintFault.Profile fault)) }
    ensures spare { IfOk result (λ finding. finding.spare ≡ None) }
{
    Ok(Finding {
        position: None,
        fault: Some(LintFault::Profile(fault)),
        spare: None,
        message: message_of(alloc, places, table, fault, word)?,
    })
}

/// Adds the findings of these faults, without their positions.
fn push_faults(
    alloc: Global,
    findings: &mut Vec<Finding>,
    places: &Places<'_>,
    table: &Table,
    faults: &[ProfileFault],
) -> Result<(), AllocError>
    ensures { OnOk result (subjects findings.new.items ≡ subjects findings.old.items ++ map profile_error faults.now) }
{
    let mut from = 0usize;
    for fault in faults {
        let word = match is_of_word(table, *fault) {
            Some(part) => wrong_word(table, part, from),
            None => None,
        };
        from = match word {
            Some(index) => index.saturating_add(1),
            None => 0,
        };
        findings.push(finding_of(alloc, places, table, *fault, word)?)?;
    }
    Ok(())
}

/// The findings of the faults of a tree, without their positions.
pub fn errors_of(
    alloc: Global,
    places: &Places<'_>,
    table: &Table,
) -> Result<Vec<Finding>, AllocError>
    ensures { IfOk result (λ found. subjects found.items ≡ map profile_error (told_faults (table_view table.now))) }
{
    let faults = all_faults(alloc, table)?;
    let mut findings = Vec::new(alloc);
    push_faults(alloc, &mut findings, places, table, faults.as_slice())?;
    Ok(findings)
}
