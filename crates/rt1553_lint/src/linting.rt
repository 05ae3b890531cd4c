//! All that is wrong with a text, or has no effect in it.
ghost use Rattle.std.specs.Prelude.{◌≡◌, ◌≤◌, [], ◌∷◌, Some, None, All, IfOk, length};
ghost use Rattle.toml.specs.Data.{Members};
ghost use Rattle.toml.specs.View.{table_view};
ghost use Rattle.toml.specs.Errors.{IsMemory, IsWithin};
ghost use Rattle.bus_profile.specs.Read.{IsTree};
ghost use Rattle.bus_profile.specs.declared.fault.ProfileFault.TheVariants.{NotToml};
ghost use Rattle.rt1553_lint.specs.declared.finding.LintFault.TheVariants as lint_fault;
ghost use Rattle.rt1553_lint.specs.Findings.{FindsInTree, FindsInOther};
ghost use Rattle.rt1553_lint.specs.Places.{IsNone, AreStatementsOf};
ghost use Rattle.rt1553_lint.specs.Standing.{IsPlaced};

use crate::canon_hint::line_in_place_of;
use crate::errors::errors_of;
use crate::finding::{Finding, LintFault};
use crate::hint::hint_of;
use crate::lines::position_at;
use crate::places::{Places, places_of};
use crate::positions::{canon_position, with_positions};
use crate::shown::ShownMessage;
use crate::warnings::warnings_of;
use bus_canon::CanonFault;
use bus_profile::{ProfileFault, read_profile};
use rt1553::{LoadFault, load};
use std::alloc::{AllocError, Global};
use toml::Table;
use toml::de::Error;
use toml_places::{Statement, StatementsFault, statements_of};

/// The statements of a document. The only error is out of memory.
fn statements_in(alloc: Global, text: &[u8]) -> Result<Vec<Statement>, AllocError>
    requires { (tree : Members) × IsTree text.now tree }
    ensures read { IfOk result (λ found. AreStatementsOf text.now found.items) }
    ensures within { IfOk result (λ found. All (λ s. s.at ≤ length text.now) found.items) }
{
    let Ok(source) = str::from_utf8(text) else {
        unreachable!();
    };
    match statements_of(alloc, source) {
        Ok(statements) => Ok(statements),
        Err(StatementsFault::Memory) => Err(AllocError),
        Err(StatementsFault::NotToml) => unreachable!(),
    }
}

/// The findings of a text that is TOML, without their positions: its faults, or where it has none what has no effect.
fn found_in(
    alloc: Global,
    text: &[u8],
    table: &Table,
    places: &Places<'_>,
) -> Result<Vec<Finding>, AllocError>
    requires { IsTree text.now (table_view table.now) }
    ensures { IfOk result (λ found. FindsInTree text.now (table_view table.now) found.items) }
{
    let findings = errors_of(alloc, places, table)?;
    if !findings.is_empty() {
        return Ok(findings);
    }
    let Ok(profile) = read_profile(alloc, text) else {
        return Err(AllocError);
    };
    let warnings = warnings_of(alloc, &profile)?;
    Ok(warnings)
}

/// The findings of a text that is TOML.
fn lint_table(alloc: Global, text: &[u8], table: &Table) -> Result<Vec<Finding>, AllocError>
    requires { IsTree text.now (table_view table.now) }
    ensures found { IfOk result (λ found. FindsInTree text.now (table_view table.now) found.items) }
    ensures placed { IfOk result (λ found. All (IsPlaced text.now) found.items) }
{
    let statements = statements_in(alloc, text)?;
    let places = places_of(alloc, text, statements.as_slice())?;
    let found = found_in(alloc, text, table, &places)?;
    let placed = with_positions(alloc, &places, table, found)?;
    Ok(placed)
}

/// The finding of a canonical text that is refused: of a wrong line also one that could stand there.
fn canon_finding(alloc: Global, text: &[u8], fault: CanonFault) -> Result<Finding, AllocError>
    ensures fault { IfOk result (λ finding. finding.fault ≡ Some (lint_fault.Canon fault)) }
    ensures spare { IfOk result (λ finding. finding.spare ≡ None) }
    ensures placed { IfOk result (IsPlaced text.now) }
{
    let mut message = format!(in alloc; "{fault}")?;
    if let CanonFault::Line(line) = fault {
        if let Some(right) = line_in_place_of(alloc, text, line)? {
            write!(message, ": a line like \"{right}\" is expected")?;
        }
    }
    Ok(Finding {
        position: Some(canon_position(text, fault)),
        fault: Some(LintFault::Canon(fault)),
        spare: None,
        message,
    })
}

/// The finding of a text that is no TOML.
fn syntax_finding(alloc: Global, text: &[u8], error: &Error) -> Result<Finding, AllocError>
    requires memory { ¬ IsMemory error.now }
    requires within { IsWithin text.now error.now }
    ensures fault { IfOk result (λ finding. finding.fault ≡ Some (lint_fault.Profile NotToml)) }
    ensures spare { IfOk result (λ finding. finding.spare ≡ None) }
    ensures placed { IfOk result (IsPlaced text.now) }
{
    let Some(span) = error.span() else {
        unreachable!();
    };
    let fault = ProfileFault::NotToml;
    let hint = hint_of(text, error.message(), span.start);
    Ok(Finding {
        position: Some(position_at(text, span.start)),
        fault: Some(LintFault::Profile(fault)),
        spare: None,
        message: format!(in alloc; "{fault}: {}{hint}", ShownMessage(error.message()))?,
    })
}

/// This finding alone.
fn only(alloc: Global, finding: Finding) -> Result<Vec<Finding>, AllocError>
    ensures { IfOk result (λ found. found.items ≡ finding ∷ []) }
{
    let mut found = Vec::new(alloc);
    found.push(finding)?;
    Ok(found)
}

/// The findings of a text that is no TOML: none where it is a canonical text that is accepted.
fn lint_other(alloc: Global, text: &[u8], error: &Error) -> Result<Vec<Finding>, AllocError>
    requires none { IsNone text.now }
    requires memory { ¬ IsMemory error.now }
    requires within { IsWithin text.now error.now }
    ensures found { IfOk result (λ found. FindsInOther text.now found.items) }
    ensures placed { IfOk result (λ found. All (IsPlaced text.now) found.items) }
{
    match load(alloc, text) {
        Ok(_) => Ok(Vec::new(alloc)),
        Err(LoadFault::Canon(fault)) => {
            let finding = canon_finding(alloc, text, fault)?;
            let found = only(alloc, finding)?;
            Ok(found)
        }
        Err(LoadFault::Profile(_)) => {
            let finding = syntax_finding(alloc, text, error)?;
            let found = only(alloc, finding)?;
            Ok(found)
        }
        Err(LoadFault::Memory) => Err(AllocError),
    }
}

/// Gives all that is wrong with a profile text or a canonical text, in the order of the faults; where nothing is wrong, each
/// entry, key and word of a profile that has no effect, in the order of the keys. The only error is out of memory.
///
/// Of a text that is no TOML, or no canonical text, the first fault alone is found.
pub fn lint(alloc: Global, text: &[u8]) -> Result<Vec<Finding>, AllocError>
    ensures tree { IfOk result (λ found. (tree : Members) → IsTree text.now tree → FindsInTree text.now tree found.items) }
    ensures other { IfOk result (λ found. IsNone text.now → FindsInOther text.now found.items) }
    ensures placed { IfOk result (λ found. All (IsPlaced text.now) found.items) }
{
    match toml::table_from_slice(alloc, text) {
        Ok(table) => lint_table(alloc, text, &table),
        Err(error) => {
            if error.is_memory() {
                return Err(AllocError);
            }
            let found = lint_other(alloc, text, &error)?;
            Ok(found)
        }
    }
}
