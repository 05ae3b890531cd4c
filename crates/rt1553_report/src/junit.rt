//! Results as JUnit reports them, XML.
ghost use Rattle.std.specs.Prelude.{ℕ, List, Some, IfOk, OnOk, option_map, string_bytes};
ghost use Rattle.rt1553_report.specs.Pieces.{AddsPiece};
ghost use Rattle.rt1553_report.specs.Junit.{AreNamesProperties, AreSuiteProperties, IsJunitReport, IsJunitSuite, IsProperty, IsTimestamp, digest_properties, digest_property, some_digest};

use crate::head::{FileDigests, NamesTable, ReportHead, push_digest};
use crate::result::{DifferenceNotes, ScriptOutcome, ScriptResult, Totals, totals_of};
use crate::told::{difference_told, push_markup, push_shown};
use crate::unit::{ReplyDifference, UnitVerdict};
use drawing_boxes::push_escaped;
use rt1553_verify::{NumberRange, WrongAnswer};
use std::alloc::{AllocError, Global};
use std::format;

/// The attributes of an element that tell how many tests it has. No time is told, so that the report depends on its input alone.
fn totals_text(alloc: Global, totals: Totals) -> Result<String, AllocError> {
    let Totals {
        tests,
        failures,
        errors,
        skipped,
    } = totals;
    format!(in alloc;
        " tests=\"{tests}\" failures=\"{failures}\" errors=\"{errors}\" skipped=\"{skipped}\" time=\"0\""
    )
}

/// Writes a property.
pub fn push_property(
    alloc: Global,
    text: &mut String,
    name: &str,
    value: &[u8],
) -> Result<(), AllocError>
    ensures { OnOk result ((property : List ℕ) × IsProperty name.now value.now property × AddsPiece (string_bytes text.old) (string_bytes text.new) property) }
{
    push_markup(text, "<property name=\"")?;
    push_markup(text, name)?;
    push_markup(text, "\" value=\"")?;
    push_shown(alloc, text, value)?;
    push_markup(text, "\"/>\n")
}

/// Writes the property of a digest.
pub fn push_digest_property(
    alloc: Global,
    text: &mut String,
    name: &str,
    digest: [u8; 32],
) -> Result<(), AllocError>
    ensures { OnOk result (AddsPiece (string_bytes text.old) (string_bytes text.new) (digest_property name.now digest)) }
{
    push_markup(text, "<property name=\"")?;
    push_markup(text, name)?;
    push_markup(text, "\" value=\"")?;
    push_digest(alloc, text, digest)?;
    push_markup(text, "\"/>\n")
}

/// Writes the property of a digest, where there is one.
fn push_some_digest(
    alloc: Global,
    text: &mut String,
    name: &str,
    digest: Option<[u8; 32]>,
) -> Result<(), AllocError>
    ensures { OnOk result (AddsPiece (string_bytes text.old) (string_bytes text.new) (some_digest name.now digest)) }
{
    match digest {
        Some(digest) => push_digest_property(alloc, text, name, digest),
        None => Ok(()),
    }
}

/// Writes the digests of a script, and of its profile.
fn push_digests(alloc: Global, text: &mut String, digests: FileDigests) -> Result<(), AllocError>
    ensures { OnOk result (AddsPiece (string_bytes text.old) (string_bytes text.new) (digest_properties digests)) }
{
    push_some_digest(alloc, text, "sha256", digests.script)?;
    push_some_digest(alloc, text, "profile_sha256", digests.profile)?;
    push_some_digest(alloc, text, "canonical_sha256", digests.canonical)
}

/// Writes the properties of the table of names.
fn push_table(alloc: Global, text: &mut String, table: NamesTable<'_>) -> Result<(), AllocError>
    ensures { OnOk result ((properties : List ℕ) × AreNamesProperties (Some table.entry) properties × AddsPiece (string_bytes text.old) (string_bytes text.new) properties) }
{
    push_property(alloc, text, "names", table.file.as_bytes())?;
    push_digest_property(alloc, text, "names_sha256", table.digest)
}

/// The same, where there is one.
fn push_names(
    alloc: Global,
    text: &mut String,
    names: Option<NamesTable<'_>>,
) -> Result<(), AllocError>
    ensures { OnOk result ((properties : List ℕ) × AreNamesProperties names.entry properties × AddsPiece (string_bytes text.old) (string_bytes text.new) properties) }
{
    match names {
        Some(table) => push_table(alloc, text, table),
        None => Ok(()),
    }
}

/// Writes what the test cases of a report share, and behind that these other properties.
fn push_head(
    alloc: Global,
    text: &mut String,
    head: ReportHead<'_>,
    more: &str,
) -> Result<(), AllocError>
    ensures { OnOk result ((properties : List ℕ) × AreSuiteProperties head.entry more.now properties × AddsPiece (string_bytes text.old) (string_bytes text.new) properties) }
{
    push_markup(text, "<properties>\n")?;
    push_property(alloc, text, "program", head.program.as_bytes())?;
    push_property(alloc, text, "toolchain", head.toolchain.as_bytes())?;
    push_property(alloc, text, "canonical", head.canonical.as_bytes())?;
    push_names(alloc, text, head.names)?;
    push_markup(text, more)?;
    push_markup(text, "</properties>\n")
}

/// Writes the attribute of the date.
fn push_stamp(alloc: Global, text: &mut String, date: &str) -> Result<(), AllocError>
    ensures { OnOk result ((stamp : List ℕ) × IsTimestamp (Some date.now) stamp × AddsPiece (string_bytes text.old) (string_bytes text.new) stamp) }
{
    push_markup(text, " timestamp=\"")?;
    push_shown(alloc, text, date.as_bytes())?;
    push_markup(text, "\"")
}

/// The same, where there is one.
fn push_timestamp(alloc: Global, text: &mut String, date: Option<&str>) -> Result<(), AllocError>
    ensures { OnOk result ((stamp : List ℕ) × IsTimestamp (option_map (λ d. d.now) date.entry) stamp × AddsPiece (string_bytes text.old) (string_bytes text.new) stamp) }
{
    match date {
        Some(date) => push_stamp(alloc, text, date),
        None => Ok(()),
    }
}

/// Writes the clauses that a script names.
fn push_clauses(alloc: Global, text: &mut String, clauses: &[Vec<u8>]) -> Result<(), AllocError> {
    for clause in clauses {
        push_property(alloc, text, "clause", clause.as_slice())?;
    }
    Ok(())
}

/// Writes the digests of a script, and the clauses that it names, where there are any.
fn push_properties(alloc: Global, text: &mut String, of: &ScriptResult) -> Result<(), AllocError> {
    if of.clauses.is_empty() && !of.digests.has_any() {
        return Ok(());
    }
    text.push_str("<properties>\n")?;
    push_digests(alloc, text, of.digests)?;
    push_clauses(alloc, text, of.clauses.as_slice())?;
    text.push_str("</properties>\n")
}

/// Writes the lines of a failure: one for each event that was not answered as stated.
fn push_wrong(
    alloc: Global,
    text: &mut String,
    file: &str,
    wrong: &[WrongAnswer],
    notes: &DifferenceNotes,
) -> Result<(), AllocError> {
    for (index, one) in wrong.iter().enumerate() {
        push_shown(alloc, text, file.as_bytes())?;
        write!(text, ":{}: ", one.line)?;
        let told = difference_told(alloc, one, notes.wording, notes.beside(index))?;
        push_escaped(text, told.as_str())?;
        text.push_str("\n")?;
    }
    Ok(())
}

/// Writes the lines of a failure: one for each reply that is not that of the terminal.
fn push_replies(
    alloc: Global,
    text: &mut String,
    file: &str,
    replies: &[ReplyDifference],
) -> Result<(), AllocError> {
    for one in replies {
        push_shown(alloc, text, file.as_bytes())?;
        write!(text, ":{}: ", one.line)?;
        push_escaped(text, one.told(alloc)?.as_str())?;
        text.push_str("\n")?;
    }
    Ok(())
}

/// The same of exchanges without a result.
fn push_missing(
    alloc: Global,
    text: &mut String,
    file: &str,
    missing: &[NumberRange],
) -> Result<(), AllocError> {
    for numbers in missing {
        push_shown(alloc, text, file.as_bytes())?;
        writeln!(text, ": {numbers}")?;
    }
    Ok(())
}

/// Writes what the results of a unit tell of it: nothing where it passes.
fn push_unit(
    alloc: Global,
    text: &mut String,
    file: &str,
    unit: &UnitVerdict,
) -> Result<(), AllocError> {
    if unit.passes() {
        return Ok(());
    }
    text.push_str("<failure message=\"")?;
    push_escaped(text, unit.text.as_str())?;
    text.push_str("\">")?;
    push_replies(alloc, text, file, unit.differences.as_slice())?;
    push_missing(alloc, text, file, unit.missing.as_slice())?;
    text.push_str("</failure>\n")
}

/// Writes why nothing of a script was judged in which nothing differs: nothing where something was.
fn push_skipped(text: &mut String, of: &ScriptResult) -> Result<(), AllocError> {
    match of.outcome.warning() {
        Some(why) => writeln!(text, "<skipped message=\"{why}\"/>"),
        None => Ok(()),
    }
}

/// Writes what came of a script: nothing where it passes.
fn push_outcome(alloc: Global, text: &mut String, of: &ScriptResult) -> Result<(), AllocError> {
    match &of.outcome {
        ScriptOutcome::NotPlayed(reason) => {
            text.push_str("<error message=\"")?;
            push_escaped(text, reason.as_str())?;
            text.push_str("\"/>\n")
        }
        ScriptOutcome::Judged(unit) => push_unit(alloc, text, of.file.as_str(), unit),
        ScriptOutcome::Played { wrong, notes, .. } => {
            if wrong.is_empty() {
                return push_skipped(text, of);
            }
            write!(text, "<failure message=\"differences: {}\">", wrong.len())?;
            push_wrong(alloc, text, of.file.as_str(), wrong.as_slice(), notes)?;
            text.push_str("</failure>\n")
        }
    }
}

/// Writes what a script in which something differs lacks to be judged, where it lacks something.
fn push_warning(text: &mut String, of: &ScriptResult) -> Result<(), AllocError> {
    match of.outcome.warning() {
        Some(warning) if of.outcome.fails() => {
            writeln!(text, "<system-err>warning: {warning}</system-err>")
        }
        _ => Ok(()),
    }
}

/// Writes a script as a test case.
fn push_case(alloc: Global, text: &mut String, of: &ScriptResult) -> Result<(), AllocError> {
    text.push_str("<testcase name=\"")?;
    push_shown(alloc, text, of.file.as_str().as_bytes())?;
    text.push_str("\" classname=\"")?;
    match &of.profile {
        Some(profile) => push_shown(alloc, text, profile.as_str().as_bytes())?,
        None => text.push_str("no profile")?,
    }
    if let Some(answers) = of.outcome.answers() {
        write!(text, "\" assertions=\"{answers}")?;
    }
    text.push_str("\" time=\"0\">\n")?;
    push_properties(alloc, text, of)?;
    push_outcome(alloc, text, of)?;
    push_warning(text, of)?;
    text.push_str("</testcase>\n")
}

/// The test cases of scripts.
fn cases_text(alloc: Global, results: &[ScriptResult]) -> Result<String, AllocError> {
    let mut text = String::new(alloc);
    for of in results {
        push_case(alloc, &mut text, of)?;
    }
    Ok(text)
}

/// A report of JUnit, XML, of one suite: it has so many test cases, these properties behind those of the head, and these test cases.
pub fn junit_suite(
    alloc: Global,
    head: ReportHead<'_>,
    totals: Totals,
    more: &str,
    cases: &str,
) -> Result<String, AllocError>
    ensures { IfOk result (λ text. IsJunitSuite head.entry more.now cases.now (string_bytes text)) }
{
    let totals = totals_text(alloc, totals)?;
    let totals = totals.as_str();
    let mut text = String::new(alloc);
    push_markup(
        &mut text,
        "<?xml version=\"1.0\" encoding=\"UTF-8\"?>\n<testsuites",
    )?;
    push_markup(&mut text, totals)?;
    push_markup(&mut text, ">\n<testsuite name=\"rt1553-tool ")?;
    push_markup(&mut text, head.command)?;
    push_markup(&mut text, "\"")?;
    push_markup(&mut text, totals)?;
    push_timestamp(alloc, &mut text, head.date)?;
    push_markup(&mut text, ">\n")?;
    push_head(alloc, &mut text, head, more)?;
    push_markup(&mut text, cases)?;
    push_markup(&mut text, "</testsuite>\n</testsuites>\n")?;
    Ok(text)
}

/// The results of scripts as JUnit reports tests: XML, one test case a script, in their order. The class of a test case is the
/// profile of its script. Properties tell versions, digests and clauses.
pub fn junit_report(
    alloc: Global,
    head: ReportHead<'_>,
    results: &[ScriptResult],
) -> Result<String, AllocError>
    ensures { IfOk result (λ text. IsJunitReport head.entry (string_bytes text)) }
{
    let cases = cases_text(alloc, results)?;
    junit_suite(alloc, head, totals_of(results), "", cases.as_str())
}
