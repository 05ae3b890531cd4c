//! The command `acceptance --against`: what a unit answered to the test of a terminal.
ghost use Rattle.std.specs.Prelude.{◌≡◌, ◌≤◌, ◌↔◌, IfOk, Some};
ghost use Rattle.bus_legal.specs.Description.{Description};
ghost use Rattle.bus_legal.specs.Parts.{description_in};
ghost use Rattle.tool_files.specs.Status.{RefusesText};
ghost use Rattle.tool_verify.specs.Digests.{HasDigestsOf};
ghost use Rattle.tool_verify.specs.declared.unit_results.JudgedResults.{JudgedResults};
ghost use Rattle.tool_verify.specs.declared.unit_results.LoadedResults.{LoadedResults};
ghost use Rattle.tool_verify.specs.UnitResults.{IsVerdictOn, IsLoadedResults, UnitPasses};

use crate::head::{head_of, loaded_names, profile_digests};
use crate::report::{put_kept, put_or_keep};
use crate::unit_verdict::unit_verdict_of;
use bus_legal::Normal;
use message_names::{MessageNames, quoted};
use rt1553_report::{ScriptOutcome, ScriptResult, UnitVerdict};
use rt1553_results::{
    CompareFault, Comparison, Results, ResultsExplained, ResultsFault, compare_results,
    explain_results, other_command, read_results,
};
use rt1553_tool_args::{AskedResults, ReportFormat};
use std::alloc::{AllocError, Global};
use std::io::Write;
use std::rt::Files;
use tool_files::{
    DIFFERENT, LoadedProfile, ToolFault, digest_of, load_profile_file, read_results_file,
    refused_file, write_bytes,
};
use tool_names::{LoadedNames, name_of_command};

/// The results of a unit.
#[derive(Drop)]
struct LoadedResults {
    results: Results,
    /// The SHA-256 digest of the file.
    digest: [u8; 32],
}

/// What comes of the results of a unit.
#[derive(Drop)]
pub enum JudgedResults {
    /// They were compared with the test.
    Compared(Comparison),
    /// Some behaviour of the subsystem was to explain them.
    Explained(ResultsExplained),
}

/// The fault of the table of results in the file of this name, which is refused for this.
fn results_fault<R: AllocGlobal>(rt: &R, name: &str, fault: ResultsFault) -> ToolFault
    ensures memory { fault ≡ ResultsFault.Memory → result ≡ ToolFault.Memory }
    ensures refused { RefusesText result }
{
    match fault {
        ResultsFault::Memory => ToolFault::Memory,
        other => refused_file(rt, name, &other),
    }
}

/// The fault of results, in the file of this name, that can't be compared.
fn comparison_fault<R: AllocGlobal>(rt: &R, name: &str, fault: CompareFault) -> ToolFault
    ensures memory { fault ≡ CompareFault.Memory → result ≡ ToolFault.Memory }
    ensures refused { RefusesText result }
{
    match fault {
        CompareFault::Memory => ToolFault::Memory,
        other => refused_file(rt, name, &other),
    }
}

/// The results of a unit for the test of this terminal, of the file of this name: refused where they say another command than the
/// test has for the number of their row.
fn load_results<R: Files + AllocGlobal>(
    rt: &R,
    normal: &Normal,
    name: &str,
) -> Result<LoadedResults, ToolFault>
    ensures { IfOk result (IsLoadedResults (description_in normal.now)) }
{
    let bytes = read_results_file(rt, name)?;
    let results = match read_results(rt.alloc(), bytes.as_slice()) {
        Ok(results) => results,
        Err(fault) => return Err(results_fault(rt, name, fault)),
    };
    match other_command(rt.alloc(), normal, bytes.as_slice()) {
        Ok(None) => Ok(LoadedResults {
            results,
            digest: digest_of(bytes.as_slice()),
        }),
        Ok(Some(place)) => Err(comparison_fault(rt, name, CompareFault::Other(place))),
        Err(fault) => Err(results_fault(rt, name, fault)),
    }
}

/// Adds the number of an exchange, and the name of its message, where it has one.
fn push_exchange(
    alloc: Global,
    text: &mut String,
    names: Option<&MessageNames>,
    number: u32,
    command: u16,
) -> Result<(), AllocError> {
    match names.and_then(|names| name_of_command(names, command)) {
        Some(name) => write!(text, "{number}: {}: ", quoted(alloc, name)?.as_str()),
        None => write!(text, "{number}: "),
    }
}

/// What a comparison tells, and the verdict.
fn comparison_text(
    alloc: Global,
    names: Option<&MessageNames>,
    comparison: &Comparison,
) -> Result<String, AllocError> {
    let mut text = String::new(alloc);
    for reply in comparison.wrong_replies.as_slice() {
        push_exchange(alloc, &mut text, names, reply.number, reply.command)?;
        writeln!(text, "{reply}")?;
    }
    for numbers in comparison.missing.as_slice() {
        writeln!(text, "{numbers}")?;
    }
    writeln!(text, "{comparison}")?;
    Ok(text)
}

/// What comes of results where the subsystem may do anything, and the verdict.
fn explained_text(
    alloc: Global,
    names: Option<&MessageNames>,
    explained: &ResultsExplained,
) -> Result<String, AllocError> {
    let mut text = String::new(alloc);
    if let Some(reply) = &explained.first {
        push_exchange(alloc, &mut text, names, reply.number, reply.command)?;
        writeln!(text, "{reply}")?;
    }
    for numbers in explained.missing.as_slice() {
        writeln!(text, "{numbers}")?;
    }
    writeln!(text, "{explained}")?;
    Ok(text)
}

impl JudgedResults {
    /// The status that they ask for: 0 if the unit is the terminal, or can be, and else 1.
    fn status(&self) -> u8
        ensures most { result ≤ 1 }
        ensures passes { (result ≡ 0) ↔ UnitPasses self.now }
    {
        let passes = match self {
            JudgedResults::Compared(comparison) => comparison.passes(),
            JudgedResults::Explained(explained) => explained.passes(),
        };
        if passes { 0 } else { DIFFERENT }
    }

    /// What it tells, and the verdict.
    fn text(&self, alloc: Global, names: Option<&MessageNames>) -> Result<String, AllocError> {
        match self {
            JudgedResults::Compared(comparison) => comparison_text(alloc, names, comparison),
            JudgedResults::Explained(explained) => explained_text(alloc, names, explained),
        }
    }
}

/// Judges the results of a unit by the acceptance test of a terminal.
fn judge(
    alloc: Global,
    normal: &Normal,
    results: &Results,
    any_subsystem: bool,
) -> Result<JudgedResults, CompareFault>
    ensures { IfOk result (IsVerdictOn (description_in normal.now) results.now any_subsystem) }
{
    if any_subsystem {
        Ok(JudgedResults::Explained(explain_results(alloc, normal, results)?))
    } else {
        Ok(JudgedResults::Compared(compare_results(alloc, normal, results)?))
    }
}

/// The results of a unit as a report has them: what came of one file.
fn result_of(
    alloc: Global,
    asked: AskedResults<'_>,
    profile: &LoadedProfile,
    loaded: &LoadedResults,
    unit: UnitVerdict,
) -> Result<ScriptResult, AllocError>
    ensures { IfOk result (λ of. (of.outcome ≡ ScriptOutcome.Judged unit) × (of.digests.script ≡ Some loaded.now.digest) × HasDigestsOf profile.now of.digests) }
{
    let mut digests = profile_digests(alloc, profile)?;
    digests.script = Some(loaded.digest);
    Ok(ScriptResult {
        file: String::from_str(alloc, asked.results)?,
        profile: Some(String::from_str(alloc, asked.profile)?),
        clauses: Vec::new(alloc),
        digests,
        outcome: ScriptOutcome::Judged(unit),
    })
}

/// Writes what comes of the results of a unit, as text or as a report.
fn put_judged<W: Write>(
    alloc: Global,
    asked: AskedResults<'_>,
    profile: &LoadedProfile,
    names: &Option<LoadedNames>,
    loaded: &LoadedResults,
    judged: JudgedResults,
    output: &mut W,
) -> Result<(), ToolFault> {
    let named = names.as_ref().map(|loaded| &loaded.names);
    if matches!(asked.format, ReportFormat::Text) {
        return write_bytes(output, judged.text(alloc, named)?.as_str().as_bytes());
    }
    let unit = unit_verdict_of(alloc, named, &loaded.results, judged)?;
    let of = result_of(alloc, asked, profile, loaded, unit)?;
    let head = head_of("acceptance", asked.names, names, asked.date);
    let mut kept = Vec::new(alloc);
    put_or_keep(alloc, asked.format, head, of, &mut kept, output)?;
    put_kept(alloc, asked.format, head, kept.as_slice(), output)
}

/// Judges the results of a unit by the acceptance test of the terminal of a profile. The status tells whether the unit is
/// this terminal, or can be.
pub fn against<R: Files + AllocGlobal + Eprint, W: Write>(
    rt: &R,
    asked: AskedResults<'_>,
    output: &mut W,
) -> Result<u8, ToolFault>
    ensures most { IfOk result (λ status. status ≤ 1) }
    ensures verdict { IfOk result (λ status. (P : Description) × (loaded : LoadedResults) × (judged : JudgedResults) × IsLoadedResults P loaded × IsVerdictOn P loaded.results asked.entry.any_subsystem judged × ((status ≡ 0) ↔ UnitPasses judged)) }
{
    let profile = load_profile_file(rt, asked.profile)?;
    let names = loaded_names(rt, asked.names, &[profile.normal.address()])?;
    let loaded = load_results(rt, &profile.normal, asked.results)?;
    let judged = match judge(
        rt.alloc(),
        &profile.normal,
        &loaded.results,
        asked.any_subsystem,
    ) {
        Ok(judged) => judged,
        Err(fault) => return Err(comparison_fault(rt, asked.results, fault)),
    };
    let status = judged.status();
    put_judged(rt.alloc(), asked, &profile, &names, &loaded, judged, output)?;
    Ok(status)
}
