//! The command `lint`: all that is wrong with profiles, and what in them has no effect.
ghost use Rattle.std.specs.Prelude.{◌≡◌, ◌≤◌, IfOk, is_some};
ghost use Rattle.std.specs.List.{list_any};
ghost use Rattle.tool_profiles.specs.Found.{findings_status};

use ascii_json::{json_line, named_json};
use rt1553_lint::{Finding, LintedFile, lint, sarif_report};
use rt1553_tool_args::{LintFormat, VERSION};
use std::alloc::{AllocError, Global};
use std::io::Write;
use std::rt::Files;
use tool_files::{
    DIFFERENT, REFUSED, ToolFault, read_tool_profile, shown, status_or_stop, worst, write_bytes,
};

/// Adds the line of a finding in the file of this name, or of this name as it is printed.
fn push_finding(
    alloc: Global,
    text: &mut String,
    name: &str,
    shown_name: &str,
    finding: &Finding,
    as_json: bool,
) -> Result<(), AllocError> {
    if as_json {
        let line = named_json(alloc, finding.to_json(alloc, name), true)?;
        text.push_str(line.as_str())
    } else {
        writeln!(text, "{shown_name}:{finding}")
    }
}

/// Whether one of them is an error.
fn has_error(findings: &[Finding]) -> bool
    ensures { result ≡ list_any (λ f. is_some f.fault) findings.now }
{
    findings.iter().any(|finding| finding.fault.is_some())
}

/// The status of the findings of a file.
fn status_of_findings(findings: &[Finding]) -> u8
    ensures { result ≡ findings_status findings.now }
{
    if has_error(findings) {
        REFUSED
    } else if findings.is_empty() {
        0
    } else {
        DIFFERENT
    }
}

/// Writes what was found in the file of this name, each in a line, at once.
fn put_findings<R: AllocGlobal, W: Write>(
    rt: &R,
    name: &str,
    findings: &[Finding],
    as_json: bool,
    output: &mut W,
) -> Result<(), ToolFault> {
    let shown_name = shown(rt, name)?;
    let mut text = String::new(rt.alloc());
    for finding in findings {
        push_finding(
            rt.alloc(),
            &mut text,
            name,
            shown_name.as_str(),
            finding,
            as_json,
        )?;
    }
    write_bytes(output, text.as_str().as_bytes())
}

/// Writes what is found in a file, or keeps it for a document of all files, and gives the status to end with.
fn lint_file<'a, R: Files + AllocGlobal, W: Write>(
    rt: &R,
    name: &'a str,
    format: LintFormat,
    kept: &mut Vec<LintedFile<'a>>,
    output: &mut W,
) -> Result<u8, ToolFault>
    ensures { IfOk result (λ status. status ≤ 2) }
{
    let bytes = read_tool_profile(rt, name)?;
    let findings = lint(rt.alloc(), bytes.as_slice())?;
    let status = status_of_findings(findings.as_slice());
    match format {
        LintFormat::Text => put_findings(rt, name, findings.as_slice(), false, output)?,
        LintFormat::Json => put_findings(rt, name, findings.as_slice(), true, output)?,
        LintFormat::Sarif => kept.push(LintedFile { name, findings })?,
    }
    Ok(status)
}

/// Writes the document of all files, where one is asked for.
fn put_sarif<W: Write>(
    alloc: Global,
    format: LintFormat,
    kept: &[LintedFile<'_>],
    output: &mut W,
) -> Result<(), ToolFault> {
    match format {
        LintFormat::Sarif => {
            let text = json_line(sarif_report(alloc, VERSION, kept))?;
            write_bytes(output, text.as_str().as_bytes())
        }
        _ => Ok(()),
    }
}

/// Writes what is found in files. The status is the highest that a file asks for.
pub fn lint_files<R: Files + AllocGlobal + Eprint, W: Write>(
    rt: &R,
    names: &[&str],
    format: LintFormat,
    output: &mut W,
) -> Result<u8, ToolFault>
    ensures { IfOk result (λ status. status ≤ 4) }
{
    let mut kept = Vec::new(rt.alloc());
    let mut status = 0;
    for name in names {
        let of_file = lint_file(rt, name, format, &mut kept, output);
        status = worst(status, status_or_stop(rt, of_file)?);
    }
    put_sarif(rt.alloc(), format, kept.as_slice(), output)?;
    Ok(status)
}
