//! Findings as SARIF 2.1.0.
ghost use Rattle.std.specs.Prelude.{◌≡◌, IfSome};
ghost use Rattle.std.specs.String.{string_bytes};
ghost use Rattle.ascii_json.specs.Ascii.{IsPlainText};
ghost use Rattle.rt1553_lint.specs.Rules.{rule_of};

use crate::finding::{Finding, LintFault};
use ascii_json::in_ascii;
use bus_canon::CanonFault;
use bus_profile::ProfileFault;
use percent_encoding::{AsciiSet, NON_ALPHANUMERIC, ascii_set, utf8_percent_encode};
use serde::Serialize;
use std::alloc::{AllocError, Global};

/// What stands by itself in the path of a URI (RFC 3986, 2.3 and 3.3): letters, digits and these.
const NOT_OF_PATH: AsciiSet = ascii_set!(
    NON_ALPHANUMERIC
        .remove(b'-')
        .remove(b'.')
        .remove(b'_')
        .remove(b'~')
        .remove(b'/')
);

/// The rule of what has no effect.
const NO_EFFECT: &str = "NoEffect";

/// A file, and what was found in it.
#[derive(Drop)]
pub struct LintedFile<'a> {
    /// Its name, as it was given.
    pub name: &'a str,
    pub findings: Vec<Finding>,
}

#[derive(Clone, Copy, Serialize)]
struct SarifText<'a> {
    text: &'a str,
}

#[derive(Clone, Copy, Serialize)]
#[serde(rename_all = "camelCase")]
struct SarifRule<'a> {
    id: &'a str,
    short_description: SarifText<'a>,
}

#[derive(Drop, Serialize)]
#[serde(rename_all = "camelCase")]
struct Driver<'a> {
    name: &'a str,
    version: &'a str,
    rules: Vec<SarifRule<'a>>,
}

#[derive(Drop, Serialize)]
struct Tool<'a> {
    driver: Driver<'a>,
}

#[derive(Drop, Serialize)]
struct Artifact {
    uri: String,
}

#[derive(Clone, Copy, Serialize)]
#[serde(rename_all = "camelCase")]
struct Region {
    start_line: usize,
    start_column: usize,
}

#[derive(Drop, Serialize)]
#[serde(rename_all = "camelCase")]
struct Physical {
    artifact_location: Artifact,
    #[serde(skip_serializing_if = "Option::is_none")]
    region: Option<Region>,
}

#[derive(Drop, Serialize)]
#[serde(rename_all = "camelCase")]
struct Located {
    physical_location: Physical,
}

#[derive(Drop, Serialize)]
#[serde(rename_all = "camelCase")]
struct Reported<'a> {
    rule_id: &'a str,
    level: &'a str,
    message: SarifText<'a>,
    locations: Vec<Located>,
}

#[derive(Drop, Serialize)]
#[serde(rename_all = "camelCase")]
struct Run<'a> {
    tool: Tool<'a>,
    column_kind: &'a str,
    results: Vec<Reported<'a>>,
}

#[derive(Drop, Serialize)]
struct Log<'a> {
    #[serde(rename = "$schema")]
    schema: &'a str,
    version: &'a str,
    runs: Vec<Run<'a>>,
}

/// The rule of a finding: the name of its fault, or `NoEffect`.
pub fn rule_of(finding: &Finding) -> &'static str
    ensures { result.now ≡ rule_of finding.now.fault }
{
    match finding.fault {
        Some(fault) => fault.name(),
        None => NO_EFFECT,
    }
}

/// What a rule of profiles says.
fn profile_rule_text(fault: ProfileFault) -> &'static str {
    match fault {
        ProfileFault::NotToml => "The text is not a TOML document",
        ProfileFault::UnknownKey(_) => "A key does not belong where it stands",
        ProfileFault::Missing(_, _) => "A key without default is absent",
        ProfileFault::WrongKind(_, _) => "A value is of another kind",
        ProfileFault::OutOfRange(_, _) =>
            "A number is out of range, or a text is not one that the key accepts",
        ProfileFault::BadRanges(_, _) => "A text is not a list of ranges",
        ProfileFault::TooMany(_, _) =>
            "An array has over 256 entries, or words go beyond the 32 of a subaddress",
        ProfileFault::RequiredCode(_) => "A required mode code is made illegal",
        ProfileFault::Memory => "Out of memory",
    }
}

/// What the rule of a finding says.
fn rule_text(finding: &Finding) -> &'static str {
    match finding.fault {
        Some(LintFault::Profile(fault)) => profile_rule_text(fault),
        Some(LintFault::Canon(CanonFault::Line(_))) =>
            "A line of a canonical text is not the one that can stand there",
        Some(LintFault::Canon(CanonFault::Trailing)) => "Bytes follow a canonical text",
        None => "An entry, a key or a word has no effect",
    }
}

/// Whether a rule is listed.
fn is_listed(rules: &[SarifRule<'_>], id: &str) -> bool {
    for rule in rules {
        if rule.id == id {
            return true;
        }
    }
    false
}

/// Lists the rules of findings that are not listed yet.
fn push_rules(rules: &mut Vec<SarifRule<'_>>, findings: &[Finding]) -> Result<(), AllocError> {
    for finding in findings {
        let id = rule_of(finding);
        if !is_listed(rules.as_slice(), id) {
            rules.push(SarifRule {
                id,
                short_description: SarifText {
                    text: rule_text(finding),
                },
            })?;
        }
    }
    Ok(())
}

/// The name of a file as a reference of a URI: that of the root of the file system begins with `file://`.
fn uri_of(alloc: Global, name: &str) -> Result<String, AllocError> {
    let mut uri = String::new(alloc);
    if name.starts_with('/') {
        uri.push_str("file://")?;
    }
    utf8_percent_encode(name, NOT_OF_PATH).append_to(&mut uri)?;
    Ok(uri)
}

/// The place of a finding.
fn places_of_finding(
    alloc: Global,
    name: &str,
    finding: &Finding,
) -> Result<Vec<Located>, AllocError> {
    let mut locations = Vec::new(alloc);
    locations.push(Located {
        physical_location: Physical {
            artifact_location: Artifact {
                uri: uri_of(alloc, name)?,
            },
            region: finding.position.map(|position| Region {
                start_line: position.line,
                start_column: position.column,
            }),
        },
    })?;
    Ok(locations)
}

/// Adds the findings of a file.
fn push_reported<'a>(
    alloc: Global,
    reported: &mut Vec<Reported<'a>>,
    file: &'a LintedFile<'_>,
) -> Result<(), AllocError> {
    for finding in file.findings.as_slice() {
        reported.push(Reported {
            rule_id: rule_of(finding),
            level: finding.severity(),
            message: SarifText {
                text: finding.message.as_str(),
            },
            locations: places_of_finding(alloc, file.name, finding)?,
        })?;
    }
    Ok(())
}

/// The run that found what was found in files.
fn run_of<'a>(
    alloc: Global,
    version: &'a str,
    files: &'a [LintedFile<'_>],
) -> Result<Run<'a>, AllocError> {
    let mut rules = Vec::new(alloc);
    let mut results = Vec::new(alloc);
    for file in files {
        push_rules(&mut rules, file.findings.as_slice())?;
        push_reported(alloc, &mut results, file)?;
    }
    Ok(Run {
        tool: Tool {
            driver: Driver {
                name: "rt1553-tool",
                version,
                rules,
            },
        },
        column_kind: "unicodeCodePoints",
        results,
    })
}

/// What was found in files as SARIF 2.1.0, one line without a line feed, of printable characters of ASCII; `version` is that of
/// the program. None where memory runs out.
pub fn sarif_report(alloc: Global, version: &str, files: &[LintedFile<'_>]) -> Option<String>
    ensures { IfSome result (λ text. IsPlainText (string_bytes text)) }
{
    let mut runs = Vec::new(alloc);
    runs.push(run_of(alloc, version, files).ok()?).ok()?;
    let log = Log {
        schema: "https://json.schemastore.org/sarif-2.1.0.json",
        version: "2.1.0",
        runs,
    };
    let json = serde_json::to_string(alloc, &log).ok()?;
    in_ascii(alloc, json.as_str()).ok()
}
