//! What comes of the messages of a file, as JUnit reports tests.
ghost use Rattle.std.specs.Prelude.{IfOk, List, string_bytes, ℕ};
ghost use Rattle.rt1553_report.specs.Junit.{IsJunitSuite};

use crate::judged::{JudgedMessage, Judgement, told_in};
use crate::left::left_text;
use crate::load::BusLoad;
use crate::report::{CheckOutcome, CheckReport, CheckedProfile};
use crate::told::reasons_text;
use drawing_boxes::push_escaped;
use message_names::quoted;
use rt1553_files::escaped;
use rt1553_report::{NamesTable, Totals, junit_suite, push_digest_property, push_property};
use std::alloc::{AllocError, Global};

/// Writes the properties of the profiles.
fn push_profiles(
    alloc: Global,
    text: &mut String,
    profiles: &[CheckedProfile<'_>],
) -> Result<(), AllocError> {
    for profile in profiles {
        push_property(alloc, text, "profile", profile.file.as_bytes())?;
        push_digest_property(alloc, text, "profile_sha256", profile.digest)?;
        push_digest_property(alloc, text, "canonical_sha256", profile.canonical)?;
    }
    Ok(())
}

/// Writes the properties of the tables of names.
fn push_tables(
    alloc: Global,
    text: &mut String,
    tables: &[NamesTable<'_>],
) -> Result<(), AllocError> {
    for table in tables {
        push_property(alloc, text, "names", table.file.as_bytes())?;
        push_digest_property(alloc, text, "names_sha256", table.digest)?;
    }
    Ok(())
}

/// Writes the load of each bus as a property.
fn push_load(alloc: Global, text: &mut String, load: &BusLoad) -> Result<(), AllocError> {
    for row in load.buses.as_slice() {
        push_property(alloc, text, "load", row.text(alloc)?.as_str().as_bytes())?;
    }
    Ok(())
}

/// Writes whether each message ends well in every order, what lines leave behind, and the load.
fn push_judged(alloc: Global, text: &mut String, judged: &Judgement) -> Result<(), AllocError> {
    let every: &[u8] = if judged.in_every_order() {
        b"true"
    } else {
        b"false"
    };
    push_property(alloc, text, "every_order", every)?;
    for part in judged.lefts.as_slice() {
        if let Some(left) = part.left {
            let told = left_text(alloc, left)?;
            let told = format!(in alloc; "line {}: {}", part.line, told.as_str())?;
            push_property(alloc, text, "leaves", told.as_str().as_bytes())?;
        }
    }
    match &judged.load {
        Some(load) => push_load(alloc, text, load),
        None => Ok(()),
    }
}

/// The properties of the suite: the digest of the file, the profiles, the tables of names, and what comes of the file.
fn suite_properties(alloc: Global, report: &CheckReport<'_>) -> Result<String, AllocError> {
    let mut text = String::new(alloc);
    if let Some(digest) = report.digest {
        push_digest_property(alloc, &mut text, "sha256", digest)?;
    }
    push_profiles(alloc, &mut text, report.profiles.as_slice())?;
    push_tables(alloc, &mut text, report.tables.as_slice())?;
    if let CheckOutcome::Judged(judged) = &report.outcome {
        push_judged(alloc, &mut text, judged)?;
    }
    Ok(text)
}

/// Writes the reasons for which a message doesn't end well, if it is told.
fn push_failure(
    alloc: Global,
    text: &mut String,
    file: &str,
    message: &JudgedMessage,
) -> Result<(), AllocError> {
    if !message.has_trouble() {
        return Ok(());
    }
    let reasons = if message.alone.is_empty() {
        message.in_run.as_slice()
    } else {
        message.alone.as_slice()
    };
    text.push_str("<failure message=\"")?;
    push_escaped(text, reasons_text(alloc, reasons)?.as_str())?;
    text.push_str("\">")?;
    push_escaped(text, message.lines(alloc, file)?.as_str())?;
    text.push_str("</failure>\n")
}

/// Writes the beginning of the test case of a message: its line, its command, its name, and the file, as it is printed.
fn push_front(
    alloc: Global,
    text: &mut String,
    file: &str,
    message: &JudgedMessage,
) -> Result<(), AllocError> {
    write!(
        text,
        "<testcase name=\"line {}: command {:04x}",
        message.line, message.command
    )?;
    if let Some(name) = &message.name {
        text.push_str(": ")?;
        push_escaped(text, quoted(alloc, name.as_str())?.as_str())?;
    }
    text.push_str("\" classname=\"")?;
    push_escaped(text, file)?;
    text.push_str("\" time=\"0\">\n")
}

/// The test cases of messages in a file, whose name is as it is printed.
fn message_cases(
    alloc: Global,
    file: &str,
    messages: &[JudgedMessage],
) -> Result<String, AllocError> {
    let mut text = String::new(alloc);
    for message in messages {
        push_front(alloc, &mut text, file, message)?;
        push_failure(alloc, &mut text, file, message)?;
        text.push_str("</testcase>\n")?;
    }
    Ok(text)
}

/// The first line of a text.
fn first_line(text: &str) -> &str {
    match text.split_once('\n') {
        Some((line, _)) => line,
        None => text,
    }
}

/// The test case of a file that is refused for these reasons, a line each.
fn refused_case(alloc: Global, file: &str, reasons: &str) -> Result<String, AllocError> {
    let mut text = String::new(alloc);
    text.push_str("<testcase name=\"")?;
    push_escaped(&mut text, file)?;
    text.push_str("\" classname=\"")?;
    push_escaped(&mut text, file)?;
    text.push_str("\" time=\"0\">\n<error message=\"")?;
    push_escaped(&mut text, first_line(reasons))?;
    text.push_str("\">")?;
    push_escaped(&mut text, reasons)?;
    text.push_str("\n</error>\n</testcase>\n")?;
    Ok(text)
}

impl CheckOutcome {
    /// How many test cases there are: one for each message, or one for a file that is refused.
    fn totals(&self) -> Totals {
        match self {
            CheckOutcome::Judged(judged) => Totals {
                tests: judged.messages.len(),
                failures: told_in(judged.messages.as_slice()),
                errors: 0,
                skipped: 0,
            },
            CheckOutcome::Refused(_) => Totals {
                tests: 1,
                failures: 0,
                errors: 1,
                skipped: 0,
            },
        }
    }

    /// The test cases.
    fn cases(&self, alloc: Global, file: &str) -> Result<String, AllocError> {
        match self {
            CheckOutcome::Judged(judged) => message_cases(alloc, file, judged.messages.as_slice()),
            CheckOutcome::Refused(reasons) => refused_case(alloc, file, reasons.as_str()),
        }
    }
}

/// What comes of a file as JUnit reports tests: XML, one suite, with a test case for each message.
pub fn check_junit(alloc: Global, report: &CheckReport<'_>) -> Result<String, AllocError>
    ensures { IfOk result (λ text. (more : List ℕ) × (cases : List ℕ) × IsJunitSuite report.now.head more cases (string_bytes text)) }
{
    let more = suite_properties(alloc, report)?;
    let file = escaped(alloc, report.file.as_bytes())?;
    let cases = report.outcome.cases(alloc, file.as_str())?;
    junit_suite(
        alloc,
        report.head,
        report.outcome.totals(),
        more.as_str(),
        cases.as_str(),
    )
}
