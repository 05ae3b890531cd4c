//! Results as JSON.
ghost use Rattle.std.specs.Prelude.{IfSome, IfOk};
ghost use Rattle.std.specs.String.{string_bytes};
ghost use Rattle.ascii_json.specs.Ascii.{IsPlainText};
ghost use Rattle.rt1553_report.specs.inner.Lines.{IsLineOf};

use crate::fault::slot_fault;
use crate::head::{ReportHead, digest_text};
use crate::result::{AnswerNames, DifferenceNotes, ScriptOutcome, ScriptResult};
use crate::told::{Wording, answer_told};
use crate::unit::{ReplyDifference, UnitVerdict};
use crate::verdict::result_word;
use ascii_json::in_ascii;
use message_names::owned;
use rt1553_files::escaped;
use rt1553_verify::{NumberRange, WrongAnswer, word_string, word_strings};
use serde::Serialize;
use std::alloc::{AllocError, Global};

/// An event that was not answered as stated. A line of the transcript has no line feed, and is null for nothing.
#[derive(Drop, Serialize)]
struct WrongEntry {
    line: u64,
    /// The name of its message, null for none; left out where there are no names.
    #[serde(skip_serializing_if = "Option::is_none")]
    name: Option<Option<String>>,
    /// The rule under which it stands, null for none.
    rule: Option<String>,
    expected: Option<String>,
    came: Option<String>,
}

/// A slot of a recording in which the terminal sends another word than was recorded, or none.
#[derive(Drop, Serialize)]
struct RecordedEntry {
    line: u64,
    /// The name of its message, null for none; left out where there are no names.
    #[serde(skip_serializing_if = "Option::is_none")]
    name: Option<Option<String>>,
    /// Its message in the words of a test bench, null for none.
    message: Option<String>,
    /// The text of the last comment before it, null for none: in the recording of a table, a time.
    time: Option<String>,
    /// What is wrong with the unit.
    fault: String,
    recorded: Option<String>,
    sends: Option<String>,
}

/// A reply of a unit that is not that of the terminal.
#[derive(Drop, Serialize)]
struct ReplyEntry {
    line: u64,
    /// The number of its exchange, from 1.
    number: u32,
    /// The name of its message, null for none; left out where there are no names.
    #[serde(skip_serializing_if = "Option::is_none")]
    name: Option<Option<String>>,
    command: String,
    /// What the exchange tries.
    tries: String,
    /// The number of the first word that differs, from 1.
    word: usize,
    expected: Vec<String>,
    came: Vec<String>,
}

/// What differs.
#[derive(Drop, Serialize)]
#[serde(untagged)]
enum ReportedDifference {
    Answer(WrongEntry),
    Recorded(RecordedEntry),
    Reply(ReplyEntry),
}

/// Numbers of exchanges without a result, one after the other.
#[derive(Drop, Serialize)]
struct MissingEntry {
    first: u32,
    last: u32,
}

/// What came of a script, or of the results of a unit.
#[derive(Drop, Serialize)]
struct ResultLine<'a> {
    file: &'a str,
    /// Null where the script names none.
    profile: Option<&'a str>,
    passes: bool,
    /// The verdict in words.
    result: &'static str,
    /// Null where the script was not played.
    answers: Option<usize>,
    /// Null where there is nothing to warn of.
    warning: Option<&'static str>,
    clauses: Vec<String>,
    differences: Vec<ReportedDifference>,
    /// Left out where no results of a unit were judged; the same of the verdict.
    #[serde(skip_serializing_if = "Option::is_none")]
    missing: Option<Vec<MissingEntry>>,
    #[serde(skip_serializing_if = "Option::is_none")]
    verdict: Option<&'a str>,
    /// Null where the script was played.
    fault: Option<&'a str>,
    /// Null where the file was not read; the same of the other digests.
    sha256: Option<String>,
    profile_sha256: Option<String>,
    canonical_sha256: Option<String>,
    /// Null where no table is given.
    names: Option<&'a str>,
    names_sha256: Option<String>,
    program: &'a str,
    toolchain: &'a str,
    canonical: &'a str,
    /// Null where no date is given.
    date: Option<&'a str>,
}

/// Clauses as they are printed.
fn clauses_told(alloc: Global, clauses: &[Vec<u8>]) -> Result<Vec<String>, AllocError> {
    let mut told = Vec::new(alloc);
    for clause in clauses {
        told.push(escaped(alloc, clause.as_slice())?)?;
    }
    Ok(told)
}

/// The name of the message of an event, None where there are no names.
fn name_entry(
    alloc: Global,
    names: &Option<AnswerNames>,
    index: usize,
) -> Result<Option<Option<String>>, AllocError> {
    match names {
        Some(names) => match names.at(index) {
            Some(name) => Ok(Some(Some(String::from_str(alloc, name)?))),
            None => Ok(Some(None)),
        },
        None => Ok(None),
    }
}

/// An event that was not answered as stated, with the name of its message, where there are names, and what is told beside it.
fn wrong_entry(
    alloc: Global,
    one: &WrongAnswer,
    notes: &DifferenceNotes,
    index: usize,
) -> Result<ReportedDifference, AllocError> {
    let beside = notes.beside(index);
    let name = name_entry(alloc, &notes.names, index)?;
    let rule = owned(alloc, beside.rule)?;
    let (stated, answered) = (one.expected.as_slice(), one.came.as_slice());
    let expected = answer_told(alloc, stated)?;
    let came = answer_told(alloc, answered)?;
    Ok(match notes.wording {
        Wording::Test => ReportedDifference::Answer(WrongEntry {
            line: one.line,
            name,
            rule,
            expected,
            came,
        }),
        Wording::Recording => ReportedDifference::Recorded(RecordedEntry {
            line: one.line,
            name,
            message: owned(alloc, beside.message)?,
            time: rule,
            fault: slot_fault(alloc, stated, answered, beside.reply)?,
            recorded: expected,
            sends: came,
        }),
    })
}

/// Each event that was not answered as stated.
fn wrong_lines(
    alloc: Global,
    wrong: &[WrongAnswer],
    notes: &DifferenceNotes,
) -> Result<Vec<ReportedDifference>, AllocError> {
    let mut lines = Vec::new(alloc);
    for (index, one) in wrong.iter().enumerate() {
        lines.push(wrong_entry(alloc, one, notes, index)?)?;
    }
    Ok(lines)
}

/// A reply that is not that of the terminal, with the name of its message, where there are names.
fn reply_entry(
    alloc: Global,
    one: &ReplyDifference,
    has_names: bool,
) -> Result<ReplyEntry, AllocError> {
    let name = match &one.name {
        Some(name) => Some(String::from_str(alloc, name.as_str())?),
        None => None,
    };
    Ok(ReplyEntry {
        line: one.line,
        number: one.reply.number,
        name: has_names.then_some(name),
        command: word_string(alloc, one.reply.command)?,
        tries: String::from_str(alloc, one.reply.label.as_str())?,
        word: one.reply.differing_word(),
        expected: word_strings(alloc, one.reply.expected.as_slice())?,
        came: word_strings(alloc, one.reply.came.as_slice())?,
    })
}

/// Each reply of a unit that is not that of the terminal.
fn reply_lines(alloc: Global, unit: &UnitVerdict) -> Result<Vec<ReportedDifference>, AllocError> {
    let mut lines = Vec::new(alloc);
    for one in unit.differences.as_slice() {
        lines.push(ReportedDifference::Reply(reply_entry(alloc, one, unit.has_names)?))?;
    }
    Ok(lines)
}

/// What differs.
fn differences_of(
    alloc: Global,
    outcome: &ScriptOutcome,
) -> Result<Vec<ReportedDifference>, AllocError> {
    match outcome {
        ScriptOutcome::Played { wrong, notes, .. } => wrong_lines(alloc, wrong.as_slice(), notes),
        ScriptOutcome::Judged(unit) => reply_lines(alloc, unit),
        ScriptOutcome::NotPlayed(_) => Ok(Vec::new(alloc)),
    }
}

/// The exchanges without a result.
fn missing_lines(alloc: Global, missing: &[NumberRange]) -> Result<Vec<MissingEntry>, AllocError> {
    let mut lines = Vec::new(alloc);
    for numbers in missing {
        lines.push(MissingEntry {
            first: numbers.first,
            last: numbers.last(),
        })?;
    }
    Ok(lines)
}

/// The same of an outcome, where results of a unit were judged.
fn missing_of(
    alloc: Global,
    outcome: &ScriptOutcome,
) -> Result<Option<Vec<MissingEntry>>, AllocError> {
    match outcome {
        ScriptOutcome::Judged(unit) => Ok(Some(missing_lines(alloc, unit.missing.as_slice())?)),
        _ => Ok(None),
    }
}

/// The result of a script as it is written.
fn line_of<'a>(
    alloc: Global,
    head: ReportHead<'a>,
    of: &'a ScriptResult,
) -> Result<ResultLine<'a>, AllocError>
    ensures { IfOk result (λ line. IsLineOf head.entry of.entry.now line) }
{
    Ok(ResultLine {
        file: of.file.as_str(),
        profile: of.profile.as_ref().map(|name| name.as_str()),
        passes: of.outcome.passes(),
        result: result_word(of.outcome.verdict()),
        answers: of.outcome.answers(),
        warning: of.outcome.warning(),
        clauses: clauses_told(alloc, of.clauses.as_slice())?,
        differences: differences_of(alloc, &of.outcome)?,
        missing: missing_of(alloc, &of.outcome)?,
        verdict: of.outcome.unit_verdict(),
        fault: of.outcome.fault(),
        sha256: digest_text(alloc, of.digests.script)?,
        profile_sha256: digest_text(alloc, of.digests.profile)?,
        canonical_sha256: digest_text(alloc, of.digests.canonical)?,
        names: head.names_file(),
        names_sha256: digest_text(alloc, head.names_digest())?,
        program: head.program,
        toolchain: head.toolchain,
        canonical: head.canonical,
        date: head.date,
    })
}

/// The result of a script as an object of JSON, one line without a line feed, of printable characters of ASCII. None where memory
/// runs out.
pub fn result_json(alloc: Global, head: ReportHead<'_>, of: &ScriptResult) -> Option<String>
    ensures { IfSome result (λ text. IsPlainText (string_bytes text)) }
{
    let line = line_of(alloc, head, of).ok()?;
    let json = serde_json::to_string(alloc, &line).ok()?;
    in_ascii(alloc, json.as_str()).ok()
}
