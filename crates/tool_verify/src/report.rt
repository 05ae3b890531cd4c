//! The command `verify` in the formats that machines and managers read.
ghost use Rattle.std.specs.Prelude.{◌≡◌, ◌≤◌, ◌↔◌, None, IfOk, IfSome, IsErr, length, true};
ghost use Rattle.rt1553_report.specs.Results.{outcome_passes, outcome_verdict};
ghost use Rattle.rt1553_report.specs.Verdict.{verdict_status};
ghost use Rattle.tool_verify.specs.Passing.{HasVerdict};
ghost use Rattle.tool_verify.specs.Digests.{HasScriptDigest};
ghost use Rattle.tool_verify.specs.inner.Tried.{IsTried};

use crate::compared::explaining_script;
use crate::head::{head_of, profile_digests};
use crate::opened::OpenScript;
use crate::replied::{is_memory, lines_up_to};
use crate::verify::{Played, PlayedScript, PlayedTo, clauses_of, joined_status, play_script};
use ascii_json::json_line;
use bus_legal::Normal;
use drawing_boxes::DrawFault;
use line_format::after;
use message_names::MessageNames;
use report_pages::results_page;
use rt1553_draw::{DrawnScript, StatedAnswer, draw_stated};
use rt1553_report::{
    FileDigests, ReportHead, ScriptOutcome, ScriptResult, Wording, answer_told, clauses_in,
    junit_report, result_json,
};
use rt1553_tool_args::{AskedReport, Profiles, ReportFormat, ScriptKind};
use rt1553_verify::{WrongAnswer, named};
use script_lines::read_event;
use std::alloc::{AllocError, Global};
use std::format;
use std::io::{Read, Write};
use std::rt::Files;
use terminal_rules::Event;
use tool_files::{
    DIFFERENT, HashedReader, LoadedScript, ToolFault, refused_file, status_or_stop, write_bytes,
};

/// A script that was done: what came of it, and the status that it asks for.
#[derive(Drop)]
struct DoneScript {
    outcome: ScriptOutcome,
    status: u8,
}

/// What is stated in place of an answer that differs, for the event of this line of the script that is drawn.
fn stated_answer(
    alloc: Global,
    wrong: &WrongAnswer,
    line: u64,
) -> Result<StatedAnswer, AllocError> {
    let text = match answer_told(alloc, wrong.expected.as_slice())? {
        Some(text) => text,
        None => String::from_str(alloc, "nothing")?,
    };
    Ok(StatedAnswer { line, text })
}

/// The same of all answers of a script that differ.
fn stated_of(alloc: Global, wrong: &[WrongAnswer]) -> Result<Vec<StatedAnswer>, AllocError> {
    let mut stated = Vec::new(alloc);
    for one in wrong {
        stated.push(stated_answer(alloc, one, one.line)?)?;
    }
    Ok(stated)
}

/// A recording up to the line of an event that nothing explains, with the word that the terminal sends there.
fn explained_text(
    alloc: Global,
    script: &[u8],
    wrong: &WrongAnswer,
) -> Result<Vec<u8>, AllocError> {
    let Some(mut text) = lines_up_to(alloc, script, wrong.line)? else {
        return Ok(Vec::new(alloc));
    };
    if !wrong.came.is_empty() {
        text.extend_from_slice(b"#> ")?;
        text.extend_from_slice(wrong.came.as_slice())?;
    }
    Ok(text)
}

/// The event of a line of a recording, certain or open; None where it has none.
fn event_in(line: &[u8]) -> Option<Event> {
    match read_event(after(line, b"#? ").unwrap_or(line)) {
        Ok(event) => event,
        Err(_) => None,
    }
}

/// The event of each line of a text.
fn events_of(alloc: Global, text: &[u8]) -> Result<Vec<Option<Event>>, AllocError> {
    let mut events = Vec::new(alloc);
    for line in text.split(|byte| *byte == b'\n') {
        events.push(event_in(line))?;
    }
    Ok(events)
}

/// Whether an event is seen in a recording.
fn is_seen(event: &Event) -> bool {
    matches!(
        event,
        Event::Word(_, _) | Event::Noise(_) | Event::Gap(_) | Event::Slot
    )
}

/// Whether a line has this event.
fn has_event(line: &Option<Event>, event: &Event) -> bool {
    match line {
        Some(other) => other == event,
        None => false,
    }
}

/// The number of the last of these lines, from 1, that has an event; 0 where none has.
fn last_line_of(lines: &[Option<Event>], event: &Event) -> usize {
    for behind in 0..lines.len() {
        let index = lines.len() - 1 - behind;
        if has_event(&lines[index], event) {
            return index + 1;
        }
    }
    0
}

/// The last of these lines that has an event which is seen: those above it are left. For any other event the line below.
fn take_line(left: &mut Vec<Option<Event>>, event: &Event, below: u64) -> u64 {
    if !is_seen(event) {
        return below;
    }
    let last = last_line_of(left.as_slice(), event);
    if last == 0 {
        return below;
    }
    left.truncate(last - 1);
    last as u64
}

/// For each line of a script that explains a recording the line of the file that it stands for: for what the subsystem does that of the
/// event behind it. The last events of both are the same.
fn recorded_lines(
    alloc: Global,
    script: &LoadedScript,
    recording: &[u8],
    explaining: &[u8],
) -> Result<Vec<u64>, AllocError> {
    let mut left = events_of(alloc, recording)?;
    let mut events = events_of(alloc, explaining)?;
    events.reverse();
    let (mut lines, mut line) = (Vec::new(alloc), 0);
    for event in events.as_slice() {
        if let Some(event) = event {
            line = take_line(&mut left, event, line);
            lines.push(script.line_in_file(line))?;
        }
    }
    lines.reverse();
    Ok(lines)
}

/// Draws the messages of a script in which other answers are stated.
fn draw_messages<R: AllocGlobal>(
    rt: &R,
    names: Option<&MessageNames>,
    normal: &Normal,
    name: &str,
    drawn: DrawnScript<'_>,
    stated: &[StatedAnswer],
) -> Result<Option<String>, ToolFault> {
    match draw_stated(rt.alloc(), normal, names, drawn, stated) {
        Ok(drawing) => Ok(Some(drawing)),
        Err(DrawFault::Memory) => Err(ToolFault::Memory),
        Err(fault) => Err(refused_file(rt, name, &fault)),
    }
}

/// Whether a recording leaves open whether the unit was silent in a slot.
fn has_open_slot(recording: &[u8]) -> bool {
    recording
        .split(|byte| *byte == b'\n')
        .any(|line| line == b"#? slot".as_slice())
}

/// The script that explains a recording; empty where none is made: none behind a slot in which it is left open whether the unit was silent.
fn explaining_of(
    alloc: Global,
    normal: &Normal,
    recording: &[u8],
    kind: ScriptKind,
) -> Result<Vec<u8>, ToolFault> {
    if has_open_slot(recording) {
        return Ok(Vec::new(alloc));
    }
    match explaining_script(alloc, normal, recording, kind) {
        Ok(explaining) => Ok(explaining),
        Err(fault) if is_memory(fault) => Err(ToolFault::Memory),
        Err(_) => Ok(Vec::new(alloc)),
    }
}

/// The drawing of the message of a recording in which a slot differs: what was recorded up to there, by a script that explains it. Empty
/// where none is made.
fn recorded_drawing<R: AllocGlobal>(
    rt: &R,
    played: &Played<'_>,
    normal: &Normal,
    name: &str,
    script: &LoadedScript,
    wrong: &WrongAnswer,
) -> Result<Option<String>, ToolFault> {
    let alloc = rt.alloc();
    let recording = explained_text(alloc, script.text.as_slice(), wrong)?;
    let recording = recording.as_slice();
    let explaining = explaining_of(alloc, normal, recording, played.kind)?;
    let explaining = explaining.as_slice();
    if explaining.is_empty() {
        return Ok(Some(String::new(alloc)));
    }
    let lines = recorded_lines(alloc, script, recording, explaining)?;
    let stated = stated_answer(alloc, wrong, lines.len() as u64)?;
    let drawn = DrawnScript {
        text: explaining,
        sources: Some(lines.as_slice()),
    };
    let names = played.message_names();
    draw_messages(
        rt,
        names,
        normal,
        name,
        drawn,
        std::slice::from_ref(&stated),
    )
}

/// The drawing of the messages in which something differs; None where nothing does.
fn drawing_of<R: AllocGlobal>(
    rt: &R,
    played: &Played<'_>,
    normal: &Normal,
    name: &str,
    script: &LoadedScript,
    it: &PlayedScript,
) -> Result<Option<String>, ToolFault> {
    match (it.wrong.as_slice(), it.notes.wording) {
        ([], _) => Ok(None),
        ([first, ..], Wording::Recording) => {
            recorded_drawing(rt, played, normal, name, script, first)
        }
        (wrong, Wording::Test) => {
            let stated = stated_of(rt.alloc(), wrong)?;
            let drawn = DrawnScript {
                text: script.text.as_slice(),
                sources: script.sources(),
            };
            let names = played.message_names();
            draw_messages(rt, names, normal, name, drawn, stated.as_slice())
        }
    }
}

/// What differs in a script, by the lines of its file.
fn wrong_in_file(
    alloc: Global,
    script: &LoadedScript,
    wrong: Vec<WrongAnswer>,
) -> Result<Vec<WrongAnswer>, AllocError>
    ensures { IfOk result (λ told. length told.items ≡ length wrong.items) }
{
    let mut told = Vec::new(alloc);
    for mut one in wrong {
        one.line = script.line_in_file(one.line);
        told.push(one)?;
    }
    Ok(told)
}

/// Plays a script of this name to a terminal, and gives what came of it; with a drawing of what differs, where it is `drawn`.
fn outcome_of_script<R: AllocGlobal + Eprint, F: Read + Drop>(
    rt: &R,
    played: &Played<'_>,
    normal: &Normal,
    name: &str,
    script: &LoadedScript,
    rest: Option<F>,
    drawn: bool,
) -> Result<ScriptOutcome, ToolFault>
    ensures { IfOk result (λ outcome. rest ≡ None → HasVerdict played.now.kind normal.now script.now.text.items outcome) }
{
    let drawn = drawn && rest.is_none();
    let it = play_script(rt, played, normal, name, script, rest)?;
    let drawing = if drawn {
        drawing_of(rt, played, normal, name, script, &it)?
    } else {
        None
    };
    Ok(ScriptOutcome::Played {
        answers: it.answers,
        unjudged: it.unjudged,
        wrong: wrong_in_file(rt.alloc(), script, it.wrong)?,
        notes: it.notes,
        drawing,
    })
}

/// What came of a script, and the status that it asks for. A fault is told on the standard error, too.
fn done_script<R: AllocGlobal + Eprint>(
    rt: &R,
    played: Result<ScriptOutcome, ToolFault>,
) -> Result<DoneScript, ToolFault>
    ensures same { IfOk played (λ outcome. IfOk result (λ done. done.outcome ≡ outcome)) }
    ensures passes { IfOk result (λ done. (done.status ≡ 0) ↔ (outcome_passes done.outcome ≡ true)) }
    ensures verdict { IfOk result (λ done. IfSome (outcome_verdict done.outcome) (λ verdict. done.status ≡ verdict_status verdict)) }
    ensures most { IfOk result (λ done. done.status ≤ 4) }
{
    match played {
        Ok(outcome) => {
            let status = match outcome.verdict() {
                Some(verdict) => verdict.status(),
                None => DIFFERENT,
            };
            Ok(DoneScript { outcome, status })
        }
        Err(fault) => {
            let reason = format!(in rt.alloc(); "{fault}")?;
            let status = status_or_stop(rt, Err(fault))?;
            Ok(DoneScript {
                outcome: ScriptOutcome::NotPlayed(reason),
                status,
            })
        }
    }
}

/// The name of the profile of a script: the one that was given, or the one that the script names; None where it names none.
fn profile_name(
    alloc: Global,
    profiles: Profiles<'_>,
    script: &[u8],
) -> Result<Option<String>, AllocError> {
    let name = match profiles {
        Profiles::One(name) => name,
        Profiles::Folder(_) => match named(script, b"# Profile: ") {
            None => return Ok(None),
            Some(name) => match str::from_utf8(name) {
                Ok(name) => name,
                Err(_) => return Ok(None),
            },
        },
    };
    Ok(Some(String::from_str(alloc, name)?))
}

/// A script that was tried.
#[derive(Drop)]
struct TriedFile {
    /// The script, or the front of a recording; empty where it was not read.
    text: Vec<u8>,
    digests: FileDigests,
    outcome: Result<ScriptOutcome, ToolFault>,
}

/// No digest.
const NO_DIGESTS: FileDigests = FileDigests {
    script: None,
    profile: None,
    canonical: None,
};

/// The digest of the file of a script, of which `rest` was not read, if that is there; None where it cannot be read to its end.
fn digest_with<F: Read + Drop>(script: &LoadedScript, rest: Option<F>) -> Option<[u8; 32]>
    ensures { rest ≡ None → HasScriptDigest script.now result }
{
    match rest {
        None => Some(script.file_digest()),
        Some(rest) => HashedReader::new(script.text.as_slice(), rest)
            .digest()
            .ok(),
    }
}

/// Plays a script to a terminal, and gives what came of it, and the digest of its file as `digest_with` does. It goes on in `rest` if that
/// is there.
fn play_hashed<R: AllocGlobal + Eprint, F: Read + Drop>(
    rt: &R,
    played: &Played<'_>,
    normal: &Normal,
    name: &str,
    script: &LoadedScript,
    rest: Option<F>,
    drawn: bool,
) -> (Result<ScriptOutcome, ToolFault>, Option<[u8; 32]>)
    ensures outcome { rest ≡ None → IfOk result.0 (λ outcome. HasVerdict played.now.kind normal.now script.now.text.items outcome) }
    ensures digest { rest ≡ None → HasScriptDigest script.now result.1 }
{
    match rest {
        None => {
            let none: Option<F> = None;
            let outcome = outcome_of_script(rt, played, normal, name, script, none, drawn);
            (outcome, Some(script.file_digest()))
        }
        Some(rest) => {
            let mut hashed = HashedReader::new(script.text.as_slice(), rest);
            let rest = Some(&mut hashed);
            let outcome = outcome_of_script(rt, played, normal, name, script, rest, false);
            (outcome, hashed.digest().ok())
        }
    }
}

/// Plays a script of a file to the terminal of its profile.
fn try_file<R: Files + AllocGlobal + Eprint>(
    rt: &R,
    played: &Played<'_>,
    name: &str,
    opened: OpenScript<R::File>,
    drawn: bool,
) -> Result<TriedFile, ToolFault>
    ensures { opened.rest ≡ None → IfOk result (IsTried played.now opened.script) }
{
    let OpenScript { script, rest } = opened;
    let profile = match played.of_script(rt, name, script.text.as_slice()) {
        Ok(profile) => profile,
        Err(fault) => return Ok(without_profile(script, rest, fault)),
    };
    let mut digests = profile_digests(rt.alloc(), &profile)?;
    let (outcome, digest) = play_hashed(rt, played, &profile.normal, name, &script, rest, drawn);
    digests.script = digest;
    Ok(TriedFile {
        text: script.text,
        digests,
        outcome,
    })
}

/// What is reported of a script whose profile is not loaded, for this fault.
fn without_profile<F: Read + Drop>(
    script: LoadedScript,
    rest: Option<F>,
    fault: ToolFault,
) -> TriedFile
    ensures fault { IsErr result.outcome }
    ensures digest { rest ≡ None → HasScriptDigest script result.digests.script }
{
    let mut digests = NO_DIGESTS;
    digests.script = digest_with(&script, rest);
    TriedFile {
        text: script.text,
        digests,
        outcome: Err(fault),
    }
}

/// What is reported of a script that is not opened, for this fault.
fn not_opened<R: AllocGlobal>(
    rt: &R,
    to: &PlayedTo<'_>,
    fault: ToolFault,
) -> Result<TriedFile, ToolFault> {
    let digests = match to {
        PlayedTo::One(profile) => profile_digests(rt.alloc(), profile)?,
        PlayedTo::Folder(_) => NO_DIGESTS,
    };
    Ok(TriedFile {
        text: Vec::new(rt.alloc()),
        digests,
        outcome: Err(fault),
    })
}

/// Plays a script of a file, and gives what is reported of it, and the status that it asks for.
fn report_file<R: Files + AllocGlobal + Eprint>(
    rt: &R,
    played: &Played<'_>,
    asked: AskedReport<'_>,
    name: &str,
) -> Result<(ScriptResult, u8), ToolFault>
    ensures passes { IfOk result (λ r. (r.1 ≡ 0) ↔ (outcome_passes r.0.outcome ≡ true)) }
    ensures verdict { IfOk result (λ r. IfSome (outcome_verdict r.0.outcome) (λ verdict. r.1 ≡ verdict_status verdict)) }
    ensures most { IfOk result (λ r. r.1 ≤ 4) }
{
    let tried = match played.open(rt, name) {
        Ok(opened) => {
            let drawn = matches!(asked.format, ReportFormat::Html);
            try_file(rt, played, name, opened, drawn)?
        }
        Err(fault) => not_opened(rt, &played.to, fault)?,
    };
    let done = done_script(rt, tried.outcome)?;
    let text = tried.text.as_slice();
    let of = ScriptResult {
        file: String::from_str(rt.alloc(), name)?,
        profile: profile_name(rt.alloc(), asked.profiles, text)?,
        clauses: clauses_in(rt.alloc(), clauses_of(text))?,
        digests: tried.digests,
        outcome: done.outcome,
    };
    Ok((of, done.status))
}

/// Writes what came of a script, where the format has a line for each, or else keeps it.
pub fn put_or_keep<W: Write>(
    alloc: Global,
    format: ReportFormat,
    head: ReportHead<'_>,
    of: ScriptResult,
    kept: &mut Vec<ScriptResult>,
    output: &mut W,
) -> Result<(), ToolFault> {
    match format {
        ReportFormat::Json => {
            let line = json_line(result_json(alloc, head, &of))?;
            write_bytes(output, line.as_str().as_bytes())
        }
        _ => Ok(kept.push(of)?),
    }
}

/// Writes what was kept of all scripts.
pub fn put_kept<W: Write>(
    alloc: Global,
    format: ReportFormat,
    head: ReportHead<'_>,
    kept: &[ScriptResult],
    output: &mut W,
) -> Result<(), ToolFault> {
    let text = match format {
        ReportFormat::Junit => junit_report(alloc, head, kept)?,
        ReportFormat::Html => results_page(alloc, head, kept)?,
        _ => return Ok(()),
    };
    write_bytes(output, text.as_str().as_bytes())
}

/// Plays scripts of files, and writes what came of them. The status is that of all scripts together.
pub fn report_files<R: Files + AllocGlobal + Eprint, W: Write>(
    rt: &R,
    played: &Played<'_>,
    asked: AskedReport<'_>,
    names: &[&str],
    output: &mut W,
) -> Result<u8, ToolFault>
    ensures { IfOk result (λ status. status ≤ 4) }
{
    let head = head_of("verify", asked.names, &played.names, asked.date);
    let mut kept = Vec::new(rt.alloc());
    let mut status = 0;
    for name in names {
        let (of, of_file) = report_file(rt, played, asked, name)?;
        status = joined_status(status, of_file);
        put_or_keep(rt.alloc(), asked.format, head, of, &mut kept, output)?;
    }
    put_kept(rt.alloc(), asked.format, head, kept.as_slice(), output)?;
    Ok(status)
}
