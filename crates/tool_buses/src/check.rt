//! Which messages of a file don't end well on a bus: each alone from power-up, and in the run of the whole file.
ghost use Rattle.std.specs.Prelude.{◌≡◌, ◌≤◌, ◌↔◌, ℕ, IfOk, map, true, option_map};
ghost use Rattle.bus_legal.specs.Parts.{description_in};
ghost use Rattle.terminal_rules.specs.LookBack.{keep};
ghost use Rattle.refused_lines.specs.Sources.{line_in_file};
ghost use Rattle.bus_reports.specs.Outcomes.{file_passes, told_among};
ghost use Rattle.tool_buses.specs.Cut.{told_alone, IsCutScript, JudgesOrder};
ghost use Rattle.tool_buses.specs.EndsWell.{reasons_alone, reasons_of_part};
ghost use Rattle.tool_buses.specs.Powered.{IsPowered};
ghost use Rattle.tool_buses.specs.Troubles.{IsCheckStatus, told_status};

use crate::alone::alone_reasons;
use crate::messages::{FileMessage, FoundMessages, messages_in, put_by};
use crate::names::BusNames;
use crate::order::{CutScript, cut_script, judgement_of};
use crate::parts::ScriptPart;
use crate::play::{refused_script, warn};
use crate::rated::rates_in;
use crate::reading::SaidEvent;
use crate::refused::script_on_bus;
use crate::watch::WatchedBus;
use ascii_json::json_line;
use bus_reports::{
    BusLoad, CheckOutcome, CheckReport, CheckedProfile, JudgedMessage, Judgement, LoadTimes,
    PutMessage, check_json, check_junit, judged_text, load_of, told_in,
};
use message_names::owned;
use rt1553::Normal;
use rt1553_expand::ScriptFor;
use rt1553_report::{NamesTable, ReportHead};
use rt1553_tool_args::{AskedCheck, CANONICAL_VERSION, CheckFormat, PROGRAM_VERSION, TOOLCHAIN};
use std::alloc::{AllocError, Global};
use std::format;
use std::io::Write;
use std::rt::Files;
use terminal_bus::TerminalBus;
use tool_files::{
    DIFFERENT, LoadedScript, ToolFault, digest_of, read_script_file, shown, status_or_stop,
    write_bytes,
};

/// The bus on which messages are checked.
#[derive(Drop)]
pub struct CheckedBus<'a> {
    pub profiles: Vec<CheckedProfile<'a>>,
    /// Those of the terminals, in their order.
    pub normals: Vec<Normal>,
    /// The terminals of the profiles at power-up, in the order of their addresses.
    pub bus: TerminalBus<Normal>,
    pub names: BusNames<'a>,
}

/// A file that was judged, or why it wasn't.
#[derive(Drop)]
struct JudgedFile {
    digest: Option<[u8; 32]>,
    judged: Result<Judgement, ToolFault>,
}

/// What comes of a message that is a part of a script, by its two playings.
fn judged_message(
    alloc: Global,
    put: PutMessage,
    part: &ScriptPart,
    in_run: Vec<String>,
    on: &CheckedBus<'_>,
) -> Result<JudgedMessage, AllocError>
    ensures { IfOk result (λ it. IsPowered (map description_in on.now.normals.items) on.now.bus → told_alone it ≡ reasons_alone put on.now.normals.items part.now.events.items) }
{
    let (events, normals) = (part.events.as_slice(), on.normals.as_slice());
    Ok(JudgedMessage {
        line: part.line,
        command: put.command,
        name: owned(alloc, on.names.name_of(put))?,
        alone: alone_reasons(alloc, put, events, &on.bus, normals)?,
        in_run,
    })
}

/// Why the first of these messages doesn't end well in the run, if there is one, and those behind it.
fn first_in_run<'a>(
    alloc: Global,
    messages: &'a [FileMessage],
    on: &CheckedBus<'_>,
) -> Result<(Vec<String>, &'a [FileMessage]), AllocError> {
    match messages {
        [first, others @ ..] => Ok((
            first
                .in_run
                .reasons(alloc, first.put, on.normals.as_slice())?,
            others,
        )),
        [] => Ok((Vec::new(alloc), messages)),
    }
}

/// What comes of the messages that are parts of a script. These were played in the run.
fn judged_messages(
    alloc: Global,
    messages: &[FileMessage],
    parts: &[ScriptPart],
    on: &CheckedBus<'_>,
) -> Result<Vec<JudgedMessage>, AllocError>
    ensures { IfOk result (λ judged. IsPowered (map description_in on.now.normals.items) on.now.bus → map told_alone judged.items ≡ keep (reasons_of_part on.now.normals.items) parts.now) }
{
    let mut judged = Vec::new(alloc);
    let mut messages = messages;
    for part in parts {
        if let Some(put) = put_by(part.events.as_slice()) {
            let (in_run, others) = first_in_run(alloc, messages, on)?;
            messages = others;
            judged.push(judged_message(alloc, put, part, in_run, on)?)?;
        }
    }
    Ok(judged)
}

/// Warns, on the standard error, of comments that look like a rate, and are none.
fn warn_of_rates<R: AllocGlobal + Eprint>(
    rt: &R,
    name: &str,
    lines: &[u64],
) -> Result<(), ToolFault> {
    let name = shown(rt, name)?;
    for line in lines {
        let _ = eprintln!(rt;
            "{name}:{line}: warning: no rate: behind \"# rate \" stands a number from 0 to 1000000 alone"
        );
    }
    Ok(())
}

/// Plays the events of a script in their order, and warns of those that break the discipline of a controller. What comes of its messages
/// is noted with them.
fn play_run<R: AllocGlobal + Eprint>(
    rt: &R,
    name: &str,
    script: &LoadedScript,
    said: &[SaidEvent],
    found: &mut FoundMessages,
    on: &CheckedBus<'_>,
) -> Result<(), ToolFault> {
    let alloc = rt.alloc();
    let mut watched = WatchedBus::power_up(alloc, &on.bus, on.normals.as_slice())?;
    let numbers = found.numbers.as_slice();
    let warnings = watched.play(alloc, said, numbers, &mut found.messages)?;
    watched.end(&mut found.messages)?;
    warn(rt, name, script, warnings.as_slice())
}

/// The load by the rates of a script, with warnings of comments that look like one.
fn load_by<R: AllocGlobal + Eprint>(
    rt: &R,
    name: &str,
    script: &LoadedScript,
    messages: &[FileMessage],
    times: LoadTimes,
) -> Result<Option<BusLoad>, ToolFault> {
    let rates = rates_in(rt.alloc(), script, messages)?;
    warn_of_rates(rt, name, rates.wrong.as_slice())?;
    Ok(load_of(rt.alloc(), rates.groups.as_slice(), times)?)
}

/// What comes of the messages of a script that was cut, which are played to terminals at power-up, each alone and all in their order.
fn judge_cut<R: AllocGlobal + Eprint>(
    rt: &R,
    name: &str,
    script: &LoadedScript,
    cut: CutScript,
    on: &CheckedBus<'_>,
    times: LoadTimes,
) -> Result<Judgement, ToolFault>
    ensures { IfOk result (λ judged. (source : ℕ → ℕ) → IsPowered (map description_in on.now.normals.items) on.now.bus → IsCutScript (map description_in on.now.normals.items) source script.now.text.items cut.parts.items cut.lefts.items →
        JudgesOrder on.now.normals.items source script.now.text.items judged) }
{
    let parts = cut.parts.as_slice();
    let mut found = messages_in(rt.alloc(), parts)?;
    play_run(rt, name, script, cut.said.as_slice(), &mut found, on)?;
    let messages = found.messages.items.as_slice();
    let load = load_by(rt, name, script, messages, times)?;
    let judged = judged_messages(rt.alloc(), messages, parts, on)?;
    Ok(judgement_of(judged, cut.lefts, load))
}

/// Judges the messages of a script. One that is refused has no judgement.
fn judge_script<R: AllocGlobal + Eprint>(
    rt: &R,
    name: &str,
    script: &LoadedScript,
    on: &CheckedBus<'_>,
    times: LoadTimes,
) -> Result<Judgement, ToolFault>
    ensures { IfOk result (λ judged. IsPowered (map description_in on.now.normals.items) on.now.bus → JudgesOrder on.now.normals.items (line_in_file (option_map (λ lines. lines.items) script.now.sources)) script.now.text.items judged) }
{
    let cut = cut_script(
        rt.alloc(),
        &on.bus,
        script.text.as_slice(),
        script.sources(),
    )?;
    match cut.fault {
        Some(fault) => Err(refused_script(rt, name, script, fault)?),
        None => judge_cut(rt, name, script, cut, on, times),
    }
}

/// The addresses of terminals, for which messages are expanded.
fn addresses_of(alloc: Global, normals: &[Normal]) -> Result<ScriptFor, AllocError> {
    let mut addresses = Vec::new(alloc);
    for normal in normals {
        addresses.push(normal.address())?;
    }
    Ok(ScriptFor::Bus(addresses))
}

/// Judges the messages in the file of this name, which has this text.
fn judge_text<R: AllocGlobal + Eprint>(
    rt: &R,
    name: &str,
    text: &[u8],
    on: &CheckedBus<'_>,
    times: LoadTimes,
) -> Result<Judgement, ToolFault> {
    let own = addresses_of(rt.alloc(), on.normals.as_slice())?;
    let script = script_on_bus(rt, name, text, &own)?;
    judge_script(rt, name, &script, on, times)
}

/// Judges the messages in the file of this name.
fn judge_file<R: Files + AllocGlobal + Eprint>(
    rt: &R,
    name: &str,
    on: &CheckedBus<'_>,
    times: LoadTimes,
) -> JudgedFile {
    match read_script_file(rt, name) {
        Ok(text) => JudgedFile {
            digest: Some(digest_of(text.as_slice())),
            judged: judge_text(rt, name, text.as_slice(), on, times),
        },
        Err(fault) => JudgedFile {
            digest: None,
            judged: Err(fault),
        },
    }
}

/// The status by how many messages are told.
fn told_status(told: usize) -> u8
    ensures value { result ≡ told_status told }
    ensures most { result ≤ 1 }
{
    if told == 0 { 0 } else { DIFFERENT }
}

/// Writes what is told of the messages of a file, as text. The status is 0 where no message is told.
fn put_text<R: AllocGlobal, W: Write>(
    rt: &R,
    name: &str,
    judged: &Judgement,
    output: &mut W,
) -> Result<u8, ToolFault>
    ensures value { IfOk result (λ status. status ≡ told_status (told_among judged.now)) }
    ensures most { IfOk result (λ status. status ≤ 1) }
{
    let name = shown(rt, name)?;
    let text = judged_text(rt.alloc(), name.as_str(), judged)?;
    write_bytes(output, text.as_str().as_bytes())?;
    Ok(told_status(told_in(judged.messages.as_slice())))
}

/// What came of a file, and the status that it asks for. A fault is told on the standard error, too.
fn outcome_of<R: AllocGlobal + Eprint>(
    rt: &R,
    judged: Result<Judgement, ToolFault>,
) -> Result<(CheckOutcome, u8), ToolFault>
    ensures passes { IfOk result (λ done. (done.1 ≡ 0) ↔ (file_passes done.0 ≡ true)) }
    ensures most { IfOk result (λ done. done.1 ≤ 4) }
{
    match judged {
        Ok(judged) => {
            let status = told_status(told_in(judged.messages.as_slice()));
            Ok((CheckOutcome::Judged(judged), status))
        }
        Err(fault) => {
            let reason = format!(in rt.alloc(); "{fault}")?;
            let status = status_or_stop(rt, Err(fault))?;
            Ok((CheckOutcome::Refused(reason), status))
        }
    }
}

/// The report in its format.
fn report_text(
    alloc: Global,
    format: CheckFormat,
    report: &CheckReport<'_>,
) -> Result<String, ToolFault> {
    match format {
        CheckFormat::Junit => Ok(check_junit(alloc, report)?),
        _ => Ok(json_line(check_json(alloc, report))?),
    }
}

/// The tables of names as they are reported.
fn tables_of<'a>(alloc: Global, names: &BusNames<'a>) -> Result<Vec<NamesTable<'a>>, AllocError> {
    let mut tables = Vec::new(alloc);
    for table in names.tables.as_slice() {
        tables.push(NamesTable {
            file: table.file,
            digest: table.names.loaded.digest,
        })?;
    }
    Ok(tables)
}

/// Writes the report of a file.
fn put_report<'a, R: AllocGlobal + Eprint, W: Write>(
    rt: &R,
    asked: AskedCheck<'a>,
    name: &'a str,
    on: &CheckedBus<'a>,
    file: JudgedFile,
    output: &mut W,
) -> Result<u8, ToolFault>
    ensures { IfOk result (λ status. status ≤ 4) }
{
    let JudgedFile { digest, judged } = file;
    let (outcome, status) = outcome_of(rt, judged)?;
    let report = CheckReport {
        file: name,
        digest,
        profiles: Vec::from_slice(rt.alloc(), on.profiles.as_slice())?,
        tables: tables_of(rt.alloc(), &on.names)?,
        times: times_of(asked),
        outcome,
        head: ReportHead {
            command: "bus",
            program: PROGRAM_VERSION,
            toolchain: TOOLCHAIN,
            canonical: CANONICAL_VERSION,
            names: None,
            date: asked.date,
        },
    };
    let text = report_text(rt.alloc(), asked.format, &report)?;
    write_bytes(output, text.as_str().as_bytes())?;
    Ok(status)
}

/// The times by which the load is computed.
fn times_of(asked: AskedCheck<'_>) -> LoadTimes {
    LoadTimes {
        response: asked.response,
        gap: asked.gap,
    }
}

/// Judges the messages of a file, and writes what comes of them: as text a line for each that doesn't end well at every terminal that it
/// speaks to, or a report. As text the status is 0 where no message is told, and 1 where one is; nothing is written of a file that is
/// refused. A report tells also why that is so, and has its status.
pub fn check_on_bus<'a, R: Files + AllocGlobal + Eprint, W: Write>(
    rt: &R,
    asked: AskedCheck<'a>,
    name: &'a str,
    on: &CheckedBus<'a>,
    output: &mut W,
) -> Result<u8, ToolFault>
    ensures status { IfOk result (IsCheckStatus asked.entry.format) }
    ensures most { IfOk result (λ status. status ≤ 4) }
{
    let file = judge_file(rt, name, on, times_of(asked));
    match asked.format {
        CheckFormat::Text => put_text(rt, name, &file.judged?, output),
        _ => put_report(rt, asked, name, on, file, output),
    }
}
