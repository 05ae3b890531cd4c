//! The command `verify`: scripts that state their answers are played.
ghost use Rattle.std.specs.Prelude.{◌≡◌, ◌↔◌, ◌⊎◌, ◌≤◌, ◌==◌, None, IfOk, length, true};
ghost use Rattle.rt1553_report.specs.Verdict.{verdict_of};
ghost use Rattle.tool_files.specs.Loaded.{IsLoadedFile};
ghost use Rattle.tool_files.specs.Status.{tool_status};
ghost use Rattle.tool_verify.specs.Passing.{IsGraver, IsPlayedTo, SaysOf, is_recording, recording_status, script_status};

use crate::compared::{Compared, ScriptFault, compare_open, explaining_script};
use crate::head::loaded_names;
use crate::opened::{OpenScript, open_script};
use crate::replied::{late_reply, words_missing};
use crate::report::report_files;
use crate::summary::put_summary;
use crate::warned::warn_of_hand_overs;
use bus_legal::Normal;
use line_format::after;
use message_names::{MessageNames, owned};
use rt1553_files::escaped;
use rt1553_report::{
    AnswerNames, DifferenceNotes, ScriptVerdict, TriedScript, Unjudged, Wording, bench_message,
    clauses_in, difference_told,
};
use rt1553_tool_args::{AskedReport, AskedWitness, Profiles, ReportFormat, ScriptKind};
use rt1553_verify::{WrongAnswer, named};
use script_recordings::RecordingFault;
use std::alloc::{AllocError, Global};
use std::format;
use std::io::{Read, Write};
use std::rt::Files;
use tool_files::{
    Ink, LoadedProfile, LoadedScript, Screen, ToolFault, load_profile_file, load_script, put_in,
    read_script_file, refused_file, refused_line, shown, stated_fault, status_or_stop, worst,
    write_bytes,
};
use tool_names::{LoadedNames, name_of_command};

/// Which terminal a script is played to.
#[derive(Drop)]
pub enum PlayedTo<'a> {
    /// All scripts to one.
    One(LoadedProfile),
    /// Each to that of the file of this folder that its line `# Profile: ` names.
    Folder(&'a str),
}

/// How scripts are played.
#[derive(Drop)]
pub struct Played<'a> {
    pub to: PlayedTo<'a>,
    /// The names of messages, where there are names.
    pub names: Option<LoadedNames>,
    /// What the scripts are.
    pub kind: ScriptKind,
    /// The files have messages, which are expanded first.
    pub expand: bool,
}

/// What is written of each script as text.
#[derive(Clone, Copy)]
struct ScriptReport {
    /// That it passes, too.
    each: bool,
    has_colours: bool,
}

/// The status of a script of which nothing is judged.
const NOT_JUDGED: u8 = 3;

/// Why a script is refused that names no profile.
const NO_PROFILE: &str = "script: no line '# Profile: NAME' at its front";

/// Why a script is refused whose profile is outside the folder of profiles.
const OUTSIDE: &str = "script: the profile that it names is outside the folder";

/// Whether the name of a profile stays in its folder: it doesn't begin at the root, and no part of it goes up.
fn stays_inside(profile: &str) -> bool {
    !profile.starts_with('/') && profile.split('/').all(|part| part != "..")
}

/// The profile that a script of this name names, of a folder.
fn profile_in<R: Files + AllocGlobal>(
    rt: &R,
    folder: &str,
    name: &str,
    script: &[u8],
) -> Result<LoadedProfile, ToolFault>
    ensures { IfOk result IsLoadedFile }
{
    let Some(profile) = named(script, b"# Profile: ") else {
        return Err(refused_file(rt, name, &NO_PROFILE));
    };
    let Ok(profile) = str::from_utf8(profile) else {
        return Err(refused_file(rt, name, &NO_PROFILE));
    };
    if !stays_inside(profile) {
        return Err(refused_file(rt, name, &OUTSIDE));
    }
    let path = format!(in rt.alloc(); "{folder}/{profile}")?;
    load_profile_file(rt, path.as_str())
}

impl Played<'_> {
    /// Gives the profile of the terminal that a script is played to.
    pub fn of_script<R: Files + AllocGlobal>(
        &self,
        rt: &R,
        name: &str,
        script: &[u8],
    ) -> Result<LoadedProfile, ToolFault>
        ensures { IfOk result (IsPlayedTo self.now.to) }
    {
        match &self.to {
            PlayedTo::One(profile) => Ok(*profile),
            PlayedTo::Folder(folder) => profile_in(rt, folder, name, script),
        }
    }

    /// The address of the terminal for which the messages in the file of this name are expanded; None where it has none.
    fn expands_for<R: Files + AllocGlobal>(
        &self,
        rt: &R,
        name: &str,
    ) -> Result<Option<u8>, ToolFault> {
        if !self.expand {
            return Ok(None);
        }
        let messages = read_script_file(rt, name)?;
        let profile = self.of_script(rt, name, messages.as_slice())?;
        Ok(Some(profile.normal.address()))
    }

    /// The names of messages, where there are names.
    pub fn message_names(&self) -> Option<&MessageNames> {
        match &self.names {
            Some(loaded) => Some(&loaded.names),
            None => None,
        }
    }

    /// Opens the script in the file of this name; messages are expanded for the terminal to which they are played.
    pub fn open<R: Files + AllocGlobal>(
        &self,
        rt: &R,
        name: &str,
    ) -> Result<OpenScript<R::File>, ToolFault> {
        open_script(rt, name, self.kind, self.expands_for(rt, name)?)
    }
}

/// In which words differences of such scripts are told.
fn wording_of(kind: ScriptKind) -> Wording
    ensures { (result ≡ Wording.Recording) ↔ (is_recording kind ≡ true) }
{
    match kind {
        ScriptKind::Test | ScriptKind::BusTest => Wording::Test,
        ScriptKind::Recording | ScriptKind::LaterRecording => Wording::Recording,
    }
}

/// Writes where a file differs; in a recording also the last comment before it, which is its time.
fn put_wrong_answer<W: Write>(
    alloc: Global,
    output: &mut W,
    place: &str,
    it: &PlayedScript,
    index: usize,
    wrong: &WrongAnswer,
) -> Result<(), ToolFault> {
    let wording = it.notes.wording;
    let mut beside = it.notes.beside(index);
    if wording == Wording::Test {
        beside.rule = None;
    }
    let told = difference_told(alloc, wrong, wording, beside)?;
    let text = format!(in alloc; "{place}: {}\n", told.as_str())?;
    write_bytes(output, text.as_str().as_bytes())
}

/// Writes how many answers of a file differ, or that nothing of it is judged, or, where it is asked for, that it passes.
fn put_verdict<W: Write>(
    alloc: Global,
    output: &mut W,
    name: &str,
    it: &PlayedScript,
    report: ScriptReport,
) -> Result<(), ToolFault> {
    let (ink, text) = match it.verdict() {
        ScriptVerdict::Failed => (
            Ink::Red,
            format!(in alloc; "differences: {}", it.wrong.len())?,
        ),
        ScriptVerdict::NotJudged(why) => (
            Ink::Red,
            format!(in alloc; "not judged: {}", why.text())?,
        ),
        ScriptVerdict::Passed if report.each => (
            Ink::Green,
            format!(in alloc; "passed (answers: {})", it.answers)?,
        ),
        ScriptVerdict::Passed => return Ok(()),
    };
    write_bytes(output, name.as_bytes())?;
    write_bytes(output, b": ")?;
    put_in(output, report.has_colours, ink, text.as_str().as_bytes())?;
    write_bytes(output, b"\n")
}

/// The fault of a script that states no recording.
pub fn recording_fault<R: AllocGlobal>(
    rt: &R,
    name: &str,
    script: &LoadedScript,
    fault: RecordingFault,
) -> ToolFault
    ensures { (result ≡ ToolFault.Memory) ⊎ (tool_status result ≡ recording_status fault) }
{
    match fault {
        RecordingFault::Unseen(line)
        | RecordingFault::Masked(line)
        | RecordingFault::NoWord(line) => {
            refused_line(rt, name, script.line_in_file(line), &fault)
        }
        RecordingFault::TooManyWays => refused_file(rt, name, &fault),
        RecordingFault::Script(fault) => stated_fault(rt, name, script, fault),
    }
}

/// The fault of a script that is refused.
fn script_fault<R: AllocGlobal>(
    rt: &R,
    name: &str,
    script: &LoadedScript,
    fault: ScriptFault,
) -> ToolFault
    ensures { (result ≡ ToolFault.Memory) ⊎ (tool_status result ≡ script_status fault) }
{
    match fault {
        ScriptFault::Stated(fault) => stated_fault(rt, name, script, fault),
        ScriptFault::Recording(fault) => recording_fault(rt, name, script, fault),
    }
}

/// A script that was played.
#[derive(Drop)]
pub struct PlayedScript {
    /// How many answers it states.
    pub answers: usize,
    /// Why nothing of it is judged, where nothing differs.
    pub unjudged: Option<Unjudged>,
    pub wrong: Vec<WrongAnswer>,
    /// How that is told.
    pub notes: DifferenceNotes,
    /// In how many slots of a recording the unit may have been silent.
    pub silences: u64,
}

impl PlayedScript {
    /// The verdict on it.
    pub fn verdict(&self) -> ScriptVerdict
        ensures { result ≡ verdict_of (length self.now.wrong.items == 0) self.now.unjudged }
    {
        ScriptVerdict::of(self.wrong.is_empty(), self.unjudged)
    }
}

/// The text of the comment that a line is; None for any other line, and for one that names the profile.
fn comment_in(line: &[u8]) -> Option<&[u8]> {
    let text = after(line, b"# ")?;
    match after(text, b"Profile: ") {
        Some(_) => None,
        None => Some(text),
    }
}

/// The rule under which each of these events stands, as it is printed: the last comment before it. None for all where no event
/// has one, and for one behind the end of the script.
fn rules_of(
    alloc: Global,
    script: &[u8],
    wrong: &[WrongAnswer],
) -> Result<AnswerNames, AllocError> {
    let (mut rules, mut rule) = (Vec::new(alloc), None);
    if wrong.is_empty() {
        return Ok(AnswerNames { names: rules });
    }
    for (before, line) in script.split(|byte| *byte == b'\n').enumerate() {
        rule = comment_in(line).or(rule);
        if let Some(one) = wrong.get(rules.len())
            && one.line.checked_sub(1) == Some(before as u64)
        {
            rules.push(match rule {
                Some(text) => Some(escaped(alloc, text)?),
                None => None,
            })?;
        }
    }
    if rules.as_slice().iter().all(|rule| rule.is_none()) {
        rules.clear();
    }
    Ok(AnswerNames { names: rules })
}

/// The names of the messages of commands, where there are names.
fn names_of(
    alloc: Global,
    names: Option<&MessageNames>,
    commands: &[Option<u16>],
) -> Result<Option<AnswerNames>, AllocError> {
    let Some(names) = names else {
        return Ok(None);
    };
    let mut list = Vec::new(alloc);
    for command in commands {
        let name = match command {
            Some(word) => name_of_command(names, *word),
            None => None,
        };
        list.push(owned(alloc, name)?)?;
    }
    Ok(Some(AnswerNames { names: list }))
}

/// The messages of commands of a recording, in the words of a test bench; none of a test.
fn messages_of(
    alloc: Global,
    wording: Wording,
    commands: &[Option<u16>],
) -> Result<AnswerNames, AllocError> {
    let mut list = Vec::new(alloc);
    if wording == Wording::Test {
        return Ok(AnswerNames { names: list });
    }
    for command in commands {
        list.push(match command {
            Some(word) => Some(bench_message(alloc, *word)?),
            None => None,
        })?;
    }
    Ok(AnswerNames { names: list })
}

/// How it is told what differs in a script.
fn notes_of(
    alloc: Global,
    played: &Played<'_>,
    normal: &Normal,
    script: &[u8],
    it: &Compared,
) -> Result<DifferenceNotes, AllocError> {
    let (wording, commands) = (wording_of(played.kind), it.commands.as_slice());
    let wrong = it.wrong.as_slice();
    Ok(DifferenceNotes {
        wording,
        names: names_of(alloc, played.message_names(), commands)?,
        messages: messages_of(alloc, wording, commands)?,
        rules: rules_of(alloc, script, wrong)?,
        late: late_reply(alloc, script, wrong)?,
        missing: words_missing(alloc, normal, script, wrong, played.kind)?,
    })
}

/// Tells, on the standard error, what a script in which something differs lacks to be judged; and which parts of a recording are judged.
fn tell_judged<R: AllocGlobal + Eprint>(
    rt: &R,
    name: &str,
    script: &LoadedScript,
    it: &Compared,
) -> Result<(), ToolFault> {
    let name = shown(rt, name)?;
    if let Some(why) = it.unjudged
        && !it.wrong.is_empty()
    {
        let _ = eprintln!(rt; "{name}: warning: {}", why.text());
    }
    if let Some(line) = it.after {
        let line = script.line_in_file(line);
        let _ = eprintln!(rt; "{name}: judged after line {line}");
    }
    if it.silences > 0 {
        let slots = it.silences;
        let _ = eprintln!(rt;
            "{name}: slots in which the unit may be silent: {slots}; behind each nothing is judged up to the next pause"
        );
    }
    if it.stretches > 0 {
        let stretches = it.stretches;
        let _ = eprintln!(rt;
            "{name}: stretches that leave too many ways open: {stretches}; none is judged, nor what follows it up to the next pause"
        );
    }
    Ok(())
}

/// Plays a script of this name to a terminal, and tells, on the standard error, what of it is judged. The script goes on in `rest` if that
/// is there.
pub fn play_script<R: AllocGlobal + Eprint, F: Read + Drop>(
    rt: &R,
    played: &Played<'_>,
    normal: &Normal,
    name: &str,
    script: &LoadedScript,
    rest: Option<F>,
) -> Result<PlayedScript, ToolFault>
    ensures { IfOk result (λ it. rest ≡ None → SaysOf played.now.kind normal.now script.now.text.items (verdict_of (length it.wrong.items == 0) it.unjudged) it.answers it.silences) }
{
    let text = script.text.as_slice();
    match compare_open(rt.alloc(), normal, text, rest, played.kind) {
        Ok(compared) => {
            let notes = notes_of(rt.alloc(), played, normal, text, &compared)?;
            if notes.wording == Wording::Recording {
                warn_of_hand_overs(rt, name, text)?;
            }
            tell_judged(rt, name, script, &compared)?;
            Ok(PlayedScript {
                answers: compared.answers,
                unjudged: compared.unjudged,
                wrong: compared.wrong,
                notes,
                silences: compared.silences,
            })
        }
        Err(fault) => Err(script_fault(rt, name, script, fault)),
    }
}

/// Plays a script, and writes where it differs, or that nothing of it is judged, or, where it is asked for, that it passes.
fn tell_script<R: Files + AllocGlobal + Eprint, W: Write>(
    rt: &R,
    played: &Played<'_>,
    name: &str,
    script: &LoadedScript,
    rest: Option<R::File>,
    report: ScriptReport,
    output: &mut W,
) -> Result<PlayedScript, ToolFault>
    ensures { IfOk result (λ it. (profile : LoadedProfile) × IsPlayedTo played.now.to profile × (rest ≡ None → SaysOf played.now.kind profile.normal script.now.text.items (verdict_of (length it.wrong.items == 0) it.unjudged) it.answers it.silences)) }
{
    let profile = played.of_script(rt, name, script.text.as_slice())?;
    let it = play_script(rt, played, &profile.normal, name, script, rest)?;
    let name = shown(rt, name)?;
    for (index, wrong) in it.wrong.as_slice().iter().enumerate() {
        let line = script.line_in_file(wrong.line);
        let place = format!(in rt.alloc(); "{name}:{line}")?;
        put_wrong_answer(rt.alloc(), output, place.as_str(), &it, index, wrong)?;
    }
    put_verdict(rt.alloc(), output, name.as_str(), &it, report)?;
    Ok(it)
}

/// Gives the clauses that a script names, of the test plan or of the standard; none where it names none.
pub fn clauses_of(script: &[u8]) -> &[u8] {
    match named(script, b"# Plan: ") {
        Some(clauses) => clauses,
        None => named(script, b"# Standard: ").unwrap_or(b""),
    }
}

/// Keeps which clauses a script names and the verdict on it.
fn keep(
    alloc: Global,
    tried: &mut Vec<TriedScript>,
    script: &[u8],
    verdict: Option<ScriptVerdict>,
) -> Result<(), AllocError> {
    let clauses = clauses_in(alloc, clauses_of(script))?;
    tried.push(TriedScript { clauses, verdict })?;
    Ok(())
}

/// The status of two scripts together: the graver one. That nothing is judged counts more than 0 and less than 1.
pub fn joined_status(a: u8, b: u8) -> u8
    ensures status { IsGraver a b result }
    ensures most { a ≤ 4 → b ≤ 4 → result ≤ 4 }
{
    if a == NOT_JUDGED {
        return if b == 0 { a } else { b };
    }
    if b == NOT_JUDGED {
        return if a == 0 { b } else { a };
    }
    worst(a, b)
}

/// Plays a script of a file, keeps the verdict on it, and gives the status to end with.
fn play_file<R: Files + AllocGlobal + Eprint, W: Write>(
    rt: &R,
    played: &Played<'_>,
    name: &str,
    report: ScriptReport,
    tried: &mut Vec<TriedScript>,
    output: &mut W,
) -> Result<u8, ToolFault>
    ensures { IfOk result (λ status. (status ≤ 1) ⊎ (status ≡ 3)) }
{
    let OpenScript { script, rest } = match played.open(rt, name) {
        Ok(opened) => opened,
        Err(fault) => {
            keep(rt.alloc(), tried, b"", None)?;
            return Err(fault);
        }
    };
    let outcome = tell_script(rt, played, name, &script, rest, report, output);
    let verdict = match &outcome {
        Ok(it) => Some(it.verdict()),
        Err(_) => None,
    };
    keep(rt.alloc(), tried, script.text.as_slice(), verdict)?;
    Ok(outcome?.verdict().status())
}

/// Plays scripts of files, and gives the status to end with.
fn play_files<R: Files + AllocGlobal + Eprint, W: Write>(
    rt: &R,
    played: &Played<'_>,
    names: &[&str],
    report: ScriptReport,
    output: &mut W,
) -> Result<u8, ToolFault>
    ensures { IfOk result (λ status. status ≤ 4) }
{
    let mut tried = Vec::new(rt.alloc());
    let mut status = 0;
    for name in names {
        let of_file = play_file(rt, played, name, report, &mut tried, output);
        status = joined_status(status, status_or_stop(rt, of_file)?);
    }
    if report.each {
        put_summary(rt.alloc(), tried.as_slice(), report.has_colours, output)?;
    }
    Ok(status)
}

/// Plays scripts that state their answers and writes what came of them: as text where they differ, and with `summary` also what passes,
/// clause by clause; in another format all. The status is that of all scripts together.
pub fn verify_scripts<R: Files + AllocGlobal + Eprint, W: Write>(
    rt: &R,
    asked: AskedReport<'_>,
    scripts: &[&str],
    screen: Screen,
    output: &mut W,
) -> Result<u8, ToolFault>
    ensures { IfOk result (λ status. status ≤ 4) }
{
    let to = match asked.profiles {
        Profiles::One(name) => PlayedTo::One(load_profile_file(rt, name)?),
        Profiles::Folder(folder) if folder.is_empty() => return Err(ToolFault::NoName),
        Profiles::Folder(folder) => PlayedTo::Folder(folder),
    };
    let names = match &to {
        PlayedTo::One(profile) => loaded_names(rt, asked.names, &[profile.normal.address()])?,
        PlayedTo::Folder(_) => loaded_names(rt, asked.names, &[])?,
    };
    let played = Played {
        to,
        names,
        kind: asked.kind,
        expand: asked.expand,
    };
    let report = ScriptReport {
        each: asked.summary,
        has_colours: screen.has_colours,
    };
    match asked.format {
        ReportFormat::Text => play_files(rt, &played, scripts, report, output),
        _ => report_files(rt, &played, asked, scripts, output),
    }
}

/// Why no script explains a recording in which the unit may have been silent.
const UNKNOWN: &str =
    "recording: what the unit did is not known behind a slot in which it may have been silent";

/// Writes a script that explains a recording: what is seen there, and before it what the subsystem did. Where nothing explains it, the
/// first line that is not explained is written in its place, or that nothing is judged, as by `verify_scripts`.
pub fn explain_recording<R: Files + AllocGlobal + Eprint, W: Write>(
    rt: &R,
    asked: AskedWitness<'_>,
    screen: Screen,
    output: &mut W,
) -> Result<u8, ToolFault>
    ensures { IfOk result (λ status. (status ≤ 1) ⊎ (status ≡ 3)) }
{
    let profile = load_profile_file(rt, asked.profile)?;
    let normal = profile.normal;
    let played = Played {
        to: PlayedTo::One(profile),
        names: loaded_names(rt, asked.names, &[normal.address()])?,
        kind: asked.kind,
        expand: asked.expand,
    };
    let report = ScriptReport {
        each: false,
        has_colours: screen.has_colours,
    };
    let script = load_script(rt, asked.script, played.expands_for(rt, asked.script)?)?;
    let it = tell_script(rt, &played, asked.script, &script, None, report, output)?;
    let verdict = it.verdict();
    if verdict != ScriptVerdict::Passed {
        return Ok(verdict.status());
    }
    if it.silences > 0 {
        return Err(refused_file(rt, asked.script, &UNKNOWN));
    }
    match explaining_script(rt.alloc(), &normal, script.text.as_slice(), asked.kind) {
        Ok(text) => {
            write_bytes(output, text.as_slice())?;
            Ok(0)
        }
        Err(fault) => Err(script_fault(rt, asked.script, &script, fault)),
    }
}
