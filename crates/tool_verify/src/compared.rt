//! What a terminal answers otherwise than a script states.
ghost use Rattle.std.specs.Prelude.{◌≡◌, ◌==◌, ◌++◌, Ok, None, is_none, IfOk, IfSome, MatchOption, length, map};
ghost use Rattle.bus_legal.specs.Parts.{description_in};
ghost use Rattle.rt1553_verify.specs.Stated.{shown};
ghost use Rattle.rt1553_verify.specs.declared.stated.StatedFault.TheVariants.{Memory};
ghost use Rattle.rt1553_report.specs.Verdict.{verdict_of};
ghost use Rattle.tool_verify.specs.Passing.{IsCompared, IsExplaining, is_later, recording_kind, scoped, test_kind, unjudged_by, unjudged_recorded, unjudged_since, unjudged_test};
ghost use Rattle.tool_verify.specs.declared.compared.ScriptFault.TheVariants.{Stated, Recording};

use bus_legal::Normal;
use rt1553_report::Unjudged;
use rt1553_tool_args::ScriptKind;
use rt1553_verify::{
    ScriptWarning, Stated, StatedFault, WrongAnswer, answers_in, message_commands, read_stated,
    script_warning, stated_on_bus, wrong_answers,
};
use script_recordings::{
    Explained, ExplainedSince, RecordingFault, UnexplainedLine, watch_recording, watch_since,
    witness, witness_since,
};
use std::alloc::{AllocError, AllocFailed, Global};
use std::io::{BufRead, BufReader, Read};

/// A script that was compared.
#[derive(Drop)]
pub struct Compared {
    /// How many answers it states.
    pub answers: usize,
    /// Why nothing of it is judged, where nothing differs.
    pub unjudged: Option<Unjudged>,
    /// Of a recording that began at any time: the line of the slot after which its part comes that is judged.
    pub after: Option<u64>,
    /// Of a recording: in how many of its slots the unit may have been silent. What it did behind each is not judged up to the next pause.
    pub silences: u64,
    /// Of a recording: in how many stretches of it gaps that may have come leave too many ways open. Nothing of these is judged, and behind
    /// each it is judged from the next pause on.
    pub stretches: u64,
    pub wrong: Vec<WrongAnswer>,
    /// The command word of the message to which each event belongs that was answered otherwise.
    pub commands: Vec<Option<u16>>,
}

/// Why a script is not compared.
#[derive(Clone, Copy, Debug, PartialEq, Eq)]
pub enum ScriptFault {
    /// It states no test.
    Stated(StatedFault),
    /// It states no recording.
    Recording(RecordingFault),
}

impl From<StatedFault> for ScriptFault {
    ghost from_gives = { λ stated fault. fault ≡ Stated stated };

    fn from(fault: StatedFault) -> ScriptFault {
        ScriptFault::Stated(fault)
    }
}

impl From<RecordingFault> for ScriptFault {
    ghost from_gives = { λ recording fault. fault ≡ Recording recording };

    fn from(fault: RecordingFault) -> ScriptFault {
        ScriptFault::Recording(fault)
    }
}

impl From<AllocError> for ScriptFault {
    ghost from_gives = { λ _ fault. fault ≡ Stated Memory };

    fn from(_error: AllocError) -> ScriptFault {
        ScriptFault::Stated(StatedFault::Memory)
    }
}

impl<T: Drop> From<AllocFailed<T>> for ScriptFault {
    ghost from_gives = { λ _ fault. fault ≡ Stated Memory };

    fn from(_failed: AllocFailed<T>) -> ScriptFault {
        ScriptFault::Stated(StatedFault::Memory)
    }
}

/// Gives what is compared of what a script states: all, or what the bus alone shows.
fn scoped(alloc: Global, on_bus: bool, stated: Vec<Stated>) -> Result<Vec<Stated>, AllocError>
    ensures { IfOk result (λ seen. map shown seen.items ≡ scoped on_bus (map shown stated.items)) }
{
    if on_bus {
        stated_on_bus(alloc, stated)
    } else {
        Ok(stated)
    }
}

/// Why nothing of a script is judged, by a warning of it.
fn unjudged_by(warning: Option<ScriptWarning>) -> Option<Unjudged>
    ensures { result ≡ unjudged_by warning }
{
    match warning {
        Some(warning) => Some(Unjudged::Unstated(warning)),
        None => None,
    }
}

/// The same of a test.
fn unjudged_test(stated: &[Stated]) -> Option<Unjudged>
    ensures { result ≡ unjudged_test (Ok (map shown stated.now)) }
{
    unjudged_by(script_warning(stated))
}

/// The same of a recording, in so many stretches of which too many ways are left.
fn unjudged_recorded(stretches: u64, warning: Option<ScriptWarning>) -> Option<Unjudged>
    ensures { result ≡ unjudged_recorded stretches warning }
{
    match stretches {
        0 => unjudged_by(warning),
        _ => Some(Unjudged::TooManyWays),
    }
}

/// The same of one that began at any time, which is judged after this line.
fn unjudged_since(
    stretches: u64,
    after: Option<u64>,
    warning: Option<ScriptWarning>,
) -> Option<Unjudged>
    ensures { result ≡ unjudged_since stretches after warning }
{
    match after {
        None if stretches == 0 => Some(Unjudged::NoPart),
        _ => unjudged_recorded(stretches, warning),
    }
}

/// Plays a test to a terminal, and compares its answers with what the test states, or with what the bus alone shows of that.
fn compare_test(
    alloc: Global,
    normal: &Normal,
    script: &[u8],
    on_bus: bool,
) -> Result<Compared, ScriptFault>
    ensures { IfOk result (IsCompared (test_kind on_bus) normal.now script.now) }
{
    let stated = read_stated(alloc, script)?;
    let answers = answers_in(stated.as_slice());
    let unjudged = unjudged_test(stated.as_slice());
    let seen = scoped(alloc, on_bus, stated)?;
    let wrong = wrong_answers(alloc, normal, seen.as_slice())?;
    let commands = message_commands(alloc, normal.address(), seen.as_slice(), wrong.as_slice())?;
    Ok(Compared {
        answers,
        unjudged,
        after: None,
        silences: 0,
        stretches: 0,
        wrong,
        commands,
    })
}

/// What came of a recording, of which this is the first line that nothing explains.
fn compared_recording(
    alloc: Global,
    answers: usize,
    unjudged: Option<Unjudged>,
    after: Option<u64>,
    silences: u64,
    stretches: u64,
    first: Option<UnexplainedLine>,
) -> Result<Compared, AllocError>
    ensures told { IfOk result (λ it. (length it.wrong.items == 0) ≡ is_none first) }
    ensures unjudged { IfOk result (λ it. it.unjudged ≡ unjudged) }
    ensures counts { IfOk result (λ it. (it.answers ≡ answers) × (it.silences ≡ silences) × (it.stretches ≡ stretches) × (it.after ≡ after)) }
{
    let (mut wrong, mut commands) = (Vec::new(alloc), Vec::new(alloc));
    if let Some(UnexplainedLine { answer, command }) = first {
        wrong.push(answer)?;
        commands.push(command)?;
    }
    Ok(Compared {
        answers,
        unjudged,
        after,
        silences,
        stretches,
        wrong,
        commands,
    })
}

/// Reads a recording of a terminal for its first line that no behaviour of the subsystem explains.
pub fn compare_recording<B: BufRead + Drop>(
    alloc: Global,
    normal: &Normal,
    input: B,
) -> Result<Compared, ScriptFault>
    ensures { IfOk result (λ it. IfSome (B.remaining input) (λ script. IsCompared ScriptKind.Recording normal.now script it)) }
{
    let Explained {
        answers,
        silences,
        stretches,
        warning,
        first,
    } = watch_recording(alloc, normal, input)?;
    let unjudged = unjudged_recorded(stretches, warning);
    let it = compared_recording(alloc, answers, unjudged, None, silences, stretches, first)?;
    Ok(it)
}

/// The same of a recording that began at any time, of which the first part is judged that begins afresh after a pause.
pub fn compare_later<B: BufRead + Drop>(
    alloc: Global,
    normal: &Normal,
    input: B,
) -> Result<Compared, ScriptFault>
    ensures { IfOk result (λ it. IfSome (B.remaining input) (λ script. IsCompared ScriptKind.LaterRecording normal.now script it)) }
{
    let ExplainedSince {
        answers,
        silences,
        stretches,
        warning,
        after,
        first,
    } = watch_since(alloc, normal, input)?;
    let unjudged = unjudged_since(stretches, after, warning);
    let it = compared_recording(alloc, answers, unjudged, after, silences, stretches, first)?;
    Ok(it)
}

/// Plays a script to a terminal, and compares its answers with what the script states.
pub fn compare_script(
    alloc: Global,
    normal: &Normal,
    script: &[u8],
    kind: ScriptKind,
) -> Result<Compared, ScriptFault>
    ensures { IfOk result (IsCompared kind normal.now script.now) }
{
    match kind {
        ScriptKind::Test => compare_test(alloc, normal, script, false),
        ScriptKind::BusTest => compare_test(alloc, normal, script, true),
        ScriptKind::Recording => compare_recording(alloc, normal, script),
        ScriptKind::LaterRecording => compare_later(alloc, normal, script),
    }
}

/// Compares a recording that is read on: from power-up, or one that began at any time.
fn compare_read<B: BufRead + Drop>(
    alloc: Global,
    normal: &Normal,
    input: B,
    is_later: bool,
) -> Result<Compared, ScriptFault>
    ensures { IfOk result (λ it. IfSome (B.remaining input) (λ script. IsCompared (recording_kind is_later) normal.now script it)) }
{
    if is_later {
        compare_later(alloc, normal, input)
    } else {
        compare_recording(alloc, normal, input)
    }
}

/// The same, of a script that goes on in `rest`, if there is one: then it is a recording.
pub fn compare_open<F: Read + Drop>(
    alloc: Global,
    normal: &Normal,
    script: &[u8],
    rest: Option<F>,
    kind: ScriptKind,
) -> Result<Compared, ScriptFault>
    ensures whole { IfOk result (λ it. rest ≡ None → IsCompared kind normal.now script.now it) }
    ensures on { IfOk result (λ it. IfSome rest (λ file. IfSome (F.remaining file) (λ more. IsCompared (recording_kind (is_later kind)) normal.now (script.now ++ more) it))) }
{
    let Some(rest) = rest else {
        return compare_script(alloc, normal, script, kind);
    };
    match BufReader::new(alloc, script.chain(rest)) {
        Ok(input) => compare_read(alloc, normal, input, kind == ScriptKind::LaterRecording),
        Err(_) => Err(ScriptFault::Stated(StatedFault::Memory)),
    }
}

/// Gives the script that explains a recording, where one does: what the subsystem did, and what is seen. Of one that began at any time:
/// what was shut down before the part that is judged, and that part; nothing where no part is judged.
pub fn explaining_script(
    alloc: Global,
    normal: &Normal,
    script: &[u8],
    kind: ScriptKind,
) -> Result<Vec<u8>, ScriptFault>
    ensures { IfOk result (λ text. IsExplaining kind normal.now script.now text.items) }
{
    if kind != ScriptKind::LaterRecording {
        return Ok(witness(alloc, normal, script)?);
    }
    match witness_since(alloc, normal, script)? {
        Some(text) => Ok(text),
        None => Ok(Vec::new(alloc)),
    }
}
