//! The first line of a recording that nothing explains.
ghost use Rattle.std.specs.Prelude.{◌≡◌, ◌<◌, ◌++◌, true, false, IfOk, IfErr, IfSome, List, [], None, OnOk};
ghost use Rattle.bus_legal.specs.Description.{Description};
ghost use Rattle.bus_legal.specs.Parts.{description_in, IsNormal};
ghost use Rattle.bus_legal.specs.Reach.{reach};
ghost use Rattle.recorded_terminal.specs.declared.watch.Marked.{Marked};
ghost use Rattle.bus_legal.specs.Tables.{tables_say};
ghost use Rattle.recorded_terminal.specs.Judged.{WatchesLater};
ghost use Rattle.recorded_terminal.specs.Marks.{masked, maybe_in, HasManyWays};
ghost use Rattle.recorded_terminal.specs.Watched.{Watches};
ghost use Rattle.recorded_terminal.specs.SentWords.{word_shown};
ghost use Rattle.rt1553_verify.specs.Reader.{left_in, turns_left};
ghost use Rattle.rt1553_verify.specs.Stated.{StatedEvent};
ghost use Rattle.rt1553_verify.specs.Verify.{told_answer};
ghost use Rattle.script_recordings.specs.Seen.{stated_word, recorded_warning, AreNoRecording, StatesNoRecording};
ghost use Rattle.script_recordings.specs.Explained.{told_at, first_some, told_first, IsJudgedFrom, IsJudgedSince, NothingExplains};
ghost use Rattle.script_recordings.specs.inner.Plays.{AnswerAlike};
ghost use Rattle.script_recordings.specs.inner.Reads.{AreMarkedAs, IsUnlessMany, ReadsThen, TellsUnexplained, TellsJudged};
ghost use Rattle.script_recordings.specs.inner.PartsTold.{joined_warning, judged_of, CountsStretches, TellsJust, TellsThen, IsToldFirst, IsToldLater, AreOthersTold};
ghost use Rattle.script_recordings.specs.inner.Tallies.{IsTally};

use crate::reading::{RecordingFault, RecordingReader};
use crate::tally::Tally;
use crate::words::open_line;
use bus_legal::Normal;
use bus_terminal::{Answer, Sent};
use recorded_terminal::{FreshPart, LaterWatch, Marked, Unexplained, Watch, WatchFault};
use rt1553_verify::{ScriptWarning, StatedFault, WrongAnswer};
use script_lines::write_answer;
use std::alloc::{AllocError, Global};
use std::io::BufRead;

/// The first line of a recording that no behaviour of the subsystem explains.
#[derive(Drop)]
pub struct UnexplainedLine {
    /// What is stated there, and what can come in its place.
    pub answer: WrongAnswer,
    /// The command word of its message, if there is one.
    pub command: Option<u16>,
}

/// What comes of a recording.
#[derive(Drop)]
pub struct Explained {
    /// How many words it states.
    pub answers: usize,
    /// In how many of its slots the unit may have been silent: behind each, what it did is not judged up to the next pause.
    pub silences: u64,
    /// In how many stretches of it gaps that may have come leave more than 64 ways open: nothing of these is judged, and behind each it is
    /// judged from the next pause on.
    pub stretches: u64,
    /// Why what is judged shows nothing, or little, where it does.
    pub warning: Option<ScriptWarning>,
    pub first: Option<UnexplainedLine>,
}

/// What comes of a recording that began at any time, while the unit was on or before.
#[derive(Drop)]
pub struct ExplainedSince {
    /// How many words it states.
    pub answers: usize,
    /// In how many of its slots the unit may have been silent: behind each, what it did is not judged up to the next pause.
    pub silences: u64,
    /// In how many stretches of it gaps that may have come leave more than 64 ways open: nothing of these is judged, and behind each it is
    /// judged from the next pause on.
    pub stretches: u64,
    /// Why what is judged shows nothing, where it does.
    pub warning: Option<ScriptWarning>,
    /// The line of the slot that ends the pause after which it is judged. None where no part of it begins afresh after a pause.
    pub after: Option<u64>,
    pub first: Option<UnexplainedLine>,
}

/// The line of a word that is sent, or nothing.
fn line_of(alloc: Global, sent: Option<Sent>) -> Result<Vec<u8>, AllocError>
    ensures { IfOk result (λ line. line.items ≡ stated_word false (word_shown sent)) }
{
    let line = match sent {
        Some(sent) => write_answer(&Answer::Sends(sent)),
        None => write_answer(&Answer::Silent),
    };
    line.as_str().as_bytes().to_vec(alloc)
}

/// The line that leaves a data word open, or nothing.
fn open_line_of(alloc: Global, sent: Option<Sent>) -> Result<Vec<u8>, AllocError>
    ensures { IfOk result (λ line. line.items ≡ stated_word true (word_shown sent)) }
{
    match sent {
        Some(sent) => open_line(sent.bus).to_vec(alloc),
        None => Ok(Vec::new(alloc)),
    }
}

/// The line that states what was seen.
fn line_seen(alloc: Global, marked: &Marked) -> Result<Vec<u8>, AllocError>
    ensures { IfOk result (λ line. line.items ≡ stated_word marked.now.any_word (word_shown marked.now.sighting.sent)) }
{
    if marked.any_word {
        open_line_of(alloc, marked.sighting.sent)
    } else {
        line_of(alloc, marked.sighting.sent)
    }
}

/// What is told of the first sighting that nothing explains.
fn line_told(alloc: Global, first: Unexplained) -> Result<UnexplainedLine, AllocError>
    ensures { IfOk result (λ line. told_answer line.answer ≡ told_at first.marked.line (masked first.marked) (word_shown first.sent)) }
{
    Ok(UnexplainedLine {
        answer: WrongAnswer {
            line: first.marked.line,
            expected: line_seen(alloc, &first.marked)?,
            came: line_of(alloc, first.sent)?,
        },
        command: first.marked.command,
    })
}

/// The same, where there is one.
fn first_told(
    alloc: Global,
    first: Option<Unexplained>,
) -> Result<Option<UnexplainedLine>, AllocError>
    ensures { IfOk result (TellsUnexplained first) }
{
    match first {
        Some(first) => Ok(Some(line_told(alloc, first)?)),
        None => Ok(None),
    }
}

/// What is told of a part, or of parts one after the other.
#[derive(Drop)]
struct PartTold {
    answers: usize,
    stretches: u64,
    warning: Option<ScriptWarning>,
    /// The line after which the first of them is judged that is.
    after: Option<u64>,
    first: Option<UnexplainedLine>,
}

/// The first of two, if there is one.
fn first_some<T: Drop>(one: Option<T>, other: Option<T>) -> Option<T>
    ensures { result ≡ first_some one other }
{
    match one {
        Some(one) => Some(one),
        None => other,
    }
}

/// Why two parts show nothing, by the same of each.
fn joined_warning(one: Option<ScriptWarning>, other: Option<ScriptWarning>) -> Option<ScriptWarning>
    ensures { result ≡ joined_warning one other }
{
    match (one, other) {
        (Some(ScriptWarning::NoEvent), other) => other,
        (Some(ScriptWarning::NoAnswer), Some(_)) => Some(ScriptWarning::NoAnswer),
        _ => None,
    }
}

impl PartTold {
    /// Nothing is judged of so many stretches, which state so many words.
    fn unjudged(answers: usize, stretches: u64) -> PartTold
        ensures { TellsJust answers stretches result }
    {
        PartTold {
            answers,
            stretches,
            warning: Some(ScriptWarning::NoEvent),
            after: None,
            first: None,
        }
    }

    /// What is told of these parts and then of others. More than 2^64 - 1 words or stretches are as if memory had run out.
    fn then(self, others: PartTold) -> Result<PartTold, AllocError>
        ensures { IfOk result (TellsThen self others) }
    {
        let Some(answers) = self.answers.checked_add(others.answers) else {
            return Err(AllocError);
        };
        let Some(stretches) = self.stretches.checked_add(others.stretches) else {
            return Err(AllocError);
        };
        Ok(PartTold {
            answers,
            stretches,
            warning: joined_warning(self.warning, others.warning),
            after: first_some(self.after, others.after),
            first: first_some(self.first, others.first),
        })
    }
}

/// What is told of a part of a recording that began at any time.
fn later_told(
    alloc: Global,
    tally: &Tally,
    judged: Option<FreshPart>,
) -> Result<PartTold, AllocError>
    ensures told { IfOk result (λ told. TellsJudged judged told.after told.first) }
    ensures warned { IfOk result (λ told. (ms : List Marked) → IsTally ms tally.now → told.warning ≡ recorded_warning (judged_of judged ms)) }
    ensures counts { IfOk result (λ told. (told.answers ≡ tally.now.answers) × (told.stretches ≡ 0)) }
{
    match judged {
        Some(judged) => Ok(PartTold {
            answers: tally.answers,
            stretches: 0,
            warning: tally.warning_behind(judged.before),
            after: Some(judged.after),
            first: first_told(alloc, judged.first)?,
        }),
        None => Ok(PartTold::unjudged(tally.answers, 0)),
    }
}

/// Stretches of a part in which too many ways are left.
#[derive(Clone, Copy)]
struct Stretches {
    count: u64,
    /// How many words they state.
    answers: usize,
}

impl Stretches {
    /// None yet.
    fn none() -> Stretches
        ensures { CountsStretches [] result }
    {
        Stretches {
            count: 0,
            answers: 0,
        }
    }

    /// Takes one more. More than 2^64 - 1, or words, are as if memory had run out.
    fn add(&mut self, tally: &Tally) -> Result<(), AllocError>
        ensures { OnOk result ((cs ms : List Marked) → CountsStretches cs self.old → HasManyWays (maybe_in ms) → IsTally ms tally.now → CountsStretches (cs ++ ms) self.new) }
    {
        let Some(answers) = self.answers.checked_add(tally.answers) else {
            return Err(AllocError);
        };
        let Some(count) = self.count.checked_add(1) else {
            return Err(AllocError);
        };
        self.answers = answers;
        self.count = count;
        Ok(())
    }
}

/// What a watch gives, or None where too many ways are left.
fn unless_many<T: Drop>(seen: Result<T, WatchFault>) -> Result<Option<T>, AllocError>
    ensures { IfOk result (λ it. IsUnlessMany seen it) }
{
    match seen {
        Ok(it) => Ok(Some(it)),
        Err(WatchFault::TooManyWays) => Ok(None),
        Err(WatchFault::Memory) => Err(AllocError),
    }
}

/// What is told of the last stretch of a part from power-up, which has no other.
fn end_first(alloc: Global, watch: Watch<Normal>, tally: &Tally) -> Result<PartTold, AllocError>
    ensures { IfOk result (λ told. (P Q D : Description) (events : List StatedEvent) (ms : List Marked) → AnswerAlike Q P → AreMarkedAs events ms → Watches (λ normal. tables_say normal.tables) Q [] ms watch → IsTally ms tally.now → IsToldFirst P D events told) }
{
    match unless_many(watch.end())? {
        Some(first) => Ok(PartTold {
            answers: tally.answers,
            stretches: 0,
            warning: tally.warning_behind(0),
            after: None,
            first: first_told(alloc, first)?,
        }),
        None => Ok(PartTold::unjudged(tally.answers, 1)),
    }
}

/// The same of one that began at any time.
fn end_later(
    alloc: Global,
    watch: LaterWatch<Normal>,
    tally: &Tally,
) -> Result<PartTold, AllocError>
    ensures { IfOk result (λ told. (D : Description) (events : List StatedEvent) (ms : List Marked) → AreMarkedAs events ms → WatchesLater (λ normal. tables_say normal.tables) D ms watch → IsTally ms tally.now → IsToldLater D events told) }
{
    match unless_many(watch.end())? {
        Some(judged) => later_told(alloc, tally, judged),
        None => Ok(PartTold::unjudged(tally.answers, 1)),
    }
}

/// Judges the next part of a recording from power-up. Behind a stretch in which too many ways are left it is one that began at any time.
fn judge_first<B: BufRead + Drop>(
    alloc: Global,
    normal: &Normal,
    reader: &mut RecordingReader<B>,
) -> Result<PartTold, RecordingFault>
    ensures judged { IfOk result (λ told. ReadsThen (left_in B.remaining reader.old.script) (left_in B.remaining reader.new.script) reader.new.silence (λ events. (P : Description) → description_in normal.now ≡ reach P → IsToldFirst P (description_in normal.now) events told)) }
    ensures refused { IfErr result (λ fault. IfSome (left_in B.remaining reader.old.script) (λ said. AreNoRecording said fault)) }
{
    let mut watch = Watch::power_up(alloc, normal.setup(), *normal)?;
    let mut tally = Tally::new();
    'sightings: while let Some(marked) = reader.next()? {
        tally.take(&marked)?;
        match unless_many(watch.see(marked))? {
            Some(_) => {}
            None => {
                let rest = judge_later(alloc, normal, reader)?;
                return Ok(PartTold::unjudged(tally.answers, 1).then(rest)?);
            }
        }
    }
    Ok(end_first(alloc, watch, &tally)?)
}

/// A watch of a terminal that was on before.
fn begin_later(alloc: Global, normal: &Normal) -> Result<LaterWatch<Normal>, AllocError>
    ensures begun { IfOk result (WatchesLater (λ normal. tables_say normal.tables) (description_in normal.now) []) }
    ensures normal { IsNormal normal.now }
{
    LaterWatch::new(alloc, normal.setup(), *normal)
}

/// Judges the next part of a recording that began at any time, anew behind each stretch in which too many ways are left.
fn judge_later<B: BufRead + Drop>(
    alloc: Global,
    normal: &Normal,
    reader: &mut RecordingReader<B>,
) -> Result<PartTold, RecordingFault>
    ensures judged { IfOk result (λ told. ReadsThen (left_in B.remaining reader.old.script) (left_in B.remaining reader.new.script) reader.new.silence (λ events. IsToldLater (description_in normal.now) events told)) }
    ensures refused { IfErr result (λ fault. IfSome (left_in B.remaining reader.old.script) (λ said. AreNoRecording said fault)) }
    ensures fewer { IfOk result (λ _. IfSome reader.new.silence (λ _. turns_left reader.new.script < turns_left reader.old.script)) }
    ensures normal { IsNormal normal.now }
{
    let mut stretches = Stretches::none();
    let mut watch = begin_later(alloc, normal)?;
    let mut tally = Tally::new();
    'sightings: while let Some(marked) = reader.next()? {
        tally.take(&marked)?;
        match unless_many(watch.see(marked))? {
            Some(_) => {}
            None => {
                stretches.add(&tally)?;
                watch = begin_later(alloc, normal)?;
                tally = Tally::new();
            }
        }
    }
    let last = end_later(alloc, watch, &tally)?;
    Ok(PartTold::unjudged(stretches.answers, stretches.count).then(last)?)
}

/// Judges the parts that follow one which has been read, and gives how many there are. More than 2^64 - 1 are as if memory had run out.
fn judge_others<B: BufRead + Drop>(
    alloc: Global,
    normal: &Normal,
    reader: &mut RecordingReader<B>,
) -> Result<(PartTold, u64), RecordingFault>
    ensures judged { IfOk result (λ told. AreOthersTold (description_in normal.now) (left_in B.remaining reader.old.script) reader.old.silence told.0 told.1) }
    ensures refused { IfErr result (λ fault. (reader.old.silence ≡ None → ⊥) × IfSome (left_in B.remaining reader.old.script) (λ said. AreNoRecording said fault)) }
{
    let (mut told, mut parts) = (PartTold::unjudged(0, 0), 0_u64);
    'parts: while reader.silence.is_some() {
        let part = judge_later(alloc, normal, reader)?;
        told = told.then(part)?;
        if parts == u64::MAX {
            return Err(RecordingFault::Script(StatedFault::Memory));
        }
        parts += 1;
    }
    Ok((told, parts))
}

/// Reads a recording, of a terminal from power-up, for the first event which no behaviour of the subsystem explains: what is stated of
/// it, and a line with which it would be explained. None where the whole recording is explained, with some of the gaps in it that may have
/// come. Behind a slot in which the unit may have been silent, and where more than 64 ways are left, it is judged from the next pause on, as by
/// `watch_since`. A script that states no recording is refused. Behind a status word at most 16,383 events are kept.
pub fn watch_recording<B: BufRead + Drop>(
    alloc: Global,
    normal: &Normal,
    input: B,
) -> Result<Explained, RecordingFault>
    ensures judged { (P : Description) → description_in normal.now ≡ reach P → IfOk result (λ it. IfSome (B.remaining input) (λ script. IsJudgedFrom P (description_in normal.now) script (told_first it.first) it.warning it.answers it.silences it.stretches)) }
    ensures refused { IfErr result (λ fault. IfSome (B.remaining input) (λ script. StatesNoRecording script fault)) }
{
    let mut reader = RecordingReader::new(alloc, normal.address(), input);
    let first = judge_first(alloc, normal, &mut reader)?;
    let (others, silences) = judge_others(alloc, normal, &mut reader)?;
    let told = first.then(others)?;
    Ok(Explained {
        answers: told.answers,
        silences,
        stretches: told.stretches,
        warning: told.warning,
        first: told.first,
    })
}

/// Reads a recording that began at any time for the first event, in what begins afresh after a pause, which no behaviour of the subsystem
/// explains, whatever came before. Behind a slot in which the unit may have been silent, and where more than 64 ways are left, the same is sought
/// anew. A script that states no recording is refused. Behind a status word at most 16,383 events are kept.
pub fn watch_since<B: BufRead + Drop>(
    alloc: Global,
    normal: &Normal,
    input: B,
) -> Result<ExplainedSince, RecordingFault>
    ensures judged { IfOk result (λ it. IfSome (B.remaining input) (λ script. IsJudgedSince (description_in normal.now) script it.after (told_first it.first) it.warning it.answers it.silences it.stretches)) }
    ensures never { (P : Description) → description_in normal.now ≡ reach P → IfOk result (λ it. IfSome it.first (λ line. IfSome (B.remaining input) (λ script. NothingExplains P script))) }
    ensures refused { IfErr result (λ fault. IfSome (B.remaining input) (λ script. StatesNoRecording script fault)) }
{
    let mut reader = RecordingReader::new(alloc, normal.address(), input);
    let first = judge_later(alloc, normal, &mut reader)?;
    let (others, silences) = judge_others(alloc, normal, &mut reader)?;
    let told = first.then(others)?;
    Ok(ExplainedSince {
        answers: told.answers,
        silences,
        stretches: told.stretches,
        warning: told.warning,
        after: told.after,
        first: told.first,
    })
}
