//! Scripts that state their answers.
ghost use Rattle.std.specs.Prelude.{◌≡◌, ◌≢◌, ◌<◌, ◌&&◌, ◌∷◌, ◌++◌, ℕ, codes, length, map, option_map, filter, Ok, Err, IfOk, IfErr, IfSome, OnOk};
ghost use Rattle.line_format.specs.Front.{after};
ghost use Rattle.script_lines.specs.Line.{meaning};
ghost use Rattle.script_lines.specs.Text.{lines_of};
ghost use Rattle.bus_script.specs.Reading.{reading, adds, nothing};
ghost use Rattle.rt1553_verify.specs.Stated.{shown, states_answer, hands_over, can_answer, can_match, is_maybe, is_unanswered, small_digit, small_digits, says_bytes, states, goes_on, all_stated, if_any, shown_after, stays, or_misplaced, then_event, by_early_end, maybe_line, by_maybe, unstated_line, bounded_line, stated_in, warning_text, stated_warning, script_warning, seen_on_bus};
ghost use Rattle.rt1553_verify.specs.declared.stated.StatedFault.TheVariants.{Memory};

use crate::Matching;
use crate::possible::can_be_given;
use bus_terminal::Event;
use line_format::after;
use refused_lines::{first_line, mistyped_answer};
use script_lines::{LineFault, MAX_LINE, MAX_LINES, read_event};
use std::alloc::{AllocError, AllocFailed, Global};
use thiserror::Error;

/// An event of a script, and what the script states of its answer.
#[derive(Drop)]
pub struct Stated {
    /// The number of the event's line, from 1.
    pub line: u64,
    pub event: Event,
    /// How what answers the event is compared with `answer`.
    pub matching: Matching,
    /// The number of the line that states the answer, from 1; 0 where none does.
    pub answer_line: u64,
    /// The line of the transcript that is to answer the event, or its mask, with its line feed; empty where nothing is to answer it.
    pub answer: Vec<u8>,
}

/// What is known after a line.
#[derive(Drop)]
pub struct AfterLine {
    /// The event of which all was stated by then, if the line ends one.
    pub ended: Option<Stated>,
    /// The latest event, if there is one.
    pub latest: Option<Stated>,
}

/// Why a script that states its answers is refused. Lines are numbered from 1.
#[derive(Clone, Copy, Debug, PartialEq, Eq, Error)]
pub enum StatedFault {
    /// This line, of at most 64 bytes, is none of a script.
    #[error("script: line {0}")]
    Line(u64),
    /// This line has over 64 bytes before its line feed.
    #[error("script: line {0} is too long")]
    LongLine(u64),
    /// Something follows line 1,048,576.
    #[error("script: too many lines")]
    TooLong,
    /// This line looks like a stated answer from this column on and is a comment.
    #[error("looks like a stated answer and is a comment: one space comes after #>, #~ or #+, and none before it")]
    Mistyped(u64, u64),
    /// This line states an answer, or goes on with one, and doesn't follow an event that it can answer.
    #[error("the event before it cannot have this answer")]
    Misplaced(u64),
    /// The answer that this line states, with the lines that go on with it, is none that a terminal gives.
    #[error("no terminal answers so: an answer is a line that run prints, as \"A s 2800\", \"A d 0001\" or \"hand receive own 01 0011\"")]
    Impossible(u64),
    /// With this line a recording ends before its table does.
    #[error("the recording ends early: a row of its table was refused")]
    EndsEarly(u64),
    /// The script can't be read on, which says nothing of it.
    #[error("script: read failed")]
    Read,
    /// A growth of memory was refused, which says nothing of the script.
    #[error("out of memory")]
    Memory,
}

impl From<AllocError> for StatedFault {
    ghost from_gives = { λ _ fault. fault ≡ Memory };

    fn from(_error: AllocError) -> StatedFault {
        StatedFault::Memory
    }
}

impl<T: Drop> From<AllocFailed<T>> for StatedFault {
    ghost from_gives = { λ _ fault. fault ≡ Memory };

    fn from(_failed: AllocFailed<T>) -> StatedFault {
        StatedFault::Memory
    }
}

/// Whether a line hands over: its first word is `hand`.
fn hands_over(line: &[u8]) -> bool
    ensures { result ≡ hands_over line.now }
{
    match after(line, b"hand") {
        Some([]) => true,
        Some([next, ..]) => *next == b' ',
        None => false,
    }
}

/// Whether the event can be answered by this line: what is handed over answers a gap, and a word that is sent a slot.
fn can_answer(event: Event, line: &[u8]) -> bool
    ensures { result ≡ can_answer event line.now }
{
    let hands = hands_over(line);
    match event {
        Event::Gap(_) => hands,
        Event::Slot => !line.is_empty() && !hands,
        _ => false,
    }
}

/// Whether the line, or the mask, can be stated of the event.
fn can_match(matching: Matching, event: Event, line: &[u8]) -> bool
    ensures { result ≡ can_match matching event line.now }
{
    match matching {
        Matching::AnyLine => matches!(event, Event::Gap(_) | Event::Slot),
        _ => can_answer(event, line),
    }
}

/// Gives a capital hexadecimal digit as the small one, and any other byte as it is.
fn small_digit(byte: u8) -> u8
    ensures { result ≡ small_digit byte }
{
    match byte {
        b'A'..=b'F' => byte + 32,
        _ => byte,
    }
}

/// Adds bytes, with small digits.
fn push_small(answer: &mut Vec<u8>, bytes: &[u8]) -> Result<(), AllocError>
    ensures { OnOk result (answer.new.items ≡ answer.old.items ++ map small_digit bytes.now) }
{
    for byte in bytes {
        answer.push(small_digit(*byte))?;
    }
    Ok(())
}

/// Adds what is stated of an answer, with small digits: its first byte, which may be the letter of a bus, stays.
fn push_stated(answer: &mut Vec<u8>, line: &[u8]) -> Result<(), AllocError>
    ensures { OnOk result (answer.new.items ≡ answer.old.items ++ small_digits line.now) }
{
    if let [first, rest @ ..] = line {
        answer.push(*first)?;
        push_small(answer, rest)?;
    }
    Ok(())
}

/// Whether an answer can be stated of the event: it came, and none was stated so far.
fn is_unanswered(stated: &Stated) -> bool
    ensures { result ≡ is_unanswered (shown stated.now) }
{
    stated.answer.is_empty() && stated.matching != Matching::Maybe
}

/// Keeps what a line states of the answer to the latest event, of which nothing was stated yet.
fn state(
    latest: Option<Stated>,
    number: u64,
    matching: Matching,
    line: &[u8],
) -> Result<Option<Stated>, StatedFault>
    ensures said { IfOk result (λ new. or_misplaced number (states number matching (option_map shown latest) (small_digits line.now)) ≡ Ok (stays (option_map shown new))) }
    ensures refused { IfErr result (λ fault. fault ≢ StatedFault.Memory → or_misplaced number (states number matching (option_map shown latest) (small_digits line.now)) ≡ Err fault) }
{
    let Some(mut latest) = latest else {
        return Err(StatedFault::Misplaced(number));
    };
    if !is_unanswered(&latest) {
        return Err(StatedFault::Misplaced(number));
    }
    push_stated(&mut latest.answer, line)?;
    if !can_match(matching, latest.event, latest.answer.as_slice()) {
        return Err(StatedFault::Misplaced(number));
    }
    latest.matching = matching;
    latest.answer_line = number;
    Ok(Some(latest))
}

/// Whether the answer that was stated of the event can go on.
fn can_go_on(latest: &Stated) -> bool
    ensures { result ≡ (states_answer (shown latest.now) && says_bytes latest.now.matching) }
{
    !latest.answer.is_empty() && latest.matching != Matching::AnyLine
}

/// Keeps how the answer that was stated last goes on.
fn go_on(latest: Option<Stated>, number: u64, rest: &[u8]) -> Result<Option<Stated>, StatedFault>
    ensures said { IfOk result (λ new. or_misplaced number (goes_on (option_map shown latest) (map small_digit rest.now)) ≡ Ok (stays (option_map shown new))) }
    ensures refused { IfErr result (λ fault. fault ≢ StatedFault.Memory → or_misplaced number (goes_on (option_map shown latest) (map small_digit rest.now)) ≡ Err fault) }
{
    let Some(mut latest) = latest else {
        return Err(StatedFault::Misplaced(number));
    };
    if !can_go_on(&latest) {
        return Err(StatedFault::Misplaced(number));
    }
    latest.answer.push(b' ')?;
    push_small(&mut latest.answer, rest)?;
    Ok(Some(latest))
}

/// Gives the latest event, of which all was stated, unless no terminal gives that answer.
pub fn end(latest: Option<Stated>) -> Result<Option<Stated>, StatedFault>
    ensures said { IfOk result (λ all. all_stated (option_map shown latest) ≡ Ok (if_any (option_map shown all))) }
    ensures refused { IfErr result (λ fault. fault ≢ StatedFault.Memory → all_stated (option_map shown latest) ≡ Err fault) }
{
    let Some(mut latest) = latest else {
        return Ok(None);
    };
    if !can_be_given(latest.matching, latest.answer.as_slice()) {
        return Err(StatedFault::Impossible(latest.answer_line));
    }
    if !latest.answer.is_empty() {
        latest.answer.push(b'\n')?;
    }
    Ok(Some(latest))
}

/// What is known after a line that ends no event.
fn stays(latest: Option<Stated>) -> AfterLine
    ensures { shown_after result ≡ stays (option_map shown latest) }
{
    AfterLine {
        ended: None,
        latest,
    }
}

/// Ends the latest event, and begins a new one, of which nothing is stated.
fn begin(
    alloc: Global,
    latest: Option<Stated>,
    number: u64,
    event: Event,
    matching: Matching,
) -> Result<AfterLine, StatedFault>
    ensures said { IfOk result (λ after. then_event number event matching (all_stated (option_map shown latest)) ≡ Ok (shown_after after)) }
    ensures refused { IfErr result (λ fault. fault ≢ StatedFault.Memory → then_event number event matching (all_stated (option_map shown latest)) ≡ Err fault) }
{
    Ok(AfterLine {
        ended: end(latest)?,
        latest: Some(Stated {
            line: number,
            event,
            matching,
            answer_line: 0,
            answer: Vec::new(alloc),
        }),
    })
}

/// Reads a line that says nothing, but perhaps that the recording ends early.
fn read_comment(latest: Option<Stated>, number: u64, line: &[u8]) -> Result<AfterLine, StatedFault>
    ensures said { IfOk result (λ known. by_early_end number (option_map shown latest) line.now (after (codes "#! row ") line.now) ≡ Ok (shown_after known)) }
    ensures refused { IfErr result (λ fault. by_early_end number (option_map shown latest) line.now (after (codes "#! row ") line.now) ≡ Err fault) }
{
    match after(line, b"#! row ") {
        Some(_) => Err(StatedFault::EndsEarly(number)),
        None => match mistyped_answer(line) {
            None => Ok(stays(latest)),
            Some(column) => Err(StatedFault::Mistyped(number, column as u64)),
        },
    }
}

/// Reads what stands behind `#? ` in a recording: a gap that may have come, or a slot in which the unit may have been silent.
fn read_maybe(
    alloc: Global,
    latest: Option<Stated>,
    number: u64,
    line: &[u8],
) -> Result<AfterLine, StatedFault>
    ensures said { IfOk result (λ after. maybe_line number (option_map shown latest) (meaning line.now) ≡ Ok (shown_after after)) }
    ensures refused { IfErr result (λ fault. fault ≢ StatedFault.Memory → maybe_line number (option_map shown latest) (meaning line.now) ≡ Err fault) }
{
    match read_event(line) {
        Ok(Some(event)) if matches!(event, Event::Gap(_) | Event::Slot) => {
            begin(alloc, latest, number, event, Matching::Maybe)
        }
        _ => Err(StatedFault::Line(number)),
    }
}

/// Reads a line that is no event and states no answer.
fn read_silent(
    alloc: Global,
    latest: Option<Stated>,
    number: u64,
    line: &[u8],
    is_recording: bool,
) -> Result<AfterLine, StatedFault>
    ensures said { IfOk result (λ known. by_maybe is_recording number (option_map shown latest) line.now (after (codes "#? ") line.now) ≡ Ok (shown_after known)) }
    ensures refused { IfErr result (λ fault. fault ≢ StatedFault.Memory → by_maybe is_recording number (option_map shown latest) line.now (after (codes "#? ") line.now) ≡ Err fault) }
{
    if is_recording {
        match after(line, b"#? ") {
            Some(rest) => read_maybe(alloc, latest, number, rest),
            None => read_comment(latest, number, line),
        }
    } else {
        read_comment(latest, number, line)
    }
}

/// Reads a line that states no answer.
fn read_plain(
    alloc: Global,
    latest: Option<Stated>,
    number: u64,
    line: &[u8],
    is_recording: bool,
) -> Result<AfterLine, StatedFault>
    ensures said { IfOk result (λ after. unstated_line is_recording number (option_map shown latest) line.now (meaning line.now) ≡ Ok (shown_after after)) }
    ensures refused { IfErr result (λ fault. fault ≢ StatedFault.Memory → unstated_line is_recording number (option_map shown latest) line.now (meaning line.now) ≡ Err fault) }
{
    match read_event(line) {
        Ok(Some(event)) => begin(alloc, latest, number, event, Matching::Exact),
        Ok(None) => read_silent(alloc, latest, number, line, is_recording),
        Err(LineFault) => Err(StatedFault::Line(number)),
    }
}

/// Reads a line of this number, from 1, of a recording or another script, by the latest event before it. Only a recording says that gaps may have come.
pub fn read_stated_line(
    alloc: Global,
    latest: Option<Stated>,
    number: u64,
    line: &[u8],
    is_recording: bool,
) -> Result<AfterLine, StatedFault>
    ensures said { IfOk result (λ after. bounded_line is_recording number (option_map shown latest) line.now ≡ Ok (shown_after after)) }
    ensures refused { IfErr result (λ fault. fault ≢ StatedFault.Memory → bounded_line is_recording number (option_map shown latest) line.now ≡ Err fault) }
{
    if line.len() > MAX_LINE {
        return Err(StatedFault::LongLine(number));
    }
    if let Some(answer) = after(line, b"#> ") {
        return Ok(stays(state(latest, number, Matching::Exact, answer)?));
    }
    if let Some(mask) = after(line, b"#~ ") {
        return Ok(stays(state(latest, number, Matching::of_mask(mask), mask)?));
    }
    if let Some(rest) = after(line, b"#+ ") {
        return Ok(stays(go_on(latest, number, rest)?));
    }
    read_plain(alloc, latest, number, line, is_recording)
}

/// Adds an event, if there is one.
fn push_if(read: &mut Vec<Stated>, stated: Option<Stated>) -> Result<(), AllocError>
    ensures { OnOk result (map shown read.new.items ≡ map shown read.old.items ++ if_any (option_map shown stated)) }
{
    if let Some(stated) = stated {
        read.push(stated)?;
    }
    Ok(())
}

/// Reads a script with the answers that it states in comments: `#> LINE` behind the event that LINE answers, `#~ MASK` behind one
/// that is answered by a line with any digits at the dots of MASK, `#~ *` behind one that is answered by any line, and `#+ REST`
/// behind an answer that goes on with a space and REST. Other comments and empty lines may come between, but no comment that looks like
/// a stated answer, and no line `#! row ..`, with which a recording ends early. A script is refused by its first fault.
pub fn read_stated(alloc: Global, script: &[u8]) -> Result<Vec<Stated>, StatedFault>
    ensures accepted { IfOk result (λ read. stated_in script.now ≡ Ok (map shown read.items)) }
    ensures refused { IfErr result (λ fault. fault ≢ StatedFault.Memory → stated_in script.now ≡ Err fault) }
    ensures events { IfOk result (λ read. reading 0 (lines_of script.now) ≡ adds (map (λ s. s.event) (map shown read.items)) nothing) }
{
    let mut read = Vec::new(alloc);
    let mut latest = None;
    let mut rest = script;
    let mut lines = 0;
    while !rest.is_empty() {
        let (line, more) = first_line(rest);
        if lines == MAX_LINES as u64 {
            return Err(StatedFault::TooLong);
        }
        let known = read_stated_line(alloc, latest, lines + 1, line, false)?;
        push_if(&mut read, known.ended)?;
        latest = known.latest;
        lines += 1;
        rest = more;
    }
    push_if(&mut read, end(latest)?)?;
    Ok(read)
}

/// How many events of a script have an answer that is stated.
pub fn answers_in(script: &[Stated]) -> usize
    ensures { result ≡ length (filter (λ stated. states_answer (shown stated)) script.now) }
{
    script
        .iter()
        .filter(|stated| !stated.answer.is_empty())
        .count()
}

/// Why a script shows nothing, or little, of a terminal, whether it passes or not.
#[derive(Clone, Copy, Debug, PartialEq, Eq)]
pub enum ScriptWarning {
    /// It has no event.
    NoEvent,
    /// It states no answer: nothing is to answer any of its events.
    NoAnswer,
}

impl ScriptWarning {
    /// The warning in words, in one line.
    pub fn text(self) -> &'static str
        ensures { result.now ≡ warning_text self }
    {
        match self {
            ScriptWarning::NoEvent => "the script has no event",
            ScriptWarning::NoAnswer => "the script states no answer",
        }
    }
}

/// Warns of a script without an event, and of one that states no answer.
pub fn stated_warning(has_event: bool, answers: usize) -> Option<ScriptWarning>
    ensures { result ≡ stated_warning has_event answers }
{
    if !has_event {
        return Some(ScriptWarning::NoEvent);
    }
    if answers == 0 {
        return Some(ScriptWarning::NoAnswer);
    }
    None
}

/// Warns of a script, as `stated_warning`.
pub fn script_warning(script: &[Stated]) -> Option<ScriptWarning>
    ensures { result ≡ script_warning script.now }
{
    stated_warning(!script.is_empty(), answers_in(script))
}

/// Gives what the bus alone shows of what is stated: where nothing is stated of a gap, it is not checked what answers it.
fn seen_on_bus(mut stated: Stated) -> Stated
    ensures { shown result ≡ seen_on_bus (shown stated) }
{
    if matches!(stated.event, Event::Gap(_)) && stated.answer.is_empty() {
        stated.matching = Matching::Unchecked;
    }
    stated
}

/// Gives what is stated of events where hand-overs are not seen: a gap of which nothing is stated may hand over anything.
pub fn stated_on_bus(alloc: Global, script: Vec<Stated>) -> Result<Vec<Stated>, AllocError>
    ensures { IfOk result (λ seen. map shown seen.items ≡ map seen_on_bus (map shown script.items)) }
{
    let mut seen = Vec::new(alloc);
    for stated in script {
        seen.push(seen_on_bus(stated))?;
    }
    Ok(seen)
}
