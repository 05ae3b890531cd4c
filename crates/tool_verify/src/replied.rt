//! What a recording shows of the reply to which an event belongs.
use crate::compared::{ScriptFault, compare_script};
use bus_legal::Normal;
use line_format::after;
use rt1553_files::escaped;
use rt1553_tool_args::ScriptKind;
use rt1553_verify::{StatedFault, WrongAnswer};
use script_recordings::RecordingFault;
use std::alloc::{AllocError, Global};

/// How many data words are tried behind a reply: one more than it can have.
const MORE_WORDS: u8 = 33;

/// How a comment of `recording` begins that has a word which came too late for a reply.
const LATE: &[u8] = b"# later than no response";

/// By how much a word was too late, as such a comment says behind its begin; empty where it does not.
fn amount_in(rest: &[u8]) -> &[u8] {
    match after(rest, b" by ") {
        Some(amount) => amount.split(|byte| *byte == b':').next().unwrap_or(b""),
        None => b"",
    }
}

/// By how much a reply was too late that a comment has behind this line of a script, before its next event; empty where that is not
/// known. None where there is no such comment.
fn late_behind(alloc: Global, script: &[u8], line: u64) -> Result<Option<String>, AllocError> {
    for (before, text) in script.split(|byte| *byte == b'\n').enumerate() {
        if (before as u64) < line {
            continue;
        }
        if let Some(rest) = after(text, LATE) {
            return Ok(Some(escaped(alloc, amount_in(rest))?));
        }
        if !text.is_empty() && after(text, b"# ").is_none() {
            return Ok(None);
        }
    }
    Ok(None)
}

/// The same behind the first of these events.
pub fn late_reply(
    alloc: Global,
    script: &[u8],
    wrong: &[WrongAnswer],
) -> Result<Option<String>, AllocError> {
    match wrong {
        [first, ..] => late_behind(alloc, script, first.line),
        [] => Ok(None),
    }
}

/// Whether memory ran out.
pub fn is_memory(fault: ScriptFault) -> bool {
    match fault {
        ScriptFault::Stated(StatedFault::Memory) => true,
        ScriptFault::Recording(RecordingFault::Script(StatedFault::Memory)) => true,
        _ => false,
    }
}

/// The lines of a script up to this one; None where it has fewer.
pub fn lines_up_to(alloc: Global, script: &[u8], last: u64) -> Result<Option<Vec<u8>>, AllocError> {
    let (mut text, mut lines) = (Vec::new(alloc), 0_u64);
    for line in script.split(|byte| *byte == b'\n') {
        if lines == last {
            break;
        }
        text.extend_from_slice(line)?;
        text.push(b'\n')?;
        lines = lines.saturating_add(1);
    }
    Ok(if lines == last { Some(text) } else { None })
}

/// Up to which of so many data words more, on this bus, a recording is explained that ends in a slot of this line.
fn words_explained(
    alloc: Global,
    normal: &Normal,
    mut text: Vec<u8>,
    line: u64,
    bus: u8,
    kind: ScriptKind,
) -> Result<u8, AllocError> {
    for _ in 0..MORE_WORDS {
        text.extend_from_slice(b"#~ ")?;
        text.push(bus)?;
        text.extend_from_slice(b" d ....\nslot\n")?;
    }
    match compare_script(alloc, normal, text.as_slice(), kind) {
        Ok(it) => Ok(match it.wrong.as_slice() {
            [first, ..] => u8::try_from(first.line.saturating_sub(line) / 2).unwrap_or(0),
            [] => 0,
        }),
        Err(fault) if is_memory(fault) => Err(AllocError),
        Err(_) => Ok(0),
    }
}

/// How many data words are missing in the slot of a recording that nothing explains: with so many more it is explained up to there. 0 where
/// none is missing, in a test, and where the script does not have the line.
pub fn words_missing(
    alloc: Global,
    normal: &Normal,
    script: &[u8],
    wrong: &[WrongAnswer],
    kind: ScriptKind,
) -> Result<u8, AllocError> {
    let [first, ..] = wrong else {
        return Ok(0);
    };
    let ([], [bus, _, b'd', ..]) = (first.expected.as_slice(), first.came.as_slice()) else {
        return Ok(0);
    };
    if matches!(kind, ScriptKind::Test | ScriptKind::BusTest) {
        return Ok(0);
    }
    match lines_up_to(alloc, script, first.line)? {
        Some(text) => words_explained(alloc, normal, text, first.line, *bus, kind),
        None => Ok(0),
    }
}
