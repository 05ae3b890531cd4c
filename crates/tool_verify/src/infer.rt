//! The command `infer`: a profile that explains a recording.
ghost use Rattle.std.specs.Prelude.{◌≤◌, IfOk};

use crate::verify::recording_fault;
use crate::warned::warn_of_hand_overs;
use inferred_profiles::{Unseen, infer};
use rt1553_tool_args::AskedProfile;
use rt1553_verify::ScriptWarning;
use script_recordings::{RecordingFault, read_recording};
use std::io::Write;
use std::rt::Files;
use tool_files::{DIFFERENT, ToolFault, load_script, shown, write_bytes};

/// Tells, on the standard error, that no profile is found, and why, where the recording states no word.
fn tell_none<R: AllocGlobal + Eprint>(
    rt: &R,
    name: &str,
    states_word: bool,
) -> Result<(), ToolFault> {
    let name = shown(rt, name)?;
    let _ = eprintln!(rt; "{name}: no profile is found that explains this recording");
    if !states_word {
        let _ = eprintln!(rt; "{name}: warning: {}", ScriptWarning::NoAnswer.text());
    }
    Ok(())
}

/// Writes a profile that explains the recording of a file, if one is found.
pub fn infer_profile<R: Files + AllocGlobal + Eprint, W: Write>(
    rt: &R,
    asked: AskedProfile<'_>,
    output: &mut W,
) -> Result<u8, ToolFault>
    ensures { IfOk result (λ status. status ≤ 1) }
{
    let unseen = if asked.unseen_is_legal {
        Unseen::Legal
    } else {
        Unseen::Illegal
    };
    let expand_for = asked.expand.then_some(asked.address);
    let script = load_script(rt, asked.script, expand_for)?;
    let mut recording = match read_recording(rt.alloc(), asked.address, script.text.as_slice()) {
        Ok(recording) => recording,
        Err(fault) => return Err(recording_fault(rt, asked.script, &script, fault)),
    };
    for marked in recording.iter_mut() {
        marked.line = script.line_in_file(marked.line);
    }
    warn_of_hand_overs(rt, asked.script, script.text.as_slice())?;
    let found = match infer(rt.alloc(), asked.address, unseen, recording.as_slice()) {
        Ok(found) => found,
        Err(fault) => return Err(recording_fault(
            rt,
            asked.script,
            &script,
            RecordingFault::from(fault),
        )),
    };
    let Some(text) = found else {
        let states_word = recording.iter().any(|it| it.sighting.sent.is_some());
        tell_none(rt, asked.script, states_word)?;
        return Ok(DIFFERENT);
    };
    write_bytes(output, text.as_str().as_bytes())?;
    Ok(0)
}
