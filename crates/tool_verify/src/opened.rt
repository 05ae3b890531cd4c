//! Scripts of files, opened: of a long recording the front is read at once, and the rest while it is played.
ghost use Rattle.std.specs.Prelude.{◌≡◌, None, IfOk};

use rt1553_tool_args::ScriptKind;
use std::io::{ErrorKind, Read};
use std::rt::Files;
use tool_files::{LoadedScript, ToolFault, failed_read, load_script, open_named};

/// How many bytes of a recording are read at once.
const FRONT: u64 = 1_048_576;

/// A script of a file.
#[derive(Drop)]
pub struct OpenScript<F> {
    /// The script, or the front of a recording.
    pub script: LoadedScript,
    /// The file that has the rest of the recording, if there may be any.
    pub rest: Option<F>,
}

/// Opens a recording in the file of this name.
fn open_recording<R: Files + AllocGlobal>(
    rt: &R,
    name: &str,
) -> Result<OpenScript<R::File>, ToolFault> {
    let mut front = open_named(rt, name)?.take(FRONT);
    let mut text = Vec::new(rt.alloc());
    if let Err(error) = front.read_to_end(&mut text) {
        return match error.kind() {
            ErrorKind::OutOfMemory => Err(ToolFault::Memory),
            _ => Err(failed_read(rt, name)),
        };
    }
    let is_all = (text.len() as u64) < FRONT;
    let script = LoadedScript {
        text,
        sources: None,
        digest: None,
    };
    let rest = if is_all {
        None
    } else {
        Some(front.into_inner())
    };
    Ok(OpenScript { script, rest })
}

/// Opens the script in the file of this name, or, where it has messages for the terminal of an address, loads the script of these.
pub fn open_script<R: Files + AllocGlobal>(
    rt: &R,
    name: &str,
    kind: ScriptKind,
    expand_for: Option<u8>,
) -> Result<OpenScript<R::File>, ToolFault> {
    match kind {
        ScriptKind::Recording | ScriptKind::LaterRecording if expand_for.is_none() => {
            open_recording(rt, name)
        }
        _ => Ok(OpenScript {
            script: load_script(rt, name, expand_for)?,
            rest: None,
        }),
    }
}
