//! The lines of a file of messages that are refused on a bus.
ghost use Rattle.std.specs.Prelude.{◌≡◌};
ghost use Rattle.tool_buses.specs.Loading.{LoadsOnBus};

use crate::play::reason_of;
use rt1553::RunFault;
use rt1553_expand::{
    Expanded, OnBusFault, RefusedOnBus, ScriptFor, column_of, expand, refused_on_bus, source_lines,
};
use std::alloc::{AllocError, Global};
use std::format;
use tool_files::{LoadedScript, ToolFault, digest_of, refused_file, shown};

/// Why a line is refused, behind its number: the column, and the reason in words.
fn refusal_reason(alloc: Global, refused: &RefusedOnBus<'_>) -> Result<String, AllocError> {
    match refused.fault {
        OnBusFault::Unexpanded(fault) => {
            let column = column_of(refused.text, fault);
            format!(in alloc; "{column}: error: {fault}")
        }
        OnBusFault::Event(fault) => reason_of(alloc, refused.text, fault),
    }
}

/// What is told of the lines that are refused in the file of this name, as it is printed: a line each, without the last line feed.
fn refused_text(
    alloc: Global,
    name: &str,
    refused: &[RefusedOnBus<'_>],
) -> Result<String, AllocError> {
    let mut text = String::new(alloc);
    for it in refused {
        if !text.is_empty() {
            text.push('\n')?;
        }
        write!(
            text,
            "{name}:{}:{}",
            it.line,
            refusal_reason(alloc, it)?.as_str()
        )?;
    }
    Ok(text)
}

/// The script of the messages in the file of this name, which has this text, for the terminals of a bus. Lines that are refused are all told.
pub fn script_on_bus<R: AllocGlobal>(
    rt: &R,
    name: &str,
    text: &[u8],
    own: &ScriptFor,
) -> Result<LoadedScript, ToolFault>
    ensures { LoadsOnBus own.now text.now result }
{
    let alloc = rt.alloc();
    let refused = refused_on_bus(alloc, text, own)?;
    if !refused.is_empty() {
        let name = shown(rt, name)?;
        let told = refused_text(alloc, name.as_str(), refused.as_slice())?;
        return Err(ToolFault::Refused(told));
    }
    match expand(alloc, text, own)? {
        Expanded::Script(script) => Ok(LoadedScript {
            text: script,
            sources: Some(source_lines(alloc, text, own)?),
            digest: Some(digest_of(text)),
        }),
        _ => Err(refused_file(rt, name, &RunFault::TooLong)),
    }
}
