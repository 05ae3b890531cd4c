//! Texts that are refused.
ghost use Rattle.tool_files.specs.Status.{RefusesText, TellsRefused};

use crate::fault::ToolFault;
use crate::files::shown;
use refused_lines::refused_lines;
use std::alloc::AllocError;
use std::{fmt, format};

/// The fault for which this is printed. Out of memory, where memory ran out for that.
fn refused_as(told: Result<String, AllocError>) -> ToolFault
    ensures { RefusesText result }
{
    match told {
        Ok(told) => ToolFault::Refused(told),
        Err(_) => ToolFault::Memory,
    }
}

/// The fault of the text in the file of this name, which is refused for this cause: `NAME: CAUSE` is printed. Out of memory, where
/// memory runs out for that.
pub fn refused_file<R: AllocGlobal, T: fmt::Display>(rt: &R, name: &str, cause: &T) -> ToolFault
    ensures { RefusesText result }
{
    match shown(rt, name) {
        Ok(name) => refused_as(format!(in rt.alloc(); "{name}: {cause}")),
        Err(fault) => fault,
    }
}

/// The fault of this line in the file of this name, which is refused for this cause: `NAME:LINE: error: CAUSE` is printed. Out of memory,
/// where memory runs out for that.
pub fn refused_line<R: AllocGlobal, T: fmt::Display>(
    rt: &R,
    name: &str,
    line: u64,
    cause: &T,
) -> ToolFault
    ensures { RefusesText result }
{
    match shown(rt, name) {
        Ok(name) => refused_as(format!(in rt.alloc(); "{name}:{line}: error: {cause}")),
        Err(fault) => fault,
    }
}

/// The first line of the script in the file of this name that is refused, as a fault; else the other fault.
pub fn first_refused<R: AllocGlobal>(
    rt: &R,
    name: &str,
    script: &[u8],
    other: ToolFault,
) -> ToolFault
    ensures { TellsRefused script.now other result }
{
    let found = match refused_lines(rt.alloc(), script) {
        Ok(found) => found,
        Err(_) => return ToolFault::Memory,
    };
    let Some(line) = found.as_slice().first() else {
        return other;
    };
    match shown(rt, name) {
        Ok(name) => ToolFault::Line(name, *line),
        Err(fault) => fault,
    }
}
