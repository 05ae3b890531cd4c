//! Lines of scripts that are refused.
ghost use Rattle.std.specs.Prelude.{◌≡◌, ◌≤◌, IfOk, List, ℕ};
ghost use Rattle.script_lines.specs.Text.{lines_of};
ghost use Rattle.refused_lines.specs.Refused.{refused_from};
ghost use Rattle.tool_scripts.specs.Ends.{lines_status};

use refused_lines::{RefusedLine, mistyped_answers, refused_lines};
use std::alloc::Global;
use std::io::Write;
use std::rt::Files;
use tool_files::{REFUSED, ToolFault, read_script_file, shown, status_or_stop, worst, write_bytes};

/// Writes lines of the file of this name, each with what is found there.
fn put_refused<W: Write>(
    alloc: Global,
    name: &str,
    found: &[RefusedLine],
    kind: &str,
    output: &mut W,
) -> Result<(), ToolFault> {
    for of in found {
        let (line, column, reason) = (of.line, of.misfit.column, of.misfit.reason);
        let text = format!(in alloc; "{name}:{line}:{column}: {kind}: {reason}\n")?;
        write_bytes(output, text.as_str().as_bytes())?;
    }
    Ok(())
}

/// Writes each line of a script that is refused, then each comment that looks like a stated answer, and gives the status to end with:
/// of the refused lines alone, so that it is 0 for just the scripts that a run reads to their end.
fn check_script<R: Files + AllocGlobal, W: Write>(
    rt: &R,
    name: &str,
    output: &mut W,
) -> Result<u8, ToolFault>
    ensures { IfOk result (λ status. (script : List ℕ) × (status ≡ lines_status (refused_from 1 (lines_of script)))) }
{
    let script = read_script_file(rt, name)?;
    let found = refused_lines(rt.alloc(), script.as_slice())?;
    let mistyped = mistyped_answers(rt.alloc(), script.as_slice())?;
    let name = shown(rt, name)?;
    let name = name.as_str();
    put_refused(rt.alloc(), name, found.as_slice(), "error", output)?;
    put_refused(rt.alloc(), name, mistyped.as_slice(), "warning", output)?;
    Ok(if found.is_empty() { 0 } else { REFUSED })
}

/// Writes each line of scripts that is refused. The status is the highest that a file asks for.
pub fn check_scripts<R: Files + AllocGlobal + Eprint, W: Write>(
    rt: &R,
    names: &[&str],
    output: &mut W,
) -> Result<u8, ToolFault>
    ensures { IfOk result (λ status. status ≤ 4) }
{
    let mut status = 0;
    for name in names {
        status = worst(status, status_or_stop(rt, check_script(rt, name, output))?);
    }
    Ok(status)
}
