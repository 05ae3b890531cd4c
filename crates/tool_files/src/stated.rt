//! Scripts that don't state their answers as they should.
ghost use Rattle.std.specs.Prelude.{◌≡◌, ◌⊎◌};
ghost use Rattle.tool_files.specs.Status.{stated_status, tool_status};

use crate::fault::ToolFault;
use crate::files::shown;
use crate::loaded::LoadedScript;
use crate::refused::{first_refused, refused_file, refused_line};
use refused_lines::{LineReason, Misfit, RefusedLine};
use rt1553_verify::StatedFault;

/// The fault of a comment that looks like a stated answer from this column on, in this line of the file of this name.
fn mistyped_answer<R: AllocGlobal>(rt: &R, name: &str, line: u64, column: u64) -> ToolFault
    ensures { (result ≡ ToolFault.Memory) ⊎ (tool_status result ≡ 2) }
{
    let misfit = Misfit {
        column: column as usize,
        reason: LineReason::Answer,
    };
    match shown(rt, name) {
        Ok(name) => ToolFault::Line(name, RefusedLine { line, misfit }),
        Err(fault) => fault,
    }
}

/// The fault of the script in the file of this name that doesn't state its answers as it should. Its lines are told as those of the file.
pub fn stated_fault<R: AllocGlobal>(
    rt: &R,
    name: &str,
    script: &LoadedScript,
    fault: StatedFault,
) -> ToolFault
    ensures { (result ≡ ToolFault.Memory) ⊎ (tool_status result ≡ stated_status fault) }
{
    match fault {
        StatedFault::Memory => ToolFault::Memory,
        StatedFault::Read => ToolFault::Input,
        StatedFault::TooLong => refused_file(rt, name, &fault),
        StatedFault::Line(_) | StatedFault::LongLine(_) => {
            let other = refused_file(rt, name, &fault);
            first_refused(rt, name, script.text.as_slice(), other)
        }
        StatedFault::Mistyped(line, column) => {
            mistyped_answer(rt, name, script.line_in_file(line), column)
        }
        StatedFault::Misplaced(line)
        | StatedFault::Impossible(line)
        | StatedFault::EndsEarly(line) => {
            refused_line(rt, name, script.line_in_file(line), &fault)
        }
    }
}
