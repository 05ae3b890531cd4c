//! All lines of a script that are refused, and comments that look like stated answers.
ghost use Rattle.std.specs.Prelude.{◌≡◌, ◌++◌, IfOk, OnOk, map};
ghost use Rattle.script_lines.specs.Text.{lines_of};
ghost use Rattle.bus_script.specs.Reading.{reading};
ghost use Rattle.refused_lines.specs.Refused.{refused_from, refused_at, faulty_line, first_of, mistyped_from, mistyped_at};

use crate::answers::mistyped_answer;
use crate::lines::first_line;
use crate::reason::{LineReason, Misfit, misfit_of};
use script_lines::MAX_LINES;
use std::alloc::{AllocError, Global};

/// A line that is refused, or looks like what it is not.
#[derive(Clone, Copy, PartialEq, Eq)]
pub struct RefusedLine {
    /// Its number, from 1.
    pub line: u64,
    pub misfit: Misfit,
}

/// The first line that is one too many.
fn line_too_many(number: u64) -> RefusedLine
    ensures { result.line ≡ number }
{
    let reason = LineReason::Many;
    RefusedLine {
        line: number,
        misfit: Misfit { column: 1, reason },
    }
}

/// Adds a line of this number where it is refused.
fn push_refused(found: &mut Vec<RefusedLine>, line: &[u8], number: u64) -> Result<(), AllocError>
    ensures { OnOk result (map (λ refused. refused.line) found.new.items ≡ map (λ refused. refused.line) found.old.items ++ refused_at number line.now) }
{
    if let Some(misfit) = misfit_of(line) {
        found.push(RefusedLine {
            line: number,
            misfit,
        })?;
    }
    Ok(())
}

/// Gives each line of a script that is refused, in their order: for being too long, for what it says, or as one too many, which is
/// the last. The first is the one that a run of the script names, and there is none where a run reads it to its end. The only error is
/// out of memory.
pub fn refused_lines(alloc: Global, script: &[u8]) -> Result<Vec<RefusedLine>, AllocError>
    ensures lines { IfOk result (λ found. map (λ refused. refused.line) found.items ≡ refused_from 1 (lines_of script.now)) }
    ensures run { IfOk result (λ found. first_of (map (λ refused. refused.line) found.items) ≡ faulty_line (reading 0 (lines_of script.now)).fault) }
{
    let mut found = Vec::new(alloc);
    let mut rest = script;
    let mut number = 1u64;
    while !rest.is_empty() {
        let (line, more) = first_line(rest);
        if number > MAX_LINES as u64 {
            found.push(line_too_many(number))?;
            return Ok(found);
        }
        push_refused(&mut found, line, number)?;
        number += 1;
        rest = more;
    }
    Ok(found)
}

/// Adds a line of this number where it is a comment that looks like a stated answer.
fn push_mistyped(found: &mut Vec<RefusedLine>, line: &[u8], number: u64) -> Result<(), AllocError>
    ensures { OnOk result (map (λ mistyped. mistyped.line) found.new.items ≡ map (λ mistyped. mistyped.line) found.old.items ++ mistyped_at number line.now) }
{
    if let Some(column) = mistyped_answer(line) {
        let reason = LineReason::Answer;
        found.push(RefusedLine {
            line: number,
            misfit: Misfit { column, reason },
        })?;
    }
    Ok(())
}

/// Gives each line of a script that is a comment for a run and looks like a stated answer, in their order: `#>A s 2800`, which lacks a
/// space, or `# > A s 2800`, which has one too many. The only error is out of memory.
pub fn mistyped_answers(alloc: Global, script: &[u8]) -> Result<Vec<RefusedLine>, AllocError>
    ensures { IfOk result (λ found. map (λ mistyped. mistyped.line) found.items ≡ mistyped_from 1 (lines_of script.now)) }
{
    let mut found = Vec::new(alloc);
    let mut rest = script;
    let mut number = 1u64;
    while !rest.is_empty() {
        let (line, more) = first_line(rest);
        push_mistyped(&mut found, line, number)?;
        number += 1;
        rest = more;
    }
    Ok(found)
}
