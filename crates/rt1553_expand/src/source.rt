//! The lines of a text from which the lines of its script come.
ghost use Rattle.std.specs.Prelude.{ℕ, ◌≡◌, ◌++◌, map, List, Option, IfOk, OnOk, replicate};
ghost use Rattle.rt1553_expand.specs.Placing.{Placing};
ghost use Rattle.rt1553_expand.specs.Expansion.{expansion_of, with_expanded};
ghost use Rattle.rt1553_expand.specs.Sources.{sources_in};
ghost use Rattle.rt1553_expand.specs.inner.StillLeft.{left_of, IsPending, to_come, own_line};
ghost use Rattle.rt1553_expand.specs.inner.Read.{expansion_by};

use crate::expanding::{ReadLine, read_line};
use crate::placing::{Pending, events_before_line, go_behind, how_many_left, nothing_pending};
use crate::script_for::ScriptFor;
use refused_lines::first_line;
use std::alloc::{AllocError, Global};

/// Adds a number so many times.
fn push_times(sources: &mut Vec<u64>, count: usize, number: u64) -> Result<(), AllocError>
    ensures { OnOk result (sources.new.items ≡ sources.old.items ++ replicate count number) }
{
    for _ in 0..count {
        sources.push(number)?;
    }
    Ok(())
}

/// Adds the number of a line that stays.
fn push_own(sources: &mut Vec<u64>, read: &ReadLine, number: u64) -> Result<(), AllocError>
    ensures { (own : ScriptFor) (line : List ℕ) → OnOk result (sources.new.items ≡ sources.old.items ++ map (λ l. l.source) (own_line number (expansion_by own line read.now))) }
{
    if let ReadLine::Kept(_) = read {
        sources.push(number)?;
    }
    Ok(())
}

/// Adds the numbers of the lines of the script that line `number` brings.
fn push_sources(
    sources: &mut Vec<u64>,
    pending: &mut Pending,
    own: &ScriptFor,
    line: &[u8],
    number: u64,
) -> Result<(), AllocError>
    requires { IsPending pending.old }
    ensures sources { OnOk result ((p : Placing) → sources.old.items ++ map (λ l. l.source) (to_come (left_of pending.old) (with_expanded number (expansion_of own.now line.now) p)) ≡ sources.new.items ++ map (λ l. l.source) (to_come (left_of pending.new) p)) }
    ensures fits { OnOk result (IsPending pending.new) }
{
    let Ok(read) = read_line(own, line) else {
        return Ok(());
    };
    let count = events_before_line(pending, line, &read);
    push_times(sources, count, pending.source)?;
    push_own(sources, &read, number)?;
    go_behind(pending, count, own, number, line, &read)?;
    Ok(())
}

/// Gives, for each line of the script that `expand` makes of a text, the number of the line of the text that it stands for, from 1.
pub fn source_lines(alloc: Global, text: &[u8], own: &ScriptFor) -> Result<Vec<u64>, AllocError>
    ensures { IfOk result (λ sources. sources.items ≡ sources_in own.now text.now) }
{
    let mut sources = Vec::new(alloc);
    let mut pending = nothing_pending(alloc);
    let mut rest = text;
    let mut number = 1u64;
    while !rest.is_empty() {
        let (line, more) = first_line(rest);
        push_sources(&mut sources, &mut pending, own, line, number)?;
        number += 1;
        rest = more;
    }
    push_times(&mut sources, how_many_left(&pending), pending.source)?;
    Ok(sources)
}
