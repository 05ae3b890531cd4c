//! Two texts are compared.
ghost use Rattle.std.specs.Prelude.{IfOk, IfErr};
ghost use Rattle.rt1553.specs.Compare.{IsRight, IsExact, IsNotCompared, IsNotComparedCanonical};

use crate::{LoadFault, load, load_canonical};
use bus_canon::{Script, distinguish};
use std::alloc::Global;

/// What comparing two texts says.
#[derive(Debug, Drop)]
pub enum Verdict {
    /// The two mean the same terminal.
    Same,
    /// The two terminals answer this script differently.
    Differ(Script),
}

/// Says whether two texts mean the same terminal: one that answers alike for ever. Where they don't, gives the script of
/// their first difference: of at most 70 events, on which the two answer otherwise from power-up, and made for the
/// address of the first. The first text is loaded first. Where both are canonical texts, no memory is taken.
pub fn compare(alloc: Global, first: &[u8], second: &[u8]) -> Result<Verdict, LoadFault>
    ensures ok { IfOk result (IsRight first.now second.now) }
    ensures exact { IfOk result (IsExact first.now second.now) }
    ensures refused { IfErr result (IsNotCompared first.now second.now) }
{
    let p = load(alloc, first)?;
    let q = load(alloc, second)?;
    match distinguish(&p, &q) {
        None => Ok(Verdict::Same),
        Some(script) => Ok(Verdict::Differ(script)),
    }
}

/// Says the same of two canonical texts, and of no others. Takes no memory.
pub fn compare_canonical(first: &[u8], second: &[u8]) -> Result<Verdict, LoadFault>
    ensures ok { IfOk result (IsRight first.now second.now) }
    ensures exact { IfOk result (IsExact first.now second.now) }
    ensures refused { IfErr result (IsNotComparedCanonical first.now second.now) }
{
    let of_first = load_canonical(first)?;
    let of_second = load_canonical(second)?;
    if let Some(script) = distinguish(&of_first, &of_second) {
        return Ok(Verdict::Differ(script));
    }
    Ok(Verdict::Same)
}
