//! The command `differ`: in what two profiles differ.
ghost use Rattle.std.specs.Prelude.{◌≡◌, ◌≤◌, ◌↔◌, IfOk};
ghost use Rattle.bus_legal.specs.Parts.{Parts};
ghost use Rattle.tool_files.specs.Status.{IsLoaded};

use ascii_json::named_json;
use rt1553_differ::{Group, Pair, differ_json, differ_text, differences, groups_of};
use rt1553_tool_args::AskedComparison;
use std::alloc::{AllocError, Global};
use std::io::Write;
use std::rt::Files;
use tool_files::{DIFFERENT, Screen, ToolFault, load_profile, put_lines, shown};
use tool_names::load_names;

/// What is written of the groups of differences of two profiles.
fn groups_text(
    alloc: Global,
    pair: &Pair<'_>,
    groups: &[Group],
    scripts: bool,
    as_json: bool,
) -> Result<String, AllocError> {
    if as_json {
        let json = differ_json(alloc, pair, groups, scripts);
        return named_json(alloc, json, pair.names.is_some());
    }
    differ_text(alloc, pair, groups, scripts)
}

/// Writes in what two profiles differ. The status tells whether they do.
pub fn put_pair<R: AllocGlobal, W: Write>(
    rt: &R,
    pair: &Pair<'_>,
    scripts: bool,
    as_json: bool,
    screen: Screen,
    output: &mut W,
) -> Result<u8, ToolFault>
    ensures most { IfOk result (λ status. status ≤ 1) }
    ensures same { IfOk result (λ status. (status ≡ 0) ↔ (pair.now.p.now ≡ pair.now.q.now)) }
{
    let found = differences(rt.alloc(), pair.p, pair.q)?;
    let groups = groups_of(rt.alloc(), found.as_slice(), pair.p, pair.q)?;
    let text = groups_text(rt.alloc(), pair, groups.as_slice(), scripts, as_json)?;
    put_lines(
        output,
        screen.has_colours && !as_json,
        text.as_str().as_bytes(),
    )?;
    Ok(if found.is_empty() { 0 } else { DIFFERENT })
}

/// Writes all in which the terminals of two profiles differ, with scripts that show it where they are asked for. The status
/// tells whether they differ.
pub fn differ_profiles<R: Files + AllocGlobal + Eprint, W: Write>(
    rt: &R,
    asked: AskedComparison<'_>,
    screen: Screen,
    output: &mut W,
) -> Result<u8, ToolFault>
    ensures most { IfOk result (λ status. status ≤ 1) }
    ensures same { IfOk result (λ status. (p : Parts) × (q : Parts) × IsLoaded p × IsLoaded q × ((status ≡ 0) ↔ (p ≡ q))) }
{
    let p = load_profile(rt, asked.profile)?;
    let q = load_profile(rt, asked.other)?;
    let names = load_names(rt, asked.names, &[p.address(), q.address()])?;
    let names = names.as_ref();
    let (first, second) = (shown(rt, asked.profile)?, shown(rt, asked.other)?);
    let pair = Pair {
        p: &p,
        q: &q,
        first: first.as_str(),
        second: second.as_str(),
        names,
    };
    put_pair(rt, &pair, asked.scripts, asked.as_json, screen, output)
}
