//! The command `coverage`: what recordings show of a terminal.
ghost use Rattle.std.specs.Prelude.{◌≡◌, IfOk, map, option_map, string_bytes};
ghost use Rattle.rt1553_tool_args.specs.declared.command.CoverageFormat.TheVariants.{Html};
ghost use Rattle.report_pages.specs.CoveragePage.{IsCoveragePage};

use crate::verify::recording_fault;
use crate::warned::warn_of_hand_overs;
use bus_legal::Normal;
use message_names::MessageNames;
use recording_coverage::{Coverage, CoverageTable, count_events, coverage_json, coverage_text};
use report_pages::coverage_page;
use rt1553_tool_args::{AskedCoverage, CoverageFormat};
use script_recordings::recorded_events;
use std::alloc::Global;
use std::io::Write;
use std::rt::Files;
use tool_files::{ToolFault, load_profile, load_script, write_bytes};
use tool_names::load_names;

/// Counts what came of the messages in the recording of a file.
fn count_file<R: Files + AllocGlobal + Eprint>(
    rt: &R,
    normal: &Normal,
    name: &str,
    expand: bool,
    coverage: &mut Coverage,
) -> Result<(), ToolFault> {
    let script = load_script(rt, name, expand.then_some(normal.address()))?;
    match recorded_events(rt.alloc(), normal, script.text.as_slice()) {
        Ok(events) => {
            count_events(coverage, normal, events.as_slice());
            warn_of_hand_overs(rt, name, script.text.as_slice())
        }
        Err(fault) => Err(recording_fault(rt, name, &script, fault)),
    }
}

/// Gives what was counted as JSON, on a line of its own.
fn coverage_line(
    alloc: Global,
    table: &CoverageTable,
    names: Option<&MessageNames>,
) -> Result<String, ToolFault> {
    let mut line = coverage_json(alloc, table, names).ok_or(ToolFault::Memory)?;
    line.push_str("\n")?;
    Ok(line)
}

/// Gives what was counted as it is written.
fn coverage_told(
    alloc: Global,
    asked: AskedCoverage<'_>,
    scripts: &[&str],
    table: &CoverageTable,
    names: Option<&MessageNames>,
) -> Result<String, ToolFault>
    ensures { asked.entry.format ≡ Html → IfOk result (λ text. IsCoveragePage asked.entry.profile.now (map (λ file. file.now) scripts.now) (option_map (λ n. n.now) names.entry) table.now.legal.items table.now.illegal.items (string_bytes text)) }
{
    match asked.format {
        CoverageFormat::Text => Ok(coverage_text(alloc, table, names)?),
        CoverageFormat::Json => coverage_line(alloc, table, names),
        CoverageFormat::Html => Ok(coverage_page(alloc, asked.profile, scripts, table, names)?),
    }
}

/// Writes what came of the messages of a terminal in recordings of files, all together.
pub fn cover_scripts<R: Files + AllocGlobal + Eprint, W: Write>(
    rt: &R,
    asked: AskedCoverage<'_>,
    scripts: &[&str],
    output: &mut W,
) -> Result<u8, ToolFault>
    ensures { IfOk result (λ status. status ≡ 0) }
{
    let normal = load_profile(rt, asked.profile)?;
    let names = load_names(rt, asked.names, &[normal.address()])?;
    let mut coverage = Coverage::none(rt.alloc())?;
    'scripts: for name in scripts {
        count_file(rt, &normal, name, asked.expand, &mut coverage)?;
    }
    let table = CoverageTable::of(rt.alloc(), &normal, &coverage)?;
    let text = coverage_told(rt.alloc(), asked, scripts, &table, names.as_ref())?;
    write_bytes(output, text.as_str().as_bytes())?;
    Ok(0)
}
