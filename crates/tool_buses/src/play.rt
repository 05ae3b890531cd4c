//! The command `bus`: a script that is played to the terminals of several profiles, on one bus.
ghost use Rattle.std.specs.Prelude.{◌≡◌, ◌≤◌, IfOk};
ghost use Rattle.tool_buses.specs.Troubles.{IsBusStatus, IsCheckStatus};

use crate::check::{CheckedBus, check_on_bus};
use crate::list::list_on_bus;
use crate::names::load_tables;
use crate::powered::{bus_of, in_order};
use crate::reading::read_script;
use crate::watch::WatchedBus;
use bus_reports::CheckedProfile;
use refused_lines::{first_line, misfit_of};
use rt1553::Normal;
use rt1553_expand::ScriptFor;
use rt1553_tool_args::{AskedBus, AskedCheck, BusOutput};
use script_terminals::{
    BusLineFault, BusScriptFault, BusTold, BusWarning, address_first, play_on_bus,
};
use std::alloc::{AllocError, Global};
use std::io::Write;
use std::rt::Files;
use terminal_bus::{Breach, TerminalBus};
use tool_files::{
    LoadedProfile, LoadedScript, ToolFault, canonical_digest, load_messages, load_profile_file,
    load_script, shown, write_bytes,
};

/// The profiles of files of these names, in their order.
fn load_all<R: Files + AllocGlobal>(
    rt: &R,
    names: &[&str],
) -> Result<Vec<LoadedProfile>, ToolFault> {
    let mut profiles = Vec::new(rt.alloc());
    for name in names {
        profiles.push(load_profile_file(rt, name)?)?;
    }
    Ok(profiles)
}

/// The terminals of profiles, in their order.
fn normals_of(alloc: Global, profiles: &[LoadedProfile]) -> Result<Vec<Normal>, AllocError> {
    let mut normals = Vec::new(alloc);
    for profile in profiles {
        normals.push(profile.normal)?;
    }
    Ok(normals)
}

/// What is reported of profiles, by the names of their files.
fn checked_profiles<'a>(
    alloc: Global,
    names: &[&'a str],
    profiles: &[LoadedProfile],
) -> Result<Vec<CheckedProfile<'a>>, AllocError> {
    let mut checked = Vec::new(alloc);
    for (name, profile) in names.iter().zip(profiles) {
        checked.push(CheckedProfile {
            file: name,
            address: profile.normal.address(),
            digest: profile.digest,
            canonical: canonical_digest(alloc, &profile.normal)?,
        })?;
    }
    Ok(checked)
}

/// The script of a file, or that of its messages, for the terminals of profiles.
fn load_for<R: Files + AllocGlobal>(
    rt: &R,
    asked: AskedBus<'_>,
    normals: &[Normal],
) -> Result<LoadedScript, ToolFault> {
    if !asked.expand {
        return load_script(rt, asked.script, None);
    }
    let mut addresses = Vec::new(rt.alloc());
    for normal in normals {
        addresses.push(normal.address())?;
    }
    load_messages(rt, asked.script, &ScriptFor::Bus(addresses))
}

/// The place of the terminal of this address.
fn place_of<R: AllocGlobal>(
    rt: &R,
    bus: &TerminalBus<Normal>,
    address: u8,
) -> Result<usize, ToolFault> {
    for place in 0..bus.len() {
        if let Some(it) = bus.answer(place) {
            if it.address == address {
                return Ok(place);
            }
        }
    }
    let told = format!(in rt.alloc(); "--alone: no profile has address {address:02}")?;
    Err(ToolFault::Refused(told))
}

/// Warns, on the standard error, of lines that break the discipline of a controller.
pub(crate) fn warn<R: AllocGlobal + Eprint>(
    rt: &R,
    name: &str,
    script: &LoadedScript,
    warnings: &[BusWarning],
) -> Result<(), ToolFault> {
    let name = shown(rt, name)?;
    for warning in warnings {
        let line = script.line_in_file(warning.line);
        let _ = match warning.breach {
            Breach::GapDuringReply(address) => eprintln!(rt;
                "{name}:{line}: warning: a gap while terminal {address:02} replies: another terminal can begin its reply"
            ),
            Breach::CommandToAwaited(address) => eprintln!(rt;
                "{name}:{line}: warning: a command to terminal {address:02}, for whose status word another terminal waits, which takes it for that"
            ),
            Breach::NotOnBus => eprintln!(rt; "{name}:{line}: warning: no word, noise or gap"),
        };
    }
    Ok(())
}

/// The line of this number, from 1; empty where there is none.
fn line_at(script: &[u8], number: u64) -> &[u8] {
    let mut rest = script;
    for _before in 1..number {
        if rest.is_empty() {
            return rest;
        }
        rest = first_line(rest).1;
    }
    if rest.is_empty() {
        return rest;
    }
    first_line(rest).0
}

/// Why a line is refused, behind its number: the column, and the reason in words.
pub(crate) fn reason_of(
    alloc: Global,
    line: &[u8],
    fault: BusLineFault,
) -> Result<String, AllocError> {
    match fault {
        BusLineFault::NoAddress => format!(in alloc;
            "1: error: a line of a subsystem begins with the address of its terminal, in two digits"
        ),
        BusLineFault::NotOfSubsystem => format!(in alloc;
            "1: error: an address stands only in front of write, vector, bit or flag"
        ),
        BusLineFault::HighAddress(address) => format!(in alloc;
            "1: error: no terminal has address {address}: addresses are 00 to 30"
        ),
        BusLineFault::NoTerminal(address) => format!(in alloc;
            "1: error: no profile has address {address:02}"
        ),
        BusLineFault::Long | BusLineFault::NoLine => misfit_text(alloc, line),
    }
}

/// What stands behind the address of a line, if one is in front, and how many bytes stand before that.
fn split_address(line: &[u8]) -> (usize, &[u8])
    ensures { result.0 ≤ 3 }
{
    if address_first(line).is_some() && line.len() >= 3 {
        (3, &line[3..])
    } else {
        (0, line)
    }
}

/// Where a line that is none stops being one, and why.
fn misfit_text(alloc: Global, line: &[u8]) -> Result<String, AllocError> {
    let (front, rest) = split_address(line);
    match misfit_of(rest) {
        Some(misfit) => {
            let column = misfit.column + front;
            format!(in alloc; "{column}: error: {}", misfit.reason)
        }
        None => format!(in alloc; "1: error: no line of a script"),
    }
}

/// The fault of a script that is not played to its end.
pub(crate) fn refused_script<R: AllocGlobal>(
    rt: &R,
    name: &str,
    script: &LoadedScript,
    fault: BusScriptFault,
) -> Result<ToolFault, ToolFault> {
    let name = shown(rt, name)?;
    let told = match fault {
        BusScriptFault::Line(number, fault) => {
            let text = line_at(script.text.as_slice(), number);
            let reason = reason_of(rt.alloc(), text, fault)?;
            let line = script.line_in_file(number);
            format!(in rt.alloc(); "{name}:{line}:{reason}")?
        }
        BusScriptFault::TooLong => format!(in rt.alloc();
            "{name}:1048577:1: error: a script has at most 1,048,576 lines"
        )?,
    };
    Ok(ToolFault::Refused(told))
}

/// Plays the script of a file to a bus, and writes what is to be told. Of a script that is refused, that of the lines before is written.
/// The status is 0.
fn write_played<R: AllocGlobal + Eprint, W: Write>(
    rt: &R,
    name: &str,
    script: &LoadedScript,
    mut bus: TerminalBus<Normal>,
    told: BusTold,
    output: &mut W,
) -> Result<u8, ToolFault>
    ensures { IfOk result (λ status. status ≡ 0) }
{
    let played = play_on_bus(rt.alloc(), &mut bus, script.text.as_slice(), told)?;
    warn(rt, name, script, played.warnings.as_slice())?;
    write_bytes(output, played.text.as_slice())?;
    match played.fault {
        Some(fault) => Err(refused_script(rt, name, script, fault)?),
        None => Ok(0),
    }
}

/// Checks the messages of a file on the bus of these profiles, with these tables of names.
fn check_bus<'a, R: Files + AllocGlobal + Eprint, W: Write>(
    rt: &R,
    asked: AskedCheck<'a>,
    script: &'a str,
    names: &[&'a str],
    tables: &[&'a str],
    output: &mut W,
) -> Result<u8, ToolFault>
    ensures status { IfOk result (IsCheckStatus asked.entry.format) }
    ensures most { IfOk result (λ status. status ≤ 4) }
{
    let profiles = load_all(rt, names)?;
    let normals = normals_of(rt.alloc(), profiles.as_slice())?;
    let bus = bus_of(rt, names, normals.as_slice())?;
    let tables = load_tables(rt, tables, normals.as_slice())?;
    let on = CheckedBus {
        profiles: checked_profiles(rt.alloc(), names, profiles.as_slice())?,
        normals: in_order(rt.alloc(), normals.as_slice())?,
        bus,
        names: tables,
    };
    check_on_bus(rt, asked, script, &on, output)
}

/// Plays the script of a file to the bus of these profiles, and writes what is asked for, but for a check.
fn play_script<R: Files + AllocGlobal + Eprint, W: Write>(
    rt: &R,
    asked: AskedBus<'_>,
    names: &[&str],
    output: &mut W,
) -> Result<u8, ToolFault>
    ensures { IfOk result (λ status. status ≡ 0) }
{
    let profiles = load_all(rt, names)?;
    let normals = normals_of(rt.alloc(), profiles.as_slice())?;
    let normals = normals.as_slice();
    let script = load_for(rt, asked, normals)?;
    let bus = bus_of(rt, names, normals)?;
    let name = asked.script;
    match asked.output {
        BusOutput::CameTo(address) => {
            let told = BusTold::CameTo(place_of(rt, &bus, address)?);
            write_played(rt, name, &script, bus, told, output)
        }
        BusOutput::Messages => {
            let ordered = in_order(rt.alloc(), normals)?;
            let watched = WatchedBus::power_up(rt.alloc(), &bus, ordered.as_slice())?;
            let read = read_script(rt.alloc(), &bus, script.text.as_slice())?;
            list_on_bus(rt, name, &script, &read, watched, output)
        }
        _ => write_played(rt, name, &script, bus, BusTold::Answers, output),
    }
}

/// Plays the script of a file to the terminals of profiles on one bus, and writes what is asked for: the transcript, what comes to one of
/// them, the messages, or which of these don't end well, with the names that tables give them. The status is that of `check_on_bus` for a
/// check, and else 0.
pub fn play_bus<'a, R: Files + AllocGlobal + Eprint, W: Write>(
    rt: &R,
    asked: AskedBus<'a>,
    names: &[&'a str],
    tables: &[&'a str],
    output: &mut W,
) -> Result<u8, ToolFault>
    ensures status { IfOk result (IsBusStatus asked.entry.output) }
    ensures most { IfOk result (λ status. status ≤ 4) }
{
    match asked.output {
        BusOutput::Check(check) => check_bus(rt, check, asked.script, names, tables, output),
        _ => play_script(rt, asked, names, output),
    }
}
