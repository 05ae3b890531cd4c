//! The commands `check`, `canon` and `compare`: what `rt1553` prints, with faults for people.
ghost use Rattle.std.specs.Prelude.{◌≡◌, ◌≤◌, ◌++◌, IfOk, IfErr, List, OnOk, ℕ};
ghost use Rattle.rt1553.specs.Canon.{IsCanon};
ghost use Rattle.script_lines.specs.EventLine.{event_line, script_text};
ghost use Rattle.tool_scripts.specs.Results.{IsOfTerminal, IsRefusalOf, IsVerdict, RefusesEither};

use bus_terminal::Event;
use rt1553::{Verdict, canonical, compare, load, write_event};
use std::alloc::{AllocError, Global};
use std::io::Write;
use std::rt::Files;
use tool_files::{
    DIFFERENT, NamedBytes, ToolFault, read_tool_profile, refused_profile, write_bytes,
};

/// Refuses a text that isn't of a terminal.
fn check_text<R: AllocGlobal>(rt: &R, profile: NamedBytes<'_>) -> Result<(), ToolFault>
    ensures ok { OnOk result (IsOfTerminal profile.entry.bytes.now) }
    ensures refused { IfErr result (IsRefusalOf profile.entry.bytes.now) }
{
    match load(rt.alloc(), profile.bytes) {
        Ok(_) => Ok(()),
        Err(fault) => Err(refused_profile(rt, profile, fault)),
    }
}

/// Writes `ok` where a profile is accepted. The status is 0.
pub fn check_profile<R: Files + AllocGlobal, W: Write>(
    rt: &R,
    name: &str,
    output: &mut W,
) -> Result<u8, ToolFault>
    ensures { IfOk result (λ status. (text : List ℕ) × IsOfTerminal text × (status ≡ 0)) }
{
    let text = read_tool_profile(rt, name)?;
    let bytes = text.as_slice();
    check_text(rt, NamedBytes { name, bytes })?;
    write_bytes(output, b"ok\n")?;
    Ok(0)
}

/// The canonical text of a profile.
fn canonical_text<R: AllocGlobal>(rt: &R, profile: NamedBytes<'_>) -> Result<Vec<u8>, ToolFault>
    ensures ok { IfOk result (λ bytes. IsCanon profile.entry.bytes.now bytes.items) }
    ensures refused { IfErr result (IsRefusalOf profile.entry.bytes.now) }
{
    match canonical(rt.alloc(), profile.bytes) {
        Ok(bytes) => Ok(bytes),
        Err(fault) => Err(refused_profile(rt, profile, fault)),
    }
}

/// Writes the canonical text of a profile. The status is 0.
pub fn write_canonical<R: Files + AllocGlobal, W: Write>(
    rt: &R,
    name: &str,
    output: &mut W,
) -> Result<u8, ToolFault>
    ensures { IfOk result (λ status. (text : List ℕ) × (bytes : List ℕ) × IsCanon text bytes × (status ≡ 0)) }
{
    let text = read_tool_profile(rt, name)?;
    let bytes = text.as_slice();
    let canon = canonical_text(rt, NamedBytes { name, bytes })?;
    write_bytes(output, canon.as_slice())?;
    Ok(0)
}

/// Pushes the line of an event.
fn push_line(text: &mut Vec<u8>, event: &Event) -> Result<(), AllocError>
    ensures { OnOk result (text.new.items ≡ text.old.items ++ event_line event.now) }
{
    text.extend_from_slice(write_event(event).as_str().as_bytes())?;
    text.push(b'\n')?;
    Ok(())
}

/// Gives events as a script.
fn script_of(alloc: Global, events: &[Event]) -> Result<Vec<u8>, AllocError>
    ensures { IfOk result (λ text. text.items ≡ script_text events.now) }
{
    let mut text = Vec::new(alloc);
    for event in events {
        push_line(&mut text, event)?;
    }
    Ok(text)
}

/// What is printed of two profiles, and the status that tells whether they differ.
fn verdict_of<R: AllocGlobal>(
    rt: &R,
    first: NamedBytes<'_>,
    second: NamedBytes<'_>,
) -> Result<(Vec<u8>, u8), ToolFault>
    ensures ok { IfOk result (λ verdict. IsVerdict first.entry.bytes.now second.entry.bytes.now verdict.0.items verdict.1) }
    ensures refused { IfErr result (RefusesEither first.entry.bytes.now second.entry.bytes.now) }
{
    match compare(rt.alloc(), first.bytes, second.bytes) {
        Ok(Verdict::Same) => Ok((Vec::from_slice(rt.alloc(), b"same\n")?, 0)),
        Ok(Verdict::Differ(script)) => Ok((script_of(rt.alloc(), script.as_slice())?, DIFFERENT)),
        // the fault is that of the first, unless the first is accepted
        Err(fault) => match load(rt.alloc(), first.bytes) {
            Ok(_) => Err(refused_profile(rt, second, fault)),
            Err(fault) => Err(refused_profile(rt, first, fault)),
        },
    }
}

/// Writes `same`, or a script that the terminals of two profiles answer differently. The status tells whether they differ.
pub fn compare_profiles<R: Files + AllocGlobal, W: Write>(
    rt: &R,
    first: &str,
    second: &str,
    output: &mut W,
) -> Result<u8, ToolFault>
    ensures most { IfOk result (λ status. status ≤ 1) }
    ensures is { IfOk result (λ status. (p : List ℕ) × (q : List ℕ) × (text : List ℕ) × IsVerdict p q text status) }
{
    let p = read_tool_profile(rt, first)?;
    let q = read_tool_profile(rt, second)?;
    let (text, status) = verdict_of(
        rt,
        NamedBytes {
            name: first,
            bytes: p.as_slice(),
        },
        NamedBytes {
            name: second,
            bytes: q.as_slice(),
        },
    )?;
    write_bytes(output, text.as_slice())?;
    Ok(status)
}
