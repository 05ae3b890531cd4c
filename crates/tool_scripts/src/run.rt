//! The command `run`: the transcript of a script, as `rt1553` prints it, with faults for people.
ghost use Rattle.std.specs.Prelude.{◌≡◌, ◌⊎◌, false, IfErr, IfOk, OnOk, Some, ℕ};
ghost use Rattle.rt1553.specs.Engine.{RunCompletes};
ghost use Rattle.rt1553.specs.Report.{exit_status_of};
ghost use Rattle.rt1553.specs.declared.fault.EngineFault.TheVariants.{Script};
ghost use Rattle.tool_files.specs.Status.{tool_status};

use byte_streams::{FromWrite, MemorySource, Sink};
use rt1553::{EngineFault, RunFault, run};
use std::io::Write;
use std::rt::Files;
use tool_files::{
    NamedBytes, ToolFault, first_refused, read_script_file, read_tool_profile, refused_file,
    refused_profile,
};

/// How many bytes of a script are taken at once.
const PIECE: usize = 65_536;

/// The fault of a script that isn't played to its end; the line that is refused is told as `check-script` tells it.
fn play_fault<R: AllocGlobal>(rt: &R, script: NamedBytes<'_>, fault: RunFault) -> ToolFault
    ensures { (result ≡ ToolFault.Memory) ⊎ (tool_status result ≡ exit_status_of (Script fault)) }
{
    match fault {
        RunFault::Write => ToolFault::Output,
        RunFault::Read => ToolFault::Input,
        RunFault::Line(_) | RunFault::LongLine(_) | RunFault::TooLong => {
            let other = refused_file(rt, script.name, &fault);
            first_refused(rt, script.name, script.bytes, other)
        }
    }
}

/// Plays a script to the terminal of a profile, from power-up, and writes the transcript. Where a line is refused, that of the lines
/// before it is written.
fn play<R: AllocGlobal, W: Sink>(
    rt: &R,
    profile: NamedBytes<'_>,
    script: NamedBytes<'_>,
    sink: &mut W,
) -> Result<(), ToolFault>
    requires { W.has_failed sink.old ≡ false }
    ensures { OnOk result ((n : ℕ) × RunCompletes profile.entry.bytes.now (Some script.entry.bytes.now) (W.written sink.old) (W.written sink.new) n) }
{
    let mut source = MemorySource::new(script.bytes, PIECE, None);
    match run(rt.alloc(), profile.bytes, &mut source, sink) {
        Ok(_) => Ok(()),
        Err(EngineFault::Load(fault)) => Err(refused_profile(rt, profile, fault)),
        Err(EngineFault::Script(fault)) => Err(play_fault(rt, script, fault)),
    }
}

/// Plays the script of a file to the terminal of a profile and writes the transcript. The status is 0.
pub fn run_file<R: Files + AllocGlobal, W: Write>(
    rt: &R,
    profile: &str,
    script: &str,
    output: &mut W,
) -> Result<u8, ToolFault>
    ensures { IfOk result (λ status. status ≡ 0) }
{
    let text = read_tool_profile(rt, profile)?;
    let events = read_script_file(rt, script)?;
    let mut sink = FromWrite::new(output);
    play(
        rt,
        NamedBytes {
            name: profile,
            bytes: text.as_slice(),
        },
        NamedBytes {
            name: script,
            bytes: events.as_slice(),
        },
        &mut sink,
    )?;
    Ok(0)
}
