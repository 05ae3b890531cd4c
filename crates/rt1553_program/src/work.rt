//! What the program does.
ghost use Rattle.std.specs.Prelude.{◌≡◌, ◌≤◌, ◌⊎◌, ℕ, List, Option, false, true, length, codes, Ok, OnOk, IfOk, IfErr, IsErrAnd};
ghost use Rattle.std.specs.IoError.{error_kind};
ghost use Rattle.std.specs.Io.KnownBytes.{Appends, Keeps};
ghost use Rattle.rt1553.specs.Load.{IsNotLoaded};
ghost use Rattle.rt1553.specs.Canon.{IsCanon};
ghost use Rattle.rt1553.specs.Compare.{IsNotCompared};
ghost use Rattle.rt1553.specs.Engine.{RunCompletes, RunStops, OnLoad, OnScript};
ghost use Rattle.rt1553_program.specs.Causes.{IsOfFile, IsOfOutput, IsWithoutArgs, RefusesUntouched, IsOfRun, IsOfJob};
ghost use Rattle.script_lines.specs.EventLine.{event_line, script_text};
ghost use Rattle.rt1553_program.specs.Work.{Accepted, TellsVerdict, IsComparison, Does};

use crate::fault::Fault;
use rt1553::{
    EngineFault, Event, FromRead, FromWrite, LoadFault, RunFault, Script, Sink, Source, Verdict,
    canonical, compare, load, run, write_all, write_event,
};
use rt1553_args::{Job, read_args};
use rt1553_files::{PROFILE_BYTES, open_file, read_file};
use std::alloc::Global;
use std::env;
use std::io::{self, ErrorKind, Read, Write};
use std::rt::{Env, Files};

/// The profile that the program without arguments runs.
const STANDARD_PROFILE: &[u8] = b"address = 5";

/// The status where all was done, and a comparison finds no difference.
const SAME: u8 = 0;

/// The status of a comparison that finds a difference.
const DIFFERENT: u8 = 1;

/// Writes all the bytes.
fn write_out<W: Sink>(writer: &mut W, bytes: &[u8]) -> Result<(), Fault>
    ensures ok { OnOk result (Appends (W.written writer.old) (W.written writer.new) bytes.now) }
    ensures refused { IfErr result (IsOfOutput (W.has_failed writer.new)) }
{
    write_all(writer, bytes).map_err(|_| Fault::Output)
}

/// Flushes the writer.
fn flush_out<W: Sink>(writer: &mut W) -> Result<(), Fault>
    ensures ok { OnOk result (Keeps (W.written writer.old) (W.written writer.new)) }
    ensures refused { IfErr result (IsOfOutput (W.has_failed writer.new)) }
{
    writer.flush().map_err(|_| Fault::Output)
}

/// Writes all the bytes and flushes the writer.
fn write_flushed<W: Sink>(writer: &mut W, bytes: &[u8]) -> Result<(), Fault>
    ensures ok { OnOk result (Appends (W.written writer.old) (W.written writer.new) bytes.now) }
    ensures refused { IfErr result (IsOfOutput (W.has_failed writer.new)) }
{
    write_out(writer, bytes)?;
    flush_out(writer)
}

/// Writes the line of an event.
fn write_event_line<W: Sink>(writer: &mut W, event: &Event) -> Result<(), Fault>
    ensures ok { OnOk result (Appends (W.written writer.old) (W.written writer.new) (event_line event.now)) }
    ensures refused { IfErr result (IsOfOutput (W.has_failed writer.new)) }
{
    write_out(writer, write_event(event).as_str().as_bytes())?;
    write_out(writer, b"\n")?;
    Ok(())
}

/// Writes a script, an event a line.
fn write_script<W: Sink>(writer: &mut W, script: &Script) -> Result<(), Fault>
    ensures ok { OnOk result (Appends (W.written writer.old) (W.written writer.new) (script_text script.now.items)) }
    ensures refused { IfErr result (IsOfOutput (W.has_failed writer.new)) }
{
    for event in script.as_slice() {
        write_event_line(writer, event)?;
    }
    flush_out(writer)
}

/// Loads a text, and says so.
fn check<W: Sink>(alloc: Global, text: &[u8], writer: &mut W) -> Result<(), Fault>
    ensures ok { OnOk result (Accepted text.now × Appends (W.written writer.old) (W.written writer.new) (codes "ok\n")) }
    ensures refused { IfErr result (RefusesUntouched (IsNotLoaded text.now) (writer.new ≡ writer.old) (W.has_failed writer.new)) }
{
    load(alloc, text)?;
    write_flushed(writer, b"ok\n")
}

/// Writes the canonical bytes of a text.
fn canon<W: Sink>(alloc: Global, text: &[u8], writer: &mut W) -> Result<(), Fault>
    ensures ok { OnOk result ((bytes : List ℕ) × IsCanon text.now bytes × Appends (W.written writer.old) (W.written writer.new) bytes) }
    ensures refused { IfErr result (RefusesUntouched (λ fault. (fault ≡ LoadFault.Memory) ⊎ IsNotLoaded text.now fault) (writer.new ≡ writer.old) (W.has_failed writer.new)) }
{
    let bytes = canonical(alloc, text)?;
    write_flushed(writer, bytes.as_slice())
}

/// Compares two texts, tells the verdict, and gives the status to end with.
fn tell_verdict<W: Sink>(
    alloc: Global,
    first: &[u8],
    second: &[u8],
    writer: &mut W,
) -> Result<u8, Fault>
    ensures ok { IfOk result (TellsVerdict first.now second.now (W.written writer.old) (W.written writer.new)) }
    ensures refused { IfErr result (RefusesUntouched (IsNotCompared first.now second.now) (writer.new ≡ writer.old) (W.has_failed writer.new)) }
{
    match compare(alloc, first, second)? {
        Verdict::Same => {
            write_flushed(writer, b"same\n")?;
            Ok(SAME)
        }
        Verdict::Differ(script) => {
            write_script(writer, &script)?;
            Ok(DIFFERENT)
        }
    }
}

/// Runs a profile over the script that a reader gives.
fn run_over<R: Source, W: Sink>(
    alloc: Global,
    profile: &[u8],
    reader: &mut R,
    writer: &mut W,
) -> Result<(), Fault>
    requires reader { R.has_failed reader.old ≡ false }
    requires writer { W.has_failed writer.old ≡ false }
    ensures ok { OnOk result ((n : ℕ)
        × RunCompletes profile.now (R.left reader.old) (W.written writer.old) (W.written writer.new) n) }
    ensures not_loaded { IfErr result (IsOfRun (λ fault. OnLoad fault (λ f.
        IsNotLoaded profile.now f × (writer.new ≡ writer.old)))) }
    ensures stopped { IfErr result (IsOfRun (λ fault. OnScript fault
        (RunStops profile.now (R.left reader.old) (R.left reader.new) (W.written writer.old) (W.written writer.new)))) }
    ensures read_failed { IfErr result (λ fault. fault ≡ Fault.Engine (EngineFault.Script RunFault.Read) → R.has_failed reader.new ≡ true) }
    ensures write_failed { IfErr result (λ fault. fault ≡ Fault.Engine (EngineFault.Script RunFault.Write) → W.has_failed writer.new ≡ true) }
{
    match run(alloc, profile, reader, writer) {
        Ok(_) => Ok(()),
        Err(fault) => Err(Fault::Engine(fault)),
    }
}

/// The bytes of a profile file, of at most 1,048,576 bytes.
fn read_profile_file<R: Files + AllocGlobal>(rt: &R, name: &str) -> Result<Vec<u8>, Fault>
    ensures few { IfOk result (λ bytes. length bytes.items ≤ 1048576) }
    ensures refused { IfErr result IsOfFile }
{
    Ok(read_file(rt, name, PROFILE_BYTES)?)
}

/// Runs a profile over a script, both files. The profile is read and the script is opened before anything
/// is loaded.
fn run_files<R: Files + AllocGlobal, W: Sink>(
    rt: &R,
    profile: &str,
    script: &str,
    writer: &mut W,
) -> Result<(), Fault>
    requires { W.has_failed writer.old ≡ false }
    ensures refused { IfErr result IsOfJob }
{
    let text = read_profile_file(rt, profile)?;
    let input = open_file(rt, script)?;
    run_over(
        rt.alloc(),
        text.as_slice(),
        &mut FromRead::new(input),
        writer,
    )
}

/// Compares two profiles, both files, and gives the status to end with.
fn compare_files<R: Files + AllocGlobal, W: Sink>(
    rt: &R,
    first: &str,
    second: &str,
    writer: &mut W,
) -> Result<u8, Fault>
    ensures ok { IfOk result (λ status. status ≤ 1) }
    ensures tells { IfOk result (λ status. (p : List ℕ) × (q : List ℕ) × TellsVerdict p q (W.written writer.old) (W.written writer.new) status) }
    ensures refused { IfErr result IsOfJob }
{
    let p = read_profile_file(rt, first)?;
    let q = read_profile_file(rt, second)?;
    tell_verdict(rt.alloc(), p.as_slice(), q.as_slice(), writer)
}

/// Does a job, and gives the status to end with.
fn do_job<R: Files + AllocGlobal, I: Read + Drop, W: Sink>(
    rt: &R,
    job: Job<'_>,
    input: I,
    writer: &mut W,
) -> Result<u8, Fault>
    requires { W.has_failed writer.old ≡ false }
    ensures ok { IfOk result (λ status. status ≤ 1) }
    ensures does { IfOk result (Does job.entry (W.written writer.old) (W.written writer.new)) }
    ensures different { IfOk result (λ status. status ≡ 1 → IsComparison job.entry) }
    ensures refused { IfErr result IsOfJob }
{
    match job {
        Job::Standard => run_over(
            rt.alloc(),
            STANDARD_PROFILE,
            &mut FromRead::new(input),
            writer,
        )?,
        Job::Check(name) => {
            let text = read_profile_file(rt, name)?;
            check(rt.alloc(), text.as_slice(), writer)?;
        }
        Job::Canon(name) => {
            let text = read_profile_file(rt, name)?;
            canon(rt.alloc(), text.as_slice(), writer)?;
        }
        Job::Run(profile, script) => run_files(rt, profile, script, writer)?,
        Job::Compare(first, second) => return compare_files(rt, first, second, writer),
    }
    Ok(SAME)
}

/// Gives the arguments as they were found. Arguments that are not text are none that the program accepts.
fn given<T: Drop>(found: io::Result<T>) -> Result<T, Fault>
    ensures ok { IfOk result (λ args. found ≡ Ok args) }
    ensures refused { IfErr result (λ fault. IsErrAnd found (λ error. IsWithoutArgs (error_kind error ≡ ErrorKind.OutOfMemory) fault)) }
{
    match found {
        Ok(args) => Ok(args),
        Err(error) => match error.kind() {
            ErrorKind::OutOfMemory => Err(Fault::Memory),
            _ => Err(Fault::Usage),
        },
    }
}

/// Does what the command line asks for, and gives the status to end with.
pub fn work<R: Env + Files + AllocGlobal, I: Read + Drop, O: Write + Drop>(
    rt: &R,
    input: I,
    output: O,
) -> Result<u8, Fault>
    ensures { IfOk result (λ status. status ≤ 1) }
{
    let args = given(env::args(rt))?;
    let args: Vec<String> = args.collect(rt.alloc())?;
    let mut writer = FromWrite::new(output);
    let job = read_args(rt.alloc(), args.as_slice())?;
    do_job(rt, job, input, &mut writer)
}
