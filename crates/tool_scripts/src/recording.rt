//! The command `recording`: the table of a monitor as the recording of a terminal.
ghost use Rattle.std.specs.Prelude.{◌≡◌, IfOk};

use byte_streams::{FromWrite, Sink};
use monitor_cells::{RecordingSetup, read_time};
use monitor_tables::{
    EarlyEnd, LeftOutColumn, MonitorFault, end_early, open_table, write_recording,
};
use rt1553_tool_args::AskedRecording;
use std::io::Write;
use std::rt::Files;
use tool_files::{ToolFault, failed_read, open_named, refused_file, shown};

/// The shortest silence that can be a pause, in nanoseconds: a terminal that receives from another waits at most so long for
/// its status word (MIL-STD-1553B Notice 2, 30.9).
const SHORTEST_PAUSE: u64 = 60_000;

/// The nanoseconds of a silence that is given in microseconds; this number where none is given.
fn silence(given: Option<&str>, default: u64) -> Result<u64, ToolFault> {
    let Some(text) = given else {
        return Ok(default);
    };
    match read_time(text.as_bytes()) {
        Some(time) => Ok(time.nanos),
        None => Err(ToolFault::Usage(
            "--gap, --no-response, --pause, --after-reset and --after-self-test are in microseconds, as 4.5",
        )),
    }
}

/// The terminal that is recorded, and the silences that count.
fn setup_of(asked: AskedRecording<'_>) -> Result<RecordingSetup, ToolFault> {
    let usual = RecordingSetup::of(asked.address);
    let pause = silence(asked.pause, usual.pause)?;
    if pause < SHORTEST_PAUSE {
        return Err(ToolFault::Usage("--pause is at least 60 microseconds"));
    }
    Ok(RecordingSetup {
        address: asked.address,
        gap: silence(asked.gap, usual.gap)?,
        no_response: silence(asked.no_response, usual.no_response)?,
        pause,
        after_reset: silence(asked.after_reset, usual.after_reset)?,
        after_self_test: silence(asked.after_self_test, usual.after_self_test)?,
    })
}

/// The fault of the table in the file of this name, of which the recording ends early.
fn table_fault<R: Files + AllocGlobal>(rt: &R, name: &str, end: EarlyEnd) -> ToolFault {
    let refused = match end {
        EarlyEnd::Write => return ToolFault::Output,
        EarlyEnd::Refused(refused) => refused,
    };
    match refused.fault {
        MonitorFault::Memory => ToolFault::Memory,
        MonitorFault::Read => failed_read(rt, name),
        _ => refused_file(rt, name, &refused),
    }
}

/// Warns, on the standard error, of columns that are left out.
fn warn<R: AllocGlobal + Eprint>(
    rt: &R,
    name: &str,
    left_out: &[LeftOutColumn],
) -> Result<(), ToolFault> {
    let name = shown(rt, name)?;
    for column in left_out {
        let _ = eprintln!(rt; "{name}:{column}");
    }
    Ok(())
}

/// Writes the recording of a terminal that the table of a monitor has. What was written before a fault stands, and a last line says so.
pub fn record_table<R: Files + AllocGlobal + Eprint, W: Write>(
    rt: &R,
    asked: AskedRecording<'_>,
    output: &mut W,
) -> Result<u8, ToolFault>
    ensures { IfOk result (λ status. status ≡ 0) }
{
    let setup = setup_of(asked)?;
    let file = open_named(rt, asked.table)?;
    let mut sink = FromWrite::new(output);
    let written = match open_table(rt.alloc(), file) {
        Ok(mut table) => {
            warn(rt, asked.table, table.left_out.as_slice())?;
            write_recording(&mut table, &setup, &mut sink)
        }
        Err(refused) => Err(end_early(&mut sink, refused)),
    };
    let flushed = sink.flush();
    match (written, flushed) {
        (Err(end), _) => Err(table_fault(rt, asked.table, end)),
        (Ok(()), Err(_)) => Err(ToolFault::Output),
        (Ok(()), Ok(())) => Ok(0),
    }
}
