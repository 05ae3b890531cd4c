//! The command `acceptance`: the test that tells a terminal from every other.
ghost use Rattle.std.specs.Prelude.{◌≡◌, IfOk};

use ascii_json::named_json;
use bus_legal::Normal;
use byte_streams::{FromWrite, Sink, write_all};
use message_names::MessageNames;
use rt1553_acceptance::{Progress, write_acceptance};
use rt1553_files::escaped;
use rt1553_results::{Rows, TestRow, csv_header, csv_row, json_row};
use rt1553_tool_args::TestFormat;
use std::alloc::{AllocError, Global};
use std::io::Write;
use std::rt::Files;
use tool_files::{ToolFault, load_profile};
use tool_names::{load_names, name_of_command};

/// After how many exchanges it is told again how many were written.
const STEP: u32 = 64;

/// Tells on the standard error how many exchanges were written.
#[derive(Drop)]
struct Counter<'a, R: Eprint> {
    rt: &'a R,
    /// Whether anybody looks at it.
    is_shown: bool,
    written: u32,
}

impl<R: Eprint> Progress for Counter<'_, R> {
    fn exchange_written(&mut self) {
        self.written = self.written.saturating_add(1);
        if self.is_shown && self.written % STEP == 0 {
            // where this can't be told, the test is written all the same
            let _ = eprint!(self.rt; "\r{} exchanges", self.written);
        }
    }
}

impl<R: Eprint> Counter<'_, R> {
    /// Takes back what was told.
    fn end(&self) {
        if self.is_shown {
            let _ = eprint!(self.rt; "\r\x1b[K");
        }
    }
}

/// Writes the test as a script that states its answers.
fn put_script<P: Progress, W: Write>(
    alloc: Global,
    normal: &Normal,
    names: Option<&MessageNames>,
    progress: &mut P,
    output: &mut W,
) -> Result<(), ToolFault> {
    let names = match names {
        Some(names) => names.printed(alloc)?,
        None => MessageNames::new(alloc),
    };
    let mut sink = FromWrite::new(output);
    if write_acceptance(normal, &names, &mut sink, progress).is_err() || sink.flush().is_err() {
        return Err(ToolFault::Output);
    }
    Ok(())
}

/// The name of the message of a command as it stands in a table: escaped, and empty for none; None where there are no names.
fn csv_name(
    alloc: Global,
    names: Option<&MessageNames>,
    command: u16,
) -> Result<Option<String>, AllocError> {
    let Some(names) = names else {
        return Ok(None);
    };
    let name = name_of_command(names, command).unwrap_or("");
    Ok(Some(escaped(alloc, name.as_bytes())?))
}

/// Adds bytes to those that are written.
fn put_bytes<S: Sink>(sink: &mut S, bytes: &[u8]) -> Result<(), ToolFault> {
    write_all(sink, bytes).map_err(|_| ToolFault::Output)
}

/// Writes a row of the test: in CSV, or as an object of JSON on a line.
fn put_row<S: Sink>(
    alloc: Global,
    normal: &Normal,
    names: Option<&MessageNames>,
    is_csv: bool,
    row: &TestRow,
    sink: &mut S,
) -> Result<(), ToolFault> {
    if is_csv {
        let name = csv_name(alloc, names, row.exchange.command)?;
        let name = name.as_ref().map(|name| name.as_str().as_bytes());
        return put_bytes(sink, csv_row(alloc, normal, row, name)?.as_slice());
    }
    let name = names.map(|names| name_of_command(names, row.exchange.command));
    let line = named_json(alloc, json_row(alloc, normal, row, name), names.is_some())?;
    put_bytes(sink, line.as_str().as_bytes())
}

/// Writes the test as a table: in CSV, or an object of JSON a line.
fn put_table<P: Progress, W: Write>(
    alloc: Global,
    normal: &Normal,
    names: Option<&MessageNames>,
    is_csv: bool,
    progress: &mut P,
    output: &mut W,
) -> Result<(), ToolFault> {
    let mut sink = FromWrite::new(output);
    if is_csv {
        put_bytes(&mut sink, csv_header(alloc, names.is_some())?.as_slice())?;
    }
    let mut rows = Rows::new(normal);
    while let Some(row) = rows.next() {
        put_row(alloc, normal, names, is_csv, &row, &mut sink)?;
        progress.exchange_written();
    }
    sink.flush().map_err(|_| ToolFault::Output)
}

/// Writes the acceptance test of the terminal of a profile. The status is 0.
pub fn write_test<R: Files + AllocGlobal + Eprint, W: Write>(
    rt: &R,
    profile: &str,
    names: Option<&str>,
    format: TestFormat,
    shows_progress: bool,
    output: &mut W,
) -> Result<u8, ToolFault>
    ensures { IfOk result (λ status. status ≡ 0) }
{
    let normal = load_profile(rt, profile)?;
    let names = load_names(rt, names, &[normal.address()])?;
    let names = names.as_ref();
    let mut progress = Counter {
        rt,
        is_shown: shows_progress,
        written: 0,
    };
    let outcome = match format {
        TestFormat::Script => put_script(rt.alloc(), &normal, names, &mut progress, output),
        TestFormat::Csv => put_table(rt.alloc(), &normal, names, true, &mut progress, output),
        TestFormat::Json => put_table(rt.alloc(), &normal, names, false, &mut progress, output),
    };
    progress.end();
    outcome?;
    Ok(0)
}
