//! The command `messages`: the messages of a run, a line each.
ghost use Rattle.std.specs.Prelude.{◌≡◌, IfOk};

use crate::otherwise::warn_otherwise;
use ascii_json::named_json;
use bus_legal::Normal;
use bus_script::RunFault;
use byte_streams::{FromWrite, Sink, write_all};
use message_names::MessageNames;
use message_rows::{
    MessageCommands, ROW_HEADER, RowFilter, row_json, row_record, row_text, rows_header,
};
use refused_lines::first_line;
use rt1553_files::escaped;
use rt1553_tool_args::{AskedMessages, MessagesFormat};
use script_lines::{LineFault, MAX_LINE, MAX_LINES, read_event};
use std::alloc::{AllocError, Global};
use std::io::Write;
use std::rt::Files;
use terminal_messages::{ClosedMessages, KeptMessage, MessageWatch};
use tool_files::{LoadedScript, ToolFault, first_refused, load_profile, load_script, refused_file};
use tool_names::{load_names, name_of_command};

/// Which rows are printed, and how.
#[derive(Clone, Copy)]
struct RowPrinter<'a> {
    alloc: Global,
    /// The address of the terminal, 0 to 30.
    own: u8,
    names: Option<&'a MessageNames>,
    format: MessagesFormat,
    filter: RowFilter,
}

/// Adds bytes to those that are written.
fn put<S: Sink>(sink: &mut S, bytes: &[u8]) -> Result<(), ToolFault> {
    write_all(sink, bytes).map_err(|_| ToolFault::Output)
}

impl<'a> RowPrinter<'a> {
    /// Writes what stands above the rows.
    fn put_header<S: Sink>(&self, sink: &mut S) -> Result<(), ToolFault> {
        match self.format {
            MessagesFormat::Text => put(sink, ROW_HEADER.as_bytes()),
            MessagesFormat::Csv => {
                put(
                    sink,
                    rows_header(self.alloc, self.names.is_some())?.as_slice(),
                )
            }
            MessagesFormat::Json => Ok(()),
        }
    }

    /// The name of a message: None where there are no names, and that it has none where it has none.
    fn name_of(&self, message: &KeptMessage) -> Option<Option<&'a str>> {
        let names = self.names?;
        let command = MessageCommands::of(message).named(self.own);
        Some(command.and_then(|command| name_of_command(names, command.bits())))
    }

    /// A row of CSV.
    fn record_of(&self, message: &KeptMessage) -> Result<Vec<u8>, AllocError> {
        match self.name_of(message) {
            Some(name) => {
                let name = escaped(self.alloc, name.unwrap_or("").as_bytes())?;
                row_record(self.alloc, message, Some(name.as_str()))
            }
            None => row_record(self.alloc, message, None),
        }
    }

    /// Writes the row of a message.
    fn put_row<S: Sink>(&self, sink: &mut S, message: &KeptMessage) -> Result<(), ToolFault> {
        match self.format {
            MessagesFormat::Text => {
                let name = self.name_of(message).unwrap_or(None);
                let line = row_text(self.alloc, message, name)?;
                put(sink, line.as_str().as_bytes())
            }
            MessagesFormat::Csv => put(sink, self.record_of(message)?.as_slice()),
            MessagesFormat::Json => {
                let json = row_json(self.alloc, message, self.name_of(message));
                let line = named_json(self.alloc, json, self.names.is_some())?;
                put(sink, line.as_str().as_bytes())
            }
        }
    }

    /// Writes the rows of messages that are over and pass the filter.
    fn put_closed<S: Sink>(&self, sink: &mut S, closed: ClosedMessages) -> Result<(), ToolFault> {
        for message in [&closed.first, &closed.second, &closed.unheard] {
            match message {
                Some(message) if self.filter.passes(message) => self.put_row(sink, message)?,
                _ => {}
            }
        }
        Ok(())
    }
}

/// Plays a line of this number, and writes the rows of the messages that are over then. Gives the fault of a line that is refused.
fn play_line<S: Sink>(
    watch: &mut MessageWatch<Normal>,
    printer: RowPrinter<'_>,
    sink: &mut S,
    number: u64,
    line: &[u8],
) -> Result<Option<RunFault>, ToolFault> {
    match read_event(line) {
        Ok(Some(event)) => {
            printer.put_closed(sink, watch.step(event, number))?;
            Ok(None)
        }
        Ok(None) => Ok(None),
        Err(LineFault) => Ok(Some(RunFault::Line(number))),
    }
}

/// Plays a script, and writes the rows of its messages. Gives the fault for which the run ends before the script does.
fn play_rows<S: Sink>(
    watch: &mut MessageWatch<Normal>,
    printer: RowPrinter<'_>,
    sink: &mut S,
    script: &LoadedScript,
) -> Result<Option<RunFault>, ToolFault> {
    let mut rest = script.text.as_slice();
    let mut lines = 0;
    while !rest.is_empty() {
        let (line, more) = first_line(rest);
        if lines == MAX_LINES as u64 {
            return Ok(Some(RunFault::TooLong));
        }
        lines += 1;
        if line.len() > MAX_LINE {
            return Ok(Some(RunFault::LongLine(lines)));
        }
        let number = script.line_in_file(lines);
        if let Some(fault) = play_line(watch, printer, sink, number, line)? {
            return Ok(Some(fault));
        }
        rest = more;
    }
    printer.put_closed(sink, watch.end())?;
    Ok(None)
}

/// The fault of the script in the file of this name.
fn script_fault<R: AllocGlobal>(
    rt: &R,
    name: &str,
    script: &LoadedScript,
    fault: RunFault,
) -> ToolFault {
    let told = refused_file(rt, name, &fault);
    match fault {
        RunFault::Line(_) | RunFault::LongLine(_) => {
            first_refused(rt, name, script.text.as_slice(), told)
        }
        _ => told,
    }
}

/// Writes the messages of a run, a line each, as they end. The status is 0.
pub fn list_messages<R: Files + AllocGlobal + Eprint, W: Write>(
    rt: &R,
    asked: AskedMessages<'_>,
    output: &mut W,
) -> Result<u8, ToolFault>
    ensures { IfOk result (λ status. status ≡ 0) }
{
    let normal = load_profile(rt, asked.profile)?;
    let own = normal.address();
    let names = load_names(rt, asked.names, &[own])?;
    let script = load_script(rt, asked.script, asked.expand.then_some(own))?;
    warn_otherwise(rt, &normal, asked.script, &script)?;
    let printer = RowPrinter {
        alloc: rt.alloc(),
        own,
        names: names.as_ref(),
        format: asked.format,
        filter: RowFilter {
            address: asked.address,
            subaddress: asked.subaddress,
            errors: asked.errors,
        },
    };
    let mut sink = FromWrite::new(output);
    let mut watch = MessageWatch::power_up(normal.setup(), normal);
    printer.put_header(&mut sink)?;
    let ended = play_rows(&mut watch, printer, &mut sink, &script)?;
    sink.flush().map_err(|_| ToolFault::Output)?;
    match ended {
        Some(fault) => Err(script_fault(rt, asked.script, &script, fault)),
        None => Ok(0),
    }
}
