//! What comes of the messages of a file, as JSON.
ghost use Rattle.std.specs.Prelude.{IfOk, IfSome};
ghost use Rattle.std.specs.String.{string_bytes};
ghost use Rattle.ascii_json.specs.Ascii.{IsPlainText};
ghost use Rattle.bus_reports.specs.inner.Objects.{IsObjectOf};

use crate::judged::{JudgedMessage, PartLeft};
use crate::left::{left_bus, left_name};
use crate::load::{BusLoad, LoadTimes};
use crate::report::{CheckOutcome, CheckReport, CheckedProfile};
use crate::told::letter_of;
use ascii_json::in_ascii;
use message_names::owned;
use rt1553_report::{NamesTable, digest_text};
use rt1553_verify::word_string;
use serde::Serialize;
use std::alloc::{AllocError, Global};

/// A profile of the bus.
#[derive(Drop, Serialize)]
struct ProfileEntry<'a> {
    file: &'a str,
    address: u8,
    sha256: Option<String>,
    canonical_sha256: Option<String>,
}

/// A message that doesn't end well.
#[derive(Drop, Serialize)]
struct TroubleEntry {
    line: u64,
    command: String,
    /// Null where it has none.
    name: Option<String>,
    alone: Vec<String>,
    in_run: Vec<String>,
}

/// What a line of the file leaves behind.
#[derive(Drop, Serialize)]
struct LeftEntry {
    line: u64,
    terminal: u8,
    left: &'static str,
    /// Null where it is on no bus.
    bus: Option<&'static str>,
}

/// What the messages of a rate take of a bus.
#[derive(Drop, Serialize)]
struct RateEntry {
    line: u64,
    rate: u32,
    bus: &'static str,
    messages: usize,
    time: u64,
    period: u64,
}

/// The load of a bus.
#[derive(Drop, Serialize)]
struct BusEntry {
    bus: &'static str,
    time: u64,
    tenths: u64,
    fits: bool,
}

/// The load of the buses.
#[derive(Drop, Serialize)]
struct LoadEntry {
    response: u16,
    gap: u16,
    rates: Vec<RateEntry>,
    buses: Vec<BusEntry>,
}

/// A table of names.
#[derive(Drop, Serialize)]
struct TableEntry<'a> {
    file: &'a str,
    sha256: Option<String>,
}

/// What comes of a file of messages.
#[derive(Drop, Serialize)]
struct CheckObject<'a> {
    file: &'a str,
    profiles: Vec<ProfileEntry<'a>>,
    passes: bool,
    every_order: bool,
    /// Null where the file was not played.
    messages: Option<usize>,
    troubles: Vec<TroubleEntry>,
    leaves: Vec<LeftEntry>,
    /// Null where no message has a rate.
    load: Option<LoadEntry>,
    names: Vec<TableEntry<'a>>,
    /// Null where the file was played.
    fault: Option<&'a str>,
    /// Null where the file was not read.
    sha256: Option<String>,
    program: &'a str,
    toolchain: &'a str,
    canonical: &'a str,
    /// Null where no date is given.
    date: Option<&'a str>,
}

/// The profiles of a bus.
fn profile_entries<'a>(
    alloc: Global,
    profiles: &[CheckedProfile<'a>],
) -> Result<Vec<ProfileEntry<'a>>, AllocError> {
    let mut entries = Vec::new(alloc);
    for profile in profiles {
        entries.push(ProfileEntry {
            file: profile.file,
            address: profile.address,
            sha256: digest_text(alloc, Some(profile.digest))?,
            canonical_sha256: digest_text(alloc, Some(profile.canonical))?,
        })?;
    }
    Ok(entries)
}

/// The tables of names of a bus.
fn table_entries<'a>(
    alloc: Global,
    tables: &[NamesTable<'a>],
) -> Result<Vec<TableEntry<'a>>, AllocError> {
    let mut entries = Vec::new(alloc);
    for table in tables {
        entries.push(TableEntry {
            file: table.file,
            sha256: digest_text(alloc, Some(table.digest))?,
        })?;
    }
    Ok(entries)
}

/// Reasons once more.
fn reasons_of(alloc: Global, reasons: &[String]) -> Result<Vec<String>, AllocError> {
    let mut copies = Vec::new(alloc);
    for reason in reasons {
        copies.push(String::from_str(alloc, reason.as_str())?)?;
    }
    Ok(copies)
}

/// The messages that are told.
fn trouble_entries(
    alloc: Global,
    messages: &[JudgedMessage],
) -> Result<Vec<TroubleEntry>, AllocError> {
    let mut entries = Vec::new(alloc);
    for message in messages {
        if message.has_trouble() {
            entries.push(TroubleEntry {
                line: message.line,
                command: word_string(alloc, message.command)?,
                name: owned(alloc, message.name.as_ref().map(|name| name.as_str()))?,
                alone: reasons_of(alloc, message.alone.as_slice())?,
                in_run: reasons_of(alloc, message.in_run.as_slice())?,
            })?;
        }
    }
    Ok(entries)
}

/// What lines leave behind.
fn left_entries(alloc: Global, lefts: &[PartLeft]) -> Result<Vec<LeftEntry>, AllocError> {
    let mut entries = Vec::new(alloc);
    for part in lefts {
        if let Some(left) = part.left {
            entries.push(LeftEntry {
                line: part.line,
                terminal: left.address,
                left: left_name(left.what),
                bus: left_bus(left.what),
            })?;
        }
    }
    Ok(entries)
}

/// What the messages of each rate take.
fn rate_entries(alloc: Global, load: &BusLoad) -> Result<Vec<RateEntry>, AllocError> {
    let mut entries = Vec::new(alloc);
    for row in load.rates.as_slice() {
        entries.push(RateEntry {
            line: row.line,
            rate: row.rate,
            bus: letter_of(row.bus),
            messages: row.messages,
            time: row.time,
            period: row.period(),
        })?;
    }
    Ok(entries)
}

/// The load of each bus.
fn bus_entries(alloc: Global, load: &BusLoad) -> Result<Vec<BusEntry>, AllocError> {
    let mut entries = Vec::new(alloc);
    for row in load.buses.as_slice() {
        entries.push(BusEntry {
            bus: letter_of(row.bus),
            time: row.time,
            tenths: row.tenths(),
            fits: row.fits(),
        })?;
    }
    Ok(entries)
}

/// The load, where there is one.
fn load_entry(
    alloc: Global,
    load: &Option<BusLoad>,
    times: LoadTimes,
) -> Result<Option<LoadEntry>, AllocError> {
    match load {
        Some(load) => Ok(Some(LoadEntry {
            response: times.response,
            gap: times.gap,
            rates: rate_entries(alloc, load)?,
            buses: bus_entries(alloc, load)?,
        })),
        None => Ok(None),
    }
}

/// What is told of a file that was played.
#[derive(Drop)]
struct JudgedEntries {
    troubles: Vec<TroubleEntry>,
    leaves: Vec<LeftEntry>,
    load: Option<LoadEntry>,
}

/// What is told of a file that was played: the messages, what lines leave behind, and the load.
fn judged_entries(
    alloc: Global,
    outcome: &CheckOutcome,
    times: LoadTimes,
) -> Result<JudgedEntries, AllocError> {
    match outcome {
        CheckOutcome::Judged(judged) => Ok(JudgedEntries {
            troubles: trouble_entries(alloc, judged.messages.as_slice())?,
            leaves: left_entries(alloc, judged.lefts.as_slice())?,
            load: load_entry(alloc, &judged.load, times)?,
        }),
        CheckOutcome::Refused(_) => Ok(JudgedEntries {
            troubles: Vec::new(alloc),
            leaves: Vec::new(alloc),
            load: None,
        }),
    }
}

/// What comes of a file as it is written.
fn object_of<'a>(alloc: Global, report: &'a CheckReport<'_>) -> Result<CheckObject<'a>, AllocError>
    ensures { IfOk result (IsObjectOf report.entry.now) }
{
    let JudgedEntries {
        troubles,
        leaves,
        load,
    } = judged_entries(alloc, &report.outcome, report.times)?;
    let head = report.head;
    Ok(CheckObject {
        file: report.file,
        profiles: profile_entries(alloc, report.profiles.as_slice())?,
        passes: report.outcome.passes(),
        every_order: report.outcome.in_every_order(),
        messages: report.outcome.messages(),
        troubles,
        leaves,
        load,
        names: table_entries(alloc, report.tables.as_slice())?,
        fault: report.outcome.fault(),
        sha256: digest_text(alloc, report.digest)?,
        program: head.program,
        toolchain: head.toolchain,
        canonical: head.canonical,
        date: head.date,
    })
}

/// What comes of a file as an object of JSON, one line without a line feed, of printable characters of ASCII. None where memory runs out.
pub fn check_json(alloc: Global, report: &CheckReport<'_>) -> Option<String>
    ensures { IfSome result (λ text. IsPlainText (string_bytes text)) }
{
    let object = object_of(alloc, report).ok()?;
    let json = serde_json::to_string(alloc, &object).ok()?;
    in_ascii(alloc, json.as_str()).ok()
}
