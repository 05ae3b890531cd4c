//! A table becomes a recording.
ghost use Rattle.std.specs.Prelude.{ℕ, ◌≡◌, ◌≤◌, ◌∷◌, [], true, false, List, IfOk, IfErr, IfSome, OnOk, OnErr, MatchOption};
ghost use Rattle.std.specs.Io.KnownBytes.{Appends};
ghost use Rattle.monitor_cells.specs.Cells.{is_time_text};
ghost use Rattle.monitor_tables.specs.Recording.{HeardAt, AreNotable, recording_text};
ghost use Rattle.monitor_cells.specs.Listening.{row_known};
ghost use Rattle.monitor_tables.specs.Hearing.{hearing_known, all_known};
ghost use Rattle.monitor_tables.specs.Header.{IsLayoutOf, AreLeftOut};
ghost use Rattle.monitor_tables.specs.Messages.{message_heard, message_known};
ghost use Rattle.monitor_tables.specs.Rows.{IsWordRow, one_noted, silence_noted, row_noted, hearing_noted, held_noted, IsApart, untimed, timed, message_noted, IsMessageRow, ComesBehind, IsHeardOf, layout_of};
ghost use Rattle.monitor_tables.specs.Refused.{EndsEarly};
ghost use Rattle.monitor_tables.specs.Table.{HasTold, TellsAll, records_of};
ghost use Rattle.monitor_tables.specs.inner.Puts.{PutsNoted, HasText, ToldTo, WordsSoFar, MessagesSoFar, WordsRefused, MessagesRefused, PutsRows};
ghost use Rattle.monitor_tables.specs.inner.Reads.{TellsMore, RefusesWord, RefusesMessage};

use crate::fault::{EarlyEnd, MonitorFault, RefusedRow};
use crate::header::{LeftOutColumn, TableLayout, left_out, read_layout};
use crate::hearing::{Hearing, begin_beside, comes_first};
use crate::lines::{end_early, put_heard};
use crate::message_times::MessageTimes;
use crate::messages::{MessageColumns, MessageRow};
use crate::records::{TableRecords, field_place};
use crate::words::WordColumns;
use byte_streams::{IoFailed, Sink};
use monitor_cells::{HeardItem, Listening, RecordingSetup, Silence, WordRow};
use std::alloc::Global;
use std::io::Read;

/// A table of which the header is read.
#[derive(Drop)]
pub struct MonitorTable<R: Read + Drop> {
    alloc: Global,
    records: TableRecords<R>,
    layout: TableLayout,
    /// The columns that are left out.
    pub left_out: Vec<LeftOutColumn>,
}

/// Reads the header of a table: what its rows are, and the columns that are left out.
fn read_header<R: Read + Drop>(
    alloc: Global,
    records: &mut TableRecords<R>,
) -> Result<(TableLayout, Vec<LeftOutColumn>), MonitorFault>
    ensures { IfOk result (λ read. (header : List (List ℕ)) × IsLayoutOf header read.0 × ((line : ℕ) × AreLeftOut read.0 header line read.1.items) × TellsMore R.remaining records.old records.new (header ∷ [])) }
{
    if !records.next()? {
        return Err(MonitorFault::NoKind(field_place(1, 0)));
    }
    let layout = read_layout(&records.row, records.line)?;
    let left_out = left_out(alloc, &layout, &records.row, records.line)?;
    Ok((layout, left_out))
}

/// Opens a table, and reads its header.
pub fn open_table<R: Read + Drop>(alloc: Global, source: R) -> Result<MonitorTable<R>, RefusedRow>
    ensures opened { IfOk result (λ table. (header : List (List ℕ)) × IsLayoutOf header (layout_of table) × ((line : ℕ) × AreLeftOut (layout_of table) header line table.left_out.items) × IfSome (R.remaining source) (λ text. HasTold R.remaining text (header ∷ []) (records_of table))) }
    ensures refused { IfErr result (λ refused. refused.rows ≡ 0) }
{
    let mut records = TableRecords::new(alloc, source);
    match read_header(alloc, &mut records) {
        Ok((layout, left_out)) => Ok(MonitorTable {
            alloc,
            records,
            layout,
            left_out,
        }),
        Err(fault) => Err(RefusedRow {
            fault,
            row: records.line,
            rows: 0,
        }),
    }
}

/// Writes what was heard without a time, if anything was.
fn put_some<W: Sink>(sink: &mut W, heard: Option<HeardItem>) -> Result<(), IoFailed>
    ensures puts { OnOk result (PutsNoted W.written sink.old sink.new (one_noted heard)) }
    ensures failed { OnErr result (W.has_failed sink.new ≡ true) }
{
    match heard {
        Some(heard) => put_heard(sink, "", heard),
        None => Ok(()),
    }
}

/// Writes what is heard of a silence.
fn put_silence<W: Sink>(sink: &mut W, silence: &Silence) -> Result<(), IoFailed>
    ensures puts { OnOk result (PutsNoted W.written sink.old sink.new (silence_noted silence.now)) }
    ensures failed { OnErr result (W.has_failed sink.new ≡ true) }
{
    put_some(sink, silence.maybe_silent)?;
    put_some(sink, silence.other_gap)?;
    put_some(sink, silence.own_gap)?;
    put_some(sink, silence.slot)?;
    put_some(sink, silence.other_second)?;
    put_some(sink, silence.own_second)?;
    put_some(sink, silence.pause)?;
    put_some(sink, silence.other_maybe)?;
    put_some(sink, silence.own_maybe)
}

/// Reads the next row that is a word, which is behind those above it. None at the end of the table.
fn next_word<R: Read + Drop>(
    records: &mut TableRecords<R>,
    columns: &WordColumns,
    hearing: &Hearing,
) -> Result<Option<WordRow>, MonitorFault>
    ensures refused { IfErr result (RefusesWord R.remaining columns.now hearing.now records.old records.new) }
    ensures next { IfOk result (λ next. MatchOption next (TellsAll R.remaining records.old []) (λ row. (fields : List (List ℕ)) × IsWordRow columns.now fields row × TellsMore R.remaining records.old records.new (fields ∷ []) × IsApart hearing.now row)) }
{
    if !records.next()? {
        return Ok(None);
    }
    let row = columns.read_row(&records.row, records.line)?;
    if hearing.overlaps(&row) {
        return Err(MonitorFault::Overlap(records.place(columns.time)));
    }
    if hearing.is_early(&row) {
        return Err(MonitorFault::Order(records.place(columns.time)));
    }
    if hearing.has_unclear_order(&row) {
        return Err(MonitorFault::UnclearOrder(records.place(columns.time)));
    }
    Ok(Some(row))
}

/// Writes what is heard with the word of a row. `next` is when the next word on the other bus begins, if one was read.
fn put_word<W: Sink>(
    sink: &mut W,
    listening: &mut Listening,
    row: &WordRow,
    next: Option<u64>,
) -> Result<(), IoFailed>
    requires { is_time_text row.now.time.text.bytes ≡ true }
    ensures puts { OnOk result (PutsNoted W.written sink.old sink.new (row_noted listening.old row.now next) × (listening.new ≡ row_known listening.old row.now)) }
    ensures failed { OnErr result (W.has_failed sink.new ≡ true) }
{
    let silence = listening.silence_before(row, next);
    put_silence(sink, &silence)?;
    let heard = listening.hear(row);
    put_heard(sink, row.time.text.as_str(), heard)
}

/// Writes the first of the word of a row and the one that is held back, and holds the other back.
fn put_word_row<W: Sink>(sink: &mut W, hearing: &mut Hearing, row: &WordRow) -> Result<(), IoFailed>
    requires text { is_time_text row.now.time.text.bytes ≡ true }
    requires held { HasText hearing.old }
    ensures puts { OnOk result (PutsNoted W.written sink.old sink.new (hearing_noted hearing.old row.now) × (hearing.new ≡ hearing_known hearing.old row.now)) }
    ensures failed { OnErr result (W.has_failed sink.new ≡ true) }
{
    let Some(held) = hearing.held else {
        hearing.held = Some(*row);
        return Ok(());
    };
    if comes_first(&hearing.listening, row, &held) {
        let next = begin_beside(row.bus, &held);
        put_word(sink, &mut hearing.listening, row, next)
    } else {
        let next = begin_beside(held.bus, row);
        hearing.held = Some(*row);
        put_word(sink, &mut hearing.listening, &held, next)
    }
}

/// Writes the word that is held back, if there is one.
fn put_held<W: Sink>(sink: &mut W, hearing: &mut Hearing) -> Result<(), IoFailed>
    requires { HasText hearing.old }
    ensures puts { OnOk result (PutsNoted W.written sink.old sink.new (held_noted hearing.old) × (hearing.new.listening ≡ all_known hearing.old)) }
    ensures failed { OnErr result (W.has_failed sink.new ≡ true) }
{
    match hearing.held {
        Some(held) => put_word(sink, &mut hearing.listening, &held, None),
        None => Ok(()),
    }
}

/// How many rows of a table were written, and why not all, if one was refused.
#[derive(Clone, Copy)]
pub struct RowsPut {
    pub rows: u64,
    /// The line of the row that was read last, or looked for.
    pub line: u64,
    pub fault: Option<MonitorFault>,
}

/// Writes what is heard with rows that are words, up to one that is refused.
fn put_word_rows<R: Read + Drop, W: Sink>(
    records: &mut TableRecords<R>,
    columns: &WordColumns,
    hearing: &mut Hearing,
    sink: &mut W,
) -> Result<RowsPut, IoFailed>
    requires { HasText hearing.old }
    ensures puts { IfOk result (λ put. (told : List (List (List ℕ))) × ToldTo R.remaining records.old told put × WordsSoFar W.written columns.now told hearing.old hearing.new sink.old sink.new × WordsRefused R.remaining columns.now hearing.new records.old told put) }
    ensures failed { IfErr result (λ _. W.has_failed sink.new ≡ true) }
{
    'rows: for rows in 0..u64::MAX {
        match next_word(records, columns, hearing) {
            Ok(Some(row)) => put_word_row(sink, hearing, &row)?,
            Ok(None) => return Ok(RowsPut {
                rows,
                line: records.line,
                fault: None,
            }),
            Err(fault) => {
                return Ok(RowsPut {
                    rows,
                    line: records.line,
                    fault: Some(fault),
                });
            }
        }
    }
    Ok(RowsPut {
        rows: u64::MAX,
        line: records.line,
        fault: Some(MonitorFault::Read),
    })
}

/// Writes what is heard of a table of words, up to a row that is refused.
fn put_words<R: Read + Drop, W: Sink>(
    records: &mut TableRecords<R>,
    columns: &WordColumns,
    setup: &RecordingSetup,
    sink: &mut W,
) -> Result<RowsPut, IoFailed>
    ensures puts { IfOk result (PutsRows R.remaining W.written (TableLayout.Words columns.now) setup.now records.old sink.old sink.new) }
    ensures failed { IfErr result (λ _. W.has_failed sink.new ≡ true) }
{
    let mut hearing = Hearing::new(*setup);
    let put = put_word_rows(records, columns, &mut hearing, sink)?;
    put_held(sink, &mut hearing)?;
    match put.fault {
        None => {
            put_silence(sink, &hearing.listening.last_silence())?;
            Ok(put)
        }
        Some(_) => Ok(put),
    }
}

/// Writes what was heard, without times.
fn put_others<W: Sink>(sink: &mut W, heard: &[HeardItem]) -> Result<(), IoFailed>
    ensures puts { OnOk result (PutsNoted W.written sink.old sink.new (untimed heard.now)) }
    ensures failed { OnErr result (W.has_failed sink.new ≡ true) }
{
    for item in heard {
        put_heard(sink, "", *item)?;
    }
    Ok(())
}

/// Writes what is heard of a message, at this time, and behind its first command one thing more, if there is one.
fn put_message<W: Sink>(
    sink: &mut W,
    time: &str,
    more: Option<HeardItem>,
    heard: &[HeardItem],
) -> Result<(), IoFailed>
    requires { is_time_text time.now ≡ true }
    ensures puts { OnOk result (PutsNoted W.written sink.old sink.new (timed time.now more heard.now)) }
    ensures failed { OnErr result (W.has_failed sink.new ≡ true) }
{
    let Some((first, others)) = heard.split_first() else {
        return Ok(());
    };
    put_heard(sink, time, *first)?;
    put_some(sink, more)?;
    put_others(sink, others)
}

/// A row that is a message, and what is heard of it.
#[derive(Drop)]
struct NextMessage {
    row: MessageRow,
    heard: Vec<HeardItem>,
}

/// Reads the next row that is a message, which is behind those above it. None at the end of the table.
fn next_message<R: Read + Drop>(
    alloc: Global,
    records: &mut TableRecords<R>,
    columns: &MessageColumns,
    times: &MessageTimes,
) -> Result<Option<NextMessage>, MonitorFault>
    ensures refused { IfErr result (RefusesMessage R.remaining columns.now times.now records.old records.new) }
    ensures next { IfOk result (λ next. MatchOption next (TellsAll R.remaining records.old []) (λ message. (fields : List (List ℕ)) × IsMessageRow columns.now fields message.row × TellsMore R.remaining records.old records.new (fields ∷ []) × ComesBehind times.now message.row × (message.heard.items ≡ message_heard times.now.setup.address message.row))) }
{
    if !records.next()? {
        return Ok(None);
    }
    let row = columns.read_row(alloc, &records.row, records.line)?;
    if row.time.nanos < times.begin {
        return Err(MonitorFault::Order(records.place(columns.time)));
    }
    if times.begins_within(&row) {
        return Err(MonitorFault::Within(records.place(columns.time)));
    }
    if times.has_unclear_begin(&row) {
        return Err(MonitorFault::UnclearOrder(records.place(columns.time)));
    }
    let heard = row.heard(alloc, times.setup.address)?;
    Ok(Some(NextMessage { row, heard }))
}

/// Writes what is heard with a row that is a message.
fn put_message_row<W: Sink>(
    message: &NextMessage,
    times: &mut MessageTimes,
    sink: &mut W,
) -> Result<(), IoFailed>
    requires heard { message.now.heard.items ≡ message_heard times.old.setup.address message.now.row }
    requires time { is_time_text message.now.row.time.text.bytes ≡ true }
    ensures puts { OnOk result (PutsNoted W.written sink.old sink.new (message_noted times.old message.now.row) × (times.new ≡ message_known times.old message.now.row)) }
    ensures failed { OnErr result (W.has_failed sink.new ≡ true) }
{
    let row = &message.row;
    let silence = times.silence_between(row);
    let late = times.late_gap(row);
    put_silence(sink, &silence)?;
    times.take(row);
    put_message(sink, row.time.text.as_str(), late, message.heard.as_slice())
}

/// Writes what is heard with rows that are messages, up to one that is refused.
fn put_message_rows<R: Read + Drop, W: Sink>(
    alloc: Global,
    records: &mut TableRecords<R>,
    columns: &MessageColumns,
    times: &mut MessageTimes,
    sink: &mut W,
) -> Result<RowsPut, IoFailed>
    ensures puts { IfOk result (λ put. (told : List (List (List ℕ))) × ToldTo R.remaining records.old told put × MessagesSoFar W.written columns.now told times.old times.new sink.old sink.new × MessagesRefused R.remaining columns.now times.new records.old told put) }
    ensures failed { IfErr result (λ _. W.has_failed sink.new ≡ true) }
{
    'rows: for rows in 0..u64::MAX {
        match next_message(alloc, records, columns, times) {
            Ok(Some(message)) => put_message_row(&message, times, sink)?,
            Ok(None) => return Ok(RowsPut {
                rows,
                line: records.line,
                fault: None,
            }),
            Err(fault) => {
                return Ok(RowsPut {
                    rows,
                    line: records.line,
                    fault: Some(fault),
                });
            }
        }
    }
    Ok(RowsPut {
        rows: u64::MAX,
        line: records.line,
        fault: Some(MonitorFault::Read),
    })
}

/// Writes what is heard of a table of messages, up to a row that is refused.
fn put_messages<R: Read + Drop, W: Sink>(
    alloc: Global,
    records: &mut TableRecords<R>,
    columns: &MessageColumns,
    setup: &RecordingSetup,
    sink: &mut W,
) -> Result<RowsPut, IoFailed>
    ensures puts { IfOk result (PutsRows R.remaining W.written (TableLayout.Messages columns.now) setup.now records.old sink.old sink.new) }
    ensures failed { IfErr result (λ _. W.has_failed sink.new ≡ true) }
{
    let mut times = MessageTimes::new(*setup);
    let put = put_message_rows(alloc, records, columns, &mut times, sink)?;
    match put.fault {
        None => {
            put_silence(sink, &times.silence_behind())?;
            Ok(put)
        }
        Some(_) => Ok(put),
    }
}

/// Writes what is heard of a table, up to a row that is refused.
fn put_rows<R: Read + Drop, W: Sink>(
    table: &mut MonitorTable<R>,
    setup: &RecordingSetup,
    sink: &mut W,
) -> Result<RowsPut, IoFailed>
    ensures puts { IfOk result (PutsRows R.remaining W.written (layout_of table.old) setup.now (records_of table.old) sink.old sink.new) }
    ensures failed { IfErr result (λ _. W.has_failed sink.new ≡ true) }
{
    let alloc = table.alloc;
    let layout = table.layout;
    match layout {
        TableLayout::Words(columns) => put_words(&mut table.records, &columns, setup, sink),
        TableLayout::Messages(columns) => {
            put_messages(alloc, &mut table.records, &columns, setup, sink)
        }
    }
}

/// Writes the recording that a table says: a script that states what the terminal sent. If a row is refused, that of the rows before it
/// stands, and a last line says so. The sink may hold bytes back: flush it.
pub fn write_recording<R: Read + Drop, W: Sink>(
    table: &mut MonitorTable<R>,
    setup: &RecordingSetup,
    sink: &mut W,
) -> Result<(), EarlyEnd>
    ensures whole { OnOk result ((told : List (List (List ℕ))) × TellsAll R.remaining (records_of table.old) told × (ns : List HeardAt) × IsHeardOf (layout_of table.old) setup.now told ns × AreNotable ns × Appends (W.written sink.old) (W.written sink.new) (recording_text ns)) }
    ensures early { IfErr result (EndsEarly R.remaining W.written W.has_failed (layout_of table.old) setup.now (records_of table.old) sink.old sink.new) }
{
    let put = put_rows(table, setup, sink)?;
    match put.fault {
        None => Ok(()),
        Some(fault) => Err(end_early(
            sink,
            RefusedRow {
                fault,
                row: put.line,
                rows: put.rows,
            },
        )),
    }
}
