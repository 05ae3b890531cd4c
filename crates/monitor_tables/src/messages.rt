//! Tables whose rows are messages.
ghost use Rattle.std.specs.Prelude.{◌≡◌, ◌++◌, false, OnOk, IfOk, MatchResult};
ghost use Rattle.csv.specs.Records.{fields_of};
ghost use Rattle.monitor_tables.specs.Header.{AreMessageColumns};
ghost use Rattle.monitor_tables.specs.Refused.{IsNoMessageRow};
ghost use Rattle.monitor_tables.specs.inner.Faults.{IsNoSomeWord, IsNoWords, IsUnclear};
ghost use Rattle.monitor_tables.specs.Rows.{has_error_in, SaysSomeWord, SaysWords, IsMessageRow};
ghost use Rattle.monitor_tables.specs.Messages.{word_by, is_own_status, status_heard, command_heard, data_heard, gaps_heard, behind_gaps, may_be_late, is_from_controller, commands_heard, reply_heard, message_heard};

use crate::column::MonitorColumn;
use crate::fault::MonitorFault;
use crate::header::{find_column, need_column};
use crate::records::{field_of, field_place, refuse_extra};
use crate::words::{has_error_in, has_text_in, read_bus_field, read_time_field, read_word_field};
use bus_terminal::Sent;
use bus_word::{Bus, Command};
use csv::ByteRecord;
use monitor_cells::{
    HeardItem, MonitorTime, WordSync, is_meant_for, kind_of_sync, read_words_cell,
};
use std::alloc::{AllocError, Global};

/// Where the rows have their fields, by numbers from 0.
#[derive(Clone, Copy)]
pub struct MessageColumns {
    pub time: usize,
    bus: usize,
    command: usize,
    command2: Option<usize>,
    words: Option<usize>,
    status: Option<usize>,
    status2: Option<usize>,
    error: Option<usize>,
    /// How many fields the header has.
    width: usize,
}

/// A row: a message on a bus. What is not there was not seen.
#[derive(Drop)]
pub struct MessageRow {
    pub time: MonitorTime,
    pub bus: Bus,
    pub command: u16,
    pub command2: Option<u16>,
    pub words: Vec<u16>,
    pub status: Option<u16>,
    pub status2: Option<u16>,
}

/// The word in a field of a row, if there is text.
fn read_some_word(
    row: &ByteRecord,
    line: u64,
    field: Option<usize>,
) -> Result<Option<u16>, MonitorFault>
    ensures { MatchResult result (SaysSomeWord (fields_of row.now) field) (IsNoSomeWord (fields_of row.now) line field) }
{
    match field {
        Some(field) if has_text_in(row, Some(field)) => {
            Ok(Some(read_word_field(row, line, field)?))
        }
        _ => Ok(None),
    }
}

/// The words in a field of a row, if there is such a column.
fn read_words_field(
    alloc: Global,
    row: &ByteRecord,
    line: u64,
    field: Option<usize>,
) -> Result<Vec<u16>, MonitorFault>
    ensures { MatchResult result (λ words. SaysWords (fields_of row.now) field words.items) (IsNoWords (fields_of row.now) line field) }
{
    let Some(field) = field else {
        return Ok(Vec::new(alloc));
    };
    match read_words_cell(alloc, field_of(row, field))? {
        Some(words) => Ok(words),
        None => Err(MonitorFault::Words(field_place(line, field))),
    }
}

impl MessageColumns {
    /// The columns of a header, which names `command` in this field.
    pub fn read(
        header: &ByteRecord,
        line: u64,
        command: usize,
    ) -> Result<MessageColumns, MonitorFault>
        ensures { IfOk result (λ columns. AreMessageColumns (fields_of header.now) columns × (columns.command ≡ command)) }
    {
        Ok(MessageColumns {
            time: need_column(header, line, MonitorColumn::Time)?,
            bus: need_column(header, line, MonitorColumn::Bus)?,
            command,
            command2: find_column(header, line, MonitorColumn::Command2)?,
            words: find_column(header, line, MonitorColumn::Data)?,
            status: find_column(header, line, MonitorColumn::Status)?,
            status2: find_column(header, line, MonitorColumn::Status2)?,
            error: find_column(header, line, MonitorColumn::Error)?,
            width: header.len(),
        })
    }

    /// Refuses a row with an error.
    fn refuse_error(&self, row: &ByteRecord, line: u64) -> Result<(), MonitorFault>
        ensures { MatchResult result (λ _. has_error_in (fields_of row.now) self.now.error ≡ false) (IsUnclear (fields_of row.now) line self.now.error) }
    {
        match self.error {
            Some(field) if has_error_in(row, Some(field)) => {
                Err(MonitorFault::Unclear(field_place(line, field)))
            }
            _ => Ok(()),
        }
    }

    /// What a row says.
    pub fn read_row(
        &self,
        alloc: Global,
        row: &ByteRecord,
        line: u64,
    ) -> Result<MessageRow, MonitorFault>
        ensures { MatchResult result (IsMessageRow self.now (fields_of row.now)) (IsNoMessageRow self.now (fields_of row.now) line) }
    {
        refuse_extra(row, line, self.width)?;
        self.refuse_error(row, line)?;
        Ok(MessageRow {
            time: read_time_field(row, line, self.time)?,
            bus: read_bus_field(row, line, self.bus)?,
            command: read_word_field(row, line, self.command)?,
            command2: read_some_word(row, line, self.command2)?,
            words: read_words_field(alloc, row, line, self.words)?,
            status: read_some_word(row, line, self.status)?,
            status2: read_some_word(row, line, self.status2)?,
        })
    }
}

/// Whether a status word is that of the terminal of this address.
pub fn is_own_status(address: u8, status: Option<u16>) -> bool
    ensures { result ≡ is_own_status address status }
{
    match status {
        Some(bits) => Command::of(bits).address() == address,
        None => false,
    }
}

/// A word of the terminal, or of another.
fn word_by(is_own: bool, bus: Bus, sync: WordSync, bits: u16) -> HeardItem
    ensures { result ≡ word_by is_own bus sync bits }
{
    if is_own {
        let kind = kind_of_sync(sync);
        HeardItem::Reply(Sent { bus, kind, bits })
    } else {
        HeardItem::Word(bus, sync, bits)
    }
}

/// Pushes a command word, if there is one.
fn push_command(
    heard: &mut Vec<HeardItem>,
    bus: Bus,
    command: Option<u16>,
) -> Result<(), AllocError>
    ensures { OnOk result (heard.new.items ≡ heard.old.items ++ command_heard bus command) }
{
    if let Some(bits) = command {
        heard.push(HeardItem::Word(bus, WordSync::Command, bits))?;
    }
    Ok(())
}

/// Pushes a status word, if there is one.
fn push_status(
    heard: &mut Vec<HeardItem>,
    address: u8,
    bus: Bus,
    status: Option<u16>,
) -> Result<(), AllocError>
    ensures { OnOk result (heard.new.items ≡ heard.old.items ++ status_heard address bus status) }
{
    if let Some(bits) = status {
        let is_own = Command::of(bits).address() == address;
        heard.push(word_by(is_own, bus, WordSync::Status, bits))?;
    }
    Ok(())
}

/// Pushes data words of the terminal, or of another.
fn push_data(
    heard: &mut Vec<HeardItem>,
    is_own: bool,
    bus: Bus,
    words: &[u16],
) -> Result<(), AllocError>
    ensures { OnOk result (heard.new.items ≡ heard.old.items ++ data_heard is_own bus words.now) }
{
    for word in words {
        heard.push(word_by(is_own, bus, WordSync::Data, *word))?;
    }
    Ok(())
}

/// Pushes the gap before words, and the second one, which may have come if they may be late.
fn push_gaps(heard: &mut Vec<HeardItem>, bus: Bus, may_be_late: bool) -> Result<(), AllocError>
    ensures { OnOk result (heard.new.items ≡ heard.old.items ++ gaps_heard may_be_late bus) }
{
    heard.push(HeardItem::Gap(bus))?;
    if may_be_late {
        heard.push(HeardItem::MaybeGap(bus))?;
    }
    Ok(())
}

/// Pushes words, if there are any, behind the gap before them.
fn push_part(
    heard: &mut Vec<HeardItem>,
    bus: Bus,
    may_be_late: bool,
    part: &[HeardItem],
) -> Result<(), AllocError>
    ensures { OnOk result (heard.new.items ≡ heard.old.items ++ behind_gaps may_be_late bus part.now) }
{
    if part.is_empty() {
        return Ok(());
    }
    push_gaps(heard, bus, may_be_late)?;
    heard.extend_from_slice(part)
}

impl MessageRow {
    /// Whether the controller sends the data words, to one terminal or to all.
    fn is_from_controller(&self) -> bool
        ensures { result ≡ is_from_controller self.now }
    {
        self.command2.is_none() && !Command::of(self.command).transmit()
    }

    /// Whether the reply is that of another, from which the terminal is to receive: it may have given up waiting for that.
    fn may_be_late(&self, address: u8) -> bool
        ensures { result ≡ may_be_late address self.now }
    {
        self.command2.is_some()
            && is_meant_for(address, self.command)
            && !is_own_status(address, self.status)
    }

    /// What the controller sends.
    fn commands_heard(&self, alloc: Global) -> Result<Vec<HeardItem>, AllocError>
        ensures { IfOk result (λ heard. heard.items ≡ commands_heard self.now) }
    {
        let mut heard = Vec::new(alloc);
        push_command(&mut heard, self.bus, Some(self.command))?;
        push_command(&mut heard, self.bus, self.command2)?;
        if self.is_from_controller() {
            push_data(&mut heard, false, self.bus, self.words.as_slice())?;
        }
        Ok(heard)
    }

    /// What the terminal sends that is to reply first.
    fn reply_heard(&self, alloc: Global, address: u8) -> Result<Vec<HeardItem>, AllocError>
        ensures { IfOk result (λ heard. heard.items ≡ reply_heard address self.now) }
    {
        let mut heard = Vec::new(alloc);
        push_status(&mut heard, address, self.bus, self.status)?;
        if !self.is_from_controller() {
            let is_own = is_own_status(address, self.status);
            push_data(&mut heard, is_own, self.bus, self.words.as_slice())?;
        }
        Ok(heard)
    }

    /// The status word of the terminal that received what the other sent.
    fn last_heard(&self, alloc: Global, address: u8) -> Result<Vec<HeardItem>, AllocError>
        ensures { IfOk result (λ heard. heard.items ≡ status_heard address self.now.bus self.now.status2) }
    {
        let mut heard = Vec::new(alloc);
        push_status(&mut heard, address, self.bus, self.status2)?;
        Ok(heard)
    }

    /// What is heard of the message.
    pub fn heard(&self, alloc: Global, address: u8) -> Result<Vec<HeardItem>, AllocError>
        ensures { IfOk result (λ heard. heard.items ≡ message_heard address self.now) }
    {
        let mut heard = self.commands_heard(alloc)?;
        let reply = self.reply_heard(alloc, address)?;
        push_part(
            &mut heard,
            self.bus,
            self.may_be_late(address),
            reply.as_slice(),
        )?;
        let last = self.last_heard(alloc, address)?;
        push_part(&mut heard, self.bus, false, last.as_slice())?;
        Ok(heard)
    }
}
