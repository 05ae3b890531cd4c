//! How long messages keep a bus busy, by the formats of the standard. This is arithmetic: nothing is played for it.
ghost use Rattle.std.specs.Prelude.{◌≡◌, ◌++◌, length, filter, nat_le, flat_map, IfOk, OnOk};
ghost use Rattle.bus_word.specs.declared.word.Bus.TheVariants.{A, B};
ghost use Rattle.terminal_rules.specs.Buses.{same_bus};
ghost use Rattle.bus_reports.specs.Load.{IsLoadOf, busy_on, data_count, load_row, message_time, one_time, period, rate_row, group_rows, share, tenths, time_on, told_row, transfer_time};

use bus_word::{Bus, Command};
use std::alloc::{AllocError, Global};
use terminal_state::same_bus;

/// How long a word takes, in microseconds: 20 bits at a million bits a second.
const WORD_TIME: u64 = 20;

/// How many microseconds a second has.
const SECOND: u64 = 1_000_000;

/// A message as it is put on a bus.
#[derive(Clone, Copy)]
pub struct PutMessage {
    pub bus: Bus,
    /// Its first command word.
    pub command: u16,
    /// In a transfer between two terminals, the command word to that which transmits.
    pub transmitter: Option<u16>,
}

/// The times between words, in microseconds.
#[derive(Clone, Copy)]
pub struct LoadTimes {
    /// Before a status word.
    pub response: u16,
    /// Before the next message.
    pub gap: u16,
}

/// A rate, and the messages that are sent at it.
#[derive(Drop)]
pub struct RateGroup {
    /// The line of the file that tells it.
    pub line: u64,
    /// How many times a second.
    pub rate: u32,
    pub messages: Vec<PutMessage>,
}

/// What the messages of a rate take of a bus.
#[derive(Clone, Copy)]
pub struct RateRow {
    pub line: u64,
    pub rate: u32,
    pub bus: Bus,
    /// How many messages there are on the bus.
    pub messages: usize,
    /// How long they take together, in microseconds.
    pub time: u64,
}

/// The load of one of the two buses.
#[derive(Clone, Copy)]
pub struct LoadRow {
    pub bus: Bus,
    /// How many microseconds of each second it is busy.
    pub time: u64,
}

/// The load of the buses by the messages that have a rate.
#[derive(Drop)]
pub struct BusLoad {
    /// For each rate, in the order of the file, each bus on which it has messages.
    pub rates: Vec<RateRow>,
    /// Each bus that has messages with a rate.
    pub buses: Vec<LoadRow>,
}

/// How many data words a message has to which a terminal replies.
fn data_count(command: Command) -> u8
    ensures { result ≡ data_count command }
{
    if command.is_mode() {
        u8::from(command.code() >= 16)
    } else {
        command.count()
    }
}

/// How long a message of one command takes. A broadcast has no words but those of the controller.
fn one_time(command: Command, times: LoadTimes) -> u64
    ensures { result ≡ one_time command times }
{
    if command.is_broadcast() {
        WORD_TIME * (1 + u64::from(command.expected()))
    } else {
        WORD_TIME * (2 + u64::from(data_count(command))) + u64::from(times.response)
    }
}

/// How long a transfer between two terminals takes, by the commands to the receiver and to the transmitter. The receivers of a broadcast
/// send no status word.
fn transfer_time(receiver: Command, transmitter: Command, times: LoadTimes) -> u64
    ensures { result ≡ transfer_time receiver transmitter times }
{
    let sent = WORD_TIME * (3 + u64::from(data_count(transmitter))) + u64::from(times.response);
    if receiver.is_broadcast() {
        sent
    } else {
        sent + WORD_TIME + u64::from(times.response)
    }
}

impl PutMessage {
    /// How long it takes, with the gap behind it.
    pub fn time(self, times: LoadTimes) -> u64
        ensures { result ≡ message_time times self }
    {
        let command = Command::of(self.command);
        let time = match self.transmitter {
            Some(word) => transfer_time(command, Command::of(word), times),
            None => one_time(command, times),
        };
        time + u64::from(times.gap)
    }
}

/// How many of messages are on a bus.
fn messages_on(messages: &[PutMessage], bus: Bus) -> usize
    ensures { result ≡ length (filter (λ m. same_bus bus m.bus) messages.now) }
{
    messages.iter().filter(|it| same_bus(bus, it.bus)).count()
}

/// How long messages take that are on a bus. A sum that is too large for a number stands at the largest.
fn time_on(messages: &[PutMessage], bus: Bus, times: LoadTimes) -> u64
    ensures { result ≡ time_on bus times messages.now }
{
    let mut time = 0u64;
    let mut left = messages.len();
    while left > 0 {
        left -= 1;
        if same_bus(bus, messages[left].bus) {
            time = messages[left].time(times).saturating_add(time);
        }
    }
    time
}

/// What the messages of a rate take of a bus.
fn rate_row(group: &RateGroup, bus: Bus, times: LoadTimes) -> RateRow
    ensures { result ≡ rate_row bus times group.now }
{
    let messages = group.messages.as_slice();
    RateRow {
        line: group.line,
        rate: group.rate,
        bus,
        messages: messages_on(messages, bus),
        time: time_on(messages, bus, times),
    }
}

impl RateRow {
    /// After how many microseconds the messages come again, rounded down; 0 where they never come.
    pub fn period(&self) -> u64
        ensures { result ≡ period self.now.rate }
    {
        if self.rate == 0 {
            0
        } else {
            SECOND / u64::from(self.rate)
        }
    }

    /// How many microseconds of each second they take.
    fn share(&self) -> u64
        ensures { result ≡ share self.now }
    {
        self.time.saturating_mul(u64::from(self.rate))
    }
}

/// How many microseconds of each second a bus is busy with what rows tell.
fn busy_on(rows: &[RateRow], bus: Bus) -> u64
    ensures { result ≡ busy_on bus rows.now }
{
    let mut time = 0u64;
    let mut left = rows.len();
    while left > 0 {
        left -= 1;
        if same_bus(bus, rows[left].bus) {
            time = rows[left].share().saturating_add(time);
        }
    }
    time
}

/// How many rows are of a bus.
fn rows_on(rows: &[RateRow], bus: Bus) -> usize
    ensures { result ≡ length (filter (λ row. same_bus bus row.bus) rows.now) }
{
    rows.iter().filter(|it| same_bus(bus, it.bus)).count()
}

impl LoadRow {
    /// How many thousandths of the bus are busy, rounded up.
    pub fn tenths(&self) -> u64
        ensures { result ≡ tenths self.now.time }
    {
        let rest = u64::from(self.time % 1000 > 0);
        self.time / 1000 + rest
    }

    /// Whether the bus has so much time.
    pub fn fits(&self) -> bool
        ensures { result ≡ nat_le self.now.time 1000000 }
    {
        self.time <= SECOND
    }
}

/// Adds a row, if it has messages.
fn push_row(rows: &mut Vec<RateRow>, row: RateRow) -> Result<(), AllocError>
    ensures { OnOk result (rows.new.items ≡ rows.old.items ++ told_row row) }
{
    if row.messages > 0 {
        rows.push(row)?;
    }
    Ok(())
}

/// Adds the rows of a rate: one for each bus on which it has messages.
fn push_rows(rows: &mut Vec<RateRow>, group: &RateGroup, times: LoadTimes) -> Result<(), AllocError>
    ensures { OnOk result (rows.new.items ≡ rows.old.items ++ group_rows times group.now) }
{
    push_row(rows, rate_row(group, Bus::A, times))?;
    push_row(rows, rate_row(group, Bus::B, times))
}

/// The rows of all rates.
fn rate_rows(
    alloc: Global,
    groups: &[RateGroup],
    times: LoadTimes,
) -> Result<Vec<RateRow>, AllocError>
    ensures { IfOk result (λ rows. rows.items ≡ flat_map (group_rows times) groups.now) }
{
    let mut rows = Vec::new(alloc);
    for group in groups {
        push_rows(&mut rows, group, times)?;
    }
    Ok(rows)
}

/// Adds the load of a bus, if rows tell of it.
fn push_load(loads: &mut Vec<LoadRow>, rows: &[RateRow], bus: Bus) -> Result<(), AllocError>
    ensures { OnOk result (loads.new.items ≡ loads.old.items ++ load_row bus rows.now) }
{
    if rows_on(rows, bus) > 0 {
        let time = busy_on(rows, bus);
        loads.push(LoadRow { bus, time })?;
    }
    Ok(())
}

/// The load of the buses that rows tell of.
fn loads_of(alloc: Global, rows: &[RateRow]) -> Result<Vec<LoadRow>, AllocError>
    ensures { IfOk result (λ loads. loads.items ≡ load_row A rows.now ++ load_row B rows.now) }
{
    let mut loads = Vec::new(alloc);
    push_load(&mut loads, rows, Bus::A)?;
    push_load(&mut loads, rows, Bus::B)?;
    Ok(loads)
}

/// The load of the buses by messages that are sent at these rates; None where no message has one.
pub fn load_of(
    alloc: Global,
    groups: &[RateGroup],
    times: LoadTimes,
) -> Result<Option<BusLoad>, AllocError>
    ensures { IfOk result (IsLoadOf (flat_map (group_rows times) groups.now)) }
{
    let rates = rate_rows(alloc, groups, times)?;
    if rates.is_empty() {
        return Ok(None);
    }
    let buses = loads_of(alloc, rates.as_slice())?;
    Ok(Some(BusLoad { rates, buses }))
}
