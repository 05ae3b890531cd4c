//! Legal messages in rows: those of one subaddress, direction and addressee, or of one mode code.
ghost use Rattle.std.specs.Prelude.{◌≡◌, ◌≤◌, ◌<◌, ◌-◌, ◌∷◌, ◌++◌, ◌||◌, ◌&&◌, ◌==◌, ℕ, List, map, filter, take, drop, length, IfOk};
ghost use Rattle.std.specs.List.{list_any};
ghost use Rattle.bus_word.specs.Mask.{has_bit};
ghost use Rattle.recording_coverage.specs.Places.{is_same_place, rows_in, total_of, has_come, was_done, word_count_in, is_counted_in};
ghost use Rattle.recording_coverage.specs.inner.Rows.{with_counts};

use crate::outcome::OutcomeCounts;
use crate::rows::{CoveredMessage, are_none};
use bus_word::Cell;
use std::alloc::{AllocError, Global};

/// Tells whether two messages differ in the word count alone.
fn is_same_place(cell: Cell, other: Cell) -> bool
    ensures { result ≡ is_same_place cell other }
{
    match (cell, other) {
        (Cell::OwnReceive(s, _), Cell::OwnReceive(t, _)) => s == t,
        (Cell::OwnTransmit(s, _), Cell::OwnTransmit(t, _)) => s == t,
        (Cell::BroadReceive(s, _), Cell::BroadReceive(t, _)) => s == t,
        (Cell::OwnMode(code), Cell::OwnMode(other)) => code == other,
        (Cell::BroadMode(code), Cell::BroadMode(other)) => code == other,
        _ => false,
    }
}

/// Tells whether a message came, whatever the outcome.
pub fn has_come(message: &CoveredMessage) -> bool
    ensures { result ≡ has_come message.now }
{
    !are_none(message.counts)
}

/// Gives how many of these messages came.
pub fn come_in(messages: &[CoveredMessage]) -> usize
    ensures { result ≡ length (filter has_come messages.now) }
{
    messages.iter().filter(|message| has_come(*message)).count()
}

/// Tells whether a message was done at least once.
pub fn was_done(message: &CoveredMessage) -> bool
    ensures { result ≡ was_done message.now }
{
    message.counts.done != 0
}

/// Gives how many of these messages were done at least once.
pub fn done_in(messages: &[CoveredMessage]) -> usize
    ensures { result ≡ length (filter was_done messages.now) }
{
    messages.iter().filter(|message| was_done(*message)).count()
}

/// Gives the word count of a message, 0 for a mode code.
pub fn word_count_in(cell: Cell) -> u8
    ensures { result ≡ word_count_in cell }
{
    match cell {
        Cell::OwnReceive(_, n) | Cell::OwnTransmit(_, n) | Cell::BroadReceive(_, n) => n,
        Cell::OwnMode(_) | Cell::BroadMode(_) => 0,
    }
}

/// Legal messages that differ in the word count alone, or one mode code.
#[derive(Clone, Copy)]
pub struct CoverageRow<'a> {
    pub messages: &'a [CoveredMessage],
}

/// Gives counts with others added.
fn with_counts(counts: OutcomeCounts, more: OutcomeCounts) -> OutcomeCounts
    ensures { result ≡ with_counts counts more }
{
    OutcomeCounts {
        in_error: counts.in_error.saturating_add(more.in_error),
        illegal: counts.illegal.saturating_add(more.illegal),
        blocked: counts.blocked.saturating_add(more.blocked),
        done: counts.done.saturating_add(more.done),
        superseded: counts.superseded.saturating_add(more.superseded),
        left_open: counts.left_open.saturating_add(more.left_open),
    }
}

/// Gives how often all of these messages together came to each outcome.
pub fn total_of(messages: &[CoveredMessage]) -> OutcomeCounts
    ensures { result ≡ total_of messages.now }
{
    let mut total = OutcomeCounts {
        in_error: 0,
        illegal: 0,
        blocked: 0,
        done: 0,
        superseded: 0,
        left_open: 0,
    };
    for message in messages {
        total = with_counts(total, message.counts);
    }
    total
}

/// Sets the bit of a word count, if it is asked for.
fn with_word_count(bits: u32, n: u8, set: bool) -> u32
    ensures { (m : ℕ) → 1 ≤ m → m ≤ 32 → has_bit result (m - 1) ≡ ((set && (n == m)) || has_bit bits (m - 1)) }
{
    if set && 1 <= n && n <= 32 {
        bits | 1 << u32::from(n - 1)
    } else {
        bits
    }
}

/// Gives the word counts, bit `n - 1` for `n`, of those messages that came, or of those that did not.
pub fn word_counts(messages: &[CoveredMessage], come: bool) -> u32
    ensures { (n : ℕ) → 1 ≤ n → n ≤ 32 → has_bit result (n - 1) ≡ list_any (is_counted_in come n) messages.now }
{
    let mut bits = 0u32;
    for message in messages {
        bits = with_word_count(bits, word_count_in(message.cell), has_come(message) == come);
    }
    bits
}

/// Gives how many of these messages, from the first on, are of its place.
fn row_len(messages: &[CoveredMessage]) -> usize
    requires { 0 < length messages.now }
    ensures some { 1 ≤ result }
    ensures most { result ≤ length messages.now }
    ensures row { rows_in messages.now ≡ take result messages.now ∷ rows_in (drop result messages.now) }
{
    for index in 1..messages.len() {
        if !is_same_place(messages[index - 1].cell, messages[index].cell) {
            return index;
        }
    }
    messages.len()
}

/// Gives messages in rows, in their order. Each row has those of one place that stand together.
pub fn message_rows<'a>(
    alloc: Global,
    messages: &'a [CoveredMessage],
) -> Result<Vec<CoverageRow<'a>>, AllocError>
    ensures { IfOk result (λ rows. map (λ row. row.messages.now) rows.items ≡ rows_in messages.now) }
{
    let mut rows = Vec::new(alloc);
    let mut left = messages;
    'rows: while !left.is_empty() {
        let (row, later) = left.split_at(row_len(left));
        rows.push(CoverageRow { messages: row })?;
        left = later;
    }
    Ok(rows)
}
