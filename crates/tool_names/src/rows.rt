//! What the rows of a table are the names of.
ghost use Rattle.std.specs.Prelude.{◌≡◌, OnOk};
ghost use Rattle.tool_names.specs.Rows.{is_received, is_transmitted, goes_to_own, goes_by_broadcast, set_if, cells_of, with_kind, with_table_row};

use crate::numbers::{counts_in, numbers_named};
use message_names::{MessageNames, NamedCells};
use rt1553_import::{RowKind, Sheet, TableColumn, TableRow, is_alike};
use std::alloc::{AllocError, Global};

/// Whether a row of this kind speaks of words that are received.
fn is_received(kind: RowKind) -> bool
    ensures { result ≡ is_received kind }
{
    matches!(kind, RowKind::Receive | RowKind::Both)
}

/// Whether a row of this kind speaks of words that are transmitted.
fn is_transmitted(kind: RowKind) -> bool
    ensures { result ≡ is_transmitted kind }
{
    matches!(kind, RowKind::Transmit | RowKind::Both)
}

/// Whether a row speaks of commands to the own address, by its text in the column `to`.
fn goes_to_own(to: &str) -> bool
    ensures { result ≡ goes_to_own to.now }
{
    to.is_empty() || is_alike(to, "own") || is_alike(to, "both")
}

/// Whether a row speaks of commands by broadcast, by its text in the column `to`.
fn goes_by_broadcast(to: &str) -> bool
    ensures { result ≡ goes_by_broadcast to.now }
{
    is_alike(to, "broadcast") || is_alike(to, "both")
}

/// The set, if this is so, and otherwise none of it.
fn set_if(so: bool, set: u32) -> u32
    ensures { result ≡ set_if so set }
{
    if so { set } else { 0 }
}

/// The cells that a row of this kind speaks of.
fn cells_of(sheet: &Sheet, row: &TableRow, kind: RowKind) -> NamedCells
    ensures { result ≡ cells_of sheet.now row.now kind }
{
    let to = sheet.cell(row, TableColumn::To);
    let subaddresses = numbers_named(sheet.cell(row, TableColumn::Subaddress), 1, 30);
    let codes = numbers_named(sheet.cell(row, TableColumn::Code), 0, 31);
    NamedCells {
        own: goes_to_own(to),
        broadcast: goes_by_broadcast(to),
        receive: set_if(is_received(kind), subaddresses),
        transmit: set_if(is_transmitted(kind), subaddresses),
        counts: counts_in(sheet.cell(row, TableColumn::Words)),
        codes: set_if(kind == RowKind::Mode, codes),
    }
}

/// Adds a row of this kind, if it is one of messages.
fn add_kind(
    alloc: Global,
    names: &mut MessageNames,
    sheet: &Sheet,
    row: &TableRow,
    kind: RowKind,
) -> Result<(), AllocError>
    ensures { OnOk result (names.new ≡ with_kind names.old sheet.now row.now kind) }
{
    if kind.is_setting() {
        return Ok(());
    }
    let name = String::from_str(alloc, sheet.cell(row, TableColumn::Name))?;
    names.add(name, cells_of(sheet, row, kind))
}

/// Adds a row of a table, if it is one of messages.
pub fn add_row(
    alloc: Global,
    names: &mut MessageNames,
    sheet: &Sheet,
    row: &TableRow,
) -> Result<(), AllocError>
    ensures { OnOk result (names.new ≡ with_table_row sheet.now names.old row.now) }
{
    match RowKind::of(sheet.cell(row, TableColumn::Kind)) {
        Some(kind) => add_kind(alloc, names, sheet, row, kind),
        None => Ok(()),
    }
}
