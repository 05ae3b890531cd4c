//! The legal messages, and what came of each.
ghost use Rattle.std.specs.Prelude.{◌≡◌, ◌++◌, ◌∷◌, [], List, map, filter, IfOk, OnOk};
ghost use Rattle.bus_legal.specs.Parts.{description_in};
ghost use Rattle.recording_coverage.specs.Messages.{cell_at, cells_at, cells_in, cells_of_codes, mode_at, all_cells};

use bus_legal::{Legality, Normal};
use bus_word::Cell;
use message_names::MessageKind;
use std::alloc::{AllocError, Global};

/// Gives the cell of a message of data.
pub fn cell_at(kind: MessageKind, subaddress: u8, count: u8) -> Cell
    ensures { result ≡ cell_at kind subaddress count }
{
    match kind {
        MessageKind::Receive => Cell::OwnReceive(subaddress, count),
        MessageKind::Transmit => Cell::OwnTransmit(subaddress, count),
        MessageKind::BroadcastReceive => Cell::BroadReceive(subaddress, count),
    }
}

/// Gives the cell of a mode code, by broadcast or to the own address.
pub fn mode_at(broadcast: bool, code: u8) -> Cell
    ensures { result ≡ mode_at broadcast code }
{
    if broadcast {
        Cell::BroadMode(code)
    } else {
        Cell::OwnMode(code)
    }
}

/// Adds a cell, if it is legal.
fn push_if(cells: &mut Vec<Cell>, normal: &Normal, cell: Cell) -> Result<(), AllocError>
    ensures { OnOk result (cells.new.items ≡ cells.old.items ++ filter (description_in normal.now).legal (cell ∷ [])) }
{
    if normal.legal(cell) {
        cells.push(cell)?;
    }
    Ok(())
}

/// Adds the legal cells of a kind at a subaddress.
fn push_counts(
    cells: &mut Vec<Cell>,
    normal: &Normal,
    kind: MessageKind,
    s: u8,
) -> Result<(), AllocError>
    ensures { OnOk result (cells.new.items ≡ cells.old.items ++ filter (description_in normal.now).legal (cells_at kind s)) }
{
    'counts: for n in 1..33u8 {
        push_if(cells, normal, cell_at(kind, s, n))?;
    }
    Ok(())
}

/// Adds the legal cells of a kind.
fn push_kind(cells: &mut Vec<Cell>, normal: &Normal, kind: MessageKind) -> Result<(), AllocError>
    ensures { OnOk result (cells.new.items ≡ cells.old.items ++ filter (description_in normal.now).legal (cells_in kind)) }
{
    'subaddresses: for s in 1..31u8 {
        push_counts(cells, normal, kind, s)?;
    }
    Ok(())
}

/// Adds the legal cells of mode codes, by broadcast or to the own address.
fn push_codes(cells: &mut Vec<Cell>, normal: &Normal, broadcast: bool) -> Result<(), AllocError>
    ensures { OnOk result (cells.new.items ≡ cells.old.items ++ filter (description_in normal.now).legal (cells_of_codes broadcast)) }
{
    'codes: for code in 0..32u8 {
        push_if(cells, normal, mode_at(broadcast, code))?;
    }
    Ok(())
}

/// Gives the cells of the messages that are legal: what is received at each subaddress, what is transmitted, what is received by
/// broadcast, and the mode codes.
pub fn legal_cells(alloc: Global, normal: &Normal) -> Result<Vec<Cell>, AllocError>
    ensures { IfOk result (λ cells. cells.items ≡ filter (description_in normal.now).legal all_cells) }
{
    let mut cells = Vec::new(alloc);
    push_kind(&mut cells, normal, MessageKind::Receive)?;
    push_kind(&mut cells, normal, MessageKind::Transmit)?;
    push_kind(&mut cells, normal, MessageKind::BroadcastReceive)?;
    push_codes(&mut cells, normal, false)?;
    push_codes(&mut cells, normal, true)?;
    Ok(cells)
}
