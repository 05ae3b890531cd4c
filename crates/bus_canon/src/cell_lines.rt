//! The lines of the legal cells.
ghost use Rattle.std.specs.Prelude.{◌≡◌, true, false, codes, replicate, OnOk};
ghost use Rattle.line_format.specs.Reading.{read};
ghost use Rattle.line_format.specs.Shapes.{mask, number_line};
ghost use Rattle.line_format.specs.Views.{Gives, spot};
ghost use Rattle.line_format.specs.Writing.{Adds};
ghost use Rattle.bus_legal.specs.Tables.{is_own_mask, is_broadcast_mask};
ghost use Rattle.bus_canon.specs.Canon.{when, masks, cells};

use crate::names::{BROADCAST_MODE, BROADCAST_RECEIVE, OWN_MODE, OWN_RECEIVE, OWN_TRANSMIT};
use bus_legal::{BROADCAST_CODES, OWN_CODES, REQUIRED_CODES, Tables};
use line_format::{
    FieldKind, Lines, WrongLine, number_line, numbered_line, put_number_line, put_numbered_line,
};
use std::alloc::AllocError;

/// Reads a line for each subaddress, 1 to 30, with the mask of its legal word counts.
fn masks<'a>(lines: Lines<'a>, name: &[u8]) -> Result<([u32; 30], Lines<'a>), WrongLine>
    ensures { Gives (λ r. r.0) (λ r. r.1) result (read (masks name.now 1 30) (spot lines.entry)) }
{
    let mut found = [0; 30];
    let mut rest = lines;
    for index in 0..30 {
        let (counts, behind) = match numbered_line(rest, name, index as u32 + 1) {
            Ok(read) => read,
            Err(wrong) => return Err(wrong),
        };
        found[index] = counts;
        rest = behind;
    }
    Ok((found, rest))
}

/// Reads these lines where the terminal has the broadcast option.
fn broadcast_masks(lines: Lines<'_>, broadcast: bool) -> Result<([u32; 30], Lines<'_>), WrongLine>
    ensures { Gives (λ r. r.0) (λ r. r.1) result (read (when broadcast (replicate 30 0) (masks (codes "broadcast-receive") 1 30)) (spot lines.entry)) }
{
    if broadcast {
        masks(lines, BROADCAST_RECEIVE)
    } else {
        Ok(([0; 30], lines))
    }
}

/// Says whether a terminal can have just these own mode codes legal.
fn is_own_mask(legal: u32) -> bool
    ensures { result ≡ is_own_mask legal }
{
    legal & OWN_CODES == legal && legal & REQUIRED_CODES == REQUIRED_CODES
}

/// Says whether a terminal can have just these mode codes legal by broadcast.
fn is_broadcast_mask(legal: u32) -> bool
    ensures { result ≡ is_broadcast_mask legal }
{
    legal & BROADCAST_CODES == legal
}

/// Reads the line of the own mode codes.
fn own_codes(lines: Lines<'_>) -> Result<(u32, Lines<'_>), WrongLine>
    ensures { Gives (λ r. r.0) (λ r. r.1) result (read (number_line (codes "own-mode") mask is_own_mask) (spot lines.entry)) }
{
    number_line(lines, OWN_MODE, FieldKind::Mask, is_own_mask)
}

/// Reads the line of the broadcast mode codes.
fn broadcast_code_line(lines: Lines<'_>) -> Result<(u32, Lines<'_>), WrongLine>
    ensures { Gives (λ r. r.0) (λ r. r.1) result (read (number_line (codes "broadcast-mode") mask is_broadcast_mask) (spot lines.entry)) }
{
    number_line(lines, BROADCAST_MODE, FieldKind::Mask, is_broadcast_mask)
}

/// Reads this line where the terminal has the broadcast option.
fn broadcast_codes(lines: Lines<'_>, broadcast: bool) -> Result<(u32, Lines<'_>), WrongLine>
    ensures { Gives (λ r. r.0) (λ r. r.1) result (read (when broadcast 0 (number_line (codes "broadcast-mode") mask is_broadcast_mask)) (spot lines.entry)) }
{
    if broadcast {
        broadcast_code_line(lines)
    } else {
        Ok((0, lines))
    }
}

/// Reads the lines of the legal cells.
pub fn cells(lines: Lines<'_>, broadcast: bool) -> Result<(Tables, Lines<'_>), WrongLine>
    ensures { Gives (λ r. r.0) (λ r. r.1) result (read (cells broadcast) (spot lines.entry)) }
{
    let (own_receive, lines) = masks(lines, OWN_RECEIVE)?;
    let (own_transmit, lines) = masks(lines, OWN_TRANSMIT)?;
    let (broadcast_receive, lines) = broadcast_masks(lines, broadcast)?;
    let (own_mode, lines) = own_codes(lines)?;
    let (broadcast_mode, lines) = broadcast_codes(lines, broadcast)?;
    Ok((
        Tables {
            own_receive,
            own_transmit,
            broadcast_receive,
            own_mode,
            broadcast_mode,
        },
        lines,
    ))
}

/// Writes a line for each subaddress, 1 to 30, with its mask.
fn put_masks(out: &mut Vec<u8>, name: &[u8], table: &[u32; 30]) -> Result<(), AllocError>
    ensures { OnOk result (Adds (masks name.now 1 30) table.now out.old.items out.new.items) }
{
    for (index, counts) in table.iter().enumerate() {
        put_numbered_line(out, name, index as u32 + 1, *counts)?;
    }
    Ok(())
}

/// Writes these lines where the terminal has the broadcast option.
fn put_broadcast_masks(
    out: &mut Vec<u8>,
    broadcast: bool,
    table: &[u32; 30],
) -> Result<(), AllocError>
    requires { broadcast ≡ false → table.now ≡ replicate 30 0 }
    ensures { OnOk result (Adds (when broadcast (replicate 30 0) (masks (codes "broadcast-receive") 1 30)) table.now out.old.items out.new.items) }
{
    if !broadcast {
        return Ok(());
    }
    put_masks(out, BROADCAST_RECEIVE, table)
}

/// Writes the line of the own mode codes.
fn put_own_codes(out: &mut Vec<u8>, legal: u32) -> Result<(), AllocError>
    requires { is_own_mask legal ≡ true }
    ensures { OnOk result (Adds (number_line (codes "own-mode") mask is_own_mask) legal out.old.items out.new.items) }
{
    put_number_line(out, OWN_MODE, FieldKind::Mask, legal)
}

/// Writes the line of the broadcast mode codes.
fn put_broadcast_code_line(out: &mut Vec<u8>, legal: u32) -> Result<(), AllocError>
    requires { is_broadcast_mask legal ≡ true }
    ensures { OnOk result (Adds (number_line (codes "broadcast-mode") mask is_broadcast_mask) legal out.old.items out.new.items) }
{
    put_number_line(out, BROADCAST_MODE, FieldKind::Mask, legal)
}

/// Writes this line where the terminal has the broadcast option.
fn put_broadcast_codes(out: &mut Vec<u8>, broadcast: bool, legal: u32) -> Result<(), AllocError>
    requires mask { is_broadcast_mask legal ≡ true }
    requires unheard { broadcast ≡ false → legal ≡ 0 }
    ensures { OnOk result (Adds (when broadcast 0 (number_line (codes "broadcast-mode") mask is_broadcast_mask)) legal out.old.items out.new.items) }
{
    if !broadcast {
        return Ok(());
    }
    put_broadcast_code_line(out, legal)
}

/// Writes the lines of the legal cells.
pub fn put_cells(out: &mut Vec<u8>, broadcast: bool, tables: &Tables) -> Result<(), AllocError>
    requires own_mode { is_own_mask tables.now.own_mode ≡ true }
    requires broadcast_mode { is_broadcast_mask tables.now.broadcast_mode ≡ true }
    requires unheard_receive { broadcast ≡ false → tables.now.broadcast_receive ≡ replicate 30 0 }
    requires unheard_mode { broadcast ≡ false → tables.now.broadcast_mode ≡ 0 }
    ensures { OnOk result (Adds (cells broadcast) tables.now out.old.items out.new.items) }
{
    put_masks(out, OWN_RECEIVE, &tables.own_receive)?;
    put_masks(out, OWN_TRANSMIT, &tables.own_transmit)?;
    put_broadcast_masks(out, broadcast, &tables.broadcast_receive)?;
    put_own_codes(out, tables.own_mode)?;
    put_broadcast_codes(out, broadcast, tables.broadcast_mode)?;
    Ok(())
}
