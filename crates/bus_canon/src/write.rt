//! The writer of canonical texts.
ghost use Rattle.std.specs.Prelude.{◌≤◌, length, IfOk, OnOk};
ghost use Rattle.line_format.specs.Writing.{Adds};
ghost use Rattle.bus_legal.specs.Parts.{parts_of, IsNormal};
ghost use Rattle.bus_canon.specs.Canon.{is_written, canon, Text};

use crate::asked::{put_acceptance, put_asked_word, put_wraparound};
use crate::blocks::put_blocks;
use crate::cell_lines::put_cells;
use crate::names::{ADDRESS, BIT, BROADCAST, HEAD, VECTOR};
use bus_legal::{Normal, Setup, Tables};
use bus_word::mode::{BIT_WORD, VECTOR_WORD};
use line_format::{FieldKind, put_bit_line, put_number_line};
use std::alloc::{AllocError, Global};

/// The version of the texts that are written.
const VERSION: u32 = 2;

/// How many bytes the longest canonical text has.
const LONGEST: usize = 7_618;

/// Writes all lines of a text.
fn put_text(out: &mut Vec<u8>, setup: &Setup, tables: &Tables) -> Result<(), AllocError>
    requires { IsNormal (parts_of setup.now tables.now) }
    ensures { OnOk result (Adds (canon is_written) (parts_of setup.now tables.now) out.old.items out.new.items) }
{
    put_number_line(out, HEAD, FieldKind::Digit, VERSION)?;
    put_number_line(out, ADDRESS, FieldKind::Decimal, u32::from(setup.address))?;
    put_bit_line(out, BROADCAST, setup.broadcast)?;
    put_cells(out, setup.broadcast, tables)?;
    put_acceptance(out, tables, setup.accept)?;
    put_asked_word(out, tables, VECTOR_WORD, VECTOR, setup.vector)?;
    put_asked_word(out, tables, BIT_WORD, BIT, setup.bit)?;
    put_wraparound(out, tables, setup.wrap)?;
    put_blocks(out, &tables.own_transmit, &setup.initial)?;
    Ok(())
}

/// Writes the canonical text behind other lines.
pub fn put_canon(out: &mut Vec<u8>, normal: &Normal) -> Result<(), AllocError>
    ensures { OnOk result (Adds (canon is_written) normal.now out.old.items out.new.items) }
{
    put_text(out, &normal.setup(), normal.tables())
}

/// Writes the canonical text, asking once for the room of the longest.
pub fn write_canon(alloc: Global, normal: &Normal) -> Result<Vec<u8>, AllocError>
    ensures text { IfOk result (λ bytes. Text normal.now bytes.items) }
    ensures size { IfOk result (λ bytes. length bytes.items ≤ 7618) }
{
    let mut out = Vec::with_capacity(alloc, LONGEST)?;
    put_text(&mut out, &normal.setup(), normal.tables())?;
    Ok(out)
}
