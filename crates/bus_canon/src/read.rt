//! The reader of canonical texts.
ghost use Rattle.std.specs.Prelude.{◌≡◌, ◌≤◌, nat_le, codes, IfOk, IfErr};
ghost use Rattle.line_format.specs.Reading.{read};
ghost use Rattle.line_format.specs.Shapes.{decimal, number_line};
ghost use Rattle.line_format.specs.Views.{Gives, spot};
ghost use Rattle.bus_canon.specs.Canon.{version_field, is_written, is_read, versions_of, canon, AnyText};
ghost use Rattle.bus_canon.specs.Read.{IsNoText};

use crate::asked::{acceptance, word_where_asked, wraparound};
use crate::blocks::blocks;
use crate::cell_lines::cells;
use crate::fault::CanonFault;
use crate::names::{ADDRESS, BIT, BROADCAST, HEAD, VECTOR};
use bus_legal::{Normal, Setup};
use bus_word::mode::{BIT_WORD, VECTOR_WORD};
use line_format::{FieldKind, Lines, WrongLine, bit_line, number_line};

/// Says whether texts of this version are read: where `written`, only that which is written.
fn is_read(written: bool, version: u32) -> bool
    ensures { result ≡ versions_of written version }
{
    version == 1 && !written || version == 2
}

/// Reads the first line, which tells the version.
fn version_line(lines: Lines<'_>, written: bool) -> Result<(u32, Lines<'_>), WrongLine>
    ensures { Gives (λ r. r.0) (λ r. r.1) result (read (number_line (codes "rt1553") version_field (versions_of written)) (spot lines.entry)) }
{
    number_line(lines, HEAD, FieldKind::Digit, |n| is_read(written, n))
}

/// Reads the line of the address.
fn address_line(lines: Lines<'_>) -> Result<(u8, Lines<'_>), WrongLine>
    ensures answer { Gives (λ r. r.0) (λ r. r.1) result (read (number_line (codes "address") decimal (λ n. nat_le n 30)) (spot lines.entry)) }
    ensures own { IfOk result (λ r. r.0 ≤ 30) }
{
    let (address, lines) = number_line(lines, ADDRESS, FieldKind::Decimal, |n| n <= 30)?;
    Ok((address as u8, lines))
}

/// Reads all lines of a text: where `written`, of the version that is written, and else of any.
fn text(lines: Lines<'_>, written: bool) -> Result<(Normal, Lines<'_>), WrongLine>
    ensures { Gives (λ r. r.0) (λ r. r.1) result (read (canon (versions_of written)) (spot lines.entry)) }
{
    let (version, lines) = version_line(lines, written)?;
    let (address, lines) = address_line(lines)?;
    let (broadcast, lines) = bit_line(lines, BROADCAST)?;
    let (tables, lines) = cells(lines, broadcast)?;
    let (accept, lines) = acceptance(lines, &tables)?;
    let (vector, lines) = word_where_asked(lines, &tables, VECTOR_WORD, VECTOR)?;
    let (bit, lines) = word_where_asked(lines, &tables, BIT_WORD, BIT)?;
    let (wrap, lines) = wraparound(lines, version, &tables)?;
    let (initial, lines) = blocks(lines, &tables.own_transmit)?;
    let setup = Setup {
        address,
        broadcast,
        wrap,
        accept,
        vector,
        bit,
        initial,
    };
    Ok((Normal::of(setup, tables), lines))
}

/// Reads a canonical text of version 2 that stands among other lines.
pub fn canon_lines(lines: Lines<'_>) -> Result<(Normal, Lines<'_>), WrongLine>
    ensures { Gives (λ r. r.0) (λ r. r.1) result (read (canon is_written) (spot lines.entry)) }
{
    text(lines, true)
}

/// Reads a canonical text, of version 1 or 2. Where no whole text stands at the front, the first wrong line is told; one
/// that lacks its line feed, or that isn't there, is wrong. Takes no memory.
pub fn read_canon(bytes: &[u8]) -> Result<Normal, CanonFault>
    ensures text { IfOk result (λ normal. AnyText normal bytes.now) }
    ensures refused { IfErr result (IsNoText bytes.now) }
{
    let (normal, after) = match text(Lines::of(bytes), false) {
        Ok(found) => found,
        Err(wrong) => return Err(CanonFault::Line(wrong.line)),
    };
    if after.rest.is_empty() {
        Ok(normal)
    } else {
        Err(CanonFault::Trailing)
    }
}
