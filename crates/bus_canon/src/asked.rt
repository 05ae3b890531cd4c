//! The lines that a text has only where a controller can ask for what they tell.
ghost use Rattle.std.specs.Prelude.{◌≡◌, ◌≤◌, true, false, codes, if◌then◌else◌, IfOk, OnOk};
ghost use Rattle.line_format.specs.Reading.{read};
ghost use Rattle.line_format.specs.Shapes.{decimal, word, number_line, bit_line};
ghost use Rattle.line_format.specs.Views.{Gives, spot};
ghost use Rattle.line_format.specs.Writing.{Adds};
ghost use Rattle.bus_word.specs.Command.{wraparound_subaddress};
ghost use Rattle.bus_word.specs.Mode.{dynamic_bus_control};
ghost use Rattle.bus_word.specs.declared.cell.Cell.TheVariants.{OwnMode};
ghost use Rattle.bus_legal.specs.Tables.{tables_say, masks_wrap};
ghost use Rattle.bus_canon.specs.Canon.{when, wrap_bit, wrap_switch, may_wrap, wrap_name, wrap_lines};

use crate::names::{ACCEPT, WRAPAROUND};
use bus_legal::{Legality, Tables};
use bus_word::mode::DYNAMIC_BUS_CONTROL;
use bus_word::{Cell, WRAPAROUND_SUBADDRESS};
use line_format::{
    FieldKind, Lines, WrongLine, bit_line, number_line, put_bit_line, put_number_line, word_line,
};
use std::alloc::AllocError;

/// Reads a line with a 0 or a 1, if the text has it.
fn bit_where<'a>(lines: Lines<'a>, given: bool, name: &[u8]) -> Result<(bool, Lines<'a>), WrongLine>
    ensures { Gives (λ r. r.0) (λ r. r.1) result (read (when given false (bit_line name.now)) (spot lines.entry)) }
{
    if given {
        bit_line(lines, name)
    } else {
        Ok((false, lines))
    }
}

/// Reads a line with a word, if the text has it.
fn word_where<'a>(lines: Lines<'a>, given: bool, name: &[u8]) -> Result<(u16, Lines<'a>), WrongLine>
    ensures { Gives (λ r. r.0) (λ r. r.1) result (read (when given 0 (number_line name.now word (λ _. true))) (spot lines.entry)) }
{
    if given {
        word_line(lines, name)
    } else {
        Ok((0, lines))
    }
}

/// Reads whether dynamic bus control is accepted, which the text tells where it can be asked for.
pub fn acceptance<'a>(lines: Lines<'a>, tables: &Tables) -> Result<(bool, Lines<'a>), WrongLine>
    ensures { Gives (λ r. r.0) (λ r. r.1) result (read (when (tables_say tables.now (OwnMode dynamic_bus_control)) false (bit_line (codes "accept"))) (spot lines.entry)) }
{
    bit_where(
        lines,
        tables.legal(Cell::OwnMode(DYNAMIC_BUS_CONTROL)),
        ACCEPT,
    )
}

/// Reads the word that an own mode code asks for, which the text tells where the code is legal.
pub fn word_where_asked<'a>(
    lines: Lines<'a>,
    tables: &Tables,
    code: u8,
    name: &[u8],
) -> Result<(u16, Lines<'a>), WrongLine>
    ensures { Gives (λ r. r.0) (λ r. r.1) result (read (when (tables_say tables.now (OwnMode code)) 0 (number_line name.now word (λ _. true))) (spot lines.entry)) }
{
    word_where(lines, tables.legal(Cell::OwnMode(code)), name)
}

/// Gives the wraparound subaddress that a text of version 1 tells by this bit.
fn switched(on: bool) -> u8
    ensures value { result ≡ (if on then wraparound_subaddress else 0) }
    ensures own { result ≤ 30 }
{
    if on { WRAPAROUND_SUBADDRESS } else { 0 }
}

/// Reads the line of version 1.
fn wrap_bit(lines: Lines<'_>) -> Result<(u8, Lines<'_>), WrongLine>
    ensures answer { Gives (λ r. r.0) (λ r. r.1) result (read wrap_bit (spot lines.entry)) }
    ensures own { IfOk result (λ r. r.0 ≤ 30) }
{
    let (on, lines) = bit_line(lines, WRAPAROUND)?;
    Ok((switched(on), lines))
}

/// Reads whether wraparound is at the default subaddress, as a text of version 1 tells it.
#[tactic(auto, unfolding(crate::specs::Canon::wrap_switch))]
fn wrap_switch<'a>(lines: Lines<'a>, tables: &Tables) -> Result<(u8, Lines<'a>), WrongLine>
    ensures answer { Gives (λ r. r.0) (λ r. r.1) result (read (wrap_switch tables.now) (spot lines.entry)) }
    ensures own { IfOk result (λ r. r.0 ≤ 30) }
{
    if tables.can_wrap(WRAPAROUND_SUBADDRESS) {
        wrap_bit(lines)
    } else {
        Ok((0, lines))
    }
}

/// Says whether this can be the wraparound subaddress, or is 0, for none.
fn may_wrap(tables: &Tables, subaddress: u32) -> bool
    ensures value { result ≡ may_wrap tables.now subaddress }
    ensures own { result ≡ true → subaddress ≤ 30 }
{
    subaddress == 0 || subaddress <= 30 && tables.can_wrap(subaddress as u8)
}

/// Reads the line of version 2.
fn wrap_line<'a>(lines: Lines<'a>, tables: &Tables) -> Result<(u8, Lines<'a>), WrongLine>
    ensures answer { Gives (λ r. r.0) (λ r. r.1) result (read (number_line (codes "wraparound") decimal (may_wrap tables.now)) (spot lines.entry)) }
    ensures own { IfOk result (λ r. r.0 ≤ 30) }
{
    let (subaddress, lines) = number_line(
        lines,
        WRAPAROUND,
        FieldKind::Decimal,
        |n| may_wrap(tables, n),
    )?;
    Ok((subaddress as u8, lines))
}

/// Reads the wraparound subaddress, as a text of version 2 tells it.
#[tactic(auto, unfolding(crate::specs::Canon::wrap_name))]
fn wrap_name<'a>(lines: Lines<'a>, tables: &Tables) -> Result<(u8, Lines<'a>), WrongLine>
    ensures answer { Gives (λ r. r.0) (λ r. r.1) result (read (wrap_name tables.now) (spot lines.entry)) }
    ensures own { IfOk result (λ r. r.0 ≤ 30) }
{
    if tables.can_wrap_somewhere() {
        wrap_line(lines, tables)
    } else {
        Ok((0, lines))
    }
}

/// Reads the wraparound subaddress, 0 for none, which the text tells where one can be reached.
#[tactic(auto, unfolding(crate::specs::Canon::wrap_lines))]
pub fn wraparound<'a>(
    lines: Lines<'a>,
    version: u32,
    tables: &Tables,
) -> Result<(u8, Lines<'a>), WrongLine>
    ensures answer { Gives (λ r. r.0) (λ r. r.1) result (read (wrap_lines version tables.now) (spot lines.entry)) }
    ensures own { IfOk result (λ r. r.0 ≤ 30) }
{
    if version == 1 {
        wrap_switch(lines, tables)
    } else {
        wrap_name(lines, tables)
    }
}

/// Writes a line with a 0 or a 1, if the text has it.
fn put_bit_where(out: &mut Vec<u8>, given: bool, name: &[u8], bit: bool) -> Result<(), AllocError>
    requires { given ≡ false → bit ≡ false }
    ensures { OnOk result (Adds (when given false (bit_line name.now)) bit out.old.items out.new.items) }
{
    if !given {
        return Ok(());
    }
    put_bit_line(out, name, bit)
}

/// Writes a line with a word.
fn put_word_line(out: &mut Vec<u8>, name: &[u8], number: u16) -> Result<(), AllocError>
    ensures { OnOk result (Adds (number_line name.now word (λ _. true)) number out.old.items out.new.items) }
{
    put_number_line(out, name, FieldKind::Word, u32::from(number))
}

/// Writes a line with a word, if the text has it.
fn put_word_where(
    out: &mut Vec<u8>,
    given: bool,
    name: &[u8],
    number: u16,
) -> Result<(), AllocError>
    requires { given ≡ false → number ≡ 0 }
    ensures { OnOk result (Adds (when given 0 (number_line name.now word (λ _. true))) number out.old.items out.new.items) }
{
    if !given {
        return Ok(());
    }
    put_word_line(out, name, number)
}

/// Writes whether dynamic bus control is accepted, where it can be asked for.
pub fn put_acceptance(out: &mut Vec<u8>, tables: &Tables, accept: bool) -> Result<(), AllocError>
    requires { tables_say tables.now (OwnMode dynamic_bus_control) ≡ false → accept ≡ false }
    ensures { OnOk result (Adds (when (tables_say tables.now (OwnMode dynamic_bus_control)) false (bit_line (codes "accept"))) accept out.old.items out.new.items) }
{
    put_bit_where(
        out,
        tables.legal(Cell::OwnMode(DYNAMIC_BUS_CONTROL)),
        ACCEPT,
        accept,
    )
}

/// Writes the word that an own mode code asks for, where the code is legal.
pub fn put_asked_word(
    out: &mut Vec<u8>,
    tables: &Tables,
    code: u8,
    name: &[u8],
    number: u16,
) -> Result<(), AllocError>
    requires { tables_say tables.now (OwnMode code) ≡ false → number ≡ 0 }
    ensures { OnOk result (Adds (when (tables_say tables.now (OwnMode code)) 0 (number_line name.now word (λ _. true))) number out.old.items out.new.items) }
{
    put_word_where(out, tables.legal(Cell::OwnMode(code)), name, number)
}

/// Writes the line of version 2.
fn put_wrap_line(out: &mut Vec<u8>, tables: &Tables, wrap: u8) -> Result<(), AllocError>
    requires small { wrap ≤ 30 }
    requires may { may_wrap tables.now wrap ≡ true }
    ensures { OnOk result (Adds (number_line (codes "wraparound") decimal (may_wrap tables.now)) wrap out.old.items out.new.items) }
{
    put_number_line(out, WRAPAROUND, FieldKind::Decimal, u32::from(wrap))
}

/// Writes the wraparound subaddress, where one can be reached.
pub fn put_wraparound(out: &mut Vec<u8>, tables: &Tables, wrap: u8) -> Result<(), AllocError>
    requires small { wrap ≤ 30 }
    requires unwrapped { masks_wrap tables.now wrap ≡ false → wrap ≡ 0 }
    ensures { OnOk result (Adds (wrap_name tables.now) wrap out.old.items out.new.items) }
{
    if !tables.can_wrap_somewhere() {
        return Ok(());
    }
    put_wrap_line(out, tables, wrap)
}
