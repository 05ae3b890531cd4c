//! Lines and columns of a text.
ghost use Rattle.std.specs.Prelude.{◌≡◌, ◌≤◌, All, IfOk, length, map};
ghost use Rattle.rt1553_lint.specs.Positions.{is_feed, begins_character, line_of_place, column_at, position_in};

use crate::finding::Position;
use std::alloc::{AllocError, Global};
use toml_places::Statement;

/// Whether a byte ends a line.
fn is_feed(byte: u8) -> bool
    ensures { result ≡ is_feed byte }
{
    byte == b'\n'
}

/// Whether a character begins with the byte.
fn begins_character(byte: u8) -> bool
    ensures { result ≡ begins_character byte }
{
    byte < 0x80 || 0xC0 <= byte
}

/// The number of the line of a place in the text, given by the bytes before it; `line` is that of an earlier place.
fn line_at(text: &[u8], from: usize, line: usize, place: usize) -> usize
    requires order { from ≤ place }
    requires within { place ≤ length text.now }
    requires line { line ≡ line_of_place text.now from }
    ensures { result ≡ line_of_place text.now place }
{
    let mut line = line;
    for at in from..place {
        if is_feed(text[at]) {
            line += 1;
        }
    }
    line
}

/// The column of a place in the text, given by the bytes before it; `column` is that of an earlier place. A column counts characters.
fn column_at(text: &[u8], from: usize, column: usize, place: usize) -> usize
    requires order { from ≤ place }
    requires within { place ≤ length text.now }
    requires column { column ≡ column_at text.now from }
    ensures { result ≡ column_at text.now place }
{
    let mut column = column;
    for at in from..place {
        if is_feed(text[at]) {
            column = 1;
        } else if begins_character(text[at]) {
            column += 1;
        }
    }
    column
}

/// The position of a place in the text, given by the bytes before it; `position` is that of an earlier place.
fn position_from(text: &[u8], from: usize, position: Position, place: usize) -> Position
    requires order { from ≤ place }
    requires within { place ≤ length text.now }
    requires position { position ≡ position_in text.now from }
    ensures { result ≡ position_in text.now place }
{
    Position {
        line: line_at(text, from, position.line, place),
        column: column_at(text, from, position.column, place),
    }
}

/// The position of a place in the text, given by the bytes before it.
pub fn position_at(text: &[u8], place: usize) -> Position
    requires { place ≤ length text.now }
    ensures { result ≡ position_in text.now place }
{
    position_from(text, 0, Position { line: 1, column: 1 }, place)
}

/// The positions of statements of the text, of which it is read once where they stand in order.
pub fn positions_of(
    alloc: Global,
    text: &[u8],
    statements: &[Statement],
) -> Result<Vec<Position>, AllocError>
    requires { All (λ s. s.at ≤ length text.now) statements.now }
    ensures { IfOk result (λ found. found.items ≡ map (λ s. position_in text.now s.at) statements.now) }
{
    let mut found = Vec::new(alloc);
    let mut from = 0usize;
    let mut position = position_at(text, 0);
    for statement in statements {
        position = if from <= statement.at {
            position_from(text, from, position, statement.at)
        } else {
            position_at(text, statement.at)
        };
        from = statement.at;
        found.push(position)?;
    }
    Ok(found)
}

/// Where a line of this number begins.
pub fn position_of_line(line: usize) -> Position
    ensures line { result.line ≡ line }
    ensures column { result.column ≡ 1 }
{
    Position { line, column: 1 }
}
