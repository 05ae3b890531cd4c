//! The faults of a table as they are told.
use crate::warnings::{column_text, table_warnings};
use bus_profile::{Key, Part, ProfileFault};
use rt1553_files::escaped;
use rt1553_import::{
    FaultyTable, ROW_KINDS, Sheet, TableColumn, TableFault, TableFaultKind, TableRow, key_column,
};
use std::alloc::{AllocError, Global};

/// How many characters of a field are told at most.
const MOST_CHARACTERS: usize = 40;

/// What the field of a key takes.
fn allowed_text(key: Key) -> &'static str {
    match key {
        Key::Address => "0 to 30",
        Key::Broadcast | Key::AcceptBusControl | Key::Legal => "yes or no",
        Key::Wraparound => "yes, no or 1 to 30",
        Key::Vector | Key::Bit => "0 to 65535, or 0x0000 to 0xffff",
        Key::To => "own, broadcast or both",
        Key::Subaddresses => "1 to 30, as \"1-3, 5\"",
        Key::Counts => "1 to 32, as \"1-3, 5\"",
        Key::Codes => "0 to 31, as \"1-3, 5\"",
        Key::Subaddress => "1 to 30",
        Key::Rule => "at most 256 rows of receive, transmit and both",
        Key::Mode => "at most 256 rows of mode",
        Key::Initial => "at most 256 rows with initial words",
        Key::Direction => "receive, transmit or both",
        Key::At => "1 to 32",
        Key::Words => "at most 32 words of 1 to 4 hexadecimal digits, as \"0001 00ff\"",
    }
}

/// Adds what a field says, in quotes and escaped, of a long one the first characters.
fn push_field(alloc: Global, text: &mut String, field: &str) -> Result<(), AllocError> {
    if field.is_empty() {
        return text.push_str("empty");
    }
    let mut first = String::new(alloc);
    for c in field.chars().take(MOST_CHARACTERS) {
        first.push(c)?;
    }
    let end = if first.len() < field.len() { ".." } else { "" };
    write!(
        text,
        "\"{}{end}\"",
        escaped(alloc, first.as_str().as_bytes())?.as_str()
    )
}

/// Adds the kinds that there are.
fn push_kinds(text: &mut String) -> Result<(), AllocError> {
    for (index, kind) in ROW_KINDS.iter().enumerate() {
        if index > 0 {
            text.push_str(", ")?;
        }
        text.push_str(kind.name())?;
    }
    Ok(())
}

/// The row that begins on this line.
fn row_on(sheet: &Sheet, line: u64) -> Option<&TableRow> {
    sheet.rows.as_slice().iter().find(|row| row.line == line)
}

/// Adds the name of a column, and what a row has there.
fn push_cell(
    alloc: Global,
    sheet: &Sheet,
    text: &mut String,
    row: Option<&TableRow>,
    column: TableColumn,
) -> Result<(), AllocError> {
    text.push_str(column_text(alloc, sheet, column)?.as_str())?;
    text.push_str(": ")?;
    if let Some(row) = row {
        push_field(alloc, text, sheet.cell(row, column))?;
        text.push_str(": ")?;
    }
    Ok(())
}

/// Adds a fault of the profile that the table says, for a key.
fn push_key_fault(
    alloc: Global,
    sheet: &Sheet,
    text: &mut String,
    row: Option<&TableRow>,
    part: Part,
    key: Key,
) -> Result<(), AllocError> {
    if row.is_none() && part == Part::Root {
        return write!(
            text,
            "no row is of the kind {key}; its value is {}",
            allowed_text(key)
        );
    }
    push_cell(alloc, sheet, text, row, key_column(key))?;
    write!(text, "allowed is {}", allowed_text(key))
}

/// Adds a fault of the profile that the table says.
fn push_profile_fault(
    alloc: Global,
    sheet: &Sheet,
    text: &mut String,
    row: Option<&TableRow>,
    fault: ProfileFault,
) -> Result<(), AllocError> {
    match fault {
        ProfileFault::Missing(part, key)
        | ProfileFault::WrongKind(part, key)
        | ProfileFault::OutOfRange(part, key)
        | ProfileFault::BadRanges(part, key)
        | ProfileFault::TooMany(part, key) => push_key_fault(alloc, sheet, text, row, part, key),
        ProfileFault::RequiredCode(code) => {
            push_cell(alloc, sheet, text, row, TableColumn::Legal)?;
            write!(text, "mode code {code} must be legal")
        }
        other => write!(text, "{other}"),
    }
}

/// Adds the number of fields that a row has, and that of the header.
fn push_fields(sheet: &Sheet, text: &mut String, row: Option<&TableRow>) -> Result<(), AllocError> {
    let fields = match row {
        Some(row) => row.fields.len(),
        None => 0,
    };
    write!(
        text,
        "{fields} fields, and the header has {}",
        sheet.header.fields.len()
    )
}

/// Adds what is wrong, in a row if there is one.
fn push_reason(
    alloc: Global,
    sheet: &Sheet,
    text: &mut String,
    row: Option<&TableRow>,
    kind: TableFaultKind,
) -> Result<(), AllocError> {
    match kind {
        TableFaultKind::NoColumn(column) => write!(text, "no column is named {column}"),
        TableFaultKind::TwoColumns(column) => write!(text, "a second column is named {column}"),
        TableFaultKind::Fields => push_fields(sheet, text, row),
        TableFaultKind::UnknownKind => {
            push_cell(alloc, sheet, text, row, TableColumn::Kind)?;
            text.push_str("allowed is ")?;
            push_kinds(text)
        }
        TableFaultKind::Twice => {
            push_cell(alloc, sheet, text, row, TableColumn::Kind)?;
            text.push_str("an earlier row has this setting")
        }
        TableFaultKind::NotTaken(column) => {
            push_cell(alloc, sheet, text, row, column)?;
            text.push_str("a row of this kind takes nothing here")
        }
        TableFaultKind::OneSubaddress => {
            push_cell(alloc, sheet, text, row, TableColumn::Subaddress)?;
            text.push_str("allowed beside initial words is 1 to 30, one number")
        }
        TableFaultKind::NotWords => {
            push_cell(alloc, sheet, text, row, TableColumn::Initial)?;
            write!(text, "allowed is {}", allowed_text(Key::Words))
        }
        TableFaultKind::Profile(fault) => push_profile_fault(alloc, sheet, text, row, fault),
    }
}

/// Adds a fault with its place, if it has one.
fn push_fault(
    alloc: Global,
    sheet: &Sheet,
    text: &mut String,
    fault: &TableFault,
) -> Result<(), AllocError> {
    let mut row = None;
    if let Some(place) = fault.place {
        write!(text, "{}:{}:", place.row, place.column)?;
        row = row_on(sheet, place.row);
    }
    text.push_str(" error: ")?;
    push_reason(alloc, sheet, text, row, fault.kind)
}

/// What is told of a table with faults, in the file of this name as it is printed: a line for each warning, and for each fault in the order
/// of the rows, those of the whole table first, but for the last line feed.
pub fn told_text(alloc: Global, name: &str, table: &FaultyTable) -> Result<String, AllocError> {
    let mut text = String::new(alloc);
    for warning in table_warnings(alloc, &table.sheet)?.as_slice() {
        writeln!(text, "{name}:{warning}")?;
    }
    let mut faults = Vec::from_slice(alloc, table.faults.as_slice())?;
    faults.sort_by_key(|fault| match fault.place {
        Some(place) => place.row,
        None => 0,
    })?;
    for (index, fault) in faults.as_slice().iter().enumerate() {
        if index > 0 {
            text.push('\n')?;
        }
        write!(text, "{name}:")?;
        push_fault(alloc, &table.sheet, &mut text, fault)?;
    }
    Ok(text)
}
