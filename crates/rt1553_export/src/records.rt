//! Rows of a table as CSV: fields with commas between them, in quotes where they have a comma, and a line feed behind each row.
ghost use Rattle.std.specs.Prelude.{◌≡◌, ◌++◌, [], map, IfOk, OnOk};
ghost use Rattle.rt1553_export.specs.inner.Rows.{header_cells, setting_cells, message_cells, mode_cells, row_bytes};

use csv::WriterBuilder;
use std::alloc::{AllocError, Global};

/// The text of a row.
#[tactic(auto, unfolding(crate::specs::inner::Rows::row_bytes))]
fn record(alloc: Global, fields: &[&[u8]]) -> Result<Vec<u8>, AllocError>
    ensures { IfOk result (λ bytes. bytes.items ≡ row_bytes (map (λ f. f.now) fields.now)) }
{
    let mut writer = WriterBuilder::new().from_writer(Vec::new(alloc));
    if writer.write_fields(fields).is_err() {
        return Err(AllocError);
    }
    match writer.into_inner() {
        Ok(bytes) => Ok(bytes),
        Err(_) => Err(AllocError),
    }
}

/// Adds a row.
fn push_record(alloc: Global, text: &mut Vec<u8>, fields: &[&[u8]]) -> Result<(), AllocError>
    ensures { OnOk result (text.new.items ≡ text.old.items ++ row_bytes (map (λ f. f.now) fields.now)) }
{
    text.extend_from_slice(record(alloc, fields)?.as_slice())?;
    Ok(())
}

/// The names of the columns.
const HEADER: [&[u8]; 9] = [
    b"kind",
    b"value",
    b"subaddress",
    b"words",
    b"code",
    b"to",
    b"initial",
    b"legal",
    b"name",
];

/// Adds the names of the columns.
pub fn push_header(alloc: Global, text: &mut Vec<u8>) -> Result<(), AllocError>
    ensures { OnOk result (text.new.items ≡ text.old.items ++ row_bytes header_cells) }
{
    push_record(alloc, text, &HEADER)
}

/// Adds a setting.
pub fn push_setting(
    alloc: Global,
    text: &mut Vec<u8>,
    kind: &[u8],
    value: &[u8],
) -> Result<(), AllocError>
    ensures { OnOk result (text.new.items ≡ text.old.items ++ row_bytes (setting_cells kind.now value.now)) }
{
    let none = b"".as_slice();
    push_record(
        alloc,
        text,
        &[kind, value, none, none, none, none, none, none, none],
    )
}

/// The cells of a message of data, each empty where it says nothing.
#[derive(Clone, Copy)]
pub struct MessageCells<'a> {
    pub direction: &'a [u8],
    pub subaddress: &'a [u8],
    pub words: &'a [u8],
    pub to: &'a [u8],
    pub initial: &'a [u8],
    pub legal: &'a [u8],
}

/// Adds a message of data.
pub fn push_message_cells(
    alloc: Global,
    text: &mut Vec<u8>,
    message: MessageCells<'_>,
) -> Result<(), AllocError>
    ensures { OnOk result (text.new.items ≡ text.old.items ++ row_bytes (message_cells message.entry.direction.now message.entry.subaddress.now message.entry.words.now message.entry.to.now message.entry.initial.now message.entry.legal.now)) }
{
    let none = b"".as_slice();
    push_record(
        alloc,
        text,
        &[
            message.direction,
            none,
            message.subaddress,
            message.words,
            none,
            message.to,
            message.initial,
            message.legal,
            none,
        ],
    )
}

/// Adds mode codes.
pub fn push_mode(
    alloc: Global,
    text: &mut Vec<u8>,
    code: &[u8],
    to: &[u8],
    legal: &[u8],
    name: &[u8],
) -> Result<(), AllocError>
    ensures { OnOk result (text.new.items ≡ text.old.items ++ row_bytes (mode_cells code.now to.now legal.now name.now)) }
{
    let none = b"".as_slice();
    push_record(
        alloc,
        text,
        &[
            b"mode".as_slice(),
            none,
            none,
            none,
            code,
            to,
            none,
            legal,
            name,
        ],
    )
}
