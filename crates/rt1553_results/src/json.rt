//! Rows of the acceptance test as JSON.
use crate::playing::TestRow;
use crate::texts::{data_words, handed_text};
use bus_legal::Normal;
use rt1553_acceptance::label_of;
use rt1553_verify::{word_string, word_strings};
use serde::Serialize;
use std::alloc::{AllocError, Global};
use std::str;

/// A row as JSON.
#[derive(Drop, Serialize)]
struct JsonRow {
    number: u32,
    tries: String,
    command: String,
    data: Vec<String>,
    /// The words of the reply. Null where there is no reply.
    expected: Option<Vec<String>>,
    /// Null where nothing is handed over.
    handed: Option<String>,
    /// The name of its message, null for none; left out where there are no names.
    #[serde(skip_serializing_if = "Option::is_none")]
    name: Option<Option<String>>,
}

/// The words of a reply, or None where there are none.
fn reply_strings(alloc: Global, words: &[u16]) -> Result<Option<Vec<String>>, AllocError> {
    if words.is_empty() {
        Ok(None)
    } else {
        Ok(Some(word_strings(alloc, words)?))
    }
}

/// What is handed over, or None for nothing.
fn handed_string(alloc: Global, row: &TestRow) -> Result<Option<String>, AllocError> {
    if row.handed.is_none() {
        return Ok(None);
    }
    let bytes = handed_text(alloc, &row.handed)?;
    match str::from_utf8(bytes.as_slice()) {
        Ok(text) => Ok(Some(String::from_str(alloc, text)?)),
        Err(_) => Ok(None),
    }
}

/// The name of a message, None where there are no names.
fn name_string(
    alloc: Global,
    name: Option<Option<&str>>,
) -> Result<Option<Option<String>>, AllocError> {
    match name {
        Some(Some(name)) => Ok(Some(Some(String::from_str(alloc, name)?))),
        Some(None) => Ok(Some(None)),
        None => Ok(None),
    }
}

/// The row as it is written.
fn line_of(
    alloc: Global,
    normal: &Normal,
    row: &TestRow,
    name: Option<Option<&str>>,
) -> Result<JsonRow, AllocError> {
    let label = label_of(normal, row.exchange.command);
    Ok(JsonRow {
        number: row.number,
        tries: String::from_str(alloc, label.as_str())?,
        command: word_string(alloc, row.exchange.command)?,
        data: word_strings(alloc, data_words(alloc, &row.exchange)?.as_slice())?,
        expected: reply_strings(alloc, row.reply.as_slice())?,
        handed: handed_string(alloc, row)?,
        name: name_string(alloc, name)?,
    })
}

/// A row of the table of this terminal as one line of JSON, without a line feed; with the name of its message, which may have none, where
/// there are names. None where memory runs out.
pub fn json_row(
    alloc: Global,
    normal: &Normal,
    row: &TestRow,
    name: Option<Option<&str>>,
) -> Option<String> {
    let line = line_of(alloc, normal, row, name).ok()?;
    serde_json::to_string(alloc, &line).ok()
}
