//! The table of the acceptance test as CSV.
ghost use Rattle.std.specs.Prelude.{◌≡◌, map, IfOk, option_map};
ghost use Rattle.csv.specs.Writing.{row_text};
ghost use Rattle.bus_legal.specs.Parts.{description_in};
ghost use Rattle.rt1553_results.specs.Handed.{answered_in};
ghost use Rattle.rt1553_results.specs.Table.{table_writer, csv_header, csv_row};

use crate::playing::TestRow;
use crate::texts::{data_words, handed_text, reply_text, words_text};
use bus_legal::Normal;
use csv::{Terminator, WriterBuilder};
use itoa::Buffer;
use rt1553_acceptance::label_of;
use script_lines::digits_of;
use std::alloc::{AllocError, Global};

/// The bytes of a record.
fn record(alloc: Global, fields: &[&[u8]]) -> Result<Vec<u8>, AllocError>
    ensures { IfOk result (λ bytes. bytes.items ≡ row_text table_writer (map (λ f. f.now) fields.now)) }
{
    let mut writer = WriterBuilder::new()
        .terminator(Terminator::CRLF)
        .from_writer(Vec::new(alloc));
    if writer.write_fields(fields).is_err() {
        return Err(AllocError);
    }
    match writer.into_inner() {
        Ok(bytes) => Ok(bytes),
        Err(_) => Err(AllocError),
    }
}

/// The header of the table, with CR and LF behind it: with a last column for the names of messages, where there are names.
pub fn csv_header(alloc: Global, with_names: bool) -> Result<Vec<u8>, AllocError>
    ensures { IfOk result (λ bytes. bytes.items ≡ csv_header with_names) }
{
    let columns = [
        b"number".as_slice(),
        b"tries".as_slice(),
        b"command".as_slice(),
        b"data".as_slice(),
        b"expected".as_slice(),
        b"handed".as_slice(),
        b"name".as_slice(),
    ];
    if with_names {
        record(alloc, &columns)
    } else {
        record(alloc, &columns[..6])
    }
}

/// A row of the table of this terminal, with CR and LF behind it: with the name of its message in a last column, where there are names.
pub fn csv_row(
    alloc: Global,
    normal: &Normal,
    row: &TestRow,
    name: Option<&[u8]>,
) -> Result<Vec<u8>, AllocError>
    ensures { IfOk result (λ bytes. bytes.items ≡ csv_row (description_in normal.now) row.now.number (answered_in row.now) (option_map (λ n. n.now) name.entry)) }
{
    let mut number = Buffer::new();
    let label = label_of(normal, row.exchange.command);
    let data = words_text(alloc, data_words(alloc, &row.exchange)?.as_slice())?;
    let reply = reply_text(alloc, row.reply.as_slice())?;
    let handed = handed_text(alloc, &row.handed)?;
    let command = digits_of(row.exchange.command);
    let fields = [
        number.format(row.number).as_bytes(),
        label.as_str().as_bytes(),
        command.as_slice(),
        data.as_slice(),
        reply.as_slice(),
        handed.as_slice(),
        name.unwrap_or(b""),
    ];
    if name.is_some() {
        record(alloc, &fields)
    } else {
        record(alloc, &fields[..6])
    }
}
