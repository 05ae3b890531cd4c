//! A profile explained, as text and as JSON.
ghost use Rattle.std.specs.Prelude.{◌≤◌};

use crate::columns::{push_column, wider};
use crate::explained::{Codes, SubaddressRow, codes_of, row_of};
use crate::named::code_cell;
use bus_legal::{Normal, Numbers};
use bus_word::mode::{BIT_WORD, DYNAMIC_BUS_CONTROL, VECTOR_WORD};
use bus_word::mode_name;
use drawing_boxes::push_escaped;
use message_names::{MessageCounts, MessageKind, MessageNames, name_in, owned, push_name};
use serde::Serialize;
use std::alloc::{AllocError, Global};

/// Gives the numbers as a text, `-` for none.
fn numbers_text(alloc: Global, bits: u32, first: u8) -> Result<String, AllocError> {
    let mut text = String::new(alloc);
    if bits == 0 {
        text.push_str("-")?;
    } else {
        let numbers = Numbers { bits, first };
        write!(text, "{numbers}")?;
    }
    Ok(text)
}

/// Gives the numbers, each by itself.
fn numbers_list(alloc: Global, bits: u32, first: u8) -> Result<Vec<u8>, AllocError> {
    let mut list = Vec::new(alloc);
    for bit in 0..32u8 {
        if (bits >> bit) & 1 == 1 {
            list.push(first.saturating_add(bit))?;
        }
    }
    Ok(list)
}

/// Tells whether a mode code is in a mask.
fn has_code(codes: u32, code: u8) -> bool {
    code < 32 && (codes >> code) & 1 == 1
}

/// Tells whether some word count is legal at the subaddress of a row.
fn has_some(row: &SubaddressRow) -> bool {
    row.receive != 0 || row.transmit != 0 || row.broadcast != 0
}

/// Gives how many words of a row there are up to the last that is not 0.
fn words_in(row: &SubaddressRow) -> usize
    ensures { result ≤ 32 }
{
    let mut len = 0;
    for index in 0..32usize {
        if row.words[index] != 0 {
            len = index + 1;
        }
    }
    len
}

/// The cells of a line of the table of word counts, as texts.
#[derive(Drop)]
struct RowTexts {
    /// Whether some word count is legal.
    is_legal: bool,
    receive: String,
    transmit: String,
    broadcast: String,
}

/// A line of the table of word counts: all subaddresses with the same.
#[derive(Drop)]
struct TableLine<'a> {
    at: String,
    texts: &'a RowTexts,
}

/// Gives the word counts of a kind at the subaddress of a row.
fn counts_of(kind: MessageKind, row: &SubaddressRow) -> MessageCounts {
    MessageCounts {
        kind,
        subaddress: row.subaddress,
        counts: match kind {
            MessageKind::Receive => row.receive,
            MessageKind::Transmit => row.transmit,
            MessageKind::BroadcastReceive => row.broadcast,
        },
    }
}

/// Gives the cells of the line of a row, with the names of messages.
fn row_texts(
    alloc: Global,
    names: Option<&MessageNames>,
    row: &SubaddressRow,
) -> Result<RowTexts, AllocError> {
    Ok(RowTexts {
        is_legal: has_some(row),
        receive: counts_of(MessageKind::Receive, row).text(alloc, names)?,
        transmit: counts_of(MessageKind::Transmit, row).text(alloc, names)?,
        broadcast: counts_of(MessageKind::BroadcastReceive, row).text(alloc, names)?,
    })
}

/// Gives the cells of each subaddress.
fn all_texts(
    alloc: Global,
    normal: &Normal,
    names: Option<&MessageNames>,
) -> Result<Vec<RowTexts>, AllocError> {
    let mut texts = Vec::new(alloc);
    for s in 1..31u8 {
        texts.push(row_texts(alloc, names, &row_of(normal, s))?)?;
    }
    Ok(texts)
}

/// Tells whether at two subaddresses the same word counts are legal, of messages of the same names.
fn has_same(texts: &RowTexts, other: &RowTexts) -> bool {
    texts.receive == other.receive
        && texts.transmit == other.transmit
        && texts.broadcast == other.broadcast
}

/// Gives the subaddresses, bit `s - 1` for `s`, with the same cells.
fn subaddresses_like(all: &[RowTexts], texts: &RowTexts) -> u32 {
    let mut alike = 0u32;
    for (index, other) in all.iter().enumerate() {
        if index < 32 && has_same(texts, other) {
            alike |= 1 << index;
        }
    }
    alike
}

/// Gives the table of word counts: one line for all subaddresses with the same.
fn table_lines<'a>(alloc: Global, all: &'a [RowTexts]) -> Result<Vec<TableLine<'a>>, AllocError> {
    let mut lines = Vec::new(alloc);
    for (index, texts) in all.iter().enumerate() {
        let alike = subaddresses_like(all, texts);
        if texts.is_legal && alike.trailing_zeros() as usize == index {
            lines.push(TableLine {
                at: numbers_text(alloc, alike, 1)?,
                texts,
            })?;
        }
    }
    Ok(lines)
}

/// Adds a line of the table, with the widths of its first three columns.
fn push_line(
    text: &mut String,
    widths: (usize, usize, usize),
    cells: (&str, &str, &str, &str),
) -> Result<(), AllocError> {
    push_column(text, cells.0, widths.0)?;
    text.push_str("  ")?;
    push_column(text, cells.1, widths.1)?;
    text.push_str("  ")?;
    push_column(text, cells.2, widths.2)?;
    text.push_str("  ")?;
    text.push_str(cells.3)?;
    text.push_str("\n")
}

/// Writes the table of word counts. A column is as wide as it has to be, and at least 14 letters.
fn push_counts(
    alloc: Global,
    text: &mut String,
    normal: &Normal,
    names: Option<&MessageNames>,
) -> Result<(), AllocError> {
    let all = all_texts(alloc, normal, names)?;
    let lines = table_lines(alloc, all.as_slice())?;
    if lines.is_empty() {
        return writeln!(text, "\nno word count is legal at any subaddress");
    }
    let mut widths = (14, 14, 14);
    for line in lines.as_slice() {
        widths.0 = wider(widths.0, line.at.as_str());
        widths.1 = wider(widths.1, line.texts.receive.as_str());
        widths.2 = wider(widths.2, line.texts.transmit.as_str());
    }
    text.push_str("\n")?;
    let heads = ("subaddresses", "receive", "transmit", "broadcast receive");
    push_line(text, widths, heads)?;
    for line in lines.as_slice() {
        let cells = (
            line.at.as_str(),
            line.texts.receive.as_str(),
            line.texts.transmit.as_str(),
            line.texts.broadcast.as_str(),
        );
        push_line(text, widths, cells)?;
    }
    Ok(())
}

/// Writes the words that are held, up to the last of a subaddress that is not 0.
fn push_words(text: &mut String, normal: &Normal) -> Result<(), AllocError> {
    let mut started = false;
    for s in 1..31u8 {
        let row = row_of(normal, s);
        let len = words_in(&row);
        if len > 0 {
            if !started {
                writeln!(text, "\nwords at power-up")?;
                started = true;
            }
            write!(text, "{s:>2}:")?;
            for (index, word) in row.words.iter().enumerate() {
                if index < len {
                    write!(text, " {word:04x}")?;
                }
            }
            writeln!(text, "")?;
        }
    }
    Ok(())
}

/// Writes a mode code with its name, and that of its message.
fn push_code(
    alloc: Global,
    text: &mut String,
    names: Option<&MessageNames>,
    broadcast: bool,
    code: u8,
) -> Result<(), AllocError> {
    write!(text, "{code:>2}: {}", mode_name(code))?;
    push_name(alloc, text, name_in(names, code_cell(broadcast, code)))?;
    text.push_str("\n")
}

/// Writes the mode codes of a mask below a title, if there are any.
fn push_codes(
    alloc: Global,
    text: &mut String,
    names: Option<&MessageNames>,
    broadcast: bool,
    codes: u32,
) -> Result<(), AllocError> {
    if codes == 0 {
        return Ok(());
    }
    let title = if broadcast {
        "mode codes by broadcast"
    } else {
        "mode codes"
    };
    writeln!(text, "\n{title}")?;
    for code in 0..32u8 {
        if has_code(codes, code) {
            push_code(alloc, text, names, broadcast, code)?;
        }
    }
    Ok(())
}

/// Writes what is so beside the tables. What no mode code asks for is left out.
fn push_settings(text: &mut String, normal: &Normal, codes: Codes) -> Result<(), AllocError> {
    writeln!(text, "remote terminal {}", normal.address())?;
    let option = if normal.broadcast() {
        "heard"
    } else {
        "not heard"
    };
    writeln!(text, "broadcast:   {option}")?;
    match normal.wrap() {
        0 => writeln!(text, "wraparound:  none")?,
        s => writeln!(text, "wraparound:  at subaddress {s}")?,
    }
    if has_code(codes.own, DYNAMIC_BUS_CONTROL) {
        let accept = if normal.accept() {
            "accepted"
        } else {
            "not accepted"
        };
        writeln!(text, "bus control: {accept}")?;
    }
    if has_code(codes.own, VECTOR_WORD) {
        writeln!(text, "vector word: {:04x}", normal.vector())?;
    }
    if has_code(codes.own, BIT_WORD) {
        writeln!(text, "BIT word:    {:04x}", normal.bit())?;
    }
    Ok(())
}

/// How the table of word counts begins on a page.
const COUNTS_HEAD: &str =
    "<table>\n<thead><tr><th scope=\"col\">subaddresses</th><th scope=\"col\">receive</th><th scope=\"col\">transmit</th><th scope=\"col\">broadcast receive</th></tr></thead>\n<tbody>\n";

/// Writes a cell of the table of word counts on a page.
fn push_page_cell(page: &mut String, text: &str) -> Result<(), AllocError> {
    page.push_str("<td>")?;
    push_escaped(page, text)?;
    page.push_str("</td>")
}

/// Writes a line of the table of word counts on a page.
fn push_page_line(page: &mut String, line: &TableLine<'_>) -> Result<(), AllocError> {
    page.push_str("<tr>")?;
    push_page_cell(page, line.at.as_str())?;
    push_page_cell(page, line.texts.receive.as_str())?;
    push_page_cell(page, line.texts.transmit.as_str())?;
    push_page_cell(page, line.texts.broadcast.as_str())?;
    page.push_str("</tr>\n")
}

/// Writes the table of word counts on a page, or that none is legal.
fn push_page_counts(
    alloc: Global,
    page: &mut String,
    normal: &Normal,
    names: Option<&MessageNames>,
) -> Result<(), AllocError> {
    let all = all_texts(alloc, normal, names)?;
    let lines = table_lines(alloc, all.as_slice())?;
    if lines.is_empty() {
        return page.push_str("<p>no word count is legal at any subaddress</p>\n");
    }
    page.push_str(COUNTS_HEAD)?;
    for line in lines.as_slice() {
        push_page_line(page, line)?;
    }
    page.push_str("</tbody>\n</table>\n")
}

/// What `explain` tells, as a part of a page, HTML and well-formed XML too: what stands beside the table of word counts as lines of text.
pub fn explain_page(
    alloc: Global,
    normal: &Normal,
    names: Option<&MessageNames>,
) -> Result<String, AllocError> {
    let codes = codes_of(normal);
    let (mut settings, mut rest) = (String::new(alloc), String::new(alloc));
    push_settings(&mut settings, normal, codes)?;
    push_words(&mut rest, normal)?;
    push_codes(alloc, &mut rest, names, false, codes.own)?;
    push_codes(alloc, &mut rest, names, true, codes.broadcast)?;
    let mut page = String::new(alloc);
    page.push_str("<h2>What is legal, and what the terminal holds</h2>\n<pre>")?;
    push_escaped(&mut page, settings.as_str())?;
    page.push_str("</pre>\n")?;
    push_page_counts(alloc, &mut page, normal, names)?;
    page.push_str("<pre>")?;
    push_escaped(&mut page, rest.as_str())?;
    page.push_str("</pre>\n")?;
    Ok(page)
}

/// What a terminal does, as a text that a person reads; with the names of messages beside their numbers, where there are names.
pub fn explain(
    alloc: Global,
    normal: &Normal,
    names: Option<&MessageNames>,
) -> Result<String, AllocError> {
    let mut text = String::new(alloc);
    let codes = codes_of(normal);
    push_settings(&mut text, normal, codes)?;
    push_counts(alloc, &mut text, normal, names)?;
    push_words(&mut text, normal)?;
    push_codes(alloc, &mut text, names, false, codes.own)?;
    push_codes(alloc, &mut text, names, true, codes.broadcast)?;
    Ok(text)
}

/// A mode code as JSON.
#[derive(Drop, Serialize)]
struct Code {
    code: u8,
    name: &'static str,
    /// The name of its message, null for none; left out where there are no names.
    #[serde(skip_serializing_if = "Option::is_none")]
    message: Option<Option<String>>,
}

/// The names of the messages of a subaddress as JSON: one for each word count, null for none.
#[derive(Drop, Serialize)]
struct SubaddressNames {
    receive: Vec<Option<String>>,
    transmit: Vec<Option<String>>,
    broadcast_receive: Vec<Option<String>>,
}

/// A subaddress as JSON: the word counts that are legal, and the words that are held.
#[derive(Drop, Serialize)]
struct Subaddress {
    subaddress: u8,
    receive: Vec<u8>,
    transmit: Vec<u8>,
    broadcast_receive: Vec<u8>,
    words: Vec<u16>,
    /// Left out where there are no names.
    #[serde(skip_serializing_if = "Option::is_none")]
    names: Option<SubaddressNames>,
}

/// A terminal as JSON: null where no mode code asks for it, and where words come back nowhere.
#[derive(Drop, Serialize)]
struct Explanation {
    address: u8,
    broadcast: bool,
    wraparound: Option<u8>,
    accept_bus_control: Option<bool>,
    vector: Option<u16>,
    bit: Option<u16>,
    subaddresses: Vec<Subaddress>,
    mode_codes: Vec<Code>,
    broadcast_mode_codes: Vec<Code>,
}

/// Gives the name of the message of a mode code, None where there are no names.
fn code_message(
    alloc: Global,
    names: Option<&MessageNames>,
    broadcast: bool,
    code: u8,
) -> Result<Option<Option<String>>, AllocError> {
    match names {
        Some(names) => Ok(Some(owned(alloc, names.name_of(code_cell(broadcast, code)))?)),
        None => Ok(None),
    }
}

/// Gives mode codes with their names.
fn codes_list(
    alloc: Global,
    names: Option<&MessageNames>,
    broadcast: bool,
    codes: u32,
) -> Result<Vec<Code>, AllocError> {
    let mut list = Vec::new(alloc);
    for code in 0..32u8 {
        if has_code(codes, code) {
            list.push(Code {
                code,
                name: mode_name(code),
                message: code_message(alloc, names, broadcast, code)?,
            })?;
        }
    }
    Ok(list)
}

/// Gives the names of the messages of a row, None where there are no names.
fn row_names(
    alloc: Global,
    names: Option<&MessageNames>,
    row: &SubaddressRow,
) -> Result<Option<SubaddressNames>, AllocError> {
    let Some(names) = names else {
        return Ok(None);
    };
    Ok(Some(SubaddressNames {
        receive: counts_of(MessageKind::Receive, row).list(alloc, names)?,
        transmit: counts_of(MessageKind::Transmit, row).list(alloc, names)?,
        broadcast_receive: counts_of(MessageKind::BroadcastReceive, row).list(alloc, names)?,
    }))
}

/// Gives the subaddresses at which some word count is legal.
fn rows_list(
    alloc: Global,
    normal: &Normal,
    names: Option<&MessageNames>,
) -> Result<Vec<Subaddress>, AllocError> {
    let mut list = Vec::new(alloc);
    for s in 1..31u8 {
        let row = row_of(normal, s);
        if has_some(&row) {
            list.push(Subaddress {
                subaddress: s,
                receive: numbers_list(alloc, row.receive, 1)?,
                transmit: numbers_list(alloc, row.transmit, 1)?,
                broadcast_receive: numbers_list(alloc, row.broadcast, 1)?,
                words: Vec::from_slice(alloc, &row.words[..words_in(&row)])?,
                names: row_names(alloc, names, &row)?,
            })?;
        }
    }
    Ok(list)
}

/// Gives the value where the mode code that asks for it is legal.
fn if_asked<T>(codes: Codes, code: u8, value: T) -> Option<T>
where
    T: Drop,
{
    if has_code(codes.own, code) {
        Some(value)
    } else {
        None
    }
}

/// What a terminal does, as JSON, with the names of messages, where there are names; None where memory runs out.
pub fn explain_json(
    alloc: Global,
    normal: &Normal,
    names: Option<&MessageNames>,
) -> Option<String> {
    let codes = codes_of(normal);
    let explanation = Explanation {
        address: normal.address(),
        broadcast: normal.broadcast(),
        wraparound: match normal.wrap() {
            0 => None,
            s => Some(s),
        },
        accept_bus_control: if_asked(codes, DYNAMIC_BUS_CONTROL, normal.accept()),
        vector: if_asked(codes, VECTOR_WORD, normal.vector()),
        bit: if_asked(codes, BIT_WORD, normal.bit()),
        subaddresses: rows_list(alloc, normal, names).ok()?,
        mode_codes: codes_list(alloc, names, false, codes.own).ok()?,
        broadcast_mode_codes: codes_list(alloc, names, true, codes.broadcast).ok()?,
    };
    serde_json::to_string(alloc, &explanation).ok()
}
