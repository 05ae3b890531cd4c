//! The full table, which leaves nothing out.
ghost use Rattle.std.specs.Prelude.{◌≡◌, ◌<◌, ◌++◌, drop, IfOk, OnOk};
ghost use Rattle.std.specs.List.{zip};
ghost use Rattle.rt1553_toml.specs.inner.FullTree.{from_number};
ghost use Rattle.rt1553_export.specs.inner.Rows.{setting_cells, row_bytes, rows_text};
ghost use Rattle.rt1553_export.specs.inner.Full.{yes_no, legal_cell, word_cell, wrap_cell, spaced_words, receive_row, transmit_row, mode_codes_row, all_settings, all_messages, all_codes, full_text};

use crate::records::{MessageCells, push_header, push_message_cells, push_mode, push_setting};
use bus_legal::{Normal, Tables};
use rt1553_toml::sets::{set_text, two_digits};
use script_lines::digits_of;
use std::alloc::{AllocError, Global};

/// A truth value.
fn yes_no(truth: bool) -> &'static [u8]
    ensures { result.now ≡ yes_no truth }
{
    if truth { b"yes" } else { b"no" }
}

/// What the column `legal` says of a set: no where it is empty.
fn legal_cell(mask: u32) -> &'static [u8]
    ensures { result.now ≡ legal_cell mask }
{
    yes_no(mask != 0)
}

/// A word in hexadecimal.
fn word_cell(word: u16) -> [u8; 6]
    ensures { result ≡ word_cell word }
{
    let digits = digits_of(word);
    [b'0', b'x', digits[0], digits[1], digits[2], digits[3]]
}

/// Words, each behind a space.
fn spaced_words(alloc: Global, words: &[u16; 32]) -> Result<Vec<u8>, AllocError>
    ensures { IfOk result (λ text. text.items ≡ spaced_words words.now) }
{
    let mut text = Vec::new(alloc);
    for word in words {
        text.push(b' ')?;
        text.extend_from_slice(&digits_of(*word))?;
    }
    Ok(text)
}

/// The wraparound subaddress, or that there is none.
fn wrap_cell(wrap: u8) -> [u8; 2]
    requires { wrap < 100 }
    ensures { result ≡ wrap_cell wrap }
{
    if wrap == 0 { *b"no" } else { two_digits(wrap) }
}

/// Adds all settings.
fn push_settings(alloc: Global, text: &mut Vec<u8>, normal: &Normal) -> Result<(), AllocError>
    ensures { OnOk result (text.new.items ≡ text.old.items ++ rows_text (all_settings normal.now)) }
{
    // its clause says that numbers are in their ranges
    normal.setup();
    push_setting(alloc, text, b"address", &two_digits(normal.address()))?;
    push_setting(alloc, text, b"broadcast", yes_no(normal.broadcast()))?;
    push_setting(alloc, text, b"wraparound", &wrap_cell(normal.wrap()))?;
    push_setting(alloc, text, b"accept_bus_control", yes_no(normal.accept()))?;
    push_setting(alloc, text, b"vector", &word_cell(normal.vector()))?;
    push_setting(alloc, text, b"bit", &word_cell(normal.bit()))
}

/// Adds the receive commands of a subaddress.
fn push_receive(
    alloc: Global,
    text: &mut Vec<u8>,
    to: &[u8],
    subaddress: u8,
    counts: u32,
) -> Result<(), AllocError>
    requires { subaddress < 100 }
    ensures { OnOk result (text.new.items ≡ text.old.items ++ row_bytes (receive_row to.now subaddress counts)) }
{
    let words = set_text(alloc, 1, counts)?;
    let message = MessageCells {
        direction: b"receive",
        subaddress: &two_digits(subaddress),
        words: words.as_str().as_bytes(),
        to,
        initial: b"",
        legal: legal_cell(counts),
    };
    push_message_cells(alloc, text, message)
}

/// Adds the receive commands of all subaddresses.
fn push_receives(
    alloc: Global,
    text: &mut Vec<u8>,
    to: &[u8],
    masks: &[u32; 30],
) -> Result<(), AllocError>
    ensures { OnOk result (text.new.items ≡ text.old.items ++ rows_text (from_number (receive_row to.now) 1 masks.now)) }
{
    for index in 0..30u8 {
        push_receive(alloc, text, to, index + 1, masks[usize::from(index)])?;
    }
    Ok(())
}

/// A text without its first byte.
fn behind_first(text: &[u8]) -> &[u8]
    ensures { result.now ≡ drop 1 text.now }
{
    match text {
        [_, behind @ ..] => behind,
        [] => text,
    }
}

/// Adds the transmit commands of a subaddress, with the words that it holds.
fn push_transmit(
    alloc: Global,
    text: &mut Vec<u8>,
    subaddress: u8,
    counts: u32,
    row: &[u16; 32],
) -> Result<(), AllocError>
    requires { subaddress < 100 }
    ensures { OnOk result (text.new.items ≡ text.old.items ++ row_bytes (transmit_row subaddress (counts, row.now))) }
{
    let words = set_text(alloc, 1, counts)?;
    let held = spaced_words(alloc, row)?;
    let message = MessageCells {
        direction: b"transmit",
        subaddress: &two_digits(subaddress),
        words: words.as_str().as_bytes(),
        to: b"own",
        initial: behind_first(held.as_slice()),
        legal: legal_cell(counts),
    };
    push_message_cells(alloc, text, message)
}

/// Adds the transmit commands of all subaddresses.
fn push_transmits(
    alloc: Global,
    text: &mut Vec<u8>,
    masks: &[u32; 30],
    words: &[[u16; 32]; 30],
) -> Result<(), AllocError>
    ensures { OnOk result (text.new.items ≡ text.old.items ++ rows_text (from_number transmit_row 1 (zip masks.now words.now))) }
{
    for index in 0..30u8 {
        let at = usize::from(index);
        push_transmit(alloc, text, index + 1, masks[at], &words[at])?;
    }
    Ok(())
}

/// Adds all messages of data.
fn push_messages(alloc: Global, text: &mut Vec<u8>, normal: &Normal) -> Result<(), AllocError>
    ensures { OnOk result (text.new.items ≡ text.old.items ++ rows_text (all_messages normal.now)) }
{
    let tables = normal.tables();
    push_receives(alloc, text, b"own", &tables.own_receive)?;
    push_transmits(alloc, text, &tables.own_transmit, normal.initial())?;
    push_receives(alloc, text, b"broadcast", &tables.broadcast_receive)
}

/// Adds mode codes.
fn push_codes(alloc: Global, text: &mut Vec<u8>, to: &[u8], mask: u32) -> Result<(), AllocError>
    ensures { OnOk result (text.new.items ≡ text.old.items ++ row_bytes (mode_codes_row to.now mask)) }
{
    let set = set_text(alloc, 0, mask)?;
    push_mode(
        alloc,
        text,
        set.as_str().as_bytes(),
        to,
        legal_cell(mask),
        b"",
    )
}

/// Adds the mode codes of both kinds.
fn push_all_codes(alloc: Global, text: &mut Vec<u8>, tables: &Tables) -> Result<(), AllocError>
    ensures { OnOk result (text.new.items ≡ text.old.items ++ rows_text (all_codes tables.now)) }
{
    push_codes(alloc, text, b"own", tables.own_mode)?;
    push_codes(alloc, text, b"broadcast", tables.broadcast_mode)
}

/// The text of the full table.
pub fn full_text(alloc: Global, normal: &Normal) -> Result<Vec<u8>, AllocError>
    ensures { IfOk result (λ text. text.items ≡ full_text normal.now) }
{
    let mut text = Vec::new(alloc);
    push_header(alloc, &mut text)?;
    push_settings(alloc, &mut text, normal)?;
    push_messages(alloc, &mut text, normal)?;
    push_all_codes(alloc, &mut text, normal.tables())?;
    Ok(text)
}
