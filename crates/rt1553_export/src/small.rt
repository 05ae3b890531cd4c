//! The small table: what a spreadsheet should show.
use crate::records::{MessageCells, push_header, push_message_cells, push_mode, push_setting};
use bus_legal::{Normal, Numbers, Tables};
use bus_word::mode_name;
use rt1553_toml::groups::{
    RuleGroup, broadcast_groups, held_len, named_wrap, own_codes, own_groups,
};
use std::alloc::{AllocError, Global};

/// Adds a setting whose value is a number.
fn push_number(
    alloc: Global,
    text: &mut Vec<u8>,
    kind: &[u8],
    number: u8,
) -> Result<(), AllocError> {
    let value = format!(in alloc; "{number}")?;
    push_setting(alloc, text, kind, value.as_str().as_bytes())
}

/// Adds a setting whose value is a word, where it isn't 0.
fn push_word(alloc: Global, text: &mut Vec<u8>, kind: &[u8], word: u16) -> Result<(), AllocError> {
    if word == 0 {
        return Ok(());
    }
    let value = format!(in alloc; "0x{word:04x}")?;
    push_setting(alloc, text, kind, value.as_str().as_bytes())
}

/// Adds the wraparound subaddress, where it isn't the one that a profile has by default.
fn push_wrap(alloc: Global, text: &mut Vec<u8>, normal: &Normal) -> Result<(), AllocError> {
    match named_wrap(normal) {
        None => Ok(()),
        Some(0) => push_setting(alloc, text, b"wraparound", b"no"),
        Some(subaddress) => push_number(alloc, text, b"wraparound", subaddress),
    }
}

/// Adds the settings, each where its value isn't the one of a profile that leaves it out.
fn push_settings(alloc: Global, text: &mut Vec<u8>, normal: &Normal) -> Result<(), AllocError> {
    push_number(alloc, text, b"address", normal.address())?;
    if normal.broadcast() {
        push_setting(alloc, text, b"broadcast", b"yes")?;
    }
    push_wrap(alloc, text, normal)?;
    if normal.accept() {
        push_setting(alloc, text, b"accept_bus_control", b"yes")?;
    }
    push_word(alloc, text, b"vector", normal.vector())?;
    push_word(alloc, text, b"bit", normal.bit())
}

/// The text of word counts.
fn counts_text(alloc: Global, counts: u32) -> Result<String, AllocError> {
    format!(in alloc;
        "{}",
        Numbers {
            bits: counts,
            first: 1
        }
    )
}

/// Adds messages of data that are alike.
fn push_group(alloc: Global, text: &mut Vec<u8>, group: &RuleGroup) -> Result<(), AllocError> {
    let subaddresses = Numbers {
        bits: group.subaddresses,
        first: 1,
    };
    let subaddress = format!(in alloc; "{subaddresses}")?;
    let words = counts_text(alloc, group.counts)?;
    let to = if group.to == "own" { "" } else { group.to };
    let message = MessageCells {
        direction: group.direction.as_bytes(),
        subaddress: subaddress.as_str().as_bytes(),
        words: words.as_str().as_bytes(),
        to: to.as_bytes(),
        initial: b"",
        legal: b"",
    };
    push_message_cells(alloc, text, message)
}

/// Adds all of these.
fn push_groups(alloc: Global, text: &mut Vec<u8>, groups: &[RuleGroup]) -> Result<(), AllocError> {
    for group in groups {
        push_group(alloc, text, group)?;
    }
    Ok(())
}

/// The legal transmit commands, without those of subaddresses that hold words: each of these has a row of its own.
fn without_held(normal: &Normal) -> [u32; 30] {
    let mut masks = normal.tables().own_transmit;
    for (index, row) in normal.initial().iter().enumerate() {
        if held_len(row) != 0 {
            masks[index] = 0;
        }
    }
    masks
}

/// The first so many words, with spaces between them.
fn words_text(alloc: Global, row: &[u16; 32], len: usize) -> Result<String, AllocError> {
    let mut text = String::new(alloc);
    for (index, word) in row.iter().enumerate() {
        if index < len {
            if 0 < index {
                text.push(' ')?;
            }
            write!(text, "{word:04x}")?;
        }
    }
    Ok(text)
}

/// Adds the transmit commands of a subaddress with the words that it holds, if it holds some.
fn push_held(
    alloc: Global,
    text: &mut Vec<u8>,
    subaddress: usize,
    counts: u32,
    row: &[u16; 32],
) -> Result<(), AllocError> {
    let len = held_len(row);
    if len == 0 {
        return Ok(());
    }
    let subaddress = format!(in alloc; "{subaddress}")?;
    let words = counts_text(alloc, counts)?;
    let initial = words_text(alloc, row, len)?;
    let message = MessageCells {
        direction: b"transmit",
        subaddress: subaddress.as_str().as_bytes(),
        words: words.as_str().as_bytes(),
        to: b"",
        initial: initial.as_str().as_bytes(),
        legal: b"",
    };
    push_message_cells(alloc, text, message)
}

/// Adds the transmit commands of all subaddresses that hold words.
fn push_all_held(alloc: Global, text: &mut Vec<u8>, normal: &Normal) -> Result<(), AllocError> {
    let masks = &normal.tables().own_transmit;
    for (index, row) in normal.initial().iter().enumerate() {
        push_held(alloc, text, index + 1, masks[index], row)?;
    }
    Ok(())
}

/// The text of where a mode code is legal, if it is.
fn mode_to(own: bool, broadcast: bool) -> Option<&'static str> {
    match (own, broadcast) {
        (true, true) => Some("both"),
        (true, false) => Some(""),
        (false, true) => Some("broadcast"),
        (false, false) => None,
    }
}

/// Adds the mode codes that are legal, each with its name.
fn push_modes(alloc: Global, text: &mut Vec<u8>, tables: &Tables) -> Result<(), AllocError> {
    let own = own_codes(tables);
    for code in 0..32u8 {
        let is_own = (own >> code) & 1 == 1;
        let is_broadcast = (tables.broadcast_mode >> code) & 1 == 1;
        if let Some(to) = mode_to(is_own, is_broadcast) {
            let number = format!(in alloc; "{code}")?;
            push_mode(
                alloc,
                text,
                number.as_str().as_bytes(),
                to.as_bytes(),
                b"",
                mode_name(code).as_bytes(),
            )?;
        }
    }
    Ok(())
}

/// Writes the table. That it means just this terminal isn't said here.
pub fn write_table(alloc: Global, normal: &Normal) -> Result<Vec<u8>, AllocError> {
    let mut text = Vec::new(alloc);
    let tables = normal.tables();
    push_header(alloc, &mut text)?;
    push_settings(alloc, &mut text, normal)?;
    let own = own_groups(alloc, &tables.own_receive, &without_held(normal))?;
    push_groups(alloc, &mut text, own.as_slice())?;
    push_all_held(alloc, &mut text, normal)?;
    let broadcast = broadcast_groups(alloc, &tables.broadcast_receive)?;
    push_groups(alloc, &mut text, broadcast.as_slice())?;
    push_modes(alloc, &mut text, tables)?;
    Ok(text)
}
