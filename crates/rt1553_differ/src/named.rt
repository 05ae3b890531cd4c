//! The names of the messages of differences.
use crate::groups::Group;
use bus_canon::Difference;
use bus_legal::{Legality, Normal};
use bus_word::Cell;
use message_names::{MessageCounts, MessageKind, MessageNames, NameList, has_number};
use std::alloc::{AllocError, Global};

/// The cell of a mode code, by broadcast or to the own address.
pub fn code_cell(broadcast: bool, code: u8) -> Cell {
    if broadcast {
        Cell::BroadMode(code)
    } else {
        Cell::OwnMode(code)
    }
}

/// Adds the names of the messages of a kind at the subaddresses of a group, with these word counts.
fn add_counts<'a>(
    list: &mut NameList<'a>,
    names: &'a MessageNames,
    kind: MessageKind,
    group: &Group,
    counts: u32,
) -> Result<(), AllocError> {
    for s in 1..31u8 {
        if has_number(group.subaddresses, s) {
            let of = MessageCounts {
                kind,
                subaddress: s,
                counts,
            };
            list.add_counts(names, of)?;
        }
    }
    Ok(())
}

/// The name of a word that is held: that of the message of the least word count by which the terminal transmits it.
fn word_name<'a>(names: &'a MessageNames, normal: &Normal, s: u8, i: u8) -> Option<&'a str> {
    for n in i..33u8 {
        let cell = Cell::OwnTransmit(s, n);
        if normal.legal(cell) {
            return names.name_of(cell);
        }
    }
    None
}

/// The names of the messages that a group is of, by subaddresses and word counts, of which these are told. Which message transmits a word
/// that is held is what the terminal says.
pub fn names_of<'a>(
    alloc: Global,
    names: &'a MessageNames,
    normal: &Normal,
    group: &Group,
    counts: u32,
) -> Result<NameList<'a>, AllocError> {
    let mut list = NameList::new(alloc);
    match group.difference {
        Difference::ReceiveCell(_, _) => {
            add_counts(&mut list, names, MessageKind::Receive, group, counts)?
        }
        Difference::TransmitCell(_, _) => {
            add_counts(&mut list, names, MessageKind::Transmit, group, counts)?
        }
        Difference::BroadcastReceiveCell(_, _) => {
            add_counts(
                &mut list,
                names,
                MessageKind::BroadcastReceive,
                group,
                counts,
            )?
        }
        Difference::OwnCode(code) => list.add(names.name_of(Cell::OwnMode(code)))?,
        Difference::BroadcastCode(code) => list.add(names.name_of(Cell::BroadMode(code)))?,
        Difference::InitialWord(s, i) => list.add(word_name(names, normal, s, i))?,
        _ => {}
    }
    Ok(list)
}
