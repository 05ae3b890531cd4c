//! What differs, as text and as JSON.
use crate::columns::{push_column, wider};
use crate::explained::word_at;
use crate::groups::Group;
use crate::lines::{DifferenceLine, Label, Values, lines_of};
use crate::named::names_of;
use crate::scripts::{script_lines, script_of};
use bus_canon::Difference;
use bus_legal::{Legality, Normal};
use bus_word::Cell;
use message_names::MessageNames;
use serde::Serialize;
use std::alloc::{AllocError, Global};
use std::format;

/// Gives the lines of the script that shows the first difference of a group, where there is one.
fn lines_showing(
    alloc: Global,
    p: &Normal,
    q: &Normal,
    group: &Group,
) -> Result<Option<Vec<String>>, AllocError> {
    match script_of(p, q, group.difference) {
        Some(script) => Ok(Some(script_lines(alloc, &script)?)),
        None => Ok(None),
    }
}

/// The two terminals that differ, and what they are called.
#[derive(Clone, Copy)]
pub struct Pair<'a> {
    pub p: &'a Normal,
    pub q: &'a Normal,
    pub first: &'a str,
    pub second: &'a str,
    /// The names of messages, where there are names.
    pub names: Option<&'a MessageNames>,
}

/// Gives the names of the messages of a line with a space before them, empty for none.
fn line_names(alloc: Global, pair: &Pair<'_>, line: &DifferenceLine) -> Result<String, AllocError> {
    let Some(names) = pair.names else {
        return Ok(String::new(alloc));
    };
    let counts = match line.other {
        Some(other) => line.group.counts | other.counts,
        None => line.group.counts,
    };
    names_of(alloc, names, pair.p, &line.group, counts)?.text(alloc)
}

/// Gives what stands before the columns of the lines.
fn labels_of(
    alloc: Global,
    pair: &Pair<'_>,
    lines: &[DifferenceLine],
) -> Result<Vec<String>, AllocError> {
    let mut labels = Vec::new(alloc);
    for line in lines {
        let names = line_names(alloc, pair, line)?;
        let label = Label {
            group: line.group,
            names: names.as_str(),
        };
        labels.push(format!(in alloc; "{label}")?)?;
    }
    Ok(labels)
}

/// Gives the width of the labels.
fn width_of(labels: &[String]) -> usize {
    let mut width = 0;
    for label in labels {
        width = wider(width, label.as_str());
    }
    width
}

/// Adds a line: its label, and in a column what is so in each of the two.
fn push_line(
    text: &mut String,
    pair: &Pair<'_>,
    line: &DifferenceLine,
    label: &str,
    width: usize,
) -> Result<(), AllocError> {
    let values = Values {
        line: *line,
        p: pair.p,
        q: pair.q,
        first: pair.first,
        second: pair.second,
    };
    push_column(text, label, width)?;
    writeln!(text, " {values}")
}

/// Adds the script that shows the first difference of a group, indented, where there is one.
fn push_script(
    alloc: Global,
    text: &mut String,
    pair: &Pair<'_>,
    group: &Group,
) -> Result<(), AllocError> {
    if let Some(lines) = lines_showing(alloc, pair.p, pair.q, group)? {
        for event in lines.as_slice() {
            writeln!(text, "    {}", event.as_str())?;
        }
    }
    Ok(())
}

/// What differs, a line for each group, or for two of the same subaddresses: in what, and in a column what is so in each. With
/// scripts behind each line that of the first difference of its first group, indented, where there is one.
pub fn differ_text(
    alloc: Global,
    pair: &Pair<'_>,
    groups: &[Group],
    with_scripts: bool,
) -> Result<String, AllocError> {
    let mut text = String::new(alloc);
    let lines = lines_of(alloc, groups)?;
    let labels = labels_of(alloc, pair, lines.as_slice())?;
    let width = width_of(labels.as_slice());
    for (line, label) in lines.as_slice().iter().zip(labels.as_slice()) {
        push_line(&mut text, pair, line, label.as_str(), width)?;
        if with_scripts {
            push_script(alloc, &mut text, pair, &line.group)?;
        }
    }
    Ok(text)
}

/// A group as JSON.
#[derive(Drop, Serialize)]
struct DifferenceEntry {
    /// In what the two differ.
    what: &'static str,
    subaddresses: Vec<u8>,
    /// Word counts, a mode code, or the number of a word.
    numbers: Vec<u8>,
    /// The names of its messages, each once; left out where there are no names.
    #[serde(skip_serializing_if = "Option::is_none")]
    names: Option<Vec<String>>,
    /// What is so in the first, and in the second.
    first: String,
    second: String,
    /// The lines of the script that shows it; null where there is none, or none was asked for.
    script: Option<Vec<String>>,
}

/// Gives what a kind of difference is called.
fn name_of(difference: Difference) -> &'static str {
    match difference {
        Difference::Address => "address",
        Difference::BroadcastOption => "broadcast",
        Difference::ReceiveCell(_, _) => "receive",
        Difference::TransmitCell(_, _) => "transmit",
        Difference::BroadcastReceiveCell(_, _) => "broadcast receive",
        Difference::OwnCode(_) => "mode code",
        Difference::BroadcastCode(_) => "broadcast mode code",
        Difference::Acceptance => "bus control",
        Difference::VectorWord => "vector word",
        Difference::BitWord => "BIT word",
        Difference::InitialWord(_, _) => "word",
        Difference::Wraparound => "wraparound",
    }
}

/// Gives what is said of a cell.
fn legality(normal: &Normal, cell: Cell) -> &'static str {
    if normal.legal(cell) {
        "legal"
    } else {
        "illegal"
    }
}

/// Gives what a truth value is called.
fn truth(value: bool) -> &'static str {
    if value { "true" } else { "false" }
}

/// Gives what is so in a terminal, of what differs.
fn value_text(
    alloc: Global,
    normal: &Normal,
    difference: Difference,
) -> Result<String, AllocError> {
    match difference {
        Difference::Address => format!(in alloc; "{}", normal.address()),
        Difference::BroadcastOption => String::from_str(alloc, truth(normal.broadcast())),
        Difference::ReceiveCell(s, n) => {
            String::from_str(alloc, legality(normal, Cell::OwnReceive(s, n)))
        }
        Difference::TransmitCell(s, n) => {
            String::from_str(alloc, legality(normal, Cell::OwnTransmit(s, n)))
        }
        Difference::BroadcastReceiveCell(s, n) => {
            String::from_str(alloc, legality(normal, Cell::BroadReceive(s, n)))
        }
        Difference::OwnCode(code) => String::from_str(alloc, legality(normal, Cell::OwnMode(code))),
        Difference::BroadcastCode(code) => {
            String::from_str(alloc, legality(normal, Cell::BroadMode(code)))
        }
        Difference::Acceptance => String::from_str(alloc, truth(normal.accept())),
        Difference::VectorWord => format!(in alloc; "{:04x}", normal.vector()),
        Difference::BitWord => format!(in alloc; "{:04x}", normal.bit()),
        Difference::InitialWord(s, i) => format!(in alloc; "{:04x}", word_at(normal, s, i)),
        Difference::Wraparound => format!(in alloc; "{}", normal.wrap()),
    }
}

/// Gives the numbers of a mask, of which the first is 1.
fn numbers_in(alloc: Global, bits: u32) -> Result<Vec<u8>, AllocError> {
    let mut list = Vec::new(alloc);
    for bit in 0..32u8 {
        if (bits >> bit) & 1 == 1 {
            list.push(bit + 1)?;
        }
    }
    Ok(list)
}

/// Gives the subaddresses and the numbers of a group.
fn places_of(alloc: Global, group: &Group) -> Result<(Vec<u8>, Vec<u8>), AllocError> {
    let mut subaddresses = numbers_in(alloc, group.subaddresses)?;
    let mut numbers = numbers_in(alloc, group.counts)?;
    match group.difference {
        Difference::OwnCode(code) | Difference::BroadcastCode(code) => numbers.push(code)?,
        Difference::InitialWord(s, i) => {
            subaddresses.push(s)?;
            numbers.push(i)?;
        }
        _ => {}
    }
    Ok((subaddresses, numbers))
}

/// Gives the names of the messages of a group, None where there are no names.
fn group_names(
    alloc: Global,
    pair: &Pair<'_>,
    group: &Group,
) -> Result<Option<Vec<String>>, AllocError> {
    let Some(names) = pair.names else {
        return Ok(None);
    };
    let list = names_of(alloc, names, pair.p, group, group.counts)?;
    Ok(Some(list.list(alloc)?))
}

/// Gives a group as JSON has it.
fn difference_entry(
    alloc: Global,
    pair: &Pair<'_>,
    group: &Group,
    with_scripts: bool,
) -> Result<DifferenceEntry, AllocError> {
    let (subaddresses, numbers) = places_of(alloc, group)?;
    let script = if with_scripts {
        lines_showing(alloc, pair.p, pair.q, group)?
    } else {
        None
    };
    Ok(DifferenceEntry {
        what: name_of(group.difference),
        subaddresses,
        numbers,
        names: group_names(alloc, pair, group)?,
        first: value_text(alloc, pair.p, group.difference)?,
        second: value_text(alloc, pair.q, group.difference)?,
        script,
    })
}

/// What differs as JSON: an array of the groups. None where memory runs out.
pub fn differ_json(
    alloc: Global,
    pair: &Pair<'_>,
    groups: &[Group],
    with_scripts: bool,
) -> Option<String> {
    let mut entries = Vec::new(alloc);
    for group in groups {
        entries
            .push(difference_entry(alloc, pair, group, with_scripts).ok()?)
            .ok()?;
    }
    serde_json::to_string(alloc, &entries).ok()
}
