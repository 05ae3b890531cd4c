//! The text of a proposal, with what each entry rests on.
use crate::evidence::CellShown;
use crate::proposal::{Proposal, Unseen};
use bus_legal::{Numbers, Tables};
use bus_word::{Cell, has_bit, mode_name};
use rt1553_toml::groups::{RuleGroup, broadcast_groups, own_codes, own_groups};
use std::alloc::{AllocError, Global};
use std::fmt;

/// A cell, in a comment.
#[derive(Clone, Copy)]
struct CellText(Cell);

/// Writes a command to receive or to transmit data.
fn write_data<W: fmt::Write>(
    f: &mut fmt::Formatter<W>,
    direction: &str,
    subaddress: u8,
    count: u8,
) -> fmt::Result {
    let words = if count == 1 { "word" } else { "words" };
    write!(f, "{direction} {subaddress}, {count} {words}")
}

impl fmt::Display for CellText {
    fn fmt<W: fmt::Write>(&self, f: &mut fmt::Formatter<W>) -> fmt::Result {
        match self.0 {
            Cell::OwnReceive(s, n) => write_data(f, "receive", s, n),
            Cell::OwnTransmit(s, n) => write_data(f, "transmit", s, n),
            Cell::BroadReceive(s, n) => write_data(f, "broadcast, receive", s, n),
            Cell::OwnMode(code) => write!(f, "{code}, {}", mode_name(code)),
            Cell::BroadMode(code) => write!(f, "broadcast, {code}, {}", mode_name(code)),
        }
    }
}

/// Whether a number from 1 on is in a mask whose bit 0 stands for 1.
fn has_number(mask: u32, number: u8) -> bool {
    1 <= number && number <= 32 && has_bit(mask, number - 1)
}

/// Whether a group has a cell, by where its command goes to and by its direction.
fn is_in(group: &RuleGroup, cell: Cell) -> bool {
    match cell {
        Cell::OwnReceive(s, _) => group.to == "own"
            && group.direction != "transmit"
            && has_number(group.subaddresses, s),
        Cell::OwnTransmit(s, _) => group.to == "own"
            && group.direction != "receive"
            && has_number(group.subaddresses, s),
        Cell::BroadReceive(s, _) => group.to != "own" && has_number(group.subaddresses, s),
        Cell::OwnMode(_) | Cell::BroadMode(_) => false,
    }
}

/// Writes the lines of what a rule rests on.
fn push_rule_lines(
    text: &mut String,
    group: &RuleGroup,
    shown: &[CellShown],
) -> Result<(), AllocError> {
    for it in shown {
        if is_in(group, it.cell) {
            writeln!(text, "# {}: line {}", CellText(it.cell), it.line)?;
        }
    }
    Ok(())
}

/// Writes a rule, and before it what it rests on.
fn push_rule(text: &mut String, group: &RuleGroup, shown: &[CellShown]) -> Result<(), AllocError> {
    writeln!(text)?;
    push_rule_lines(text, group, shown)?;
    writeln!(text, "[[rule]]")?;
    if group.to != "own" {
        writeln!(text, "to = \"{}\"", group.to)?;
    }
    writeln!(text, "direction = \"{}\"", group.direction)?;
    let subaddresses = Numbers {
        bits: group.subaddresses,
        first: 1,
    };
    writeln!(text, "subaddresses = \"{subaddresses}\"")?;
    if group.counts != u32::MAX {
        let counts = Numbers {
            bits: group.counts,
            first: 1,
        };
        writeln!(text, "counts = \"{counts}\"")?;
    }
    Ok(())
}

/// Writes the rules.
fn push_rules(
    alloc: Global,
    text: &mut String,
    legal: &Tables,
    shown: &[CellShown],
) -> Result<(), AllocError> {
    let own = own_groups(alloc, &legal.own_receive, &legal.own_transmit)?;
    for group in own.as_slice() {
        push_rule(text, group, shown)?;
    }
    let broadcast = broadcast_groups(alloc, &legal.broadcast_receive)?;
    for group in broadcast.as_slice() {
        push_rule(text, group, shown)?;
    }
    Ok(())
}

/// The code of a cell, own or by broadcast.
fn code_of(cell: Cell, broadcast: bool) -> Option<u8> {
    match cell {
        Cell::OwnMode(code) if !broadcast => Some(code),
        Cell::BroadMode(code) if broadcast => Some(code),
        _ => None,
    }
}

/// The line of what shows a mode code.
fn line_of(shown: &[CellShown], broadcast: bool, code: u8) -> Option<u64> {
    for it in shown {
        if code_of(it.cell, broadcast) == Some(code) {
            return Some(it.line);
        }
    }
    None
}

/// Writes what a mode code that is legal rests on.
fn push_code_line(
    text: &mut String,
    code: u8,
    line: Option<u64>,
    is_tried: bool,
) -> Result<(), AllocError> {
    let name = mode_name(code);
    match line {
        Some(line) => writeln!(text, "# {code}, {name}: line {line}"),
        None if is_tried => writeln!(text, "# {code}, {name}: tried"),
        None => writeln!(text, "# {code}, {name}: not shown"),
    }
}

/// Writes the mode codes of one kind that are legal, and before them what they rest on.
fn push_codes(
    text: &mut String,
    broadcast: bool,
    codes: u32,
    acting: u32,
    shown: &[CellShown],
) -> Result<(), AllocError> {
    if codes == 0 {
        return Ok(());
    }
    writeln!(text)?;
    for code in 0..32u8 {
        if has_bit(codes, code) {
            push_code_line(
                text,
                code,
                line_of(shown, broadcast, code),
                has_bit(acting, code),
            )?;
        }
    }
    writeln!(text, "[[mode]]")?;
    if broadcast {
        writeln!(text, "to = \"broadcast\"")?;
    }
    let codes = Numbers {
        bits: codes,
        first: 0,
    };
    writeln!(text, "codes = \"{codes}\"")
}

/// Writes the mode codes that are illegal since the recording is explained so.
fn push_tried(text: &mut String, before: &str, codes: u32) -> Result<(), AllocError> {
    for code in 0..32u8 {
        if has_bit(codes, code) {
            writeln!(text, "# {before}{code}, {}: tried", mode_name(code))?;
        }
    }
    Ok(())
}

/// Writes which commands are illegal, and what shows it.
fn push_refused(text: &mut String, proposal: &Proposal, legal: &Tables) -> Result<(), AllocError> {
    let refused = proposal.evidence.refused.as_slice();
    let illegal = &proposal.evidence.illegal;
    let own = proposal.acting_own() & !legal.own_mode & !illegal.own_mode;
    let broadcast = proposal.acting_broadcast() & !legal.broadcast_mode & !illegal.broadcast_mode;
    if refused.is_empty() && own == 0 && broadcast == 0 {
        return Ok(());
    }
    writeln!(text, "\n# Illegal:")?;
    for it in refused {
        writeln!(text, "# {}: line {}", CellText(it.cell), it.line)?;
    }
    push_tried(text, "", own)?;
    push_tried(text, "broadcast, ", broadcast)
}

/// Writes what the comments mean, and the keys with one value.
fn push_head(text: &mut String, proposal: &Proposal) -> Result<(), AllocError> {
    let address = proposal.address;
    let unseen = match proposal.unseen {
        Unseen::Legal => "legal",
        Unseen::Illegal => "illegal",
    };
    writeln!(
        text,
        "# Terminal {address}, as a recording shows it: this profile explains the recording."
    )?;
    writeln!(
        text,
        "# \"line 9\": the command of the first message that shows the entry is line 9 of the recording."
    )?;
    writeln!(
        text,
        "# \"tried\": no message shows it alone, and the recording is explained with it."
    )?;
    writeln!(text, "# What the recording does not show is {unseen} here.")?;
    writeln!(
        text,
        "# It never shows which words are held: vector, bit, initial and wraparound are left out."
    )?;
    writeln!(text, "address = {address}")?;
    if proposal.assumed.broadcast {
        writeln!(text, "broadcast = true # tried")?;
    } else if proposal.asked.broadcast {
        writeln!(text, "broadcast = false # tried")?;
    }
    Ok(())
}

/// Writes that dynamic bus control is accepted, where a status word showed it.
fn push_accept(text: &mut String, proposal: &Proposal, legal: &Tables) -> Result<(), AllocError> {
    match proposal.asked.accepted {
        Some(line) if has_bit(legal.own_mode, 0) => writeln!(
            text,
            "accept_bus_control = true # line {line}"
        ),
        _ => Ok(()),
    }
}

impl Proposal {
    /// The text of the profile.
    pub fn text(&self, alloc: Global) -> Result<String, AllocError> {
        let mut text = String::new(alloc);
        let legal = self.legal();
        let shown = self.evidence.accepted.as_slice();
        push_head(&mut text, self)?;
        push_accept(&mut text, self, &legal)?;
        push_rules(alloc, &mut text, &legal, shown)?;
        push_codes(
            &mut text,
            false,
            own_codes(&legal),
            self.acting_own(),
            shown,
        )?;
        push_codes(
            &mut text,
            true,
            legal.broadcast_mode,
            self.acting_broadcast(),
            shown,
        )?;
        push_refused(&mut text, self, &legal)?;
        Ok(text)
    }
}
