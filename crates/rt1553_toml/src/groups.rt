//! What a profile says of a terminal, apart from how it is laid out: messages of data that are alike together, and only what
//! isn't so in a profile that leaves it out.
use bus_legal::{Normal, REQUIRED_CODES, Tables};
use std::alloc::{AllocError, Global};

/// The wraparound subaddress of a profile that names none (Notice 2, 30.7).
const STANDARD_WRAP: u8 = 30;

/// Subaddresses at which the same word counts are legal.
#[derive(Clone, Copy)]
pub struct RuleGroup {
    /// `own` or `broadcast`: where the commands go to.
    pub to: &'static str,
    /// `receive`, `transmit` or `both`.
    pub direction: &'static str,
    /// Bit `s - 1` stands for subaddress `s`, 1 to 30.
    pub subaddresses: u32,
    /// Bit `n - 1` stands for a word count of `n`, 1 to 32. At least one is there.
    pub counts: u32,
}

/// Gives the subaddresses, bit `s - 1` for `s`, whose mask this is.
fn with_mask(masks: &[u32; 30], mask: u32) -> u32 {
    let mut bits = 0;
    for (index, other) in masks.iter().enumerate() {
        if *other == mask {
            bits |= 1 << (index as u32);
        }
    }
    bits
}

/// Adds the groups of one direction: one for each mask that some subaddress has. Where the other direction has the mask
/// at just the same subaddresses, it is one group for both, and the second time it is left out.
fn push_groups(
    groups: &mut Vec<RuleGroup>,
    to: &'static str,
    direction: &'static str,
    masks: &[u32; 30],
    twin: Option<&[u32; 30]>,
    second: bool,
) -> Result<(), AllocError> {
    for (index, mask) in masks.iter().enumerate() {
        let subaddresses = with_mask(masks, *mask);
        let is_first = subaddresses.trailing_zeros() == index as u32;
        if *mask != 0 && is_first {
            let alike = match twin {
                Some(others) => with_mask(others, *mask) == subaddresses,
                None => false,
            };
            if !(alike && second) {
                groups.push(RuleGroup {
                    to,
                    direction: if alike { "both" } else { direction },
                    subaddresses,
                    counts: *mask,
                })?;
            }
        }
    }
    Ok(())
}

/// The messages of data to the own address.
pub fn own_groups(
    alloc: Global,
    receive: &[u32; 30],
    transmit: &[u32; 30],
) -> Result<Vec<RuleGroup>, AllocError> {
    let mut groups = Vec::new(alloc);
    push_groups(
        &mut groups,
        "own",
        "receive",
        receive,
        Some(transmit),
        false,
    )?;
    push_groups(
        &mut groups,
        "own",
        "transmit",
        transmit,
        Some(receive),
        true,
    )?;
    Ok(groups)
}

/// The messages of data by broadcast.
pub fn broadcast_groups(alloc: Global, receive: &[u32; 30]) -> Result<Vec<RuleGroup>, AllocError> {
    let mut groups = Vec::new(alloc);
    push_groups(&mut groups, "broadcast", "receive", receive, None, false)?;
    Ok(groups)
}

/// The mode codes to the own address that are legal and aren't so in each profile, bit `c` for code `c`.
pub fn own_codes(tables: &Tables) -> u32 {
    tables.own_mode & !REQUIRED_CODES
}

/// How many words a subaddress holds, up to the last that is not 0.
pub fn held_len(row: &[u16; 32]) -> usize {
    let mut len = 0;
    for (index, word) in row.iter().enumerate() {
        if *word != 0 {
            len = index + 1;
        }
    }
    len
}

/// The wraparound subaddress, 0 for none, where a profile that leaves it out would mean another terminal.
pub fn named_wrap(normal: &Normal) -> Option<u8> {
    match normal.wrap() {
        STANDARD_WRAP => None,
        0 if !normal.tables().can_wrap(STANDARD_WRAP) => None,
        wrap => Some(wrap),
    }
}
