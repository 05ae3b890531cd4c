//! Why an entry of a profile has no effect, in a few words.
ghost use Rattle.std.specs.Prelude.{◌≡◌, IfOk, length};

use crate::rules::{Table, all_counts_said};
use crate::said::last_bits;
use crate::spare::Setting;
use bus_legal::{BROADCAST_CODES, Normal, OWN_CODES, largest_count};
use bus_profile::{InitialWords, ModeRule, Profile, Rule};
use std::alloc::{AllocError, Global};

/// Takes the marks from the rules that are the last to speak of some command: those that still have bits here.
fn unmark_last(covered: &mut [bool], last: &[u32]) {
    for (k, bits) in last.iter().enumerate() {
        if let Some(mark) = covered.get_mut(k) {
            *mark &= *bits == 0;
        }
    }
}

/// Takes the marks from the rules that are the last to speak of a command of the table.
fn unmark_table(
    alloc: Global,
    covered: &mut [bool],
    rules: &[Rule],
    table: Table,
) -> Result<(), AllocError> {
    for subaddress in 0..30u8 {
        let said = all_counts_said(alloc, rules, table, subaddress)?;
        unmark_last(covered, &last_bits(alloc, &said)?);
    }
    Ok(())
}

/// Tells of each rule whether later rules speak of all commands of which it speaks and that the terminal hears. The only error is
/// out of memory.
pub fn covered_rules(alloc: Global, profile: &Profile) -> Result<Vec<bool>, AllocError>
    ensures { IfOk result (λ covered. length covered.items ≡ length profile.now.rules) }
{
    let rules = profile.rules.as_slice();
    let mut covered = vec![in alloc; true; rules.len()]?;
    unmark_table(alloc, &mut covered, rules, Table::OwnReceive)?;
    unmark_table(alloc, &mut covered, rules, Table::OwnTransmit)?;
    if profile.broadcast {
        unmark_table(alloc, &mut covered, rules, Table::BroadcastReceive)?;
    }
    Ok(covered)
}

/// Why a rule has no effect; `is_covered` says whether later rules speak of all its commands.
pub fn why_rule(profile: &Profile, rule: &Rule, is_covered: bool) -> &'static str {
    if !rule.own && !profile.broadcast {
        "broadcast is false"
    } else if !rule.own && !rule.receive {
        "a broadcast command to transmit is never legal"
    } else if is_covered {
        "later rules decide all its commands"
    } else if rule.legal {
        "its commands are legal without it"
    } else {
        "its commands are illegal without it"
    }
}

/// Why a mode entry has no effect, by those after it.
pub fn why_mode(profile: &Profile, mode: &ModeRule, later: &[ModeRule]) -> &'static str {
    let mut own = if mode.own { mode.codes & OWN_CODES } else { 0 };
    let mut broadcast = if mode.broadcast && profile.broadcast {
        mode.codes & BROADCAST_CODES
    } else {
        0
    };
    if !mode.own && !profile.broadcast {
        return "broadcast is false";
    }
    if own == 0 && broadcast == 0 {
        return "none of its codes can be legal";
    }
    for other in later {
        if other.own {
            own &= !other.codes;
        }
        if other.broadcast {
            broadcast &= !other.codes;
        }
    }
    if own == 0 && broadcast == 0 {
        "later entries decide all its codes"
    } else if mode.legal {
        "its codes are legal without it"
    } else {
        "its codes are illegal without it"
    }
}

/// The largest word count that the terminal can be made to transmit from a subaddress.
fn largest_sent(normal: &Normal, subaddress: u8) -> usize {
    match normal
        .tables()
        .own_transmit
        .get(usize::from(subaddress).saturating_sub(1))
    {
        Some(mask) => largest_count(*mask),
        None => 0,
    }
}

/// Why an initial entry has no effect.
pub fn why_initial(normal: &Normal, entry: &InitialWords) -> &'static str {
    let largest = largest_sent(normal, entry.subaddress);
    if entry.len == 0 {
        "it has no words"
    } else if largest == 0 {
        "no command to transmit is legal there"
    } else if largest < usize::from(entry.first) {
        "no legal command transmits so many words"
    } else {
        "its words are those that are held without it, or not transmitted"
    }
}

/// Why the word of this index of an initial entry has no effect.
pub fn why_word(normal: &Normal, entry: &InitialWords, index: usize) -> &'static str {
    let number = usize::from(entry.first).saturating_add(index);
    if largest_sent(normal, entry.subaddress) < number {
        "no legal command transmits so many words"
    } else {
        "a later entry gives this word"
    }
}

/// Why a key of the root has no effect.
pub fn why_setting(setting: Setting) -> &'static str {
    match setting {
        Setting::Broadcast => "the terminal is the same without it",
        Setting::Wraparound => "no subaddress that it changes can both receive and transmit words",
        Setting::AcceptBusControl => "mode code 0 is not legal",
        Setting::Vector => "mode code 16 is not legal",
        Setting::Bit => "mode code 19 is not legal",
    }
}
