//! The warnings of a profile: entries, keys and words that have no effect.
ghost use Rattle.std.specs.Prelude.{◌≡◌, ◌<◌, ◌↔◌, ℕ, [], ◌∷◌, ◌++◌, IsTrue, OnOk, IfOk, length, map, flat_map};
ghost use Rattle.std.specs.List.{range_with_len};
ghost use Rattle.spare_entries.specs.declared.spare.SparePlace.TheVariants as SparePlace;
ghost use Rattle.bus_word.specs.Mask.{has_bit};
ghost use Rattle.spare_entries.specs.Without.{SparesWord};
ghost use Rattle.spare_entries.specs.Spares.{is_default, GivesWord, IsSpare, IsSpareInitial, initial_places, places_of, setting_places};
ghost use Rattle.rt1553_lint.specs.Findings.{Warns, subjects, warning_of};

use crate::finding::Finding;
use crate::places::key_of;
use bus_legal::{Normal, normalise};
use bus_profile::{InitialWords, Profile};
use bus_word::{WRAPAROUND_SUBADDRESS, has_bit};
use spare_entries::{
    InitialSpares, Setting, SparePlace, covered_rules, is_spare_setting, spare_initials,
    spare_modes, spare_rules, why_initial, why_mode, why_rule, why_setting, why_word,
};
use std::alloc::{AllocError, Global};

/// A profile that is judged, and what it means.
#[derive(Clone, Copy)]
struct Judged<'a> {
    profile: &'a Profile,
    normal: &'a Normal,
}

/// Whether the setting has its default.
fn is_default(profile: &Profile, setting: Setting) -> bool
    ensures { result ≡ is_default profile.now setting }
{
    match setting {
        Setting::Broadcast => !profile.broadcast,
        Setting::Wraparound => profile.wrap == WRAPAROUND_SUBADDRESS,
        Setting::AcceptBusControl => !profile.accept,
        Setting::Vector => profile.vector == 0,
        Setting::Bit => profile.bit == 0,
    }
}

/// Adds a warning, without its position.
fn push_warning(
    findings: &mut Vec<Finding>,
    spare: SparePlace,
    message: String,
) -> Result<(), AllocError>
    ensures { OnOk result (subjects findings.new.items ≡ subjects findings.old.items ++ warning_of spare ∷ []) }
{
    findings.push(Finding {
        position: None,
        fault: None,
        spare: Some(spare),
        message,
    })?;
    Ok(())
}

/// Adds the warning of a key of the root, if it has no effect.
fn push_setting(
    alloc: Global,
    findings: &mut Vec<Finding>,
    judged: &Judged<'_>,
    setting: Setting,
) -> Result<(), AllocError>
    ensures { OnOk result (Warns judged.now.profile.now (SparePlace.Key setting ∷ []) findings.old.items findings.new.items) }
{
    if is_default(judged.profile, setting) {
        return Ok(());
    }
    if !is_spare_setting(alloc, judged.profile, setting)? {
        return Ok(());
    }
    let key = key_of(setting);
    let message = format!(in alloc; "{key} has no effect: {}", why_setting(setting))?;
    push_warning(findings, SparePlace::Key(setting), message)?;
    Ok(())
}

/// Adds the warnings of the keys of the root.
fn push_settings(
    alloc: Global,
    findings: &mut Vec<Finding>,
    judged: &Judged<'_>,
) -> Result<(), AllocError>
    ensures { OnOk result (Warns judged.now.profile.now setting_places findings.old.items findings.new.items) }
{
    push_setting(alloc, findings, judged, Setting::Broadcast)?;
    push_setting(alloc, findings, judged, Setting::Wraparound)?;
    push_setting(alloc, findings, judged, Setting::AcceptBusControl)?;
    push_setting(alloc, findings, judged, Setting::Vector)?;
    push_setting(alloc, findings, judged, Setting::Bit)?;
    Ok(())
}

/// Adds the warning of a rule, if it has no effect.
fn push_rule(
    alloc: Global,
    findings: &mut Vec<Finding>,
    judged: &Judged<'_>,
    index: usize,
    is_spare: bool,
    is_covered: bool,
) -> Result<(), AllocError>
    requires index { index < length judged.now.profile.now.rules }
    requires spare { IsTrue is_spare ↔ IsSpare judged.now.profile.now (SparePlace.Rule index) }
    ensures { OnOk result (Warns judged.now.profile.now (SparePlace.Rule index ∷ []) findings.old.items findings.new.items) }
{
    if !is_spare {
        return Ok(());
    }
    let number = index.saturating_add(1);
    let why = why_rule(
        judged.profile,
        &judged.profile.rules.as_slice()[index],
        is_covered,
    );
    let message = format!(in alloc; "rule {number} has no effect: {why}")?;
    push_warning(findings, SparePlace::Rule(index), message)?;
    Ok(())
}

/// Adds the warnings of the rules.
fn push_rules(
    alloc: Global,
    findings: &mut Vec<Finding>,
    judged: &Judged<'_>,
) -> Result<(), AllocError>
    ensures { OnOk result (Warns judged.now.profile.now (map SparePlace.Rule (range_with_len 0 (length judged.now.profile.now.rules))) findings.old.items findings.new.items) }
{
    let spares = spare_rules(alloc, judged.profile)?;
    let covered = covered_rules(alloc, judged.profile)?;
    for index in 0..judged.profile.rules.as_slice().len() {
        push_rule(
            alloc,
            findings,
            judged,
            index,
            spares[index],
            covered[index],
        )?;
    }
    Ok(())
}

/// Adds the warning of a mode entry, if it has no effect.
fn push_mode(
    alloc: Global,
    findings: &mut Vec<Finding>,
    judged: &Judged<'_>,
    index: usize,
    is_spare: bool,
) -> Result<(), AllocError>
    requires index { index < length judged.now.profile.now.modes }
    requires spare { IsTrue is_spare ↔ IsSpare judged.now.profile.now (SparePlace.Mode index) }
    ensures { OnOk result (Warns judged.now.profile.now (SparePlace.Mode index ∷ []) findings.old.items findings.new.items) }
{
    if !is_spare {
        return Ok(());
    }
    let modes = judged.profile.modes.as_slice();
    let number = index.saturating_add(1);
    let why = why_mode(judged.profile, &modes[index], &modes[index + 1..]);
    let message = format!(in alloc; "mode {number} has no effect: {why}")?;
    push_warning(findings, SparePlace::Mode(index), message)?;
    Ok(())
}

/// Adds the warnings of the mode entries.
fn push_modes(
    alloc: Global,
    findings: &mut Vec<Finding>,
    judged: &Judged<'_>,
) -> Result<(), AllocError>
    ensures { OnOk result (Warns judged.now.profile.now (map SparePlace.Mode (range_with_len 0 (length judged.now.profile.now.modes))) findings.old.items findings.new.items) }
{
    let spares = spare_modes(alloc, judged.profile)?;
    for index in 0..judged.profile.modes.as_slice().len() {
        push_mode(alloc, findings, judged, index, spares[index])?;
    }
    Ok(())
}

/// Whether an initial entry gives a word of this index, and not 0.
fn gives_word(entry: &InitialWords, word: usize) -> bool
    requires { word < 32 }
    ensures { IsTrue result ↔ GivesWord word entry.now }
{
    word < usize::from(entry.len) && entry.words[word] != 0
}

/// Adds the warning of a word of an initial entry, if it has no effect.
fn push_word(
    alloc: Global,
    findings: &mut Vec<Finding>,
    judged: &Judged<'_>,
    index: usize,
    word: usize,
    is_spare: bool,
) -> Result<(), AllocError>
    requires index { index < length judged.now.profile.now.initials }
    requires word { word < 32 }
    requires needed { IsSpareInitial judged.now.profile.now index → ⊥ }
    requires spare { SparesWord judged.now.profile.now index word is_spare }
    ensures { OnOk result (Warns judged.now.profile.now (SparePlace.Word index word ∷ []) findings.old.items findings.new.items) }
{
    let entry = judged.profile.initials.as_slice()[index];
    if !gives_word(&entry, word) {
        return Ok(());
    }
    if !is_spare {
        return Ok(());
    }
    let why = why_word(judged.normal, &entry, word);
    let message = format!(in alloc;
        "initial {}: word {} has no effect: {why}",
        index.saturating_add(1),
        word.saturating_add(1)
    )?;
    push_warning(findings, SparePlace::Word(index, word), message)?;
    Ok(())
}

/// Adds the warnings of the words of an initial entry that has an effect.
fn push_words(
    alloc: Global,
    findings: &mut Vec<Finding>,
    judged: &Judged<'_>,
    index: usize,
    spares: u32,
) -> Result<(), AllocError>
    requires index { index < length judged.now.profile.now.initials }
    requires needed { IsSpareInitial judged.now.profile.now index → ⊥ }
    requires spares { (w : ℕ) → w < 32 → SparesWord judged.now.profile.now index w (has_bit spares w) }
    ensures { OnOk result (Warns judged.now.profile.now (map (SparePlace.Word index) (range_with_len 0 32)) findings.old.items findings.new.items) }
{
    for word in 0..32usize {
        let is_spare = has_bit(spares, word as u8);
        push_word(alloc, findings, judged, index, word, is_spare)?;
    }
    Ok(())
}

/// Adds the warning of an initial entry, if it has no effect, or else those of its words.
fn push_initial(
    alloc: Global,
    findings: &mut Vec<Finding>,
    judged: &Judged<'_>,
    index: usize,
    spares: InitialSpares,
) -> Result<(), AllocError>
    requires index { index < length judged.now.profile.now.initials }
    requires entry { IsTrue spares.entry ↔ IsSpareInitial judged.now.profile.now index }
    requires words { (w : ℕ) → w < 32 → SparesWord judged.now.profile.now index w (has_bit spares.words w) }
    ensures { OnOk result (Warns judged.now.profile.now (initial_places index) findings.old.items findings.new.items) }
{
    if !spares.entry {
        push_words(alloc, findings, judged, index, spares.words)?;
        return Ok(());
    }
    let entry = judged.profile.initials.as_slice()[index];
    let why = why_initial(judged.normal, &entry);
    let number = index.saturating_add(1);
    let message = format!(in alloc; "initial {number} has no effect: {why}")?;
    push_warning(findings, SparePlace::Initial(index), message)?;
    Ok(())
}

/// Adds the warnings of the initial entries, and of the words of those that have an effect.
fn push_initials(
    alloc: Global,
    findings: &mut Vec<Finding>,
    judged: &Judged<'_>,
) -> Result<(), AllocError>
    ensures { OnOk result (Warns judged.now.profile.now (flat_map initial_places (range_with_len 0 (length judged.now.profile.now.initials))) findings.old.items findings.new.items) }
{
    let spares = spare_initials(alloc, judged.profile)?;
    for index in 0..judged.profile.initials.as_slice().len() {
        push_initial(alloc, findings, judged, index, spares[index])?;
    }
    Ok(())
}

/// The warnings of a profile, in the order of its keys and entries, without their positions.
pub fn warnings_of(alloc: Global, profile: &Profile) -> Result<Vec<Finding>, AllocError>
    ensures { IfOk result (λ found. Warns profile.now (places_of profile.now) [] found.items) }
{
    let judged = Judged {
        profile,
        normal: &normalise(profile),
    };
    let mut findings = Vec::new(alloc);
    push_settings(alloc, &mut findings, &judged)?;
    push_rules(alloc, &mut findings, &judged)?;
    push_modes(alloc, &mut findings, &judged)?;
    push_initials(alloc, &mut findings, &judged)?;
    Ok(findings)
}
