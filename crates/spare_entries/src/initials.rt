//! Which initial entries of a profile, and which of their words, have no effect.
ghost use Rattle.std.specs.Prelude.{◌≡◌, ◌≢◌, ◌<◌, ◌≤◌, ◌+◌, ◌-◌, ◌&&◌, ◌==◌, ◌↔◌, ℕ, not, if◌then◌else◌, IsTrue, OnOk, IfOk, HoldsAt, length, map, get_or};
ghost use Rattle.bus_word.specs.Mask.{has_bit};
ghost use Rattle.bus_legal.specs.Initial.{gives_number};
ghost use Rattle.bus_legal.specs.Meaning.{description_of};
ghost use Rattle.terminal_rules.specs.Same.{Same};
ghost use Rattle.spare_entries.specs.Without.{without_initial, SparesWord};
ghost use Rattle.spare_entries.specs.inner.Words.{numbers_at, is_held, AreLastNumbers, IsSpareBy, AreSpareBy, IsMarked};

use crate::said::keep_last;
use bus_legal::{Tables, largest_count};
use bus_profile::{InitialWords, Profile};
use bus_word::has_bit;
use std::alloc::{AllocError, Global};

/// What of an initial entry has no effect.
#[derive(Clone, Copy, PartialEq, Eq, Debug)]
pub struct InitialSpares {
    /// Whether the entry has none: without it the terminal is the same.
    pub entry: bool,
    /// Bit `w` stands for the word of index `w`: whether it has none, so that with 0 in its place the terminal is the same.
    pub words: u32,
}

/// The numbers that an entry gives at a subaddress: bit `i` for number `i + 1`.
fn numbers_at(subaddress: u8, entry: &InitialWords) -> u32
    ensures { result ≡ numbers_at subaddress entry.now }
{
    if subaddress != entry.subaddress {
        return 0;
    }
    let start = u32::from(entry.first) - 1;
    let end = start + u32::from(entry.len);
    ((1u64 << end) - (1u64 << start)) as u32
}

/// The numbers that each entry gives at a subaddress.
fn all_numbers_at(
    alloc: Global,
    entries: &[InitialWords],
    subaddress: u8,
) -> Result<Vec<u32>, AllocError>
    ensures { IfOk result (λ masks. masks.items ≡ map (numbers_at subaddress) entries.now) }
{
    entries
        .iter()
        .map(|entry| numbers_at(subaddress, entry))
        .collect(alloc)
}

/// The numbers that each entry gives at a subaddress, and no later one.
fn last_numbers(
    alloc: Global,
    entries: &[InitialWords],
    subaddress: u8,
) -> Result<Vec<u32>, AllocError>
    ensures length { IfOk result (λ masks. length masks.items ≡ length entries.now) }
    ensures numbers { IfOk result (λ masks. AreLastNumbers subaddress entries.now masks.items) }
{
    let mut masks = all_numbers_at(alloc, entries, subaddress)?;
    keep_last(&mut masks);
    Ok(masks)
}

/// Puts the words of an entry into the row of its subaddress.
fn put_words(row: &mut [u16; 32], entry: &InitialWords)
    ensures { (i : ℕ) → i < 32 → get_or row.new i 0 ≡ (if gives_number (i + 1) entry.now then get_or entry.now.words (i + 1 - entry.now.first) 0 else get_or row.old i 0) }
{
    let start = usize::from(entry.first) - 1;
    let len = usize::from(entry.len);
    row[start..start + len].copy_from_slice(&entry.words[..len]);
}

/// Whether a word of an entry is held, and some legal command makes the terminal transmit it. These are the numbers that no
/// later entry gives, and the largest word count.
fn is_held(entry: &InitialWords, word: usize, last: u32, largest: usize) -> bool
    ensures { result ≡ is_held entry.now last largest word }
{
    if word >= usize::from(entry.len) {
        return false;
    }
    let index = entry.first - 1 + word as u8;
    usize::from(index) < largest && has_bit(last, index)
}

/// Whether the words of an entry that are held are those of the row.
fn is_spare(entry: &InitialWords, row: &[u16; 32], last: u32, largest: usize) -> bool
    ensures { IsTrue result ↔ IsSpareBy entry.now row.now last largest }
{
    for word in 0..32 {
        if is_held(entry, word, last, largest)
            && entry.words[word] != row[usize::from(entry.first) - 1 + word]
        {
            return false;
        }
    }
    true
}

/// The mask without a bit.
fn without_bit(mask: u32, bit: usize) -> u32
    requires { bit < 32 }
    ensures { (i : ℕ) → i < 32 → has_bit result i ≡ (not (i == bit) && has_bit mask i) }
{
    mask & !(1 << bit)
}

/// The words of an entry that are not held, or 0.
fn spare_words(entry: &InitialWords, last: u32, largest: usize) -> u32
    ensures { AreSpareBy entry.now last largest result }
{
    let mut spare = u32::MAX;
    for word in 0..32 {
        if is_held(entry, word, last, largest) && entry.words[word] != 0 {
            spare = without_bit(spare, word);
        }
    }
    spare
}

/// Tells of the entries of a subaddress what of them has no effect, by the masks of the legal word counts.
fn mark_initials(
    alloc: Global,
    spares: &mut [InitialSpares],
    entries: &[InitialWords],
    subaddress: u8,
    sent: &[u32; 30],
) -> Result<(), AllocError>
    requires many { length spares.old ≡ length entries.now }
    requires low { 1 ≤ subaddress }
    requires high { subaddress ≤ 30 }
    ensures marked { OnOk result ((k : ℕ) → k < length entries.now → HoldsAt (λ e. e.subaddress ≡ subaddress → HoldsAt (IsMarked sent.now entries.now k) spares.new k) entries.now k) }
    ensures others { OnOk result ((k : ℕ) → k < length entries.now → HoldsAt (λ e. e.subaddress ≢ subaddress → HoldsAt (λ old. HoldsAt (λ new. new ≡ old) spares.new k) spares.old k) entries.now k) }
{
    let largest = largest_count(sent[usize::from(subaddress) - 1]);
    let last = last_numbers(alloc, entries, subaddress)?;
    let mut row = [0; 32];
    for (k, entry) in entries.iter().enumerate() {
        if entry.subaddress == subaddress {
            let numbers = last[k];
            spares[k] = InitialSpares {
                entry: is_spare(entry, &row, numbers, largest),
                words: spare_words(entry, numbers, largest),
            };
            put_words(&mut row, entry);
        }
    }
    Ok(())
}

/// Tells of the entries of all subaddresses what of them has no effect.
fn mark_all(
    alloc: Global,
    spares: &mut [InitialSpares],
    entries: &[InitialWords],
    sent: &[u32; 30],
) -> Result<(), AllocError>
    requires { length spares.old ≡ length entries.now }
    ensures { OnOk result ((k : ℕ) → k < length entries.now → HoldsAt (IsMarked sent.now entries.now k) spares.new k) }
{
    for subaddress in 1..31 {
        mark_initials(alloc, spares, entries, subaddress, sent)?;
    }
    Ok(())
}

/// Tells of each initial entry what of it has no effect: whether without it the terminal is the same, and of each of its
/// words, whether with 0 in its place the terminal is the same. The only error is out of memory.
pub fn spare_initials(alloc: Global, profile: &Profile) -> Result<Vec<InitialSpares>, AllocError>
    ensures length { IfOk result (λ spares. length spares.items ≡ length profile.now.initials) }
    ensures entries { IfOk result (λ spares. (k : ℕ) → k < length profile.now.initials → HoldsAt (λ spare. IsTrue spare.entry ↔ Same (description_of profile.now) (without_initial profile.now k)) spares.items k) }
    ensures words { IfOk result (λ spares. (k : ℕ) → k < length profile.now.initials → HoldsAt (λ spare. (w : ℕ) → w < 32 → SparesWord profile.now k w (has_bit spare.words w)) spares.items k) }
{
    let entries = profile.initials.as_slice();
    let none = InitialSpares {
        entry: false,
        words: 0,
    };
    let mut spares = vec![in alloc; none; entries.len()]?;
    mark_all(
        alloc,
        &mut spares,
        entries,
        &Tables::of(profile).own_transmit,
    )?;
    Ok(spares)
}
