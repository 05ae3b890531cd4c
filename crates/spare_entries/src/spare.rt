//! Entries, keys and words of a profile that have no effect: without them the terminal answers alike for ever.
ghost use Rattle.std.specs.Prelude.{◌≡◌, ◌↔◌, IsTrue, IfOk};
ghost use Rattle.bus_legal.specs.Meaning.{description_of};
ghost use Rattle.terminal_rules.specs.Same.{Same};
ghost use Rattle.spare_entries.specs.Without.{without_setting};

use bus_legal::normalise;
use bus_profile::{Entries, Profile};
use bus_word::WRAPAROUND_SUBADDRESS;
use std::alloc::{AllocError, Global};

/// A key of the root that has a default, and holds one value.
#[derive(Clone, Copy, PartialEq, Eq)]
pub enum Setting {
    Broadcast,
    Wraparound,
    AcceptBusControl,
    Vector,
    Bit,
}

/// What in a profile may have no effect. Entries and words are given by their index, from 0.
#[derive(Clone, Copy, PartialEq, Eq)]
pub enum SparePlace {
    /// A key of the root.
    Key(Setting),
    /// A rule.
    Rule(usize),
    /// A mode entry.
    Mode(usize),
    /// An initial entry.
    Initial(usize),
    /// A word of an initial entry: the entry, and the word in it.
    Word(usize, usize),
}

/// A copy of the entries.
fn copied<T: Copy>(alloc: Global, items: &[T]) -> Result<Entries<T>, AllocError>
    ensures { IfOk result (λ copy. copy ≡ items.now) }
{
    let mut copy = Vec::new(alloc);
    copy.extend_from_slice(items)?;
    Ok(Entries::of(copy))
}

/// A copy of the profile.
fn copy_of(alloc: Global, profile: &Profile) -> Result<Profile, AllocError>
    ensures { IfOk result (λ copy. copy ≡ profile.now) }
{
    Ok(Profile {
        address: profile.address,
        broadcast: profile.broadcast,
        wrap: profile.wrap,
        accept: profile.accept,
        vector: profile.vector,
        bit: profile.bit,
        rules: copied(alloc, profile.rules.as_slice())?,
        modes: copied(alloc, profile.modes.as_slice())?,
        initials: copied(alloc, profile.initials.as_slice())?,
    })
}

/// Whether two are the same terminal.
fn are_same(p: &Profile, q: &Profile) -> bool
    ensures { IsTrue result ↔ Same (description_of p.now) (description_of q.now) }
{
    let (ours, theirs) = (normalise(p), normalise(q));
    ours.setup();
    theirs.setup();
    ours.is_same(&theirs)
}

/// Tells whether a key of the root has no effect: with its default the terminal is the same. The only error is
/// out of memory.
pub fn is_spare_setting(
    alloc: Global,
    profile: &Profile,
    setting: Setting,
) -> Result<bool, AllocError>
    ensures { IfOk result (λ spare. IsTrue spare ↔ Same (description_of profile.now) (without_setting profile.now setting)) }
{
    let mut less = copy_of(alloc, profile)?;
    match setting {
        Setting::Broadcast => less.broadcast = false,
        Setting::Wraparound => less.wrap = WRAPAROUND_SUBADDRESS,
        Setting::AcceptBusControl => less.accept = false,
        Setting::Vector => less.vector = 0,
        Setting::Bit => less.bit = 0,
    }
    Ok(are_same(profile, &less))
}
