//! What a profile sets up at power-up.
ghost use Rattle.std.specs.Prelude.{◌≡◌, ◌<◌, ◌+◌, ◌-◌, ℕ, List, [], Some, get_or, if◌then◌else◌};
ghost use Rattle.bus_legal.specs.Last.{last_of};
ghost use Rattle.bus_legal.specs.Initial.{gives_number, gives, word_given};
ghost use Rattle.bus_legal.specs.Parts.{IsBlock, AreWords};
ghost use Rattle.bus_legal.specs.Meaning.{SetsUp};

use crate::setup::Setup;
use crate::{InitialWords, Profile};

/// Puts the words of an entry into the block of its subaddress.
fn put_words(block: &mut [u16; 32], entry: &InitialWords)
    ensures block { IsBlock block.new }
    ensures words { (i : ℕ) → i < 32 → get_or block.new i 0 ≡ (if gives_number (i + 1) entry.now then get_or entry.now.words (i + 1 - entry.now.first) 0 else get_or block.old i 0) }
{
    let start = usize::from(entry.first) - 1;
    let len = usize::from(entry.len);
    block[start..start + len].copy_from_slice(&entry.words[..len]);
}

/// Puts the words of initial entries into a table, `table[s - 1][i - 1]` for number `i` of
/// subaddress `s`.
pub fn put_initial(table: &mut [[u16; 32]; 30], entries: &[InitialWords])
    ensures blocks { AreWords table.old → AreWords table.new }
    ensures words { (s i : ℕ) → s < 30 → i < 32 → get_or (get_or table.new s []) i 0 ≡ word_given (get_or (get_or table.old s []) i 0) (i + 1) (last_of (gives (s + 1) (i + 1)) entries.now) }
{
    for entry in entries {
        put_words(&mut table[usize::from(entry.subaddress) - 1], entry);
    }
}

/// How a profile sets the terminal up at power-up.
pub fn setup_of(profile: &Profile) -> Setup
    ensures { SetsUp profile.now result }
{
    let mut setup = Setup {
        address: profile.address,
        broadcast: profile.broadcast,
        wrap: profile.wrap,
        accept: profile.accept,
        vector: profile.vector,
        bit: profile.bit,
        initial: [[0; 32]; 30],
    };
    put_initial(&mut setup.initial, profile.initials.as_slice());
    setup
}
