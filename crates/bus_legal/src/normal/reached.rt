//! Making a `Normal` of a profile.
ghost use Rattle.std.specs.Prelude.{◌≡◌, ◌<◌, ◌≤◌, ◌&&◌, ℕ, [], true, false, get_or, nat_lt, if◌then◌else◌, replicate};
ghost use Rattle.bus_word.specs.declared.cell.Cell.{Cell};
ghost use Rattle.bus_word.specs.Mask.{has_bit};
ghost use Rattle.bus_word.specs.Mode.{dynamic_bus_control};
ghost use Rattle.bus_legal.specs.Legal.{is_legal};
ghost use Rattle.bus_legal.specs.Meaning.{description_of};
ghost use Rattle.bus_legal.specs.Reach.{is_heard, reach};
ghost use Rattle.bus_legal.specs.Tables.{tables_say, is_own_mask, is_broadcast_mask, masks_wrap, largest_in};
ghost use Rattle.bus_legal.specs.Parts.{description_in, IsBlock, AreWords};

use super::Normal;
use crate::Profile;
use crate::initial::put_initial;
use crate::masks::largest_count;
use crate::setup::Setup;
use crate::tables::Tables;
use bus_word::has_bit;
use bus_word::mode::{BIT_WORD, DYNAMIC_BUS_CONTROL, VECTOR_WORD};

/// Gives the masks of what a profile makes legal, without broadcast cells where its terminal hears none.
fn heard_tables(profile: &Profile) -> Tables
    ensures legal { (cell : Cell) → tables_say result cell ≡ (is_heard profile.now.broadcast cell && is_legal profile.now.rules profile.now.modes cell) }
    ensures own_mode { is_own_mask result.own_mode ≡ true }
    ensures broadcast_mode { is_broadcast_mask result.broadcast_mode ≡ true }
    ensures unheard_receive { profile.now.broadcast ≡ false → result.broadcast_receive ≡ replicate 30 0 }
    ensures unheard_mode { profile.now.broadcast ≡ false → result.broadcast_mode ≡ 0 }
{
    let mut tables = Tables::of(profile);
    if !profile.broadcast {
        tables.broadcast_receive = [0; 30];
        tables.broadcast_mode = 0;
    }
    tables
}

/// Gives the wraparound subaddress, where it can be reached, else 0.
fn reached_wrap(profile: &Profile, tables: &Tables) -> u8
    ensures wrap { result ≡ (if masks_wrap tables.now profile.now.wrap then profile.now.wrap else 0) }
    ensures small { result ≤ 30 }
    ensures unwrapped { masks_wrap tables.now result ≡ false → result ≡ 0 }
{
    if profile.wrap != 0 && tables.can_wrap(profile.wrap) {
        profile.wrap
    } else {
        0
    }
}

/// Tells whether dynamic bus control is accepted and can be asked for.
fn accepts(profile: &Profile, tables: &Tables) -> bool
    ensures { result ≡ (has_bit tables.now.own_mode dynamic_bus_control && profile.now.accept) }
{
    has_bit(tables.own_mode, DYNAMIC_BUS_CONTROL) && profile.accept
}

/// Gives the word, where the own mode code that asks for it is legal, else 0.
fn reached_word(tables: &Tables, code: u8, word: u16) -> u16
    requires { code < 32 }
    ensures { result ≡ (if has_bit tables.now.own_mode code then word else 0) }
{
    if has_bit(tables.own_mode, code) {
        word
    } else {
        0
    }
}

/// Leaves the first words of a block, as many as there are, and makes the others 0.
fn keep_first(block: &mut [u16; 32], keep: usize)
    ensures block { IsBlock block.new }
    ensures words { (i : ℕ) → i < 32 → get_or block.new i 0 ≡ (if nat_lt i keep then get_or block.old i 0 else 0) }
{
    if keep < 32 {
        block[keep..].fill(0);
    }
}

/// Leaves of each block the words up to the largest word count in the mask of its subaddress.
fn keep_sent(words: &mut [[u16; 32]; 30], masks: &[u32; 30])
    ensures blocks { AreWords words.old → AreWords words.new }
    ensures words { (s i : ℕ) → s < 30 → i < 32 → get_or (get_or words.new s []) i 0 ≡ (if nat_lt i (largest_in (get_or masks.now s 0)) then get_or (get_or words.old s []) i 0 else 0) }
{
    for s in 0..30 {
        keep_first(&mut words[s], largest_count(masks[s]));
    }
}

/// What of a profile any bus controller can reach.
pub fn normalise(profile: &Profile) -> Normal
    ensures { description_in result ≡ reach (description_of profile.now) }
{
    let tables = heard_tables(profile);
    let mut initial = [[0; 32]; 30];
    put_initial(&mut initial, profile.initials.as_slice());
    keep_sent(&mut initial, &tables.own_transmit);
    let setup = Setup {
        address: profile.address,
        broadcast: profile.broadcast,
        wrap: reached_wrap(profile, &tables),
        accept: accepts(profile, &tables),
        vector: reached_word(&tables, VECTOR_WORD, profile.vector),
        bit: reached_word(&tables, BIT_WORD, profile.bit),
        initial,
    };
    Normal { setup, tables }
}
