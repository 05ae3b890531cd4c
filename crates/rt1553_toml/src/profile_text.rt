//! A TOML profile for what can be reached of a terminal.
ghost use Rattle.std.specs.Prelude.{◌≡◌, ℕ, List, IfOk, string_bytes};
ghost use Rattle.bus_canon.specs.Canon.{Text};
ghost use Rattle.rt1553.specs.Load.{is_canon_text, Reaches};
ghost use Rattle.rt1553.specs.Canon.{IsCanon};
ghost use Rattle.rt1553_toml.specs.Toml.{IsTomlOf};

use crate::full_tree::full_table;
use crate::written::write_profile;
use bus_legal::Normal;
use rt1553::{LoadFault, load};
use std::alloc::{AllocError, Global};
use toml::ser::Error;

/// Tells whether a text begins as a canonical text of either version.
fn is_canon_text(text: &[u8]) -> bool
    ensures { result ≡ is_canon_text text.now }
{
    text.starts_with(b"rt1553 1\n") || text.starts_with(b"rt1553 2\n")
}

/// The full TOML profile of this terminal, which leaves no setting out: it has a rule for each subaddress, direction and
/// addressee, and all the words held. It needs no reading again.
pub fn full_toml_of(alloc: Global, normal: &Normal) -> Result<String, AllocError>
    ensures reaches { IfOk result (λ text. Reaches (string_bytes text) normal.now) }
    ensures toml { IfOk result (λ text. IsTomlOf (string_bytes text) normal.now) }
{
    // its clause says that there is nothing in it that can't be reached
    normal.setup();
    let root = full_table(alloc, normal)?;
    match toml::table_to_string(alloc, &root) {
        Ok(text) => Ok(text),
        Err(Error::OutOfMemory) => Err(AllocError),
        Err(Error::DateInvalid) => unreachable!(),
    }
}

/// A TOML profile of this terminal: a small text, which is read again before it is given out. Should it not be accepted, or
/// mean another terminal, the full one is given; tests show that this doesn't come.
pub fn toml_of(alloc: Global, normal: &Normal) -> Result<String, AllocError>
    ensures reaches { IfOk result (λ text. Reaches (string_bytes text) normal.now) }
    ensures toml { IfOk result (λ text. IsTomlOf (string_bytes text) normal.now) }
    ensures canonical { IfOk result (λ text. (bytes : List ℕ) → Text normal.now bytes → IsCanon (string_bytes text) bytes) }
{
    let text = write_profile(alloc, normal)?;
    match load(alloc, text.as_str().as_bytes()) {
        Ok(back) => {
            if back.is_same(normal) && !is_canon_text(text.as_str().as_bytes()) {
                Ok(text)
            } else {
                full_toml_of(alloc, normal)
            }
        }
        Err(LoadFault::Memory) => Err(AllocError),
        Err(_) => full_toml_of(alloc, normal),
    }
}
