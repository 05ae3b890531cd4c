//! Texts are loaded, and their canonical bytes written.
ghost use Rattle.std.specs.Prelude.{◌≡◌, ◌⊎◌, true, IfOk, IfErr};
ghost use Rattle.rt1553.specs.Load.{is_canon_text, Reaches, IsNotLoaded, IsNoCanonText};
ghost use Rattle.rt1553.specs.Canon.{IsCanon};

use crate::LoadFault;
use bus_canon::{read_canon, write_canon};
use bus_legal::{Normal, normalise};
use bus_profile::read_profile;
use std::alloc::Global;

/// How a canonical text of version 1 begins.
const FIRST_HEAD: &[u8] = b"rt1553 1\n";

/// How a canonical text of version 2 begins.
const SECOND_HEAD: &[u8] = b"rt1553 2\n";

/// Whether this is a canonical text. Any other text is a profile text, TOML.
fn is_canon_text(text: &[u8]) -> bool
    ensures { result ≡ is_canon_text text.now }
{
    text.starts_with(FIRST_HEAD) || text.starts_with(SECOND_HEAD)
}

/// Loads a profile text or a canonical text: what can be reached of its terminal. A canonical text takes no
/// memory.
pub fn load(alloc: Global, text: &[u8]) -> Result<Normal, LoadFault>
    ensures ok { IfOk result (Reaches text.now) }
    ensures refused { IfErr result (IsNotLoaded text.now) }
{
    if is_canon_text(text) {
        return Ok(read_canon(text)?);
    }
    let profile = read_profile(alloc, text)?;
    Ok(normalise(&profile))
}

/// Loads a canonical text, and no other: what can be reached of its terminal. Takes no memory.
pub fn load_canonical(text: &[u8]) -> Result<Normal, LoadFault>
    ensures ok { IfOk result (Reaches text.now) }
    ensures canonical { IfOk result (λ _. is_canon_text text.now ≡ true) }
    ensures refused { IfErr result (IsNoCanonText text.now) }
{
    Ok(read_canon(text)?)
}

/// The canonical bytes of a profile text or a canonical text.
pub fn canonical(alloc: Global, text: &[u8]) -> Result<Vec<u8>, LoadFault>
    ensures ok { IfOk result (λ bytes. IsCanon text.now bytes.items) }
    ensures refused { IfErr result (λ fault. (fault ≡ LoadFault.Memory) ⊎ IsNotLoaded text.now fault) }
{
    let normal = load(alloc, text)?;
    write_canon(alloc, &normal).map_err(|_| LoadFault::Memory)
}
