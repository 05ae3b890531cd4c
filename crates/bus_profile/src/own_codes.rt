//! The own mode codes that every profile must leave legal.
ghost use Rattle.std.specs.Prelude.{◌≡◌, ◌<◌};
ghost use Rattle.bus_legal.specs.OwnCodes.{is_own_code_legal};
ghost use Rattle.bus_profile.specs.inner.MissingCode.{missing_code};

use bus_legal::ModeRule;
use bus_word::{has_bit, is_required_code, mode, mode_row};

/// The least own mode code that must be legal and isn't.
pub fn missing_code(modes: &[ModeRule]) -> Option<u8>
    ensures { result ≡ missing_code modes.now }
{
    mode::REQUIRED
        .iter()
        .copied()
        .find(|code| !is_own_code_legal(modes, *code))
}

/// Tells whether the profile makes the own mode code legal: the last mode entry that speaks of it says.
#[tactic(auto, using(crate::proofs::OwnCodes::last_says))]
pub fn is_own_code_legal(modes: &[ModeRule], code: u8) -> bool
    requires { code < 32 }
    ensures { result ≡ is_own_code_legal modes.now code }
{
    let mut legal = is_required_code(code);
    for mode in modes {
        if mode.own && has_bit(mode.codes, code) {
            legal = mode.legal;
        }
    }
    mode_row(code).is_some() && legal
}
