//! Whether two profiles are the same.
ghost use Rattle.std.specs.Prelude.{◌≡◌, true, map};
ghost use Rattle.bus_legal.specs.Plain.{plain, plain_rule, plain_initial};

use bus_legal::{InitialWords, ModeRule, Profile, Rule};

/// Whether two profiles have the same settings.
fn has_same_settings(a: &Profile, b: &Profile) -> bool
    ensures { result ≡ true → (a.now.address ≡ b.now.address) × (a.now.broadcast ≡ b.now.broadcast) × (a.now.wrap ≡ b.now.wrap) × (a.now.accept ≡ b.now.accept) × (a.now.vector ≡ b.now.vector) × (a.now.bit ≡ b.now.bit) }
{
    a.address == b.address
        && a.broadcast == b.broadcast
        && a.wrap == b.wrap
        && a.accept == b.accept
        && a.vector == b.vector
        && a.bit == b.bit
}

/// Whether two lists of rules are the same.
fn are_same_rules(a: &[Rule], b: &[Rule]) -> bool
    ensures { result ≡ true → map plain_rule a.now ≡ map plain_rule b.now }
{
    a == b
}

/// Whether two lists of mode entries are the same.
fn are_same_modes(a: &[ModeRule], b: &[ModeRule]) -> bool
    ensures { result ≡ true → a.now ≡ b.now }
{
    a == b
}

/// Whether two lists of initial entries are the same.
fn are_same_initials(a: &[InitialWords], b: &[InitialWords]) -> bool
    ensures { result ≡ true → map plain_initial a.now ≡ map plain_initial b.now }
{
    a == b
}

/// Whether two profiles have the same entries.
fn has_same_entries(a: &Profile, b: &Profile) -> bool
    ensures { result ≡ true → (map plain_rule a.now.rules ≡ map plain_rule b.now.rules) × (a.now.modes ≡ b.now.modes) × (map plain_initial a.now.initials ≡ map plain_initial b.now.initials) }
{
    are_same_rules(a.rules.as_slice(), b.rules.as_slice())
        && are_same_modes(a.modes.as_slice(), b.modes.as_slice())
        && are_same_initials(a.initials.as_slice(), b.initials.as_slice())
}

/// Whether two profiles are the same.
pub fn is_same_profile(a: &Profile, b: &Profile) -> bool
    ensures { result ≡ true → plain a.now ≡ plain b.now }
{
    has_same_settings(a, b) && has_same_entries(a, b)
}
