//! What a profile is.
ghost use Rattle.std.specs.Prelude.{◌≤◌, IsTrue, length};
ghost use Rattle.bus_legal.specs.OwnCodes.{has_required_codes};

use crate::entries::{Entries, InitialWords, ModeRule, Rule};

/// What sets a remote terminal up.
#[derive(Debug, Drop)]
pub struct Profile {
    /// The terminal's address, 0 to 30.
    pub address: u8,
    /// The broadcast option: whether the terminal hears commands to address 31.
    pub broadcast: bool,
    /// The wraparound subaddress, 1 to 30, at which words that are received replace those held there; 0 where
    /// there is none.
    pub wrap: u8,
    /// Whether the terminal accepts dynamic bus control.
    pub accept: bool,
    /// The vector word at power-up.
    pub vector: u16,
    /// The BIT word at power-up.
    pub bit: u16,
    /// At most 256.
    pub rules: Entries<Rule>,
    /// At most 256.
    pub modes: Entries<ModeRule>,
    /// At most 256.
    pub initials: Entries<InitialWords>,
    ghost own_address: { address ≤ 30 },
    ghost own_wrap: { wrap ≤ 30 },
    ghost few_rules: { length rules ≤ 256 },
    ghost few_modes: { length modes ≤ 256 },
    ghost few_initials: { length initials ≤ 256 },
    // The own mode codes that must be legal are.
    ghost required_codes: { IsTrue (has_required_codes modes) },
}
