//! The profile text: a TOML table that sets a remote terminal up, read into a `Profile`, and the
//! faults for which a text is refused.
#![tactic(auto)]

mod choice;
mod entry_faults;
mod fault;
mod initial;
mod key_faults;
mod keys;
pub mod laws;
mod mode;
mod own_codes;
mod ranges;
mod read;
mod rule;
mod section;
mod told;

pub use bus_legal::{Entries, InitialWords, ModeRule, Profile, Rule};
pub use fault::{Key, Part, ProfileFault};
pub use key_faults::word_fault;
pub use keys::known_keys;
pub use ranges::{RangeFault, parse_ranges};
pub use read::read_profile;
pub use told::{all_faults, unknown_keys};
