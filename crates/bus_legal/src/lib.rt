//! What a profile is, apart from the text that it is read from, and what it means: which cells are legal, how the terminal is set up at
//! power-up, and what of all that any bus controller can reach.
#![tactic(auto)]

mod entries;
mod initial;
pub mod laws;
mod legality;
mod masks;
mod normal;
mod numbers;
mod profile;
mod rule_list;
mod setup;
mod tables;

pub use entries::{Entries, InitialWords, ModeRule, Rule};
pub use initial::setup_of;
pub use legality::Legality;
pub use masks::largest_count;
pub use normal::{Normal, normalise};
pub use numbers::Numbers;
pub use profile::Profile;
pub use rule_list::RuleList;
pub use setup::Setup;
pub use tables::{BROADCAST_CODES, OWN_CODES, REQUIRED_CODES, Tables};
