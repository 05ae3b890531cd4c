//! What in a profile has no effect, and why.
#![tactic(auto)]

mod initials;
mod modes;
mod rules;
mod said;
mod spare;
mod why;

pub use initials::{InitialSpares, spare_initials};
pub use modes::spare_modes;
pub use rules::spare_rules;
pub use spare::{Setting, SparePlace, is_spare_setting};
pub use why::{covered_rules, why_initial, why_mode, why_rule, why_setting, why_word};
