//! What is wrong with a profile text, all of it, and what in it has no effect, each with its line; and this as SARIF.
#![tactic(auto)]

mod canon_hint;
mod errors;
mod finding;
mod hint;
mod lines;
mod linting;
mod places;
mod positions;
mod sarif;
mod shown;
mod tree;
mod warnings;

pub use finding::{Finding, LintFault, Position};
pub use linting::lint;
pub use sarif::{LintedFile, rule_of, sarif_report};
pub use spare_entries::{Setting, SparePlace};
