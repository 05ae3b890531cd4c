//! Which lines of a script are refused, where in the line, and why; and which comments look like stated answers.
#![tactic(auto)]

mod answers;
mod blanks;
mod fields;
mod lines;
mod reason;
mod script;

pub use answers::mistyped_answer;
pub use lines::{first_line, line_in_file};
pub use reason::{LineReason, Misfit, misfit_of};
pub use script::{RefusedLine, mistyped_answers, refused_lines};
