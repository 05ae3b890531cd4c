//! Drawings of runs: what comes to a terminal and what it answers, as boxes in lanes (SVG), and pages with them (HTML).
#![tactic(auto)]

mod column;
mod cursor;
mod drawing;
mod expected;
mod page;
mod part;
mod piece;
mod plan;
mod row;
mod shape;
mod shown_line;
mod style;

pub use drawing::{MOST_STATED, draw, draw_folded, draw_stated};
pub use expected::StatedAnswer;
pub use page::{PageParts, page_with, push_front, push_keys};
pub use shown_line::DrawnScript;
