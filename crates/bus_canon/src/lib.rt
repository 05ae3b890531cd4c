//! The canonical text of what of a profile can be reached, written and read back, and the scripts that
//! tell two terminals apart.
#![tactic(auto)]

mod apart;
mod asked;
mod blocks;
mod cell_lines;
mod difference;
mod fault;
pub mod laws;
mod names;
mod places;
mod read;
mod script;
mod write;

pub use apart::{distinguish, script_showing};
pub use difference::Difference;
pub use fault::CanonFault;
pub use read::{canon_lines, read_canon};
pub use terminal_exchanges::Script;
pub use write::{put_canon, write_canon};
