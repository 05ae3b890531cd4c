//! Files that are read, and texts as faults and reports print them: what both programs share.
#![tactic(auto)]

mod fault;
mod files;
mod printable;

pub use fault::FileFault;
pub use files::{PROFILE_BYTES, SCRIPT_BYTES, open_file, read_file};
pub use printable::{escaped, push_printable};
