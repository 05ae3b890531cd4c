//! The arguments of the command line of `rt1553`, read by clap.
#![tactic(auto)]

mod args;

pub use args::{ArgFault, Job, read_args};
