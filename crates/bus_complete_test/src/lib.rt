//! The complete test of a terminal: the exchanges that tell it from every other terminal, the law that they do, and a walk over them,
//! one trial after the other.
#![tactic(auto)]

mod exchanges;
pub mod laws;
mod trial;
mod walk;

pub use exchanges::exchanges_of;
pub use terminal_exchanges::Exchange;
pub use trial::{Trial, first_trial, next_trial};
pub use walk::Exchanges;
