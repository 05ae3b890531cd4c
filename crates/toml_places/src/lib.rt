//! The statements of a TOML text, where each begins and what it is, and which of them gives the text a key, an item of an array, or a
//! key of that item.
#![tactic(auto)]

mod array;
mod besides;
mod fault;
mod key;
pub mod laws;
mod names;
mod reading;
mod skipping;
mod statement;
pub mod tree_laws;

pub use array::{ArrayPlaces, array_places};
pub use besides::key_besides;
pub use fault::StatementsFault;
pub use key::key_place;
pub use reading::statements_of;
pub use statement::{Statement, StatementKind};
