//! Scripts that people can write: messages of a bus controller, each expanded to the events of a script.
#![tactic(auto)]

mod column;
mod expanding;
mod fault;
mod finding;
mod gathering;
pub mod laws;
mod message;
mod on_bus;
mod placing;
mod script_for;
mod source;
mod spelling;
mod writing;

pub use column::column_of;
pub use expanding::{Expanded, UnexpandedLine, expand};
pub use fault::ExpandFault;
pub use gathering::gather;
pub use on_bus::{OnBusFault, RefusedOnBus, refused_on_bus};
pub use script_for::ScriptFor;
pub use source::source_lines;
