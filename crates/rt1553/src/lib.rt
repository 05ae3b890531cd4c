//! A remote terminal of MIL-STD-1553B, set up by a profile text: run over a script, its canonical bytes, and whether
//! two texts mean the same terminal.
#![tactic(auto)]

mod comparison;
mod engine;
mod fault;
pub mod laws;
mod loading;
mod one_line;
mod report;

pub use bus_canon::{CanonFault, Script};
pub use bus_legal::{Normal, Setup};
pub use bus_profile::{Key, Part, ProfileFault};
pub use bus_script::RunFault;
pub use bus_terminal::{Answer, Event, Flag, Hand, Sent, Terminal, WordPlace};
pub use bus_word::{Bus, Kind, Raw};
pub use byte_streams::{
    FromRead, FromWrite, IoFailed, MemorySink, MemorySource, Sink, Source, write_all,
};
pub use comparison::{Verdict, compare, compare_canonical};
pub use engine::{run, run_canonical};
pub use fault::{EngineFault, LoadFault};
pub use loading::{canonical, load, load_canonical};
pub use report::{describe, fault_line};
pub use script_lines::write_event;
