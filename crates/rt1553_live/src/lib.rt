//! A terminal for callers in other languages: it is stepped by events that are plain numbers, what it answers and why a text is
//! refused are plain numbers too, and its state is saved as a text and restored.
#![tactic(auto)]

mod answer;
mod bit_words;
mod bits;
mod coded_lines;
mod collected;
mod event;
mod fault;
mod held_lines;
pub mod laws;
mod live;
mod message;
mod message_words;
mod names;
mod numbers;
mod reply_words;
mod restoring;
mod room;
mod saving;
mod state_fault;
mod terminal;

pub use answer::{PlainAnswer, show};
pub use event::{PlainEvent, plain_event};
pub use fault::{PlainFault, tell_fault, tell_restore_fault};
pub use live::{RestoreFault, copy_live, new_live, restore_live, save_live, step_live};
pub use restoring::restore;
pub use room::{event_lines, put_all};
pub use saving::save;
pub use state_fault::StateFault;
pub use terminal::Live;
