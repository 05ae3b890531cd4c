//! The words of a MIL-STD-1553B bus: which are valid, the fields of a command word, the status
//! word, the mode codes, and the cells in which a remote terminal decides what is legal.
#![tactic(auto)]

mod cell;
mod command;
pub mod laws;
mod mask;
pub mod mode;
mod status;
mod word;

pub use cell::{Cell, cell_of, is_allowed, is_data_place};
pub use command::{Command, WRAPAROUND_SUBADDRESS};
pub use mask::has_bit;
pub use mode::{ModeRow, is_required_code, mode_name, mode_row};
pub use status::{StatusParts, status_of};
pub use word::{Bus, Kind, Raw};
