//! The names of messages, from the tables of interface control documents, for the commands of `rt1553-tool` that take one.
#![tactic(auto)]

mod names;
mod numbers;
mod reading;
mod rows;
mod table;
mod table_texts;
mod warnings;

pub use names::{
    LoadedNames, TerminalNames, load_names, load_names_file, load_terminal_names, name_of_command,
};
pub use reading::names_in;
pub use table::table_fault;
pub use table_texts::told_text;
pub use warnings::{TableWarning, table_warnings};
