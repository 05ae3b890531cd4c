//! What only calls show of tables, messages and texts, and the first use of each crate, as its README.md has it. Tests of the terminal
//! are in `terminal_tests`.
#![tactic(auto)]

#[cfg(test)]
mod by_hand;
#[cfg(test)]
mod comparing;
#[cfg(test)]
mod expanding;
#[cfg(test)]
mod exporting;
#[cfg(test)]
mod first_uses;
#[cfg(test)]
mod importing;
