//! What only calls show of the terminal, of scripts and of recordings: values that have no text, devices that fail, the numbers and names
//! of faults, a terminal that no profile describes. What the programs answer to texts is tested by `tests/test_texts.py`
//! and `tests/test_tool_*.py`. Tests have crates of their own, since a crate with tests is proved twice.
#![tactic(auto)]

#[cfg(test)]
mod bus_of_terminals;
#[cfg(test)]
mod coverage;
#[cfg(test)]
mod faults;
#[cfg(test)]
mod formats;
#[cfg(test)]
mod inferred;
#[cfg(test)]
mod messages;
#[cfg(test)]
mod recordings;
#[cfg(test)]
mod saved;
#[cfg(test)]
mod schedules;
#[cfg(test)]
mod scripts;
#[cfg(test)]
mod stepped;
#[cfg(test)]
mod terminals;
