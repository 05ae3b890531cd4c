//! The command `bus` of `rt1553-tool`: a script that is played to the terminals of several profiles on one bus, and a file of messages
//! that is judged as a schedule of a bus controller.
#![tactic(auto)]

mod alone;
mod check;
mod ended;
mod legal;
mod list;
mod messages;
mod names;
mod order;
mod parts;
mod play;
mod powered;
mod rated;
mod reading;
mod refused;
mod trouble;
mod watch;

pub use play::play_bus;
