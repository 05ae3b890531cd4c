//! Whether a description explains a recording: a terminal that follows it, and the first sighting that nothing explains.
#![tactic(auto)]

mod beginnings;
mod flag_ways;
mod follower;
mod later;
mod sighting;
mod telling;
mod told;
mod watch;
mod way;
mod ways;

pub use bus_terminal::Sent;
pub use later::{FreshPart, LaterWatch};
pub use sighting::Sighting;
pub use telling::{behaviour, behaviour_after, sightings_of};
pub use watch::{Marked, Unexplained, Watch, WatchFault};
pub use ways::maybe_gap;
