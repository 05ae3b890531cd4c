//! What comes of the messages of a bus: which don't end well, and the load, as text, JSON and JUnit. It plays nothing and reads no file.
#![tactic(auto)]

mod json;
mod judged;
mod junit;
mod left;
mod load;
mod rates;
mod report;
mod told;

pub use json::check_json;
pub use judged::{JudgedMessage, Judgement, PartLeft, told_in};
pub use junit::check_junit;
pub use load::{BusLoad, LoadRow, LoadTimes, PutMessage, RateGroup, RateRow, load_of};
pub use rates::{RateLine, rate_line};
pub use report::{CheckOutcome, CheckReport, CheckedProfile};
pub use told::judged_text;
