//! The commands of `rt1553-tool` over scripts, messages and words, and those that `rt1553` has, too.
#![tactic(auto)]

mod answers;
mod draw;
mod draw_list;
mod expand;
mod gather;
mod live;
mod messages;
mod otherwise;
mod recording;
mod results;
mod run;
mod script_file;
mod words;

pub use answers::state_in_file;
pub use draw::draw_run;
pub use expand::expand_file;
pub use gather::gather_script;
pub use live::play_live;
pub use messages::list_messages;
pub use recording::record_table;
pub use results::{check_profile, compare_profiles, write_canonical};
pub use run::run_file;
pub use script_file::check_scripts;
pub use words::bus_words;
