//! What the commands of `rt1553-tool` share: files, faults with their exit statuses, and what somebody sees of the output.
#![tactic(auto)]

mod colours;
mod digest;
mod fault;
mod files;
mod loaded;
mod profile_fault;
mod refused;
mod several;
mod stated;
mod unread;

pub use colours::{Ink, Screen, put_in, put_lines};
pub use digest::{HashedReader, canonical_digest, digest_of};
pub use fault::{DIFFERENT, REFUSED, ToolFault, USAGE, UnreadCause};
pub use files::{
    LoadedProfile, load_profile, load_profile_file, open_named, read_results_file,
    read_script_file, read_tool_profile, shown, write_bytes,
};
pub use loaded::{LoadedScript, load_messages, load_script};
pub use profile_fault::{NamedBytes, refused_profile};
pub use refused::{first_refused, refused_file, refused_line};
pub use several::{status_or_stop, worst};
pub use stated::stated_fault;
pub use unread::failed_read;
