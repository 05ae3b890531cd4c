//! Why the program ends early, the line that it prints then, and the status that it ends with.
ghost use Rattle.std.specs.Prelude.{◌≡◌, ◌≤◌};
ghost use Rattle.tool_files.specs.Status.{tool_status};

use refused_lines::RefusedLine;
use rt1553_expand::UnexpandedLine;
use std::alloc::{AllocError, AllocFailed};
use std::fmt;

/// The status of a comparison that finds a difference, and of what else was found.
pub const DIFFERENT: u8 = 1;

/// The status of a text that is refused.
pub const REFUSED: u8 = 2;

/// The status of arguments that the program does not accept.
pub const USAGE: u8 = 3;

/// Why a file isn't read, as far as the system tells.
#[derive(Clone, Copy)]
pub enum UnreadCause {
    /// There is none of this name.
    Missing,
    /// There is none of the name `-`, by which many programs mean the standard input.
    Hyphen,
    /// The user may not read it.
    Forbidden,
    /// It is a folder.
    Folder,
    /// It has more bytes than this.
    TooLarge(usize),
    /// Another cause.
    Other,
}

impl fmt::Display for UnreadCause {
    /// What follows the name of the file.
    fn fmt<W: fmt::Write>(&self, f: &mut fmt::Formatter<W>) -> fmt::Result {
        match self {
            UnreadCause::Missing => f.write_str(": no such file"),
            UnreadCause::Hyphen => f.write_str(": no such file; use /dev/stdin"),
            UnreadCause::Forbidden => f.write_str(": no permission"),
            UnreadCause::Folder => f.write_str(": it is a folder"),
            UnreadCause::TooLarge(most) => {
                let most = *most;
                let (millions, thousands) = (most / 1_000_000, most / 1_000 % 1_000);
                write!(
                    f,
                    ": at most {millions},{thousands:03},{:03} bytes",
                    most % 1_000
                )
            }
            UnreadCause::Other => Ok(()),
        }
    }
}

/// Why the program ends early. A text is the name of a file, escaped, but for `Refused`.
#[derive(Drop)]
pub enum ToolFault {
    /// Out of memory.
    Memory,
    /// The name of a file is empty.
    NoName,
    /// The input can't be read.
    Input,
    /// The output can't be written.
    Output,
    /// A line of the script is refused.
    Line(String, RefusedLine),
    /// A line of events and messages is refused.
    Message(String, UnexpandedLine),
    /// A text is refused for another cause. The text is all that is printed, but for the last line feed.
    Refused(String),
    /// An argument is not UTF-8.
    NotText,
    /// The arguments don't fit together, or have a wrong value, for this cause.
    Usage(&'static str),
    /// A file isn't read, for this cause.
    Unread(String, UnreadCause),
}

impl fmt::Display for ToolFault {
    fn fmt<W: fmt::Write>(&self, f: &mut fmt::Formatter<W>) -> fmt::Result {
        match self {
            ToolFault::Memory => f.write_str("out of memory"),
            ToolFault::NoName => f.write_str("file: the name of a file is empty"),
            ToolFault::Input => f.write_str("input: read failed"),
            ToolFault::Output => f.write_str("output: write failed"),
            ToolFault::Line(name, of) => {
                let (line, column) = (of.line, of.misfit.column);
                write!(f, "{name}:{line}:{column}: error: {}", of.misfit.reason)
            }
            ToolFault::Message(name, of) => {
                write!(f, "{name}:{}:{}: error: {}", of.line, of.column, of.fault)
            }
            ToolFault::Refused(told) => f.write_str(told.as_str()),
            ToolFault::NotText => f.write_str("arguments: one is not UTF-8"),
            ToolFault::Usage(cause) => write!(f, "arguments: {cause}"),
            ToolFault::Unread(name, UnreadCause::TooLarge(most)) => {
                write!(f, "file: too large {name}{}", UnreadCause::TooLarge(*most))
            }
            ToolFault::Unread(name, cause) => write!(f, "file: cannot read {name}{cause}"),
        }
    }
}

impl ToolFault {
    /// The status that the program ends with.
    pub fn status(&self) -> u8
        ensures value { result ≡ tool_status self.now }
        ensures least { 2 ≤ result }
        ensures most { result ≤ 4 }
    {
        match self {
            ToolFault::Line(_, _) | ToolFault::Message(_, _) | ToolFault::Refused(_) => REFUSED,
            ToolFault::NotText | ToolFault::Usage(_) => USAGE,
            _ => 4,
        }
    }
}

impl From<AllocError> for ToolFault {
    ghost use Rattle.std.specs.Prelude.{◌≡◌};
    ghost use Rattle.tool_files.specs.declared.fault.ToolFault.TheVariants.{Memory};

    ghost from_gives = { λ _ fault. fault ≡ Memory };

    fn from(_error: AllocError) -> ToolFault {
        ToolFault::Memory
    }
}

impl<T: Drop> From<AllocFailed<T>> for ToolFault {
    ghost use Rattle.std.specs.Prelude.{◌≡◌};
    ghost use Rattle.tool_files.specs.declared.fault.ToolFault.TheVariants.{Memory};

    ghost from_gives = { λ _ fault. fault ≡ Memory };

    fn from(_failed: AllocFailed<T>) -> ToolFault {
        ToolFault::Memory
    }
}
