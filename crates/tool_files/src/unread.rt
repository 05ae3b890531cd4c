//! Why files aren't read.
ghost use Rattle.std.specs.Prelude.{◌≡◌};
ghost use Rattle.tool_files.specs.Status.{IsFailedRead, TellsUnread};

use crate::fault::{ToolFault, UnreadCause};
use crate::files::shown;
use rt1553_files::FileFault;
use std::fs;
use std::io::{ErrorKind, Read};
use std::rt::Files;

/// The kind of the error by which the file of this name can't be opened or read; None where it can be by now.
fn error_of<R: Files>(rt: &R, name: &str) -> Option<ErrorKind> {
    match fs::open(rt, name) {
        Ok(mut file) => match file.read(&mut [0u8; 1]) {
            Ok(_) => None,
            Err(error) => Some(error.kind()),
        },
        Err(error) => Some(error.kind()),
    }
}

/// The cause that an error of this kind tells of the file of this name.
fn cause_of(name: &str, error: Option<ErrorKind>) -> UnreadCause {
    match error {
        Some(ErrorKind::NotFound) if name == "-" => UnreadCause::Hyphen,
        Some(ErrorKind::NotFound | ErrorKind::NotADirectory) => UnreadCause::Missing,
        Some(ErrorKind::PermissionDenied) => UnreadCause::Forbidden,
        Some(ErrorKind::IsADirectory) => UnreadCause::Folder,
        _ => UnreadCause::Other,
    }
}

/// The fault of the file of this name, of at most so many bytes, with its cause. What can't be read is opened once more for that.
pub fn unread_file<R: Files>(rt: &R, name: &str, most: usize, fault: FileFault) -> ToolFault
    ensures { TellsUnread most fault result }
{
    match fault {
        FileFault::Memory => ToolFault::Memory,
        FileFault::CannotRead(shown) => {
            ToolFault::Unread(shown, cause_of(name, error_of(rt, name)))
        }
        FileFault::TooLarge(shown) => ToolFault::Unread(shown, UnreadCause::TooLarge(most)),
    }
}

/// The fault of the file of this name that was opened and can't be read on, with its cause.
pub fn failed_read<R: Files + AllocGlobal>(rt: &R, name: &str) -> ToolFault
    ensures { IsFailedRead result }
{
    match shown(rt, name) {
        Ok(shown) => ToolFault::Unread(shown, cause_of(name, error_of(rt, name))),
        Err(fault) => fault,
    }
}
