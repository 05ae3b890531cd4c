//! Why a file isn't read.
ghost use Rattle.std.specs.Prelude.{◌≡◌};
ghost use Rattle.rt1553_files.specs.declared.fault.FileFault.TheVariants.{Memory};

use std::alloc::{AllocError, AllocFailed};
use thiserror::Error;

/// Why a file isn't read. A text is the name of the file, escaped.
#[derive(Debug, Drop, Error)]
pub enum FileFault {
    /// Out of memory.
    #[error("out of memory")]
    Memory,
    /// The file can't be opened or read.
    #[error("file: cannot read {0}")]
    CannotRead(String),
    /// The file has more bytes than it may have.
    #[error("file: too large {0}")]
    TooLarge(String),
}

impl From<AllocError> for FileFault {
    ghost from_gives = { λ _ fault. fault ≡ Memory };

    fn from(_error: AllocError) -> FileFault {
        FileFault::Memory
    }
}

impl<T: Drop> From<AllocFailed<T>> for FileFault {
    ghost from_gives = { λ _ fault. fault ≡ Memory };

    fn from(_failed: AllocFailed<T>) -> FileFault {
        FileFault::Memory
    }
}
