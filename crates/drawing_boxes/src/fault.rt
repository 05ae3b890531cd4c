//! Why a script isn't drawn.
ghost use Rattle.std.specs.Prelude.{◌≡◌};
ghost use Rattle.drawing_boxes.specs.declared.fault.DrawFault.TheVariants.{Memory};

use bus_script::RunFault;
use std::alloc::{AllocError, AllocFailed};
use thiserror::Error;

/// Why there is no drawing.
#[derive(Clone, Copy, Debug, PartialEq, Eq, Error)]
pub enum DrawFault {
    /// The script has this fault, for which its run ends too.
    #[error("{0}")]
    Script(RunFault),
    /// The script has no fault, and over 4,096 events.
    #[error("script: too many events to draw")]
    TooMany,
    /// A growth of memory was refused, which says nothing of the script.
    #[error("out of memory")]
    Memory,
}

impl From<AllocError> for DrawFault {
    ghost from_gives = { λ _ fault. fault ≡ Memory };

    fn from(_error: AllocError) -> DrawFault {
        DrawFault::Memory
    }
}

impl<T: Drop> From<AllocFailed<T>> for DrawFault {
    ghost from_gives = { λ _ fault. fault ≡ Memory };

    fn from(_failed: AllocFailed<T>) -> DrawFault {
        DrawFault::Memory
    }
}
