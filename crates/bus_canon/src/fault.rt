//! Why a canonical text is refused.
use thiserror::Error;

/// Why a canonical text is refused. Lines are numbered from 1.
#[derive(Clone, Copy, Debug, PartialEq, Eq, Error)]
pub enum CanonFault {
    /// The lines before this one begin a canonical text, and with it they begin none; no whole text stands at the front.
    #[error("canonical text: line {0}")]
    Line(usize),
    /// A whole canonical text stands at the front, and further bytes follow it.
    #[error("canonical text: bytes after the end")]
    Trailing,
}

impl CanonFault {
    ghost use Rattle.std.specs.Prelude.{◌≡◌};
    ghost use Rattle.bus_canon.specs.Fault.{canon_fault_number, canon_fault_name};

    /// The number of the kind of fault: 1 or 2, in the order of the variants.
    pub fn number(&self) -> u8
        ensures { result ≡ canon_fault_number self.now }
    {
        match self {
            CanonFault::Line(_) => 1,
            CanonFault::Trailing => 2,
        }
    }

    /// The name of the kind of fault: that of its variant.
    pub fn name(&self) -> &'static str
        ensures { result.now ≡ canon_fault_name self.now }
    {
        match self {
            CanonFault::Line(_) => "Line",
            CanonFault::Trailing => "Trailing",
        }
    }
}
