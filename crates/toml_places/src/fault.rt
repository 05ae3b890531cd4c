//! Why a text has no statements to give.
use std::alloc::AllocFailed;
use thiserror::Error;
use toml_parser::ParseError;

/// Why a text has no statements to give.
#[derive(Clone, Copy, Debug, PartialEq, Eq, Error)]
pub enum StatementsFault {
    /// The text is no TOML document.
    #[error("not TOML")]
    NotToml,
    /// A growth of memory was refused, which says nothing of the text.
    #[error("out of memory")]
    Memory,
}

impl From<ParseError> for StatementsFault {
    ghost use Rattle.std.specs.Prelude.{◌≡◌};
    ghost use Rattle.toml_places.specs.Found.{fault_of};

    ghost from_gives = { λ error fault. fault ≡ fault_of error };

    fn from(error: ParseError) -> StatementsFault {
        match error {
            ParseError::OutOfMemory => StatementsFault::Memory,
            ParseError::At(_, _, _) => StatementsFault::NotToml,
        }
    }
}

impl<T: Drop> From<AllocFailed<T>> for StatementsFault {
    ghost use Rattle.std.specs.Prelude.{◌≡◌};
    ghost use Rattle.toml_places.specs.declared.fault.StatementsFault.TheVariants.{Memory};

    ghost from_gives = { λ _ fault. fault ≡ Memory };

    fn from(_failed: AllocFailed<T>) -> StatementsFault {
        StatementsFault::Memory
    }
}
