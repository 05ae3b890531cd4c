//! Why bytes are no saved state.
use thiserror::Error;

/// Why bytes are no saved state. Lines are numbered from 1.
#[derive(Clone, Copy, Debug, PartialEq, Eq, Error)]
pub enum StateFault {
    /// The lines before this one begin a saved state, and with it they begin none; no whole one stands at the front.
    #[error("saved state: line {0}")]
    Line(usize),
    /// A whole saved state stands at the front, and further bytes follow it.
    #[error("saved state: bytes after the end")]
    Trailing,
}
