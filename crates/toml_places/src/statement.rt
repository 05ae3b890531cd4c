//! A statement of a TOML text.
use toml_parser::Key;

/// What a statement is.
#[derive(Clone, Copy, PartialEq, Eq)]
pub enum StatementKind {
    /// `key = value`
    Pair,
    /// `[key]`
    Table,
    /// `[[key]]`
    Entry,
}

/// A statement of a TOML text.
#[derive(Drop)]
pub struct Statement {
    /// How many bytes of the text stand before it.
    pub at: usize,
    /// Its key, as it is written: that of a pair stands in the table of the header before it.
    pub key: Key,
    pub kind: StatementKind,
}
