//! The names of the lines.

pub const HEAD: &[u8] = b"rt1553-state";

pub const BITS: &[u8] = b"bits";

pub const REGISTERS: &[u8] = b"registers";

pub const REPLY: &[u8] = b"reply";

pub const MESSAGE: &[u8] = b"message";

pub const WORDS: &[u8] = b"words";

pub const HELD: &[u8] = b"held";
