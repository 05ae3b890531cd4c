//! The names of the lines.

pub const HEAD: &[u8] = b"rt1553";

pub const ADDRESS: &[u8] = b"address";

pub const BROADCAST: &[u8] = b"broadcast";

pub const OWN_RECEIVE: &[u8] = b"own-receive";

pub const OWN_TRANSMIT: &[u8] = b"own-transmit";

pub const BROADCAST_RECEIVE: &[u8] = b"broadcast-receive";

pub const OWN_MODE: &[u8] = b"own-mode";

pub const BROADCAST_MODE: &[u8] = b"broadcast-mode";

pub const ACCEPT: &[u8] = b"accept";

pub const VECTOR: &[u8] = b"vector";

pub const BIT: &[u8] = b"bit";

pub const WRAPAROUND: &[u8] = b"wraparound";

pub const INITIAL: &[u8] = b"initial";
