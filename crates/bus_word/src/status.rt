//! Status words (MIL-STD-1553B, 4.3.3.5.3).
ghost use Rattle.std.specs.Prelude.{◌≡◌, ◌≤◌};

/// The bits of a status word that a terminal sets. The instrumentation bit and the three reserved
/// bits are always 0 (4.3.3.5.3.4, 4.3.3.5.3.6).
#[derive(Clone, Copy, PartialEq, Eq, Debug)]
pub struct StatusParts {
    /// Message error (4.3.3.5.3.3).
    pub error: bool,
    /// Service request (4.3.3.5.3.5).
    pub service: bool,
    /// Broadcast command received (4.3.3.5.3.7).
    pub broadcast: bool,
    /// Busy (4.3.3.5.3.8).
    pub busy: bool,
    /// Subsystem flag (4.3.3.5.3.9).
    pub subsystem: bool,
    /// Dynamic bus control acceptance (4.3.3.5.3.10).
    pub accept: bool,
    /// Terminal flag (4.3.3.5.3.11).
    pub terminal: bool,
}

ghost use Rattle.bus_word.specs.Status.{status_word};

/// The status word of the terminal of this `address`, 0 to 30, with these bits set.
pub fn status_of(address: u8, parts: StatusParts) -> u16
    requires { address ≤ 30 }
    ensures { result ≡ status_word address parts }
{
    // from the highest bit down, each a step: a compiler makes of seven masks at once something slower
    let word = u16::from(address) * 2 + u16::from(parts.error);
    let word = word * 4 + u16::from(parts.service);
    let word = word * 16 + u16::from(parts.broadcast);
    let word = word * 2 + u16::from(parts.busy);
    let word = word * 2 + u16::from(parts.subsystem);
    let word = word * 2 + u16::from(parts.accept);
    word * 2 + u16::from(parts.terminal)
}
