//! What of its set-up a terminal keeps as it is.
ghost use Rattle.std.specs.Prelude.{◌≤◌};

/// The set-up but for the words of power-up, which the registers and the words held ready own.
#[derive(Clone, Copy)]
pub struct Settings {
    /// The terminal's address, 0 to 30.
    pub address: u8,
    /// Whether it hears commands to address 31.
    pub broadcast: bool,
    /// The wraparound subaddress, 1 to 30, or 0 for none.
    pub wrap: u8,
    /// Whether it accepts dynamic bus control.
    pub accept: bool,
    ghost own_address: { address ≤ 30 },
    ghost own_wrap: { wrap ≤ 30 },
}
