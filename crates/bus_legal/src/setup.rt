//! How a terminal is set up at power-up.
ghost use Rattle.std.specs.Prelude.{◌≤◌};

/// How a terminal is set up at power-up, apart from what is legal.
#[derive(Clone, Copy, PartialEq, Eq, Debug)]
pub struct Setup {
    /// The terminal's address, 0 to 30.
    pub address: u8,
    /// The broadcast option: whether the terminal hears commands to address 31.
    pub broadcast: bool,
    /// The wraparound subaddress, 1 to 30, at which words that are received replace those held there; 0
    /// where there is none.
    pub wrap: u8,
    /// Whether the terminal accepts dynamic bus control.
    pub accept: bool,
    /// The vector word.
    pub vector: u16,
    /// The BIT word.
    pub bit: u16,
    /// The words held: `initial[s - 1][i - 1]` is number `i` of subaddress `s`.
    pub initial: [[u16; 32]; 30],
    ghost own_address: { address ≤ 30 },
    ghost own_wrap: { wrap ≤ 30 },
}
