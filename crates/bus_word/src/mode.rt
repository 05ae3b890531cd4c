//! The mode codes (MIL-STD-1553B, 4.3.3.5.1.7).
ghost use Rattle.std.specs.Prelude.{◌≡◌};

/// Dynamic bus control (4.3.3.5.1.7.1).
pub const DYNAMIC_BUS_CONTROL: u8 = 0;
/// Synchronize (4.3.3.5.1.7.2).
pub const SYNCHRONIZE: u8 = 1;
/// Transmit status word (4.3.3.5.1.7.3).
pub const TRANSMIT_STATUS: u8 = 2;
/// Initiate self test (4.3.3.5.1.7.4).
pub const SELF_TEST: u8 = 3;
/// Transmitter shutdown (4.3.3.5.1.7.5).
pub const SHUTDOWN: u8 = 4;
/// Override transmitter shutdown (4.3.3.5.1.7.6).
pub const OVERRIDE_SHUTDOWN: u8 = 5;
/// Inhibit terminal flag bit (4.3.3.5.1.7.7).
pub const INHIBIT_FLAG: u8 = 6;
/// Override inhibit terminal flag bit (4.3.3.5.1.7.8).
pub const OVERRIDE_INHIBIT: u8 = 7;
/// Reset remote terminal (4.3.3.5.1.7.9).
pub const RESET: u8 = 8;
/// Transmit vector word (4.3.3.5.1.7.11).
pub const VECTOR_WORD: u8 = 16;
/// Synchronize with data word (4.3.3.5.1.7.12).
pub const SYNCHRONIZE_WITH_WORD: u8 = 17;
/// Transmit last command word (4.3.3.5.1.7.13).
pub const LAST_COMMAND: u8 = 18;
/// Transmit BIT word (4.3.3.5.1.7.14).
pub const BIT_WORD: u8 = 19;

/// The mode codes that every profile must leave legal to the own address (Notice 2, 30.4.2.1), the lowest first.
pub const REQUIRED: [u8; 4] = [TRANSMIT_STATUS, SHUTDOWN, OVERRIDE_SHUTDOWN, RESET];

/// What the table of mode codes says of one code.
#[derive(Clone, Copy, PartialEq, Eq, Debug)]
pub struct ModeRow {
    /// The T/R bit that the code goes with: true where the terminal transmits.
    pub transmit: bool,
    /// Whether a data word goes with the code.
    pub word: bool,
    /// Whether the code may be legal by broadcast.
    pub broadcast: bool,
}

impl ModeRow {
    ghost use Rattle.bus_word.specs.Mode.{row};

    /// Makes a row of the table.
    fn of(transmit: bool, word: bool, broadcast: bool) -> ModeRow
        ensures { result ≡ row transmit word broadcast }
    {
        ModeRow {
            transmit,
            word,
            broadcast,
        }
    }
}

ghost use Rattle.bus_word.specs.Mode.{mode_row, is_required_code, mode_name};

/// The row of a mode code, or None for a code that is always illegal: the reserved ones, and
/// selected transmitter shutdown and its override (20 and 21), which serve more than two buses.
#[inline(always)]
pub fn mode_row(code: u8) -> Option<ModeRow>
    ensures { result ≡ mode_row code }
{
    match code {
        DYNAMIC_BUS_CONTROL | TRANSMIT_STATUS => Some(ModeRow::of(true, false, false)),
        SYNCHRONIZE | SELF_TEST..=RESET => Some(ModeRow::of(true, false, true)),
        VECTOR_WORD | LAST_COMMAND | BIT_WORD => Some(ModeRow::of(true, true, false)),
        SYNCHRONIZE_WITH_WORD => Some(ModeRow::of(false, true, true)),
        _ => None,
    }
}

/// Whether every profile must leave the mode code legal to the own address: whether it is one of `REQUIRED`.
pub fn is_required_code(code: u8) -> bool
    ensures { result ≡ is_required_code code }
{
    REQUIRED.contains(&code)
}

/// What a mode code, 0 to 31, is called (MIL-STD-1553B, 4.3.3.5.1.7); those of selected transmitter shutdown, 20 and 21,
/// without the word transmitter.
pub fn mode_name(code: u8) -> &'static str
    ensures { result.now ≡ mode_name code }
{
    match code {
        0 => "dynamic bus control",
        1 => "synchronize",
        2 => "transmit status word",
        3 => "initiate self test",
        4 => "transmitter shutdown",
        5 => "override transmitter shutdown",
        6 => "inhibit terminal flag bit",
        7 => "override inhibit terminal flag bit",
        8 => "reset remote terminal",
        16 => "transmit vector word",
        17 => "synchronize with data word",
        18 => "transmit last command",
        19 => "transmit BIT word",
        20 => "selected shutdown",
        21 => "override selected shutdown",
        _ => "reserved",
    }
}
