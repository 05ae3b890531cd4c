//! What is tried, since it need not show at once: the broadcast option, and codes whose messages act on later ones.
use crate::asked::Asked;
use bus_word::mode;

/// The own mode code that is tried, transmit last command, as a mask: legal, it leaves the kept status as it is.
pub const TRIED_OWN: u32 = 1 << (mode::LAST_COMMAND as u32);
/// The mode codes by broadcast that are tried, transmitter shutdown, its override and the reset: no status answers them.
pub const TRIED_BROADCAST: u32 = (1 << (mode::SHUTDOWN as u32))
    | (1 << (mode::OVERRIDE_SHUTDOWN as u32))
    | (1 << (mode::RESET as u32));

/// What one trial takes for granted.
#[derive(Clone, Copy)]
pub struct Assumed {
    /// The broadcast option.
    pub broadcast: bool,
    /// Which of `TRIED_OWN` is legal.
    pub own_mode: u32,
    /// Which of `TRIED_BROADCAST` are legal.
    pub broadcast_mode: u32,
}

/// A bit of a mask, or none.
fn bit_if(is_set: bool, code: u8) -> u32 {
    if is_set && code < 32 {
        1 << u32::from(code)
    } else {
        0
    }
}

impl Assumed {
    /// The assumptions of this number, 0 to 31: the higher the number, the more is legal.
    pub fn of(number: u8) -> Assumed {
        Assumed {
            broadcast: number & 16 != 0,
            own_mode: bit_if(number & 1 != 0, mode::LAST_COMMAND),
            broadcast_mode: bit_if(number & 2 != 0, mode::SHUTDOWN)
                | bit_if(number & 4 != 0, mode::OVERRIDE_SHUTDOWN)
                | bit_if(number & 8 != 0, mode::RESET),
        }
    }

    /// Whether a recording that asks this can tell them from others: what it doesn't ask for is assumed as illegal.
    pub fn is_tried(&self, asked: &Asked) -> bool {
        let heard = if self.broadcast {
            asked.cells.broadcast_mode
        } else {
            0
        };
        (asked.broadcast || !self.broadcast)
            && self.own_mode & !asked.cells.own_mode == 0
            && self.broadcast_mode & !heard == 0
    }
}
