//! A guess of what is legal.
ghost use Rattle.std.specs.Prelude.{◌≤◌};

use crate::assumed::{Assumed, TRIED_BROADCAST, TRIED_OWN};
use crate::cells::{no_cells, turn};
use bus_legal::{BROADCAST_CODES, Legality, OWN_CODES, Setup, Tables};
use bus_word::{Cell, is_required_code, mode};

/// The mode code that inhibits the terminal flag, as a mask: one that is not inhibited shows all that one that is shows.
pub const INHIBITS: u32 = 1 << (mode::INHIBIT_FLAG as u32);
/// The mode code that ends that, as a mask.
pub const OVERRIDES_INHIBIT: u32 = 1 << (mode::OVERRIDE_INHIBIT as u32);

/// A guess of what is legal: what it was at first, and what statuses of the recording showed to be otherwise.
#[derive(Clone, Copy)]
pub struct Guess {
    pub broadcast: bool,
    pub accept: bool,
    pub legal: Tables,
    /// The cells that aren't as they were guessed at first.
    turned: Tables,
}

/// Whether a cell is legal by what is assumed, or in every profile.
fn is_fixed(cell: Cell) -> bool {
    match cell {
        Cell::OwnMode(code) => is_required_code(code) || code == mode::LAST_COMMAND,
        Cell::BroadMode(code) => matches!(
            code,
            mode::SHUTDOWN | mode::OVERRIDE_SHUTDOWN | mode::RESET
        ),
        _ => false,
    }
}

impl Guess {
    /// The first guess: all is legal that isn't assumed as illegal, but for the codes that inhibit the terminal flag.
    pub fn first(assumed: Assumed, accept: bool) -> Guess {
        Guess {
            broadcast: assumed.broadcast,
            accept,
            legal: Tables {
                own_receive: [u32::MAX; 30],
                own_transmit: [u32::MAX; 30],
                broadcast_receive: [u32::MAX; 30],
                own_mode: (OWN_CODES & !INHIBITS & !TRIED_OWN) | assumed.own_mode,
                broadcast_mode: (BROADCAST_CODES & !INHIBITS & !TRIED_BROADCAST)
                    | assumed.broadcast_mode,
            },
            turned: no_cells(),
        }
    }

    /// Takes a cell for legal that was not, or the other way round. Gives false where that can't be.
    pub fn turn(&mut self, cell: Cell) -> bool {
        if is_fixed(cell) || self.turned.legal(cell) {
            return false;
        }
        turn(&mut self.turned, cell);
        turn(&mut self.legal, cell);
        true
    }

    /// The set-up of the terminal of this address, whose words are those of a terminal that holds none.
    pub fn setup(&self, address: u8) -> Setup
        requires { address ≤ 30 }
    {
        Setup {
            address,
            broadcast: self.broadcast,
            wrap: 0,
            accept: self.accept,
            vector: 0,
            bit: 0,
            initial: [[0; 32]; 30],
        }
    }
}
