//! What is proposed: the cells that are legal.
use crate::asked::Asked;
use crate::assumed::{Assumed, TRIED_BROADCAST, TRIED_OWN};
use crate::evidence::Evidence;
use crate::guess::{INHIBITS, OVERRIDES_INHIBIT};
use bus_legal::{BROADCAST_CODES, OWN_CODES, REQUIRED_CODES, Tables};

/// What becomes of a command of which no status word of the recording shows whether it is legal.
#[derive(Clone, Copy, PartialEq, Eq, Debug)]
pub enum Unseen {
    Legal,
    Illegal,
}

/// What is proposed, and what it rests on.
#[derive(Drop)]
pub struct Proposal {
    pub address: u8,
    pub unseen: Unseen,
    pub assumed: Assumed,
    pub asked: Asked,
    pub evidence: Evidence,
}

/// The masks of those that are shown to be legal, or of all but those that are shown to be illegal.
fn counts_by(unseen: Unseen, legal: &[u32; 30], illegal: &[u32; 30]) -> [u32; 30] {
    match unseen {
        Unseen::Illegal => *legal,
        Unseen::Legal => {
            let mut masks = [u32::MAX; 30];
            for (mask, refused) in masks.iter_mut().zip(illegal) {
                *mask &= !refused;
            }
            masks
        }
    }
}

/// The mask of mode codes of one kind. Of those that were asked for and act on later messages no more is left open: what is tried is as it is
/// assumed, and, where no status word shows it, the code that inhibits the terminal flag is illegal and the one that overrides it legal.
fn codes_by(
    unseen: Unseen,
    legal: u32,
    illegal: u32,
    asked: u32,
    tried: u32,
    assumed: u32,
    codes: u32,
) -> u32 {
    let others = match unseen {
        Unseen::Illegal => asked & OVERRIDES_INHIBIT,
        Unseen::Legal => !(asked & (INHIBITS | tried)),
    };
    (legal | assumed | (others & !illegal)) & codes
}

impl Proposal {
    /// The own mode codes of commands of the recording that act on later messages.
    pub fn acting_own(&self) -> u32 {
        self.asked.cells.own_mode & (TRIED_OWN | INHIBITS | OVERRIDES_INHIBIT)
    }

    /// The same of those by broadcast, where the terminal hears them.
    pub fn acting_broadcast(&self) -> u32 {
        if self.assumed.broadcast {
            self.asked.cells.broadcast_mode & (TRIED_BROADCAST | INHIBITS | OVERRIDES_INHIBIT)
        } else {
            0
        }
    }

    /// The cells that are legal.
    pub fn legal(&self) -> Tables {
        let unseen = self.unseen;
        let Evidence { legal, illegal, .. } = &self.evidence;
        let heard = if self.assumed.broadcast { u32::MAX } else { 0 };
        Tables {
            own_receive: counts_by(unseen, &legal.own_receive, &illegal.own_receive),
            own_transmit: counts_by(unseen, &legal.own_transmit, &illegal.own_transmit),
            broadcast_receive: if self.assumed.broadcast {
                counts_by(unseen, &legal.broadcast_receive, &illegal.broadcast_receive)
            } else {
                [0; 30]
            },
            own_mode: REQUIRED_CODES
                | codes_by(
                    unseen,
                    legal.own_mode,
                    illegal.own_mode,
                    self.asked.cells.own_mode,
                    TRIED_OWN,
                    self.assumed.own_mode,
                    OWN_CODES,
                ),
            broadcast_mode: heard
                & codes_by(
                    unseen,
                    legal.broadcast_mode,
                    illegal.broadcast_mode,
                    self.asked.cells.broadcast_mode,
                    TRIED_BROADCAST,
                    self.assumed.broadcast_mode,
                    BROADCAST_CODES,
                ),
        }
    }
}
