//! The keys that take one of a few texts: `to` and `direction`.
ghost use Rattle.std.specs.Prelude.{◌≡◌, codes};
ghost use Rattle.bus_profile.specs.inner.Choice.{addressee_text, direction_text};
ghost use Rattle.bus_profile.specs.inner.FirstFault.{ReadsAs};
ghost use Rattle.bus_profile.specs.Keys.{to_row, direction_row};
ghost use Rattle.bus_profile.specs.Kinds.{text};
ghost use Rattle.bus_profile.specs.Gives.{says};
ghost use Rattle.bus_profile.specs.inner.Section.{value_at, fault_at};

use crate::fault::{Key, ProfileFault};
use crate::section::Section;

/// To which address the commands go that an entry speaks of.
#[derive(Clone, Copy, Debug, PartialEq, Eq)]
pub enum Addressee {
    Own,
    Broadcast,
    Both,
}

impl Addressee {
    /// Whether the own address is among them.
    pub fn is_own(self) -> bool
        ensures { result ≡ says (codes "own") (addressee_text self) }
    {
        self != Addressee::Broadcast
    }

    /// Whether address 31, that of all terminals, is among them.
    pub fn is_broadcast(self) -> bool
        ensures { result ≡ says (codes "broadcast") (addressee_text self) }
    {
        self != Addressee::Own
    }
}

/// In which direction the data goes of the commands that a rule speaks of.
#[derive(Clone, Copy, Debug, PartialEq, Eq)]
pub enum Direction {
    Receive,
    Transmit,
    Both,
}

impl Direction {
    /// Whether commands to receive are meant.
    pub fn is_receive(self) -> bool
        ensures { result ≡ says (codes "receive") (direction_text self) }
    {
        self != Direction::Transmit
    }

    /// Whether commands to transmit are meant.
    pub fn is_transmit(self) -> bool
        ensures { result ≡ says (codes "transmit") (direction_text self) }
    {
        self != Direction::Receive
    }
}

impl Section<'_> {
    /// What `to` says: the own address where it is absent.
    #[tactic(auto, unfolding(crate::specs::Checks::in_order))]
    pub fn addressee(&self) -> Result<Addressee, ProfileFault>
        ensures { ReadsAs addressee_text (fault_at to_row self.now) (text (value_at to_row self.now)) result }
    {
        let Some(value) = self.value(Key::To) else {
            return Ok(Addressee::Own);
        };
        let Some(text) = value.as_str() else {
            return Err(ProfileFault::WrongKind(self.part, Key::To));
        };
        match text {
            "own" => Ok(Addressee::Own),
            "broadcast" => Ok(Addressee::Broadcast),
            "both" => Ok(Addressee::Both),
            _ => Err(ProfileFault::OutOfRange(self.part, Key::To)),
        }
    }

    /// What `direction` says, which must be there.
    #[tactic(auto, unfolding(crate::specs::Checks::in_order))]
    pub fn direction(&self) -> Result<Direction, ProfileFault>
        ensures { ReadsAs direction_text (fault_at direction_row self.now) (text (value_at direction_row self.now)) result }
    {
        let Some(value) = self.value(Key::Direction) else {
            return Err(ProfileFault::Missing(self.part, Key::Direction));
        };
        let Some(text) = value.as_str() else {
            return Err(ProfileFault::WrongKind(self.part, Key::Direction));
        };
        match text {
            "receive" => Ok(Direction::Receive),
            "transmit" => Ok(Direction::Transmit),
            "both" => Ok(Direction::Both),
            _ => Err(ProfileFault::OutOfRange(self.part, Key::Direction)),
        }
    }
}
