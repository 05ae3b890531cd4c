//! What a monitor heard on the two buses.
ghost use Rattle.std.specs.Prelude.{◌≡◌};
ghost use Rattle.bus_word.specs.Word.{is_command_sync};
ghost use Rattle.terminal_rules.specs.Buses.{other};

use crate::cells::WordSync;
use bus_terminal::Sent;
use bus_word::{Bus, Kind};

/// What was heard.
#[derive(Clone, Copy)]
pub enum HeardItem {
    /// A gap on a bus.
    Gap(Bus),
    /// A word that the terminal did not send.
    Word(Bus, WordSync, u16),
    /// What is no valid word.
    Noise(Bus),
    /// A word that the terminal sent: a part of its reply.
    Reply(Sent),
    /// A word that the terminal sent too late for a reply, and by how many nanoseconds the silence before it was too long.
    Late(Sent, u64),
    /// A slot in which the terminal sends nothing.
    Slot,
    /// A slot in which the terminal may be silent, since it may not have heard the message.
    MaybeSilent,
    /// A second gap on a bus, that may have come or not: the terminal may have given up waiting for the status word of another.
    MaybeGap(Bus),
    /// The end of a pause, behind two gaps on each bus: in a slot nothing is sent.
    Pause,
}

/// Whether a sync is that of command and status words.
pub fn is_command_sync(kind: Kind) -> bool
    ensures { result ≡ is_command_sync kind }
{
    matches!(kind, Kind::Com)
}

/// The other bus.
pub fn other_bus(bus: Bus) -> Bus
    ensures { result ≡ other bus }
{
    match bus {
        Bus::A => Bus::B,
        Bus::B => Bus::A,
    }
}
