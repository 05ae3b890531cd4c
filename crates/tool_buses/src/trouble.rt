//! What is told of a message that doesn't end well.
ghost use Rattle.std.specs.Prelude.{◌≡◌};
ghost use Rattle.tool_buses.specs.Troubles.{command_trouble};

/// What is told of a command of a message, beside the rows of the terminals that it speaks to.
#[derive(Clone, Copy, PartialEq, Eq)]
pub enum CommandTrouble {
    /// No profile has its address.
    NoProfile,
    /// The terminal of its address has no row of the message.
    NoRow,
    /// It is a broadcast that no terminal carries out.
    NoTaker,
}

/// What is told of a command, by whether it is a broadcast, whether a profile has its address, whether a terminal that it speaks to has a
/// row of the message, and whether such a row is done.
pub fn command_trouble(
    is_broadcast: bool,
    has_profile: bool,
    is_seen: bool,
    is_done: bool,
) -> Option<CommandTrouble>
    ensures { result ≡ command_trouble is_broadcast has_profile is_seen is_done }
{
    if is_broadcast {
        if is_done {
            None
        } else {
            Some(CommandTrouble::NoTaker)
        }
    } else if !has_profile {
        Some(CommandTrouble::NoProfile)
    } else if !is_seen {
        Some(CommandTrouble::NoRow)
    } else {
        None
    }
}
