//! What a command means.
ghost use Rattle.std.specs.Prelude.{◌≡◌};
ghost use Rattle.bus_word.specs.Command.{expected};
ghost use Rattle.bus_word.specs.Cell.{cell_of};

use bus_word::{Cell, Command, cell_of};

/// A command with what it means, found once: its cell, and how many data words are to follow it.
#[derive(Clone, Copy)]
pub struct Decoded {
    pub command: Command,
    pub cell: Option<Cell>,
    pub count: u8,
    ghost of_command: { cell ≡ cell_of command },
    ghost counted: { count ≡ expected command },
}

impl Decoded {
    /// Finds what a command means.
    #[inline(always)]
    pub fn of(command: Command) -> Decoded
        ensures { result.command ≡ command }
    {
        Decoded {
            command,
            cell: cell_of(command),
            count: command.expected(),
        }
    }
}
