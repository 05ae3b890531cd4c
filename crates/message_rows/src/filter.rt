//! Which messages are printed.
ghost use Rattle.std.specs.Prelude.{◌≡◌};
ghost use Rattle.message_rows.specs.Filter.{is_faulty, is_chosen, passes};

use crate::commands::MessageCommands;
use terminal_messages::{KeptMessage, MessageEnding};

/// Which messages are printed.
#[derive(Clone, Copy)]
pub struct RowFilter {
    /// Those with a command of this address, 0 to 31, of which 31 stands for all terminals; None for all.
    pub address: Option<u8>,
    /// Those with a command of this subaddress, 0 to 31; None for all.
    pub subaddress: Option<u8>,
    /// Those for the terminal alone that were not done, or lack their reply or a part of it.
    pub errors: bool,
}

/// Whether a message is for the terminal and was not done, or lacks its reply or a part of it.
pub fn is_faulty(message: &KeptMessage) -> bool
    ensures { result ≡ is_faulty message.now.state.«end» message.now.state.unsent }
{
    match message.state.end {
        MessageEnding::Other => false,
        MessageEnding::Done => message.state.unsent.is_some(),
        _ => true,
    }
}

impl RowFilter {
    /// Whether the addresses and subaddresses are those of the filter.
    fn is_chosen(&self, commands: &MessageCommands) -> bool
        ensures { result ≡ is_chosen self.now commands.now }
    {
        let is_to = match self.address {
            Some(address) => commands.goes_to(address),
            None => true,
        };
        let is_at = match self.subaddress {
            Some(subaddress) => commands.is_at(subaddress),
            None => true,
        };
        is_to && is_at
    }

    /// Whether a message is printed.
    pub fn passes(&self, message: &KeptMessage) -> bool
        ensures { result ≡ passes self.now message.now }
    {
        self.is_chosen(&MessageCommands::of(message)) && (!self.errors || is_faulty(message))
    }
}
