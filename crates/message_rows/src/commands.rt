//! The commands of a message, and what they ask for.
ghost use Rattle.std.specs.Prelude.{◌≡◌};
ghost use Rattle.message_rows.specs.Commands.{row_commands, form_of, named_command, goes_to, is_at};

use bus_word::Command;
use terminal_messages::KeptMessage;

/// What a message is.
#[derive(Clone, Copy, PartialEq, Eq, Debug)]
pub enum MessageForm {
    /// A terminal, or all, receive data words from the bus controller.
    Receive,
    /// A terminal transmits data words to the bus controller.
    Transmit,
    /// A mode command.
    Mode,
    /// A terminal, or all, receive data words that another one transmits.
    Transfer,
}

/// The commands of a message.
#[derive(Clone, Copy)]
pub struct MessageCommands {
    /// The first one.
    pub command: Command,
    /// In a transfer between two terminals the second one, by which the other terminal transmits.
    pub transmitter: Option<Command>,
}

impl MessageCommands {
    /// Those of a message.
    pub fn of(message: &KeptMessage) -> MessageCommands
        ensures { result ≡ row_commands message.now }
    {
        MessageCommands {
            command: message.state.command,
            transmitter: message.state.second,
        }
    }

    /// What the message is.
    pub fn form(&self) -> MessageForm
        ensures { result ≡ form_of self.now }
    {
        match self.transmitter {
            Some(_) => MessageForm::Transfer,
            None => {
                if self.command.is_mode() {
                    MessageForm::Mode
                } else if self.command.transmit() {
                    MessageForm::Transmit
                } else {
                    MessageForm::Receive
                }
            }
        }
    }

    /// The command that speaks to the terminal of this address, 0 to 30, or to all terminals, whether or not they listen: in a transfer the
    /// second one, if it is to this terminal. None where there is none.
    pub fn named(&self, address: u8) -> Option<Command>
        ensures { result ≡ named_command address self.now }
    {
        match self.transmitter {
            Some(transmitter) if transmitter.address() == address => Some(transmitter),
            _ => {
                if self.command.is_addressed_to(address, true) {
                    Some(self.command)
                } else {
                    None
                }
            }
        }
    }

    /// Whether a command of the message has this address, 0 to 31.
    pub fn goes_to(&self, address: u8) -> bool
        ensures { result ≡ goes_to address self.now }
    {
        let is_second = match self.transmitter {
            Some(transmitter) => transmitter.address() == address,
            None => false,
        };
        self.command.address() == address || is_second
    }

    /// Whether a command of the message has this subaddress, 0 to 31.
    pub fn is_at(&self, subaddress: u8) -> bool
        ensures { result ≡ is_at subaddress self.now }
    {
        let is_second = match self.transmitter {
            Some(transmitter) => transmitter.subaddress() == subaddress,
            None => false,
        };
        self.command.subaddress() == subaddress || is_second
    }
}
