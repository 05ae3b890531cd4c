//! What an event is to the messages on the buses.

/// What an event is to the messages on the buses.
#[derive(Clone, Copy, PartialEq, Eq, Debug)]
pub enum MessagePart {
    /// No command: a data word, a word that is not valid, noise, a gap, a slot, or what the subsystem does.
    Plain,
    /// The first command of a message.
    First,
    /// The second command of a transfer.
    Second,
    /// The status word of another terminal.
    Status,
    /// A command within a message for the terminal, where it is a wrong word.
    Within,
    /// A command that is not heard, since the terminal replies on its bus.
    Unheard,
}

impl MessagePart {
    ghost use Rattle.std.specs.Prelude.{◌≡◌};
    ghost use Rattle.terminal_messages.specs.Told.{is_first_command, is_second_command, is_status, is_command_within, is_unheard};

    /// Whether it is that of a first command.
    pub fn is_first_command(self) -> bool
        ensures { result ≡ is_first_command self }
    {
        matches!(self, MessagePart::First)
    }

    /// Whether it is that of a second command.
    pub fn is_second_command(self) -> bool
        ensures { result ≡ is_second_command self }
    {
        matches!(self, MessagePart::Second)
    }

    /// Whether it is that of an awaited status word.
    pub fn is_status(self) -> bool
        ensures { result ≡ is_status self }
    {
        matches!(self, MessagePart::Status)
    }

    /// Whether it is that of a command within a message.
    pub fn is_command_within(self) -> bool
        ensures { result ≡ is_command_within self }
    {
        matches!(self, MessagePart::Within)
    }

    /// Whether it is that of a command that is not heard.
    pub fn is_unheard(self) -> bool
        ensures { result ≡ is_unheard self }
    {
        matches!(self, MessagePart::Unheard)
    }
}
