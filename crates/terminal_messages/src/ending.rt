//! How messages end.

/// Why a message ended in error.
#[derive(Clone, Copy, PartialEq, Eq, Debug)]
pub enum ErrorCause {
    /// It had fewer or more data words than its command says.
    WordCount,
    /// A word of it was not valid, or was noise.
    InvalidWord,
    /// A command came within it.
    CommandWithin,
    /// A gap came before its last data word.
    GapWithin,
    /// The transmitter sent no status word.
    NoStatus,
}

/// Why a command for the terminal starts nothing.
#[derive(Clone, Copy, PartialEq, Eq, Debug)]
pub enum IgnoreCause {
    /// The terminal replies on its bus, where it hears nothing then.
    Reply,
    /// Another command for the terminal came before it on its bus, without a gap between them.
    NoGap,
}

/// Why a reply is not sent, or not whole.
#[derive(Clone, Copy, PartialEq, Eq, Debug)]
pub enum Unsent {
    /// The transmitter is shut down.
    ShutDown,
    /// A command on the other bus dropped the rest.
    Dropped,
}

/// How a message ended for the terminal.
#[derive(Clone, Copy, PartialEq, Eq, Debug)]
pub enum MessageEnding {
    /// It is for other terminals.
    Other,
    /// It has not ended.
    Open,
    /// Its command is for the terminal and starts nothing.
    Ignored(IgnoreCause),
    /// A command on the other bus superseded it.
    Superseded,
    /// In error.
    InError(ErrorCause),
    /// Well, and illegal.
    Illegal,
    /// Well, and kept from being carried out by the busy flag.
    Busy,
    /// Well, and carried out.
    Done,
}
