//! What a remote terminal answers to an event.
use bus_word::{Bus, Cell, Kind};

/// What a terminal sends on a bus: one word of a reply.
#[derive(Clone, Copy, Debug, PartialEq, Eq)]
pub struct Sent {
    /// The bus: that on which the command came.
    pub bus: Bus,
    /// Command sync for the status word, data sync for a data word.
    pub kind: Kind,
    /// The 16 bits.
    pub bits: u16,
}

/// Data words that a terminal is to send on a bus, one in each of the slots to come. They are the terminal's own, as it
/// holds them ready.
#[derive(Clone, Copy, Debug, PartialEq, Eq)]
pub struct WordsToSend<'a> {
    /// The bus: that on which the command came.
    pub bus: Bus,
    /// The data words, in order.
    pub words: &'a [u16],
}

/// The word that a terminal sends next.
#[derive(Clone, Copy)]
pub struct NextWord {
    /// The bus: that on which the command came.
    pub bus: Bus,
    /// The cell of the message that is answered, where that was done.
    pub cell: Option<Cell>,
    /// The number of the word: the status is number 0, and the data words follow it.
    pub number: u8,
}

/// What a message is to receive that has just started.
#[derive(Clone, Copy)]
pub struct Receiving {
    /// Whether it comes by broadcast.
    pub broadcast: bool,
    /// The subaddress, 1 to 30.
    pub subaddress: u8,
    /// How many data words, 1 to 32.
    pub count: u8,
}

/// What a terminal hands over to its subsystem.
#[derive(Clone, Copy, Debug, PartialEq, Eq)]
pub enum Hand<'a> {
    /// Words that were received.
    Received {
        /// Whether they came by broadcast.
        broadcast: bool,
        /// The subaddress, 1 to 30.
        subaddress: u8,
        /// The data words, in order: where the terminal took them.
        words: &'a [u16],
    },
    /// Synchronize (MIL-STD-1553B, 4.3.3.5.1.7.2).
    Synchronize,
    /// Synchronize with this data word (4.3.3.5.1.7.12).
    SynchronizeWith(u16),
    /// Initiate self test (4.3.3.5.1.7.4).
    SelfTest,
    /// The offer of dynamic bus control was accepted (4.3.3.5.1.7.1).
    BusControl,
}

/// What a terminal answers to an event. Words that are handed over are the terminal's own, so an answer is of use
/// until the terminal's next event.
#[derive(Clone, Copy, Debug, PartialEq, Eq)]
pub enum Answer<'a> {
    /// Nothing, as to most events.
    Silent,
    /// A word is sent: only in a slot.
    Sends(Sent),
    /// Something is handed over: only at a gap.
    Hands(Hand<'a>),
}
