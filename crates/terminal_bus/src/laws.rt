//! The laws of a bus of terminals. Each function does nothing, and its contract is a law, or worked examples.

ghost use Rattle.terminal_bus.specs.Alone.{AloneLaw};
ghost use Rattle.terminal_bus.specs.BusRows.{BusRows};
ghost use Rattle.terminal_bus.specs.OneSpeaker.{OneSpeakerLaw};
ghost use Rattle.terminal_bus.specs.Transfer.{TransferLaw};

/// A terminal answers on the bus as it does alone to the events that come to it.
pub fn alone()
    ensures { AloneLaw }
{}

/// Under the controller's discipline at most one terminal replies at a time, and no two words collide
/// (MIL-STD-1553B, 4.3.3.2: the controller has sole control of what is sent on the bus).
pub fn one_speaker()
    ensures { OneSpeakerLaw }
{}

/// A transfer between two terminals of the bus hands over the words that one holds at the other (MIL-STD-1553B, 4.3.3.6.3).
pub fn transfer()
    ensures { TransferLaw }
{}

/// Buses of three terminals, and what happens on them.
pub fn bus_rows()
    ensures { BusRows }
{}
