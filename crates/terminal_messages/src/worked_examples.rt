//! Worked examples. Each function does nothing, and its contract is a family of rows, under their names: a set-up, events from
//! power-up on, and the messages of them.

ghost use Rattle.terminal_messages.specs.WorkedExamples.{WholeMessageRows, WholeTransferRows, OnTwoBusesRows};

/// Messages on one bus.
pub fn whole_messages()
    ensures { WholeMessageRows }
{}

/// Transfers between two terminals.
pub fn whole_transfers()
    ensures { WholeTransferRows }
{}

/// Messages on both buses.
pub fn on_two_buses()
    ensures { OnTwoBusesRows }
{}
