//! Laws over what a terminal answers. Each function does nothing, and its contract is the law.
ghost use Rattle.bus_terminal.specs.Received.{ReceivedIsHanded};
ghost use Rattle.bus_terminal.specs.Slots.{SlotsAreSilent};

/// What is received by data words at once is handed over at their gap.
pub fn received_is_handed()
    ensures { ReceivedIsHanded }
{}

/// Where no reply is in progress, nothing is sent in the slots to come.
pub fn slots_are_silent()
    ensures { SlotsAreSilent }
{}
