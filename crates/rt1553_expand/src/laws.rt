//! Laws over the definitions. Each function does nothing, and its contract is the law.

ghost use Rattle.rt1553_expand.specs.Gathered.{EachIsSaid};
ghost use Rattle.rt1553_expand.specs.Events.{LeftOutWordsAreNone};
ghost use Rattle.rt1553_expand.specs.Slots.{SlotsAreEnough, NoSlotIsSpare};

/// Behind a message there is a slot for each word of any reply to it, and none that no reply needs.
pub fn slots_are_enough()
    ensures enough { SlotsAreEnough }
    ensures no_spare { NoSlotIsSpare }
{}

/// Each message of a command, with its data words, and in a transfer with a sender, has a line that says it: `gather` leaves none out.
pub fn each_message_is_said()
    ensures { EachIsSaid }
{}

/// Where a transfer may lack its data words, they make no difference to its events.
pub fn left_out_words_are_none()
    ensures { LeftOutWordsAreNone }
{}
