//! Laws over the definitions. Each function does nothing, and its contract is the law.

ghost use Rattle.terminal_messages.specs.Laws.{PartitionLaw, FirstsLaw, LocalLaw, PlacedLaw, ExactLaw, StartLaw};

/// What the terminal sends and hands over in a run is what it does in the messages of the run, one after the other.
pub fn answers_are_of_messages()
    ensures { PartitionLaw }
{}

/// Each command that begins a message or is not heard is the first of one message.
pub fn commands_are_of_messages()
    ensures { FirstsLaw }
{}

/// Messages that are over stay as they are.
pub fn messages_stay()
    ensures { LocalLaw }
{}

/// Each valid word of command sync has its place in the messages.
pub fn commands_have_places()
    ensures { PlacedLaw }
{}

/// Each message of a run is told to have ended exactly as the rules of the terminal end it.
pub fn ends_are_of_the_rules()
    ensures { ExactLaw }
{}

/// Each message of a run is told to be for other terminals, or ignored, exactly if the terminal does not start it; it starts one with the
/// command that the message has for it.
pub fn starts_are_of_commands()
    ensures { StartLaw }
{}
