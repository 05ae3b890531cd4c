//! Laws over the definitions. Each is a function that does nothing, and whose contract is the law.
ghost use Rattle.std.specs.Prelude.{◌≡◌, ◌≤◌, List, true, count_by};
ghost use Rattle.bus_word.specs.declared.cell.Cell.{Cell};
ghost use Rattle.bus_word.specs.Cell.{is_allowed};
ghost use Rattle.bus_legal.specs.Description.{Description};
ghost use Rattle.bus_legal.specs.Reach.{reach};
ghost use Rattle.terminal_rules.specs.declared.event.Event.{Event};
ghost use Rattle.terminal_rules.specs.WorkedExamples.Words.{same_cell};
ghost use Rattle.recording_coverage.specs.Endings.{ends_of};
ghost use Rattle.recording_coverage.specs.Messages.{all_cells};

/// What can't be reached changes nothing of what comes of messages, of a terminal whose address is 0 to 30.
pub fn reach_keeps_endings()
    ensures { (P : Description) (events : List Event) → P.address ≤ 30 → ends_of (reach P) events ≡ ends_of P events }
{}

/// Each message that some command asks for stands once among all.
pub fn each_message_once()
    ensures { (cell : Cell) → is_allowed cell ≡ true → count_by (same_cell cell) all_cells ≡ 1 }
{}
