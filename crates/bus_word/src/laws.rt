//! Laws over the definitions. Each is a function that does nothing and whose contract is the law.
ghost use Rattle.bus_word.specs.Laws.{OneValidWord, EachWordHasFields, FieldsAreUnique, StatusHasBits, OwnCodes, RequiredCodes, BroadcastCodes, WordIsExpected, AllowedHaveCommands, CommandsHaveAllowed};

/// Of a sync and 16 bits there is one valid word.
pub fn one_valid_word()
    ensures { OneValidWord }
{}

/// The sum `address * 2048 + tr * 1024 + subaddress * 32 + low` has exactly one solution in range.
pub fn fields_and_bits()
    ensures each_word { EachWordHasFields }
    ensures unique { FieldsAreUnique }
{}

/// Each bit of a status word stands at its place, and the bits that are always 0 are.
pub fn status_bits()
    ensures { StatusHasBits }
{}

/// The mode codes that may be legal, that must be legal, and that may be legal by broadcast, as
/// masks with bit `c` for code `c`.
pub fn mode_masks()
    ensures own { OwnCodes }
    ensures required { RequiredCodes }
    ensures broadcast { BroadcastCodes }
{}

/// With which mode commands a data word is to come.
pub fn expected_words()
    ensures { WordIsExpected }
{}

/// The allowed cells are just those that some command has.
pub fn allowed_cells()
    ensures have_commands { AllowedHaveCommands }
    ensures of_commands { CommandsHaveAllowed }
{}
