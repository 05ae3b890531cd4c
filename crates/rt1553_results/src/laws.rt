//! What results show. The function does nothing, and its contract is the law.

ghost use Rattle.rt1553_results.specs.Unit.{UnitLaw};

/// The results of a unit that is the terminal of some profile pass the comparison exactly if it is the terminal with which
/// they are compared. Its replies are enough: their slots need not be known, nor what was handed over.
pub fn results_tell()
    ensures { UnitLaw }
{}
