//! The law of the complete test. The function does nothing, and its contract is the law.

ghost use Rattle.bus_complete_test.specs.CompleteTest.{CompleteTestLaw};

/// A terminal answers the complete test of another as that other does, exactly if it is the same terminal.
pub fn complete_test()
    ensures { CompleteTestLaw }
{}
