//! What recordings say. The functions do nothing, and their contracts are the laws.
ghost use Rattle.monitor_tables.specs.Recording.{ReadBackLaw, EarlyEndLaw};

/// A recording is a script that states answers. Read back, it says just what was heard, in order.
pub fn recordings_read_back()
    ensures { ReadBackLaw }
{}

/// A recording that ends early is refused by its last line, and so is no script that could pass.
pub fn early_ends_are_refused()
    ensures { EarlyEndLaw }
{}
