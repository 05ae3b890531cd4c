//! The laws of a schedule. Each function does nothing, and its contract is a law, or worked examples.

ghost use Rattle.terminal_schedules.specs.Entries.{ScheduleLaw};
ghost use Rattle.terminal_schedules.specs.Left.{EveryOrderLaw, LeftTells};
ghost use Rattle.terminal_schedules.specs.Schedule.{AloneDecides};
ghost use Rattle.terminal_schedules.specs.ScheduleRows.{ScheduleRows};

/// What is told to be left behind is so, and nothing is told just of what is clear.
pub fn left_tells()
    ensures { LeftTells }
{}

/// What leaves nothing behind, alone from power-up, ends as it does alone whenever no terminal has anything in progress.
pub fn alone_decides()
    ensures { AloneDecides }
{}

/// Messages of which none leaves anything behind end in every order as each does alone.
pub fn every_order()
    ensures { EveryOrderLaw }
{}

/// The entries of a schedule end well, in any order and any number of times.
pub fn schedule()
    ensures { ScheduleLaw }
{}

/// Schedules for two units, and what is answered after what can't stand in one.
pub fn schedule_rows()
    ensures { ScheduleRows }
{}
