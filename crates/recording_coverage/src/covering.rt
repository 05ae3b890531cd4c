//! What events show of a terminal.
ghost use Rattle.std.specs.Prelude.{◌≡◌, ◌++◌, List, IfOk};
ghost use Rattle.bus_legal.specs.Description.{Description};
ghost use Rattle.bus_legal.specs.Parts.{description_in};
ghost use Rattle.bus_legal.specs.Reach.{reach};
ghost use Rattle.recording_coverage.specs.declared.outcome.MessageEnd.{MessageEnd};
ghost use Rattle.recording_coverage.specs.Endings.{ends_of};
ghost use Rattle.recording_coverage.specs.Covers.{Covers};
ghost use Rattle.recording_coverage.specs.Rows.{covered, tried_illegal};

use crate::counting::count;
use crate::coverage::Coverage;
use crate::table::CoverageTable;
use bus_legal::Normal;
use bus_terminal::Event;
use std::alloc::{AllocError, Global};

/// Counts what comes of the messages of these events, of a terminal from power-up, beside what was counted before.
pub fn count_events(coverage: &mut Coverage, normal: &Normal, events: &[Event])
    ensures { (P : Description) (ends : List MessageEnd) → description_in normal.now ≡ reach P → Covers ends coverage.old → Covers (ends ++ ends_of P events.now) coverage.new }
{
    count(coverage, normal.setup(), *normal, events);
}

/// Gives what came of each legal message over these events, of a terminal from power-up, and which illegal ones came.
pub fn coverage_of(
    alloc: Global,
    normal: &Normal,
    events: &[Event],
) -> Result<CoverageTable, AllocError>
    ensures legal { (P : Description) → description_in normal.now ≡ reach P → IfOk result (λ table. table.legal.items ≡ covered (reach P) (ends_of P events.now)) }
    ensures illegal { (P : Description) → description_in normal.now ≡ reach P → IfOk result (λ table. table.illegal.items ≡ tried_illegal (reach P) (ends_of P events.now)) }
{
    let mut coverage = Coverage::none(alloc)?;
    count_events(&mut coverage, normal, events);
    CoverageTable::of(alloc, normal, &coverage)
}
