//! All that a recording shows of a terminal.
ghost use Rattle.std.specs.Prelude.{◌≡◌, List, IfOk, map};
ghost use Rattle.bus_legal.specs.Parts.{description_in};
ghost use Rattle.recording_coverage.specs.declared.outcome.MessageEnd.{MessageEnd};
ghost use Rattle.recording_coverage.specs.Covers.{Covers};
ghost use Rattle.recording_coverage.specs.Rows.{covered, tried_illegal};
ghost use Rattle.recording_coverage.specs.Places.{rows_in};

use crate::coverage::Coverage;
use crate::places::{CoverageRow, message_rows};
use crate::rows::{CoveredMessage, IllegalMessage, covered_messages, illegal_messages};
use bus_legal::Normal;
use std::alloc::{AllocError, Global};

/// The legal messages of a terminal with what came of each, and the illegal ones that came.
#[derive(Drop)]
pub struct CoverageTable {
    /// What is received at each subaddress, what is transmitted, what is received by broadcast, and the mode codes.
    pub legal: Vec<CoveredMessage>,
    /// Those to the own address, then those by broadcast.
    pub illegal: Vec<IllegalMessage>,
}

impl CoverageTable {
    /// Gives the table of a terminal, by what was counted.
    pub fn of(
        alloc: Global,
        normal: &Normal,
        coverage: &Coverage,
    ) -> Result<CoverageTable, AllocError>
        ensures legal { IfOk result (λ table. (ends : List MessageEnd) → Covers ends coverage.now → table.legal.items ≡ covered (description_in normal.now) ends) }
        ensures illegal { IfOk result (λ table. (ends : List MessageEnd) → Covers ends coverage.now → table.illegal.items ≡ tried_illegal (description_in normal.now) ends) }
    {
        Ok(CoverageTable {
            legal: covered_messages(alloc, normal, coverage)?,
            illegal: illegal_messages(alloc, normal, coverage)?,
        })
    }

    /// Gives the legal messages in rows. Each row has those that differ in the word count alone, or one mode code.
    pub fn rows(&self, alloc: Global) -> Result<Vec<CoverageRow<'_>>, AllocError>
        ensures { IfOk result (λ rows. map (λ row. row.messages.now) rows.items ≡ rows_in self.now.legal.items) }
    {
        message_rows(alloc, self.legal.as_slice())
    }
}
