//! What status words show of cells.
use crate::cells::{no_cells, turn};
use bus_legal::{Legality, Tables};
use bus_word::Cell;
use std::alloc::{AllocError, Global};

/// What a status word shows of a cell.
#[derive(Clone, Copy)]
pub struct CellShown {
    pub cell: Cell,
    /// The line of the command that it reports.
    pub line: u64,
}

/// The cells that status words show, each with the first message that they report.
#[derive(Drop)]
pub struct Evidence {
    pub legal: Tables,
    pub illegal: Tables,
    /// Of these, the legal ones.
    pub accepted: Vec<CellShown>,
    /// The others.
    pub refused: Vec<CellShown>,
}

impl Evidence {
    /// Nothing.
    pub fn none(alloc: Global) -> Evidence {
        Evidence {
            legal: no_cells(),
            illegal: no_cells(),
            accepted: Vec::new(alloc),
            refused: Vec::new(alloc),
        }
    }

    /// Adds that a cell is legal, or illegal, unless it is known.
    pub fn add(&mut self, cell: Cell, line: u64, is_legal: bool) -> Result<(), AllocError> {
        if self.legal.legal(cell) || self.illegal.legal(cell) {
            return Ok(());
        }
        if is_legal {
            turn(&mut self.legal, cell);
            self.accepted.push(CellShown { cell, line })?;
        } else {
            turn(&mut self.illegal, cell);
            self.refused.push(CellShown { cell, line })?;
        }
        Ok(())
    }
}
