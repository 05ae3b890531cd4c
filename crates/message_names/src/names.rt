//! The names of messages.
use crate::cells::NamedCells;
use crate::printed::quoted;
use bus_word::Cell;
use std::alloc::{AllocError, Global};
use std::marker::Model;

/// A row: a name, which is empty where the messages have none, and the cells that it speaks of.
#[derive(Drop)]
struct NamedRow {
    name: String,
    cells: NamedCells,
}

impl NamedRow {
    ghost use Rattle.std.specs.Prelude.{◌≡◌, option_map, string_bytes};
    ghost use Rattle.message_names.specs.Names.{if_named};

    /// The name, if it has text.
    fn name(&self) -> Option<&str>
        ensures { option_map (λ name. name.now) result ≡ if_named (string_bytes self.now.name) }
    {
        if self.name.is_empty() {
            return None;
        }
        Some(self.name.as_str())
    }
}

/// Names of messages, row by row. A contract sees the rows.
#[derive(Drop)]
pub struct MessageNames {
    rows: Vec<NamedRow>,
}

impl Model for MessageNames {
    ghost use Rattle.std.specs.Prelude.{List, map};
    ghost use Rattle.message_names.specs.NameRow.{NameRow};

    ghost Value = { List NameRow };

    ghost use Rattle.message_names.specs.inner.Rows.{name_row};

    ghost view = { λ names. map name_row names.rows.items };
}

impl MessageNames {
    ghost use Rattle.std.specs.Prelude.{◌≡◌, ◌++◌, ◌∷◌, [], All, IfOk, OnOk, map, option_map, string_bytes};
    ghost use Rattle.rt1553_files.specs.Printable.{PrintsOnOneLine};
    ghost use Rattle.message_names.specs.NamedCells.{names_place, names_cell};
    ghost use Rattle.message_names.specs.Names.{first_row, name_of};
    ghost use Rattle.message_names.specs.inner.Rows.{name_row};

    /// No names.
    pub fn new(alloc: Global) -> MessageNames
        ensures { result ≡ [] }
    {
        MessageNames {
            rows: Vec::new(alloc),
        }
    }

    /// Adds a row, behind the others. One with an empty name tells that its messages have none.
    pub fn add(&mut self, name: String, cells: NamedCells) -> Result<(), AllocError>
        ensures { OnOk result (self.new ≡ self.old ++ record { name = string_bytes name; cells = cells } ∷ []) }
    {
        self.rows.push(NamedRow { name, cells })?;
        Ok(())
    }

    /// The first row that speaks of a cell.
    fn row_of_cell(&self, cell: Cell) -> Option<&NamedRow>
        ensures { option_map (λ row. name_row row.now) result ≡ first_row (names_cell cell) self.now }
    {
        for row in self.rows.as_slice() {
            if row.cells.names_cell(cell) {
                return Some(row);
            }
        }
        None
    }

    /// The first row that speaks of a cell, or of one with another word count.
    fn row_of_place(&self, cell: Cell) -> Option<&NamedRow>
        ensures { option_map (λ row. name_row row.now) result ≡ first_row (names_place cell) self.now }
    {
        for row in self.rows.as_slice() {
            if row.cells.names_place(cell) {
                return Some(row);
            }
        }
        None
    }

    /// The name of the message of a cell: that of the first row that speaks of the cell, or where none does, of the first that
    /// speaks of it with another word count. None where no row does, or that row has no name.
    pub fn name_of(&self, cell: Cell) -> Option<&str>
        ensures { option_map (λ name. name.now) result ≡ name_of self.now cell }
    {
        let row = match self.row_of_cell(cell) {
            Some(row) => Some(row),
            None => self.row_of_place(cell),
        };
        match row {
            Some(row) => row.name(),
            None => None,
        }
    }

    /// The same rows, each with its name, if it has one, as it is printed.
    pub fn printed(&self, alloc: Global) -> Result<MessageNames, AllocError>
        ensures cells { IfOk result (λ printed. map (λ row. row.cells) printed ≡ map (λ row. row.cells) self.now) }
        ensures plain { IfOk result (All (λ row. PrintsOnOneLine row.name)) }
    {
        let mut rows = Vec::new(alloc);
        for row in self.rows.as_slice() {
            let name = match row.name() {
                Some(name) => quoted(alloc, name)?,
                None => String::new(alloc),
            };
            rows.push(NamedRow {
                name,
                cells: row.cells,
            })?;
        }
        Ok(MessageNames { rows })
    }
}
