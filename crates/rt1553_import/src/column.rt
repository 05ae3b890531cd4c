//! The columns of a table that count.
ghost use Rattle.std.specs.Prelude.{◌≡◌, option_map, codes};
ghost use Rattle.rt1553_import.specs.Columns.{column_name, all_columns};

use std::fmt;

/// A column that counts, by what stands in it. Its header is what `name` gives.
#[derive(Clone, Copy, Debug)]
pub enum TableColumn {
    Kind,
    Value,
    Subaddress,
    Words,
    Code,
    To,
    Initial,
    Legal,
    Name,
}

/// All the columns.
pub const TABLE_COLUMNS: [TableColumn; 9] = [
    TableColumn::Kind,
    TableColumn::Value,
    TableColumn::Subaddress,
    TableColumn::Words,
    TableColumn::Code,
    TableColumn::To,
    TableColumn::Initial,
    TableColumn::Legal,
    TableColumn::Name,
];

impl TableColumn {
    /// The column's header.
    pub fn name(self) -> &'static str
        ensures { result.now ≡ column_name self }
    {
        match self {
            TableColumn::Kind => "kind",
            TableColumn::Value => "value",
            TableColumn::Subaddress => "subaddress",
            TableColumn::Words => "words",
            TableColumn::Code => "code",
            TableColumn::To => "to",
            TableColumn::Initial => "initial",
            TableColumn::Legal => "legal",
            TableColumn::Name => "name",
        }
    }
}

impl fmt::Display for TableColumn {
    fn fmt<W: fmt::Write>(&self, f: &mut fmt::Formatter<W>) -> fmt::Result {
        f.write_str(self.name())
    }
}
