//! The names of a table.
ghost use Rattle.std.specs.Prelude.{◌≡◌, IfOk, IfErr};
ghost use Rattle.rt1553_import.specs.Import.{IsTableRefused};
ghost use Rattle.tool_names.specs.Names.{names_of_sheet, AreNamesOf};

use crate::rows::add_row;
use message_names::MessageNames;
use rt1553_import::{ImportFault, Sheet, faultless_sheet};
use std::alloc::{AllocError, Global};

/// The names of a table.
pub fn names_of_sheet(alloc: Global, sheet: &Sheet) -> Result<MessageNames, AllocError>
    ensures { IfOk result (λ names. names ≡ names_of_sheet sheet.now) }
{
    let mut names = MessageNames::new(alloc);
    for row in sheet.rows.as_slice() {
        add_row(alloc, &mut names, sheet, row)?;
    }
    Ok(names)
}

/// Gives the names of the messages of a table, the one that `import_table` of `rt1553_import` reads: the name of each row of data or
/// mode codes that has one, with the cells of its addressee, subaddresses and word counts, or mode codes. Whether the row says that they
/// are legal makes no difference.
///
/// A table with faults gives no names: all its faults are told, each with its place.
pub fn names_in(alloc: Global, text: &[u8]) -> Result<MessageNames, ImportFault>
    ensures named { IfOk result (AreNamesOf text.now) }
    ensures refused { IfErr result (IsTableRefused text.now) }
{
    let (sheet, _) = faultless_sheet(alloc, text)?;
    let names = names_of_sheet(alloc, &sheet)?;
    Ok(names)
}
