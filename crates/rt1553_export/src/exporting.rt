//! A table for what can be reached of a terminal.
ghost use Rattle.std.specs.Prelude.{◌≡◌, ℕ, List, true, IfOk, string_bytes};
ghost use Rattle.bus_canon.specs.Canon.{Text};
ghost use Rattle.rt1553.specs.Canon.{IsCanon};
ghost use Rattle.rt1553_import.specs.Import.{IsImported};
ghost use Rattle.rt1553_export.specs.Table.{IsTableOf, ImportsAs};

use crate::full::full_text;
use crate::small::write_table;
use bus_legal::Normal;
use rt1553::{LoadFault, load};
use rt1553_import::{ImportFault, import_table};
use std::alloc::{AllocError, Global};

/// Whether the profile that is imported from a table is of this terminal.
fn reads_back(alloc: Global, table: &str, normal: &Normal) -> Result<bool, AllocError>
    ensures { IfOk result (λ back. back ≡ true → IsTableOf table.now normal.now) }
{
    let imported = match import_table(alloc, table.as_bytes()) {
        Ok(imported) => imported,
        Err(ImportFault::Memory) => return Err(AllocError),
        Err(_) => return Ok(false),
    };
    match load(alloc, imported.profile.as_str().as_bytes()) {
        Ok(back) => Ok(back.is_same(normal)),
        Err(LoadFault::Memory) => Err(AllocError),
        Err(_) => Ok(false),
    }
}

/// The full table of this terminal, which leaves nothing out: it has each setting, a row for each subaddress, direction and
/// addressee, and all the words held. It needs no reading again.
pub fn full_table_of(alloc: Global, normal: &Normal) -> Result<String, AllocError>
    ensures { IfOk result (λ text. IsTableOf (string_bytes text) normal.now) }
{
    // its clause says that there is nothing in it that can't be reached
    normal.setup();
    match String::from_utf8(full_text(alloc, normal)?) {
        Ok(text) => Ok(text),
        Err(_) => unreachable!(),
    }
}

/// A table of this terminal, as spreadsheets read it: CSV with a header. The profile that is imported from it means this
/// terminal.
///
/// It is a small table, which is read again before it is given out. Should it not be a table of this terminal, the full one is
/// given; tests show that this doesn't come.
pub fn export_table(alloc: Global, normal: &Normal) -> Result<String, AllocError>
    ensures table { IfOk result (λ text. IsTableOf (string_bytes text) normal.now) }
    ensures imported { IfOk result (λ text. ImportsAs (string_bytes text) normal.now) }
    ensures canonical { IfOk result (λ text. (profile bytes : List ℕ) → IsImported (string_bytes text) profile → Text normal.now bytes → IsCanon profile bytes) }
{
    if let Ok(text) = String::from_utf8(write_table(alloc, normal)?) {
        if reads_back(alloc, text.as_str(), normal)? {
            return Ok(text);
        }
    }
    full_table_of(alloc, normal)
}
