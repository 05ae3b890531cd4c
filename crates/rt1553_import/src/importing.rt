//! A profile from a table.
ghost use Rattle.std.specs.Prelude.{◌≡◌, IfOk, IfErr, Some, string_bytes};
ghost use Rattle.bus_legal.specs.Plain.{plain};
ghost use Rattle.toml.specs.Parse.{parse_document};
ghost use Rattle.toml.specs.View.{table_view};
ghost use Rattle.bus_profile.specs.Gives.{profile_of};
ghost use Rattle.bus_profile.specs.Read.{Accepts};
ghost use Rattle.rt1553_import.specs.Tree.{table_tree};
ghost use Rattle.rt1553_import.specs.Import.{SaysTable, IsFaultless, IsImported, IsTableRefused, IsImportRefused};

use crate::fault::{FaultyTable, ImportFault};
use crate::reading::read_sheet;
use crate::same::is_same_profile;
use crate::sheet::Sheet;
use bus_legal::Profile;
use bus_profile::{ProfileFault, read_profile};
use rt1553_files::PROFILE_BYTES;
use std::alloc::{AllocError, Global};
use toml::Table;
use toml::ser::Error;

/// What a table becomes.
#[derive(Drop)]
pub struct Imported {
    /// The text of a profile.
    pub profile: String,
    /// The table.
    pub sheet: Sheet,
}

/// A table's tree as a text.
fn text_of(alloc: Global, sheet: &Sheet, root: &Table) -> Result<String, AllocError>
    requires { table_view root.now ≡ table_tree sheet.now }
    ensures { IfOk result (λ text. parse_document (string_bytes text) ≡ Some (table_tree sheet.now)) }
{
    match toml::table_to_string(alloc, root) {
        Ok(text) => Ok(text),
        Err(Error::OutOfMemory) => Err(AllocError),
        Err(Error::DateInvalid) => unreachable!(),
    }
}

/// The profile of a text. Of a text without fault the only error is out of memory.
fn profile_in(alloc: Global, text: &str) -> Result<Profile, AllocError>
    ensures { IfOk result (Accepts text.now) }
{
    match read_profile(alloc, text.as_bytes()) {
        Ok(profile) => Ok(profile),
        Err(_) => Err(AllocError),
    }
}

/// The text of the profile that a table says, of which this is a text: in the order of the table, with the names of its rows as comments, if
/// that is read as the same profile.
fn ordered_text(alloc: Global, sheet: &Sheet, text: String) -> Result<String, AllocError>
    requires { parse_document (string_bytes text) ≡ Some (table_tree sheet.now) }
    ensures { IfOk result (λ ordered. SaysTable sheet.now (string_bytes ordered)) }
{
    let profile = profile_in(alloc, text.as_str())?;
    let ordered = sheet.profile_text(alloc)?;
    match read_profile(alloc, ordered.as_str().as_bytes()) {
        Ok(back) if is_same_profile(&back, &profile) => Ok(ordered),
        Err(ProfileFault::Memory) => Err(AllocError),
        _ => Ok(text),
    }
}

/// Reads a table without faults, with its tree. One with faults gives all of them, each with its place.
pub fn faultless_sheet(alloc: Global, text: &[u8]) -> Result<(Sheet, Table), ImportFault>
    ensures sheet { IfOk result (λ read. IsFaultless text.now read.0) }
    ensures tree { IfOk result (λ read. table_view read.1 ≡ table_tree read.0) }
    ensures refused { IfErr result (IsTableRefused text.now) }
{
    let sheet = match read_sheet(alloc, text) {
        Ok(sheet) => sheet,
        Err(fault) => return Err(fault),
    };
    let root = sheet.table_of(alloc)?;
    let faults = sheet.reported_faults(alloc, &root)?;
    if !faults.as_slice().is_empty() {
        return Err(ImportFault::Faults(FaultyTable { sheet, faults }));
    }
    Ok((sheet, root))
}

/// Gives the profile of the table of an interface control document: CSV with a header, in UTF-8, with commas, semicolons
/// or tabs between fields. Each row is a setting, a message of data, or mode codes. Columns that are not known are left out.
///
/// A table with faults gives no profile: all its faults are told, each with its place. Neither does one whose names make the
/// profile larger than a profile may be.
pub fn import_table(alloc: Global, text: &[u8]) -> Result<Imported, ImportFault>
    ensures imported { IfOk result (λ imported. IsImported text.now (string_bytes imported.profile)) }
    ensures refused { IfErr result (IsImportRefused text.now) }
{
    let (sheet, root) = faultless_sheet(alloc, text)?;
    let plain = text_of(alloc, &sheet, &root)?;
    let profile = ordered_text(alloc, &sheet, plain)?;
    if profile.len() > PROFILE_BYTES {
        return Err(ImportFault::LongNames(sheet.longest_name()));
    }
    Ok(Imported { profile, sheet })
}
