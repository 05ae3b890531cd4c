//! The command `import`: a profile from the table of an interface control document.
ghost use Rattle.std.specs.Prelude.{◌≡◌, ◌≤◌, ◌↔◌, IfOk, List, ℕ, option_map, string_bytes};
ghost use Rattle.bus_legal.specs.Parts.{Parts};
ghost use Rattle.rt1553.specs.Load.{Reaches};
ghost use Rattle.tool_files.specs.Status.{IsLoaded};
ghost use Rattle.tool_profiles.specs.Found.{IsReadTable, EndsImport, EndsCheck};

use crate::differ::put_pair;
use bus_legal::Normal;
use rt1553::load;
use rt1553_differ::Pair;
use rt1553_import::{ImportFault, import_table};
use std::io::Write;
use std::rt::Files;
use tool_files::{
    NamedBytes, REFUSED, Screen, ToolFault, load_profile, read_tool_profile, refused_profile,
    shown, write_bytes,
};
use tool_names::{names_in, table_fault, table_warnings, told_text};

/// The text of the profile that a table means, from the file of this name. What of the table is worth a look is written on the standard
/// error, or, of a table with faults, for which there is no profile, all that is wrong with it.
fn profile_text<R: AllocGlobal + Eprint>(
    rt: &R,
    name: &str,
    table: &[u8],
) -> Result<Option<String>, ToolFault>
    ensures { IfOk result (λ found. IsReadTable table.now (option_map string_bytes found)) }
{
    let shown_name = shown(rt, name)?;
    match import_table(rt.alloc(), table) {
        Ok(imported) => {
            for warning in table_warnings(rt.alloc(), &imported.sheet)?.as_slice() {
                let _ = eprintln!(rt; "{}:{}", shown_name.as_str(), warning);
            }
            Ok(Some(imported.profile))
        }
        Err(ImportFault::Faults(faulty)) => {
            let text = told_text(rt.alloc(), shown_name.as_str(), &faulty)?;
            let _ = eprintln!(rt; "{}", text.as_str());
            Ok(None)
        }
        Err(fault) => Err(table_fault(rt, name, fault)),
    }
}

/// Writes the profile that a table means. Gives the status to end with.
pub fn import_file<R: Files + AllocGlobal + Eprint, W: Write>(
    rt: &R,
    name: &str,
    output: &mut W,
) -> Result<u8, ToolFault>
    ensures { IfOk result (λ status. (table : List ℕ) × EndsImport table status) }
{
    let table = read_tool_profile(rt, name)?;
    match profile_text(rt, name, table.as_slice())? {
        Some(profile) => {
            write_bytes(output, profile.as_str().as_bytes())?;
            Ok(0)
        }
        None => Ok(REFUSED),
    }
}

/// The terminal of a profile that was made of the table in the file of this name.
fn load_imported<R: AllocGlobal>(rt: &R, name: &str, profile: &str) -> Result<Normal, ToolFault>
    ensures { IfOk result (Reaches profile.now) }
{
    match load(rt.alloc(), profile.as_bytes()) {
        Ok(normal) => Ok(normal),
        Err(fault) => {
            let bytes = profile.as_bytes();
            Err(refused_profile(rt, NamedBytes { name, bytes }, fault))
        }
    }
}

/// The texts that are compared: a table with the profile that was made of it, and the name of a profile.
#[derive(Clone, Copy)]
struct ComparedTable<'a> {
    /// The name of the table's file.
    name: &'a str,
    table: &'a [u8],
    /// The text of the profile that was made of it.
    imported: &'a str,
    /// The name of the other profile's file.
    profile: &'a str,
}

/// Writes all in which the terminal of a profile differs from that of a table, with the names of the table. The status tells whether they do.
fn put_compared<R: AllocGlobal + Eprint, W: Write>(
    rt: &R,
    texts: ComparedTable<'_>,
    q: &Normal,
    screen: Screen,
    output: &mut W,
) -> Result<u8, ToolFault>
    ensures { IfOk result (λ status. (p : Parts) × Reaches texts.entry.imported.now p × (status ≤ 1) × ((status ≡ 0) ↔ (p ≡ q.now))) }
{
    let p = load_imported(rt, texts.name, texts.imported)?;
    let found = match names_in(rt.alloc(), texts.table) {
        Ok(found) => found,
        Err(fault) => return Err(table_fault(rt, texts.name, fault)),
    };
    let names = Some(&found);
    let (first, second) = (shown(rt, texts.name)?, shown(rt, texts.profile)?);
    let pair = Pair {
        p: &p,
        q,
        first: first.as_str(),
        second: second.as_str(),
        names,
    };
    put_pair(rt, &pair, false, false, screen, output)
}

/// Writes all in which the terminal of a profile differs from that of a table, with the names of the table. Gives the status to end with.
pub fn check_import<R: Files + AllocGlobal + Eprint, W: Write>(
    rt: &R,
    name: &str,
    profile: &str,
    screen: Screen,
    output: &mut W,
) -> Result<u8, ToolFault>
    ensures { IfOk result (λ status. (table : List ℕ) × (q : Parts) × IsLoaded q × EndsCheck table q status) }
{
    let table = read_tool_profile(rt, name)?;
    let q = load_profile(rt, profile)?;
    match profile_text(rt, name, table.as_slice())? {
        Some(text) => {
            let texts = ComparedTable {
                name,
                table: table.as_slice(),
                imported: text.as_str(),
                profile,
            };
            put_compared(rt, texts, &q, screen, output)
        }
        None => Ok(REFUSED),
    }
}
