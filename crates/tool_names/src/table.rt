//! Tables of documents that are refused.
ghost use Rattle.std.specs.Prelude.{◌≡◌};
ghost use Rattle.tool_files.specs.Status.{RefusesText};

use crate::table_texts::told_text;
use rt1553_import::{FaultyTable, ImportFault};
use tool_files::{ToolFault, refused_file, shown};

/// The fault of a table that has faults.
fn faults_told<R: AllocGlobal>(rt: &R, name: &str, table: &FaultyTable) -> ToolFault
    ensures { RefusesText result }
{
    let name = match shown(rt, name) {
        Ok(name) => name,
        Err(fault) => return fault,
    };
    match told_text(rt.alloc(), name.as_str(), table) {
        Ok(told) => ToolFault::Refused(told),
        Err(_) => ToolFault::Memory,
    }
}

/// The fault of the table in the file of this name: out of memory, or a refusal, with all faults of the table, a line each.
pub fn table_fault<R: AllocGlobal>(rt: &R, name: &str, fault: ImportFault) -> ToolFault
    ensures memory { fault ≡ ImportFault.Memory → result ≡ ToolFault.Memory }
    ensures refused { RefusesText result }
{
    match fault {
        ImportFault::Memory => ToolFault::Memory,
        ImportFault::Faults(table) => faults_told(rt, name, &table),
        other => refused_file(rt, name, &other),
    }
}
