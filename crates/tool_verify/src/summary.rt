//! Which scripts pass, clause by clause, as text.
use rt1553_files::escaped;
use rt1553_report::{Scope, ScriptCount, TriedScript, clause_rows};
use std::alloc::Global;
use std::format;
use std::io::Write;
use tool_files::{Ink, ToolFault, put_in, write_bytes};

/// Writes how many scripts pass: green where all do, and else red.
fn put_count<W: Write>(
    alloc: Global,
    output: &mut W,
    has_colours: bool,
    count: ScriptCount,
) -> Result<(), ToolFault> {
    write_bytes(output, b": ")?;
    let ink = if count.passed == count.scripts {
        Ink::Green
    } else {
        Ink::Red
    };
    let text = format!(in alloc; "{count}")?;
    put_in(output, has_colours, ink, text.as_str().as_bytes())?;
    write_bytes(output, b"\n")
}

/// Writes of which scripts a line is.
fn put_scope<W: Write>(alloc: Global, output: &mut W, scope: Scope<'_>) -> Result<(), ToolFault> {
    match scope {
        Scope::Clause(clause) => {
            write_bytes(output, b"clause ")?;
            write_bytes(output, escaped(alloc, clause)?.as_str().as_bytes())
        }
        Scope::NoClause => write_bytes(output, b"no clause"),
        Scope::All => write_bytes(output, b"all"),
    }
}

/// Writes a line for each clause, one for the scripts that name none, and one for all scripts.
pub fn put_summary<W: Write>(
    alloc: Global,
    tried: &[TriedScript],
    has_colours: bool,
    output: &mut W,
) -> Result<(), ToolFault> {
    let rows = clause_rows(alloc, tried)?;
    for row in rows.as_slice() {
        put_scope(alloc, output, row.scope)?;
        put_count(alloc, output, has_colours, row.count)?;
    }
    Ok(())
}
