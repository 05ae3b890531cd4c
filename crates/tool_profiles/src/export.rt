//! The command `export`: the table of a profile.
ghost use Rattle.std.specs.Prelude.{◌≡◌, IfOk};

use rt1553_export::export_table;
use std::io::Write;
use std::rt::Files;
use tool_files::{ToolFault, load_profile, write_bytes};

/// Writes the table of the terminal of a profile. The status is 0.
pub fn export_file<R: Files + AllocGlobal, W: Write>(
    rt: &R,
    profile: &str,
    output: &mut W,
) -> Result<u8, ToolFault>
    ensures { IfOk result (λ status. status ≡ 0) }
{
    let normal = load_profile(rt, profile)?;
    let table = export_table(rt.alloc(), &normal)?;
    write_bytes(output, table.as_str().as_bytes())?;
    Ok(0)
}
