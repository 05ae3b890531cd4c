//! The command `toml`: a small profile that means the same terminal.
ghost use Rattle.std.specs.Prelude.{◌≡◌, IfOk};

use rt1553_toml::toml_of;
use std::io::Write;
use std::rt::Files;
use tool_files::{ToolFault, load_profile, write_bytes};

/// Writes a small profile that means the same terminal. The status is 0.
pub fn write_toml<R: Files + AllocGlobal, W: Write>(
    rt: &R,
    profile: &str,
    output: &mut W,
) -> Result<u8, ToolFault>
    ensures { IfOk result (λ status. status ≡ 0) }
{
    let normal = load_profile(rt, profile)?;
    let text = toml_of(rt.alloc(), &normal)?;
    write_bytes(output, text.as_str().as_bytes())?;
    Ok(0)
}
