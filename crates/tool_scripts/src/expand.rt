//! The command `expand`: messages as the lines of a script.
ghost use Rattle.std.specs.Prelude.{IfOk, List, ℕ};
ghost use Rattle.tool_scripts.specs.Ends.{EndsExpansion};

use bus_script::RunFault;
use rt1553_expand::{Expanded, ScriptFor, UnexpandedLine, expand};
use std::io::Write;
use std::rt::Files;
use tool_files::{
    REFUSED, ToolFault, load_profile, read_script_file, refused_file, shown, write_bytes,
};

/// Writes the lines of the file of this name that are refused on the standard error.
fn tell_refused<R: Eprint>(rt: &R, name: &str, refused: &[UnexpandedLine]) {
    for line in refused {
        let (number, column) = (line.line, line.column);
        let _ = eprintln!(rt; "{name}:{number}:{column}: error: {}", line.fault);
    }
}

/// Writes the script that a file of events and messages stands for, for the terminal of a profile if one is given, or on the standard
/// error each line that is refused. Gives the status to end with.
pub fn expand_file<R: Files + AllocGlobal + Eprint, W: Write>(
    rt: &R,
    name: &str,
    profile: Option<&str>,
    output: &mut W,
) -> Result<u8, ToolFault>
    ensures { IfOk result (λ status. (own : ScriptFor) × (text : List ℕ) × EndsExpansion own text status) }
{
    let own = match profile {
        Some(profile) => Some(load_profile(rt, profile)?.address()),
        None => None,
    };
    let text = read_script_file(rt, name)?;
    let shown_name = shown(rt, name)?;
    match expand(rt.alloc(), text.as_slice(), &ScriptFor::Terminal(own))? {
        Expanded::Script(script) => {
            write_bytes(output, script.as_slice())?;
            Ok(0)
        }
        Expanded::Refused(lines) => {
            tell_refused(rt, shown_name.as_str(), lines.as_slice());
            Ok(REFUSED)
        }
        Expanded::TooLong => Err(refused_file(rt, name, &RunFault::TooLong)),
    }
}
