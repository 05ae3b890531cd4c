//! The command `messages` where it writes what `expand` reads.
ghost use Rattle.std.specs.Prelude.{◌≡◌, IfOk, List, ℕ, Some};
ghost use Rattle.script_lines.specs.Text.{lines_of};
ghost use Rattle.bus_script.specs.Reading.{reading};
ghost use Rattle.rt1553_expand.specs.declared.script_for.ScriptFor.TheVariants.{Terminal};
ghost use Rattle.rt1553_expand.specs.Gathered.{GathersScript, GivesBack};

use bus_script::RunFault;
use rt1553_expand::{ScriptFor, gather};
use rt1553_tool_args::AskedAnswers;
use std::io::Write;
use std::rt::Files;
use tool_files::{ToolFault, first_refused, load_profile, load_script, refused_file, write_bytes};

/// The events of the script in a file as messages for the terminal of this address.
fn gathered_script<R: Files + AllocGlobal>(
    rt: &R,
    own: u8,
    asked: AskedAnswers<'_>,
) -> Result<Vec<u8>, ToolFault>
    ensures { IfOk result (λ text. (script : List ℕ) × GathersScript (Terminal (Some own)) (reading 0 (lines_of script)) (Some text.items)
        × GivesBack (Terminal (Some own)) (reading 0 (lines_of script)) (Some text.items)) }
{
    let script = load_script(rt, asked.script, asked.expand.then_some(own))?;
    let own = ScriptFor::Terminal(Some(own));
    match gather(rt.alloc(), script.text.as_slice(), &own)? {
        Some(text) => Ok(text),
        None => {
            let other = refused_file(rt, asked.script, &RunFault::TooLong);
            Err(first_refused(rt, asked.script, script.text.as_slice(), other))
        }
    }
}

/// Writes the events of a script as messages that `expand` reads, for the terminal of a profile. The status is 0.
pub fn gather_script<R: Files + AllocGlobal, W: Write>(
    rt: &R,
    asked: AskedAnswers<'_>,
    output: &mut W,
) -> Result<u8, ToolFault>
    ensures { IfOk result (λ status. status ≡ 0) }
{
    let own = load_profile(rt, asked.profile)?.address();
    let text = gathered_script(rt, own, asked)?;
    write_bytes(output, text.as_slice())?;
    Ok(0)
}
