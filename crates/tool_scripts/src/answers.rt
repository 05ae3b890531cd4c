//! The command `answers`: a script with the answers of a terminal stated.
ghost use Rattle.std.specs.Prelude.{◌≡◌, IfOk, List, ℕ};
ghost use Rattle.bus_legal.specs.Parts.{description_in};
ghost use Rattle.rt1553_acceptance.specs.Answered.{StatesAnswers};

use bus_legal::Normal;
use bus_script::RunFault;
use rt1553_acceptance::{Answered, state_answers};
use rt1553_tool_args::AskedAnswers;
use std::io::Write;
use std::rt::Files;
use tool_files::{
    ToolFault, load_profile, load_script, refused_file, shown, stated_fault, write_bytes,
};

/// How many answers a script states.
fn count_stated(script: &[u8]) -> u64 {
    let mut count = 0u64;
    for line in script.split(|byte| *byte == b'\n') {
        if line.starts_with(b"#> ") || line.starts_with(b"#~ ") {
            count = count.saturating_add(1);
        }
    }
    count
}

/// Warns, on the standard error, of the answers that the script in the file of this name states and that are replaced.
fn warn_of_replaced<R: AllocGlobal + Eprint>(
    rt: &R,
    name: &str,
    script: &[u8],
) -> Result<(), ToolFault> {
    let count = count_stated(script);
    if count > 0 {
        let name = shown(rt, name)?;
        let _ = eprintln!(rt; "{name}: warning: stated answers that are replaced: {count}");
    }
    Ok(())
}

/// The script of a file with the answers of a terminal stated. A warning tells how many others it stated.
fn answered_script<R: Files + AllocGlobal + Eprint>(
    rt: &R,
    normal: &Normal,
    asked: AskedAnswers<'_>,
) -> Result<Vec<u8>, ToolFault>
    ensures { IfOk result (λ text. (script : List ℕ) × StatesAnswers (description_in normal.now) script text.items) }
{
    let expand_for = asked.expand.then_some(normal.address());
    let script = load_script(rt, asked.script, expand_for)?;
    match state_answers(rt.alloc(), normal, script.text.as_slice()) {
        Ok(Answered::Script(text)) => {
            warn_of_replaced(rt, asked.script, script.text.as_slice())?;
            Ok(text)
        }
        Ok(Answered::TooLong) => Err(refused_file(rt, asked.script, &RunFault::TooLong)),
        Err(fault) => Err(stated_fault(rt, asked.script, &script, fault)),
    }
}

/// Writes the script of a file with the answers of the terminal of a profile stated. The status is 0.
pub fn state_in_file<R: Files + AllocGlobal + Eprint, W: Write>(
    rt: &R,
    asked: AskedAnswers<'_>,
    output: &mut W,
) -> Result<u8, ToolFault>
    ensures { IfOk result (λ status. status ≡ 0) }
{
    let normal = load_profile(rt, asked.profile)?;
    let script = answered_script(rt, &normal, asked)?;
    write_bytes(output, script.as_slice())?;
    Ok(0)
}
