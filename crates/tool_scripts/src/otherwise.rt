//! What is told on the standard error of a script that states other words than its run has, as the recording of a unit does.
use bus_legal::Normal;
use rt1553_verify::{StatedFault, answers_in, read_stated, stated_on_bus, wrong_answers};
use std::alloc::{AllocError, Global};
use tool_files::{LoadedScript, ToolFault, shown};

/// The line of the first event of a script that states another word than the terminal sends. None where none does, where the script states
/// no answer, and where it is refused.
fn line_otherwise(
    alloc: Global,
    normal: &Normal,
    script: &[u8],
) -> Result<Option<u64>, AllocError> {
    let stated = match read_stated(alloc, script) {
        Ok(stated) => stated,
        Err(StatedFault::Memory) => return Err(AllocError),
        Err(_) => return Ok(None),
    };
    if answers_in(stated.as_slice()) == 0 {
        return Ok(None);
    }
    let stated = stated_on_bus(alloc, stated)?;
    let wrong = wrong_answers(alloc, normal, stated.as_slice())?;
    Ok(match wrong.as_slice() {
        [first, ..] => Some(first.line),
        [] => None,
    })
}

/// Tells where the script of the file of this name first states another word than the terminal sends, if it does.
pub fn warn_otherwise<R: AllocGlobal + Eprint>(
    rt: &R,
    normal: &Normal,
    name: &str,
    script: &LoadedScript,
) -> Result<(), ToolFault> {
    if let Some(line) = line_otherwise(rt.alloc(), normal, script.text.as_slice())? {
        let (name, line) = (shown(rt, name)?, script.line_in_file(line));
        let _ = eprintln!(rt;
            "{name}:{line}: warning: the terminal sends another word than is stated; of a recording, play the script of verify --any-subsystem --witness"
        );
    }
    Ok(())
}
