//! What is told on the standard error of recordings.
use tool_files::{ToolFault, shown};

/// Tells that what a recording in the file of this name states as handed over is left out, where it states that.
pub fn warn_of_hand_overs<R: AllocGlobal + Eprint>(
    rt: &R,
    name: &str,
    script: &[u8],
) -> Result<(), ToolFault> {
    let states_one = script.split(|byte| *byte == b'\n').any(|line| line.starts_with(b"#> hand ")
        || line.starts_with(b"#~ hand "));
    if states_one {
        let name = shown(rt, name)?;
        let _ = eprintln!(rt;
            "{name}: warning: what is handed over is left out: a bus does not show it"
        );
    }
    Ok(())
}
