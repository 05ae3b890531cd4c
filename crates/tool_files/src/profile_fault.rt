//! Profiles that are refused: what `lint` finds wrong with them.
ghost use Rattle.std.specs.Prelude.{◌≡◌, ◌≢◌, ◌⊎◌};
ghost use Rattle.tool_files.specs.Status.{RefusesText};

use crate::fault::ToolFault;
use crate::files::shown;
use crate::refused::refused_file;
use refused_lines::{LineReason, misfit_of};
use rt1553::LoadFault;
use rt1553_lint::{Finding, lint};
use std::alloc::AllocError;

/// A file with its bytes.
#[derive(Clone, Copy)]
pub struct NamedBytes<'a> {
    pub name: &'a str,
    pub bytes: &'a [u8],
}

/// Adds the errors among what was found in the file of this name, each in a line, the last without a line feed.
fn push_errors(text: &mut String, name: &str, findings: &[Finding]) -> Result<(), AllocError> {
    for finding in findings {
        if finding.fault.is_some() {
            if !text.is_empty() {
                text.push('\n')?;
            }
            write!(text, "{name}:{finding}")?;
        }
    }
    Ok(())
}

/// Whether the first line that is neither empty nor a comment is one of a script or of messages.
fn begins_like_script(text: &[u8]) -> bool {
    for line in text.split(|byte| *byte == b'\n') {
        if !line.is_empty() && line[0] != b'#' {
            return match misfit_of(line) {
                Some(misfit) => misfit.reason == LineReason::Message,
                None => true,
            };
        }
    }
    false
}

/// The errors that are found in a text, as they are printed, and a hint behind them where the text seems to be no profile.
fn errors_of<R: AllocGlobal>(rt: &R, text: NamedBytes<'_>) -> Result<String, ToolFault> {
    let findings = lint(rt.alloc(), text.bytes)?;
    let name = shown(rt, text.name)?;
    let mut told = String::new(rt.alloc());
    push_errors(&mut told, name.as_str(), findings.as_slice())?;
    if !told.is_empty() && begins_like_script(text.bytes) {
        write!(
            told,
            "\n{name}: hint: it begins like a script, and a profile is expected here"
        )?;
    }
    Ok(told)
}

/// The fault of a text that isn't loaded: all that is wrong with it, as `lint` prints it, with a hint where it begins like a script.
/// Out of memory, where memory ran out or runs out for that.
pub fn refused_profile<R: AllocGlobal>(rt: &R, text: NamedBytes<'_>, fault: LoadFault) -> ToolFault
    ensures refused { RefusesText result }
    ensures memory { (result ≡ ToolFault.Memory) ⊎ (fault ≢ LoadFault.Memory) }
{
    match fault {
        LoadFault::Memory => ToolFault::Memory,
        LoadFault::Profile(_) | LoadFault::Canon(_) => {
            let Ok(told) = errors_of(rt, text) else {
                return ToolFault::Memory;
            };
            if told.is_empty() {
                return refused_file(rt, text.name, &fault);
            }
            ToolFault::Refused(told)
        }
    }
}
