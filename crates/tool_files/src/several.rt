//! The status of several files.
ghost use Rattle.std.specs.Prelude.{◌≡◌, ◌≤◌, max, IfOk, IfErr};
ghost use Rattle.tool_files.specs.Status.{tool_status};

use crate::fault::ToolFault;

/// The higher of two statuses.
pub fn worst(a: u8, b: u8) -> u8
    ensures { result ≡ max a b }
{
    if a < b { b } else { a }
}

/// The status of a file that was done, or why it wasn't: this is told, and the other files are done all the same. Where the output
/// can't be written, nothing more is.
pub fn status_or_stop<R: Eprint>(rt: &R, done: Result<u8, ToolFault>) -> Result<u8, ToolFault>
    ensures done { IfOk result (λ status. IfOk done (λ of_file. status ≡ of_file)) }
    ensures fault { IfOk result (λ status. IfErr done (λ fault. status ≡ tool_status fault)) }
    ensures least { IfErr done (λ _. IfOk result (λ status. 2 ≤ status)) }
    ensures most { IfOk done (λ of_file. of_file ≤ 4) → IfOk result (λ status. status ≤ 4) }
    ensures stops { IfErr done (λ fault. fault ≡ ToolFault.Output → IfOk result (λ _. ⊥)) }
    ensures output { IfErr result (λ fault. fault ≡ ToolFault.Output) }
{
    match done {
        Ok(status) => Ok(status),
        Err(ToolFault::Output) => Err(ToolFault::Output),
        Err(fault) => {
            let _ = eprintln!(rt; "{fault}");
            Ok(fault.status())
        }
    }
}
