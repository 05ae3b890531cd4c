//! The program `rt1553`: what its arguments ask for, over files and the standard streams.
#![tactic(auto)]

mod fault;
mod work;

use std::process::ExitCode;

fn main(rt: HostRuntime) -> ExitCode {
    match work::work(&rt, rt.stdin(), rt.stdout()) {
        Ok(status) => ExitCode::from(status),
        Err(fault) => {
            // there is nowhere to tell that this could not be written
            let _ = eprint!(rt; "{fault}");
            ExitCode::from(fault.status())
        }
    }
}
