//! The program `rt1553-tool`: what people ask of a profile, over files and the standard streams.
#![tactic(auto)]

mod output;
mod work;

use std::env;
use std::io::IsTerminal;
use std::process::ExitCode;
use tool_files::Screen;

/// Whether the environment asks for no colours: NO_COLOR is there and not empty.
fn forbids_colours(rt: &HostRuntime) -> bool {
    match env::var(rt, "NO_COLOR") {
        Ok(value) => !value.is_empty(),
        Err(error) => error != env::VarError::NotPresent,
    }
}

fn main(rt: HostRuntime) -> ExitCode {
    let is_seen = rt.stdout().is_terminal();
    let screen = Screen {
        has_progress: rt.stderr().is_terminal() && !is_seen,
        has_colours: is_seen && !forbids_colours(&rt),
    };
    match work::run_tool(&rt, screen, rt.stdin(), rt.stdout()) {
        Ok(status) => ExitCode::from(status),
        Err(fault) => {
            // there is nowhere to tell that this could not be written
            let _ = eprintln!(rt; "{fault}");
            ExitCode::from(fault.status())
        }
    }
}
