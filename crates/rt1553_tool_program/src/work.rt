//! What the program does.
ghost use Rattle.std.specs.Prelude.{◌≡◌, ◌≤◌, ◌⊎◌, IfOk};
ghost use Rattle.rt1553_tool_program.specs.Status.{CanEnd, unless_closed};

use crate::output::WatchedOutput;
use rt1553_tool_args::{NoCommand, ToolCommand, read_tool_args};
use std::env;
use std::io::{ErrorKind, Read, Write};
use std::rt::{Env, Files};
use tool_buses::play_bus;
use tool_files::{Screen, ToolFault, USAGE};
use tool_profiles::{
    check_import, differ_profiles, explain_profile, export_file, import_file, lint_files,
    write_toml,
};
use tool_scripts::{
    bus_words, check_profile, check_scripts, compare_profiles, draw_run, expand_file,
    gather_script, list_messages, play_live, record_table, run_file, state_in_file,
    write_canonical,
};
use tool_verify::{
    against, cover_scripts, explain_recording, infer_profile, verify_scripts, write_test,
};

/// The status of a program that the signal SIGPIPE ends, as a shell gives it: the reader of the output is gone.
const CLOSED: u8 = 141;

/// Does what is asked for, and gives the status to end with.
fn do_command<R: Files + AllocGlobal + Eprint, I: Read + Drop, W: Write>(
    rt: &R,
    command: &ToolCommand<'_>,
    screen: Screen,
    input: I,
    output: &mut W,
) -> Result<u8, ToolFault>
    ensures ends { IfOk result (CanEnd command.now) }
    ensures most { IfOk result (λ status. status ≤ 4) }
{
    match command {
        ToolCommand::Lint { files, format } => lint_files(rt, files.as_slice(), *format, output),
        ToolCommand::CheckScript(files) => check_scripts(rt, files.as_slice(), output),
        ToolCommand::Verify(asked, scripts) => {
            verify_scripts(rt, *asked, scripts.as_slice(), screen, output)
        }
        ToolCommand::Witness(asked) => explain_recording(rt, *asked, screen, output),
        ToolCommand::Monitor(asked) => record_table(rt, *asked, output),
        ToolCommand::Coverage(asked, scripts) => {
            cover_scripts(rt, *asked, scripts.as_slice(), output)
        }
        ToolCommand::Infer(asked) => infer_profile(rt, *asked, output),
        ToolCommand::Import(table) => import_file(rt, table, output),
        ToolCommand::CheckImport { table, profile } => {
            check_import(rt, table, profile, screen, output)
        }
        ToolCommand::Export(profile) => export_file(rt, profile, output),
        ToolCommand::Expand { messages, profile } => expand_file(rt, messages, *profile, output),
        ToolCommand::Toml(profile) => write_toml(rt, profile, output),
        ToolCommand::Explain {
            profile,
            as_json,
            names,
        } => explain_profile(rt, profile, *names, *as_json, screen, output),
        ToolCommand::Differ(asked) => differ_profiles(rt, *asked, screen, output),
        ToolCommand::Acceptance {
            profile,
            format,
            names,
        } => write_test(rt, profile, *names, *format, screen.has_progress, output),
        ToolCommand::Against(asked) => against(rt, *asked, output),
        ToolCommand::Messages(asked) => list_messages(rt, *asked, output),
        ToolCommand::Gather(asked) => gather_script(rt, *asked, output),
        ToolCommand::Draw(asked) => draw_run(rt, *asked, output),
        ToolCommand::Words => bus_words(rt, input, output),
        ToolCommand::Live(profile) => play_live(rt, profile, input, output),
        ToolCommand::Answers(asked) => state_in_file(rt, *asked, output),
        ToolCommand::Check(profile) => check_profile(rt, profile, output),
        ToolCommand::Canon(profile) => write_canonical(rt, profile, output),
        ToolCommand::Run { profile, script } => run_file(rt, profile, script, output),
        ToolCommand::Bus(asked, profiles, tables) => {
            play_bus(rt, *asked, profiles.as_slice(), tables.as_slice(), output)
        }
        ToolCommand::Compare { profile, other } => compare_profiles(rt, profile, other, output),
    }
}

/// What a command gave, but for the failure of an output whose reader is gone: that has a status of its own, and nothing is told of it.
fn unless_closed(is_closed: bool, done: Result<u8, ToolFault>) -> Result<u8, ToolFault>
    ensures status { result ≡ unless_closed is_closed done }
    ensures most { IfOk done (λ status. status ≤ 4) → IfOk result (λ status. (status ≤ 4) ⊎ (status ≡ 141)) }
{
    match done {
        Err(ToolFault::Output) if is_closed => Ok(CLOSED),
        done => done,
    }
}

/// Does what the command line asks for, and gives the status to end with. Nothing is told where the reader of the output is gone.
pub fn run_tool<R: Env + Files + AllocGlobal + Print + Eprint, I: Read + Drop, O: Write + Drop>(
    rt: &R,
    screen: Screen,
    input: I,
    output: O,
) -> Result<u8, ToolFault>
    ensures { IfOk result (λ status. (status ≤ 4) ⊎ (status ≡ 141)) }
{
    let args = match env::args(rt) {
        Ok(args) => args,
        Err(error) => match error.kind() {
            ErrorKind::OutOfMemory => return Err(ToolFault::Memory),
            _ => return Err(ToolFault::NotText),
        },
    };
    let args: Vec<String> = args.collect(rt.alloc())?;
    match read_tool_args(rt, args.as_slice()) {
        Ok(command) => {
            let mut output = WatchedOutput {
                output,
                is_closed: false,
            };
            let done = do_command(rt, &command, screen, input, &mut output);
            unless_closed(output.is_closed, done)
        }
        Err(NoCommand::Helped) => Ok(0),
        Err(NoCommand::Refused) => Ok(USAGE),
        Err(NoCommand::Output) => Err(ToolFault::Output),
        Err(NoCommand::Usage(cause)) => Err(ToolFault::Usage(cause)),
        Err(NoCommand::Memory) => Err(ToolFault::Memory),
    }
}
