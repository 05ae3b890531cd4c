//! The command line: the commands as clap takes them, and what is asked for, by type.
ghost use Rattle.std.specs.Prelude.{IfOk, map, string_bytes};
ghost use Rattle.clap.specs.Words.{App, HasMatchesOf};
ghost use Rattle.clap.specs.declared.parser.matches.ArgMatches.{ArgMatches as Matches};
ghost use Rattle.rt1553_tool_args.specs.Commands.{IsAskedBy};

use crate::command::{ToolCommand, tool_command_of};
use crate::commands::COMMANDS;
use crate::table::{Argument, CommandGroup, CommandRow, HEADINGS, Occurrence};
use crate::versions::{VERSION, VERSIONS};
use clap::error::ErrorKind;
use clap::{Arg, ArgAction, Command};
use rt1553_files::escaped;
use std::alloc::{AllocError, AllocFailed, Global};

/// What the program does.
const ABOUT: &str = "Checks, explains, compares and tests profiles of a remote terminal";

/// What is said where no command is asked for.
pub(crate) const NO_COMMAND: &str = "see --help";

/// What follows the commands in the help.
const OPTIONS: &str = "\nOptions:\n\
    \x20 -h, --help     Print help; behind a command what the command takes\n\
    \x20 -V, --version  Print version; --version also the toolchain\n";

/// Why no job is given.
#[derive(Clone, Copy)]
pub enum NoCommand {
    /// The arguments ask for help or for the version, which has been printed.
    Helped,
    /// Clap finds a fault with the arguments, which has been printed.
    Refused,
    /// What clap says of the arguments can't be printed.
    Output,
    /// The arguments name no job, for this cause, a text that follows `arguments: `.
    Usage(&'static str),
    /// Out of memory.
    Memory,
}

impl From<AllocError> for NoCommand {
    ghost use Rattle.std.specs.Prelude.{◌≡◌};
    ghost use Rattle.rt1553_tool_args.specs.declared.args.NoCommand.TheVariants.{Memory};

    ghost from_gives = { λ _ no. no ≡ Memory };

    fn from(_error: AllocError) -> NoCommand {
        NoCommand::Memory
    }
}

impl<T: Drop> From<AllocFailed<T>> for NoCommand {
    ghost use Rattle.std.specs.Prelude.{◌≡◌};
    ghost use Rattle.rt1553_tool_args.specs.declared.args.NoCommand.TheVariants.{Memory};

    ghost from_gives = { λ _ no. no ≡ Memory };

    fn from(_failed: AllocFailed<T>) -> NoCommand {
        NoCommand::Memory
    }
}

/// What clap does with an argument that is given so, and whether it has to be there whatever else is given.
fn action_of(given: Occurrence) -> (ArgAction, bool) {
    match given {
        Occurrence::Once | Occurrence::Needed => (ArgAction::Set, true),
        Occurrence::Often => (ArgAction::Append, true),
        Occurrence::OftenOr(_) | Occurrence::Values => (ArgAction::Append, false),
        Occurrence::Flag => (ArgAction::SetTrue, false),
        _ => (ArgAction::Set, false),
    }
}

/// An argument, as clap takes it.
fn argument<'a>(alloc: Global, row: &Argument) -> Result<Arg<'a>, AllocError> {
    let (action, required) = action_of(row.given);
    let arg = Arg::new(alloc, row.id)
        .help(row.help)
        .value_name(row.value)
        .action(action)
        .required(required);
    match row.given {
        Occurrence::Once => Ok(arg),
        Occurrence::Often => Ok(arg.num_args(1..)),
        Occurrence::OnceOr(other) => arg.required_unless_present(other),
        Occurrence::OftenOr(other) => arg.num_args(1..).required_unless_present(other),
        Occurrence::OnceWith(other) => arg.requires_arg(other)?.required_if_eq(other, "true"),
        Occurrence::OneOf(default, values) => Ok(
            arg.long(row.id).value_parser(values).default_value(default),
        ),
        _ => Ok(arg.long(row.id)),
    }
}

/// A command, as clap takes it.
fn subcommand<'a>(alloc: Global, row: &CommandRow) -> Result<Command<'a>, AllocError> {
    let mut command = Command::new(alloc, row.name)
        .about(row.about)
        .after_help(row.after);
    for argument_row in row.arguments {
        command = command.arg(argument(alloc, argument_row)?)?;
    }
    Ok(command)
}

/// The program without its commands, as clap takes it.
fn bare_program<'a>(alloc: Global) -> Command<'a> {
    Command::new(alloc, "rt1553-tool")
        .version(VERSION)
        .long_version(VERSIONS)
        .about(ABOUT)
        .subcommand_required(true)
}

/// The program with its commands, as clap takes them.
fn program<'a>(alloc: Global) -> Result<Command<'a>, AllocError> {
    let mut program = bare_program(alloc);
    for row in &COMMANDS {
        program = program.subcommand(subcommand(alloc, row)?)?;
    }
    Ok(program)
}

/// Adds a heading, and a line for each command under it.
fn push_commands(text: &mut String, group: CommandGroup, title: &str) -> Result<(), AllocError> {
    write!(text, "\n{title}:\n")?;
    for row in &COMMANDS {
        if row.group == group {
            let (name, about) = (row.name, row.about);
            write!(text, "  {name:<12}  {about}\n")?;
        }
    }
    Ok(())
}

/// The help of the program: its commands under their headings.
fn help_text(alloc: Global) -> Result<String, AllocError> {
    let mut text = String::from_str(alloc, ABOUT)?;
    text.push_str("\n\nUsage: rt1553-tool <COMMAND>\n")?;
    for row in &HEADINGS {
        push_commands(&mut text, row.0, row.1)?;
    }
    text.push_str(OPTIONS)?;
    Ok(text)
}

/// The arguments as they are printed.
fn shown_args(alloc: Global, args: &[String]) -> Result<Vec<String>, AllocError> {
    let mut shown = Vec::new(alloc);
    for arg in args {
        shown.push(escaped(alloc, arg.as_str().as_bytes())?)?;
    }
    Ok(shown)
}

/// Prints what clap says of arguments that it finds a fault with, or that ask for help or for the version. What clap repeats of them is
/// escaped.
fn say<R: AllocGlobal + Print + Eprint>(rt: &R, args: &[String]) -> Result<NoCommand, NoCommand> {
    let (shown, help) = (shown_args(rt.alloc(), args)?, help_text(rt.alloc())?);
    let told = program(rt.alloc())?.override_help(help.as_str());
    let Err(error) = told.try_get_matches_from(shown.as_slice()) else {
        return Ok(NoCommand::Usage(NO_COMMAND));
    };
    if error.kind() == ErrorKind::OutOfMemory {
        return Ok(NoCommand::Memory);
    }
    if error.print(rt).is_err() {
        return Ok(NoCommand::Output);
    }
    Ok(if error.use_stderr() {
        NoCommand::Refused
    } else {
        NoCommand::Helped
    })
}

/// Reads the arguments of the command line, of which the first is the program's own name. Where they ask for help or for the
/// version, or clap finds a fault with them, prints what clap says.
pub fn read_tool_args<'a, R: AllocGlobal + Print + Eprint>(
    rt: &R,
    args: &'a [String],
) -> Result<ToolCommand<'a>, NoCommand>
    ensures { IfOk result (λ command. (app : App) × (m : Matches) × HasMatchesOf app (map (λ arg. string_bytes arg) args.entry.now) m × IsAskedBy m command) }
{
    match program(rt.alloc())?.try_get_matches_from(args) {
        Ok(matches) => tool_command_of(rt.alloc(), &matches),
        Err(error) => match error.kind() {
            ErrorKind::OutOfMemory => Err(NoCommand::Memory),
            _ => Err(say(rt, args)?),
        },
    }
}
