//! What `messages` is asked for.
ghost use Rattle.std.specs.Prelude.{◌≡◌, IfOk, codes};
ghost use Rattle.clap.specs.Words.{first_value, found_of};
ghost use Rattle.rt1553_tool_args.specs.Commands.{Asks, HasBusAddress, HasSubaddress, IsNumberUpTo, command_name, messages_format_of};

use crate::args::NoCommand;
use crate::command::{
    AskedAnswers, AskedMessages, MessagesFormat, ToolCommand, is_flag_given, names_of, required,
};
use clap::ArgMatches;

/// A number up to this one, of decimal digits alone; refused for this cause.
pub(crate) fn number_of(text: &str, most: u8, cause: &'static str) -> Result<u8, NoCommand>
    ensures { IfOk result (λ n. IsNumberUpTo most text.now n) }
{
    match text.parse::<u8>() {
        Ok(number) if number <= most && !text.starts_with('+') => Ok(number),
        _ => Err(NoCommand::Usage(cause)),
    }
}

/// The address of the messages that are asked for, 0 to 30, or `all`, which is 31.
fn bus_address_of(given: &ArgMatches<'_>) -> Result<Option<u8>, NoCommand>
    ensures { IfOk result (HasBusAddress (found_of given.now)) }
{
    match given.get_str("rt") {
        Some("all") => Ok(Some(31)),
        Some(text) => Ok(Some(number_of(text, 30, "--rt is 0 to 30, or all")?)),
        None => Ok(None),
    }
}

/// The subaddress of the messages that are asked for, 0 to 31.
fn subaddress_of(given: &ArgMatches<'_>) -> Result<Option<u8>, NoCommand>
    ensures { IfOk result (HasSubaddress (found_of given.now)) }
{
    match given.get_str("subaddress") {
        Some(text) => Ok(Some(number_of(text, 31, "--subaddress is 0 to 31")?)),
        None => Ok(None),
    }
}

/// How the messages of a run are to be written.
fn messages_format(given: &ArgMatches<'_>) -> MessagesFormat
    ensures { result ≡ messages_format_of (first_value (found_of given.now) (codes "format")) }
{
    match given.get_str("format") {
        Some("csv") => MessagesFormat::Csv,
        Some("json") => MessagesFormat::Json,
        _ => MessagesFormat::Text,
    }
}

/// What `messages` is asked for where messages are written as `expand` reads them: all of them, without names.
fn gather_command<'a>(given: &ArgMatches<'a>) -> Result<ToolCommand<'a>, NoCommand>
    ensures { IfOk result (λ command. (command_name command ≡ codes "messages") × Asks (found_of given.now) command) }
{
    let profile = required(given, "profile")?;
    let script = required(given, "script")?;
    let format = given.get_str("format");
    let chosen = (given.get_str("rt"), given.get_str("subaddress"));
    match (format, chosen, names_of(given)) {
        (Some("messages"), (None, None), None) if !is_flag_given(given, "errors") => {
            Ok(ToolCommand::Gather(AskedAnswers {
                profile,
                script,
                expand: is_flag_given(given, "expand"),
            }))
        }
        _ => Err(NoCommand::Usage(
            "--format messages excludes --rt, --subaddress, --errors and --names",
        )),
    }
}

/// What `messages` is asked for.
pub(crate) fn messages_command<'a>(given: &ArgMatches<'a>) -> Result<ToolCommand<'a>, NoCommand>
    ensures { IfOk result (λ command. (command_name command ≡ codes "messages") × Asks (found_of given.now) command) }
{
    if given.get_str("format") == Some("messages") {
        return gather_command(given);
    }
    Ok(ToolCommand::Messages(AskedMessages {
        profile: required(given, "profile")?,
        script: required(given, "script")?,
        expand: is_flag_given(given, "expand"),
        address: bus_address_of(given)?,
        subaddress: subaddress_of(given)?,
        errors: is_flag_given(given, "errors"),
        format: messages_format(given),
        names: names_of(given),
    }))
}
