//! What `bus` is asked for.
ghost use Rattle.std.specs.Prelude.{◌≡◌, IfOk, codes, true};
ghost use Rattle.clap.specs.Words.{first_value, found_of};
ghost use Rattle.rt1553_tool_args.specs.Commands.{Asks, AsksCheck, AsksOutput, HasAlone, HasNoCheck, IsTimeOf, check_format_of, command_name, is_given};

use crate::args::NoCommand;
use crate::command::{
    AskedBus, AskedCheck, BusOutput, CheckFormat, ToolCommand, all_of, date_of, is_flag_given,
    report_format, required,
};
use crate::messages::number_of;
use clap::ArgMatches;
use std::alloc::Global;

/// The most of the response time in MIL-STD-1553B, 4.3.3.8, in microseconds.
const RESPONSE_TIME: u16 = 12;

/// The least of the gap between messages in MIL-STD-1553B, 4.3.3.7, in microseconds.
const GAP_TIME: u16 = 4;

/// The address of the terminal that is to be told of alone, 0 to 30.
fn alone_of(given: &ArgMatches<'_>) -> Result<Option<u8>, NoCommand>
    ensures { IfOk result (HasAlone (found_of given.now)) }
{
    match given.get_str("alone") {
        Some(text) => Ok(Some(number_of(text, 30, "--alone is 0 to 30")?)),
        None => Ok(None),
    }
}

/// How it is to be written which messages don't end well.
fn check_format(given: &ArgMatches<'_>) -> CheckFormat
    ensures { result ≡ check_format_of (first_value (found_of given.now) (codes "format")) }
{
    match given.get_str("format") {
        Some("json") => CheckFormat::Json,
        Some("junit") => CheckFormat::Junit,
        _ => CheckFormat::Text,
    }
}

/// The time of an option in microseconds, 0 to 1000, or the usual one where it is left out; refused for this cause.
fn time_of(
    given: &ArgMatches<'_>,
    id: &str,
    usual: u16,
    cause: &'static str,
) -> Result<u16, NoCommand>
    ensures { IfOk result (IsTimeOf usual (first_value (found_of given.now) id.now)) }
{
    let Some(text) = given.get_str(id) else {
        return Ok(usual);
    };
    match text.parse::<u16>() {
        Ok(number) if number <= 1000 && !text.starts_with('+') => Ok(number),
        _ => Err(NoCommand::Usage(cause)),
    }
}

/// How messages are to be checked.
fn asked_check<'a>(given: &ArgMatches<'a>) -> Result<AskedCheck<'a>, NoCommand>
    ensures { IfOk result (AsksCheck (found_of given.now)) }
{
    Ok(AskedCheck {
        format: check_format(given),
        response: time_of(
            given,
            "response",
            RESPONSE_TIME,
            "--response is 0 to 1000, in whole microseconds",
        )?,
        gap: time_of(
            given,
            "gap",
            GAP_TIME,
            "--gap is 0 to 1000, in whole microseconds",
        )?,
        date: date_of(given, report_format(given))?,
    })
}

/// What is to be printed of a check.
fn check_output<'a>(given: &ArgMatches<'a>) -> Result<BusOutput<'a>, NoCommand>
    requires { is_given (found_of given.now) (codes "check") ≡ true }
    ensures { IfOk result (AsksOutput (found_of given.now)) }
{
    match (alone_of(given)?, is_flag_given(given, "messages")) {
        (None, false) => Ok(BusOutput::Check(asked_check(given)?)),
        (Some(_), false) => Err(NoCommand::Usage("--alone and --check exclude each other")),
        (None, true) => Err(NoCommand::Usage("--messages and --check exclude each other")),
        (Some(_), true) => Err(NoCommand::Usage(
            "--alone, --messages and --check exclude each other",
        )),
    }
}

/// Whether no option is given that is for a check alone.
fn has_no_check(given: &ArgMatches<'_>) -> bool
    ensures { result ≡ true → HasNoCheck (found_of given.now) }
{
    let is_report = matches!(given.get_str("format"), Some("json") | Some("junit"));
    !is_report
        && given.get_str("names").is_none()
        && given.get_str("date").is_none()
        && given.get_str("response").is_none()
        && given.get_str("gap").is_none()
}

/// What `bus` is to print.
fn bus_output<'a>(given: &ArgMatches<'a>) -> Result<BusOutput<'a>, NoCommand>
    ensures { IfOk result (AsksOutput (found_of given.now)) }
{
    if is_flag_given(given, "check") {
        return check_output(given);
    }
    if !has_no_check(given) {
        return Err(NoCommand::Usage(
            "--format json and junit, --names, --date, --response and --gap are for --check",
        ));
    }
    match (alone_of(given)?, is_flag_given(given, "messages")) {
        (None, false) => Ok(BusOutput::Transcript),
        (Some(address), false) => Ok(BusOutput::CameTo(address)),
        (None, true) => Ok(BusOutput::Messages),
        (Some(_), true) => Err(NoCommand::Usage("--alone and --messages exclude each other")),
    }
}

/// What `bus` is asked for.
pub(crate) fn bus_command<'a>(
    alloc: Global,
    given: &ArgMatches<'a>,
) -> Result<ToolCommand<'a>, NoCommand>
    ensures { IfOk result (λ command. (command_name command ≡ codes "bus") × Asks (found_of given.now) command) }
{
    let asked = AskedBus {
        script: required(given, "script")?,
        expand: is_flag_given(given, "expand"),
        output: bus_output(given)?,
    };
    let profiles = all_of(alloc, given, "profile")?;
    let tables = all_of(alloc, given, "names")?;
    Ok(ToolCommand::Bus(asked, profiles, tables))
}
