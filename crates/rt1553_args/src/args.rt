//! The arguments of the command line.
ghost use Rattle.std.specs.Prelude.{◌≡◌, IfErr, IfNone, IfOk, IfSome, Some, codes, [], false, map};
ghost use Rattle.clap.specs.Words.{app_of, fault_of, rule_of, subcommand_of, subcommand_rows_of};
ghost use Rattle.clap.specs.Walk.{rows_of};
ghost use Rattle.clap.specs.Matches.{found_of};
ghost use Rattle.clap.specs.declared.builder.command.Command.TheViews.{out-Command};
ghost use Rattle.rt1553_args.specs.Jobs.{MeansJob, MeansNoJob};
ghost use Rattle.rt1553_args.specs.Program.{file_rule, one_file_app, two_files_app, program};

use clap::error::ErrorKind;
use clap::{Arg, ArgAction, ArgMatches, Command};
use std::alloc::{AllocError, Global};
use std::convert::AsStr;

/// What the command line asks for. The texts are names of files.
#[derive(Clone, Copy)]
pub enum Job<'a> {
    /// No arguments: run the standard profile over the standard input.
    Standard,
    /// Say whether a profile is accepted.
    Check(&'a str),
    /// Write the canonical bytes of a profile.
    Canon(&'a str),
    /// Run a profile over a script.
    Run(&'a str, &'a str),
    /// Compare two profiles.
    Compare(&'a str, &'a str),
}

/// Why the arguments are refused.
#[derive(Clone, Copy)]
pub enum ArgFault {
    /// They are none that the program accepts. Requests for help are such arguments too.
    Usage,
    /// Out of memory.
    Memory,
}

fn file_arg<'a>(alloc: Global, id: &'a str) -> Arg<'a>
    ensures rule { rule_of result ≡ file_rule id.entry.now }
    ensures local { result.global ≡ false }
{
    Arg::new(alloc, id).required(true).action(ArgAction::Set)
}

fn one_file<'a>(alloc: Global, name: &'a str) -> Result<Command<'a>, AllocError>
    ensures app { IfOk result (λ c. app_of c ≡ one_file_app name.entry.now) }
    ensures local { IfOk result (λ c. (out-Command c).has_globals ≡ false) }
{
    Command::new(alloc, name).arg(file_arg(alloc, "first"))
}

fn two_files<'a>(alloc: Global, name: &'a str) -> Result<Command<'a>, AllocError>
    ensures app { IfOk result (λ c. app_of c ≡ two_files_app name.entry.now) }
    ensures local { IfOk result (λ c. (out-Command c).has_globals ≡ false) }
{
    one_file(alloc, name)?.arg(file_arg(alloc, "second"))
}

fn command<'a>(alloc: Global) -> Result<Command<'a>, AllocError>
    ensures { IfOk result (λ c. app_of c ≡ program) }
{
    Command::new(alloc, "rt1553")
        .subcommand(one_file(alloc, "check")?)?
        .subcommand(one_file(alloc, "canon")?)?
        .subcommand(two_files(alloc, "run")?)?
        .subcommand(two_files(alloc, "compare")?)
}

/// The job that a subcommand and its arguments name.
#[tactic(auto, using(crate::proofs::OfArgs::arg_met, crate::proofs::OfArgs::no_first, crate::proofs::OfArgs::no_second))]
fn subcommand_job<'a>(name: &str, args: &ArgMatches<'a>) -> Option<Job<'a>>
    ensures some { IfSome result (λ job. MeansJob job (Some (name.now, rows_of (found_of args.now)))) }
    ensures none { IfNone result (MeansNoJob (Some (name.now, rows_of (found_of args.now)))) }
{
    match name {
        "check" => Some(Job::Check(args.get_str("first")?)),
        "canon" => Some(Job::Canon(args.get_str("first")?)),
        "run" => Some(Job::Run(args.get_str("first")?, args.get_str("second")?)),
        "compare" => Some(Job::Compare(args.get_str("first")?, args.get_str("second")?)),
        _ => None,
    }
}

fn job_of<'a>(matches: &ArgMatches<'a>) -> Option<Job<'a>>
    ensures some { IfSome result (λ job. MeansJob job (subcommand_rows_of matches.now)) }
    ensures none { IfNone result (MeansNoJob (subcommand_rows_of matches.now)) }
{
    match matches.subcommand() {
        None => Some(Job::Standard),
        Some((name, args)) => subcommand_job(name, args),
    }
}

/// Reads the arguments of the command line, of which the first is the program's own name. Accepts just arguments
/// that clap finds no fault with, and names the job that they mean. Refuses arguments with `Usage` only where clap
/// finds a fault with them, and others only when memory runs out. As clap has it, `--` alone counts as no arguments, and
/// `check -- P` as `check P`.
pub fn read_args<'a, S: AsStr>(alloc: Global, args: &'a [S]) -> Result<Job<'a>, ArgFault>
    ensures accepted { IfOk result (λ _. fault_of program (map S.text args.entry.now) ≡ []) }
    ensures job { IfOk result (λ job. MeansJob job (subcommand_of program (map S.text args.entry.now))) }
    ensures refused { IfErr result (λ fault. fault ≡ ArgFault.Usage → fault_of program (map S.text args.entry.now) ≡ [] → ⊥) }
{
    let Ok(command) = command(alloc) else {
        return Err(ArgFault::Memory);
    };
    match command.try_get_matches_from(args) {
        Ok(matches) => job_of(&matches).ok_or(ArgFault::Usage),
        Err(error) => match error.kind() {
            ErrorKind::OutOfMemory => Err(ArgFault::Memory),
            _ => Err(ArgFault::Usage),
        },
    }
}
