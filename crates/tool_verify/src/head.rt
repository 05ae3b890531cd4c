//! What the rows of a report share: versions, the table of names, the date, and digests of a profile.
ghost use Rattle.std.specs.Prelude.{◌≡◌, IfOk};
ghost use Rattle.tool_verify.specs.Digests.{HasDigestsOf, HasTableOf};

use rt1553_report::{FileDigests, NamesTable, ReportHead};
use rt1553_tool_args::{CANONICAL_VERSION, PROGRAM_VERSION, TOOLCHAIN};
use std::alloc::{AllocError, Global};
use std::rt::Files;
use tool_files::{LoadedProfile, ToolFault, canonical_digest};
use tool_names::{LoadedNames, load_names_file};

/// The names of messages of a table, where one is given.
pub fn loaded_names<R: Files + AllocGlobal + Eprint>(
    rt: &R,
    table: Option<&str>,
    addresses: &[u8],
) -> Result<Option<LoadedNames>, ToolFault> {
    match table {
        Some(name) => Ok(Some(load_names_file(rt, name, addresses)?)),
        None => Ok(None),
    }
}

/// The digests of a profile.
pub fn profile_digests(alloc: Global, profile: &LoadedProfile) -> Result<FileDigests, AllocError>
    ensures { IfOk result (HasDigestsOf profile.now) }
{
    Ok(FileDigests {
        script: None,
        profile: Some(profile.digest),
        canonical: Some(canonical_digest(alloc, &profile.normal)?),
    })
}

/// What the report of a command has in common, with the table of names that was loaded from a file of this name.
pub fn head_of<'a>(
    command: &'a str,
    names: Option<&'a str>,
    loaded: &Option<LoadedNames>,
    date: Option<&'a str>,
) -> ReportHead<'a>
    ensures command { result.command ≡ command.entry }
    ensures date { result.date ≡ date.entry }
    ensures names { HasTableOf names.entry loaded.now result.names }
{
    ReportHead {
        command,
        program: PROGRAM_VERSION,
        toolchain: TOOLCHAIN,
        canonical: CANONICAL_VERSION,
        names: match (names, loaded) {
            (Some(file), Some(loaded)) => Some(NamesTable {
                file,
                digest: loaded.digest,
            }),
            _ => None,
        },
        date,
    }
}
