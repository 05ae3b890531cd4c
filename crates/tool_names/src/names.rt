//! The names of messages that a command is given.
ghost use Rattle.std.specs.Prelude.{◌≡◌, IfOk, option_map};
ghost use Rattle.tool_names.specs.Named.{AreLoadedNames, AreNamesOfFile, AreNamesOfTable, AreNamesOfTerminal, IsTableFor, command_cell, name_of_command};

use crate::reading::names_of_sheet;
use crate::table::table_fault;
use crate::warnings::names_warning;
use bus_word::{Cell, Command, cell_of};
use message_names::MessageNames;
use rt1553::{LoadFault, Normal, load};
use rt1553_import::{Sheet, faultless_sheet, import_table};
use std::rt::Files;
use tool_files::{ToolFault, digest_of, read_tool_profile, refused_file, shown};

/// The terminal of a table in a file of this name.
fn terminal_of<R: AllocGlobal>(rt: &R, name: &str, table: &[u8]) -> Result<Normal, ToolFault>
    ensures { IfOk result (IsTableFor table.now) }
{
    let imported = match import_table(rt.alloc(), table) {
        Ok(imported) => imported,
        Err(fault) => return Err(table_fault(rt, name, fault)),
    };
    match load(rt.alloc(), imported.profile.as_str().as_bytes()) {
        Ok(normal) => Ok(normal),
        Err(LoadFault::Memory) => Err(ToolFault::Memory),
        Err(fault) => Err(refused_file(rt, name, &fault)),
    }
}

/// Warns, on the standard error, of a table in a file of this name that has no column for names, or that is for none of these addresses, if
/// there are some.
fn warn_of_table<R: AllocGlobal + Eprint>(
    rt: &R,
    name: &str,
    sheet: &Sheet,
    table: &[u8],
    addresses: &[u8],
) -> Result<(), ToolFault> {
    let shown_name = shown(rt, name)?;
    if let Some(warning) = names_warning(rt.alloc(), sheet)? {
        let _ = eprintln!(rt; "{}:{warning}", shown_name.as_str());
    }
    let address = match terminal_of(rt, name, table) {
        Ok(normal) => normal.address(),
        Err(ToolFault::Memory) => return Err(ToolFault::Memory),
        Err(_) => return Ok(()),
    };
    if !addresses.is_empty() && !addresses.contains(&address) {
        let _ = eprintln!(rt;
            "{}: warning: a table for address {address}, and a profile for another",
            shown_name.as_str()
        );
    }
    Ok(())
}

/// A table of names.
#[derive(Drop)]
pub struct LoadedNames {
    pub names: MessageNames,
    /// The SHA-256 digest of the file.
    pub digest: [u8; 32],
}

/// A table of names, and the terminal for which it is.
#[derive(Drop)]
pub struct TerminalNames {
    /// The address of the terminal, 0 to 30.
    pub address: u8,
    pub loaded: LoadedNames,
}

/// A table in the file of this name, and the names of its messages.
fn sheet_with_names<R: AllocGlobal>(
    rt: &R,
    name: &str,
    table: &[u8],
) -> Result<(Sheet, LoadedNames), ToolFault>
    ensures { IfOk result (λ it. AreNamesOfTable table.now it.1) }
{
    let (sheet, _) = match faultless_sheet(rt.alloc(), table) {
        Ok(read) => read,
        Err(fault) => return Err(table_fault(rt, name, fault)),
    };
    let names = names_of_sheet(rt.alloc(), &sheet)?;
    let digest = digest_of(table);
    Ok((sheet, LoadedNames { names, digest }))
}

/// The names of messages of the table in the file of this name, and the address of its terminal.
pub fn load_terminal_names<R: Files + AllocGlobal>(
    rt: &R,
    name: &str,
) -> Result<TerminalNames, ToolFault>
    ensures { IfOk result AreNamesOfTerminal }
{
    let bytes = read_tool_profile(rt, name)?;
    let (_, loaded) = sheet_with_names(rt, name, bytes.as_slice())?;
    let normal = terminal_of(rt, name, bytes.as_slice())?;
    Ok(TerminalNames {
        address: normal.address(),
        loaded,
    })
}

/// The names of messages of the table in the file of this name. One without a column for them, or for none of these addresses of profiles,
/// is warned of.
pub fn load_names_file<R: Files + AllocGlobal + Eprint>(
    rt: &R,
    name: &str,
    addresses: &[u8],
) -> Result<LoadedNames, ToolFault>
    ensures { IfOk result AreNamesOfFile }
{
    let bytes = read_tool_profile(rt, name)?;
    let (sheet, loaded) = sheet_with_names(rt, name, bytes.as_slice())?;
    warn_of_table(rt, name, &sheet, bytes.as_slice(), addresses)?;
    Ok(loaded)
}

/// The same, where a table is given.
pub fn load_names<R: Files + AllocGlobal + Eprint>(
    rt: &R,
    table: Option<&str>,
    addresses: &[u8],
) -> Result<Option<MessageNames>, ToolFault>
    ensures { IfOk result (AreLoadedNames table.entry) }
{
    let Some(name) = table else {
        return Ok(None);
    };
    Ok(Some(load_names_file(rt, name, addresses)?.names))
}

/// The cell of a command, also of a mode code that no terminal may have: one that the standard reserves, with the other T/R, or not by
/// broadcast. None for a broadcast transmit command to a subaddress of data.
fn command_cell(command: Command) -> Option<Cell>
    ensures { result ≡ command_cell command }
{
    if !command.is_mode() {
        return cell_of(command);
    }
    let code = command.code();
    if command.is_broadcast() {
        Some(Cell::BroadMode(code))
    } else {
        Some(Cell::OwnMode(code))
    }
}

/// The name of the message of a command word, where it has one: that of its cell, of a mode code whether or not it can be legal.
pub fn name_of_command(names: &MessageNames, word: u16) -> Option<&str>
    ensures { option_map (λ name. name.now) result ≡ name_of_command names.now word }
{
    match command_cell(Command::of(word)) {
        Some(cell) => names.name_of(cell),
        None => None,
    }
}
