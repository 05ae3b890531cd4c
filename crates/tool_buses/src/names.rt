//! The names of messages by the tables of the terminals of a bus.
ghost use Rattle.std.specs.Prelude.{◌≡◌};
ghost use Rattle.tool_buses.specs.EndsWell.{profile_has};

use bus_reports::PutMessage;
use bus_word::Command;
use message_names::MessageNames;
use rt1553::Normal;
use std::alloc::AllocError;
use std::rt::Files;
use tool_files::{ToolFault, shown};
use tool_names::{TerminalNames, load_terminal_names, name_of_command};

/// The table of a terminal of a bus.
#[derive(Drop)]
pub struct BusTable<'a> {
    /// The name of its file, as it was given.
    pub file: &'a str,
    pub names: TerminalNames,
}

/// The tables of terminals of a bus, of different addresses.
#[derive(Drop)]
pub struct BusNames<'a> {
    pub tables: Vec<BusTable<'a>>,
}

/// The terminal of this address.
pub fn normal_at(normals: &[Normal], address: u8) -> Option<&Normal> {
    normals.iter().find(|normal| normal.address() == address)
}

/// Whether a profile has this address.
pub fn has_profile(normals: &[Normal], address: u8) -> bool
    ensures { result ≡ profile_has normals.now address }
{
    normals.iter().any(|normal| normal.address() == address)
}

impl<'a> BusNames<'a> {
    /// The table of the terminal of this address.
    fn table_of(&self, address: u8) -> Option<&BusTable<'a>> {
        self.tables
            .iter()
            .find(|table| table.names.address == address)
    }

    /// The name of the message of a command in the table of this terminal.
    fn name_at(&self, address: u8, command: u16) -> Option<&str> {
        name_of_command(&self.table_of(address)?.names.loaded.names, command)
    }

    /// The name of the message of a command: in the table of its terminal, or of the first one that has one for a broadcast.
    fn name_to(&self, command: u16) -> Option<&str> {
        let address = Command::of(command).address();
        if address < 31 {
            return self.name_at(address, command);
        }
        for address in 0..31u8 {
            if let Some(name) = self.name_at(address, command) {
                return Some(name);
            }
        }
        None
    }

    /// The name of a message: that of its receiver, or else that of its transmitter.
    pub fn name_of(&self, put: PutMessage) -> Option<&str> {
        match (self.name_to(put.command), put.transmitter) {
            (None, Some(transmitter)) => self.name_to(transmitter),
            (name, _) => name,
        }
    }
}

/// Why a table is not one more of those of a bus; None where it is.
fn table_trouble<R: AllocGlobal>(
    rt: &R,
    names: &BusNames<'_>,
    file: &str,
    address: u8,
    normals: &[Normal],
) -> Result<Option<String>, ToolFault> {
    let file = shown(rt, file)?;
    if let Some(other) = names.table_of(address) {
        let other = shown(rt, other.file)?;
        return Ok(Some(format!(in rt.alloc();
            "{other} and {file}: tables for the same address, {address:02}"
        )?));
    }
    if !has_profile(normals, address) {
        return Ok(Some(format!(in rt.alloc();
            "{file}: a table for address {address:02}, which no profile has"
        )?));
    }
    Ok(None)
}

/// The tables in files of these names, of terminals of these profiles.
pub fn load_tables<'a, R: Files + AllocGlobal>(
    rt: &R,
    files: &[&'a str],
    normals: &[Normal],
) -> Result<BusNames<'a>, ToolFault> {
    let mut names = BusNames {
        tables: Vec::new(rt.alloc()),
    };
    for file in files {
        let table = load_terminal_names(rt, file)?;
        if let Some(told) = table_trouble(rt, &names, file, table.address, normals)? {
            return Err(ToolFault::Refused(told));
        }
        names.tables.push(BusTable { file, names: table })?;
    }
    Ok(names)
}
