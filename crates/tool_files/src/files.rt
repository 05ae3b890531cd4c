//! What all commands need of files and of the output.
ghost use Rattle.std.specs.Prelude.{◌≡◌, ◌≤◌, IfErr, IfOk, length};
ghost use Rattle.tool_files.specs.Status.{IsLoaded};
ghost use Rattle.tool_files.specs.Loaded.{IsLoadedFile};

use crate::digest::digest_of;
use crate::fault::ToolFault;
use crate::profile_fault::{NamedBytes, refused_profile};
use crate::unread::unread_file;
use bus_legal::Normal;
use rt1553::load;
use rt1553_files::{PROFILE_BYTES, SCRIPT_BYTES, escaped, open_file, read_file};
use std::io::Write;
use std::rt::Files;

/// The bytes of a table of results: a row of it takes 27 times its bytes of memory.
const RESULTS_BYTES: usize = 4_194_304;

/// A name as it is printed. The only error is out of memory.
pub fn shown<R: AllocGlobal>(rt: &R, name: &str) -> Result<String, ToolFault>
    ensures { IfErr result (λ fault. fault ≡ ToolFault.Memory) }
{
    Ok(escaped(rt.alloc(), name.as_bytes())?)
}

/// The bytes of a file, of at most so many.
fn read_named<R: Files + AllocGlobal>(rt: &R, name: &str, most: usize) -> Result<Vec<u8>, ToolFault>
    requires { most ≤ 68157440 }
    ensures { IfOk result (λ bytes. length bytes.items ≤ most) }
{
    if name.is_empty() {
        return Err(ToolFault::NoName);
    }
    read_file(rt, name, most).map_err(|fault| unread_file(rt, name, most, fault))
}

/// The file of this name, opened to be read.
pub fn open_named<R: Files + AllocGlobal>(rt: &R, name: &str) -> Result<R::File, ToolFault> {
    if name.is_empty() {
        return Err(ToolFault::NoName);
    }
    open_file(rt, name).map_err(|fault| unread_file(rt, name, SCRIPT_BYTES, fault))
}

/// The bytes of a profile file or a table, of at most 1,048,576 bytes.
pub fn read_tool_profile<R: Files + AllocGlobal>(rt: &R, name: &str) -> Result<Vec<u8>, ToolFault>
    ensures { IfOk result (λ bytes. length bytes.items ≤ 1048576) }
{
    read_named(rt, name, PROFILE_BYTES)
}

/// A profile of a file.
#[derive(Clone, Copy)]
pub struct LoadedProfile {
    /// What can be reached of its terminal.
    pub normal: Normal,
    /// The SHA-256 digest of the file.
    pub digest: [u8; 32],
}

/// The profile in the file of this name.
pub fn load_profile_file<R: Files + AllocGlobal>(
    rt: &R,
    name: &str,
) -> Result<LoadedProfile, ToolFault>
    ensures { IfOk result IsLoadedFile }
{
    let bytes = read_tool_profile(rt, name)?;
    match load(rt.alloc(), bytes.as_slice()) {
        Ok(normal) => Ok(LoadedProfile {
            normal,
            digest: digest_of(bytes.as_slice()),
        }),
        Err(fault) => {
            let text = NamedBytes {
                name,
                bytes: bytes.as_slice(),
            };
            Err(refused_profile(rt, text, fault))
        }
    }
}

/// What can be reached of the terminal of a profile file.
pub fn load_profile<R: Files + AllocGlobal>(rt: &R, name: &str) -> Result<Normal, ToolFault>
    ensures { IfOk result (λ normal. IsLoaded normal) }
{
    Ok(load_profile_file(rt, name)?.normal)
}

/// The bytes of a script, at most 68,157,440: no more than any script that is played can have.
pub fn read_script_file<R: Files + AllocGlobal>(rt: &R, name: &str) -> Result<Vec<u8>, ToolFault>
    ensures { IfOk result (λ bytes. length bytes.items ≤ 68157440) }
{
    read_named(rt, name, SCRIPT_BYTES)
}

/// The bytes of the results of a unit, at most 4,194,304: some 1,000 for each exchange.
pub fn read_results_file<R: Files + AllocGlobal>(rt: &R, name: &str) -> Result<Vec<u8>, ToolFault>
    ensures { IfOk result (λ bytes. length bytes.items ≤ 4194304) }
{
    read_named(rt, name, RESULTS_BYTES)
}

/// Writes all the bytes. The only error is `Output`.
pub fn write_bytes<W: Write>(output: &mut W, bytes: &[u8]) -> Result<(), ToolFault> {
    output.write_all(bytes).map_err(|_| ToolFault::Output)
}
