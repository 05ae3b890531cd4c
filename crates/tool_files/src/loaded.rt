//! Scripts of files: as they stand there, or expanded.
ghost use Rattle.std.specs.Prelude.{◌≡◌, ◌⊎◌, IfOk, List, ℕ, Option, option_map, Some};
ghost use Rattle.sha2.specs.Sha256.{sha256};
ghost use Rattle.refused_lines.specs.Sources.{line_in_file};
ghost use Rattle.tool_files.specs.Loaded.{IsExpandedScript, IsScriptOf, TellsMessage};

use crate::digest::digest_of;
use crate::fault::ToolFault;
use crate::files::{read_script_file, shown};
use crate::refused::refused_file;
use bus_script::RunFault;
use refused_lines::line_in_file;
use rt1553_expand::{Expanded, ScriptFor, UnexpandedLine, expand, source_lines};
use std::rt::Files;

/// A script of a file.
#[derive(Drop)]
pub struct LoadedScript {
    pub text: Vec<u8>,
    /// For each line of the script the line of the file that it stands for; None where the file is the script.
    pub sources: Option<Vec<u64>>,
    /// The SHA-256 digest of the file; None where the file is the script.
    pub digest: Option<[u8; 32]>,
}

impl LoadedScript {
    /// The line of the file that a line of the script stands for.
    pub fn line_in_file(&self, line: u64) -> u64
        ensures { result ≡ line_in_file (option_map (λ lines. lines.items) self.now.sources) line }
    {
        line_in_file(self.sources(), line)
    }

    /// For each line of the script the line of the file that it stands for; None where the file is the script.
    pub fn sources(&self) -> Option<&[u64]>
        ensures { option_map (λ s. s.now) result ≡ option_map (λ lines. lines.items) self.now.sources }
    {
        self.sources.as_ref().map(|sources| sources.as_slice())
    }

    /// The SHA-256 digest of the file.
    pub fn file_digest(&self) -> [u8; 32]
        ensures { (expand_for : Option ℕ) (text : List ℕ) → IsScriptOf expand_for text self.now → result ≡ sha256 text }
    {
        match self.digest {
            Some(digest) => digest,
            None => digest_of(self.text.as_slice()),
        }
    }
}

/// The fault of the first line of events and messages that is refused.
fn message_fault<R: AllocGlobal>(rt: &R, name: &str, refused: &[UnexpandedLine]) -> ToolFault
    ensures { (result ≡ ToolFault.Memory) ⊎ TellsMessage refused.now result }
{
    let Some(line) = refused.first() else {
        return ToolFault::Memory;
    };
    match shown(rt, name) {
        Ok(name) => ToolFault::Message(name, *line),
        Err(fault) => fault,
    }
}

/// The script of the messages in the file of this name, for these terminals.
pub fn load_messages<R: Files + AllocGlobal>(
    rt: &R,
    name: &str,
    own: &ScriptFor,
) -> Result<LoadedScript, ToolFault>
    ensures { IfOk result (λ script. (text : List ℕ) × IsExpandedScript own.now text script) }
{
    let text = read_script_file(rt, name)?;
    match expand(rt.alloc(), text.as_slice(), own)? {
        Expanded::Script(script) => Ok(LoadedScript {
            text: script,
            sources: Some(source_lines(rt.alloc(), text.as_slice(), own)?),
            digest: Some(digest_of(text.as_slice())),
        }),
        Expanded::Refused(lines) => Err(message_fault(rt, name, lines.as_slice())),
        Expanded::TooLong => Err(refused_file(rt, name, &RunFault::TooLong)),
    }
}

/// The script in the file of this name, or, where it has messages for the terminal of an address, 0 to 30, the script of these.
pub fn load_script<R: Files + AllocGlobal>(
    rt: &R,
    name: &str,
    expand_for: Option<u8>,
) -> Result<LoadedScript, ToolFault>
    ensures { IfOk result (λ script. (text : List ℕ) × IsScriptOf expand_for text script) }
{
    if let Some(own) = expand_for {
        return load_messages(rt, name, &ScriptFor::Terminal(Some(own)));
    }
    Ok(LoadedScript {
        text: read_script_file(rt, name)?,
        sources: None,
        digest: None,
    })
}
