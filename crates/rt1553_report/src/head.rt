//! What the scripts of a report share, and digests of files as they are written.
ghost use Rattle.std.specs.Prelude.{◌≡◌, IfOk, OnOk, option_map, string_bytes};
ghost use Rattle.hex.specs.Hex.{encode_lower};
ghost use Rattle.rt1553_report.specs.Digests.{has_digest};
ghost use Rattle.rt1553_report.specs.Pieces.{AddsPiece};

use crate::told::push_markup;
use std::alloc::{AllocError, Global};

/// The SHA-256 digests (FIPS 180-4) of what a script was played with; None of a file that was not read.
#[derive(Clone, Copy)]
pub struct FileDigests {
    /// Of the script's file.
    pub script: Option<[u8; 32]>,
    /// Of the profile's file.
    pub profile: Option<[u8; 32]>,
    /// Of the canonical text of the profile.
    pub canonical: Option<[u8; 32]>,
}

impl FileDigests {
    /// Whether there is one.
    pub fn has_any(&self) -> bool
        ensures { result ≡ has_digest self.now }
    {
        self.script.is_some() || self.profile.is_some() || self.canonical.is_some()
    }
}

/// A table with the names of messages.
#[derive(Clone, Copy)]
pub struct NamesTable<'a> {
    /// The name of its file, as it was given.
    pub file: &'a str,
    /// Its SHA-256 digest.
    pub digest: [u8; 32],
}

/// What is the same of all scripts of a report.
#[derive(Clone, Copy)]
pub struct ReportHead<'a> {
    /// The command of `rt1553-tool` that reports.
    pub command: &'a str,
    /// The version of the program.
    pub program: &'a str,
    /// The toolchain by which it is proved and built.
    pub toolchain: &'a str,
    /// The version of the canonical text.
    pub canonical: &'a str,
    /// The table with the names of messages, where there is one.
    pub names: Option<NamesTable<'a>>,
    /// The date and time, where they are given.
    pub date: Option<&'a str>,
}

impl<'a> ReportHead<'a> {
    /// The name of the file with the names of messages.
    pub fn names_file(&self) -> Option<&'a str>
        ensures { result ≡ option_map (λ t. t.file) self.now.names }
    {
        match self.names {
            Some(table) => Some(table.file),
            None => None,
        }
    }

    /// Its digest.
    pub fn names_digest(&self) -> Option<[u8; 32]>
        ensures { result ≡ option_map (λ t. t.digest) self.now.names }
    {
        match self.names {
            Some(table) => Some(table.digest),
            None => None,
        }
    }
}

/// A digest in hexadecimal digits.
pub fn digest_text(alloc: Global, digest: Option<[u8; 32]>) -> Result<Option<String>, AllocError>
    ensures { IfOk result (λ text. option_map string_bytes text ≡ option_map encode_lower digest) }
{
    match digest {
        Some(digest) => Ok(Some(hex::encode(alloc, digest)?)),
        None => Ok(None),
    }
}

/// Writes a digest in hexadecimal digits.
pub fn push_digest(alloc: Global, text: &mut String, digest: [u8; 32]) -> Result<(), AllocError>
    ensures { OnOk result (AddsPiece (string_bytes text.old) (string_bytes text.new) (encode_lower digest)) }
{
    let digits = hex::encode(alloc, digest)?;
    push_markup(text, digits.as_str())
}
