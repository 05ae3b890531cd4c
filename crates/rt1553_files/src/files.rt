//! Files that are read.
ghost use Rattle.std.specs.Prelude.{◌≡◌, ◌≤◌, ◌<◌, length, Some, Ok, IfOk, IfErr, IsErrAnd, IfSome, MatchOption};
ghost use Rattle.std.specs.IoError.{error_kind};
ghost use Rattle.rt1553_files.specs.Causes.{ComesOf, IsUnread, IsTooLarge, IsRefusal};

use crate::fault::FileFault;
use crate::printable::escaped;
use std::alloc::{AllocError, Global};
use std::fs;
use std::io::{self, ErrorKind, Read};
use std::rt::Files;

/// How many bytes a profile file may have.
pub const PROFILE_BYTES: usize = 1_048_576;

/// How many bytes a script may have: 1,048,576 lines of 64 bytes and their line feeds.
pub const SCRIPT_BYTES: usize = 68_157_440;

/// Gives the fault of a file of this name, for the error by which it can't be opened or read.
fn file_fault<R: AllocGlobal>(rt: &R, error: &io::Error, name: &str) -> FileFault
    ensures { ComesOf (error_kind error.now ≡ ErrorKind.OutOfMemory) result }
{
    match error.kind() {
        ErrorKind::OutOfMemory => FileFault::Memory,
        _ => match escaped(rt.alloc(), name.as_bytes()) {
            Ok(name) => FileFault::CannotRead(name),
            Err(AllocError) => FileFault::Memory,
        },
    }
}

/// Gives what was opened by this name, or the fault of the file.
fn opened<R: AllocGlobal, F: Drop>(rt: &R, found: io::Result<F>, name: &str) -> Result<F, FileFault>
    ensures ok { IfOk result (λ file. found ≡ Ok file) }
    ensures refused { IfErr result (λ fault. IsErrAnd found (λ error. ComesOf (error_kind error ≡ ErrorKind.OutOfMemory) fault)) }
{
    match found {
        Ok(file) => Ok(file),
        Err(error) => Err(file_fault(rt, &error, name)),
    }
}

/// The file of this name, opened to be read.
pub fn open_file<R: Files + AllocGlobal>(rt: &R, name: &str) -> Result<R::File, FileFault>
    ensures refused { IfErr result IsUnread }
{
    opened(rt, fs::open(rt, name), name)
}

/// Reads all the bytes, of which there may be so many; None where there are more.
fn read_most<I: Read + Drop>(alloc: Global, input: I, most: usize) -> io::Result<Option<Vec<u8>>>
    requires { most ≤ 68157440 }
    ensures few { IfOk result (λ found. IfSome found (λ bytes. length bytes.items ≤ most)) }
    ensures whole { IfOk result (λ found. IfSome (I.remaining input) (λ all. MatchOption found (most < length all) (λ bytes. bytes.items ≡ all))) }
{
    let mut bytes = Vec::new(alloc);
    // one byte more tells that there are too many
    let mut part = input.take(most as u64 + 1);
    part.read_to_end(&mut bytes)?;
    if bytes.len() > most {
        return Ok(None);
    }
    Ok(Some(bytes))
}

/// Gives the bytes of the file of this name, or its fault; None is of a file with too many bytes.
fn taken<R: AllocGlobal>(
    rt: &R,
    found: io::Result<Option<Vec<u8>>>,
    name: &str,
) -> Result<Vec<u8>, FileFault>
    ensures ok { IfOk result (λ bytes. found ≡ Ok (Some bytes)) }
    ensures refused { IfErr result (IsRefusal (λ error. error_kind error ≡ ErrorKind.OutOfMemory) found) }
{
    match found {
        Ok(Some(bytes)) => Ok(bytes),
        Ok(None) => Err(FileFault::TooLarge(escaped(rt.alloc(), name.as_bytes())?)),
        Err(error) => Err(file_fault(rt, &error, name)),
    }
}

/// Reads a file of this name, of at most so many bytes, which is too large only where it has more.
fn read_bytes<R: AllocGlobal, I: Read + Drop>(
    rt: &R,
    file: I,
    name: &str,
    most: usize,
) -> Result<Vec<u8>, FileFault>
    requires { most ≤ 68157440 }
    ensures few { IfOk result (λ bytes. length bytes.items ≤ most) }
    ensures whole { IfOk result (λ bytes. IfSome (I.remaining file) (λ all. bytes.items ≡ all)) }
    ensures large { IfErr result (λ fault. IsTooLarge fault → IfSome (I.remaining file) (λ all. most < length all)) }
{
    taken(rt, read_most(rt.alloc(), file, most), name)
}

/// The bytes of a file, of at most so many: `PROFILE_BYTES` or `SCRIPT_BYTES`.
pub fn read_file<R: Files + AllocGlobal>(
    rt: &R,
    name: &str,
    most: usize,
) -> Result<Vec<u8>, FileFault>
    requires { most ≤ 68157440 }
    ensures { IfOk result (λ bytes. length bytes.items ≤ most) }
{
    let file = open_file(rt, name)?;
    read_bytes(rt, file, name, most)
}
