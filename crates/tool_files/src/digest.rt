//! Digests of files.
ghost use Rattle.std.specs.Prelude.{◌≡◌, IfOk, List, ℕ};
ghost use Rattle.bus_canon.specs.Canon.{Text};
ghost use Rattle.sha2.specs.Sha256.{sha256};

use bus_canon::write_canon;
use bus_legal::Normal;
use sha2::{Digest, Sha256};
use std::alloc::{AllocError, Global};
use std::io::{self, Read};

/// The SHA-256 digest of bytes (FIPS 180-4).
pub fn digest_of(bytes: &[u8]) -> [u8; 32]
    ensures { result ≡ sha256 bytes.now }
{
    Sha256::digest(bytes)
}

/// The SHA-256 digest of the canonical text of a terminal.
pub fn canonical_digest(alloc: Global, normal: &Normal) -> Result<[u8; 32], AllocError>
    ensures { IfOk result (λ digest. (text : List ℕ) × Text normal.now text × (digest ≡ sha256 text)) }
{
    let text = write_canon(alloc, normal)?;
    Ok(digest_of(text.as_slice()))
}

/// A reader that hashes what it gives.
#[derive(Drop)]
pub struct HashedReader<F> {
    file: F,
    hasher: Sha256,
}

impl<F: Read> Read for HashedReader<F> {
    ghost remaining = { λ r. F.remaining r.file };

    fn read(&mut self, buf: &mut [u8]) -> io::Result<usize> {
        let count = self.file.read(buf)?;
        self.hasher.update(&buf[..count]);
        Ok(count)
    }
}

impl<F: Read + Drop> HashedReader<F> {
    /// A reader of the rest of a file, of which this front was read.
    pub fn new(front: &[u8], file: F) -> HashedReader<F>
        ensures { F.remaining result.file ≡ F.remaining file }
    {
        HashedReader {
            file,
            hasher: Sha256::new_with_prefix(front),
        }
    }

    /// The SHA-256 digest of the whole file. What was not read is read first.
    pub fn digest(mut self) -> io::Result<[u8; 32]> {
        io::copy(&mut self, &mut io::sink())?;
        Ok(self.hasher.finalize())
    }
}
