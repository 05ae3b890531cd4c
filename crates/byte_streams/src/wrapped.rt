//! A source and a sink over std's readers and writers, which tell the bytes that those tell.
ghost use Rattle.std.specs.Prelude.{◌≡◌, ◌≤◌, ◌+◌, length, take, drop, ◌++◌, not, is_ok, ◌||◌, false, Ok, IfOk, OnOk};
ghost use Rattle.std.specs.Io.KnownBytes.{Keeps, Appends, ReadConsumes, WriteAppends, append_known};

use crate::writing::write_front;
use crate::{IoFailed, Sink, Source};
use std::io::{ErrorKind, Read, Write};

/// How many bytes the buffer of a `FromWrite` has.
const CAPACITY: usize = 65_536;

/// Reads once. A read that was interrupted is tried again.
fn read_once<R: Read>(reader: &mut R, out: &mut [u8]) -> Result<usize, IoFailed>
    ensures count { IfOk result (λ n. n ≤ length out.new) }
    ensures bytes { ReadConsumes (R.remaining reader.old) (R.remaining reader.new) result out.new }
{
    for _ in 0..u64::MAX {
        match reader.read(out) {
            Ok(count) => return Ok(count),
            Err(error) => {
                if error.kind() != ErrorKind::Interrupted {
                    return Err(IoFailed);
                }
            }
        }
    }
    Err(IoFailed)
}

/// Writes once. A write that was interrupted is tried again.
fn write_once<W: Write>(writer: &mut W, bytes: &[u8]) -> Result<usize, IoFailed>
    ensures count { IfOk result (λ n. n ≤ length bytes.now) }
    ensures bytes { WriteAppends (W.contents writer.old) (W.contents writer.new) result bytes.now }
{
    for _ in 0..u64::MAX {
        match writer.write(bytes) {
            Ok(count) => return Ok(count),
            Err(error) => {
                if error.kind() != ErrorKind::Interrupted {
                    return Err(IoFailed);
                }
            }
        }
    }
    Err(IoFailed)
}

/// Gives what a reader gives: a file, the standard input, or bytes in memory. A read that was interrupted is
/// tried again.
#[derive(Drop)]
pub struct FromRead<R: Read + Drop> {
    reader: R,
    failed: bool,
}

impl<R: Read + Drop> FromRead<R> {
    /// Over this reader, which needs no buffer of its own.
    pub fn new(reader: R) -> Self
        ensures left { ⟦<FromRead<R> as Source>⟧.left result ≡ R.remaining reader }
        ensures fresh { ⟦<FromRead<R> as Source>⟧.has_failed result ≡ false }
    {
        FromRead {
            reader,
            failed: false,
        }
    }
}

impl<R: Read + Drop> Source for FromRead<R> {
    ghost left = { λ s. R.remaining s.reader };

    ghost has_failed = { λ s. s.failed };

    fn read(&mut self, out: &mut [u8]) -> Result<usize, IoFailed> {
        let result = read_once(&mut self.reader, out);
        if result.is_err() {
            self.failed = true;
        }
        result
    }

    fn failed(&self) -> bool {
        self.failed
    }
}

/// Puts bytes over those from `at` on.
#[inline(always)]
fn put_at(buffer: &mut [u8], at: usize, bytes: &[u8])
    requires { at + length bytes.now ≤ length buffer.old }
    ensures front { take (at + length bytes.now) buffer.new ≡ take at buffer.old ++ bytes.now }
    ensures len { length buffer.new ≡ length buffer.old }
{
    buffer[at..at + bytes.len()].copy_from_slice(bytes);
}

/// Gives a writer what is written, at once.
#[derive(Drop)]
struct Direct<W: Write + Drop> {
    writer: W,
    failed: bool,
}

impl<W: Write + Drop> Sink for Direct<W> {
    ghost written = { λ s. W.contents s.writer };

    ghost has_failed = { λ s. s.failed };

    fn write(&mut self, bytes: &[u8]) -> Result<usize, IoFailed> {
        let result = write_once(&mut self.writer, bytes);
        if result.is_err() || (result == Ok(0) && !bytes.is_empty()) {
            self.failed = true;
        }
        result
    }

    fn flush(&mut self) -> Result<(), IoFailed> {
        if self.writer.flush().is_err() {
            self.failed = true;
            return Err(IoFailed);
        }
        Ok(())
    }

    fn failed(&self) -> bool {
        self.failed
    }
}

/// Writes to a writer, a file, the standard output or bytes in memory, in blocks: what is written is buffered
/// until there are 65,536 bytes, or until a flush. A write that was interrupted is tried again. After a failure nothing
/// is written any more.
#[derive(Drop)]
pub struct FromWrite<W: Write + Drop> {
    sink: Direct<W>,
    /// The first `len` bytes are buffered. What stands behind them is left as it is, which costs nothing.
    buffer: [u8; CAPACITY],
    len: usize,
    /// How many of the buffered bytes the writer has taken: none, where no write has failed.
    taken: usize,
    ghost fits: { len ≤ 65536 },
    ghost within: { taken ≤ len },
}

impl<W: Write + Drop> FromWrite<W> {
    /// Over this writer, which needs no buffer of its own. What is in the buffer when the value is
    /// dropped is lost: flush first.
    pub fn new(writer: W) -> Self
        ensures written { ⟦<FromWrite<W> as Sink>⟧.written result ≡ W.contents writer }
        ensures fresh { ⟦<FromWrite<W> as Sink>⟧.has_failed result ≡ false }
    {
        FromWrite {
            sink: Direct {
                writer,
                failed: false,
            },
            buffer: [0; CAPACITY],
            len: 0,
            taken: 0,
        }
    }

    /// Writes out the buffered bytes, where no write has failed.
    #[inline(never)]
    fn drain(&mut self) -> Result<(), IoFailed>
        ensures bytes { Keeps (⟦<FromWrite<W> as Sink>⟧.written self.old) (⟦<FromWrite<W> as Sink>⟧.written self.new) }
        ensures empty { OnOk result (self.new.len ≡ 0) }
        ensures failed { self.new.sink.failed ≡ (self.old.sink.failed || not (is_ok result)) }
    {
        if self.sink.failed {
            return Err(IoFailed);
        }
        let buffered = &self.buffer[..self.len];
        self.taken += write_front(&mut self.sink, &buffered[self.taken..]);
        if self.taken < self.len {
            return Err(IoFailed);
        }
        self.len = 0;
        self.taken = 0;
        Ok(())
    }

    /// Buffers bytes for which there is room.
    #[inline(always)]
    fn put_in_buffer(&mut self, bytes: &[u8]) -> Result<usize, IoFailed>
        requires { self.old.len + length bytes.now ≤ 65536 }
        ensures all { result ≡ Ok (length bytes.now) }
        ensures bytes { Appends (⟦<FromWrite<W> as Sink>⟧.written self.old) (⟦<FromWrite<W> as Sink>⟧.written self.new) bytes.now }
        ensures failed { self.new.sink.failed ≡ self.old.sink.failed }
    {
        put_at(&mut self.buffer, self.len, bytes);
        self.len += bytes.len();
        Ok(bytes.len())
    }
}

impl<W: Write + Drop> Sink for FromWrite<W> {
    ghost written = { λ s. append_known (W.contents s.sink.writer) (drop s.taken (take s.len s.buffer)) };

    ghost has_failed = { λ s. s.sink.failed };

    #[inline(always)]
    fn write(&mut self, bytes: &[u8]) -> Result<usize, IoFailed> {
        if self.sink.failed {
            return Err(IoFailed);
        }
        if bytes.len() <= CAPACITY - self.len {
            return self.put_in_buffer(bytes);
        }
        self.drain()?;
        if bytes.len() > CAPACITY {
            return self.sink.write(bytes);
        }
        self.put_in_buffer(bytes)
    }

    fn flush(&mut self) -> Result<(), IoFailed> {
        self.drain()?;
        self.sink.flush()
    }

    fn failed(&self) -> bool {
        self.sink.failed
    }
}
