//! All of some bytes is written.
ghost use Rattle.std.specs.Prelude.{◌≡◌, ◌≤◌, ◌||◌, length, take, nat_lt, not, is_ok, OnOk, OnErr};
ghost use Rattle.std.specs.Io.KnownBytes.{Appends};
ghost use Rattle.byte_streams.specs.Device.{IsPartWritten};

use crate::{IoFailed, Sink};

/// Writes bytes from the front on, and gives the number of those that were taken: all, where no write fails.
#[inline(always)]
pub fn write_front<W: Sink>(writer: &mut W, bytes: &[u8]) -> usize
    ensures within { result ≤ length bytes.now }
    ensures bytes { Appends (W.written writer.old) (W.written writer.new) (take result bytes.now) }
    ensures failed { W.has_failed writer.new ≡ (W.has_failed writer.old || nat_lt result (length bytes.now)) }
{
    let mut at = 0;
    while at < bytes.len() {
        let count = match writer.write(&bytes[at..]) {
            Ok(count) => count,
            Err(_) => return at,
        };
        if count == 0 {
            return at;
        }
        at += count;
    }
    at
}

/// Writes all the bytes. Where a write fails, a part of them, from the front on, was written.
#[inline(always)]
pub fn write_all<W: Sink>(writer: &mut W, bytes: &[u8]) -> Result<(), IoFailed>
    ensures ok { OnOk result (Appends (W.written writer.old) (W.written writer.new) bytes.now) }
    ensures err { OnErr result (IsPartWritten (W.written writer.old) (W.written writer.new) bytes.now) }
    ensures failed { W.has_failed writer.new ≡ (W.has_failed writer.old || not (is_ok result)) }
{
    if write_front(writer, bytes) < bytes.len() {
        return Err(IoFailed);
    }
    Ok(())
}
