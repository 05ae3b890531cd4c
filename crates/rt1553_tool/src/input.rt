//! Lines that are read as they come.
ghost use Rattle.std.specs.Prelude.{◌≡◌, ◌≤◌, ◌<◌, ◌-◌, ◌^◌, ◌∷◌, [], ◌++◌, ℕ, List, true, length, take, drop, Some, IfOk, IfErr, IfSome, OnOk, OnErr, IsErrOf};
ghost use Rattle.std.specs.Io.KnownBytes.{Appends, Keeps};
ghost use Rattle.std.specs.List.{slice_get};
ghost use Rattle.arrayvec.specs.ArrayVec.{array_vec_len};
ghost use Rattle.rt1553_tool.specs.inner.Input.{TakesLine};

use arrayvec::ArrayVec;
use byte_streams::{Sink, Source, write_all};
use thiserror::Error;

/// Why lines are not answered to the end of the input.
#[derive(Clone, Copy, Debug, PartialEq, Eq, Error)]
pub enum ServeFault {
    /// A read failed.
    #[error("input: read failed")]
    Read,
    /// A write failed.
    #[error("output: write failed")]
    Write,
    /// The input has at least 18,446,744,073,709,551,615 bytes.
    #[error("input: too long")]
    TooLong,
}

/// Reads a byte; None at the end of the input.
fn read_byte<S: Source>(source: &mut S) -> Result<Option<u8>, ServeFault>
    ensures ok { IfOk result (λ found. IfSome (S.left source.old) (λ xs. (found ≡ slice_get xs 0) × (S.left source.new ≡ Some (drop 1 xs)))) }
    ensures fault { IfErr result (λ fault. (fault ≡ ServeFault.Read) × (S.has_failed source.new ≡ true)) }
{
    let mut byte = [0u8; 1];
    match source.read(&mut byte) {
        Ok(0) => Ok(None),
        Ok(_) => Ok(Some(byte[0])),
        Err(_) => Err(ServeFault::Read),
    }
}

/// Adds a byte where there is room for it.
fn keep<const N: usize>(line: &mut ArrayVec<u8, N>, byte: u8)
    ensures { (front : List ℕ) → line.old.items ≡ take N front → line.new.items ≡ take N (front ++ byte ∷ []) }
{
    let _ = line.try_push(byte);
}

/// Reads the next line. Its first N bytes are kept, the others are read and dropped. Gives whether there is one.
pub fn take_line<S: Source, const N: usize>(
    source: &mut S,
    line: &mut ArrayVec<u8, N>,
) -> Result<bool, ServeFault>
    requires { 0 < N }
    ensures ok { IfOk result (λ found. IfSome (S.left source.old) (λ xs. TakesLine N found xs line.new.items (S.left source.new))) }
    ensures read { IsErrOf result ServeFault.Read → S.has_failed source.new ≡ true }
    ensures write { IsErrOf result ServeFault.Write → ⊥ }
    ensures long { IsErrOf result ServeFault.TooLong → IfSome (S.left source.old) (λ xs. 2 ^ 64 - 1 ≤ length xs) }
{
    line.clear();
    for _turn in 0..u64::MAX {
        match read_byte(source) {
            Err(fault) => return Err(fault),
            Ok(None) => return Ok(!line.is_empty()),
            Ok(Some(byte)) => {
                if byte == b'\n' {
                    return Ok(true);
                }
                keep(line, byte);
            }
        }
    }
    Err(ServeFault::TooLong)
}

/// Writes all the bytes.
pub fn put<W: Sink>(sink: &mut W, bytes: &[u8]) -> Result<(), ServeFault>
    ensures ok { OnOk result (Appends (W.written sink.old) (W.written sink.new) bytes.now) }
    ensures fault { IfErr result (λ fault. (fault ≡ ServeFault.Write) × (W.has_failed sink.new ≡ true)) }
{
    write_all(sink, bytes).map_err(|_| ServeFault::Write)
}

/// Hands on what was written.
pub fn hand_on<W: Sink>(sink: &mut W) -> Result<(), ServeFault>
    ensures ok { OnOk result (Keeps (W.written sink.old) (W.written sink.new)) }
    ensures fault { IfErr result (λ fault. (fault ≡ ServeFault.Write) × (W.has_failed sink.new ≡ true)) }
{
    sink.flush().map_err(|_| ServeFault::Write)
}
