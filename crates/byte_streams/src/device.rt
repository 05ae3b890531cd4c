//! Where a script comes from and where its transcript goes.
ghost use Rattle.std.specs.Prelude.{◌≡◌, ◌≤◌, ◌||◌, List, ℕ, Bool, Option, length, not, is_ok, IfOk};
ghost use Rattle.std.specs.Io.KnownBytes.{Keeps, ReadConsumes, WriteAppends};
ghost use Rattle.byte_streams.specs.Device.{write_fails};

/// A read or a write failed.
#[derive(Clone, Copy, Debug, PartialEq, Eq)]
pub struct IoFailed;

/// A source of bytes.
pub trait Source {
    /// The bytes that are left, where the source tells them.
    ghost left: { Self → Option (List ℕ) };

    /// Whether a read has failed.
    ghost has_failed: { Self → Bool };

    /// Reads bytes into the front of `out` and says how many: none only at the end of the input, or
    /// where `out` has no room. A read that fails takes none.
    fn read(&mut self, out: &mut [u8]) -> Result<usize, IoFailed>
        ensures count { IfOk result (λ n. n ≤ length out.new) }
        ensures bytes { ReadConsumes (left self.old) (left self.new) result out.new }
        ensures failed { has_failed self.new ≡ (has_failed self.old || not (is_ok result)) };

    /// Whether a read has failed.
    fn failed(&self) -> bool
        ensures { result ≡ has_failed self.now };
}

/// A sink for bytes.
pub trait Sink {
    /// The bytes that were written, where the sink tells them.
    ghost written: { Self → Option (List ℕ) };

    /// Whether a write has failed: it answered an error, or took no byte of a piece that has some.
    ghost has_failed: { Self → Bool };

    /// Writes bytes from the front of `bytes` and says how many. A write that fails adds none.
    fn write(&mut self, bytes: &[u8]) -> Result<usize, IoFailed>
        ensures count { IfOk result (λ n. n ≤ length bytes.now) }
        ensures bytes { WriteAppends (written self.old) (written self.new) result bytes.now }
        ensures failed { has_failed self.new ≡ (has_failed self.old || write_fails result (length bytes.now)) };

    /// Writes out what the sink has buffered. A sink without a buffer has nothing to do.
    fn flush(&mut self) -> Result<(), IoFailed>
        ensures bytes { Keeps (written self.old) (written self.new) }
        ensures failed { has_failed self.new ≡ (has_failed self.old || not (is_ok result)) }
    {
        Ok(())
    }

    /// Whether a write has failed.
    fn failed(&self) -> bool
        ensures { result ≡ has_failed self.now };
}
