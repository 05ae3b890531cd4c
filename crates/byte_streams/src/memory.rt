//! A source and a sink over memory, which tell their bytes.
ghost use Rattle.std.specs.Prelude.{◌≡◌, ◌≤◌, ◌<◌, ◌-◌, ◌||◌, min, Some, length, take, drop, [], ◌++◌, false, not, is_ok, IfOk, IfSome};
ghost use Rattle.std.specs.Io.KnownBytes.{ReadConsumes, WriteAppends};
ghost use Rattle.byte_streams.specs.Device.{write_fails};
ghost use Rattle.byte_streams.specs.Pace.{is_failing, counted_down};

use crate::{IoFailed, Sink, Source};
use arrayvec::ArrayVec;

/// Gives the bytes of a slice.
#[derive(Drop)]
pub struct MemorySource<'a> {
    bytes: &'a [u8],
    at: usize,
    most: usize,
    calls: Option<u64>,
    failed: bool,
    ghost within: { at ≤ length bytes.now },
    ghost some: { 1 ≤ most },
}

impl<'a> MemorySource<'a> {
    ghost use Rattle.byte_streams.specs.Memory.{source_calls, source_most};

    /// Gives at most `most` bytes a call, from 1, and fails at the call that `failing_call` counts
    /// calls down to, from 0.
    pub fn new(bytes: &'a [u8], most: usize, failing_call: Option<u64>) -> Self
        requires { 1 ≤ most }
        ensures most { source_most result ≡ most }
        ensures calls { source_calls result ≡ failing_call }
        ensures left { ⟦<MemorySource<'a> as Source>⟧.left result ≡ Some bytes.now }
        ensures fresh { ⟦<MemorySource<'a> as Source>⟧.has_failed result ≡ false }
    {
        MemorySource {
            bytes,
            at: 0,
            most,
            calls: failing_call,
            failed: false,
        }
    }
}

impl<'a> Source for MemorySource<'a> {
    ghost use Rattle.byte_streams.specs.Memory.{source_calls, source_most};

    ghost left = { λ s. Some (drop s.at s.bytes.now) };

    ghost has_failed = { λ s. s.failed };

    fn read(&mut self, out: &mut [u8]) -> Result<usize, IoFailed>
        ensures count { IfOk result (λ n. n ≤ length out.new) }
        ensures bytes { ReadConsumes (⟦<MemorySource<'a> as Source>⟧.left self.old) (⟦<MemorySource<'a> as Source>⟧.left self.new) result out.new }
        ensures failed { ⟦<MemorySource<'a> as Source>⟧.has_failed self.new ≡ (⟦<MemorySource<'a> as Source>⟧.has_failed self.old || not (is_ok result)) }
        ensures chosen { is_ok result ≡ not (is_failing (source_calls self.old)) }
        ensures most { IfOk result (λ n. IfSome (⟦<MemorySource<'a> as Source>⟧.left self.old) (λ bytes. n ≡ min (min (length out.old) (source_most self.old)) (length bytes))) }
        ensures next { source_calls self.new ≡ counted_down (source_calls self.old) }
        ensures same { source_most self.new ≡ source_most self.old }
    {
        if is_failing_call(&mut self.calls) {
            self.failed = true;
            return Err(IoFailed);
        }
        let count = give_front(&self.bytes[self.at..], self.most, out);
        self.at += count;
        Ok(count)
    }

    fn failed(&self) -> bool {
        self.failed
    }
}

/// Copies the front of `from` to that of `out`, at most `most` bytes.
fn give_front(from: &[u8], most: usize, out: &mut [u8]) -> usize
    requires { 1 ≤ most }
    ensures fits { result ≤ length out.new }
    ensures within { result ≤ length from.now }
    ensures front { from.now ≡ take result out.new ++ drop result from.now }
    ensures none { result ≡ 0 → 0 < length out.new → from.now ≡ [] }
    ensures most { result ≡ min (min (length out.old) most) (length from.now) }
{
    let count = out.len().min(most).min(from.len());
    out[..count].copy_from_slice(&from[..count]);
    count
}

/// Counts a call down, and says whether it is the one that fails.
fn is_failing_call(calls: &mut Option<u64>) -> bool
    ensures now { result ≡ is_failing calls.old }
    ensures next { calls.new ≡ counted_down calls.old }
{
    match *calls {
        None => false,
        Some(0) => true,
        Some(more) => {
            *calls = Some(more - 1);
            false
        }
    }
}

/// Stores up to `N` bytes. A full sink takes none.
#[derive(Drop)]
pub struct MemorySink<const N: usize> {
    bytes: ArrayVec<u8, N>,
    most: usize,
    calls: Option<u64>,
    failed: bool,
    ghost some: { 1 ≤ most },
}

impl<const N: usize> MemorySink<N> {
    ghost use Rattle.byte_streams.specs.Memory.{sink_calls, sink_most};

    /// Takes at most `most` bytes a call, from 1, and fails at the call that `failing_call` counts
    /// calls down to, from 0.
    pub fn new(most: usize, failing_call: Option<u64>) -> Self
        requires { 1 ≤ most }
        ensures most { sink_most result ≡ most }
        ensures calls { sink_calls result ≡ failing_call }
        ensures written { ⟦<MemorySink<N> as Sink>⟧.written result ≡ Some [] }
        ensures fresh { ⟦<MemorySink<N> as Sink>⟧.has_failed result ≡ false }
    {
        MemorySink {
            bytes: ArrayVec::new(),
            most,
            calls: failing_call,
            failed: false,
        }
    }

    /// The bytes that were written.
    pub fn as_slice(&self) -> &[u8]
        ensures { ⟦<MemorySink<N> as Sink>⟧.written self.now ≡ Some result.now }
    {
        self.bytes.as_slice()
    }
}

impl<const N: usize> Sink for MemorySink<N> {
    ghost use Rattle.byte_streams.specs.Memory.{sink_calls, sink_most};

    ghost written = { λ s. Some s.bytes.items };

    ghost has_failed = { λ s. s.failed };

    fn write(&mut self, bytes: &[u8]) -> Result<usize, IoFailed>
        ensures count { IfOk result (λ n. n ≤ length bytes.now) }
        ensures bytes { WriteAppends (⟦<MemorySink<N> as Sink>⟧.written self.old) (⟦<MemorySink<N> as Sink>⟧.written self.new) result bytes.now }
        ensures failed { ⟦<MemorySink<N> as Sink>⟧.has_failed self.new ≡ (⟦<MemorySink<N> as Sink>⟧.has_failed self.old || write_fails result (length bytes.now)) }
        ensures chosen { is_ok result ≡ not (is_failing (sink_calls self.old)) }
        ensures most { IfOk result (λ n. IfSome (⟦<MemorySink<N> as Sink>⟧.written self.old) (λ had. n ≡ min (min (length bytes.now) (sink_most self.old)) (N - length had))) }
        ensures next { sink_calls self.new ≡ counted_down (sink_calls self.old) }
        ensures same { sink_most self.new ≡ sink_most self.old }
    {
        if is_failing_call(&mut self.calls) {
            self.failed = true;
            return Err(IoFailed);
        }
        let room = self.bytes.remaining_capacity();
        let count = bytes.len().min(self.most).min(room);
        if count == 0 && !bytes.is_empty() {
            self.failed = true;
        }
        let _ = self.bytes.try_extend_from_slice(&bytes[..count]);
        Ok(count)
    }

    fn failed(&self) -> bool {
        self.failed
    }
}
