//! A script that stands in memory.
ghost use Rattle.std.specs.Prelude.{◌≡◌, ◌≤◌, ◌<◌, Some, [], false, length};

use byte_streams::{IoFailed, Source};
use script_lines::find_line_feed;

/// Gives the bytes of a script, those of one line at most at a time. It never fails.
#[derive(Drop)]
pub struct ScriptBytes<'a> {
    left: &'a [u8],
}

impl<'a> ScriptBytes<'a> {
    /// All bytes of the script are left.
    pub fn new(script: &'a [u8]) -> ScriptBytes<'a>
        ensures { ⟦<ScriptBytes<'a> as Source>⟧.left result ≡ Some script.now }
    {
        ScriptBytes { left: script }
    }
}

/// How many bytes are given from the front of those that are left.
fn count_given(left: &[u8], most: usize) -> usize
    ensures within { result ≤ length left.now }
    ensures most { result ≤ most }
    ensures some { result ≡ 0 → 0 < most → left.now ≡ [] }
{
    let count = most.min(left.len());
    match find_line_feed(&left[..count]) {
        Some(at) => at + 1,
        None => count,
    }
}

impl<'a> Source for ScriptBytes<'a> {
    ghost left = { λ s. Some s.left.now };

    ghost has_failed = { λ _. false };

    fn read(&mut self, out: &mut [u8]) -> Result<usize, IoFailed> {
        let count = count_given(self.left, out.len());
        out[..count].copy_from_slice(&self.left[..count]);
        self.left = &self.left[count..];
        Ok(count)
    }

    fn failed(&self) -> bool {
        false
    }
}
