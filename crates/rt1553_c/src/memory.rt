//! A script that stands in memory, and a transcript that is gathered there.
ghost use Rattle.std.specs.Prelude.{◌≡◌, [], Some, false};

use byte_streams::{IoFailed, Sink, Source};
use std::alloc::Global;

/// Gives the bytes of a text. It never fails.
#[derive(Drop)]
pub struct TextSource<'a> {
    left: &'a [u8],
}

impl<'a> TextSource<'a> {
    /// All bytes of the text are left.
    pub fn new(text: &'a [u8]) -> TextSource<'a>
        ensures { ⟦<TextSource<'a> as Source>⟧.left result ≡ Some text.now }
    {
        TextSource { left: text }
    }
}

impl<'a> Source for TextSource<'a> {
    ghost left = { λ s. Some s.left.now };

    ghost has_failed = { λ _. false };

    fn read(&mut self, out: &mut [u8]) -> Result<usize, IoFailed> {
        let count = out.len().min(self.left.len());
        out[..count].copy_from_slice(&self.left[..count]);
        self.left = &self.left[count..];
        Ok(count)
    }

    fn failed(&self) -> bool {
        false
    }
}

/// Keeps all that is written. A write fails only where memory runs out.
#[derive(Drop)]
pub struct TranscriptSink {
    bytes: Vec<u8>,
    failed: bool,
}

impl TranscriptSink {
    /// Nothing is kept yet.
    pub fn new(alloc: Global) -> TranscriptSink
        ensures written { ⟦<TranscriptSink as Sink>⟧.written result ≡ Some [] }
        ensures fresh { ⟦<TranscriptSink as Sink>⟧.has_failed result ≡ false }
    {
        TranscriptSink {
            bytes: Vec::new(alloc),
            failed: false,
        }
    }

    /// What was written.
    pub fn as_slice(&self) -> &[u8]
        ensures { ⟦<TranscriptSink as Sink>⟧.written self.now ≡ Some result.now }
    {
        self.bytes.as_slice()
    }
}

impl Sink for TranscriptSink {
    ghost written = { λ s. Some s.bytes.items };

    ghost has_failed = { λ s. s.failed };

    fn write(&mut self, bytes: &[u8]) -> Result<usize, IoFailed> {
        match self.bytes.extend_from_slice(bytes) {
            Ok(()) => Ok(bytes.len()),
            Err(_) => {
                self.failed = true;
                Err(IoFailed)
            }
        }
    }

    fn failed(&self) -> bool {
        self.failed
    }
}
