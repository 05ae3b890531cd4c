//! The output, and whether somebody still reads it.
use std::io::{self, ErrorKind, Write};

/// An output that notes when its reader is gone.
#[derive(Drop)]
pub struct WatchedOutput<W> {
    pub output: W,
    pub is_closed: bool,
}

impl<W: Write + Drop> Write for WatchedOutput<W> {
    fn write(&mut self, bytes: &[u8]) -> io::Result<usize> {
        let written = self.output.write(bytes);
        if let Err(error) = &written {
            self.is_closed = self.is_closed || error.kind() == ErrorKind::BrokenPipe;
        }
        written
    }

    fn flush(&mut self) -> io::Result<()> {
        self.output.flush()
    }
}
