//! The sink over the slices that a caller gives. It takes no memory.
ghost use Rattle.std.specs.Prelude.{◌≡◌, ◌≤◌, ◌<◌, ◌+◌, ◌++◌, ◌∷◌, Some, true, false, length, take, All};

use byte_streams::{IoFailed, Sink};

/// Puts as many of these bytes as there is room for behind the first ones of a room, and says how many.
pub(crate) fn put(room: &mut [u8], filled: usize, bytes: &[u8]) -> usize
    requires { filled ≤ length room.old }
    ensures within { result ≤ length bytes.now }
    ensures fits { filled + result ≤ length room.new }
    ensures bytes { take (filled + result) room.new ≡ take filled room.old ++ take result bytes.now }
    ensures full { result < length bytes.now → filled + result ≡ length room.new }
    ensures size { length room.new ≡ length room.old }
{
    let count = bytes.len().min(room.len() - filled);
    room[filled..filled + count].copy_from_slice(&bytes[..count]);
    count
}

/// Keeps the bytes that are written at the front of a room. A full room takes no more. At each flush it notes how many bytes it has, while
/// there is a place for that.
#[derive(Drop)]
pub struct Room<'a> {
    pub bytes: &'a mut [u8],
    pub filled: usize,
    pub ends: &'a mut [usize],
    pub noted: usize,
    pub failed: bool,
    ghost within: { filled ≤ length bytes.now },
    ghost full: { failed ≡ true → filled ≡ length bytes.now },
    ghost some: { noted ≤ length ends.now },
    ghost each: { All (λ end. end ≤ filled) (take noted ends.now) },
}

impl<'a> Room<'a> {
    /// Nothing is written yet, and nothing noted.
    pub fn new(bytes: &'a mut [u8], ends: &'a mut [usize]) -> Room<'a>
        ensures same_room { result.bytes.ghost_name ≡ bytes.entry.ghost_name }
        ensures same_ends { result.ends.ghost_name ≡ ends.entry.ghost_name }
        ensures empty { result.filled ≡ 0 }
        ensures fresh { result.failed ≡ false }
    {
        Room {
            bytes,
            filled: 0,
            ends,
            noted: 0,
            failed: false,
        }
    }
}

impl<'a> Sink for Room<'a> {
    // the names of the slices stand before the bytes: a run only adds bytes, and so keeps the slices
    ghost written = { λ s. Some (s.bytes.ghost_name ∷ s.ends.ghost_name ∷ take s.filled s.bytes.now) };

    ghost has_failed = { λ s. s.failed };

    fn write(&mut self, bytes: &[u8]) -> Result<usize, IoFailed> {
        let count = put(self.bytes, self.filled, bytes);
        self.filled += count;
        if count == 0 && !bytes.is_empty() {
            self.failed = true;
        }
        Ok(count)
    }

    fn flush(&mut self) -> Result<(), IoFailed> {
        if self.noted < self.ends.len() {
            self.ends[self.noted] = self.filled;
            self.noted += 1;
        }
        Ok(())
    }

    fn failed(&self) -> bool {
        self.failed
    }
}
