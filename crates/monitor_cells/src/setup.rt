//! What a table is read by.
ghost use Rattle.std.specs.Prelude.{◌≡◌};
ghost use Rattle.monitor_cells.specs.Listening.{pause_of};

/// How long a word lasts, in nanoseconds: 20 bit times of 1 microsecond each (MIL-STD-1553B, 4.3.2, 4.3.3.4).
pub const WORD_TIME: u64 = 20_000;

/// How long before the end of the word above it a word may begin, in nanoseconds: times in tables are rounded.
pub const TOLERANCE: u64 = 1_000;

/// How long a terminal waits for the status word of another at least, in nanoseconds: 14.0 microseconds (4.3.3.9) are measured from the middle
/// of the last bit to the middle of the sync, which leaves 12.0 of silence, and 1 less where times are rounded.
pub const SHORTEST_WAIT: u64 = 11_000;

/// How long it waits behind the two commands at most, in nanoseconds: the first data word begins within 60 microseconds behind the first of
/// them (Notice 2, 30.9), and the second takes 20.
pub const LONGEST_WAIT: u64 = 40_000;

/// The terminal that is recorded, and the silences that count, in nanoseconds.
#[derive(Clone, Copy)]
pub struct RecordingSetup {
    /// The address of the terminal, 0 to 30.
    pub address: u8,
    /// A longer silence is a gap.
    pub gap: u64,
    /// A status word after a longer silence is no reply.
    pub no_response: u64,
    /// A longer silence on both buses is a pause, if it is longer than `gap` and `no_response`, too.
    pub pause: u64,
    /// So long after its status word to a reset the terminal may not hear a command.
    pub after_reset: u64,
    /// So long after its status word to a command that begins its self test.
    pub after_self_test: u64,
}

impl RecordingSetup {
    /// The terminal of this address, with the silences of the standard. A gap is longer than 1 microsecond: 4.0 microseconds between
    /// messages and before a reply (4.3.3.7, 4.3.3.8) are measured from the middle of the last bit to the middle of the sync, which
    /// leaves 2.0 of silence, and contiguous words have none. A reply comes after at most 12 microseconds: 14.0 (4.3.3.9) without the
    /// same 2.0. A pause is longer than 100 microseconds: a terminal that receives from another waits at most 60 for the status word of that
    /// one (MIL-STD-1553B Notice 2, 30.9; SAE AS4111), so after 100 every terminal has given up. After a reset a terminal is ready within 5.0
    /// milliseconds, after a self test within 100.0, from its status word to the next command (Notice 2, 30.4.3, 30.4.4).
    pub fn of(address: u8) -> RecordingSetup
        ensures { result ≡ record { address = address; gap = 1000; no_response = 12000; pause = 100000; after_reset = 5000000; after_self_test = 100000000 } }
    {
        RecordingSetup {
            address,
            gap: 1_000,
            no_response: 12_000,
            pause: 100_000,
            after_reset: 5_000_000,
            after_self_test: 100_000_000,
        }
    }

    /// A silence on both buses that is longer is a pause: no terminal replies any more, and each bus had its gap.
    pub fn pause_time(&self) -> u64
        ensures { result ≡ pause_of self.now }
    {
        self.pause.max(self.gap.max(self.no_response))
    }
}
