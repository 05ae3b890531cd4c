//! The bits of status words by name.
ghost use Rattle.std.specs.Prelude.{◌≡◌, ◌≤◌, ◌<◌, ◌+◌, ◌++◌, ◌∷◌, [], length, take};
ghost use Rattle.message_rows.specs.StatusBits.{is_bit_set, named_bits};

/// How many bits stand behind the address.
pub const STATUS_BITS: usize = 11;

/// The bit of this index behind the address, from 0, by its place value, as `words` of `rt1553-tool` names it.
pub fn status_bit(index: usize) -> (u16, &'static str)
    requires { index < 11 }
    ensures bit { take (index + 1) named_bits ≡ take index named_bits ++ (result.0, result.1.now) ∷ [] }
    ensures place { 0 < result.0 }
    ensures name { length result.1.now ≤ 15 }
{
    match index {
        0 => (0x0400, "error"),
        1 => (0x0200, "instrumentation"),
        2 => (0x0100, "service"),
        3 => (0x0080, "reserved1"),
        4 => (0x0040, "reserved2"),
        5 => (0x0020, "reserved3"),
        6 => (0x0010, "broadcast"),
        7 => (0x0008, "busy"),
        8 => (0x0004, "subsystem"),
        9 => (0x0002, "accept"),
        _ => (0x0001, "terminal"),
    }
}

/// Whether the bit of this place value is set.
pub fn is_bit_set(word: u16, place: u16) -> bool
    requires { 0 < place }
    ensures { result ≡ is_bit_set word place }
{
    word / place % 2 == 1
}
