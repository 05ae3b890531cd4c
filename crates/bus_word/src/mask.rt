//! Masks: sets of small numbers, kept as bits.
ghost use Rattle.std.specs.Prelude.{◌≡◌, ◌<◌};
ghost use Rattle.bus_word.specs.Mask.{has_bit};

/// Whether the bit of this number, 0 to 31, is set: the lowest is that of 0.
pub fn has_bit(mask: u32, bit: u8) -> bool
    requires { bit < 32 }
    ensures { result ≡ has_bit mask bit }
{
    (mask >> bit) % 2 == 1
}
