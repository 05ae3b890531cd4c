//! The digits of each byte as `hex` writes them, which are asked once.
ghost use Rattle.std.specs.Prelude.{◌≡◌, IsAscii};
ghost use Rattle.std.specs.List.{range_with_len};
ghost use Rattle.hex.specs.Hex.{encode_lower};
ghost use Rattle.script_lines.specs.Digits.{digits_of};

/// The two small digits of each byte. A call of `hex` for each word looks up one digit after the other: where many words are
/// sent, it is cheaper to keep all answers.
#[derive(Drop)]
pub struct KnownPairs {
    /// Those of byte `b` stand at `2 * b`.
    digits: [u8; 512],
    ghost known: { digits ≡ encode_lower (range_with_len 0 256) },
}

impl KnownPairs {
    /// Asks them all.
    pub fn asked() -> KnownPairs {
        let mut bytes = [0u8; 256];
        for byte in 0..256 {
            bytes[byte] = byte as u8;
        }
        let mut digits = [0; 512];
        let _ = hex::encode_to_slice(bytes, &mut digits);
        KnownPairs { digits }
    }

    /// The four digits of a word, the highest first.
    #[inline(always)]
    pub fn digits(&self, word: u16) -> [u8; 4]
        ensures digits { result ≡ digits_of word }
        ensures ascii { IsAscii result }
    {
        let high = (word / 256) as usize * 2;
        let low = (word % 256) as usize * 2;
        [
            self.digits[high],
            self.digits[high + 1],
            self.digits[low],
            self.digits[low + 1],
        ]
    }
}
