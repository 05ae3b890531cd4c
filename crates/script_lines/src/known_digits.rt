//! Hexadecimal digits as `hex` reads them, which are asked once.
ghost use Rattle.std.specs.Prelude.{◌≡◌, ◌<◌, [], ◌∷◌, Some, IfSome, IsAscii, option_map};
ghost use Rattle.script_lines.specs.Digits.{word_of, digits_of};
ghost use Rattle.hex.specs.Hex.{hex_digit_value};
ghost use Rattle.script_lines.specs.inner.Digits.{AreKnown};

use crate::digits::{digits_of, read_pair, read_word};

/// What marks a byte that was not asked, or is no digit.
const UNKNOWN: u8 = 255;

/// What `hex` reads in the bytes that were asked. A call of `hex` branches by what kind of digit a byte is, and nobody can
/// foresee that of data: where a script has many lines, it is cheaper to keep the answers.
#[derive(Drop)]
pub struct KnownDigits {
    /// The value of each byte as a hexadecimal digit, or `UNKNOWN`.
    values: [u8; 256],
    ghost known: { AreKnown values },
}

impl KnownDigits {
    /// Nothing was asked.
    pub fn none() -> KnownDigits {
        KnownDigits {
            values: [UNKNOWN; 256],
        }
    }

    /// The word of four hexadecimal digits, small or capital.
    #[inline(always)]
    #[tactic(auto, using(crate::proofs::DigitLaws::word_of_values))]
    pub fn word(&mut self, a: u8, b: u8, c: u8, d: u8) -> Option<u16>
        ensures { result ≡ word_of (a ∷ b ∷ c ∷ d ∷ []) }
    {
        let (p, q, r, s) = (self.value(a), self.value(b), self.value(c), self.value(d));
        if p < 16 && q < 16 && r < 16 && s < 16 {
            return Some(p as u16 * 4096 + q as u16 * 256 + r as u16 * 16 + s as u16);
        }
        self.ask(a, b, c, d)
    }

    /// The digits of a word of four hexadecimal digits, small: as text, without the number.
    #[inline(always)]
    #[tactic(auto, using(crate::proofs::DigitLaws::small_digits))]
    pub fn small(&mut self, a: u8, b: u8, c: u8, d: u8) -> Option<[u8; 4]>
        ensures digits { result ≡ option_map digits_of (word_of (a ∷ b ∷ c ∷ d ∷ [])) }
        ensures ascii { IfSome result (λ digits. IsAscii digits) }
    {
        let (p, q, r, s) = (self.value(a), self.value(b), self.value(c), self.value(d));
        if p < 16 && q < 16 && r < 16 && s < 16 {
            // all four at once: one by one a compiler takes them through a vector register
            return Some((u32::from_le_bytes([a, b, c, d]) | 0x2020_2020).to_le_bytes());
        }
        match self.ask(a, b, c, d) {
            Some(word) => Some(digits_of(word)),
            None => None,
        }
    }

    /// What is kept of a byte.
    #[inline(always)]
    fn value(&self, byte: u8) -> u8
        ensures { result < 16 → hex_digit_value byte ≡ Some result }
    {
        self.values[byte as usize]
    }

    /// Asks `hex`, and keeps what it reads in each digit.
    #[inline(never)]
    fn ask(&mut self, a: u8, b: u8, c: u8, d: u8) -> Option<u16>
        ensures { result ≡ word_of (a ∷ b ∷ c ∷ d ∷ []) }
    {
        self.keep(a);
        self.keep(b);
        self.keep(c);
        self.keep(d);
        read_word(a, b, c, d)
    }

    /// Keeps what `hex` reads in a byte, if it is a digit.
    #[tactic(auto, using(crate::proofs::DigitLaws::behind_zero))]
    fn keep(&mut self, byte: u8) {
        if let Some(value) = read_pair(b'0', byte) {
            self.values[byte as usize] = value;
        }
    }
}
