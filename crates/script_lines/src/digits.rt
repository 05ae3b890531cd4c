//! Numbers as they are written in scripts and transcripts.
ghost use Rattle.std.specs.Prelude.{◌≡◌, ◌<◌, ◌+◌, ◌++◌, ◌≤◌, ℕ, [], ◌∷◌, slice_index, IsAscii};
ghost use Rattle.arrayvec.specs.ArrayString.{array_string_len};
ghost use Rattle.script_lines.specs.Digits.{word_of, digits_of, number_of, decimal_digits};
ghost use Rattle.script_lines.specs.inner.Digits.{byte_of};

use arrayvec::ArrayString;

/// The byte of two hexadecimal digits, small or capital.
#[inline(always)]
pub(crate) fn read_pair(high: u8, low: u8) -> Option<u8>
    ensures { result ≡ byte_of (high ∷ low ∷ []) }
{
    let mut byte = [0u8; 1];
    match hex::decode_to_slice(&[high, low], &mut byte) {
        Ok(()) => Some(byte[0]),
        Err(_) => None,
    }
}

/// The word of four hexadecimal digits, small or capital. Each pair has a place of its own: a processor that reads
/// as one word what was just written as two bytes waits until both are in memory.
#[inline(always)]
#[tactic(auto, using(crate::proofs::DigitLaws::word_by_pairs))]
pub fn read_word(a: u8, b: u8, c: u8, d: u8) -> Option<u16>
    ensures { result ≡ word_of (a ∷ b ∷ c ∷ d ∷ []) }
{
    match (read_pair(a, b), read_pair(c, d)) {
        (Some(high), Some(low)) => Some(u16::from_be_bytes([high, low])),
        _ => None,
    }
}

/// The number of two decimal digits.
pub(crate) fn read_number(tens: u8, ones: u8) -> Option<u8>
    ensures { result ≡ number_of tens ones }
{
    if tens.is_ascii_digit() && ones.is_ascii_digit() {
        Some((tens - b'0') * 10 + (ones - b'0'))
    } else {
        None
    }
}

/// The four hexadecimal digits of a word, small, the highest first.
#[inline(always)]
pub fn digits_of(word: u16) -> [u8; 4]
    ensures digits { result ≡ digits_of word }
    ensures ascii { (i : ℕ) → slice_index (digits_of word) i < 128 }
{
    let mut digits = [0; 4];
    let _ = hex::encode_to_slice(word.to_be_bytes(), &mut digits);
    digits
}

/// ASCII bytes as text.
#[inline(always)]
pub(crate) fn ascii(bytes: &[u8]) -> &str
    requires { IsAscii bytes.now }
    ensures { result.now ≡ bytes.now }
{
    unsafe { str::from_utf8_unchecked(bytes) }
}

/// Writes a word's four hexadecimal digits, in one piece.
#[inline(always)]
pub fn push_word<const N: usize>(text: &mut ArrayString<N>, word: u16)
    requires { array_string_len text.old + 4 ≤ N }
    ensures bytes { text.new.bytes ≡ text.old.bytes ++ digits_of word }
    ensures len { array_string_len text.new ≡ array_string_len text.old + 4 }
{
    text.push_str(ascii(&digits_of(word)));
}

/// Writes a number, below 100, in two decimal digits.
pub fn push_number<const N: usize>(text: &mut ArrayString<N>, number: u8)
    requires { array_string_len text.old + 2 ≤ N }
    ensures bytes { text.new.bytes ≡ text.old.bytes ++ decimal_digits number }
    ensures len { array_string_len text.new ≡ array_string_len text.old + 2 }
{
    text.push(char::from(b'0' + number / 10));
    text.push(char::from(b'0' + number % 10));
}
