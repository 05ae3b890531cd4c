//! Where a line ends.
ghost use Rattle.std.specs.Prelude.{◌≡◌, ◌≢◌, ◌≤◌, ◌<◌, ℕ, length, IfSome, IfNone, slice_index};

use std::simd::prelude::*;

/// How many of the first 64 bytes come before the first line feed among them: 64 where there is none.
#[inline(always)]
fn before_line_feed(bytes: &[u8]) -> usize
    requires { 64 ≤ length bytes.now }
    ensures few { result ≤ 64 }
    ensures others { (k : ℕ) → k < result → slice_index bytes.now k ≢ 10 }
    ensures found { result < 64 → slice_index bytes.now result ≡ 10 }
{
    let feeds = u8x64::from_slice(bytes)
        .simd_eq(u8x64::splat(b'\n'))
        .to_bitmask();
    if feeds == 0 {
        64
    } else {
        feeds.trailing_zeros() as usize
    }
}

/// Where the first line feed stands. Most lines end within 64 bytes, which are looked at together; the end of a chunk
/// and what has no line feed so near is gone through byte by byte.
#[inline(always)]
pub fn find_line_feed(bytes: &[u8]) -> Option<usize>
    ensures within { IfSome result (λ i. i < length bytes.now) }
    ensures found { IfSome result (λ i. slice_index bytes.now i ≡ 10) }
    ensures first { IfSome result (λ i. (k : ℕ) → k < i → slice_index bytes.now k ≢ 10) }
    ensures none { IfNone result ((k : ℕ) → k < length bytes.now → slice_index bytes.now k ≢ 10) }
{
    if bytes.len() >= 64 {
        let at = before_line_feed(bytes);
        if at < 64 {
            return Some(at);
        }
    }
    search_line_feed(bytes)
}

/// Where the first line feed stands, byte by byte.
#[inline(never)]
fn search_line_feed(bytes: &[u8]) -> Option<usize>
    ensures within { IfSome result (λ i. i < length bytes.now) }
    ensures found { IfSome result (λ i. slice_index bytes.now i ≡ 10) }
    ensures first { IfSome result (λ i. (k : ℕ) → k < i → slice_index bytes.now k ≢ 10) }
    ensures none { IfNone result ((k : ℕ) → k < length bytes.now → slice_index bytes.now k ≢ 10) }
{
    for (i, byte) in bytes.iter().enumerate() {
        if *byte == b'\n' {
            return Some(i);
        }
    }
    None
}
