//! The fields of lines.

/// A number on a line: how many digits it has, and of which base. Hexadecimal letters are small.
#[derive(Clone, Copy, PartialEq, Eq, Debug)]
pub enum FieldKind {
    /// A 0 or a 1.
    Bit,
    /// One decimal digit.
    Digit,
    /// Two decimal digits.
    Decimal,
    /// Four hexadecimal digits, for 16 bits.
    Word,
    /// Eight hexadecimal digits, for 32 bits.
    Mask,
}
