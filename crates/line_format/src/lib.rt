//! Texts of lines, where what a line holds decides which lines follow: such a format is written once, as
//! data, and reading, writing and the first wrong line are proved for all formats.
#![tactic(auto)]

mod field_kind;
pub mod laws;
mod lines;
mod numbers;
mod read;
mod write;

pub use field_kind::FieldKind;
pub use lines::{Lines, WrongLine};
pub use numbers::{number_of, put_number};
pub use read::{
    after, bit_line, field, number_line, number_line_of, numbered_line, numbered_line_of,
    word_line, words_line,
};
pub use write::{put_bit_line, put_number_line, put_numbered_line, put_words_line};
