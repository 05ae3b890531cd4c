//! What people ask beside runs: a terminal that is played line by line,
//! and words of a bus by their fields and by their digits.
#![tactic(auto)]

mod fields;
mod input;
mod parts;
mod session;
mod word_answers;
mod word_lines;
mod word_texts;

pub use fields::{
    CommandFields, StatusFields, WordFields, command_bits, command_fields, status_fields,
    status_word_bits, word_with,
};
pub use input::ServeFault;
pub use parts::is_blank;
pub use session::{play_live_line, serve};
pub use word_answers::answer_words;
pub use word_lines::{WordLine, WordLineFault, read_word_line};
pub use word_texts::{
    AnswerLine, answer_word_line, push_address, push_command_fields, push_decimal,
};
