//! What a comparison of results tells.
ghost use Rattle.std.specs.Prelude.{◌≡◌, ◌↔◌, [], map, IsTrue};

use rt1553_verify::{NumberRange, WrongReply};

/// What a comparison tells.
#[derive(Drop)]
pub struct Comparison {
    /// How many exchanges the acceptance test has.
    pub total: u32,
    /// Those to which another reply came, in their order.
    pub wrong_replies: Vec<WrongReply>,
    /// Those without a result, in their order.
    pub missing: Vec<NumberRange>,
}

/// How many numbers some ranges have.
pub(crate) fn count_of(ranges: &[NumberRange]) -> u32 {
    let mut count = 0u32;
    for numbers in ranges {
        count = count.saturating_add(numbers.count);
    }
    count
}

impl Comparison {
    ghost use Rattle.rt1553_results.specs.Compare.{told_reply, numbers_in};

    /// Whether each exchange has a result, and that is the reply of the terminal.
    pub fn passes(&self) -> bool
        ensures { IsTrue result ↔ ((map told_reply self.now.wrong_replies.items ≡ []) × (numbers_in self.now.missing.items ≡ [])) }
    {
        self.wrong_replies.is_empty() && self.missing.is_empty()
    }
}
