//! What the results of a unit tell of it.
use message_names::quoted;
use rt1553_verify::{NumberRange, WrongReply};
use std::alloc::{AllocError, Global};

/// A reply of a unit that is not that of the terminal.
#[derive(Drop)]
pub struct ReplyDifference {
    /// The line of its row in the table of results.
    pub line: u64,
    /// The name of its message, where there are names and it has one.
    pub name: Option<String>,
    pub reply: WrongReply,
}

/// What the results of a unit tell of it.
#[derive(Drop)]
pub struct UnitVerdict {
    /// How many exchanges the acceptance test has.
    pub exchanges: u32,
    /// The replies that are not those of the terminal, in their order.
    pub differences: Vec<ReplyDifference>,
    /// The exchanges without a result, in their order.
    pub missing: Vec<NumberRange>,
    /// Whether there are names of messages.
    pub has_names: bool,
    /// The verdict: one line.
    pub text: String,
}

impl ReplyDifference {
    /// What follows the line of its row: its exchange, the name of its message, the first word that differs, and both replies. One line.
    pub fn told(&self, alloc: Global) -> Result<String, AllocError> {
        let mut text = String::new(alloc);
        write!(text, "{}: ", self.reply.number)?;
        if let Some(name) = &self.name {
            write!(text, "{}: ", quoted(alloc, name.as_str())?.as_str())?;
        }
        write!(
            text,
            "command {:04x}, word {}: {}",
            self.reply.command,
            self.reply.differing_word(),
            self.reply
        )?;
        Ok(text)
    }
}

impl UnitVerdict {
    ghost use Rattle.std.specs.Prelude.{◌≡◌};
    ghost use Rattle.rt1553_report.specs.Unit.{unit_passes};

    /// Whether each exchange has a result, and no reply differs.
    pub fn passes(&self) -> bool
        ensures { result ≡ unit_passes self.now }
    {
        self.differences.is_empty() && self.missing.is_empty()
    }
}
