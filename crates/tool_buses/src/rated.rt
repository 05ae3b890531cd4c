//! The rates of messages, as comments tell them.
ghost use Rattle.std.specs.Prelude.{◌<◌, length};

use crate::messages::FileMessage;
use bus_reports::{PutMessage, RateGroup, RateLine, rate_line};
use refused_lines::first_line;
use std::alloc::{AllocError, Global};
use tool_files::LoadedScript;

/// The rates of a file, and the lines that tell none.
#[derive(Drop)]
pub struct FileRates {
    /// The rates that comments tell, with the messages that are sent at each.
    pub groups: Vec<RateGroup>,
    /// The lines of the file with comments that look like a rate, and are none.
    pub wrong: Vec<u64>,
    /// The messages to come are sent at the last rate.
    is_rated: bool,
}

impl FileRates {
    /// Takes note of what a line of the script tells, which stands for this line of the file.
    fn note_line(&mut self, alloc: Global, text: &[u8], line: u64) -> Result<(), AllocError> {
        match rate_line(text) {
            RateLine::Rate(0) => self.is_rated = false,
            RateLine::Rate(rate) => {
                self.is_rated = true;
                self.groups.push(RateGroup {
                    line,
                    rate,
                    messages: Vec::new(alloc),
                })?;
            }
            RateLine::Wrong => self.wrong.push(line)?,
            RateLine::Other => {}
        }
        Ok(())
    }

    /// Adds a message to those of the last rate, if it is sent at that.
    fn add(&mut self, put: PutMessage) -> Result<(), AllocError> {
        let last = self.groups.len().saturating_sub(1);
        match self.groups.as_mut_slice().get_mut(last) {
            Some(group) if self.is_rated => Ok(group.messages.push(put)?),
            _ => Ok(()),
        }
    }
}

/// The rates of the messages of a script, which are in the order of their lines.
pub fn rates_in(
    alloc: Global,
    script: &LoadedScript,
    messages: &[FileMessage],
) -> Result<FileRates, AllocError> {
    let mut rates = FileRates {
        groups: Vec::new(alloc),
        wrong: Vec::new(alloc),
        is_rated: false,
    };
    let mut rest = script.text.as_slice();
    let mut number = 1u64;
    let mut next = 0usize;
    while !rest.is_empty() {
        let (text, more) = first_line(rest);
        rates.note_line(alloc, text, script.line_in_file(number))?;
        if let Some(message) = messages.get(next)
            && message.said_at == number
        {
            rates.add(message.put)?;
            next = next.saturating_add(1);
        }
        number = number.saturating_add(1);
        rest = more;
    }
    Ok(rates)
}
