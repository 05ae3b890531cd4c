//! The list of the messages on the page of a drawing.
use bus_legal::Normal;
use message_names::MessageNames;
use message_rows::{MessageCommands, row_cells};
use refused_lines::{first_line, line_in_file};
use report_pages::{push_list_end, push_list_front, push_list_row};
use rt1553_draw::DrawnScript;
use script_lines::read_event;
use std::alloc::{AllocError, Global};
use terminal_messages::{ClosedMessages, KeptMessage, MessageWatch};
use tool_names::name_of_command;

/// What the rows of the list have in common.
#[derive(Clone, Copy)]
struct ListWriter<'a> {
    alloc: Global,
    /// The address of the terminal, 0 to 30.
    own: u8,
    names: Option<&'a MessageNames>,
}

impl<'a> ListWriter<'a> {
    /// The name of a message, where it has one.
    fn name_of(&self, message: &KeptMessage) -> Option<&'a str> {
        let names = self.names?;
        let command = MessageCommands::of(message).named(self.own)?;
        name_of_command(names, command.bits())
    }

    /// Writes the row of a message.
    fn push_row(&self, page: &mut String, message: &KeptMessage) -> Result<(), AllocError> {
        let cells = row_cells(self.alloc, message, self.name_of(message))?;
        push_list_row(self.alloc, page, message, cells.as_slice())
    }

    /// Writes the rows of messages that are over.
    fn push_closed(&self, page: &mut String, closed: ClosedMessages) -> Result<(), AllocError> {
        for message in [&closed.first, &closed.second, &closed.unheard] {
            if let Some(message) = message {
                self.push_row(page, message)?;
            }
        }
        Ok(())
    }

    /// Plays a line of this number, if it has an event, and writes the rows of the messages that are over then.
    fn play_line(
        &self,
        watch: &mut MessageWatch<Normal>,
        page: &mut String,
        number: u64,
        line: &[u8],
    ) -> Result<(), AllocError> {
        match read_event(line) {
            Ok(Some(event)) => self.push_closed(page, watch.step(event, number)),
            _ => Ok(()),
        }
    }

    /// Plays a script, and writes the rows of its messages.
    fn push_rows(
        &self,
        watch: &mut MessageWatch<Normal>,
        page: &mut String,
        script: DrawnScript<'_>,
    ) -> Result<(), AllocError> {
        let mut rest = script.text;
        let mut lines = 0u64;
        while !rest.is_empty() {
            let (line, more) = first_line(rest);
            lines = lines.saturating_add(1);
            let number = line_in_file(script.sources, lines);
            self.play_line(watch, page, number, line)?;
            rest = more;
        }
        self.push_closed(page, watch.end())
    }
}

/// The messages of a run as a list, by a script that has no fault. Lines are numbered as in its drawing.
pub fn messages_list(
    alloc: Global,
    normal: &Normal,
    names: Option<&MessageNames>,
    script: DrawnScript<'_>,
) -> Result<String, AllocError> {
    let writer = ListWriter {
        alloc,
        own: normal.address(),
        names,
    };
    let mut watch = MessageWatch::power_up(normal.setup(), *normal);
    let mut page = String::new(alloc);
    push_list_front(&mut page)?;
    writer.push_rows(&mut watch, &mut page, script)?;
    push_list_end(&mut page)?;
    Ok(page)
}
