//! The messages of a file, and what comes of each on a bus.
ghost use Rattle.std.specs.Prelude.{◌≡◌};
ghost use Rattle.tool_buses.specs.EndsWell.{command_put, message_put};

use crate::ended::MessageResult;
use crate::parts::ScriptPart;
use crate::watch::TakesMessages;
use bus_reports::PutMessage;
use bus_word::Bus;
use rt1553::Event;
use std::alloc::{AllocError, Global};
use terminal_bus::BusEvent;
use terminal_messages::KeptMessage;
use tool_files::ToolFault;

/// A message of a file, and what came of it.
#[derive(Drop)]
pub struct FileMessage {
    alloc: Global,
    /// The line of the script with its first event, from 1.
    pub said_at: u64,
    /// Its commands.
    pub put: PutMessage,
    /// What came of it in the run.
    pub in_run: MessageResult,
}

/// A command that is of no message.
#[derive(Clone, Copy)]
struct LoneCommand {
    word: u16,
    /// How many events come before it.
    place: usize,
}

/// The messages of a file in their order.
#[derive(Drop)]
pub struct FileMessages {
    pub items: Vec<FileMessage>,
}

/// The messages of a file, and for each event of its script the number of its message, from 1; 0 where it is of none. A lone command has
/// the number of the message behind it, which makes a transfer with it for terminals that hear no gap between them.
#[derive(Drop)]
pub struct FoundMessages {
    pub messages: FileMessages,
    pub numbers: Vec<u64>,
    /// The last lone command on bus A behind the messages there.
    lone_a: Option<LoneCommand>,
    /// The same of bus B.
    lone_b: Option<LoneCommand>,
}

impl TakesMessages for FileMessages {
    fn take(&mut self, address: u8, message: &KeptMessage) -> Result<(), ToolFault> {
        if message.place == 0 {
            return Ok(());
        }
        match self
            .items
            .as_mut_slice()
            .get_mut((message.place - 1) as usize)
        {
            Some(of_file) => Ok(
                of_file
                    .in_run
                    .take(of_file.alloc, of_file.put, address, message)?,
            ),
            None => Ok(()),
        }
    }
}

/// The command word that an event puts on a bus.
fn command_in(event: &BusEvent) -> Option<(Bus, u16)>
    ensures { result ≡ command_put event.now }
{
    match event {
        BusEvent::OnBus(Event::Word(bus, word)) if word.is_command() => Some((*bus, word.bits)),
        _ => None,
    }
}

/// The message that these events are: two or more, of which the first is a command. The second may be one, too.
pub fn put_by(events: &[BusEvent]) -> Option<PutMessage>
    ensures { result ≡ message_put events.now }
{
    match events {
        [first, second, ..] => match command_in(first) {
            Some((bus, command)) => Some(PutMessage {
                bus,
                command,
                transmitter: match command_in(second) {
                    Some((_, word)) => Some(word),
                    None => None,
                },
            }),
            None => None,
        },
        _ => None,
    }
}

impl FoundMessages {
    /// Adds the message that a part is.
    fn begin(
        &mut self,
        alloc: Global,
        part: &ScriptPart,
        put: PutMessage,
    ) -> Result<(), AllocError> {
        self.messages.items.push(FileMessage {
            alloc,
            said_at: part.said_at,
            put,
            in_run: MessageResult::none(alloc),
        })?;
        self.number_lone(put);
        Ok(())
    }

    /// Takes note of an event that is of no message.
    fn note_lone(&mut self, event: &BusEvent) {
        if let Some((bus, word)) = command_in(event) {
            let lone = Some(LoneCommand {
                word,
                place: self.numbers.len(),
            });
            match bus {
                Bus::A => self.lone_a = lone,
                Bus::B => self.lone_b = lone,
            }
        }
    }

    /// Gives the lone command before the message that came last its number, if it may be the first of a transfer.
    fn number_lone(&mut self, put: PutMessage) {
        let lone = match put.bus {
            Bus::A => self.lone_a.take(),
            Bus::B => self.lone_b.take(),
        };
        let count = self.messages.items.len() as u64;
        if let Some(lone) = lone
            && lone.word != put.command
            && put.transmitter.is_none()
            && let Some(number) = self.numbers.as_mut_slice().get_mut(lone.place)
        {
            *number = count;
        }
    }

    /// Takes note of a part that is no message.
    fn note_others(&mut self, part: &ScriptPart) -> Result<(), AllocError> {
        for event in part.events.as_slice() {
            self.note_lone(event);
            self.numbers.push(0)?;
        }
        Ok(())
    }

    /// Takes note of a part.
    fn note(&mut self, alloc: Global, part: &ScriptPart) -> Result<(), AllocError> {
        let Some(put) = put_by(part.events.as_slice()) else {
            return self.note_others(part);
        };
        self.begin(alloc, part, put)?;
        let number = self.messages.items.len() as u64;
        for _event in part.events.as_slice() {
            self.numbers.push(number)?;
        }
        Ok(())
    }
}

/// The messages of a file, by the parts of its script.
pub fn messages_in(alloc: Global, parts: &[ScriptPart]) -> Result<FoundMessages, AllocError> {
    let mut found = FoundMessages {
        messages: FileMessages {
            items: Vec::new(alloc),
        },
        numbers: Vec::new(alloc),
        lone_a: None,
        lone_b: None,
    };
    for part in parts {
        found.note(alloc, part)?;
    }
    Ok(found)
}
