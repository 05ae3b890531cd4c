//! What came of a message at the terminals of a bus, and why it doesn't end well.
ghost use Rattle.std.specs.Prelude.{◌≡◌, ◌+◌, ◌∷◌, ◌++◌, ◌&&◌, not, [], List, IfOk, OnOk, length, filter};
ghost use Rattle.std.specs.List.{list_any};
ghost use Rattle.bus_word.specs.Command.{address_of};
ghost use Rattle.message_rows.specs.Commands.{named_command};
ghost use Rattle.tool_buses.specs.EndsWell.{MessageAt, put_commands, is_done_at, is_faulty_at, is_same_command, is_told_done, is_message_of, is_of_others, is_transmitter_at, is_unheard_by, profile_has, command_reasons, transmitter_reasons, trouble_count, unheard_reasons, reason_count, at_receivers};
ghost use Rattle.tool_buses.specs.Troubles.{command_trouble};
ghost use Rattle.tool_buses.specs.inner.Results.{message_of_terminal, IsResultOf, AreResultsAt};

use crate::legal::legal_text;
use crate::names::{has_profile, normal_at};
use crate::trouble::{CommandTrouble, command_trouble};
use bus_reports::PutMessage;
use bus_word::Command;
use message_rows::{MessageCommands, is_faulty, row_cells};
use rt1553::Normal;
use std::alloc::{AllocError, Global};
use terminal_messages::{KeptMessage, MessageEnding};

/// The address of all terminals.
const ALL_TERMINALS: u8 = 31;
/// Which of the cells of a row tells how it ended, and why.
const ENDED_CELL: usize = 7;

/// What is told of a message at a terminal.
#[derive(Drop)]
struct ToldEnd {
    /// The address of its terminal.
    address: u8,
    /// How the message ended there.
    text: String,
    is_illegal: bool,
    /// Something stands behind that already.
    has_cause: bool,
}

/// What came of a command of a message.
#[derive(Drop)]
pub struct CommandResult {
    /// The addresses of the terminals that have a message of it.
    seen_at: Vec<u8>,
    /// It is done at a terminal.
    is_done: bool,
    /// What is told of these.
    told: Vec<ToldEnd>,
}

/// What came of a message that was put on a bus.
#[derive(Drop)]
pub struct MessageResult {
    /// At the terminals to which its first command speaks.
    first: CommandResult,
    /// At the terminal that transmits in a transfer.
    second: CommandResult,
}

/// How a message ended at the terminal of this address, and why, as a list of messages tells it.
fn end_reason(alloc: Global, address: u8, message: &KeptMessage) -> Result<String, AllocError> {
    let cells = row_cells(alloc, message, None)?;
    let ended = match cells.as_slice().get(ENDED_CELL) {
        Some(cell) => cell.as_str(),
        None => "",
    };
    format!(in alloc; "terminal {address:02}: {ended}")
}

/// What is told of a command to this address.
fn command_reason(
    alloc: Global,
    address: u8,
    trouble: CommandTrouble,
) -> Result<String, AllocError> {
    match trouble {
        CommandTrouble::NoProfile => format!(in alloc; "no profile has address {address:02}"),
        CommandTrouble::NoRow => format!(in alloc;
            "terminal {address:02}: takes it for no message"
        ),
        CommandTrouble::NoTaker => format!(in alloc; "no terminal takes the broadcast"),
    }
}

/// Whether two command words are the same, if there are any.
fn is_same_command(one: Option<Command>, other: Option<Command>) -> bool
    ensures { result ≡ is_same_command one other }
{
    match (one, other) {
        (None, None) => true,
        (Some(one), Some(other)) => one.bits() == other.bits(),
        _ => false,
    }
}

/// Whether a message ended as one for other terminals.
fn is_of_others(end: MessageEnding) -> bool
    ensures { result ≡ is_of_others end }
{
    matches!(end, MessageEnding::Other)
}

/// Whether a message ended as one that is done.
fn is_told_done(end: MessageEnding) -> bool
    ensures { result ≡ is_told_done end }
{
    matches!(end, MessageEnding::Done)
}

/// Whether a message of the terminal of this address is the one that was put on the bus: the same command speaks to the terminal.
fn is_message_of(put: PutMessage, address: u8, message: &KeptMessage) -> bool
    ensures { result ≡ is_message_of put (message_of_terminal address message.now) }
{
    let commands = MessageCommands {
        command: Command::of(put.command),
        transmitter: put.transmitter.map(Command::of),
    };
    !is_of_others(message.state.end)
        && is_same_command(
            commands.named(address),
            MessageCommands::of(message).named(address),
        )
}

/// Whether the terminal of this address is the one that transmits in a transfer, whose second command word this is.
pub fn is_transmitter_at(transmitter: Option<u16>, address: u8) -> bool
    ensures { result ≡ is_transmitter_at transmitter address }
{
    match transmitter {
        Some(word) => Command::of(word).address() == address,
        None => false,
    }
}

impl ToldEnd {
    /// What is legal where this command was illegal.
    fn legal(
        &self,
        alloc: Global,
        command: Command,
        normals: &[Normal],
    ) -> Result<Option<String>, AllocError> {
        match normal_at(normals, self.address) {
            Some(normal) if self.is_illegal => legal_text(alloc, normal, command),
            _ => Ok(None),
        }
    }

    /// How the message of this command ended; where it was illegal, with what is legal there.
    fn reason(
        &self,
        alloc: Global,
        command: Command,
        normals: &[Normal],
    ) -> Result<String, AllocError> {
        let mut reason = String::from_str(alloc, self.text.as_str())?;
        if let Some(legal) = self.legal(alloc, command, normals)? {
            reason.push_str(if self.has_cause { ", " } else { ": " })?;
            reason.push_str(legal.as_str())?;
        }
        Ok(reason)
    }
}

/// Adds what is told of the message of a terminal, if it is not done, or lacks its reply.
fn push_faulty(
    alloc: Global,
    told: &mut Vec<ToldEnd>,
    address: u8,
    message: &KeptMessage,
) -> Result<(), AllocError>
    ensures { OnOk result (length told.new.items ≡ length told.old.items + length (filter is_faulty_at (message_of_terminal address message.now ∷ []))) }
{
    if is_faulty(message) {
        told.push(ToldEnd {
            address,
            text: end_reason(alloc, address, message)?,
            is_illegal: matches!(message.state.end, MessageEnding::Illegal),
            has_cause: message.state.unsent.is_some(),
        })?;
    }
    Ok(())
}

/// Adds what is told of a command to this address, if something is.
fn push_trouble(
    alloc: Global,
    address: u8,
    trouble: Option<CommandTrouble>,
    reasons: &mut Vec<String>,
) -> Result<(), AllocError>
    ensures { OnOk result (length reasons.new.items ≡ length reasons.old.items + trouble_count trouble) }
{
    if let Some(trouble) = trouble {
        reasons.push(command_reason(alloc, address, trouble)?)?;
    }
    Ok(())
}

/// Whether a terminal with this broadcast option is to receive a broadcast that it does not transmit, and does not hear it.
fn misses(broadcast: bool, is_transmitter: bool, is_heard: bool) -> bool
    ensures { result ≡ broadcast && (not is_transmitter && not is_heard) }
{
    broadcast && !is_transmitter && !is_heard
}

impl CommandResult {
    /// Nothing came of it yet.
    fn none(alloc: Global) -> CommandResult
        ensures { IsResultOf [] result }
    {
        CommandResult {
            seen_at: Vec::new(alloc),
            is_done: false,
            told: Vec::new(alloc),
        }
    }

    /// Takes the message of a terminal.
    fn take(&mut self, alloc: Global, address: u8, message: &KeptMessage) -> Result<(), AllocError>
        ensures { OnOk result ((ms : List MessageAt) → IsResultOf ms self.old → IsResultOf (ms ++ message_of_terminal address message.now ∷ []) self.new) }
    {
        self.seen_at.push(address)?;
        self.is_done |= is_told_done(message.state.end);
        push_faulty(alloc, &mut self.told, address, message)
    }

    /// Adds what is told of the messages of terminals.
    fn push_told(
        &self,
        alloc: Global,
        command: Command,
        normals: &[Normal],
        reasons: &mut Vec<String>,
    ) -> Result<(), AllocError>
        ensures { OnOk result (length reasons.new.items ≡ length reasons.old.items + length self.now.told.items) }
    {
        for told in self.told.as_slice() {
            reasons.push(told.reason(alloc, command, normals)?)?;
        }
        Ok(())
    }

    /// Adds why this command doesn't end well at terminals of profiles, if it doesn't.
    fn push_reasons(
        &self,
        alloc: Global,
        command: Command,
        normals: &[Normal],
        reasons: &mut Vec<String>,
    ) -> Result<(), AllocError>
        ensures { OnOk result ((ms : List MessageAt) → IsResultOf ms self.now → length reasons.new.items ≡ length reasons.old.items + command_reasons normals.now (address_of command) ms) }
    {
        let address = command.address();
        let trouble = command_trouble(
            address == ALL_TERMINALS,
            has_profile(normals, address),
            !self.seen_at.is_empty(),
            self.is_done,
        );
        push_trouble(alloc, address, trouble, reasons)?;
        self.push_told(alloc, command, normals, reasons)
    }

    /// Whether the terminal of a profile is to receive the broadcast, and has no message of it.
    fn is_unheard_by(&self, put: PutMessage, normal: &Normal) -> bool
        ensures { (ms : List MessageAt) → IsResultOf ms self.now → result ≡ is_unheard_by put ms normal.now }
    {
        misses(
            normal.broadcast(),
            is_transmitter_at(put.transmitter, normal.address()),
            self.seen_at.as_slice().contains(&normal.address()),
        )
    }

    /// Adds the terminals that are to receive the broadcast, and have no message of it.
    fn push_unheard(
        &self,
        alloc: Global,
        put: PutMessage,
        normals: &[Normal],
        reasons: &mut Vec<String>,
    ) -> Result<(), AllocError>
        ensures { OnOk result ((ms : List MessageAt) → IsResultOf ms self.now → length reasons.new.items ≡ length reasons.old.items + length (filter (is_unheard_by put ms) normals.now)) }
    {
        for normal in normals {
            let trouble = if self.is_unheard_by(put, normal) {
                Some(CommandTrouble::NoRow)
            } else {
                None
            };
            push_trouble(alloc, normal.address(), trouble, reasons)?;
        }
        Ok(())
    }

    /// The same of a command that may be a broadcast.
    fn push_unheard_of(
        &self,
        alloc: Global,
        put: PutMessage,
        normals: &[Normal],
        reasons: &mut Vec<String>,
    ) -> Result<(), AllocError>
        ensures { OnOk result ((ms : List MessageAt) → IsResultOf ms self.now → length reasons.new.items ≡ length reasons.old.items + unheard_reasons put normals.now ms) }
    {
        if Command::of(put.command).address() == ALL_TERMINALS {
            return self.push_unheard(alloc, put, normals, reasons);
        }
        Ok(())
    }
}

impl MessageResult {
    /// Nothing came of it yet.
    pub fn none(alloc: Global) -> MessageResult
        ensures { (put : PutMessage) → AreResultsAt put [] result }
    {
        MessageResult {
            first: CommandResult::none(alloc),
            second: CommandResult::none(alloc),
        }
    }

    /// Takes a message of the terminal of this address, if it is this one.
    pub fn take(
        &mut self,
        alloc: Global,
        put: PutMessage,
        address: u8,
        message: &KeptMessage,
    ) -> Result<(), AllocError>
        ensures { OnOk result ((ms : List MessageAt) → AreResultsAt put ms self.old → AreResultsAt put (ms ++ message_of_terminal address message.now ∷ []) self.new) }
    {
        if !is_message_of(put, address, message) {
            return Ok(());
        }
        if is_transmitter_at(put.transmitter, address) {
            self.second.take(alloc, address, message)
        } else {
            self.first.take(alloc, address, message)
        }
    }

    /// Adds why the transmitter of a transfer doesn't end it well, if there is one and it doesn't.
    fn push_of_transmitter(
        &self,
        alloc: Global,
        put: PutMessage,
        normals: &[Normal],
        reasons: &mut Vec<String>,
    ) -> Result<(), AllocError>
        ensures { OnOk result ((ms : List MessageAt) → IsResultOf ms self.now.second → length reasons.new.items ≡ length reasons.old.items + transmitter_reasons normals.now put.transmitter ms) }
    {
        match put.transmitter {
            Some(word) => self
                .second
                .push_reasons(alloc, Command::of(word), normals, reasons),
            None => Ok(()),
        }
    }

    /// Why a message that was put on the bus doesn't end well at terminals of profiles; empty where it does. What the transmitter of a
    /// transfer does comes first, since the receiver's fault may come of it.
    pub fn reasons(
        &self,
        alloc: Global,
        put: PutMessage,
        normals: &[Normal],
    ) -> Result<Vec<String>, AllocError>
        ensures { IfOk result (λ reasons. (ms : List MessageAt) → AreResultsAt put ms self.now → length reasons.items ≡ reason_count put normals.now ms) }
    {
        let mut reasons = Vec::new(alloc);
        self.push_of_transmitter(alloc, put, normals, &mut reasons)?;
        let command = Command::of(put.command);
        self.first
            .push_reasons(alloc, command, normals, &mut reasons)?;
        self.first
            .push_unheard_of(alloc, put, normals, &mut reasons)?;
        Ok(reasons)
    }
}
