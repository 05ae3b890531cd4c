//! To which messages events belong that are not answered as stated.
ghost use Rattle.std.specs.Prelude.{◌≡◌, ◌++◌, None, IfOk, OnOk, map};
ghost use Rattle.rt1553_verify.specs.Stated.{shown};
ghost use Rattle.rt1553_verify.specs.Verify.{told_answer};
ghost use Rattle.rt1553_verify.specs.Commands.{command_after, is_next, command_if, told_behind, commands_from};

use crate::{Stated, WrongAnswer};
use bus_terminal::Event;
use std::alloc::{AllocError, Global};

/// The command word of the message in progress after an event, by that before it: a valid command for the terminal of this address,
/// or for all terminals, begins another message.
pub fn command_after(address: u8, before: Option<u16>, event: Event) -> Option<u16>
    ensures { result ≡ command_after address before event }
{
    match event {
        Event::Word(_, word) if word.is_for(address, true) => Some(word.bits),
        _ => before,
    }
}

/// Whether the first of what differs is the event of this line.
fn is_next(line: u64, wrong: &[WrongAnswer]) -> bool
    ensures { result ≡ is_next line (map told_answer wrong.now) }
{
    match wrong {
        [first, ..] => first.line == line,
        [] => false,
    }
}

/// Adds a command word, if its event is told.
fn push_if(
    commands: &mut Vec<Option<u16>>,
    is_told: bool,
    command: Option<u16>,
) -> Result<(), AllocError>
    ensures { OnOk result (commands.new.items ≡ commands.old.items ++ command_if is_told command) }
{
    if is_told {
        commands.push(command)?;
    }
    Ok(())
}

/// What is told of later events.
fn behind(wrong: &[WrongAnswer], is_told: bool) -> &[WrongAnswer]
    ensures { map told_answer result.now ≡ told_behind is_told (map told_answer wrong.now) }
{
    match wrong {
        [_, others @ ..] if is_told => others,
        _ => wrong,
    }
}

/// The command word of the message to which each event belongs that was not answered as stated: that of the last valid command at or
/// before the event that is for the terminal of this address, or for all. None where there is none. `wrong` is what `wrong_answers` tells
/// of the script.
pub fn message_commands(
    alloc: Global,
    address: u8,
    script: &[Stated],
    wrong: &[WrongAnswer],
) -> Result<Vec<Option<u16>>, AllocError>
    ensures { IfOk result (λ commands. commands.items ≡ commands_from address None (map shown script.now) (map told_answer wrong.now)) }
{
    let mut commands = Vec::new(alloc);
    let mut latest = None;
    let mut rest = wrong;
    for stated in script {
        latest = command_after(address, latest, stated.event);
        let is_told = is_next(stated.line, rest);
        push_if(&mut commands, is_told, latest)?;
        rest = behind(rest, is_told);
    }
    Ok(commands)
}
