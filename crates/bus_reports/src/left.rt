//! What is told of what lines leave behind.
ghost use Rattle.std.specs.Prelude.{◌≡◌, ◌++◌, flat_map, IfOk, OnOk};
ghost use Rattle.std.specs.Option.{option_map};
ghost use Rattle.std.specs.String.{string_bytes};
ghost use Rattle.bus_reports.specs.Lefts.{left_bus, bus_told, left_words, left_told, left_line};

use crate::judged::PartLeft;
use crate::told::letter_of;
use std::alloc::{AllocError, Global};
use terminal_schedules::{LeftAt, LeftBehind};

/// The bus of what is left behind, where it is on one.
pub(crate) fn left_bus(what: LeftBehind) -> Option<&'static str>
    ensures { option_map (λ letter. letter.now) result ≡ left_bus what }
{
    match what {
        LeftBehind::Message(bus) | LeftBehind::WordInRun(bus) | LeftBehind::ShutDown(bus) => {
            Some(letter_of(bus))
        }
        _ => None,
    }
}

/// The name of what is left behind.
pub(crate) fn left_name(what: LeftBehind) -> &'static str {
    match what {
        LeftBehind::Message(_) => "message",
        LeftBehind::WordInRun(_) => "word",
        LeftBehind::Reply => "reply",
        LeftBehind::ShutDown(_) => "shutdown",
        LeftBehind::Busy => "busy",
        LeftBehind::MessageError => "error",
    }
}

/// How a terminal is left, behind its address, without the bus.
fn left_how(what: LeftBehind) -> &'static str
    ensures { left_words what ≡ result.now ++ bus_told (left_bus what) }
{
    match what {
        LeftBehind::Message(_) => "in a message on bus ",
        LeftBehind::WordInRun(_) => "with a word and no gap behind it on bus ",
        LeftBehind::Reply => "with a reply to send",
        LeftBehind::ShutDown(_) => "with its transmitter shut down on bus ",
        LeftBehind::Busy => "busy",
        LeftBehind::MessageError => "with message error in the status that it keeps",
    }
}

/// The letter of the bus of what is left behind; nothing where it is on none.
fn bus_told(what: LeftBehind) -> &'static str
    ensures { result.now ≡ bus_told (left_bus what) }
{
    match left_bus(what) {
        Some(letter) => letter,
        None => "",
    }
}

/// What is told of what is left at a terminal.
pub(crate) fn left_text(alloc: Global, left: LeftAt) -> Result<String, AllocError>
    ensures { IfOk result (λ told. string_bytes told ≡ left_told left) }
{
    let (how, bus) = (left_how(left.what), bus_told(left.what));
    let (tens, ones) = (left.address / 10, left.address % 10);
    format!(in alloc; "leaves terminal {tens}{ones} {how}{bus}")
}

/// Adds the line that tells what a line of the file of this name, as it is printed, leaves behind, if it leaves anything.
fn push_left(
    alloc: Global,
    text: &mut String,
    file: &str,
    part: &PartLeft,
) -> Result<(), AllocError>
    ensures { OnOk result (string_bytes text.new ≡ string_bytes text.old ++ left_line file.now part.now) }
{
    match part.left {
        Some(left) => {
            let told = left_text(alloc, left)?;
            write!(text, "{file}:{}: {}\n", part.line, told.as_str())
        }
        None => Ok(()),
    }
}

/// Adds the lines that tell what lines of the file of this name, as it is printed, leave behind.
pub(crate) fn push_lefts(
    alloc: Global,
    text: &mut String,
    file: &str,
    lefts: &[PartLeft],
) -> Result<(), AllocError>
    ensures { OnOk result (string_bytes text.new ≡ string_bytes text.old ++ flat_map (left_line file.now) lefts.now) }
{
    for part in lefts {
        push_left(alloc, text, file, part)?;
    }
    Ok(())
}
