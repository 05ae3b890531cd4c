//! The words that stand for the message in progress.
ghost use Rattle.std.specs.Prelude.{◌≡◌, Some};
ghost use Rattle.rt1553_live.specs.Numbers.{byte, phase_number, phase_address, has_words, phase_from, words_collected, message_numbers, message_from, IsCounted};

use crate::message::SavedMessage;
use crate::numbers::{bus_from, bus_number, byte, wide};
use bus_word::Command;
use terminal_state::{Collected, Phase};

/// The number of a phase.
fn phase_number(phase: Phase) -> u16
    ensures { result ≡ phase_number phase }
{
    match phase {
        Phase::Collects(Collected::Words) => 1,
        Phase::Collects(Collected::Transmitter(_)) => 2,
        Phase::Collects(Collected::Spoilt) => 3,
        Phase::Waits(_) => 4,
        Phase::Resumes(Collected::Words) => 5,
        Phase::Resumes(Collected::Transmitter(_)) => 6,
        Phase::Resumes(Collected::Spoilt) => 7,
    }
}

/// The address of the other terminal of a phase, or 0.
fn phase_address(phase: Phase) -> u8
    ensures address { result ≡ phase_address phase }
    ensures back { phase_from (phase_number phase) (byte (phase_address phase)) ≡ Some phase }
{
    match phase {
        Phase::Collects(Collected::Transmitter(address)) => address,
        Phase::Waits(address) => address,
        Phase::Resumes(Collected::Transmitter(address)) => address,
        _ => 0,
    }
}

/// Says whether data words are collected in a phase, and nothing else.
pub fn has_words(phase: Phase) -> bool
    ensures { result ≡ has_words phase }
{
    matches!(
        phase,
        Phase::Collects(Collected::Words) | Phase::Resumes(Collected::Words)
    )
}

/// The phase for which a number and an address stand.
fn phase_from(number: u16, address: u8) -> Option<Phase>
    ensures { result ≡ phase_from number address }
{
    match number {
        1 => Some(Phase::Collects(Collected::Words)),
        2 => Some(Phase::Collects(Collected::Transmitter(address))),
        3 => Some(Phase::Collects(Collected::Spoilt)),
        4 => Some(Phase::Waits(address)),
        5 => Some(Phase::Resumes(Collected::Words)),
        6 => Some(Phase::Resumes(Collected::Transmitter(address))),
        7 => Some(Phase::Resumes(Collected::Spoilt)),
        _ => None,
    }
}

/// How many words were collected, if there can be so many.
fn words_collected(phase: Phase, count: u16) -> u8
    ensures { result ≡ words_collected phase count }
{
    if has_words(phase) && count < 33 {
        count as u8
    } else {
        0
    }
}

/// The words that stand for the message in progress, or for none.
pub fn words_of(message: &Option<SavedMessage>) -> [u16; 5]
    ensures words { result ≡ message_numbers message.now }
    ensures back { IsCounted message.now → message_from result ≡ message.now }
{
    match message {
        None => [0; 5],
        Some(message) => [
            phase_number(message.phase),
            bus_number(message.bus),
            message.command.bits(),
            wide(phase_address(message.phase)),
            wide(message.count),
        ],
    }
}

/// The message in progress for which words stand, or none.
pub fn message_from(words: &[u16; 5]) -> Option<SavedMessage>
    ensures message { result ≡ message_from words.now }
    ensures counted { IsCounted result }
{
    match phase_from(words[0], byte(words[3])) {
        Some(phase) => Some(SavedMessage {
            bus: bus_from(words[1]),
            command: Command::of(words[2]),
            phase,
            count: words_collected(phase, words[4]),
        }),
        None => None,
    }
}
