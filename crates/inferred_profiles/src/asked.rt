//! What a recording asks of a terminal.
use crate::cells::{no_cells, turn};
use bus_legal::{Legality, Tables};
use bus_terminal::{Event, Sent};
use bus_word::{Command, Kind, cell_of};
use recorded_terminal::Marked;

/// The bit of a status word that says that dynamic bus control is accepted (MIL-STD-1553B, 4.3.3.5.3.10).
const ACCEPTANCE: u16 = 0x0002;

/// What a recording asks of a terminal.
#[derive(Clone, Copy)]
pub struct Asked {
    /// The cells of its commands.
    pub cells: Tables,
    /// Whether one of them is to all terminals.
    pub broadcast: bool,
    /// The line of the first status word in which dynamic bus control is accepted.
    pub accepted: Option<u64>,
}

/// Whether this is a status word in which dynamic bus control is accepted.
fn accepts(sent: Option<Sent>) -> bool {
    match sent {
        Some(sent) => sent.kind == Kind::Com && sent.bits & ACCEPTANCE != 0,
        None => false,
    }
}

/// The command of a word for this terminal, or for all.
fn command_in(address: u8, event: Event) -> Option<Command> {
    match event {
        Event::Word(_, word) if word.is_for(address, true) => Some(Command::of(word.bits)),
        _ => None,
    }
}

impl Asked {
    /// Adds a command.
    fn add(&mut self, command: Command) {
        self.broadcast = self.broadcast || command.is_broadcast();
        if let Some(cell) = cell_of(command) {
            if !self.cells.legal(cell) {
                turn(&mut self.cells, cell);
            }
        }
    }
}

/// What a recording asks of the terminal of this address.
pub fn asked_in(address: u8, recording: &[Marked]) -> Asked {
    let mut asked = Asked {
        cells: no_cells(),
        broadcast: false,
        accepted: None,
    };
    for marked in recording {
        if let Some(command) = command_in(address, marked.sighting.event) {
            asked.add(command);
        }
        if asked.accepted.is_none() && accepts(marked.sighting.sent) {
            asked.accepted = Some(marked.line);
        }
    }
    asked
}
