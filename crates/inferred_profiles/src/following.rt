//! A terminal of a guess follows a recording: what a status word says against the guess.
ghost use Rattle.std.specs.Prelude.{◌≤◌};

use crate::evidence::Evidence;
use crate::guess::Guess;
use bus_legal::{Legality, Tables};
use bus_terminal::{Answer, Event, Sent, Terminal};
use bus_word::{Cell, Kind, cell_of, mode};
use recorded_terminal::{Marked, Sighting, behaviour};
use std::alloc::{AllocError, Global};
use terminal_state::{Ended, reports_kept};

/// The bit of a status word for message error (MIL-STD-1553B, 4.3.3.5.3.3).
const MESSAGE_ERROR: u16 = 0x0400;

/// What comes of a guess.
#[derive(Drop)]
pub enum GuessOutcome {
    /// Its terminal sends what was seen, and this is shown.
    Follows(Evidence),
    /// A status word shows that this cell was guessed wrongly.
    Wrong(Cell),
    /// Something else differs.
    Differs,
}

/// The message that formed the kept status.
#[derive(Clone, Copy)]
struct KeptReport {
    cell: Cell,
    /// The line of its command.
    line: u64,
    /// Whether a later command that spares the kept status ended in error, which adds message error.
    added: bool,
}

/// A terminal that follows a recording.
#[derive(Drop)]
struct Following {
    terminal: Terminal<Tables>,
    /// The line of the command of the message in progress.
    line: u64,
    /// The message that formed the kept status, where one of a cell did.
    reported: Option<KeptReport>,
    evidence: Evidence,
}

/// The bits of a status word that is sent.
fn status_in(sent: Option<Sent>) -> Option<u16> {
    match sent {
        Some(sent) if sent.kind == Kind::Com => Some(sent.bits),
        _ => None,
    }
}

impl Following {
    /// Whether a command of this cell leaves the kept status as it is.
    fn spares(&self, cell: Option<Cell>) -> bool {
        match cell {
            Some(cell) => reports_kept(cell) && self.terminal.legality().legal(cell),
            None => false,
        }
    }

    /// Notes which message the kept status reports from now on.
    fn note_report(&mut self, cell: Option<Cell>) {
        let line = self.line;
        self.reported = cell.map(|cell| KeptReport {
            cell,
            line,
            added: false,
        });
    }

    /// Notes that message error was added to the kept status.
    fn note_error(&mut self) {
        if let Some(reported) = self.reported {
            self.reported = Some(KeptReport {
                added: true,
                ..reported
            });
        }
    }

    /// Notes how a message ended.
    fn note_end(&mut self, ended: &Ended) {
        match ended {
            Ended::Nothing => {}
            Ended::Badly(command) => if self.spares(cell_of(*command)) {
                self.note_error();
            } else {
                self.reported = None;
            },
            Ended::Illegal(command) => self.note_report(cell_of(*command)),
            Ended::Blocked(_, cell) => self.note_report(Some(*cell)),
            Ended::Done(_, cell) => if !reports_kept(*cell) {
                self.note_report(Some(*cell));
            },
        }
    }

    /// Notes the start of a message, if this word has started one.
    fn note_start(&mut self, marked: &Marked) {
        let Event::Word(bus, _) = marked.sighting.event else {
            return;
        };
        let Some(decoded) = self.terminal.kept().in_progress.fresh(bus) else {
            return;
        };
        self.line = marked.line;
        if !self.spares(decoded.cell) {
            self.reported = None;
        }
    }

    /// Takes what is seen, and gives the word that the terminal sends.
    fn take(&mut self, marked: &Marked) -> Option<Sent> {
        let ended = self.terminal.ending(marked.sighting.event);
        self.note_end(&ended);
        let sent = match self.terminal.step(marked.sighting.event) {
            Answer::Sends(sent) => Some(sent),
            _ => None,
        };
        self.note_start(marked);
        sent
    }

    /// Whether the word that is sent next is the last command, as only a legal own mode code 18 asks for it.
    fn sends_last_command(&self) -> bool {
        match self.terminal.next_word() {
            Some(next) => next.number == 1 && next.cell == Some(Cell::OwnMode(mode::LAST_COMMAND)),
            None => false,
        }
    }

    /// Adds what a word shows that is sent as it was seen.
    fn note_word(&mut self, sent: Option<Sent>, is_last_command: bool) -> Result<(), AllocError> {
        if let Some(status) = status_in(sent) {
            return self.note_status(status);
        }
        if sent.is_some() && is_last_command {
            let line = self.line;
            return self
                .evidence
                .add(Cell::OwnMode(mode::LAST_COMMAND), line, true);
        }
        Ok(())
    }

    /// Adds what a status word shows.
    fn note_status(&mut self, status: u16) -> Result<(), AllocError> {
        let Some(reported) = self.reported else {
            return Ok(());
        };
        let has_error = status & MESSAGE_ERROR != 0;
        if has_error && reported.added {
            return Ok(());
        }
        self.evidence.add(reported.cell, reported.line, !has_error)
    }

    /// The cell that was guessed wrongly, where the status word that is sent differs from the one that was seen in message error.
    fn wrong_cell(&self, sent: Option<Sent>, seen: Option<Sent>) -> Option<Cell> {
        match (status_in(sent), status_in(seen), self.reported) {
            (Some(sent), Some(seen), Some(reported)) if (sent ^ seen) & MESSAGE_ERROR != 0 => Some(
                reported.cell,
            ),
            _ => None,
        }
    }
}

/// Tells what comes of a guess: its terminal takes what is seen, and what the subsystem did, as the recording tells it.
pub fn outcome_of(
    alloc: Global,
    address: u8,
    guess: &Guess,
    sightings: &[Sighting],
    recording: &[Marked],
) -> Result<GuessOutcome, AllocError>
    requires { address ≤ 30 }
{
    let events = behaviour(alloc, guess.setup(address), guess.legal, sightings)?;
    let mut following = Following {
        terminal: Terminal::power_up(guess.setup(address), guess.legal),
        line: 0,
        reported: None,
        evidence: Evidence::none(alloc),
    };
    let mut number: usize = 0;
    'events: for event in events.as_slice() {
        match event {
            Event::Word(_, _) | Event::Noise(_) | Event::Gap(_) | Event::Slot => {
                let Some(marked) = recording.get(number) else {
                    return Ok(GuessOutcome::Differs);
                };
                number = number.saturating_add(1);
                let is_last_command = following.sends_last_command();
                let sent = following.take(marked);
                if marked.is_as_seen(sent) {
                    following.note_word(sent, is_last_command)?;
                } else {
                    return Ok(match following.wrong_cell(sent, marked.sighting.sent) {
                        Some(cell) => GuessOutcome::Wrong(cell),
                        None => GuessOutcome::Differs,
                    });
                }
            }
            _ => following.terminal.take(*event),
        }
    }
    Ok(GuessOutcome::Follows(following.evidence))
}
