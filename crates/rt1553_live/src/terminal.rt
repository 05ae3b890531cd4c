//! A terminal with a place for the event that is played next and one for what was answered last.
ghost use Rattle.rt1553_live.specs.State.{IsMade};

use crate::answer::PlainAnswer;
use crate::event::PlainEvent;
use bus_legal::Normal;
use bus_terminal::Terminal;

/// A terminal, behind the event that is played next and what was answered last.
#[repr(C)]
#[derive(Drop)]
pub struct Live {
    pub event: PlainEvent,
    pub answer: PlainAnswer,
    /// It is set up as its own profile says.
    pub terminal: Terminal<Normal>,
    pub ghost made: { IsMade terminal },
}
