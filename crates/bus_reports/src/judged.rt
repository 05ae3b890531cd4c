//! What comes of the messages of a file.
ghost use Rattle.std.specs.Prelude.{◌≡◌, length, filter};
ghost use Rattle.bus_reports.specs.Outcomes.{has_trouble, in_every_order, leaves_something};

use crate::load::BusLoad;
use terminal_schedules::LeftAt;

/// A message that was played alone and in the run of its file.
#[derive(Drop)]
pub struct JudgedMessage {
    /// Its line in the file, from 1.
    pub line: u64,
    /// Its first command word.
    pub command: u16,
    /// Its name, where there are names and it has one.
    pub name: Option<String>,
    /// Why it doesn't end well where it comes alone; empty where it does.
    pub alone: Vec<String>,
    /// The same of the run.
    pub in_run: Vec<String>,
}

/// What the events that stand for a line of a file leave behind, alone from power-up.
#[derive(Clone, Copy)]
pub struct PartLeft {
    /// The line, from 1.
    pub line: u64,
    /// None where each terminal is clear then.
    pub left: Option<LeftAt>,
}

/// The messages of a file, what its lines leave behind, and the load of the buses.
#[derive(Drop)]
pub struct Judgement {
    pub messages: Vec<JudgedMessage>,
    /// Of each line that says events.
    pub lefts: Vec<PartLeft>,
    /// None where no message has a rate.
    pub load: Option<BusLoad>,
}

impl JudgedMessage {
    /// Whether it is told: one of its two playings shows a reason.
    pub fn has_trouble(&self) -> bool
        ensures { result ≡ has_trouble self.now }
    {
        !self.alone.is_empty() || !self.in_run.is_empty()
    }
}

/// How many messages are told.
pub fn told_in(messages: &[JudgedMessage]) -> usize
    ensures { result ≡ length (filter has_trouble messages.now) }
{
    messages.iter().filter(|it| it.has_trouble()).count()
}

/// How many lines leave something behind.
fn left_in(lefts: &[PartLeft]) -> usize
    ensures { result ≡ length (filter leaves_something lefts.now) }
{
    lefts.iter().filter(|it| it.left.is_some()).count()
}

impl Judgement {
    /// Whether each message ends well, in every order: none is told, and no line leaves anything behind.
    pub fn in_every_order(&self) -> bool
        ensures { result ≡ in_every_order self.now }
    {
        told_in(self.messages.as_slice()) == 0 && left_in(self.lefts.as_slice()) == 0
    }
}
