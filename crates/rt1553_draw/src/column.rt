//! What is drawn of one event, and of what the terminal answers to it: a column.
ghost use Rattle.std.specs.Prelude.{◌≡◌, IfOk};
ghost use Rattle.bus_terminal.specs.Answer.{shown_answer, IsSmall};
ghost use Rattle.rt1553_draw.specs.inner.Marked.{IsMarkedBy};
ghost use Rattle.rt1553_draw.specs.inner.Placed.{number_width, IsWidthOf};

use crate::expected::{Expected, StatedAnswer, expected_at};
use crate::shown_line::ShownLine;
use bus_terminal::{Answer, Event};
use bus_word::Bus;
use drawing_boxes::{Caption, Lane, Lanes, MARGIN, Numbered};
use script_lines::write_answer;
use std::alloc::{AllocError, Global};

/// How wide the column of a gap, or of a slot in which nothing is sent, is at least.
const NARROW: u32 = 24;

/// How many digits the number of a line has at most.
const MOST_DIGITS: usize = 20;

/// What stands in a column on a bus, or in its place.
#[derive(Clone, Copy)]
pub enum Mark {
    /// A box in a lane.
    Box(Lane, Caption),
    /// A gap on a bus.
    Gap(Lane),
    /// A slot in which nothing is sent.
    Silence,
}

/// A column of a drawing.
#[derive(Drop)]
pub struct Column {
    /// The event that it is of.
    pub of: Numbered,
    /// The line of the event, as it is shown.
    pub line: ShownLine,
    pub mark: Mark,
    /// What is handed over at the event.
    pub handed: Option<Caption>,
    /// The line of the transcript that answers the event, without its line feed; empty where nothing does.
    pub answer: String,
    /// How wide it is on its bus; what is handed over has no part in that.
    pub width: u32,
    /// How wide the box of what is handed over is; 0 where nothing is.
    pub handed_width: u32,
    /// What a script states in place of the answer, if that differs.
    pub expected: Option<Expected>,
}

/// The lane of a bus.
fn lane_of(bus: Bus) -> Lane {
    match bus {
        Bus::A => Lane::A,
        Bus::B => Lane::B,
    }
}

/// What stands in the column of a slot: the word that is sent, or that none is.
fn mark_of_slot(answer: &Answer<'_>) -> Mark {
    match answer {
        Answer::Sends(sent) => Mark::Box(lane_of(sent.bus), Caption::of_sent(*sent)),
        _ => Mark::Silence,
    }
}

/// What stands in the column of an event; `is_status` says of a word that it is the status word of another terminal.
fn mark_of(event: Event, is_status: bool, answer: &Answer<'_>) -> Mark {
    match event {
        Event::Word(bus, word) => Mark::Box(lane_of(bus), Caption::of_word(word, is_status)),
        Event::Noise(bus) => Mark::Box(lane_of(bus), Caption::Noise),
        Event::Gap(bus) => Mark::Gap(lane_of(bus)),
        Event::Slot => mark_of_slot(answer),
        Event::Write(place, word) => Mark::Box(
            Lane::Subsystem,
            Caption::Write {
                subaddress: place.subaddress(),
                number: place.number(),
                word,
            },
        ),
        Event::Vector(word) => Mark::Box(Lane::Subsystem, Caption::Vector(word)),
        Event::Bit(word) => Mark::Box(Lane::Subsystem, Caption::Bit(word)),
        Event::Flag(flag, is_set) => Mark::Box(Lane::Subsystem, Caption::Flag(flag, is_set)),
    }
}

impl Mark {
    /// The box, where there is one.
    pub fn caption(&self) -> Option<Caption> {
        match self {
            Mark::Box(_, caption) => Some(*caption),
            _ => None,
        }
    }

    /// The lane that it stands in.
    fn lanes(&self) -> Lanes {
        match self {
            Mark::Box(lane, _) | Mark::Gap(lane) => Lanes::NONE.with(*lane),
            Mark::Silence => Lanes::NONE,
        }
    }
}

/// How wide the column of a mark is, by how wide the number of its line is.
fn width_of_mark(mark: &Mark, number: u32) -> u32
    ensures { IsWidthOf number mark.now result }
{
    match mark {
        Mark::Box(_, caption) => caption.width().max(number),
        Mark::Gap(_) | Mark::Silence => NARROW.max(number),
    }
}

/// How wide the box of a caption is; 0 where there is none.
fn width_if(caption: Option<Caption>) -> u32 {
    match caption {
        Some(caption) => caption.width(),
        None => 0,
    }
}

/// How wide the number of a line is, with what stands around it.
fn number_width(alloc: Global, line: u64) -> Result<u32, AllocError>
    ensures { IfOk result (λ width. width ≡ number_width line) }
{
    let digits = format!(in alloc; "{line}")?;
    let count = digits.len().min(MOST_DIGITS) as u32;
    Ok((73 * count + 9) / 10 + 2 * MARGIN)
}

/// How many lines the box of a caption has, if there is one.
fn lines_if(caption: Option<Caption>) -> u32 {
    match caption {
        Some(caption) => caption.lines(),
        None => 1,
    }
}

/// The line of the transcript that answers an event, without its line feed.
fn answer_line(alloc: Global, answer: &Answer<'_>) -> Result<String, AllocError>
    requires { IsSmall (shown_answer answer.now) }
{
    let text = write_answer(answer);
    match text.as_str().split_once('\n') {
        Some((line, _)) => String::from_str(alloc, line),
        None => Ok(String::new(alloc)),
    }
}

impl Column {
    /// What is drawn of an event, of a line that is shown so, that is answered so.
    pub fn of(
        alloc: Global,
        of: Numbered,
        line: ShownLine,
        is_status: bool,
        answer: &Answer<'_>,
    ) -> Result<Column, AllocError>
        requires { IsSmall (shown_answer answer.now) }
        ensures of { IfOk result (λ column. column.of ≡ of) }
        ensures line { IfOk result (λ column. column.line ≡ line) }
        ensures width { IfOk result (λ column. IsWidthOf (number_width line.number) column.mark column.width) }
    {
        let mark = mark_of(of.event, is_status, answer);
        let handed = match answer {
            Answer::Hands(hand) => Some(Caption::of_hand(*hand)),
            _ => None,
        };
        let width = width_of_mark(&mark, number_width(alloc, line.number)?);
        let handed_width = width_if(handed);
        let answer = answer_line(alloc, answer)?;
        Ok(Column {
            of,
            line,
            mark,
            handed,
            answer,
            width,
            handed_width,
            expected: None,
        })
    }

    /// The same, marked with what is stated for its line in place of the answer, if something is.
    pub fn marked(self, alloc: Global, stated: &[StatedAnswer]) -> Result<Column, AllocError>
        ensures of { IfOk result (λ column. column.of ≡ self.of) }
        ensures marked { IfOk result (IsMarkedBy stated.now) }
    {
        let mut column = self;
        column.expected = expected_at(alloc, stated, column.of.line)?;
        Ok(column)
    }

    /// How wide it is, with the box of what is stated beside it.
    pub fn whole_width(&self) -> u32 {
        match &self.expected {
            Some(expected) => self.width.saturating_add(expected.width),
            None => self.width,
        }
    }

    /// Whether it has a box in the subsystem's lane.
    pub fn is_in_subsystem(&self) -> bool {
        self.handed.is_some() || matches!(self.mark, Mark::Box(Lane::Subsystem, _))
    }

    /// The lanes that it has something in.
    pub fn lanes(&self) -> Lanes {
        let lanes = self.mark.lanes();
        match self.handed {
            Some(_) => lanes.with(Lane::Subsystem),
            None => lanes,
        }
    }

    /// How many lines its boxes have at most.
    pub fn lines(&self) -> u32 {
        let beside = if self.expected.is_some() { 2 } else { 1 };
        lines_if(self.mark.caption())
            .max(lines_if(self.handed))
            .max(beside)
    }
}
