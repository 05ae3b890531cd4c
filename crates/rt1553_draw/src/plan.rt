//! A run as messages that are drawn.
ghost use Rattle.std.specs.Prelude.{◌≡◌, ◌≢◌, ◌∷◌, ◌++◌, [], Some, None, IfOk, IfErr, OnOk, option_map};
ghost use Rattle.script_lines.specs.Text.{lines_of};
ghost use Rattle.bus_script.specs.Reading.{reading};
ghost use Rattle.drawing_boxes.specs.Refused.{events_on, refusal};
ghost use Rattle.rt1553_draw.specs.inner.Drawn.{drawn_of, drawn_in, wanted, AreWanted, EndsMessages};

use crate::column::Column;
use crate::part::DrawnMessage;
use crate::shown_line::{DrawnScript, ShownLine};
use bus_legal::Normal;
use bus_terminal::{Event, Terminal};
use bus_word::{Bus, Raw};
use drawing_boxes::{DrawFault, Numbered, events_to_draw, numbered_events};
use message_names::MessageNames;
use std::alloc::{AllocError, Global};
use terminal_messages::{
    ClosedMessages, KeptMessage, MessageFold, MessagePart, OwnAddress, SeenEvent, see_event,
};
use terminal_state::same_bus;

/// How many events are drawn as one message at most: more than any of the standard has.
const MAX_MESSAGE: usize = 64;

/// Keeps a message, if it is wanted: one with an event in one of these lines, or where there are no lines any.
fn keep_wanted(
    parts: &mut Vec<DrawnMessage>,
    part: DrawnMessage,
    lines: Option<&[u64]>,
) -> Result<(), AllocError>
    ensures { OnOk result (parts.new.items ≡ parts.old.items ++ wanted (option_map (λ ls. ls.now) lines.entry) (part ∷ [])) }
{
    let is_wanted = match lines {
        Some(lines) => part.has_one_of(lines),
        None => true,
    };
    if is_wanted {
        parts.push(part)?;
    }
    Ok(())
}

/// A terminal, and the messages of its run.
#[derive(Drop)]
struct DrawnRun {
    terminal: Terminal<Normal>,
    messages: MessageFold,
    /// Its address, 0 to 30.
    address: u8,
}

/// An event that was played.
#[derive(Drop)]
struct DrawnEvent {
    seen: SeenEvent,
    /// What it is to the messages of the run.
    part: MessagePart,
    /// The messages that are over with it.
    closed: ClosedMessages,
}

impl DrawnRun {
    /// A run that begins at power-up.
    fn power_up(normal: &Normal) -> DrawnRun {
        let setup = normal.setup();
        let own = OwnAddress {
            address: setup.address,
            broadcast: setup.broadcast,
        };
        DrawnRun {
            terminal: Terminal::power_up(setup, *normal),
            messages: MessageFold::none(own),
            address: setup.address,
        }
    }

    /// Plays an event.
    fn play(&mut self, of: Numbered) -> DrawnEvent {
        let seen = see_event(&mut self.terminal, &of.event, of.line);
        let part = self.messages.part(&seen);
        let closed = self.messages.step(&seen);
        DrawnEvent { seen, part, closed }
    }
}

/// Whether there is a message, which was on this bus.
fn was_on(message: &Option<KeptMessage>, bus: Bus) -> bool {
    match message {
        Some(message) => same_bus(message.state.bus, bus),
        None => false,
    }
}

impl DrawnEvent {
    /// Whether the message on this bus is over with it.
    fn closes_on(&self, bus: Bus) -> bool {
        was_on(&self.closed.first, bus) || was_on(&self.closed.second, bus)
    }

    /// Whether it comes behind what is drawn of the message on this bus: with another message, or from the subsystem, when the terminal is
    /// neither in a message there nor replies.
    fn is_behind(&self, bus: Bus) -> bool {
        match self.seen.event {
            Event::Word(_, _) | Event::Noise(_) | Event::Gap(_) | Event::Slot => {
                self.closes_on(bus)
            }
            _ => !self.seen.engaged.on(bus),
        }
    }

    /// The command of a message that it is, with its bus.
    fn command(&self) -> Option<(Bus, Raw)> {
        match self.seen.event {
            Event::Word(bus, word)
                if self.part.is_first_command() || self.part.is_second_command() => Some((
                bus, word,
            )),
            _ => None,
        }
    }
}

/// Puts the message away that is over where this event is none of it, and begins another. One of 64 events goes on as another, too.
fn begin_another(
    alloc: Global,
    parts: &mut Vec<DrawnMessage>,
    part: DrawnMessage,
    lines: Option<&[u64]>,
    played: &DrawnEvent,
) -> Result<DrawnMessage, AllocError>
    ensures { IfOk result (EndsMessages (option_map (λ ls. ls.now) lines.entry) parts.old.items parts.new.items part) }
{
    let is_over = match part.bus {
        Some(bus) => played.is_behind(bus),
        None => false,
    };
    if !is_over && part.columns.len() < MAX_MESSAGE {
        return Ok(part);
    }
    let number = part.number.saturating_add(1);
    let bus = if is_over { None } else { part.bus };
    keep_wanted(parts, part, lines)?;
    Ok(DrawnMessage::new(alloc, number, bus))
}

/// Adds the column of an event that was played to a message.
fn add_event(
    alloc: Global,
    part: &mut DrawnMessage,
    of: Numbered,
    line: ShownLine,
    played: &DrawnEvent,
) -> Result<(), AllocError>
    ensures { OnOk result (drawn_of part.new ≡ drawn_of part.old ++ of ∷ []) }
{
    let answer = played.seen.answer.lent();
    let column = Column::of(alloc, of, line, played.part.is_status(), &answer)?;
    part.add(column)
}

/// Gives a message what it has by an event that is a command of it: its bus, and a name by a command that speaks to the terminal of this
/// address, or to all.
fn take_command(
    alloc: Global,
    part: &mut DrawnMessage,
    names: Option<&MessageNames>,
    address: u8,
    played: &DrawnEvent,
) -> Result<(), AllocError>
    ensures { OnOk result (drawn_of part.new ≡ drawn_of part.old) }
{
    let Some((bus, word)) = played.command() else {
        return Ok(());
    };
    part.go_on(bus);
    match names {
        Some(names) if word.is_for(address, true) => part.take_name(alloc, names, word.bits),
        _ => Ok(()),
    }
}

/// Plays events from power-up, and gives the messages of them that are wanted. `sources` are the lines by which they are shown.
fn messages_of(
    alloc: Global,
    normal: &Normal,
    names: Option<&MessageNames>,
    events: &[Numbered],
    lines: Option<&[u64]>,
    sources: Option<&[u64]>,
) -> Result<Vec<DrawnMessage>, AllocError>
    ensures { IfOk result (λ parts. AreWanted (option_map (λ ls. ls.now) lines.entry) events.now parts.items) }
{
    let mut run = DrawnRun::power_up(normal);
    let mut parts = Vec::new(alloc);
    let mut part = DrawnMessage::new(alloc, 1, None);
    let mut shown = ShownLine::NONE;
    for of in events {
        shown = shown.next(sources, of.line);
        let played = run.play(*of);
        part = begin_another(alloc, &mut parts, part, lines, &played)?;
        add_event(alloc, &mut part, *of, shown, &played)?;
        take_command(alloc, &mut part, names, run.address, &played)?;
    }
    keep_wanted(&mut parts, part, lines)?;
    Ok(parts)
}

/// The messages that are drawn of a script: each of its events has one column, in their order. A script is refused by
/// its fault, for which its run ends too; or else for having over 4,096 events.
pub fn plan(
    alloc: Global,
    normal: &Normal,
    names: Option<&MessageNames>,
    script: DrawnScript<'_>,
) -> Result<Vec<DrawnMessage>, DrawFault>
    ensures drawn { IfOk result (λ parts. (refusal (reading 0 (lines_of script.entry.text.now)) ≡ None) × (drawn_in parts.items ≡ events_on 0 (lines_of script.entry.text.now))) }
    ensures refused { IfErr result (λ fault. fault ≢ DrawFault.Memory → refusal (reading 0 (lines_of script.entry.text.now)) ≡ Some fault) }
{
    let events = events_to_draw(alloc, script.text)?;
    let events = events.as_slice();
    Ok(messages_of(alloc, normal, names, events, None, script.sources)?)
}

/// Of the messages of a script of any number of events, those with an event in one of these lines.
pub fn plan_at(
    alloc: Global,
    normal: &Normal,
    names: Option<&MessageNames>,
    script: DrawnScript<'_>,
    lines: &[u64],
) -> Result<Vec<DrawnMessage>, DrawFault>
    ensures drawn { IfOk result (λ parts. ((reading 0 (lines_of script.entry.text.now)).fault ≡ None) × AreWanted (Some lines.now) (events_on 0 (lines_of script.entry.text.now)) parts.items) }
    ensures refused { IfErr result (λ fault. fault ≢ DrawFault.Memory → refusal (reading 0 (lines_of script.entry.text.now)) ≡ Some fault) }
{
    let events = numbered_events(alloc, script.text)?;
    let (events, sources) = (events.as_slice(), script.sources);
    Ok(messages_of(alloc, normal, names, events, Some(lines), sources)?)
}
