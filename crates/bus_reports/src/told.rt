//! What is told of the messages of a file, as text.
ghost use Rattle.std.specs.Prelude.{◌≡◌, IfOk, OnOk};
ghost use Rattle.std.specs.String.{string_bytes};
ghost use Rattle.bus_reports.specs.Lefts.{letter_of};
ghost use Rattle.bus_reports.specs.Outcomes.{EndsWith, in_every_order, last_words, told_among, well_words};

use crate::judged::{JudgedMessage, Judgement, told_in};
use crate::left::push_lefts;
use crate::load::{BusLoad, LoadRow, RateRow};
use bus_word::Bus;
use message_names::quoted;
use std::alloc::{AllocError, Global};

/// The letter of a bus.
pub(crate) fn letter_of(bus: Bus) -> &'static str
    ensures { result.now ≡ letter_of bus }
{
    match bus {
        Bus::A => "A",
        Bus::B => "B",
    }
}

/// The word behind a number of messages.
fn messages_word(count: usize) -> &'static str {
    if count == 1 { "message" } else { "messages" }
}

/// Reasons with semicolons between them.
pub(crate) fn reasons_text(alloc: Global, reasons: &[String]) -> Result<String, AllocError> {
    let mut text = String::new(alloc);
    for reason in reasons {
        if !text.is_empty() {
            text.push_str("; ")?;
        }
        text.push_str(reason.as_str())?;
    }
    Ok(text)
}

impl JudgedMessage {
    /// What stands in front of its reasons: its place in the file of this name, as it is printed, and its name.
    fn front(&self, alloc: Global, file: &str) -> Result<String, AllocError> {
        let line = self.line;
        match &self.name {
            Some(name) => format!(in alloc;
                "{file}:{line}: {}: ",
                quoted(alloc, name.as_str())?.as_str()
            ),
            None => format!(in alloc; "{file}:{line}: "),
        }
    }

    /// The lines that tell it: one, or one for each of its playings that shows reasons, if these differ; none where it ends well.
    pub(crate) fn lines(&self, alloc: Global, file: &str) -> Result<String, AllocError> {
        let mut text = String::new(alloc);
        let front = self.front(alloc, file)?;
        let alone = reasons_text(alloc, self.alone.as_slice())?;
        let in_run = reasons_text(alloc, self.in_run.as_slice())?;
        let (front, alone, in_run) = (front.as_str(), alone.as_str(), in_run.as_str());
        if alone == in_run {
            if !alone.is_empty() {
                write!(text, "{front}{alone}\n")?;
            }
            return Ok(text);
        }
        for (reasons, playing) in [(alone, "alone"), (in_run, "in the run")] {
            if !reasons.is_empty() {
                write!(text, "{front}{reasons} # {playing}\n")?;
            }
        }
        Ok(text)
    }
}

impl RateRow {
    /// Adds its line.
    fn push_line(&self, text: &mut String) -> Result<(), AllocError> {
        write!(
            text,
            "rate {}: {} {}, {} us of each {} us on bus {}\n",
            self.rate,
            self.messages,
            messages_word(self.messages),
            self.time,
            self.period(),
            letter_of(self.bus)
        )
    }
}

impl LoadRow {
    /// How much of the bus is busy, in percent.
    pub(crate) fn text(&self, alloc: Global) -> Result<String, AllocError> {
        let tenths = self.tenths();
        let more = if self.fits() {
            ""
        } else {
            ": more than the bus has"
        };
        format!(in alloc;
            "{}.{} % of bus {}{more}",
            tenths / 10,
            tenths % 10,
            letter_of(self.bus)
        )
    }
}

/// Adds the lines of the load.
fn push_load(alloc: Global, text: &mut String, load: &BusLoad) -> Result<(), AllocError> {
    for row in load.rates.as_slice() {
        row.push_line(text)?;
    }
    for row in load.buses.as_slice() {
        write!(text, "load: {}\n", row.text(alloc)?.as_str())?;
    }
    Ok(())
}

/// Adds the last line: how many messages there are, how many are told, and whether the others end well in every order.
fn push_end(
    text: &mut String,
    messages: usize,
    told: usize,
    in_every_order: bool,
) -> Result<(), AllocError>
    ensures { OnOk result (EndsWith (last_words told in_every_order) (string_bytes text.new)) }
{
    write!(text, "{messages} {}", messages_word(messages))?;
    if told == 0 {
        return push_well(text, in_every_order);
    }
    let do_not = if told == 1 { "does" } else { "do" };
    write!(text, ", {told} of them {do_not}")?;
    text.push_str("n't end well\n")
}

/// Adds that each message ends well.
fn push_well(text: &mut String, in_every_order: bool) -> Result<(), AllocError>
    ensures { OnOk result (EndsWith (well_words in_every_order) (string_bytes text.new)) }
{
    if in_every_order {
        text.push_str(": each ends well, in every order\n")
    } else {
        text.push_str(": all end well; in another order some may not\n")
    }
}

/// What is told of the messages of the file of this name, as it is printed.
pub fn judged_text(alloc: Global, file: &str, judged: &Judgement) -> Result<String, AllocError>
    ensures { IfOk result (λ text. EndsWith (last_words (told_among judged.now) (in_every_order judged.now)) (string_bytes text)) }
{
    let mut text = String::new(alloc);
    let messages = judged.messages.as_slice();
    for message in messages {
        text.push_str(message.lines(alloc, file)?.as_str())?;
    }
    push_lefts(alloc, &mut text, file, judged.lefts.as_slice())?;
    if let Some(load) = &judged.load {
        push_load(alloc, &mut text, load)?;
    }
    push_end(
        &mut text,
        messages.len(),
        told_in(messages),
        judged.in_every_order(),
    )?;
    Ok(text)
}
