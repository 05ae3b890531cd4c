//! A message as it is drawn: its columns, one for each event.
ghost use Rattle.std.specs.Prelude.{◌≡◌, ◌∷◌, ◌++◌, [], OnOk, IfOk, All, map};
ghost use Rattle.rt1553_draw.specs.inner.Drawn.{drawn_of, stands_in};
ghost use Rattle.rt1553_draw.specs.inner.Marked.{IsMarkedBy};

use crate::column::Column;
use crate::expected::StatedAnswer;
use bus_word::Bus;
use drawing_boxes::{Caption, DrawnName, InOneLine, Numbered, drawn_name_of, width_of};
use message_names::MessageNames;
use std::alloc::{AllocError, Global};
use std::fmt;

/// A message, with what the subsystem did before it.
#[derive(Drop)]
pub struct DrawnMessage {
    /// Its number, from 1.
    pub number: u32,
    /// The bus of its commands, where one came.
    pub bus: Option<Bus>,
    pub columns: Vec<Column>,
    /// Its name, where there are names and it has one.
    pub name: Option<DrawnName>,
}

/// Columns, marked with what is stated for their lines.
fn marked_columns(
    alloc: Global,
    columns: Vec<Column>,
    stated: &[StatedAnswer],
) -> Result<Vec<Column>, AllocError>
    ensures same { IfOk result (λ marked. map (λ column. column.of) marked.items ≡ map (λ column. column.of) columns.items) }
    ensures marked { IfOk result (λ marked. All (IsMarkedBy stated.now) marked.items) }
{
    let mut marked = Vec::new(alloc);
    for column in columns {
        marked.push(column.marked(alloc, stated)?)?;
    }
    Ok(marked)
}

/// What stands above a message, but for its name; above a piece that is not its first, that it goes on there.
#[derive(Clone, Copy)]
pub struct Heading {
    pub number: u32,
    pub is_first: bool,
}

impl fmt::Display for Heading {
    fn fmt<W: fmt::Write>(&self, f: &mut fmt::Formatter<W>) -> fmt::Result {
        let number = self.number;
        if self.is_first {
            write!(f, "message {number}")
        } else {
            write!(f, "message {number}, continued")
        }
    }
}

impl DrawnMessage {
    /// The message of this number, of which nothing is drawn yet, and of which a command came on this bus.
    pub fn new(alloc: Global, number: u32, bus: Option<Bus>) -> DrawnMessage
        ensures { drawn_of result ≡ [] }
    {
        DrawnMessage {
            number,
            bus,
            columns: Vec::new(alloc),
            name: None,
        }
    }

    /// Notes that a command of it came on this bus.
    pub fn go_on(&mut self, bus: Bus)
        ensures { drawn_of self.new ≡ drawn_of self.old }
    {
        self.bus = Some(bus);
    }

    /// Gives it the name that this command word has, if it has one.
    pub fn take_name(
        &mut self,
        alloc: Global,
        names: &MessageNames,
        command: u16,
    ) -> Result<(), AllocError>
        ensures { OnOk result (drawn_of self.new ≡ drawn_of self.old) }
    {
        self.name = drawn_name_of(alloc, names, command)?;
        Ok(())
    }

    /// What stands above it, but for its name.
    pub fn heading(&self) -> Heading {
        Heading {
            number: self.number,
            is_first: true,
        }
    }

    /// The same, with its columns marked with what is stated for their lines.
    pub fn marked(self, alloc: Global, stated: &[StatedAnswer]) -> Result<DrawnMessage, AllocError>
        ensures drawn { IfOk result (λ part. drawn_of part ≡ drawn_of self) }
        ensures marked { IfOk result (λ part. All (IsMarkedBy stated.now) part.columns.items) }
    {
        let DrawnMessage {
            number,
            bus,
            columns,
            name,
        } = self;
        let columns = marked_columns(alloc, columns, stated)?;
        Ok(DrawnMessage {
            number,
            bus,
            columns,
            name,
        })
    }

    /// How wide what stands above it is.
    pub fn heading_width(&self) -> u32 {
        let width = width_of(&self.heading());
        match &self.name {
            Some(name) => width.saturating_add(name.width),
            None => width,
        }
    }

    /// Adds a column.
    pub fn add(&mut self, column: Column) -> Result<(), AllocError>
        ensures { OnOk result (drawn_of self.new ≡ drawn_of self.old ++ column.of ∷ []) }
    {
        self.columns.push(column)?;
        Ok(())
    }

    /// The number of the first line of the file that it comes from; 0 where it has no event.
    pub fn first_line(&self) -> u64 {
        match self.columns.as_slice() {
            [column, ..] => column.line.number,
            [] => 0,
        }
    }

    /// The number of the last line.
    pub fn last_line(&self) -> u64 {
        match self.columns.as_slice() {
            [.., column] => column.line.number,
            [] => 0,
        }
    }

    /// Whether one of its events stands in one of these lines.
    pub fn has_one_of(&self, lines: &[u64]) -> bool
        ensures { result ≡ stands_in lines.now self.now }
    {
        for column in self.columns.as_slice() {
            if lines.contains(&column.of.line) {
                return true;
            }
        }
        false
    }

    /// What came first on a bus.
    fn first_came(&self) -> Option<Caption> {
        for column in self.columns.as_slice() {
            match column.mark.caption() {
                Some(caption) if caption.came() => return Some(caption),
                _ => {}
            }
        }
        None
    }

    /// What the message is: what came first on a bus, or else what the subsystem did first.
    fn what(&self) -> Option<Caption> {
        match self.first_came() {
            Some(caption) => Some(caption),
            None => match self.columns.as_slice() {
                [column, ..] => column.mark.caption(),
                [] => None,
            },
        }
    }

    /// The status word with which the terminal answers.
    fn status(&self) -> Option<Caption> {
        for column in self.columns.as_slice() {
            match column.mark.caption() {
                Some(Caption::Status(bits)) => return Some(Caption::Status(bits)),
                _ => {}
            }
        }
        None
    }
}

/// A message in one line, as it stands in XML: its number, the line of the file in which it begins, what it is, its name if it has one,
/// and how it is answered.
#[derive(Clone, Copy)]
pub struct MessageTitle<'a>(pub &'a DrawnMessage);

impl fmt::Display for MessageTitle<'_> {
    fn fmt<W: fmt::Write>(&self, f: &mut fmt::Formatter<W>) -> fmt::Result {
        let heading = self.0.heading();
        let line = self.0.first_line();
        write!(f, "{heading}, line {line}")?;
        if let Some(caption) = self.0.what() {
            let what = InOneLine(caption);
            write!(f, ": {what}")?;
        }
        if let Some(name) = &self.0.name {
            write!(f, " {}", name.whole.as_str())?;
        }
        if let Some(caption) = self.0.status() {
            let status = InOneLine(caption);
            write!(f, "; {status}")?;
        }
        Ok(())
    }
}
