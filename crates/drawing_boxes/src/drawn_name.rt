//! The name of a message as it is drawn.
use crate::escaped::in_xml;
use crate::width::width_of;
use bus_word::{Command, cell_of};
use message_names::{MessageNames, quoted, quoted_short};
use std::alloc::{AllocError, Global};

/// The name of a message, as it is printed and as it stands in XML.
#[derive(Drop)]
pub struct DrawnName {
    /// All of it, for titles.
    pub whole: String,
    /// What stands in the drawing: cut, where it is long.
    pub short: String,
    /// How wide that is at most, with a space before it.
    pub width: u32,
}

impl DrawnName {
    /// A name as it is drawn.
    fn of(alloc: Global, name: &str) -> Result<DrawnName, AllocError> {
        let short = quoted_short(alloc, name)?;
        Ok(DrawnName {
            whole: in_xml(alloc, quoted(alloc, name)?.as_str())?,
            short: in_xml(alloc, short.as_str())?,
            width: width_of(&' ').saturating_add(width_of(&short)),
        })
    }
}

/// The name of the message of a command word, where it has one.
pub fn drawn_name_of(
    alloc: Global,
    names: &MessageNames,
    word: u16,
) -> Result<Option<DrawnName>, AllocError> {
    let Some(cell) = cell_of(Command::of(word)) else {
        return Ok(None);
    };
    match names.name_of(cell) {
        Some(name) => Ok(Some(DrawnName::of(alloc, name)?)),
        None => Ok(None),
    }
}
