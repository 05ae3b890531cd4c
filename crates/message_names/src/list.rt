//! Names of several messages, each once.
use crate::counts::{MessageCounts, has_number, push_name};
use crate::names::MessageNames;
use std::alloc::{AllocError, Global};

/// How many names a line has at most.
const MOST_NAMES: usize = 5;

/// Names, each once, in their order.
#[derive(Drop)]
pub struct NameList<'a> {
    names: Vec<&'a str>,
}

impl<'a> NameList<'a> {
    /// No name.
    pub fn new(alloc: Global) -> NameList<'a> {
        NameList {
            names: Vec::new(alloc),
        }
    }

    /// Whether a name is one of them.
    fn has(&self, name: &str) -> bool {
        for other in self.names.as_slice() {
            if *other == name {
                return true;
            }
        }
        false
    }

    /// Adds a name, where there is one that is not there yet.
    pub fn add(&mut self, name: Option<&'a str>) -> Result<(), AllocError> {
        if let Some(name) = name {
            if !self.has(name) {
                self.names.push(name)?;
            }
        }
        Ok(())
    }

    /// Adds the names of messages, by their word counts.
    pub fn add_counts(
        &mut self,
        names: &'a MessageNames,
        of: MessageCounts,
    ) -> Result<(), AllocError> {
        for n in 1..33u8 {
            if has_number(of.counts, n) {
                self.add(of.name_at(Some(names), n))?;
            }
        }
        Ok(())
    }

    /// The names as they stand in a line, with a space before the first: at most five, and then `..`.
    pub fn text(&self, alloc: Global) -> Result<String, AllocError> {
        let mut text = String::new(alloc);
        for (index, name) in self.names.as_slice().iter().enumerate() {
            if index == MOST_NAMES {
                text.push_str(", ..")?;
                break;
            }
            if index > 0 {
                text.push_str(",")?;
            }
            push_name(alloc, &mut text, Some(*name))?;
        }
        Ok(text)
    }

    /// The names as values of their own.
    pub fn list(&self, alloc: Global) -> Result<Vec<String>, AllocError> {
        let mut list = Vec::new(alloc);
        for name in self.names.as_slice() {
            list.push(String::from_str(alloc, *name)?)?;
        }
        Ok(list)
    }
}
