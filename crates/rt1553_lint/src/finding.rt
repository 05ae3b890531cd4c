//! One line of what is told of a profile text.
ghost use Rattle.std.specs.Prelude.{◌≡◌, is_some, codes, if◌then◌else◌};
ghost use Rattle.rt1553_lint.specs.Findings.{lint_fault_number, lint_fault_name};

use bus_canon::CanonFault;
use bus_profile::ProfileFault;
use serde::Serialize;
use spare_entries::SparePlace;
use std::alloc::{AllocError, Global};
use std::fmt;

/// A place in a text. Both are counted from 1, columns in characters.
#[derive(Clone, Copy, PartialEq, Eq)]
pub struct Position {
    pub line: usize,
    pub column: usize,
}

/// Why a text is refused.
#[derive(Clone, Copy, PartialEq, Eq)]
pub enum LintFault {
    Profile(ProfileFault),
    Canon(CanonFault),
}

impl LintFault {
    /// The number of the fault among those of its type.
    pub fn number(self) -> u8
        ensures { result ≡ lint_fault_number self }
    {
        match self {
            LintFault::Profile(fault) => fault.number(),
            LintFault::Canon(fault) => fault.number(),
        }
    }

    /// The name of the fault.
    pub fn name(self) -> &'static str
        ensures { result.now ≡ lint_fault_name self }
    {
        match self {
            LintFault::Profile(fault) => fault.name(),
            LintFault::Canon(fault) => fault.name(),
        }
    }
}

/// An error, or a warning.
#[derive(Drop)]
pub struct Finding {
    /// Where it stands; None for a key or an entry that the text hasn't.
    pub position: Option<Position>,
    /// The fault; None for a warning.
    pub fault: Option<LintFault>,
    /// What has no effect; None for an error.
    pub spare: Option<SparePlace>,
    /// One line.
    pub message: String,
}

impl Finding {
    /// `error` or `warning`.
    pub fn severity(&self) -> &'static str
        ensures { result.now ≡ (if is_some self.now.fault then codes "error" else codes "warning") }
    {
        match self.fault {
            Some(_) => "error",
            None => "warning",
        }
    }

    /// The finding as a line of JSON, without a line feed, with the name of the text's file. None when memory runs out.
    pub fn to_json<'x>(&'x self, alloc: Global, file: &'x str) -> Option<String> {
        let line = JsonLine {
            file,
            line: self.position.map(|position| position.line),
            column: self.position.map(|position| position.column),
            severity: self.severity(),
            number: self.fault.map(|fault| fault.number()),
            name: self.fault.map(|fault| fault.name()),
            message: self.message.as_str(),
        };
        serde_json::to_string(alloc, &line).ok()
    }
}

/// What stands in a line of JSON.
#[derive(Clone, Copy, Serialize)]
struct JsonLine<'a> {
    file: &'a str,
    line: Option<usize>,
    column: Option<usize>,
    severity: &'a str,
    number: Option<u8>,
    name: Option<&'a str>,
    message: &'a str,
}

impl fmt::Display for Finding {
    /// What follows the name of the file and a colon.
    fn fmt<W: fmt::Write>(&self, f: &mut fmt::Formatter<W>) -> fmt::Result {
        if let Some(position) = self.position {
            write!(f, "{}:{}:", position.line, position.column)?;
        }
        write!(f, " {}: {}", self.severity(), self.message)
    }
}
