//! What is reported of a file of messages.
ghost use Rattle.std.specs.Prelude.{◌≡◌, option_map};
ghost use Rattle.bus_reports.specs.Outcomes.{file_fault, file_in_every_order, file_messages, file_passes};

use crate::judged::{Judgement, told_in};
use crate::load::LoadTimes;
use rt1553_report::{NamesTable, ReportHead};

/// A profile of a bus.
#[derive(Clone, Copy)]
pub struct CheckedProfile<'a> {
    /// The name of its file, as it was given.
    pub file: &'a str,
    pub address: u8,
    /// The SHA-256 digest of the file.
    pub digest: [u8; 32],
    /// That of its canonical text.
    pub canonical: [u8; 32],
}

/// What comes of a file of messages.
#[derive(Drop)]
pub enum CheckOutcome {
    /// It was played.
    Judged(Judgement),
    /// It can't be read or is refused, for these reasons: a line each, without the last line feed.
    Refused(String),
}

/// What is reported of a file of messages.
#[derive(Drop)]
pub struct CheckReport<'a> {
    /// The name of the file, as it was given.
    pub file: &'a str,
    /// The SHA-256 digest of the file; None where it was not read.
    pub digest: Option<[u8; 32]>,
    /// The profiles of the bus.
    pub profiles: Vec<CheckedProfile<'a>>,
    /// The tables of names.
    pub tables: Vec<NamesTable<'a>>,
    /// The times by which the load was computed.
    pub times: LoadTimes,
    pub outcome: CheckOutcome,
    pub head: ReportHead<'a>,
}

impl CheckOutcome {
    /// Whether the file was played, and each of its messages ends well.
    pub fn passes(&self) -> bool
        ensures { result ≡ file_passes self.now }
    {
        match self {
            CheckOutcome::Judged(judged) => told_in(judged.messages.as_slice()) == 0,
            CheckOutcome::Refused(_) => false,
        }
    }

    /// Whether the file was played, and each of its messages ends well, in every order.
    pub fn in_every_order(&self) -> bool
        ensures { result ≡ file_in_every_order self.now }
    {
        match self {
            CheckOutcome::Judged(judged) => judged.in_every_order(),
            CheckOutcome::Refused(_) => false,
        }
    }

    /// How many messages it has; None where it was not played.
    pub fn messages(&self) -> Option<usize>
        ensures { result ≡ file_messages self.now }
    {
        match self {
            CheckOutcome::Judged(judged) => Some(judged.messages.len()),
            CheckOutcome::Refused(_) => None,
        }
    }

    /// Why it was not played, where it was not.
    pub fn fault(&self) -> Option<&str>
        ensures { option_map (λ t. t.now) result ≡ file_fault self.now }
    {
        match self {
            CheckOutcome::Judged(_) => None,
            CheckOutcome::Refused(reason) => Some(reason.as_str()),
        }
    }
}
