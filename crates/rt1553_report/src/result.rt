//! What came of scripts that state their answers.
ghost use Rattle.std.specs.Prelude.{◌≡◌, length, filter, option_map};
ghost use Rattle.rt1553_report.specs.Results.{outcome_answers, outcome_fault, outcome_passes, outcome_fails, outcome_is_missing, outcome_is_unjudged, outcome_unit, outcome_verdict, totals_of};

use crate::fault::ReplyShown;
use crate::head::FileDigests;
use crate::told::{Beside, Wording};
use crate::unit::UnitVerdict;
use crate::verdict::{ScriptVerdict, Unjudged, is_unjudged, verdict_fails, verdict_passes};
use rt1553_verify::WrongAnswer;

/// A name for each event that was not answered as stated, in their order, of its message or of its rule; None where one has none.
#[derive(Drop)]
pub struct AnswerNames {
    pub names: Vec<Option<String>>,
}

impl AnswerNames {
    /// The name for the event at this index, from 0.
    pub fn at(&self, index: usize) -> Option<&str> {
        match self.names.as_slice().get(index) {
            Some(Some(name)) => Some(name.as_str()),
            _ => None,
        }
    }
}

/// The name of the message of the event at an index, where there are names and it has one.
pub fn name_at(names: &Option<AnswerNames>, index: usize) -> Option<&str> {
    match names {
        Some(names) => names.at(index),
        None => None,
    }
}

/// In which words events that were not answered as stated are told, and what is told beside each.
#[derive(Drop)]
pub struct DifferenceNotes {
    pub wording: Wording,
    /// The name of the message of each, where there are names.
    pub names: Option<AnswerNames>,
    /// In a recording: the message of each, in the words of a test bench.
    pub messages: AnswerNames,
    /// The rule under which each stands, or its time in a recording: the text of the last comment before it.
    pub rules: AnswerNames,
    /// In a recording, of which one event is told, where its reply came too late: by how much, or empty where that is not known.
    pub late: Option<String>,
    /// And how many data words of it are missing; 0 where that is not known.
    pub missing: u8,
}

impl DifferenceNotes {
    /// What is told beside the event at this index, from 0.
    pub fn beside(&self, index: usize) -> Beside<'_> {
        Beside {
            name: name_at(&self.names, index),
            message: self.messages.at(index),
            rule: self.rules.at(index),
            reply: ReplyShown {
                late: self.late.as_ref().map(|late| late.as_str()),
                missing: self.missing,
            },
        }
    }
}

/// What came of a script.
#[derive(Drop)]
pub enum ScriptOutcome {
    /// It was played.
    Played {
        /// How many answers it states.
        answers: usize,
        /// Why nothing of it is judged, where nothing differs.
        unjudged: Option<Unjudged>,
        /// Each event that was not answered as stated, and how that is told.
        wrong: Vec<WrongAnswer>,
        notes: DifferenceNotes,
        /// The messages in which these events stand, drawn for a page: empty where there is nothing to draw, and None where there is too much.
        drawing: Option<String>,
    },
    /// It is a table of the results of a unit, which were judged by the acceptance test.
    Judged(UnitVerdict),
    /// It can't be read or is refused, for this reason: one line.
    NotPlayed(String),
}

impl ScriptOutcome {
    /// The verdict: of a script that was played, or of a unit; None where it was not played.
    pub fn verdict(&self) -> Option<ScriptVerdict>
        ensures { result ≡ outcome_verdict self.now }
    {
        match self {
            ScriptOutcome::Played {
                wrong,
                unjudged,
                ..
            } => Some(ScriptVerdict::of(wrong.is_empty(), *unjudged)),
            ScriptOutcome::Judged(unit) => Some(ScriptVerdict::of(unit.passes(), None)),
            ScriptOutcome::NotPlayed(_) => None,
        }
    }

    /// Whether something was judged, and each event was answered as stated; or the unit is the terminal, or can be.
    pub fn passes(&self) -> bool
        ensures { result ≡ outcome_passes self.now }
    {
        verdict_passes(self.verdict())
    }

    /// Whether it was played, and an event was not answered as stated; or a result of the unit differs or is missing.
    pub fn fails(&self) -> bool
        ensures { result ≡ outcome_fails self.now }
    {
        verdict_fails(self.verdict())
    }

    /// Whether it was played, and nothing of it was judged.
    pub fn is_unjudged(&self) -> bool
        ensures { result ≡ outcome_is_unjudged self.now }
    {
        is_unjudged(self.verdict())
    }

    /// Why nothing of it is judged where nothing differs, in words.
    pub fn warning(&self) -> Option<&'static str> {
        match self {
            ScriptOutcome::Played {
                unjudged: Some(why),
                ..
            } => Some(why.text()),
            _ => None,
        }
    }

    /// Whether it can't be read or is refused.
    pub fn is_not_played(&self) -> bool
        ensures { result ≡ outcome_is_missing self.now }
    {
        match self {
            ScriptOutcome::Played { .. } => false,
            ScriptOutcome::Judged(_) => false,
            ScriptOutcome::NotPlayed(_) => true,
        }
    }

    /// How many answers it states, or exchanges the acceptance test has. None where it was not played.
    pub fn answers(&self) -> Option<usize>
        ensures { result ≡ outcome_answers self.now }
    {
        match self {
            ScriptOutcome::Played { answers, .. } => Some(*answers),
            ScriptOutcome::Judged(unit) => Some(unit.exchanges as usize),
            ScriptOutcome::NotPlayed(_) => None,
        }
    }

    /// The verdict on a unit in a line, where its results were judged.
    pub fn unit_verdict(&self) -> Option<&str>
        ensures { option_map (λ t. t.now) result ≡ outcome_unit self.now }
    {
        match self {
            ScriptOutcome::Judged(unit) => Some(unit.text.as_str()),
            _ => None,
        }
    }

    /// Why it was not played, where it was not.
    pub fn fault(&self) -> Option<&str>
        ensures { option_map (λ t. t.now) result ≡ outcome_fault self.now }
    {
        match self {
            ScriptOutcome::NotPlayed(reason) => Some(reason.as_str()),
            _ => None,
        }
    }
}

/// A script, and what came of it.
#[derive(Drop)]
pub struct ScriptResult {
    /// The name of its file, as it was given.
    pub file: String,
    /// The name of the profile, as it was given or as the script names it; None where it names none.
    pub profile: Option<String>,
    /// The clauses that the script names, each once.
    pub clauses: Vec<Vec<u8>>,
    pub digests: FileDigests,
    pub outcome: ScriptOutcome,
}

/// How many scripts there are, and how many of them did not pass.
#[derive(Clone, Copy, Debug, PartialEq, Eq)]
pub struct Totals {
    pub tests: usize,
    /// Those in which an event was not answered as stated.
    pub failures: usize,
    /// Those that can't be read or are refused.
    pub errors: usize,
    /// Those of which nothing was judged.
    pub skipped: usize,
}

/// How many scripts have an event that was not answered as stated.
fn failures_in(results: &[ScriptResult]) -> usize
    ensures { result ≡ length (filter (λ r. outcome_fails r.outcome) results.now) }
{
    let mut count = 0;
    for of in results {
        if of.outcome.fails() {
            count += 1;
        }
    }
    count
}

/// How many scripts were not played.
fn errors_in(results: &[ScriptResult]) -> usize
    ensures { result ≡ length (filter (λ r. outcome_is_missing r.outcome) results.now) }
{
    let mut count = 0;
    for of in results {
        if of.outcome.is_not_played() {
            count += 1;
        }
    }
    count
}

/// How many scripts were played of which nothing was judged.
fn skipped_in(results: &[ScriptResult]) -> usize
    ensures { result ≡ length (filter (λ r. outcome_is_unjudged r.outcome) results.now) }
{
    let mut count = 0;
    for of in results {
        if of.outcome.is_unjudged() {
            count += 1;
        }
    }
    count
}

/// Counts scripts by what came of them.
pub fn totals_of(results: &[ScriptResult]) -> Totals
    ensures { result ≡ totals_of results.now }
{
    Totals {
        tests: results.len(),
        failures: failures_in(results),
        errors: errors_in(results),
        skipped: skipped_in(results),
    }
}
