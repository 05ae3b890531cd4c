//! Reports that machines read: results of scripts as JSON and JUnit, and how they are counted.
#![tactic(auto)]

mod clauses;
mod fault;
mod head;
mod json;
mod junit;
mod message;
mod result;
mod told;
mod unit;
mod verdict;

pub use clauses::{Scope, ScopeRow, ScriptCount, TriedScript, clause_rows, clauses_in};
pub use fault::{ReplyShown, slot_fault};
pub use head::{FileDigests, NamesTable, ReportHead, digest_text, push_digest};
pub use json::result_json;
pub use junit::{junit_report, junit_suite, push_digest_property, push_property};
pub use message::bench_message;
pub use result::{
    AnswerNames, DifferenceNotes, ScriptOutcome, ScriptResult, Totals, name_at, totals_of,
};
pub use told::{Beside, Wording, answer_told, difference_told, push_markup, push_shown};
pub use unit::{ReplyDifference, UnitVerdict};
pub use verdict::{ScriptVerdict, Unjudged, is_unjudged, result_word, verdict_passes};
