//! The verdict on a script.
ghost use Rattle.std.specs.Prelude.{◌≡◌, ◌≤◌, ◌↔◌, Some, true};
ghost use Rattle.rt1553_report.specs.Verdict.{verdict_fails, verdict_passes, is_unjudged, result_word, unjudged_text, verdict_of, verdict_status};

use rt1553_verify::ScriptWarning;

/// Why a script, or some of it, is not judged, where nothing of it differs.
#[derive(Clone, Copy, Debug, PartialEq, Eq)]
pub enum Unjudged {
    /// It has no event, or states no answer.
    Unstated(ScriptWarning),
    /// It is a recording that began at any time, and no part of it begins afresh after a pause.
    NoPart,
    /// It is a recording, and in some stretch of it gaps that may have come leave too many ways open.
    TooManyWays,
}

impl Unjudged {
    /// The reason in words, in one line.
    pub fn text(self) -> &'static str
        ensures { result.now ≡ unjudged_text self }
    {
        match self {
            Unjudged::Unstated(warning) => warning.text(),
            Unjudged::NoPart => "no part begins afresh after a pause",
            Unjudged::TooManyWays => "gaps that may have come leave too many ways open",
        }
    }
}

/// The verdict on a script that was played, or on the results of a unit.
#[derive(Clone, Copy, Debug, PartialEq, Eq)]
pub enum ScriptVerdict {
    /// Nothing differs.
    Passed,
    /// Something differs.
    Failed,
    /// Nothing differs, and nothing was judged, or not all.
    NotJudged(Unjudged),
}

impl ScriptVerdict {
    /// The verdict by whether nothing differs, and why nothing is judged where nothing does.
    pub fn of(is_same: bool, unjudged: Option<Unjudged>) -> ScriptVerdict
        ensures { result ≡ verdict_of is_same unjudged }
    {
        match (is_same, unjudged) {
            (false, _) => ScriptVerdict::Failed,
            (true, None) => ScriptVerdict::Passed,
            (true, Some(why)) => ScriptVerdict::NotJudged(why),
        }
    }

    /// The status that it asks for: 0 if it passes, 1 if something differs, and 3 if nothing was judged.
    pub fn status(self) -> u8
        ensures status { result ≡ verdict_status self }
        ensures most { result ≤ 3 }
        ensures passes { (result ≡ 0) ↔ (verdict_passes (Some self) ≡ true) }
    {
        match self {
            ScriptVerdict::Passed => 0,
            ScriptVerdict::Failed => 1,
            ScriptVerdict::NotJudged(_) => 3,
        }
    }
}

/// Whether a verdict is that something was judged, and nothing differs.
pub fn verdict_passes(verdict: Option<ScriptVerdict>) -> bool
    ensures { result ≡ verdict_passes verdict }
{
    matches!(verdict, Some(ScriptVerdict::Passed))
}

/// Whether it is that something differs.
pub fn verdict_fails(verdict: Option<ScriptVerdict>) -> bool
    ensures { result ≡ verdict_fails verdict }
{
    matches!(verdict, Some(ScriptVerdict::Failed))
}

/// Whether it is that nothing was judged.
pub fn is_unjudged(verdict: Option<ScriptVerdict>) -> bool
    ensures { result ≡ is_unjudged verdict }
{
    matches!(verdict, Some(ScriptVerdict::NotJudged(_)))
}

/// A verdict in words; None of what was not played.
pub fn result_word(verdict: Option<ScriptVerdict>) -> &'static str
    ensures { result.now ≡ result_word verdict }
{
    match verdict {
        None => "not played",
        Some(ScriptVerdict::Passed) => "passes",
        Some(ScriptVerdict::Failed) => "differs",
        Some(ScriptVerdict::NotJudged(_)) => "not judged",
    }
}
