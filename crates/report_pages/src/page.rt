//! Results as a page.
ghost use Rattle.std.specs.Prelude.{◌≡◌, ℕ, List, Some, IfOk, OnOk, map, option_map, string_bytes};
ghost use Rattle.report_pages.specs.CoveragePage.{AreRowsOf};
ghost use Rattle.rt1553_report.specs.Pieces.{AddsPiece};
ghost use Rattle.rt1553_report.specs.Results.{outcome_answers, outcome_verdict};
ghost use Rattle.report_pages.specs.ResultsPage.{AreHeadRows, IsClauseLine, IsDateRow, IsDigestRow, IsNamesRow, IsProfileField, IsProfileRow, IsResultsPage, IsScriptRow, answers_field, digest_cell, digest_field, digest_line, digest_told, verdict_begin, verdict_field};

use crate::fields::{push_count_field, push_count_row, push_file_row};
use crate::style::RESULTS_STYLE;
use drawing_boxes::push_escaped;
use message_names::quoted;
use rt1553_draw::{MOST_STATED, push_front, push_keys};
use rt1553_report::{
    Beside, DifferenceNotes, FileDigests, NamesTable, ReplyDifference, ReplyShown, ReportHead,
    Scope, ScopeRow, ScriptOutcome, ScriptResult, Totals, TriedScript, UnitVerdict, Wording,
    answer_told, clause_rows, push_digest, push_markup, push_shown, result_word, slot_fault,
    totals_of,
};
use rt1553_verify::WrongAnswer;
use std::alloc::{AllocError, Global};
use std::format;

/// How the table of scripts begins.
const SCRIPTS_HEAD: &str =
    "<h2>Files</h2>\n<table>\n<thead><tr><th scope=\"col\">file</th><th scope=\"col\">profile</th><th scope=\"col\">result</th><th scope=\"col\">answers</th><th scope=\"col\">clauses</th><th scope=\"col\">SHA-256</th></tr></thead>\n<tbody>\n";

/// How the table of replies that differ begins, up to the names of messages, and from there on.
const DIFFERENCES_HEAD: &str =
    "<table>\n<thead><tr><th scope=\"col\">line</th><th scope=\"col\">exchange</th>";

const REPLIES_HEAD: &str =
    "<th scope=\"col\">tries</th><th scope=\"col\">command</th><th scope=\"col\">word</th><th scope=\"col\">expected</th><th scope=\"col\">came</th></tr></thead>\n<tbody>\n";

/// A profile by which scripts were tested.
#[derive(Clone, Copy)]
struct TestedProfile<'a> {
    name: &'a str,
    /// Those of the first script that names it.
    digests: FileDigests,
}

/// The clauses of each script, and the verdict on it.
fn tried_of(alloc: Global, results: &[ScriptResult]) -> Result<Vec<TriedScript>, AllocError>
    ensures { IfOk result (λ tried. map (λ t. t.verdict) tried.items ≡ map (λ r. outcome_verdict r.outcome) results.now) }
{
    let mut tried = Vec::new(alloc);
    for of in results {
        tried.push(TriedScript {
            clauses: of.clauses.clone()?,
            verdict: of.outcome.verdict(),
        })?;
    }
    Ok(tried)
}

/// Whether the profile of a result was there before.
fn is_profile_told(results: &[ScriptResult], name: &str) -> bool {
    for of in results {
        if let Some(profile) = &of.profile {
            if profile.as_str() == name {
                return true;
            }
        }
    }
    false
}

/// The first result of each profile.
fn first_of_profiles<'a>(
    alloc: Global,
    results: &'a [ScriptResult],
) -> Result<Vec<TestedProfile<'a>>, AllocError> {
    let mut profiles = Vec::new(alloc);
    for (index, of) in results.iter().enumerate() {
        if let Some(profile) = &of.profile {
            if !is_profile_told(&results[..index], profile.as_str()) {
                profiles.push(TestedProfile {
                    name: profile.as_str(),
                    digests: of.digests,
                })?;
            }
        }
    }
    Ok(profiles)
}

/// Writes a digest in a field, behind what it is of.
fn push_digest_told(
    alloc: Global,
    page: &mut String,
    what: &str,
    digest: [u8; 32],
) -> Result<(), AllocError>
    ensures { OnOk result (AddsPiece (string_bytes page.old) (string_bytes page.new) (digest_told what.now digest)) }
{
    push_markup(page, "<br/>")?;
    push_markup(page, what)?;
    push_markup(page, " <code>")?;
    push_digest(alloc, page, digest)?;
    push_markup(page, "</code>")
}

/// The same, where there is one.
fn push_digest_line(
    alloc: Global,
    page: &mut String,
    what: &str,
    digest: Option<[u8; 32]>,
) -> Result<(), AllocError>
    ensures { OnOk result (AddsPiece (string_bytes page.old) (string_bytes page.new) (digest_line what.now digest)) }
{
    match digest {
        Some(digest) => push_digest_told(alloc, page, what, digest),
        None => Ok(()),
    }
}

/// Writes the row of a file with digests: that of its text, and that of the canonical text of a profile.
fn push_digest_row(
    alloc: Global,
    page: &mut String,
    what: &str,
    file: &str,
    own: Option<[u8; 32]>,
    canonical: Option<[u8; 32]>,
) -> Result<(), AllocError>
    ensures { OnOk result ((row : List ℕ) × IsDigestRow what.now file.now own canonical row × AddsPiece (string_bytes page.old) (string_bytes page.new) row) }
{
    push_markup(page, "<tr><th scope=\"row\">")?;
    push_markup(page, what)?;
    push_markup(page, "</th><td>")?;
    push_shown(alloc, page, file.as_bytes())?;
    push_digest_line(alloc, page, "SHA-256", own)?;
    push_digest_line(alloc, page, "SHA-256 of its canonical text", canonical)?;
    push_markup(page, "</td></tr>\n")
}

/// Writes the row of a profile.
fn push_profile(
    alloc: Global,
    page: &mut String,
    profile: &TestedProfile<'_>,
) -> Result<(), AllocError>
    ensures { OnOk result ((row : List ℕ) × IsProfileRow profile.now row × AddsPiece (string_bytes page.old) (string_bytes page.new) row) }
{
    let digests = profile.digests;
    push_digest_row(
        alloc,
        page,
        "profile",
        profile.name,
        digests.profile,
        digests.canonical,
    )
}

/// Writes a row for each profile.
fn push_profiles(
    alloc: Global,
    page: &mut String,
    profiles: &[TestedProfile<'_>],
) -> Result<(), AllocError>
    ensures { OnOk result ((rows : List ℕ) × AreRowsOf IsProfileRow profiles.now rows × AddsPiece (string_bytes page.old) (string_bytes page.new) rows) }
{
    for profile in profiles {
        push_profile(alloc, page, profile)?;
    }
    Ok(())
}

/// Writes the row of the date.
fn push_date_row(alloc: Global, page: &mut String, date: &str) -> Result<(), AllocError>
    ensures { OnOk result ((row : List ℕ) × IsDateRow (Some date.now) row × AddsPiece (string_bytes page.old) (string_bytes page.new) row) }
{
    push_file_row(alloc, page, "date", date)
}

/// The same, where there is one.
fn push_date(alloc: Global, page: &mut String, date: Option<&str>) -> Result<(), AllocError>
    ensures { OnOk result ((row : List ℕ) × IsDateRow (option_map (λ d. d.now) date.entry) row × AddsPiece (string_bytes page.old) (string_bytes page.new) row) }
{
    match date {
        Some(date) => push_date_row(alloc, page, date),
        None => Ok(()),
    }
}

/// Writes the row of the table of names.
fn push_table_row(alloc: Global, page: &mut String, table: NamesTable<'_>) -> Result<(), AllocError>
    ensures { OnOk result ((row : List ℕ) × IsNamesRow (Some table.entry) row × AddsPiece (string_bytes page.old) (string_bytes page.new) row) }
{
    push_digest_row(alloc, page, "names", table.file, Some(table.digest), None)
}

/// The same, where there is one.
fn push_names(
    alloc: Global,
    page: &mut String,
    names: Option<NamesTable<'_>>,
) -> Result<(), AllocError>
    ensures { OnOk result ((row : List ℕ) × IsNamesRow names.entry row × AddsPiece (string_bytes page.old) (string_bytes page.new) row) }
{
    match names {
        Some(table) => push_table_row(alloc, page, table),
        None => Ok(()),
    }
}

/// Writes a row for each version, the date, and the table of names.
fn push_head(alloc: Global, page: &mut String, head: ReportHead<'_>) -> Result<(), AllocError>
    ensures { OnOk result ((rows : List ℕ) × AreHeadRows head.entry rows × AddsPiece (string_bytes page.old) (string_bytes page.new) rows) }
{
    push_file_row(alloc, page, "rt1553-tool", head.program)?;
    push_file_row(alloc, page, "toolchain", head.toolchain)?;
    push_file_row(alloc, page, "canonical text", head.canonical)?;
    push_date(alloc, page, head.date)?;
    push_names(alloc, page, head.names)
}

/// How many answers are stated in the scripts that were played.
fn answers_of(results: &[ScriptResult]) -> usize {
    let mut all = 0usize;
    for of in results {
        all = all.saturating_add(of.outcome.answers().unwrap_or(0));
    }
    all
}

/// How many files pass.
fn passed_in(totals: Totals) -> usize {
    totals
        .tests
        .saturating_sub(totals.failures)
        .saturating_sub(totals.errors)
        .saturating_sub(totals.skipped)
}

/// Writes how many scripts there are, and what came of them.
fn push_sums(page: &mut String, results: &[ScriptResult]) -> Result<(), AllocError> {
    let totals = totals_of(results);
    push_count_row(page, "files", totals.tests)?;
    push_count_row(page, "files that pass", passed_in(totals))?;
    push_count_row(page, "files that differ", totals.failures)?;
    push_count_row(page, "files not judged", totals.skipped)?;
    push_count_row(page, "files refused or not read", totals.errors)?;
    push_count_row(page, "answers stated", answers_of(results))
}

/// The verdict on a unit, where its results are all that was judged.
fn verdict_in(results: &[ScriptResult]) -> Option<&str> {
    match results {
        [one] => one.outcome.unit_verdict(),
        _ => None,
    }
}

/// The rows of `push_sums`, and the table clause by clause; a table of results names no clause.
fn sums_text(alloc: Global, results: &[ScriptResult]) -> Result<String, AllocError> {
    let mut text = String::new(alloc);
    push_sums(&mut text, results)?;
    push_markup(&mut text, "</table>\n")?;
    if verdict_in(results).is_none() {
        push_clauses(alloc, &mut text, results)?;
    }
    Ok(text)
}

/// Writes a row of the table clause by clause.
fn push_scope(alloc: Global, page: &mut String, row: ScopeRow<'_>) -> Result<(), AllocError> {
    page.push_str("<tr><th scope=\"row\">")?;
    match row.scope {
        Scope::Clause(clause) => push_shown(alloc, page, clause)?,
        Scope::NoClause => page.push_str("no clause")?,
        Scope::All => page.push_str("all")?,
    }
    let count = row.count;
    let class = if count.passed == count.scripts {
        "count"
    } else {
        "count differs"
    };
    writeln!(
        page,
        "</th><td class=\"{class}\">{}</td><td class=\"count\">{}</td><td class=\"count\">{}</td></tr>",
        count.passed, count.scripts, count.not_judged
    )
}

/// Writes how many scripts pass, clause by clause.
fn push_clauses(
    alloc: Global,
    page: &mut String,
    results: &[ScriptResult],
) -> Result<(), AllocError> {
    let tried = tried_of(alloc, results)?;
    let rows = clause_rows(alloc, tried.as_slice())?;
    page.push_str(
        "<h2>Clause by clause</h2>\n<table>\n<thead><tr><th scope=\"col\">clause</th><th scope=\"col\">passed</th><th scope=\"col\">of</th><th scope=\"col\">not judged</th></tr></thead>\n<tbody>\n",
    )?;
    for row in rows.as_slice() {
        push_scope(alloc, page, *row)?;
    }
    page.push_str("</tbody>\n</table>\n")
}

/// Writes how the field of a verdict begins. That of a script that does not pass is marked.
fn push_verdict_begin(page: &mut String, passes: bool) -> Result<(), AllocError>
    ensures { OnOk result (AddsPiece (string_bytes page.old) (string_bytes page.new) (verdict_begin passes)) }
{
    if passes {
        push_markup(page, "<td>")
    } else {
        push_markup(page, "<td class=\"differs\">")
    }
}

/// Writes what came of a script.
fn push_verdict(page: &mut String, outcome: &ScriptOutcome) -> Result<(), AllocError>
    ensures { OnOk result (AddsPiece (string_bytes page.old) (string_bytes page.new) (verdict_field outcome.now)) }
{
    push_verdict_begin(page, outcome.passes())?;
    push_markup(page, result_word(outcome.verdict()))?;
    push_markup(page, "</td>")
}

/// Writes how many answers a script states; nothing for one that was not played.
fn push_count(page: &mut String, outcome: &ScriptOutcome) -> Result<(), AllocError>
    ensures { OnOk result (AddsPiece (string_bytes page.old) (string_bytes page.new) (answers_field (outcome_answers outcome.now))) }
{
    match outcome.answers() {
        Some(answers) => push_count_field(page, answers as u64),
        None => push_markup(page, "<td></td>"),
    }
}

/// Writes a clause in a field, on a line of its own.
fn push_clause(alloc: Global, page: &mut String, clause: &Vec<u8>) -> Result<(), AllocError>
    ensures { OnOk result ((line : List ℕ) × IsClauseLine clause.now.items line × AddsPiece (string_bytes page.old) (string_bytes page.new) line) }
{
    push_shown(alloc, page, clause.as_slice())?;
    push_markup(page, "<br/>")
}

/// Writes the clauses of a script in a field.
fn push_clause_lines(
    alloc: Global,
    page: &mut String,
    clauses: &[Vec<u8>],
) -> Result<(), AllocError>
    ensures { OnOk result ((lines : List ℕ) × AreRowsOf (λ c. IsClauseLine c.items) clauses.now lines × AddsPiece (string_bytes page.old) (string_bytes page.new) lines) }
{
    for clause in clauses {
        push_clause(alloc, page, clause)?;
    }
    Ok(())
}

/// Writes the field of a digest.
fn push_digest_cell(alloc: Global, page: &mut String, digest: [u8; 32]) -> Result<(), AllocError>
    ensures { OnOk result (AddsPiece (string_bytes page.old) (string_bytes page.new) (digest_cell digest)) }
{
    push_markup(page, "<td><code>")?;
    push_digest(alloc, page, digest)?;
    push_markup(page, "</code></td>")
}

/// The same, empty for none.
fn push_digest_field(
    alloc: Global,
    page: &mut String,
    digest: Option<[u8; 32]>,
) -> Result<(), AllocError>
    ensures { OnOk result (AddsPiece (string_bytes page.old) (string_bytes page.new) (digest_field digest)) }
{
    match digest {
        Some(digest) => push_digest_cell(alloc, page, digest),
        None => push_markup(page, "<td></td>"),
    }
}

/// Writes the field of the name of a profile.
fn push_profile_cell(alloc: Global, page: &mut String, profile: &str) -> Result<(), AllocError>
    ensures { OnOk result ((field : List ℕ) × IsProfileField (Some profile.now) field × AddsPiece (string_bytes page.old) (string_bytes page.new) field) }
{
    push_markup(page, "<td>")?;
    push_shown(alloc, page, profile.as_bytes())?;
    push_markup(page, "</td>")
}

/// The same, empty for none.
fn push_profile_field(
    alloc: Global,
    page: &mut String,
    profile: &Option<String>,
) -> Result<(), AllocError>
    ensures { OnOk result ((field : List ℕ) × IsProfileField (option_map string_bytes profile.now) field × AddsPiece (string_bytes page.old) (string_bytes page.new) field) }
{
    match profile {
        Some(profile) => push_profile_cell(alloc, page, profile.as_str()),
        None => push_markup(page, "<td></td>"),
    }
}

/// Writes the row of a script.
fn push_script(alloc: Global, page: &mut String, of: &ScriptResult) -> Result<(), AllocError>
    ensures { OnOk result ((row : List ℕ) × IsScriptRow of.now row × AddsPiece (string_bytes page.old) (string_bytes page.new) row) }
{
    push_markup(page, "<tr><th scope=\"row\">")?;
    push_shown(alloc, page, of.file.as_str().as_bytes())?;
    push_markup(page, "</th>")?;
    push_profile_field(alloc, page, &of.profile)?;
    push_verdict(page, &of.outcome)?;
    push_count(page, &of.outcome)?;
    push_markup(page, "<td>")?;
    push_clause_lines(alloc, page, of.clauses.as_slice())?;
    push_markup(page, "</td>")?;
    push_digest_field(alloc, page, of.digests.script)?;
    push_markup(page, "</tr>\n")
}

/// Writes a row for each script.
fn push_scripts(
    alloc: Global,
    page: &mut String,
    results: &[ScriptResult],
) -> Result<(), AllocError>
    ensures { OnOk result ((rows : List ℕ) × AreRowsOf IsScriptRow results.now rows × AddsPiece (string_bytes page.old) (string_bytes page.new) rows) }
{
    for of in results {
        push_script(alloc, page, of)?;
    }
    Ok(())
}

/// Writes a line of a transcript, or that there is none.
fn push_answer(alloc: Global, page: &mut String, answer: &[u8]) -> Result<(), AllocError> {
    page.push_str("<td class=\"line\">")?;
    match answer_told(alloc, answer)? {
        Some(line) => push_escaped(page, line.as_str())?,
        None => page.push_str("nothing")?,
    }
    page.push_str("</td>")
}

/// How the columns behind the line and the message are headed: the rule or the time, what is wrong with a unit, and the two answers.
fn wrong_headings(wording: Wording) -> (&'static str, &'static str) {
    match wording {
        Wording::Test => (
            "<th scope=\"col\">rule</th>",
            "<th scope=\"col\">expected</th><th scope=\"col\">came</th></tr></thead>\n<tbody>\n",
        ),
        Wording::Recording => (
            "<th scope=\"col\">time</th>",
            "<th scope=\"col\">fault</th><th scope=\"col\">recorded</th><th scope=\"col\">the terminal sends</th></tr></thead>\n<tbody>\n",
        ),
    }
}

/// Writes the head of the table of events.
fn push_wrong_head(page: &mut String, notes: &DifferenceNotes) -> Result<(), AllocError> {
    let (rule, answers) = wrong_headings(notes.wording);
    page.push_str("<table>\n<thead><tr><th scope=\"col\">line</th>")?;
    if has_messages(notes) {
        page.push_str("<th scope=\"col\">message</th>")?;
    }
    if !notes.rules.names.is_empty() {
        page.push_str(rule)?;
    }
    page.push_str(answers)
}

/// Writes a field.
fn push_field(page: &mut String, field: &str) -> Result<(), AllocError> {
    page.push_str("<td>")?;
    push_escaped(page, field)?;
    page.push_str("</td>")
}

/// Writes the name of a message in a field, empty for none.
fn push_name_field(alloc: Global, page: &mut String, name: Option<&str>) -> Result<(), AllocError> {
    match name {
        Some(name) => push_field(page, quoted(alloc, name)?.as_str()),
        None => push_field(page, ""),
    }
}

/// Whether the message of each event has a field: where there are names, and in a recording.
fn has_messages(notes: &DifferenceNotes) -> bool {
    notes.names.is_some() || notes.wording == Wording::Recording
}

/// Writes the name of the message of an event, or in a recording the message, where it has no name.
fn push_message(
    alloc: Global,
    page: &mut String,
    notes: &DifferenceNotes,
    beside: Beside<'_>,
) -> Result<(), AllocError> {
    match (beside.name, beside.message) {
        _ if !has_messages(notes) => Ok(()),
        (None, Some(message)) => push_field(page, message),
        (name, _) => push_name_field(alloc, page, name),
    }
}

/// Writes the rule under which an event stands, or its time, where there are any.
fn push_rule(
    page: &mut String,
    notes: &DifferenceNotes,
    beside: Beside<'_>,
) -> Result<(), AllocError> {
    if notes.rules.names.is_empty() {
        return Ok(());
    }
    push_field(page, beside.rule.unwrap_or(""))
}

/// Writes what is wrong with a unit, where a recording tells it.
fn push_fault(
    alloc: Global,
    page: &mut String,
    wording: Wording,
    one: &WrongAnswer,
    reply: ReplyShown<'_>,
) -> Result<(), AllocError> {
    match wording {
        Wording::Test => Ok(()),
        Wording::Recording => {
            let (recorded, sent) = (one.expected.as_slice(), one.came.as_slice());
            let fault = slot_fault(alloc, recorded, sent, reply)?;
            push_field(page, fault.as_str())
        }
    }
}

/// Writes each event that was not answered as stated.
fn push_wrong(
    alloc: Global,
    page: &mut String,
    wrong: &[WrongAnswer],
    notes: &DifferenceNotes,
) -> Result<(), AllocError> {
    push_wrong_head(page, notes)?;
    for (index, one) in wrong.iter().enumerate() {
        let beside = notes.beside(index);
        write!(page, "<tr><td class=\"count\">{}</td>", one.line)?;
        push_message(alloc, page, notes, beside)?;
        push_rule(page, notes, beside)?;
        push_fault(alloc, page, notes.wording, one, beside.reply)?;
        push_answer(alloc, page, one.expected.as_slice())?;
        push_answer(alloc, page, one.came.as_slice())?;
        page.push_str("</tr>\n")?;
    }
    page.push_str("</tbody>\n</table>\n")
}

/// Writes the drawing of the messages in which something differs, of so many events, or that there is none.
fn push_drawing(
    page: &mut String,
    differing: usize,
    drawing: &Option<String>,
) -> Result<(), AllocError> {
    match drawing {
        Some(drawing) => {
            if differing > MOST_STATED {
                page.push_str("<p>Drawn are the messages of the first 1,024 differences.</p>\n")?;
            }
            page.push_str(drawing.as_str())
        }
        None => page.push_str("<p>Not drawn: the recording has over 1,048,576 bytes.</p>\n"),
    }
}

/// Writes a word of a reply. One in place of which the other reply has another, or none, is marked.
fn push_word(page: &mut String, word: u16, is_same: bool) -> Result<(), AllocError> {
    if is_same {
        write!(page, "{word:04x} ")
    } else {
        write!(page, "<b class=\"differs\">{word:04x}</b> ")
    }
}

/// Writes the words of a reply, beside which stands the other one.
fn push_reply(page: &mut String, reply: &[u16], other: &[u16]) -> Result<(), AllocError> {
    page.push_str("<td class=\"line\">")?;
    for (index, word) in reply.iter().enumerate() {
        push_word(page, *word, other.get(index) == Some(word))?;
    }
    page.push_str(if reply.is_empty() {
        "none</td>"
    } else {
        "</td>"
    })
}

/// Writes the row of a reply that is not that of the terminal.
fn push_difference(
    alloc: Global,
    page: &mut String,
    one: &ReplyDifference,
    has_names: bool,
) -> Result<(), AllocError> {
    let reply = &one.reply;
    write!(
        page,
        "<tr><td class=\"count\">{}</td><td class=\"count\">{}</td>",
        one.line, reply.number
    )?;
    if has_names {
        push_name_field(alloc, page, one.name.as_ref().map(|name| name.as_str()))?;
    }
    write!(
        page,
        "<td>{}</td><td class=\"line\">{:04x}</td><td class=\"count\">{}</td>",
        reply.label.as_str(),
        reply.command,
        reply.differing_word()
    )?;
    push_reply(page, reply.expected.as_slice(), reply.came.as_slice())?;
    push_reply(page, reply.came.as_slice(), reply.expected.as_slice())?;
    page.push_str("</tr>\n")
}

/// Writes each reply that is not that of the terminal.
fn push_differences(
    alloc: Global,
    page: &mut String,
    unit: &UnitVerdict,
) -> Result<(), AllocError> {
    page.push_str(DIFFERENCES_HEAD)?;
    page.push_str(if unit.has_names {
        "<th scope=\"col\">message</th>"
    } else {
        ""
    })?;
    page.push_str(REPLIES_HEAD)?;
    for one in unit.differences.as_slice() {
        push_difference(alloc, page, one, unit.has_names)?;
    }
    page.push_str("</tbody>\n</table>\n")
}

/// Writes what the results of a unit tell of it.
fn push_unit(alloc: Global, page: &mut String, unit: &UnitVerdict) -> Result<(), AllocError> {
    page.push_str("<p>")?;
    push_escaped(page, unit.text.as_str())?;
    page.push_str("</p>\n")?;
    if !unit.differences.is_empty() {
        push_differences(alloc, page, unit)?;
    }
    for numbers in unit.missing.as_slice() {
        writeln!(page, "<p class=\"differs\">{numbers}</p>")?;
    }
    Ok(())
}

/// Writes what came of a script that fails or was not played.
fn push_result(alloc: Global, page: &mut String, of: &ScriptResult) -> Result<(), AllocError> {
    page.push_str("<h3>")?;
    push_shown(alloc, page, of.file.as_str().as_bytes())?;
    page.push_str("</h3>\n")?;
    match &of.outcome {
        ScriptOutcome::NotPlayed(reason) => {
            page.push_str("<p class=\"differs\">")?;
            push_escaped(page, reason.as_str())?;
            page.push_str("</p>\n")
        }
        ScriptOutcome::Judged(unit) => push_unit(alloc, page, unit),
        ScriptOutcome::Played {
            answers,
            wrong,
            notes,
            drawing,
            ..
        } => {
            writeln!(
                page,
                "<p>differences: {}; answers stated: {answers}</p>",
                wrong.len()
            )?;
            push_wrong(alloc, page, wrong.as_slice(), notes)?;
            push_drawing(page, wrong.len(), drawing)
        }
    }
}

/// Writes what fails or was not played, script by script.
fn push_results(
    alloc: Global,
    page: &mut String,
    results: &[ScriptResult],
) -> Result<(), AllocError> {
    page.push_str("<h2>Failures</h2>\n")?;
    let mut is_clean = true;
    for of in results {
        if of.outcome.fails() || of.outcome.is_not_played() {
            if is_clean && has_drawing(results) {
                push_keys(page)?;
            }
            is_clean = false;
            push_result(alloc, page, of)?;
        }
    }
    if is_clean {
        page.push_str(if totals_of(results).skipped == 0 {
            "<p>None: every file passes.</p>\n"
        } else {
            "<p>None: every file passes of which something was judged.</p>\n"
        })?;
    }
    Ok(())
}

/// Writes of which scripts nothing was judged, and which have too little to be judged where nothing differs, and why.
fn push_warnings(
    alloc: Global,
    page: &mut String,
    results: &[ScriptResult],
) -> Result<(), AllocError> {
    let mut is_first = true;
    for of in results {
        if let Some(warning) = of.outcome.warning() {
            page.push_str(if is_first { "<h2>Warnings</h2>\n" } else { "" })?;
            is_first = false;
            page.push_str("<p class=\"differs\">")?;
            push_shown(alloc, page, of.file.as_str().as_bytes())?;
            let verdict = if of.outcome.is_unjudged() {
                "not judged: "
            } else {
                ""
            };
            writeln!(page, ": {verdict}{warning}</p>")?;
        }
    }
    Ok(())
}

/// Whether something is drawn.
fn has_drawing(results: &[ScriptResult]) -> bool {
    for of in results {
        if let ScriptOutcome::Played {
            drawing: Some(drawing),
            ..
        } = &of.outcome
        {
            if !drawing.is_empty() {
                return true;
            }
        }
    }
    false
}

/// What of the page comes behind its table of scripts.
fn failures_text(alloc: Global, results: &[ScriptResult]) -> Result<String, AllocError> {
    let mut text = String::new(alloc);
    push_warnings(alloc, &mut text, results)?;
    push_results(alloc, &mut text, results)?;
    Ok(text)
}

/// The title of the page: the verdict on a unit, or how many files pass.
fn title_of(alloc: Global, results: &[ScriptResult]) -> Result<String, AllocError> {
    if let Some(verdict) = verdict_in(results) {
        return format!(in alloc; "Acceptance test of a unit: {verdict}");
    }
    let totals = totals_of(results);
    let passed = passed_in(totals);
    format!(in alloc;
        "Tests of a terminal: {passed} of {} files pass",
        totals.tests
    )
}

/// The results of scripts as a page of its own: HTML without code, and well-formed XML too. What was tested, with versions and digests;
/// how many scripts pass, clause by clause; each script, with what came of it; of which scripts nothing was judged; and of each script
/// that fails each event that was not answered as stated, and its drawing.
pub fn results_page(
    alloc: Global,
    head: ReportHead<'_>,
    results: &[ScriptResult],
) -> Result<String, AllocError>
    ensures { IfOk result (λ page. IsResultsPage head.entry results.now (string_bytes page)) }
{
    let profiles = first_of_profiles(alloc, results)?;
    let (sums, failures) = (sums_text(alloc, results)?, failures_text(alloc, results)?);
    let mut page = String::new(alloc);
    push_front(&mut page, title_of(alloc, results)?.as_str(), RESULTS_STYLE)?;
    push_markup(&mut page, "<h2>What was tested</h2>\n<table>\n")?;
    push_head(alloc, &mut page, head)?;
    push_profiles(alloc, &mut page, profiles.as_slice())?;
    push_markup(&mut page, sums.as_str())?;
    push_markup(&mut page, SCRIPTS_HEAD)?;
    push_scripts(alloc, &mut page, results)?;
    push_markup(&mut page, "</tbody>\n</table>\n")?;
    push_markup(&mut page, failures.as_str())?;
    push_markup(&mut page, "</body></html>\n")?;
    Ok(page)
}
