//! What recordings show of a terminal, as a page.
ghost use Rattle.std.specs.Prelude.{ℕ, List, Some, option_map, map, OnOk, IfOk, string_bytes, codes, if◌then◌else◌};
ghost use Rattle.bus_word.specs.Command.{is_mode, count_of};
ghost use Rattle.recording_coverage.specs.Places.{has_come, word_count_in};
ghost use Rattle.rt1553_report.specs.Pieces.{AddsPiece};
ghost use Rattle.report_pages.specs.CoveragePage.{AreRowsOf, words_field, outcome_fields, IsNamed, IsNameField, row_begin, come_field, IsLegalRow, IsIllegalRow, IsFileRow, sum_rows, IsReadPart, names_head, table_head, IsLegalPart, IsIllegalTable, IsCoveragePage};

use crate::fields::{push_count_field, push_count_row, push_file_row};
use crate::style::RESULTS_STYLE;
use bus_word::{Cell, Command, cell_of};
use message_names::MessageNames;
use recording_coverage::{
    CoverageTable, CoveredMessage, IllegalMessage, OutcomeCounts, come_in, done_in, has_come,
    push_command, push_place, word_count_in,
};
use rt1553_draw::push_front;
use rt1553_report::{push_markup, push_shown};
use std::alloc::{AllocError, Global};

/// Writes a field with a word count, which is empty for a mode code.
fn push_words(page: &mut String, count: u8) -> Result<(), AllocError>
    ensures { OnOk result (AddsPiece (string_bytes page.old) (string_bytes page.new) (words_field count)) }
{
    if count == 0 {
        push_markup(page, "<td></td>")
    } else {
        push_count_field(page, u64::from(count))
    }
}

/// Writes how often a message came to each outcome.
fn push_outcomes(page: &mut String, counts: OutcomeCounts) -> Result<(), AllocError>
    ensures { OnOk result (AddsPiece (string_bytes page.old) (string_bytes page.new) (outcome_fields counts)) }
{
    push_count_field(page, counts.done)?;
    push_count_field(page, counts.blocked)?;
    push_count_field(page, counts.illegal)?;
    push_count_field(page, counts.in_error)?;
    push_count_field(page, counts.superseded)?;
    push_count_field(page, counts.left_open)
}

/// Writes the field of a name.
fn push_quoted(alloc: Global, page: &mut String, name: &str) -> Result<(), AllocError>
    ensures { OnOk result ((field : List ℕ) × IsNamed (Some name.now) field × AddsPiece (string_bytes page.old) (string_bytes page.new) field) }
{
    push_markup(page, "<td>&quot;")?;
    push_shown(alloc, page, name.as_bytes())?;
    push_markup(page, "&quot;</td>")
}

/// Writes the field of a name, empty for none.
fn push_named(alloc: Global, page: &mut String, name: Option<&str>) -> Result<(), AllocError>
    ensures { OnOk result ((field : List ℕ) × IsNamed (option_map (λ n. n.now) name.entry) field × AddsPiece (string_bytes page.old) (string_bytes page.new) field) }
{
    match name {
        Some(name) => push_quoted(alloc, page, name),
        None => push_markup(page, "<td></td>"),
    }
}

/// Writes the field of the name of the message of a cell, where there are names.
fn push_name_field(
    alloc: Global,
    page: &mut String,
    names: Option<&MessageNames>,
    cell: Option<Cell>,
) -> Result<(), AllocError>
    ensures { OnOk result ((field : List ℕ) × IsNameField (option_map (λ n. n.now) names.entry) cell field × AddsPiece (string_bytes page.old) (string_bytes page.new) field) }
{
    match (names, cell) {
        (None, _) => Ok(()),
        (Some(_), None) => push_named(alloc, page, None),
        (Some(names), Some(cell)) => push_named(alloc, page, names.name_of(cell)),
    }
}

/// Writes how the row of a legal message begins. That of one that never came is marked.
fn push_legal_begin(page: &mut String, message: &CoveredMessage) -> Result<(), AllocError>
    ensures { OnOk result (AddsPiece (string_bytes page.old) (string_bytes page.new) (row_begin (has_come message.now))) }
{
    if has_come(message) {
        push_markup(page, "<tr><th scope=\"row\">")
    } else {
        push_markup(page, "<tr class=\"differs\"><th scope=\"row\">")
    }
}

/// Writes whether a message came.
fn push_come(page: &mut String, message: &CoveredMessage) -> Result<(), AllocError>
    ensures { OnOk result (AddsPiece (string_bytes page.old) (string_bytes page.new) (come_field (has_come message.now))) }
{
    if has_come(message) {
        push_markup(page, "<td>yes</td>")
    } else {
        push_markup(page, "<td>never</td>")
    }
}

/// Writes the word count of a message, nothing for a mode code.
fn push_cell_words(page: &mut String, cell: Cell) -> Result<(), AllocError>
    ensures { OnOk result (AddsPiece (string_bytes page.old) (string_bytes page.new) (words_field (word_count_in cell))) }
{
    push_words(page, word_count_in(cell))
}

/// Writes the word count of a command, nothing for a mode code.
fn push_command_words(page: &mut String, command: Command) -> Result<(), AllocError>
    ensures { OnOk result (AddsPiece (string_bytes page.old) (string_bytes page.new) (words_field (if is_mode command then 0 else count_of command))) }
{
    if command.is_mode() {
        push_words(page, 0)
    } else {
        push_words(page, command.count())
    }
}

/// Writes the row of a legal message.
fn push_legal_row(
    alloc: Global,
    page: &mut String,
    names: Option<&MessageNames>,
    message: &CoveredMessage,
) -> Result<(), AllocError>
    ensures { OnOk result ((row : List ℕ) × IsLegalRow (option_map (λ n. n.now) names.entry) message.now row × AddsPiece (string_bytes page.old) (string_bytes page.new) row) }
{
    push_legal_begin(page, message)?;
    push_place(page, message.cell)?;
    push_markup(page, "</th>")?;
    push_cell_words(page, message.cell)?;
    push_name_field(alloc, page, names, Some(message.cell))?;
    push_come(page, message)?;
    push_outcomes(page, message.counts)?;
    push_markup(page, "</tr>\n")
}

/// Writes the row of an illegal message.
fn push_illegal_row(
    alloc: Global,
    page: &mut String,
    names: Option<&MessageNames>,
    message: &IllegalMessage,
) -> Result<(), AllocError>
    ensures { OnOk result ((row : List ℕ) × IsIllegalRow (option_map (λ n. n.now) names.entry) message.now row × AddsPiece (string_bytes page.old) (string_bytes page.new) row) }
{
    push_markup(page, "<tr><th scope=\"row\">")?;
    push_command(page, message.command)?;
    push_markup(page, "</th>")?;
    push_command_words(page, message.command)?;
    push_name_field(alloc, page, names, cell_of(message.command))?;
    push_outcomes(page, message.counts)?;
    push_markup(page, "</tr>\n")
}

/// Writes the row of each legal message.
fn push_legal_rows(
    alloc: Global,
    page: &mut String,
    names: Option<&MessageNames>,
    legal: &[CoveredMessage],
) -> Result<(), AllocError>
    ensures { OnOk result ((rows : List ℕ) × AreRowsOf (IsLegalRow (option_map (λ n. n.now) names.entry)) legal.now rows × AddsPiece (string_bytes page.old) (string_bytes page.new) rows) }
{
    for message in legal {
        push_legal_row(alloc, page, names, message)?;
    }
    Ok(())
}

/// Writes the row of each illegal message.
fn push_illegal_rows(
    alloc: Global,
    page: &mut String,
    names: Option<&MessageNames>,
    illegal: &[IllegalMessage],
) -> Result<(), AllocError>
    ensures { OnOk result ((rows : List ℕ) × AreRowsOf (IsIllegalRow (option_map (λ n. n.now) names.entry)) illegal.now rows × AddsPiece (string_bytes page.old) (string_bytes page.new) rows) }
{
    for message in illegal {
        push_illegal_row(alloc, page, names, message)?;
    }
    Ok(())
}

/// Writes the row of each recording.
fn push_recordings(alloc: Global, page: &mut String, recordings: &[&str]) -> Result<(), AllocError>
    ensures { OnOk result ((rows : List ℕ) × AreRowsOf (λ file. IsFileRow (codes "recording") file.now) recordings.now rows × AddsPiece (string_bytes page.old) (string_bytes page.new) rows) }
{
    for file in recordings {
        push_file_row(alloc, page, "recording", file)?;
    }
    Ok(())
}

/// Writes how many messages came.
fn push_sums(
    page: &mut String,
    legal: &[CoveredMessage],
    illegal: &[IllegalMessage],
) -> Result<(), AllocError>
    ensures { OnOk result (AddsPiece (string_bytes page.old) (string_bytes page.new) (sum_rows legal.now illegal.now)) }
{
    let all = legal.len();
    let came = come_in(legal);
    let never = all.saturating_sub(came);
    push_count_row(page, "legal messages", all)?;
    push_count_row(page, "legal messages that came", came)?;
    push_count_row(page, "legal messages that were done", done_in(legal))?;
    push_count_row(page, "legal messages that never came", never)?;
    push_count_row(page, "illegal messages that came", illegal.len())
}

/// Writes what was read, and how many messages came.
fn push_read(
    alloc: Global,
    page: &mut String,
    profile: &str,
    recordings: &[&str],
    table: &CoverageTable,
) -> Result<(), AllocError>
    ensures { OnOk result ((part : List ℕ) × IsReadPart profile.now (map (λ file. file.now) recordings.now) table.now.legal.items table.now.illegal.items part × AddsPiece (string_bytes page.old) (string_bytes page.new) part) }
{
    push_markup(page, "<h2>What was read</h2>\n<table>\n")?;
    push_file_row(alloc, page, "profile", profile)?;
    push_recordings(alloc, page, recordings)?;
    push_sums(page, table.legal.as_slice(), table.illegal.as_slice())?;
    push_markup(page, "</table>\n")?;
    push_markup(
        page,
        "<p>Of a message that never came, these recordings show nothing. Whether the unit answered as the profile says is not counted here: rt1553-tool verify --any-subsystem tells it. Where no status word was sent, as after a broadcast, nothing shows whether the unit was busy: the flag of the next status word counts.</p>\n",
    )
}

/// Writes the head of the column of names, where there are names.
fn push_names_head(page: &mut String, names: Option<&MessageNames>) -> Result<(), AllocError>
    ensures { OnOk result (AddsPiece (string_bytes page.old) (string_bytes page.new) (names_head (option_map (λ n. n.now) names.entry))) }
{
    match names {
        Some(_) => push_markup(page, "<th scope=\"col\">name</th>"),
        None => Ok(()),
    }
}

/// Writes the head of a table, with these columns before those of outcomes.
fn push_table_head(
    page: &mut String,
    names: Option<&MessageNames>,
    others: &str,
) -> Result<(), AllocError>
    ensures { OnOk result (AddsPiece (string_bytes page.old) (string_bytes page.new) (table_head (option_map (λ n. n.now) names.entry) others.now)) }
{
    push_markup(
        page,
        "<table>\n<thead><tr><th scope=\"col\">message</th><th scope=\"col\">words</th>",
    )?;
    push_names_head(page, names)?;
    push_markup(page, others)?;
    push_markup(
        page,
        "<th scope=\"col\">done</th><th scope=\"col\">busy</th><th scope=\"col\">illegal</th><th scope=\"col\">in error</th><th scope=\"col\">superseded</th><th scope=\"col\">open</th></tr></thead>\n<tbody>\n",
    )
}

/// Writes the table of legal messages.
fn push_legal_part(
    alloc: Global,
    page: &mut String,
    names: Option<&MessageNames>,
    legal: &[CoveredMessage],
) -> Result<(), AllocError>
    ensures { OnOk result ((part : List ℕ) × IsLegalPart (option_map (λ n. n.now) names.entry) legal.now part × AddsPiece (string_bytes page.old) (string_bytes page.new) part) }
{
    push_markup(page, "<h2>Legal messages</h2>\n")?;
    push_table_head(page, names, "<th scope=\"col\">came</th>")?;
    push_legal_rows(alloc, page, names, legal)?;
    push_markup(page, "</tbody>\n</table>\n")
}

/// Writes the table of illegal messages that came.
fn push_illegal_table(
    alloc: Global,
    page: &mut String,
    names: Option<&MessageNames>,
    illegal: &[IllegalMessage],
) -> Result<(), AllocError>
    ensures { OnOk result ((table : List ℕ) × IsIllegalTable (option_map (λ n. n.now) names.entry) illegal.now table × AddsPiece (string_bytes page.old) (string_bytes page.new) table) }
{
    if illegal.is_empty() {
        return push_markup(page, "<p>None.</p>\n");
    }
    push_table_head(page, names, "")?;
    push_illegal_rows(alloc, page, names, illegal)?;
    push_markup(page, "</tbody>\n</table>\n")
}

/// What recordings show of a terminal, as a page of its own: HTML without code, and well-formed XML too. Which files were read; how
/// many messages came; each legal message, with how often it came to each outcome, where one that never came is marked; and each
/// illegal one that came. With the names of messages, where there are names.
pub fn coverage_page(
    alloc: Global,
    profile: &str,
    recordings: &[&str],
    table: &CoverageTable,
    names: Option<&MessageNames>,
) -> Result<String, AllocError>
    ensures { IfOk result (λ page. IsCoveragePage profile.now (map (λ file. file.now) recordings.now) (option_map (λ n. n.now) names.entry) table.now.legal.items table.now.illegal.items (string_bytes page)) }
{
    let legal = table.legal.as_slice();
    let title = format!(in alloc;
        "What recordings show of a terminal: {} of {} legal messages came",
        come_in(legal),
        legal.len()
    )?;
    let mut page = String::new(alloc);
    push_front(&mut page, title.as_str(), RESULTS_STYLE)?;
    push_read(alloc, &mut page, profile, recordings, table)?;
    push_legal_part(alloc, &mut page, names, legal)?;
    push_markup(&mut page, "<h2>Illegal messages that came</h2>\n")?;
    push_illegal_table(alloc, &mut page, names, table.illegal.as_slice())?;
    push_markup(&mut page, "</body></html>\n")?;
    Ok(page)
}
