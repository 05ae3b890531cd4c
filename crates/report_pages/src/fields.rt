//! Numbers and texts in the tables of a page.
ghost use Rattle.std.specs.Prelude.{ℕ, List, OnOk, string_bytes};
ghost use Rattle.std.specs.Fmt.{decimal};
ghost use Rattle.rt1553_report.specs.Pieces.{AddsPiece};
ghost use Rattle.report_pages.specs.Fields.{count_field, count_row};
ghost use Rattle.report_pages.specs.CoveragePage.{IsFileRow};

use rt1553_report::{push_markup, push_shown};
use std::alloc::{AllocError, Global};

/// Writes a number.
pub fn push_plain_number(page: &mut String, number: u64) -> Result<(), AllocError>
    ensures { OnOk result (AddsPiece (string_bytes page.old) (string_bytes page.new) (decimal number)) }
{
    write!(page, "{number}")
}

/// Writes a field with a number.
pub fn push_count_field(page: &mut String, number: u64) -> Result<(), AllocError>
    ensures { OnOk result (AddsPiece (string_bytes page.old) (string_bytes page.new) (count_field number)) }
{
    push_markup(page, "<td class=\"count\">")?;
    push_plain_number(page, number)?;
    push_markup(page, "</td>")
}

/// Writes a row of the first table: what is counted, and a number.
pub fn push_count_row(page: &mut String, what: &str, number: usize) -> Result<(), AllocError>
    ensures { OnOk result (AddsPiece (string_bytes page.old) (string_bytes page.new) (count_row what.now number)) }
{
    push_markup(page, "<tr><th scope=\"row\">")?;
    push_markup(page, what)?;
    push_markup(page, "</th>")?;
    push_count_field(page, number as u64)?;
    push_markup(page, "</tr>\n")
}

/// Writes a row of the first table: what is told, and its text.
pub fn push_file_row(
    alloc: Global,
    page: &mut String,
    what: &str,
    file: &str,
) -> Result<(), AllocError>
    ensures { OnOk result ((row : List ℕ) × IsFileRow what.now file.now row × AddsPiece (string_bytes page.old) (string_bytes page.new) row) }
{
    push_markup(page, "<tr><th scope=\"row\">")?;
    push_markup(page, what)?;
    push_markup(page, "</th><td>")?;
    push_shown(alloc, page, file.as_bytes())?;
    push_markup(page, "</td></tr>\n")
}
