//! The messages of a run as a list, each with a link to its drawing on the same page.
ghost use Rattle.std.specs.Prelude.{◌≡◌, ℕ, List, OnOk, string_bytes};
ghost use Rattle.rt1553_report.specs.Pieces.{AddsPiece};
ghost use Rattle.message_rows.specs.Filter.{is_faulty};
ghost use Rattle.report_pages.specs.CoveragePage.{AreRowsOf};
ghost use Rattle.report_pages.specs.MessageList.{IsCell, IsListRow, link_field, list_begin};

use crate::fields::{push_count_field, push_plain_number};
use message_rows::{CELL_NAMES, is_faulty};
use rt1553_report::{push_markup, push_shown};
use std::alloc::{AllocError, Global};
use terminal_messages::KeptMessage;

/// What stands above the table: what its script shows, which is hidden where no script runs.
const CHOICE: &str =
    "<h2>Messages</h2>\n<p id=\"choice\" hidden=\"hidden\"><label>search: <input id=\"search\" type=\"search\"/></label> <label><input id=\"faulty\" type=\"checkbox\"/> only what was not done, or not answered</label> <span id=\"shown\"></span></p>\n";

/// The script of the page: it hides rows, and unfolds the drawing that a link leads to. It loads nothing. No `<` and no `&` stands in it,
/// so that the page is well-formed XML too.
const CODE: &str = "<script>\n\
var search = document.getElementById('search'), faulty = document.getElementById('faulty');\n\
var rows = Array.from(document.querySelectorAll('#messages tbody tr'));\n\
function choose() {\n\
  var text = search.value.toLowerCase(), count = 0;\n\
  rows.forEach(function (row) {\n\
    var told = row.textContent.toLowerCase().includes(text);\n\
    row.hidden = faulty.checked ? !(told ? row.className === 'differs' : false) : !told;\n\
    count += row.hidden ? 0 : 1;\n\
  });\n\
  document.getElementById('shown').textContent = count + ' of ' + rows.length + ' messages';\n\
}\n\
function unfold() {\n\
  var at = document.getElementById(location.hash.slice(1)), fold = at ? at.closest('details') : null;\n\
  for (var it = fold; it; it = it.parentElement) { it.open = true; }\n\
  if (fold) { fold.scrollIntoView(); }\n\
}\n\
rows.forEach(function (row) {\n\
  row.addEventListener('click', function () { location.hash = row.querySelector('a').hash; unfold(); });\n\
});\n\
search.addEventListener('input', choose);\n\
faulty.addEventListener('change', choose);\n\
addEventListener('hashchange', unfold);\n\
document.getElementById('choice').hidden = false;\n\
choose();\n\
unfold();\n\
</script>\n";

/// Writes what stands above the rows.
pub fn push_list_front(page: &mut String) -> Result<(), AllocError> {
    page.push_str(CHOICE)?;
    page.push_str(
        "<table id=\"messages\">\n<thead><tr><th scope=\"col\">number</th><th scope=\"col\">line</th>",
    )?;
    for name in CELL_NAMES {
        write!(page, "<th scope=\"col\">{name}</th>")?;
    }
    page.push_str("</tr></thead>\n<tbody>\n")
}

/// Writes what stands below the rows: the end of the table, and the heading of the drawings.
pub fn push_list_end(page: &mut String) -> Result<(), AllocError> {
    page.push_str("</tbody>\n</table>\n<h2>Drawings</h2>\n")
}

/// Writes the script of the page, which stands below the drawings.
pub fn push_list_code(page: &mut String) -> Result<(), AllocError> {
    page.push_str(CODE)
}

/// Writes how a row begins: that of a message that was not done, or not answered, is marked.
fn push_list_begin(page: &mut String, is_faulty: bool) -> Result<(), AllocError>
    ensures { OnOk result (AddsPiece (string_bytes page.old) (string_bytes page.new) (list_begin is_faulty)) }
{
    if is_faulty {
        push_markup(page, "<tr class=\"differs\">")
    } else {
        push_markup(page, "<tr>")
    }
}

/// Writes the number of a message, which leads to where the line of its command is drawn.
fn push_link(page: &mut String, number: u64, line: u64) -> Result<(), AllocError>
    ensures { OnOk result (AddsPiece (string_bytes page.old) (string_bytes page.new) (link_field number line)) }
{
    push_markup(page, "<td class=\"count\"><a href=\"#line-")?;
    push_plain_number(page, line)?;
    push_markup(page, "\">")?;
    push_plain_number(page, number)?;
    push_markup(page, "</a></td>")
}

/// Writes a cell.
fn push_cell(alloc: Global, page: &mut String, cell: &String) -> Result<(), AllocError>
    ensures { OnOk result ((field : List ℕ) × IsCell cell.now field × AddsPiece (string_bytes page.old) (string_bytes page.new) field) }
{
    push_markup(page, "<td>")?;
    push_shown(alloc, page, cell.as_str().as_bytes())?;
    push_markup(page, "</td>")
}

/// Writes cells.
fn push_cells(alloc: Global, page: &mut String, cells: &[String]) -> Result<(), AllocError>
    ensures { OnOk result ((fields : List ℕ) × AreRowsOf IsCell cells.now fields × AddsPiece (string_bytes page.old) (string_bytes page.new) fields) }
{
    for cell in cells {
        push_cell(alloc, page, cell)?;
    }
    Ok(())
}

/// Writes the row of a message, with these cells: its number leads to where the line of its command is drawn, by the anchor that a
/// drawing of `draw_folded` has there. The row of a message for the terminal that was not done, or not answered, is marked.
pub fn push_list_row(
    alloc: Global,
    page: &mut String,
    message: &KeptMessage,
    cells: &[String],
) -> Result<(), AllocError>
    ensures { OnOk result ((text : List ℕ) × IsListRow message.now cells.now text × AddsPiece (string_bytes page.old) (string_bytes page.new) text) }
{
    push_list_begin(page, is_faulty(message))?;
    push_link(page, message.number, message.place)?;
    push_count_field(page, message.place)?;
    push_cells(alloc, page, cells)?;
    push_markup(page, "</tr>\n")
}
