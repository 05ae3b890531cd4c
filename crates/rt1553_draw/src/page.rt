//! Pages with drawings.
use crate::style::{DARK_STYLE, LIGHT_STYLE, PAGE_STYLE};
use drawing_boxes::{push_css_text, push_escaped};
use std::alloc::{AllocError, Global};

/// What the colours of a drawing say: the class of a box, and what it is.
const KEYS: [(&str, &str); 10] = [
    ("command", "a command word"),
    ("status", "the status word of another terminal"),
    ("data", "a data word"),
    ("wrong", "what is no valid word"),
    ("sent", "what this terminal sends"),
    ("handed", "what is handed over to its subsystem"),
    ("given", "what its subsystem does"),
    ("error", "a status word with message error"),
    ("busy", "a status word with busy, without message error"),
    ("flagged", "a status word with other bits"),
];

/// How a page begins, up to its title.
const FRONT: &str =
    "<!DOCTYPE html>\n<html xmlns=\"http://www.w3.org/1999/xhtml\" lang=\"en\"><head><meta charset=\"utf-8\"/>\
<meta name=\"viewport\" content=\"width=device-width, initial-scale=1\"/><title>";

/// Writes what the colours and lines of a drawing say, as a list.
pub fn push_keys(page: &mut String) -> Result<(), AllocError> {
    page.push_str("<ul class=\"keys\">\n")?;
    for (class, what) in KEYS {
        writeln!(
            page,
            "<li><svg class=\"key\" width=\"18\" height=\"14\" aria-hidden=\"true\"><rect class=\"box {class}\" x=\"1\" y=\"1\" width=\"16\" height=\"12\"/></svg>{what}</li>"
        )?;
    }
    page.push_str(
        "<li><svg class=\"key\" width=\"18\" height=\"14\" aria-hidden=\"true\"><line class=\"gap\" x1=\"9\" y1=\"0\" x2=\"9\" y2=\"14\"/></svg>a gap</li>\n\
<li><svg class=\"key\" width=\"18\" height=\"14\" aria-hidden=\"true\"><circle class=\"silence\" cx=\"9\" cy=\"7\" r=\"3\"/></svg>a slot in which nothing is sent</li>\n</ul>\n",
    )
}

/// Writes the begin of a page that can have drawings: HTML, and well-formed XML too. Its first heading is the title, which stands on each
/// printed page, too, with the number of the page. The style is CSS for what stands on the page beside drawings, and may be empty; it has
/// no `<` and no `&`.
pub fn push_front(page: &mut String, title: &str, style: &str) -> Result<(), AllocError> {
    page.push_str(FRONT)?;
    push_escaped(page, title)?;
    for text in [
        "</title><style>",
        PAGE_STYLE,
        LIGHT_STYLE,
        DARK_STYLE,
        style,
        "@page{font:9px Arial,Helvetica,sans-serif;@top-left{content:\"",
    ] {
        page.push_str(text)?;
    }
    push_css_text(page, title)?;
    page.push_str(
        "\"}@bottom-right{content:counter(page) \" / \" counter(pages)}}</style></head><body>\n<h1>",
    )?;
    push_escaped(page, title)?;
    page.push_str("</h1>\n")
}

/// What stands on a page beside its drawings.
#[derive(Clone, Copy)]
pub struct PageParts<'a> {
    /// CSS for it; without `<` and `&`.
    pub style: &'a str,
    /// HTML above the drawings.
    pub head: &'a str,
    /// HTML below them.
    pub foot: &'a str,
}

/// Makes a page of its own of drawings: HTML, and well-formed XML too, if its parts are, with this title above them.
pub fn page_with(
    alloc: Global,
    title: &str,
    drawings: &str,
    parts: PageParts<'_>,
) -> Result<String, AllocError> {
    let mut page = String::new(alloc);
    push_front(&mut page, title, parts.style)?;
    page.push_str(parts.head)?;
    push_keys(&mut page)?;
    for text in [drawings, parts.foot, "</body></html>\n"] {
        page.push_str(text)?;
    }
    Ok(page)
}
