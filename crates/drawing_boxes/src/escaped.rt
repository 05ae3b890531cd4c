//! Texts as they stand in pages.
ghost use Rattle.std.specs.Prelude.{◌≡◌, ◌++◌, [], IfOk, OnOk};
ghost use Rattle.std.specs.String.{string_bytes};
ghost use Rattle.drawing_boxes.specs.Escaped.{escaped_char, Escapes, css_char, IsCssOf};

use std::alloc::{AllocError, Global};

/// Writes a character as it stands in a page: what would begin or end something else there goes by its name, and what no text of
/// XML may have, a control character but for the line feed, or U+FFFE or U+FFFF, by the replacement character.
fn push_escaped_char(page: &mut String, c: char) -> Result<(), AllocError>
    ensures { OnOk result (string_bytes page.new ≡ string_bytes page.old ++ escaped_char c) }
{
    if c == '<' {
        page.push_str("&lt;")
    } else if c == '>' {
        page.push_str("&gt;")
    } else if c == '&' {
        page.push_str("&amp;")
    } else if c == '"' {
        page.push_str("&quot;")
    } else if c == '\n' {
        page.push_str("\n")
    } else if c.is_control() || c == '\u{fffe}' || c == '\u{ffff}' {
        page.push('\u{fffd}')
    } else {
        page.push(c)
    }
}

/// Writes a text as it stands in a page or in another text of XML, there also as the value of an attribute between `"`.
pub fn push_escaped(page: &mut String, text: &str) -> Result<(), AllocError>
    ensures { OnOk result (Escapes text.now (string_bytes page.old) (string_bytes page.new)) }
{
    for c in text.chars() {
        push_escaped_char(page, c)?;
    }
    Ok(())
}

/// A text as it stands in XML.
pub fn in_xml(alloc: Global, text: &str) -> Result<String, AllocError>
    ensures { IfOk result (λ page. Escapes text.now [] (string_bytes page)) }
{
    let mut page = String::new(alloc);
    push_escaped(&mut page, text)?;
    Ok(page)
}

/// Writes a character as it stands in a string of CSS on a page: what would end the string or the style is escaped, and a control character
/// is the replacement character.
fn push_css_char(page: &mut String, c: char) -> Result<(), AllocError>
    ensures { OnOk result (string_bytes page.new ≡ string_bytes page.old ++ css_char c) }
{
    if c == '"' {
        page.push_str("\\\"")
    } else if c == '\\' {
        page.push_str("\\\\")
    } else if c == '<' {
        page.push_str("\\3c ")
    } else if c == '&' {
        page.push_str("\\26 ")
    } else if c.is_control() {
        page.push('\u{fffd}')
    } else {
        page.push(c)
    }
}

/// Writes a text as it stands in a string of CSS on a page, between its `"`.
pub fn push_css_text(page: &mut String, text: &str) -> Result<(), AllocError>
    ensures { OnOk result (IsCssOf text.now (string_bytes page.old) (string_bytes page.new)) }
{
    for c in text.chars() {
        push_css_char(page, c)?;
    }
    Ok(())
}
