//! Names as they are printed.
ghost use Rattle.std.specs.Prelude.{IfOk, OnOk, string_bytes};
ghost use Rattle.rt1553_files.specs.Printable.{PrintsOnOneLine};

use rt1553_files::{escaped, push_printable};
use std::alloc::{AllocError, Global};

/// How many characters of a name a drawing has at most.
const SHORT: usize = 40;

/// Adds a text that was escaped, cut behind so many characters, where `…` stands for the others.
fn push_cut(text: &mut String, shown: &str, most: usize) -> Result<(), AllocError>
    ensures { OnOk result (PrintsOnOneLine (string_bytes text.old) → PrintsOnOneLine (string_bytes text.new)) }
{
    for (index, c) in shown.chars().enumerate() {
        if index == most {
            return push_printable(text, '…');
        }
        push_printable(text, c)?;
    }
    Ok(())
}

/// A name between quotes, escaped, of at most so many characters.
fn quoted_cut(alloc: Global, name: &str, most: usize) -> Result<String, AllocError>
    ensures { IfOk result (λ text. PrintsOnOneLine (string_bytes text)) }
{
    let shown = escaped(alloc, name.as_bytes())?;
    let mut text = String::new(alloc);
    push_printable(&mut text, '"')?;
    push_cut(&mut text, shown.as_str(), most)?;
    push_printable(&mut text, '"')?;
    Ok(text)
}

/// A name as it is printed: between quotes, on one line, escaped as names of files are.
pub fn quoted(alloc: Global, name: &str) -> Result<String, AllocError>
    ensures { IfOk result (λ text. PrintsOnOneLine (string_bytes text)) }
{
    quoted_cut(alloc, name, usize::MAX)
}

/// The same, cut behind 40 characters, where `…` stands for the others.
pub fn quoted_short(alloc: Global, name: &str) -> Result<String, AllocError>
    ensures { IfOk result (λ text. PrintsOnOneLine (string_bytes text)) }
{
    quoted_cut(alloc, name, SHORT)
}
