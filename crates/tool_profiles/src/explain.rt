//! The command `explain`: what a profile means, as a table.
ghost use Rattle.std.specs.Prelude.{◌≡◌, IfOk};

use ascii_json::named_json;
use bus_legal::Normal;
use message_names::MessageNames;
use rt1553_differ::{explain, explain_json};
use std::alloc::{AllocError, Global};
use std::io::Write;
use std::rt::Files;
use tool_files::{Screen, ToolFault, load_profile, put_lines};
use tool_names::load_names;

/// The table of what a terminal does.
fn table_text(
    alloc: Global,
    normal: &Normal,
    names: Option<&MessageNames>,
    as_json: bool,
) -> Result<String, AllocError> {
    if as_json {
        let json = explain_json(alloc, normal, names);
        return named_json(alloc, json, names.is_some());
    }
    explain(alloc, normal, names)
}

/// Writes what the terminal of a profile does, as a table. The status is 0.
pub fn explain_profile<R: Files + AllocGlobal + Eprint, W: Write>(
    rt: &R,
    profile: &str,
    names: Option<&str>,
    as_json: bool,
    screen: Screen,
    output: &mut W,
) -> Result<u8, ToolFault>
    ensures { IfOk result (λ status. status ≡ 0) }
{
    let normal = load_profile(rt, profile)?;
    let names = load_names(rt, names, &[normal.address()])?;
    let text = table_text(rt.alloc(), &normal, names.as_ref(), as_json)?;
    put_lines(
        output,
        screen.has_colours && !as_json,
        text.as_str().as_bytes(),
    )?;
    Ok(0)
}
