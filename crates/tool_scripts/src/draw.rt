//! The command `draw`: a run as a drawing.
ghost use Rattle.std.specs.Prelude.{◌≡◌, IfOk, OnOk, List, ℕ, None};
ghost use Rattle.script_lines.specs.Text.{lines_of};
ghost use Rattle.bus_script.specs.Reading.{reading};
ghost use Rattle.drawing_boxes.specs.Refused.{refusal};
ghost use Rattle.tool_files.specs.declared.loaded.LoadedScript.{LoadedScript};
ghost use Rattle.tool_files.specs.Loaded.{IsScriptOf};
ghost use Rattle.tool_files.specs.Status.{RefusesText};

use crate::draw_list::messages_list;
use crate::otherwise::warn_otherwise;
use bus_legal::Normal;
use bus_script::RunFault;
use drawing_boxes::DrawFault;
use message_names::MessageNames;
use report_pages::{RESULTS_STYLE, push_list_code};
use rt1553_differ::explain_page;
use rt1553_draw::{DrawnScript, PageParts, draw, draw_folded, page_with};
use rt1553_tool_args::AskedDrawing;
use std::alloc::Global;
use std::io::Write;
use std::rt::Files;
use tool_files::{
    ToolFault, first_refused, load_profile, load_script, refused_file, shown, write_bytes,
};
use tool_names::load_names;

/// The fault of the script in the file of this name, of which there is no drawing.
fn drawing_fault<R: AllocGlobal>(rt: &R, name: &str, fault: DrawFault) -> ToolFault
    ensures memory { fault ≡ DrawFault.Memory → result ≡ ToolFault.Memory }
    ensures refused { RefusesText result }
{
    match fault {
        DrawFault::Memory => ToolFault::Memory,
        DrawFault::Script(_) | DrawFault::TooMany => refused_file(rt, name, &fault),
    }
}

/// What a run is drawn as.
#[derive(Drop)]
struct RunDrawing {
    drawing: String,
    /// The list of its messages, where it is drawn message by message, else empty.
    list: String,
}

/// Draws a run by a script; message by message, and with the list of its messages, where it is `folded`.
fn drawn_run(
    alloc: Global,
    normal: &Normal,
    names: Option<&MessageNames>,
    script: DrawnScript<'_>,
    folded: bool,
) -> Result<RunDrawing, DrawFault>
    ensures drawn { OnOk result (refusal (reading 0 (lines_of script.entry.text.now)) ≡ None) }
{
    if folded {
        let drawing = draw_folded(alloc, normal, names, script)?;
        let list = messages_list(alloc, normal, names, script)?;
        return Ok(RunDrawing { drawing, list });
    }
    Ok(RunDrawing {
        drawing: draw(alloc, normal, names, script)?,
        list: String::new(alloc),
    })
}

/// What a run is drawn as, by the script of the file of this name; message by message where it is `folded`.
fn draw_file<R: Files + AllocGlobal + Eprint>(
    rt: &R,
    normal: &Normal,
    names: Option<&MessageNames>,
    name: &str,
    expand_for: Option<u8>,
    folded: bool,
) -> Result<RunDrawing, ToolFault>
    ensures { IfOk result (λ drawn. (text : List ℕ) × (script : LoadedScript) × IsScriptOf expand_for text script × (refusal (reading 0 (lines_of script.text.items)) ≡ None)) }
{
    let script = load_script(rt, name, expand_for)?;
    warn_otherwise(rt, normal, name, &script)?;
    let drawn = DrawnScript {
        text: script.text.as_slice(),
        sources: script.sources(),
    };
    match drawn_run(rt.alloc(), normal, names, drawn, folded) {
        Ok(run) => Ok(run),
        Err(fault) => {
            let told = drawing_fault(rt, name, fault);
            Err(match fault {
                DrawFault::Script(RunFault::Line(_) | RunFault::LongLine(_)) => {
                    first_refused(rt, name, script.text.as_slice(), told)
                }
                _ => told,
            })
        }
    }
}

/// The drawings of a run as a page of its own, with the list of its messages above them and the table of what its terminal does below.
fn page<R: AllocGlobal>(
    rt: &R,
    normal: &Normal,
    names: Option<&MessageNames>,
    title: &str,
    run: &RunDrawing,
) -> Result<String, ToolFault> {
    let mut foot = explain_page(rt.alloc(), normal, names)?;
    push_list_code(&mut foot)?;
    let parts = PageParts {
        style: RESULTS_STYLE,
        head: run.list.as_str(),
        foot: foot.as_str(),
    };
    Ok(page_with(rt.alloc(), title, run.drawing.as_str(), parts)?)
}

/// Writes the drawing of a run; as a page of its own where that is asked for.
pub fn draw_run<R: Files + AllocGlobal + Eprint, W: Write>(
    rt: &R,
    asked: AskedDrawing<'_>,
    output: &mut W,
) -> Result<u8, ToolFault>
    ensures { IfOk result (λ status. status ≡ 0) }
{
    let normal = load_profile(rt, asked.profile)?;
    let names = load_names(rt, asked.names, &[normal.address()])?;
    let names = names.as_ref();
    let expand_for = asked.expand.then_some(normal.address());
    let run = draw_file(rt, &normal, names, asked.script, expand_for, asked.html)?;
    if asked.html {
        let (profile, script) = (shown(rt, asked.profile)?, shown(rt, asked.script)?);
        let title = format!(in rt.alloc(); "{profile}: {script}")?;
        let page = page(rt, &normal, names, title.as_str(), &run)?;
        write_bytes(output, page.as_str().as_bytes())?;
    } else {
        write_bytes(output, run.drawing.as_str().as_bytes())?;
    }
    Ok(0)
}
