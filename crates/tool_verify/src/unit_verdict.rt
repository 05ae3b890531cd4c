//! What the results of a unit tell of it, as a report has it.
ghost use Rattle.std.specs.Prelude.{◌≡◌, ◌↔◌, true, IfOk, map};
ghost use Rattle.std.specs.Option.{unwrap_or};
ghost use Rattle.rt1553_report.specs.Unit.{unit_passes};
ghost use Rattle.rt1553_results.specs.Compare.{told_reply};
ghost use Rattle.rt1553_results.specs.Results.{line_in};
ghost use Rattle.tool_verify.specs.UnitResults.{UnitPasses, TellsCompared, TellsExplained, TellsOf, reply_difference, told_difference};

use crate::unit_results::JudgedResults;
use message_names::{MessageNames, owned};
use rt1553_report::{ReplyDifference, UnitVerdict};
use rt1553_results::{Comparison, Results, ResultsExplained};
use rt1553_verify::WrongReply;
use std::alloc::{AllocError, Global};
use std::format;
use tool_names::name_of_command;

/// The line of the row of an exchange; 0 where no row is of it.
fn line_of(results: &Results, number: u32) -> u64
    ensures { result ≡ unwrap_or (line_in results.now number) 0 }
{
    results.line(number).unwrap_or(0)
}

/// A reply as a difference, at the line of its row, with the name of its message.
fn difference_of(
    alloc: Global,
    names: Option<&MessageNames>,
    results: &Results,
    reply: WrongReply,
) -> Result<ReplyDifference, AllocError>
    ensures { IfOk result (λ difference. told_difference difference ≡ reply_difference results.now (told_reply reply)) }
{
    let name = names.and_then(|names| name_of_command(names, reply.command));
    Ok(ReplyDifference {
        line: line_of(results, reply.number),
        name: owned(alloc, name)?,
        reply,
    })
}

/// Replies as differences, in their order.
fn differences_of(
    alloc: Global,
    names: Option<&MessageNames>,
    results: &Results,
    replies: Vec<WrongReply>,
) -> Result<Vec<ReplyDifference>, AllocError>
    ensures { IfOk result (λ differences. map told_difference differences.items ≡ map (λ r. reply_difference results.now (told_reply r)) replies.items) }
{
    let mut differences = Vec::new(alloc);
    for reply in replies {
        differences.push(difference_of(alloc, names, results, reply)?)?;
    }
    Ok(differences)
}

/// What a comparison tells of a unit.
fn of_comparison(
    alloc: Global,
    names: Option<&MessageNames>,
    results: &Results,
    comparison: Comparison,
) -> Result<UnitVerdict, AllocError>
    ensures { IfOk result (TellsCompared results.now comparison) }
{
    let text = format!(in alloc; "{comparison}")?;
    Ok(UnitVerdict {
        exchanges: comparison.total,
        differences: differences_of(alloc, names, results, comparison.wrong_replies)?,
        missing: comparison.missing,
        has_names: names.is_some(),
        text,
    })
}

/// What the search for a behaviour of the subsystem tells of a unit.
fn of_explanation(
    alloc: Global,
    names: Option<&MessageNames>,
    results: &Results,
    explained: ResultsExplained,
) -> Result<UnitVerdict, AllocError>
    ensures { IfOk result (TellsExplained results.now explained) }
{
    let text = format!(in alloc; "{explained}")?;
    let ResultsExplained {
        total,
        missing,
        first,
    } = explained;
    let mut differences = Vec::new(alloc);
    if let Some(reply) = first {
        differences.push(difference_of(alloc, names, results, reply.wrong())?)?;
    }
    Ok(UnitVerdict {
        exchanges: total,
        differences,
        missing,
        has_names: names.is_some(),
        text,
    })
}

/// What the results of a unit tell of it. It passes exactly if the unit is the terminal, or can be.
pub fn unit_verdict_of(
    alloc: Global,
    names: Option<&MessageNames>,
    results: &Results,
    judged: JudgedResults,
) -> Result<UnitVerdict, AllocError>
    ensures passes { IfOk result (λ unit. (unit_passes unit ≡ true) ↔ UnitPasses judged) }
    ensures tells { IfOk result (TellsOf results.now judged) }
{
    match judged {
        JudgedResults::Compared(comparison) => of_comparison(alloc, names, results, comparison),
        JudgedResults::Explained(explained) => of_explanation(alloc, names, results, explained),
    }
}
