//! Which scripts pass, clause by clause.
ghost use Rattle.std.specs.Prelude.{◌≡◌, ◌==◌, ◌&&◌, IfOk, length, filter};
ghost use Rattle.rt1553_report.specs.Clauses.{count_all, count_unnamed, EndsWithAll};
ghost use Rattle.rt1553_report.specs.Verdict.{verdict_passes, is_unjudged};

use crate::verdict::{ScriptVerdict, is_unjudged, verdict_passes};
use std::alloc::{AllocError, Global};
use std::cmp::Ordering;
use std::fmt;

/// A script that was tried: the clauses that it names, and the verdict on it.
#[derive(Drop)]
pub struct TriedScript {
    /// Each once; none is empty.
    pub clauses: Vec<Vec<u8>>,
    /// None where it was not played.
    pub verdict: Option<ScriptVerdict>,
}

impl TriedScript {
    /// Whether it names no clause and passes.
    fn passes_unnamed(&self) -> bool
        ensures { result ≡ ((length self.now.clauses.items == 0) && verdict_passes self.now.verdict) }
    {
        self.clauses.is_empty() && verdict_passes(self.verdict)
    }

    /// Whether it names no clause and nothing of it was judged.
    fn is_unjudged_unnamed(&self) -> bool
        ensures { result ≡ ((length self.now.clauses.items == 0) && is_unjudged self.now.verdict) }
    {
        self.clauses.is_empty() && is_unjudged(self.verdict)
    }
}

/// Which scripts a row is of.
#[derive(Clone, Copy)]
pub enum Scope<'a> {
    /// Those that name this clause.
    Clause(&'a [u8]),
    /// Those that name no clause.
    NoClause,
    /// All.
    All,
}

/// How many scripts there are, how many of them pass, and of how many nothing was judged.
#[derive(Clone, Copy, Debug, PartialEq, Eq)]
pub struct ScriptCount {
    pub scripts: usize,
    pub passed: usize,
    pub not_judged: usize,
}

impl fmt::Display for ScriptCount {
    fn fmt<W: fmt::Write>(&self, f: &mut fmt::Formatter<W>) -> fmt::Result {
        write!(f, "{} of {} scripts pass", self.passed, self.scripts)?;
        if self.not_judged > 0 {
            write!(f, ", {} not judged", self.not_judged)?;
        }
        Ok(())
    }
}

impl ScriptCount {
    /// No script.
    const NONE: ScriptCount = ScriptCount {
        scripts: 0,
        passed: 0,
        not_judged: 0,
    };

    /// The count with one script more.
    fn with(self, verdict: Option<ScriptVerdict>) -> ScriptCount {
        let (passed, not_judged) = (verdict_passes(verdict), is_unjudged(verdict));
        ScriptCount {
            scripts: self.scripts.saturating_add(1),
            passed: self.passed.saturating_add(usize::from(passed)),
            not_judged: self.not_judged.saturating_add(usize::from(not_judged)),
        }
    }
}

/// A row of a table clause by clause.
#[derive(Clone, Copy)]
pub struct ScopeRow<'a> {
    pub scope: Scope<'a>,
    pub count: ScriptCount,
}

/// How many scripts pass.
fn passed_in(tried: &[TriedScript]) -> usize
    ensures { result ≡ length (filter (λ t. verdict_passes t.verdict) tried.now) }
{
    tried
        .iter()
        .filter(|script| verdict_passes(script.verdict))
        .count()
}

/// Of how many scripts nothing was judged.
fn unjudged_in(tried: &[TriedScript]) -> usize
    ensures { result ≡ length (filter (λ t. is_unjudged t.verdict) tried.now) }
{
    tried
        .iter()
        .filter(|script| is_unjudged(script.verdict))
        .count()
}

/// How many scripts name no clause.
fn unnamed_in(tried: &[TriedScript]) -> usize
    ensures { result ≡ length (filter (λ t. length t.clauses.items == 0) tried.now) }
{
    tried
        .iter()
        .filter(|script| script.clauses.is_empty())
        .count()
}

/// How many scripts name no clause and pass.
fn unnamed_passed_in(tried: &[TriedScript]) -> usize
    ensures { result ≡ length (filter (λ t. (length t.clauses.items == 0) && verdict_passes t.verdict) tried.now) }
{
    tried
        .iter()
        .filter(|script| script.passes_unnamed())
        .count()
}

/// How many scripts name no clause, and nothing of them was judged.
fn unnamed_unjudged_in(tried: &[TriedScript]) -> usize
    ensures { result ≡ length (filter (λ t. (length t.clauses.items == 0) && is_unjudged t.verdict) tried.now) }
{
    tried
        .iter()
        .filter(|script| script.is_unjudged_unnamed())
        .count()
}

/// Counts all scripts.
fn count_all(tried: &[TriedScript]) -> ScriptCount
    ensures { result ≡ count_all tried.now }
{
    ScriptCount {
        scripts: tried.len(),
        passed: passed_in(tried),
        not_judged: unjudged_in(tried),
    }
}

/// Counts the scripts that name no clause.
fn count_unnamed(tried: &[TriedScript]) -> ScriptCount
    ensures { result ≡ count_unnamed tried.now }
{
    ScriptCount {
        scripts: unnamed_in(tried),
        passed: unnamed_passed_in(tried),
        not_judged: unnamed_unjudged_in(tried),
    }
}

/// A part of a list without the space before it.
fn clause_in(part: &[u8]) -> &[u8] {
    match part {
        [b' ', name @ ..] => name,
        name => name,
    }
}

/// Whether one of the clauses is this.
fn has_clause(clauses: &[Vec<u8>], clause: &[u8]) -> bool {
    for other in clauses {
        if other.as_slice() == clause {
            return true;
        }
    }
    false
}

/// The clauses of a list, with commas between them, each once, in its order. An empty clause is none.
pub fn clauses_in(alloc: Global, list: &[u8]) -> Result<Vec<Vec<u8>>, AllocError> {
    let mut clauses = Vec::new(alloc);
    for part in list.split(|byte| *byte == b',') {
        let clause = clause_in(part);
        if !clause.is_empty() && !has_clause(clauses.as_slice(), clause) {
            clauses.push(Vec::from_slice(alloc, clause)?)?;
        }
    }
    Ok(clauses)
}

/// Gives the part of a clause's name before its first dot, and what is behind it.
fn first_part(name: &[u8]) -> (&[u8], &[u8]) {
    for (index, byte) in name.iter().enumerate() {
        if *byte == b'.' {
            return (&name[..index], &name[index + 1..]);
        }
    }
    (name, &name[name.len()..])
}

/// Which of two clauses stands first: by their first parts that differ, as numbers.
fn clause_order(name: &[u8], other: &[u8]) -> Ordering {
    let (mut ours, mut theirs) = (name, other);
    for _part in 0..name.len() {
        let (a, more) = first_part(ours);
        let (b, others) = first_part(theirs);
        if a != b {
            return a.len().cmp(&b.len()).then(a.cmp(b));
        }
        ours = more;
        theirs = others;
    }
    name.len().cmp(&other.len())
}

/// A clause that a script names, and the verdict on the script.
#[derive(Clone, Copy)]
struct NamedClause<'a> {
    clause: &'a [u8],
    verdict: Option<ScriptVerdict>,
}

/// Adds the clauses of a script.
fn push_clauses<'a>(
    all: &mut Vec<NamedClause<'a>>,
    script: &'a TriedScript,
) -> Result<(), AllocError> {
    for clause in script.clauses.as_slice() {
        all.push(NamedClause {
            clause: clause.as_slice(),
            verdict: script.verdict,
        })?;
    }
    Ok(())
}

/// The clauses that scripts name, in order; one that several name stands as often.
fn sorted_clauses<'a>(
    alloc: Global,
    tried: &'a [TriedScript],
) -> Result<Vec<NamedClause<'a>>, AllocError> {
    let mut all = Vec::new(alloc);
    for script in tried {
        push_clauses(&mut all, script)?;
    }
    all.as_mut_slice()
        .sort_unstable_by(|a, b| clause_order(a.clause, b.clause));
    Ok(all)
}

/// Adds a row for each clause; those of one name stand together.
fn push_rows<'a>(
    rows: &mut Vec<ScopeRow<'a>>,
    sorted: &[NamedClause<'a>],
) -> Result<(), AllocError> {
    let mut count = ScriptCount::NONE;
    for (index, named) in sorted.iter().enumerate() {
        count = count.with(named.verdict);
        let is_last = match sorted.get(index + 1) {
            Some(next) => next.clause != named.clause,
            None => true,
        };
        if is_last {
            let scope = Scope::Clause(named.clause);
            rows.push(ScopeRow { scope, count })?;
            count = ScriptCount::NONE;
        }
    }
    Ok(())
}

/// How many scripts pass, clause by clause: a row for each clause that they name, in order; one for those that name none, where there
/// are such; and at last one for all.
pub fn clause_rows<'a>(
    alloc: Global,
    tried: &'a [TriedScript],
) -> Result<Vec<ScopeRow<'a>>, AllocError>
    ensures { IfOk result (λ rows. EndsWithAll tried.now rows.items) }
{
    let sorted = sorted_clauses(alloc, tried)?;
    let mut rows = Vec::new(alloc);
    push_rows(&mut rows, sorted.as_slice())?;
    let unnamed = count_unnamed(tried);
    if unnamed.scripts > 0 {
        rows.push(ScopeRow {
            scope: Scope::NoClause,
            count: unnamed,
        })?;
    }
    rows.push(ScopeRow {
        scope: Scope::All,
        count: count_all(tried),
    })?;
    Ok(rows)
}
