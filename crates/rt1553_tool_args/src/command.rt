//! What the command line asks for.
ghost use Rattle.std.specs.Prelude.{◌≡◌, IfOk, codes, option_map, true};
ghost use Rattle.clap.specs.Words.{first_value, found_of};
ghost use Rattle.rt1553_tool_args.specs.Commands.{Asks, AsksKind, AsksReport, HasAddress, HasBusAddress, HasDate, HasSubaddress, HasOption, HasValue, IsAskedBy, all_values, command_name, coverage_format_of, format_of, is_given, is_json, lint_format_of, messages_format_of, report_format_of, texts_of};

use crate::args::{NO_COMMAND, NoCommand};
use crate::bus::bus_command;
use crate::date::is_date;
use crate::messages::{messages_command, number_of};
use clap::ArgMatches;
use std::alloc::Global;

/// Which terminal the scripts of `verify` are played to.
#[derive(Clone, Copy)]
pub enum Profiles<'a> {
    /// All to that of this file.
    One(&'a str),
    /// Each to that of the file of this folder that its line `# Profile: ` names.
    Folder(&'a str),
}

/// What the scripts of `verify` are.
#[derive(Clone, Copy)]
pub enum ScriptKind {
    /// Tests: all that they state is compared.
    Test,
    /// Tests on the bus alone: hand-overs that they don't state are left aside.
    BusTest,
    /// Recordings from power-up on: some behaviour of the subsystem is to explain them.
    Recording,
    /// Recordings that began at any time: the same of the first part that begins afresh after a pause.
    LaterRecording,
}

/// How the acceptance test is written.
#[derive(Clone, Copy)]
pub enum TestFormat {
    /// As a script that states its answers.
    Script,
    /// As a table, in CSV.
    Csv,
    /// As a table, an object of JSON a line.
    Json,
}

/// How findings are written.
#[derive(Clone, Copy)]
pub enum LintFormat {
    /// As text, a line each.
    Text,
    /// As an object of JSON a line.
    Json,
    /// As one document of SARIF 2.1.0.
    Sarif,
}

/// How it is written what came in recordings.
#[derive(Clone, Copy)]
pub enum CoverageFormat {
    /// As text.
    Text,
    /// As an object of JSON.
    Json,
    /// As a page.
    Html,
}

/// How results of scripts are written.
#[derive(Clone, Copy)]
pub enum ReportFormat {
    /// As text.
    Text,
    /// As an object of JSON a line.
    Json,
    /// As JUnit reports tests, XML.
    Junit,
    /// As a page.
    Html,
}

/// How the messages of a run are written.
#[derive(Clone, Copy)]
pub enum MessagesFormat {
    /// As text.
    Text,
    /// As a table, in CSV.
    Csv,
    /// As an object of JSON a line.
    Json,
}

/// What is asked for of scripts.
#[derive(Clone, Copy)]
pub struct AskedReport<'a> {
    pub profiles: Profiles<'a>,
    pub kind: ScriptKind,
    /// The files have messages, which are expanded first.
    pub expand: bool,
    pub format: ReportFormat,
    /// What passes, too, clause by clause; only as text.
    pub summary: bool,
    /// The table with the names of messages, where one is given.
    pub names: Option<&'a str>,
    /// The date and time of the report, where they are given; not as text.
    pub date: Option<&'a str>,
}

/// What is asked for of a recording that is to be explained.
#[derive(Clone, Copy)]
pub struct AskedWitness<'a> {
    pub profile: &'a str,
    pub script: &'a str,
    /// A recording from power-up, or one that began at any time.
    pub kind: ScriptKind,
    /// The file has messages, which are expanded first.
    pub expand: bool,
    /// The table with the names of messages, where one is given.
    pub names: Option<&'a str>,
}

/// What is asked for of the table of a monitor.
#[derive(Clone, Copy)]
pub struct AskedRecording<'a> {
    pub table: &'a str,
    /// The address of the terminal, 0 to 30.
    pub address: u8,
    /// The silences that count, in microseconds.
    pub gap: Option<&'a str>,
    pub no_response: Option<&'a str>,
    pub pause: Option<&'a str>,
    /// How long a unit may be silent behind a reset, and behind the start of a self test, in microseconds.
    pub after_reset: Option<&'a str>,
    pub after_self_test: Option<&'a str>,
}

/// What is asked for of what came in recordings.
#[derive(Clone, Copy)]
pub struct AskedCoverage<'a> {
    pub profile: &'a str,
    /// The files have messages, which are expanded first.
    pub expand: bool,
    pub format: CoverageFormat,
    /// The table with the names of messages, where one is given.
    pub names: Option<&'a str>,
}

/// What is asked for of a recording that a profile is to explain.
#[derive(Clone, Copy)]
pub struct AskedProfile<'a> {
    pub script: &'a str,
    /// The address of the terminal, 0 to 30.
    pub address: u8,
    /// A message is legal of which nothing shows that it is not.
    pub unseen_is_legal: bool,
    /// The file has messages, which are expanded first.
    pub expand: bool,
}

/// What is asked for of a script whose answers are to be stated.
#[derive(Clone, Copy)]
pub struct AskedAnswers<'a> {
    pub profile: &'a str,
    pub script: &'a str,
    /// The file has messages, which are expanded first.
    pub expand: bool,
}

/// What is asked for of two terminals.
#[derive(Clone, Copy)]
pub struct AskedComparison<'a> {
    pub profile: &'a str,
    pub other: &'a str,
    /// Scripts that show each difference, too.
    pub scripts: bool,
    pub as_json: bool,
    /// The table with the names of messages, where one is given.
    pub names: Option<&'a str>,
}

/// What is asked for of the results of a unit.
#[derive(Clone, Copy)]
pub struct AskedResults<'a> {
    pub profile: &'a str,
    pub results: &'a str,
    /// Some behaviour of the subsystem is to explain them.
    pub any_subsystem: bool,
    pub format: ReportFormat,
    /// The table with the names of messages, where one is given.
    pub names: Option<&'a str>,
    /// The date and time of the report, where they are given; not as text.
    pub date: Option<&'a str>,
}

/// What is asked for of a run.
#[derive(Clone, Copy)]
pub struct AskedDrawing<'a> {
    pub profile: &'a str,
    pub script: &'a str,
    /// The file has messages, which are expanded first.
    pub expand: bool,
    /// As a page.
    pub html: bool,
    /// The table with the names of messages, where one is given.
    pub names: Option<&'a str>,
}

/// What is asked for of the messages of a run.
#[derive(Clone, Copy)]
pub struct AskedMessages<'a> {
    pub profile: &'a str,
    pub script: &'a str,
    /// The file has messages, which are expanded first.
    pub expand: bool,
    /// Only messages of this address, 0 to 31, of which 31 stands for all terminals; None for all messages.
    pub address: Option<u8>,
    /// Only messages of this subaddress, 0 to 31; None for all messages.
    pub subaddress: Option<u8>,
    /// Only messages that the terminal did not do.
    pub errors: bool,
    pub format: MessagesFormat,
    /// The table with the names of messages, where one is given.
    pub names: Option<&'a str>,
}

/// How it is to be written which messages of a bus don't end well.
#[derive(Clone, Copy)]
pub enum CheckFormat {
    /// A line for each.
    Text,
    /// One object of JSON.
    Json,
    /// A report of JUnit.
    Junit,
}

/// How the messages of a bus are to be checked.
#[derive(Clone, Copy)]
pub struct AskedCheck<'a> {
    pub format: CheckFormat,
    /// The time before a status word, in microseconds, 0 to 1000.
    pub response: u16,
    /// The time before the next message, in microseconds, 0 to 1000.
    pub gap: u16,
    /// The date and time of the report, where they are given.
    pub date: Option<&'a str>,
}

/// What `bus` prints.
#[derive(Clone, Copy)]
pub enum BusOutput<'a> {
    /// The transcript.
    Transcript,
    /// What comes to the terminal of this address, 0 to 30, as a script.
    CameTo(u8),
    /// The messages, a line for each terminal that they are for.
    Messages,
    /// Which messages don't end well. The script has messages, whether or not `expand` is asked for.
    Check(AskedCheck<'a>),
}

/// What `bus` is asked for.
#[derive(Clone, Copy)]
pub struct AskedBus<'a> {
    pub script: &'a str,
    /// The script has messages, too.
    pub expand: bool,
    /// What is printed.
    pub output: BusOutput<'a>,
}

/// What the command line asks for. The texts are names of files.
#[derive(Drop)]
pub enum ToolCommand<'a> {
    /// All that is wrong with profiles, and what in them has no effect.
    Lint {
        files: Vec<&'a str>,
        format: LintFormat,
    },
    /// Which lines of scripts are refused, and why.
    CheckScript(Vec<&'a str>),
    /// Where terminals don't answer as scripts state.
    Verify(AskedReport<'a>, Vec<&'a str>),
    /// What the subsystem did in a recording, as a script.
    Witness(AskedWitness<'a>),
    /// The table of a monitor as the recording of a terminal.
    Monitor(AskedRecording<'a>),
    /// What came of the messages of a terminal in recordings.
    Coverage(AskedCoverage<'a>, Vec<&'a str>),
    /// A profile that explains a recording.
    Infer(AskedProfile<'a>),
    /// The profile that a table means.
    Import(&'a str),
    /// In what a profile differs from a table.
    CheckImport {
        table: &'a str,
        profile: &'a str,
    },
    /// The table of a document that a terminal has.
    Export(&'a str),
    /// Messages as the lines of a script.
    Expand {
        messages: &'a str,
        /// The profile of the terminal for which they are expanded, where one is given.
        profile: Option<&'a str>,
    },
    /// A small profile that means the same terminal.
    Toml(&'a str),
    /// What a terminal does, as a table.
    Explain {
        profile: &'a str,
        as_json: bool,
        /// The table with the names of messages, where one is given.
        names: Option<&'a str>,
    },
    /// All in which two terminals differ.
    Differ(AskedComparison<'a>),
    /// The acceptance test of a terminal.
    Acceptance {
        profile: &'a str,
        format: TestFormat,
        /// The table with the names of messages, where one is given.
        names: Option<&'a str>,
    },
    /// The results of a unit judged by the acceptance test of a terminal.
    Against(AskedResults<'a>),
    /// The messages of a run, a line each.
    Messages(AskedMessages<'a>),
    /// The events of a script as messages that `expand` reads.
    Gather(AskedAnswers<'a>),
    /// A run as a drawing.
    Draw(AskedDrawing<'a>),
    /// Words of the bus by their fields, and fields by words.
    Words,
    /// Lines played as they come.
    Live(&'a str),
    /// A script with the answers of a terminal stated.
    Answers(AskedAnswers<'a>),
    /// Whether a profile is accepted.
    Check(&'a str),
    /// The canonical text of a terminal.
    Canon(&'a str),
    /// The transcript of a script.
    Run {
        profile: &'a str,
        script: &'a str,
    },
    /// The transcript of a script for a bus of terminals, of these profiles, or what comes of its messages, with these tables of names.
    Bus(AskedBus<'a>, Vec<&'a str>, Vec<&'a str>),
    /// Whether two profiles mean the same terminal, and a script that two answer differently.
    Compare {
        profile: &'a str,
        other: &'a str,
    },
}

/// The value of an argument that has to be there.
pub(crate) fn required<'a>(given: &ArgMatches<'a>, id: &str) -> Result<&'a str, NoCommand>
    ensures { IfOk result (λ value. HasValue (found_of given.now) id.now value.now) }
{
    match given.get_str(id) {
        Some(value) => Ok(value),
        None => Err(NoCommand::Usage(NO_COMMAND)),
    }
}

/// The address of a terminal: decimal digits that write a number from 0 to 30.
fn address_of(given: &ArgMatches<'_>) -> Result<u8, NoCommand>
    ensures { IfOk result (HasAddress (found_of given.now)) }
{
    number_of(required(given, "address")?, 30, "--address is 0 to 30")
}

/// The values of an argument; none where it is left out.
pub(crate) fn all_of<'a>(
    alloc: Global,
    given: &ArgMatches<'a>,
    id: &str,
) -> Result<Vec<&'a str>, NoCommand>
    ensures { IfOk result (λ values. texts_of values.items ≡ all_values (found_of given.now) id.now) }
{
    match given.get_strs(id) {
        Some(values) => Ok(Vec::from_slice(alloc, values)?),
        None => Ok(Vec::new(alloc)),
    }
}

/// The table with the names of messages, where it is given.
pub(crate) fn names_of<'a>(given: &ArgMatches<'a>) -> Option<&'a str>
    ensures { HasOption (found_of given.now) (codes "names") result }
{
    given.get_str("names")
}

/// Whether an option without a value is given.
pub(crate) fn is_flag_given(given: &ArgMatches<'_>, id: &str) -> bool
    ensures { result ≡ is_given (found_of given.now) id.now }
{
    given.get_str(id) == Some("true")
}

/// Whether JSON is asked for.
fn as_json(given: &ArgMatches<'_>) -> bool
    ensures { result ≡ is_json (found_of given.now) }
{
    given.get_str("format") == Some("json")
}

/// How findings are to be written.
fn lint_format(given: &ArgMatches<'_>) -> LintFormat
    ensures { result ≡ lint_format_of (first_value (found_of given.now) (codes "format")) }
{
    match given.get_str("format") {
        Some("json") => LintFormat::Json,
        Some("sarif") => LintFormat::Sarif,
        _ => LintFormat::Text,
    }
}

/// How it is to be written what came in recordings.
fn coverage_format(given: &ArgMatches<'_>) -> CoverageFormat
    ensures { result ≡ coverage_format_of (first_value (found_of given.now) (codes "format")) }
{
    match given.get_str("format") {
        Some("json") => CoverageFormat::Json,
        Some("html") => CoverageFormat::Html,
        _ => CoverageFormat::Text,
    }
}

/// How results of scripts are to be written.
pub(crate) fn report_format(given: &ArgMatches<'_>) -> ReportFormat
    ensures { result ≡ report_format_of (first_value (found_of given.now) (codes "format")) }
{
    match given.get_str("format") {
        Some("json") => ReportFormat::Json,
        Some("junit") => ReportFormat::Junit,
        Some("html") => ReportFormat::Html,
        _ => ReportFormat::Text,
    }
}

/// How results of scripts are to be written, and whether what passes is, too. A summary belongs to the text: other formats have all.
fn report_of(given: &ArgMatches<'_>) -> Result<(ReportFormat, bool), NoCommand>
    ensures { IfOk result (λ report. AsksReport (found_of given.now) report.0 report.1) }
{
    let summary = is_flag_given(given, "summary");
    match (report_format(given), summary) {
        (ReportFormat::Text, summary) => Ok((ReportFormat::Text, summary)),
        (format, false) => Ok((format, false)),
        (_, true) => Err(NoCommand::Usage("--summary is for --format text alone")),
    }
}

/// The date and time of a report in this format, where they are given. The text has none.
pub(crate) fn date_of<'a>(
    given: &ArgMatches<'a>,
    format: ReportFormat,
) -> Result<Option<&'a str>, NoCommand>
    ensures { IfOk result (HasDate (found_of given.now) format) }
{
    match (given.get_str("date"), format) {
        (None, _) => Ok(None),
        (Some(_), ReportFormat::Text) => Err(NoCommand::Usage("--date is not for text")),
        (Some(date), _) if is_date(date.as_bytes()) => Ok(Some(date)),
        (Some(_), _) => Err(NoCommand::Usage(
            "--date is a date and a time, as 2026-01-31T12:00:00, also with Z or an offset",
        )),
    }
}

/// What the scripts are to be. A recording is of the bus alone.
fn script_kind(given: &ArgMatches<'_>) -> Result<ScriptKind, NoCommand>
    ensures { IfOk result (AsksKind (found_of given.now)) }
{
    match (
        is_flag_given(given, "bus-only"),
        is_flag_given(given, "any-subsystem"),
        is_flag_given(given, "already-on"),
    ) {
        (false, false, false) => Ok(ScriptKind::Test),
        (true, false, false) => Ok(ScriptKind::BusTest),
        (false, true, false) => Ok(ScriptKind::Recording),
        (false, true, true) => Ok(ScriptKind::LaterRecording),
        (true, true, _) => Err(NoCommand::Usage(
            "--bus-only and --any-subsystem exclude each other",
        )),
        (_, false, true) => Err(NoCommand::Usage("--already-on is for --any-subsystem")),
    }
}

/// What `verify` is asked for with `--witness`: one recording is explained, by one profile and as text.
fn witness_command<'a>(alloc: Global, given: &ArgMatches<'a>) -> Result<ToolCommand<'a>, NoCommand>
    requires { is_given (found_of given.now) (codes "witness") ≡ true }
    ensures { IfOk result (λ command. (command_name command ≡ codes "verify") × Asks (found_of given.now) command) }
{
    let script = match all_of(alloc, given, "script")?.as_slice() {
        [script] => *script,
        _ => return Err(NoCommand::Usage("--witness takes one profile and one script")),
    };
    if given.get_str("profiles").is_some() || given.get_str("date").is_some() {
        return Err(NoCommand::Usage("--witness excludes --profiles and --date"));
    }
    match (script_kind(given)?, report_of(given)?) {
        (
            kind @ (ScriptKind::Recording | ScriptKind::LaterRecording),
            (ReportFormat::Text, false),
        ) => {
            Ok(ToolCommand::Witness(AskedWitness {
                profile: required(given, "profile")?,
                script,
                kind,
                expand: is_flag_given(given, "expand"),
                names: names_of(given),
            }))
        }
        (_, (ReportFormat::Text, false)) => {
            Err(NoCommand::Usage("--witness is for --any-subsystem"))
        }
        _ => Err(NoCommand::Usage("--witness excludes --summary and the formats but text")),
    }
}

/// What `verify` is asked for. With a folder of profiles no profile stands before the scripts.
fn verify_command<'a>(alloc: Global, given: &ArgMatches<'a>) -> Result<ToolCommand<'a>, NoCommand>
    ensures { IfOk result (λ command. (command_name command ≡ codes "verify") × Asks (found_of given.now) command) }
{
    if is_flag_given(given, "witness") {
        return witness_command(alloc, given);
    }
    let mut scripts = all_of(alloc, given, "script")?;
    let profiles = match given.get_str("profiles") {
        Some(folder) => {
            if let Some(first) = given.get_str("profile") {
                scripts.insert(0, first)?;
            }
            Profiles::Folder(folder)
        }
        None => Profiles::One(required(given, "profile")?),
    };
    if scripts.is_empty() {
        return Err(NoCommand::Usage("verify takes a script or several"));
    }
    let (format, summary) = report_of(given)?;
    let asked = AskedReport {
        profiles,
        kind: script_kind(given)?,
        expand: is_flag_given(given, "expand"),
        format,
        summary,
        names: names_of(given),
        date: date_of(given, format)?,
    };
    Ok(ToolCommand::Verify(asked, scripts))
}

/// What `lint` is asked for.
fn lint_command<'a>(alloc: Global, given: &ArgMatches<'a>) -> Result<ToolCommand<'a>, NoCommand>
    ensures { IfOk result (λ command. (command_name command ≡ codes "lint") × Asks (found_of given.now) command) }
{
    Ok(ToolCommand::Lint {
        files: all_of(alloc, given, "profile")?,
        format: lint_format(given),
    })
}

/// What `recording` is asked for.
fn recording_command<'a>(given: &ArgMatches<'a>) -> Result<ToolCommand<'a>, NoCommand>
    ensures { IfOk result (λ command. (command_name command ≡ codes "recording") × Asks (found_of given.now) command) }
{
    Ok(ToolCommand::Monitor(AskedRecording {
        table: required(given, "table")?,
        address: address_of(given)?,
        gap: given.get_str("gap"),
        no_response: given.get_str("no-response"),
        pause: given.get_str("pause"),
        after_reset: given.get_str("after-reset"),
        after_self_test: given.get_str("after-self-test"),
    }))
}

/// What `coverage` is asked for.
fn coverage_command<'a>(alloc: Global, given: &ArgMatches<'a>) -> Result<ToolCommand<'a>, NoCommand>
    ensures { IfOk result (λ command. (command_name command ≡ codes "coverage") × Asks (found_of given.now) command) }
{
    let asked = AskedCoverage {
        profile: required(given, "profile")?,
        expand: is_flag_given(given, "expand"),
        format: coverage_format(given),
        names: names_of(given),
    };
    Ok(ToolCommand::Coverage(asked, all_of(alloc, given, "script")?))
}

/// What `infer` is asked for.
fn infer_command<'a>(given: &ArgMatches<'a>) -> Result<ToolCommand<'a>, NoCommand>
    ensures { IfOk result (λ command. (command_name command ≡ codes "infer") × Asks (found_of given.now) command) }
{
    Ok(ToolCommand::Infer(AskedProfile {
        script: required(given, "script")?,
        address: address_of(given)?,
        unseen_is_legal: given.get_str("unseen") == Some("legal"),
        expand: is_flag_given(given, "expand"),
    }))
}

/// What `import` is asked for.
fn import_command<'a>(given: &ArgMatches<'a>) -> Result<ToolCommand<'a>, NoCommand>
    ensures { IfOk result (λ command. (command_name command ≡ codes "import") × Asks (found_of given.now) command) }
{
    let table = required(given, "table")?;
    match (is_flag_given(given, "check"), given.get_str("profile")) {
        (false, None) => Ok(ToolCommand::Import(table)),
        (true, Some(profile)) => Ok(ToolCommand::CheckImport { table, profile }),
        _ => Err(NoCommand::Usage("import takes P with --check alone")),
    }
}

/// What `explain` is asked for.
fn explain_command<'a>(given: &ArgMatches<'a>) -> Result<ToolCommand<'a>, NoCommand>
    ensures { IfOk result (λ command. (command_name command ≡ codes "explain") × Asks (found_of given.now) command) }
{
    Ok(ToolCommand::Explain {
        profile: required(given, "profile")?,
        as_json: as_json(given),
        names: names_of(given),
    })
}

/// What `differ` is asked for.
fn differ_command<'a>(given: &ArgMatches<'a>) -> Result<ToolCommand<'a>, NoCommand>
    ensures { IfOk result (λ command. (command_name command ≡ codes "differ") × Asks (found_of given.now) command) }
{
    Ok(ToolCommand::Differ(AskedComparison {
        profile: required(given, "profile")?,
        other: required(given, "other")?,
        scripts: is_flag_given(given, "scripts"),
        as_json: as_json(given),
        names: names_of(given),
    }))
}

/// How the acceptance test is to be written.
fn test_format(given: &ArgMatches<'_>) -> TestFormat
    ensures { result ≡ format_of (first_value (found_of given.now) (codes "format")) }
{
    match given.get_str("format") {
        Some("csv") => TestFormat::Csv,
        Some("json") => TestFormat::Json,
        _ => TestFormat::Script,
    }
}

/// What `acceptance` is asked for with `--against`. A comparison is no table of the test.
fn against_command<'a>(
    given: &ArgMatches<'a>,
    results: &'a str,
) -> Result<ToolCommand<'a>, NoCommand>
    requires { first_value (found_of given.now) (codes "against") ≡ Some results.now }
    ensures { IfOk result (λ command. (command_name command ≡ codes "acceptance") × Asks (found_of given.now) command) }
{
    if given.get_str("format") == Some("csv") {
        return Err(NoCommand::Usage("--against excludes --format csv"));
    }
    let format = report_format(given);
    Ok(ToolCommand::Against(AskedResults {
        profile: required(given, "profile")?,
        results,
        any_subsystem: is_flag_given(given, "any-subsystem"),
        format,
        names: names_of(given),
        date: date_of(given, format)?,
    }))
}

/// What `acceptance` is asked for. Without results there is no report.
fn acceptance_command<'a>(given: &ArgMatches<'a>) -> Result<ToolCommand<'a>, NoCommand>
    ensures { IfOk result (λ command. (command_name command ≡ codes "acceptance") × Asks (found_of given.now) command) }
{
    if let Some(results) = given.get_str("against") {
        return against_command(given, results);
    }
    let is_report = matches!(given.get_str("format"), Some("junit") | Some("html"));
    if is_report || is_flag_given(given, "any-subsystem") || given.get_str("date").is_some() {
        return Err(NoCommand::Usage(
            "--format junit and html, --any-subsystem and --date are for --against",
        ));
    }
    Ok(ToolCommand::Acceptance {
        profile: required(given, "profile")?,
        format: test_format(given),
        names: names_of(given),
    })
}

/// What `draw` is asked for.
fn draw_command<'a>(given: &ArgMatches<'a>) -> Result<ToolCommand<'a>, NoCommand>
    ensures { IfOk result (λ command. (command_name command ≡ codes "draw") × Asks (found_of given.now) command) }
{
    Ok(ToolCommand::Draw(AskedDrawing {
        profile: required(given, "profile")?,
        script: required(given, "script")?,
        expand: is_flag_given(given, "expand"),
        html: is_flag_given(given, "html"),
        names: names_of(given),
    }))
}

/// What `expand` is asked for.
fn expand_command<'a>(given: &ArgMatches<'a>) -> Result<ToolCommand<'a>, NoCommand>
    ensures { IfOk result (λ command. (command_name command ≡ codes "expand") × Asks (found_of given.now) command) }
{
    Ok(ToolCommand::Expand {
        messages: required(given, "messages")?,
        profile: given.get_str("for"),
    })
}

/// What `answers` is asked for.
fn answers_command<'a>(given: &ArgMatches<'a>) -> Result<ToolCommand<'a>, NoCommand>
    ensures { IfOk result (λ command. (command_name command ≡ codes "answers") × Asks (found_of given.now) command) }
{
    Ok(ToolCommand::Answers(AskedAnswers {
        profile: required(given, "profile")?,
        script: required(given, "script")?,
        expand: is_flag_given(given, "expand"),
    }))
}

/// What `run` is asked for.
fn run_command<'a>(given: &ArgMatches<'a>) -> Result<ToolCommand<'a>, NoCommand>
    ensures { IfOk result (λ command. (command_name command ≡ codes "run") × Asks (found_of given.now) command) }
{
    Ok(ToolCommand::Run {
        profile: required(given, "profile")?,
        script: required(given, "script")?,
    })
}

/// What `compare` is asked for.
fn compare_command<'a>(given: &ArgMatches<'a>) -> Result<ToolCommand<'a>, NoCommand>
    ensures { IfOk result (λ command. (command_name command ≡ codes "compare") × Asks (found_of given.now) command) }
{
    Ok(ToolCommand::Compare {
        profile: required(given, "profile")?,
        other: required(given, "other")?,
    })
}

/// What the command of this name is asked for.
fn command_of<'a>(
    alloc: Global,
    name: &str,
    given: &ArgMatches<'a>,
) -> Result<ToolCommand<'a>, NoCommand>
    ensures name { IfOk result (λ command. command_name command ≡ name.now) }
    ensures asks { IfOk result (Asks (found_of given.now)) }
{
    match name {
        "lint" => lint_command(alloc, given),
        "check-script" => Ok(ToolCommand::CheckScript(all_of(alloc, given, "script")?)),
        "verify" => verify_command(alloc, given),
        "recording" => recording_command(given),
        "coverage" => coverage_command(alloc, given),
        "infer" => infer_command(given),
        "import" => import_command(given),
        "export" => Ok(ToolCommand::Export(required(given, "profile")?)),
        "expand" => expand_command(given),
        "toml" => Ok(ToolCommand::Toml(required(given, "profile")?)),
        "explain" => explain_command(given),
        "differ" => differ_command(given),
        "acceptance" => acceptance_command(given),
        "messages" => messages_command(given),
        "draw" => draw_command(given),
        "words" => Ok(ToolCommand::Words),
        "live" => Ok(ToolCommand::Live(required(given, "profile")?)),
        "answers" => answers_command(given),
        "check" => Ok(ToolCommand::Check(required(given, "profile")?)),
        "canon" => Ok(ToolCommand::Canon(required(given, "profile")?)),
        "run" => run_command(given),
        "bus" => bus_command(alloc, given),
        "compare" => compare_command(given),
        _ => Err(NoCommand::Usage(NO_COMMAND)),
    }
}

/// What is asked for by arguments that clap found no fault with.
pub fn tool_command_of<'a>(
    alloc: Global,
    matches: &ArgMatches<'a>,
) -> Result<ToolCommand<'a>, NoCommand>
    ensures { IfOk result (IsAskedBy matches.now) }
{
    match matches.subcommand() {
        None => Err(NoCommand::Usage(NO_COMMAND)),
        Some((name, given)) => command_of(alloc, name, given),
    }
}
