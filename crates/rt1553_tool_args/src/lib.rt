//! The command line of `rt1553-tool`, read by clap into what it asks for.
#![tactic(auto)]

mod args;
mod bus;
mod command;
mod commands;
mod date;
mod messages;
mod table;
mod versions;

pub use args::{NoCommand, read_tool_args};
pub use command::{
    AskedAnswers, AskedBus, AskedCheck, AskedComparison, AskedCoverage, AskedDrawing,
    AskedMessages, AskedProfile, AskedRecording, AskedReport, AskedResults, AskedWitness,
    BusOutput, CheckFormat, CoverageFormat, LintFormat, MessagesFormat, Profiles, ReportFormat,
    ScriptKind, TestFormat, ToolCommand,
};
pub use versions::{CANONICAL_VERSION, PROGRAM_VERSION, TOOLCHAIN, VERSION};
