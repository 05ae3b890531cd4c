//! Why a run ends early.
use thiserror::Error;

/// Why a script is not run to its end. Lines are numbered from 1.
#[derive(Clone, Copy, Debug, PartialEq, Eq, Error)]
pub enum RunFault {
    /// This line, of at most 64 bytes, is not a script line.
    #[error("script: line {0}")]
    Line(u64),
    /// This line has over 64 bytes before its line feed.
    #[error("script: line {0} is too long")]
    LongLine(u64),
    /// Something follows line 1,048,576.
    #[error("script: too many lines")]
    TooLong,
    /// The script could not be read.
    #[error("input: read failed")]
    Read,
    /// The transcript could not be written.
    #[error("output: write failed")]
    Write,
}

impl RunFault {
    ghost use Rattle.std.specs.Prelude.{◌≡◌};
    ghost use Rattle.bus_script.specs.Fault.{run_fault_number, run_fault_name};

    /// The number of the fault among those of a run, from 1.
    pub fn number(&self) -> u8
        ensures { result ≡ run_fault_number self.now }
    {
        match self {
            RunFault::Line(_) => 1,
            RunFault::LongLine(_) => 2,
            RunFault::TooLong => 3,
            RunFault::Read => 4,
            RunFault::Write => 5,
        }
    }

    /// The name of the fault.
    pub fn name(&self) -> &'static str
        ensures { result.now ≡ run_fault_name self.now }
    {
        match self {
            RunFault::Line(_) => "Line",
            RunFault::LongLine(_) => "LongLine",
            RunFault::TooLong => "TooLong",
            RunFault::Read => "Read",
            RunFault::Write => "Write",
        }
    }
}
