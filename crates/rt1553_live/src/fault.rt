//! Faults as plain numbers, with their text.
ghost use Rattle.std.specs.Prelude.{◌≡◌};
ghost use Rattle.rt1553.specs.Report.{exit_status_of};
ghost use Rattle.rt1553.specs.OneLine.{IsOneLine};
ghost use Rattle.rt1553_live.specs.PlainFault.{plain_fault_kind, plain_fault_number, plain_fault_line, TellsNumbers, TellsFault};
ghost use Rattle.rt1553_live.specs.Restored.{restore_status, TellsRestoreFault};

use crate::StateFault;
use crate::answer::put_first;
use crate::live::RestoreFault;
use arrayvec::ArrayString;
use bus_canon::CanonFault;
use bus_script::RunFault;
use rt1553::{EngineFault, LoadFault, describe, fault_line};

/// Why a text was refused, or a call could not be done.
#[repr(C)]
#[derive(Clone, Copy, Drop, PartialEq, Eq, Debug)]
pub struct PlainFault {
    /// What the fault is of: 0 none, 1 a profile text, 2 a canonical text, 3 memory, 4 a script or a transcript, 5 a saved state.
    pub kind: u8,
    /// The number of the fault among those of its kind; 0 where memory runs out.
    pub number: u8,
    /// How many bytes of `text` tell it.
    pub length: u8,
    /// The line of a canonical text, a script or a saved state, from 1; 0 where the fault names none.
    pub line: u64,
    /// The line that the program `rt1553` prints, with its line feed, and then zeros.
    pub text: [u8; 136],
}

fn plain_fault_kind(fault: &EngineFault) -> u8
    ensures { result ≡ plain_fault_kind fault.now }
{
    match fault {
        EngineFault::Load(LoadFault::Profile(_)) => 1,
        EngineFault::Load(LoadFault::Canon(_)) => 2,
        EngineFault::Load(LoadFault::Memory) => 3,
        EngineFault::Script(_) => 4,
    }
}

fn plain_fault_number(fault: &EngineFault) -> u8
    ensures { result ≡ plain_fault_number fault.now }
{
    match fault {
        EngineFault::Load(LoadFault::Profile(fault)) => fault.number(),
        EngineFault::Load(LoadFault::Canon(fault)) => fault.number(),
        EngineFault::Load(LoadFault::Memory) => 0,
        EngineFault::Script(fault) => fault.number(),
    }
}

fn plain_fault_line(fault: &EngineFault) -> u64
    ensures { result ≡ plain_fault_line fault.now }
{
    match fault {
        EngineFault::Load(LoadFault::Canon(CanonFault::Line(line))) => *line as u64,
        EngineFault::Script(RunFault::Line(line) | RunFault::LongLine(line)) => *line,
        _ => 0,
    }
}

/// Tells the numbers of a fault and its line.
fn tell(to: &mut PlainFault, kind: u8, number: u8, line: u64, text: &ArrayString<128>)
    requires { IsOneLine text.now.bytes }
    ensures { TellsNumbers to.new kind number line }
{
    to.kind = kind;
    to.number = number;
    to.line = line;
    to.length = text.len() as u8;
    to.text = [0; 136];
    put_first(&mut to.text, text.as_str().as_bytes());
}

/// Tells a fault, and gives the status of the program `rt1553` for it: 2 where a text is refused, 4 where memory runs out or
/// a read or a write fails.
pub fn tell_fault(to: &mut PlainFault, fault: &EngineFault) -> u8
    ensures status { result ≡ exit_status_of fault.now }
    ensures told { TellsFault to.new fault.now }
{
    let (status, text) = describe(fault);
    tell(
        to,
        plain_fault_kind(fault),
        plain_fault_number(fault),
        plain_fault_line(fault),
        &text,
    );
    status
}

/// Tells why no terminal is made of a saved state, and gives the status for it: 2 where the text is refused, 4 where memory runs
/// out.
pub fn tell_restore_fault(to: &mut PlainFault, fault: &RestoreFault) -> u8
    ensures status { result ≡ restore_status fault.now }
    ensures told { TellsRestoreFault to.new fault.now }
{
    match fault {
        RestoreFault::State(why) => {
            let (number, line) = match why {
                StateFault::Line(line) => (1, *line as u64),
                StateFault::Trailing => (2, 0),
            };
            tell(to, 5, number, line, &fault_line(why));
            2
        }
        RestoreFault::Memory => tell_fault(to, &EngineFault::Load(LoadFault::Memory)),
    }
}
