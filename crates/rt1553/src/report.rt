//! Faults, as a program tells them.
ghost use Rattle.std.specs.Prelude.{◌≡◌};
ghost use Rattle.rt1553.specs.OneLine.{IsOneLine};
ghost use Rattle.rt1553.specs.Report.{exit_status_of};

use crate::one_line::OneLine;
use crate::{EngineFault, LoadFault, ProfileFault, RunFault};
use arrayvec::ArrayString;
use std::fmt::{Display, Write};

/// The status that a program ends with: 2 for a profile text, a canonical text or a script that is refused, 4 where a
/// read or a write failed or memory ran out.
fn exit_status_of(fault: &EngineFault) -> u8
    ensures { result ≡ exit_status_of fault.now }
{
    match fault {
        EngineFault::Load(LoadFault::Memory | LoadFault::Profile(ProfileFault::Memory)) => 4,
        EngineFault::Load(_) => 2,
        EngineFault::Script(RunFault::Read | RunFault::Write) => 4,
        EngineFault::Script(_) => 2,
    }
}

/// What a fault says, as a line with its line feed.
pub fn fault_line<T: Display>(fault: &T) -> ArrayString<128>
    ensures { IsOneLine result.bytes }
{
    let mut text = OneLine::new();
    // the longest text is far below 127 bytes
    let _ = write!(text, "{fault}");
    text.ended()
}

/// The status that a program ends with and the line that it prints, with its line feed.
pub fn describe(fault: &EngineFault) -> (u8, ArrayString<128>)
    ensures status { result.0 ≡ exit_status_of fault.now }
    ensures line { IsOneLine result.1.bytes }
{
    (exit_status_of(fault), fault_line(fault))
}
