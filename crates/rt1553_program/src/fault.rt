//! Why the program ends early, the line that it prints then, and the status that it ends with.
use rt1553::{EngineFault, LoadFault, describe};
use rt1553_args::ArgFault;
use rt1553_files::FileFault;
use std::alloc::AllocError;
use std::fmt;

/// Why the program ends early.
#[derive(Drop)]
pub enum Fault {
    /// The arguments are none that the program accepts.
    Usage,
    /// Out of memory.
    Memory,
    /// A file isn't read.
    File(FileFault),
    /// The output can't be written.
    Output,
    /// A profile or a script is refused, or a device failed.
    Engine(EngineFault),
}

/// The line that the program prints, with its line feed.
impl fmt::Display for Fault {
    fn fmt<W: fmt::Write>(&self, f: &mut fmt::Formatter<W>) -> fmt::Result {
        match self {
            Fault::Usage => {
                f.write_str("usage: rt1553 [check P, canon P, run P SCRIPT, compare P Q]\n")
            }
            Fault::Memory => f.write_str("out of memory\n"),
            Fault::File(fault) => writeln!(f, "{fault}"),
            Fault::Output => f.write_str("output: write failed\n"),
            Fault::Engine(fault) => f.write_str(describe(fault).1.as_str()),
        }
    }
}

impl Fault {
    ghost use Rattle.std.specs.Prelude.{◌≡◌};
    ghost use Rattle.rt1553_program.specs.Fault.{exit_status};

    /// The status that the program ends with.
    pub fn status(&self) -> u8
        ensures { result ≡ exit_status self.now }
    {
        match self {
            Fault::Usage => 3,
            Fault::Memory | Fault::File(_) | Fault::Output => 4,
            Fault::Engine(fault) => describe(fault).0,
        }
    }
}

impl From<AllocError> for Fault {
    ghost use Rattle.std.specs.Prelude.{◌≡◌};
    ghost use Rattle.rt1553_program.specs.declared.fault.Fault.TheVariants.{Memory};

    ghost from_gives = { λ _ fault. fault ≡ Memory };

    fn from(_error: AllocError) -> Fault {
        Fault::Memory
    }
}

impl From<FileFault> for Fault {
    ghost use Rattle.std.specs.Prelude.{◌≡◌};
    ghost use Rattle.rt1553_program.specs.declared.fault.Fault.TheVariants.{File};

    ghost from_gives = { λ file fault. fault ≡ File file };

    fn from(fault: FileFault) -> Fault {
        Fault::File(fault)
    }
}

impl From<LoadFault> for Fault {
    ghost use Rattle.std.specs.Prelude.{◌≡◌};
    ghost use Rattle.rt1553.specs.declared.fault.EngineFault.TheVariants.{Load};
    ghost use Rattle.rt1553_program.specs.declared.fault.Fault.TheVariants.{Engine};

    ghost from_gives = { λ load fault. fault ≡ Engine (Load load) };

    fn from(fault: LoadFault) -> Fault {
        Fault::Engine(EngineFault::Load(fault))
    }
}

impl From<ArgFault> for Fault {
    ghost use Rattle.std.specs.Prelude.{◌≡◌};
    ghost use Rattle.rt1553_program.specs.Causes.{fault_of_args};

    ghost from_gives = { λ args fault. fault ≡ fault_of_args args };

    fn from(fault: ArgFault) -> Fault {
        match fault {
            ArgFault::Usage => Fault::Usage,
            ArgFault::Memory => Fault::Memory,
        }
    }
}
