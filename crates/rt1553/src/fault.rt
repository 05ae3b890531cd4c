//! Why a text is not loaded, and why a run ends early.
use bus_canon::CanonFault;
use bus_profile::ProfileFault;
use bus_script::RunFault;
use thiserror::Error;

/// Why a profile, or a canonical text, is not loaded.
#[derive(Clone, Copy, Debug, PartialEq, Eq, Error)]
pub enum LoadFault {
    /// The profile text is refused for this, its first fault. Out of memory is `Memory`.
    #[error(transparent)]
    Profile(ProfileFault),
    /// The canonical text is refused.
    #[error(transparent)]
    Canon(CanonFault),
    /// A growth of memory was refused, which says nothing of the text.
    #[error("out of memory")]
    Memory,
}

impl LoadFault {
    ghost use Rattle.std.specs.Prelude.{◌≡◌};
    ghost use Rattle.rt1553.specs.Fault.{load_fault_number, load_fault_name};

    /// The number of the fault among those of loading, from 1. The fault inside has one of its own.
    pub fn number(&self) -> u8
        ensures { result ≡ load_fault_number self.now }
    {
        match self {
            LoadFault::Profile(_) => 1,
            LoadFault::Canon(_) => 2,
            LoadFault::Memory => 3,
        }
    }

    /// The name of the fault.
    pub fn name(&self) -> &'static str
        ensures { result.now ≡ load_fault_name self.now }
    {
        match self {
            LoadFault::Profile(_) => "Profile",
            LoadFault::Canon(_) => "Canon",
            LoadFault::Memory => "Memory",
        }
    }
}

impl From<CanonFault> for LoadFault {
    ghost use Rattle.std.specs.Prelude.{◌≡◌};
    ghost use Rattle.rt1553.specs.declared.fault.LoadFault.TheVariants.{Canon};

    ghost from_gives = { λ fault loading. loading ≡ Canon fault };

    fn from(fault: CanonFault) -> LoadFault {
        LoadFault::Canon(fault)
    }
}

impl From<ProfileFault> for LoadFault {
    ghost use Rattle.std.specs.Prelude.{◌≡◌};
    ghost use Rattle.rt1553.specs.Load.{load_fault};

    ghost from_gives = { λ fault loading. loading ≡ load_fault fault };

    fn from(fault: ProfileFault) -> LoadFault {
        match fault {
            ProfileFault::Memory => LoadFault::Memory,
            fault => LoadFault::Profile(fault),
        }
    }
}

/// Why a run of a profile over a script ends early.
#[derive(Clone, Copy, Debug, PartialEq, Eq, Error)]
pub enum EngineFault {
    /// The profile was not loaded: nothing was read or written.
    #[error(transparent)]
    Load(LoadFault),
    /// The script was not run to its end.
    #[error(transparent)]
    Script(RunFault),
}

impl EngineFault {
    ghost use Rattle.std.specs.Prelude.{◌≡◌};
    ghost use Rattle.rt1553.specs.Fault.{engine_fault_number, engine_fault_name};

    /// The number of the fault among those of a run of a profile, from 1. The fault inside has one of its own.
    pub fn number(&self) -> u8
        ensures { result ≡ engine_fault_number self.now }
    {
        match self {
            EngineFault::Load(_) => 1,
            EngineFault::Script(_) => 2,
        }
    }

    /// The name of the fault.
    pub fn name(&self) -> &'static str
        ensures { result.now ≡ engine_fault_name self.now }
    {
        match self {
            EngineFault::Load(_) => "Load",
            EngineFault::Script(_) => "Script",
        }
    }
}
