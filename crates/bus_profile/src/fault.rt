//! Why a profile text is refused, and where in it the fault stands.
ghost use Rattle.std.specs.Prelude.{◌≡◌};
ghost use Rattle.bus_profile.specs.FaultNames.{profile_fault_number, profile_fault_name};
ghost use Rattle.bus_profile.specs.Keys.{key_name};

use std::alloc::AllocFailed;
use std::fmt;
use thiserror::Error;

/// A table of the profile text. The entries of each array are numbered from 1.
#[derive(Clone, Copy, Debug, PartialEq, Eq)]
pub enum Part {
    /// The profile as a whole.
    Root,
    /// The rule of this number.
    Rule(u16),
    /// The mode entry of this number.
    Mode(u16),
    /// The initial entry of this number.
    Initial(u16),
}

impl fmt::Display for Part {
    fn fmt<W: fmt::Write>(&self, f: &mut fmt::Formatter<W>) -> fmt::Result {
        match self {
            Part::Root => write!(f, "root"),
            Part::Rule(number) => write!(f, "rule {number}"),
            Part::Mode(number) => write!(f, "mode {number}"),
            Part::Initial(number) => write!(f, "initial {number}"),
        }
    }
}

/// A key of the profile text, written as `name` gives it.
#[derive(Clone, Copy, Debug, PartialEq, Eq)]
pub enum Key {
    Address,
    Broadcast,
    Wraparound,
    AcceptBusControl,
    Vector,
    Bit,
    Rule,
    Mode,
    Initial,
    To,
    Direction,
    Subaddresses,
    Counts,
    Legal,
    Codes,
    Subaddress,
    At,
    Words,
}

impl Key {
    /// The key as it is written in the profile text.
    pub fn name(self) -> &'static str
        ensures { result.now ≡ key_name self }
    {
        match self {
            Key::Address => "address",
            Key::Broadcast => "broadcast",
            Key::Wraparound => "wraparound",
            Key::AcceptBusControl => "accept_bus_control",
            Key::Vector => "vector",
            Key::Bit => "bit",
            Key::Rule => "rule",
            Key::Mode => "mode",
            Key::Initial => "initial",
            Key::To => "to",
            Key::Direction => "direction",
            Key::Subaddresses => "subaddresses",
            Key::Counts => "counts",
            Key::Legal => "legal",
            Key::Codes => "codes",
            Key::Subaddress => "subaddress",
            Key::At => "at",
            Key::Words => "words",
        }
    }
}

impl fmt::Display for Key {
    fn fmt<W: fmt::Write>(&self, f: &mut fmt::Formatter<W>) -> fmt::Result {
        f.write_str(self.name())
    }
}

/// Why a profile text is refused: its first fault.
#[derive(Clone, Copy, Debug, PartialEq, Eq, Error)]
pub enum ProfileFault {
    /// The text is no TOML document, or no UTF-8.
    #[error("profile: not TOML")]
    NotToml,
    /// The table has a key that profiles don't have there.
    #[error("profile: {0}: unknown key")]
    UnknownKey(Part),
    /// A key that has no default isn't there.
    #[error("profile: {0}: {1} is missing")]
    Missing(Part, Key),
    /// The value is of another kind, as text in place of a number. In an array that holds something
    /// other than a table, the part is the entry and the key that of the array.
    #[error("profile: {0}: {1} has the wrong kind")]
    WrongKind(Part, Key),
    /// A number is out of range, or a text is none of those that the key takes.
    #[error("profile: {0}: {1} is out of range")]
    OutOfRange(Part, Key),
    /// The text is no list of ranges.
    #[error("profile: {0}: {1} is not a list of ranges")]
    BadRanges(Part, Key),
    /// An array has more than 256 entries, or the words of an initial entry go beyond the 32 of a
    /// subaddress.
    #[error("profile: {0}: {1} has too many items")]
    TooMany(Part, Key),
    /// The profile makes this mode code, one of those that must be legal, illegal for the terminal's own address.
    #[error("profile: mode code {0} must be legal")]
    RequiredCode(u8),
    /// A growth of memory was refused, which says nothing of the text.
    #[error("out of memory")]
    Memory,
}

impl ProfileFault {
    /// The number of the kind of fault, 1 to 9 in the order of the variants.
    pub fn number(&self) -> u8
        ensures { result ≡ profile_fault_number self.now }
    {
        match self {
            ProfileFault::NotToml => 1,
            ProfileFault::UnknownKey(_) => 2,
            ProfileFault::Missing(_, _) => 3,
            ProfileFault::WrongKind(_, _) => 4,
            ProfileFault::OutOfRange(_, _) => 5,
            ProfileFault::BadRanges(_, _) => 6,
            ProfileFault::TooMany(_, _) => 7,
            ProfileFault::RequiredCode(_) => 8,
            ProfileFault::Memory => 9,
        }
    }

    /// The name of the kind of fault: that of its variant.
    pub fn name(&self) -> &'static str
        ensures { result.now ≡ profile_fault_name self.now }
    {
        match self {
            ProfileFault::NotToml => "NotToml",
            ProfileFault::UnknownKey(_) => "UnknownKey",
            ProfileFault::Missing(_, _) => "Missing",
            ProfileFault::WrongKind(_, _) => "WrongKind",
            ProfileFault::OutOfRange(_, _) => "OutOfRange",
            ProfileFault::BadRanges(_, _) => "BadRanges",
            ProfileFault::TooMany(_, _) => "TooMany",
            ProfileFault::RequiredCode(_) => "RequiredCode",
            ProfileFault::Memory => "Memory",
        }
    }
}

impl<T: Drop> From<AllocFailed<T>> for ProfileFault {
    ghost use Rattle.std.specs.Prelude.{◌≡◌};
    ghost use Rattle.bus_profile.specs.declared.fault.ProfileFault.TheVariants.{Memory};

    ghost from_gives = { λ _ fault. fault ≡ Memory };

    fn from(_failed: AllocFailed<T>) -> ProfileFault {
        ProfileFault::Memory
    }
}
