//! How commands and their arguments are described.

/// How an argument is given.
#[derive(Clone, Copy)]
pub enum Occurrence {
    /// Once.
    Once,
    /// Once or more often.
    Often,
    /// Once, or left out beside the option of this name.
    OnceOr(&'static str),
    /// Once or more often, or left out beside the option of this name.
    OftenOr(&'static str),
    /// Once with the option of this name, and not without it.
    OnceWith(&'static str),
    /// As an option with a value, which may be left out.
    Value,
    /// As an option with a value, which may be left out, or be given several times.
    Values,
    /// As an option with a value, which has to be given.
    Needed,
    /// As an option without a value.
    Flag,
    /// As an option with this value where it is left out, or one of these.
    OneOf(&'static str, &'static [&'static str]),
}

/// An argument of a command.
#[derive(Clone, Copy)]
pub struct Argument {
    /// Its name; that of an option stands behind two hyphens.
    pub id: &'static str,
    pub given: Occurrence,
    /// What stands for its value in the help.
    pub value: &'static str,
    pub help: &'static str,
}

/// What commands are about: the headings of the help.
#[derive(Clone, Copy, PartialEq, Eq)]
pub enum CommandGroup {
    Profiles,
    Scripts,
    Units,
    Documents,
    Buses,
}

/// The headings with their texts, in the order of the help.
pub const HEADINGS: [(CommandGroup, &str); 5] = [
    (CommandGroup::Profiles, "Profiles"),
    (CommandGroup::Scripts, "Scripts"),
    (CommandGroup::Units, "Units and recordings"),
    (CommandGroup::Documents, "Documents"),
    (CommandGroup::Buses, "Buses"),
];

/// A command.
#[derive(Clone, Copy)]
pub struct CommandRow {
    pub name: &'static str,
    pub group: CommandGroup,
    pub about: &'static str,
    /// What the help has after the arguments.
    pub after: &'static str,
    pub arguments: &'static [Argument],
}
