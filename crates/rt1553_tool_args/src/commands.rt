//! The commands of `rt1553-tool`, made by scripts/manual.py of manual/arguments.toml.
use crate::table::{Argument, CommandGroup, CommandRow, Occurrence};

const TEXT_OR_JSON_OR_JUNIT: [&str; 3] = ["text", "json", "junit"];

const TEXT_OR_JSON_OR_SARIF: [&str; 3] = ["text", "json", "sarif"];

const TEXT_OR_JSON_OR_JUNIT_OR_HTML: [&str; 4] = ["text", "json", "junit", "html"];

const TEXT_OR_JSON_OR_HTML: [&str; 3] = ["text", "json", "html"];

const ILLEGAL_OR_LEGAL: [&str; 2] = ["illegal", "legal"];

const TEXT_OR_JSON: [&str; 2] = ["text", "json"];

const TEXT_OR_CSV_OR_JSON_OR_JUNIT_OR_HTML: [&str; 5] = ["text", "csv", "json", "junit", "html"];

const TEXT_OR_CSV_OR_JSON_OR_MESSAGES: [&str; 4] = ["text", "csv", "json", "messages"];

const PROFILE: Argument = Argument {
    id: "profile",
    given: Occurrence::Once,
    value: "P",
    help: "a profile or a canonical text",
};

const EXPAND: Argument = Argument {
    id: "expand",
    given: Occurrence::Flag,
    value: "",
    help: "takes messages, too, as `expand` does",
};

const NAMES: Argument = Argument {
    id: "names",
    given: Occurrence::Value,
    value: "TABLE",
    help: "puts the names of messages in TABLE beside their numbers",
};

const SCRIPT: Argument = Argument {
    id: "script",
    given: Occurrence::Once,
    value: "SCRIPT",
    help: "a script",
};

const OTHER: Argument = Argument {
    id: "other",
    given: Occurrence::Once,
    value: "Q",
    help: "another profile or canonical text",
};

const ADDRESS: Argument = Argument {
    id: "address",
    given: Occurrence::Needed,
    value: "N",
    help: "the address of the terminal, 0 to 30; it has to be given",
};

const FORMAT: Argument = Argument {
    id: "format",
    given: Occurrence::OneOf("text", &TEXT_OR_JSON),
    value: "format",
    help: "the output format",
};

const OF_CHECK: [Argument; 1] = [PROFILE];

const OF_CANON: [Argument; 1] = [PROFILE];

const OF_COMPARE: [Argument; 2] = [PROFILE, OTHER];

const OF_RUN: [Argument; 2] = [PROFILE, SCRIPT];

const OF_BUS: [Argument; 11] = [
    Argument {
        id: "profile",
        given: Occurrence::Often,
        value: "P",
        help: "profiles or canonical texts, of different addresses",
    },
    Argument {
        id: "script",
        given: Occurrence::Once,
        value: "SCRIPT",
        help: "a script, with addresses in front of subsystem lines, right behind the profiles",
    },
    EXPAND,
    Argument {
        id: "alone",
        given: Occurrence::Value,
        value: "ADDRESS",
        help: "prints what comes to the terminal of this address, as a script",
    },
    Argument {
        id: "messages",
        given: Occurrence::Flag,
        value: "",
        help: "prints the messages, as `messages` does, a line for each of their terminals",
    },
    Argument {
        id: "check",
        given: Occurrence::Flag,
        value: "",
        help: "takes messages as --expand does, and prints which of them do not end well",
    },
    Argument {
        id: "format",
        given: Occurrence::OneOf("text", &TEXT_OR_JSON_OR_JUNIT),
        value: "format",
        help: "with --check: the output format",
    },
    Argument {
        id: "names",
        given: Occurrence::Values,
        value: "TABLE",
        help: "with --check: the names of messages to the terminal of TABLE, also several times",
    },
    Argument {
        id: "date",
        given: Occurrence::Value,
        value: "DATE",
        help: "with --check, not as text: the date and time, as 2026-01-31T12:00:00",
    },
    Argument {
        id: "response",
        given: Occurrence::Value,
        value: "TIME",
        help: "with --check: the time before a status word, in us; 12 if left out",
    },
    Argument {
        id: "gap",
        given: Occurrence::Value,
        value: "TIME",
        help: "with --check: the time between messages, in us; 4 if left out",
    },
];

const OF_LINT: [Argument; 2] = [
    Argument {
        id: "profile",
        given: Occurrence::Often,
        value: "P",
        help: "profiles or canonical texts",
    },
    Argument {
        id: "format",
        given: Occurrence::OneOf("text", &TEXT_OR_JSON_OR_SARIF),
        value: "format",
        help: "the output format",
    },
];

const OF_CHECK_SCRIPT: [Argument; 1] = [Argument {
    id: "script",
    given: Occurrence::Often,
    value: "SCRIPT",
    help: "scripts",
}];

const OF_VERIFY: [Argument; 12] = [
    Argument {
        id: "profile",
        given: Occurrence::OnceOr("profiles"),
        value: "P",
        help: "a profile or a canonical text",
    },
    Argument {
        id: "script",
        given: Occurrence::OftenOr("profiles"),
        value: "SCRIPT",
        help: "scripts that state their answers",
    },
    Argument {
        id: "summary",
        given: Occurrence::Flag,
        value: "",
        help: "as text prints what passes, too, clause by clause",
    },
    Argument {
        id: "bus-only",
        given: Occurrence::Flag,
        value: "",
        help: "ignores hand-overs that a script does not state; not with --any-subsystem",
    },
    Argument {
        id: "any-subsystem",
        given: Occurrence::Flag,
        value: "",
        help: "takes scripts as recordings: some behaviour of the subsystem is to explain them",
    },
    Argument {
        id: "already-on",
        given: Occurrence::Flag,
        value: "",
        help: "with --any-subsystem takes recordings that began while the unit was on",
    },
    Argument {
        id: "witness",
        given: Occurrence::Flag,
        value: "",
        help: "with --any-subsystem prints, as text, a script that explains one recording",
    },
    EXPAND,
    Argument {
        id: "profiles",
        given: Occurrence::Value,
        value: "FOLDER",
        help: "in place of P: each script names its profile in FOLDER",
    },
    Argument {
        id: "format",
        given: Occurrence::OneOf("text", &TEXT_OR_JSON_OR_JUNIT_OR_HTML),
        value: "format",
        help: "the output format",
    },
    NAMES,
    Argument {
        id: "date",
        given: Occurrence::Value,
        value: "DATE",
        help: "not as text: the date and time, as 2026-01-31T12:00:00, also with Z or an offset",
    },
];

const OF_ANSWERS: [Argument; 3] = [PROFILE, SCRIPT, EXPAND];

const OF_RECORDING: [Argument; 7] = [
    Argument {
        id: "table",
        given: Occurrence::Once,
        value: "TABLE",
        help: "the table of a monitor, in CSV",
    },
    ADDRESS,
    Argument {
        id: "gap",
        given: Occurrence::Value,
        value: "TIME",
        help: "a longer silence is a gap, in microseconds (default: 1)",
    },
    Argument {
        id: "no-response",
        given: Occurrence::Value,
        value: "TIME",
        help: "a status word after a longer silence is no reply, in microseconds (default: 12)",
    },
    Argument {
        id: "pause",
        given: Occurrence::Value,
        value: "TIME",
        help: "a longer silence of both buses is a pause, in microseconds (default: 100)",
    },
    Argument {
        id: "after-reset",
        given: Occurrence::Value,
        value: "TIME",
        help: "so long behind a reset a missing reply convicts no unit, in microseconds (default: 5000)",
    },
    Argument {
        id: "after-self-test",
        given: Occurrence::Value,
        value: "TIME",
        help: "so long behind the start of a self test, in microseconds (default: 100000)",
    },
];

const OF_COVERAGE: [Argument; 5] = [
    PROFILE,
    Argument {
        id: "script",
        given: Occurrence::Often,
        value: "SCRIPT",
        help: "recordings",
    },
    EXPAND,
    Argument {
        id: "format",
        given: Occurrence::OneOf("text", &TEXT_OR_JSON_OR_HTML),
        value: "format",
        help: "the output format",
    },
    NAMES,
];

const OF_INFER: [Argument; 4] = [
    Argument {
        id: "script",
        given: Occurrence::Once,
        value: "SCRIPT",
        help: "a recording",
    },
    ADDRESS,
    Argument {
        id: "unseen",
        given: Occurrence::OneOf("illegal", &ILLEGAL_OR_LEGAL),
        value: "unseen",
        help: "what a message is of which nothing showed whether it is legal",
    },
    EXPAND,
];

const OF_IMPORT: [Argument; 3] = [
    Argument {
        id: "table",
        given: Occurrence::Once,
        value: "TABLE",
        help: "a table in CSV",
    },
    Argument {
        id: "profile",
        given: Occurrence::OnceWith("check"),
        value: "P",
        help: "with --check: the profile that TABLE is compared with",
    },
    Argument {
        id: "check",
        given: Occurrence::Flag,
        value: "",
        help: "prints the differences of P from TABLE, and no profile",
    },
];

const OF_EXPORT: [Argument; 1] = [PROFILE];

const OF_EXPAND: [Argument; 2] = [
    Argument {
        id: "messages",
        given: Occurrence::Once,
        value: "MESSAGES",
        help: "messages, and lines of a script",
    },
    Argument {
        id: "for",
        given: Occurrence::Value,
        value: "P",
        help: "for the terminal of P: slots in place of its words in a transfer",
    },
];

const OF_TOML: [Argument; 1] = [PROFILE];

const OF_EXPLAIN: [Argument; 3] = [PROFILE, FORMAT, NAMES];

const OF_DIFFER: [Argument; 5] = [
    PROFILE,
    OTHER,
    Argument {
        id: "scripts",
        given: Occurrence::Flag,
        value: "",
        help: "prints the script that shows each difference, if there is one",
    },
    FORMAT,
    NAMES,
];

const OF_ACCEPTANCE: [Argument; 6] = [
    PROFILE,
    Argument {
        id: "against",
        given: Occurrence::Value,
        value: "RESULTS",
        help: "compares the replies of a unit, a CSV table, with the test",
    },
    Argument {
        id: "any-subsystem",
        given: Occurrence::Flag,
        value: "",
        help: "with --against: some behaviour of the subsystem is to explain the replies",
    },
    Argument {
        id: "format",
        given: Occurrence::OneOf("text", &TEXT_OR_CSV_OR_JSON_OR_JUNIT_OR_HTML),
        value: "format",
        help: "the output format; csv: without --against; junit, html: with it",
    },
    NAMES,
    Argument {
        id: "date",
        given: Occurrence::Value,
        value: "DATE",
        help: "with --against, not as text: the date and time, as 2026-01-31T12:00:00Z",
    },
];

const OF_MESSAGES: [Argument; 8] = [
    PROFILE,
    SCRIPT,
    EXPAND,
    Argument {
        id: "rt",
        given: Occurrence::Value,
        value: "A",
        help: "only messages of terminal A, 0 to 30, or all for those by broadcast",
    },
    Argument {
        id: "subaddress",
        given: Occurrence::Value,
        value: "S",
        help: "only messages of subaddress S, 0 to 31",
    },
    Argument {
        id: "errors",
        given: Occurrence::Flag,
        value: "",
        help: "only messages that the terminal did not do, or did not answer",
    },
    Argument {
        id: "format",
        given: Occurrence::OneOf("text", &TEXT_OR_CSV_OR_JSON_OR_MESSAGES),
        value: "format",
        help: "the output format; messages excludes the other options but --expand",
    },
    NAMES,
];

const OF_DRAW: [Argument; 5] = [
    PROFILE,
    SCRIPT,
    EXPAND,
    Argument {
        id: "html",
        given: Occurrence::Flag,
        value: "",
        help: "writes an HTML page, with the table of legal commands",
    },
    NAMES,
];

const OF_LIVE: [Argument; 1] = [PROFILE];

/// The commands; under each heading of the help they stand in this order.
pub const COMMANDS: [CommandRow; 23] = [
    CommandRow {
        name: "check",
        group: CommandGroup::Profiles,
        about: "Prints ok, or the faults of a profile",
        after: "Example: rt1553-tool check pump.toml",
        arguments: &OF_CHECK,
    },
    CommandRow {
        name: "canon",
        group: CommandGroup::Profiles,
        about: "Prints the canonical text of a profile",
        after: "Example: rt1553-tool canon pump.toml > pump.rt1553",
        arguments: &OF_CANON,
    },
    CommandRow {
        name: "compare",
        group: CommandGroup::Profiles,
        about: "Prints same, or a script that two terminals answer differently",
        after: "Example: rt1553-tool compare old.toml new.toml",
        arguments: &OF_COMPARE,
    },
    CommandRow {
        name: "run",
        group: CommandGroup::Scripts,
        about: "Prints the transcript of a script",
        after: "Example: rt1553-tool run pump.toml pump.script",
        arguments: &OF_RUN,
    },
    CommandRow {
        name: "bus",
        group: CommandGroup::Buses,
        about: "Prints the transcript of a script for a bus of terminals",
        after: "Example: rt1553-tool bus pump.toml valve.toml both.script",
        arguments: &OF_BUS,
    },
    CommandRow {
        name: "lint",
        group: CommandGroup::Profiles,
        about: "Prints all faults of profiles, and what has no effect",
        after: "Example: rt1553-tool lint pump.toml",
        arguments: &OF_LINT,
    },
    CommandRow {
        name: "check-script",
        group: CommandGroup::Scripts,
        about: "Prints which lines of scripts are refused, where and why",
        after: "Example: rt1553-tool check-script pump.script",
        arguments: &OF_CHECK_SCRIPT,
    },
    CommandRow {
        name: "verify",
        group: CommandGroup::Scripts,
        about: "Prints where a terminal does not answer as scripts state",
        after: "Example: rt1553-tool verify pump.toml pump.script",
        arguments: &OF_VERIFY,
    },
    CommandRow {
        name: "answers",
        group: CommandGroup::Scripts,
        about: "Writes a script with the answers of a terminal stated",
        after: "Example: rt1553-tool answers pump.toml pump.script > pump.test",
        arguments: &OF_ANSWERS,
    },
    CommandRow {
        name: "recording",
        group: CommandGroup::Units,
        about: "Writes the recording of a terminal that the table of a monitor has",
        after: "Example: rt1553-tool recording monitor.csv --address 5 > pump.script",
        arguments: &OF_RECORDING,
    },
    CommandRow {
        name: "coverage",
        group: CommandGroup::Units,
        about: "Prints which messages of a terminal came in recordings, and which never",
        after: "Example: rt1553-tool coverage pump.toml pump.script",
        arguments: &OF_COVERAGE,
    },
    CommandRow {
        name: "infer",
        group: CommandGroup::Units,
        about: "Proposes a profile that explains a recording",
        after: "Example: rt1553-tool infer pump.script --address 5 > pump.toml",
        arguments: &OF_INFER,
    },
    CommandRow {
        name: "import",
        group: CommandGroup::Documents,
        about: "Writes the profile that a table means",
        after: "Example: rt1553-tool import pump.csv > pump.toml",
        arguments: &OF_IMPORT,
    },
    CommandRow {
        name: "export",
        group: CommandGroup::Documents,
        about: "Writes the table of a profile",
        after: "Example: rt1553-tool export pump.toml > pump.csv",
        arguments: &OF_EXPORT,
    },
    CommandRow {
        name: "expand",
        group: CommandGroup::Scripts,
        about: "Writes messages as the lines of a script",
        after: "Example: rt1553-tool expand pump.messages > pump.script",
        arguments: &OF_EXPAND,
    },
    CommandRow {
        name: "toml",
        group: CommandGroup::Profiles,
        about: "Writes a small profile that means the same terminal",
        after: "Example: rt1553-tool toml pump.canon > pump.toml",
        arguments: &OF_TOML,
    },
    CommandRow {
        name: "explain",
        group: CommandGroup::Profiles,
        about: "Prints what a terminal does, as a table",
        after: "Example: rt1553-tool explain pump.toml",
        arguments: &OF_EXPLAIN,
    },
    CommandRow {
        name: "differ",
        group: CommandGroup::Profiles,
        about: "Prints all differences between two terminals",
        after: "Example: rt1553-tool differ --scripts old.toml new.toml",
        arguments: &OF_DIFFER,
    },
    CommandRow {
        name: "acceptance",
        group: CommandGroup::Units,
        about: "Writes the test that distinguishes a terminal from every other",
        after: "Example: rt1553-tool acceptance pump.toml > pump.script",
        arguments: &OF_ACCEPTANCE,
    },
    CommandRow {
        name: "messages",
        group: CommandGroup::Scripts,
        about: "Prints a line for each message of a run, and how it ended",
        after: "Example: rt1553-tool messages pump.toml pump.script",
        arguments: &OF_MESSAGES,
    },
    CommandRow {
        name: "draw",
        group: CommandGroup::Scripts,
        about: "Draws a run: the words on the buses, and what is handed over",
        after: "Example: rt1553-tool draw pump.toml pump.script > pump.svg",
        arguments: &OF_DRAW,
    },
    CommandRow {
        name: "words",
        group: CommandGroup::Scripts,
        about: "Converts between words of the bus and their fields",
        after: "Lines:\n  rx A S N, tx A S N             receive or transmit N words, 1 to 32, at subaddress S, 1 to 30\n  mode A CODE [tx|rx [0|31]]     mode code CODE, 0 to 31, at subaddress 0 or 31\n  status A [BIT]..               status word with these bits: error, instrumentation, service,\n                                 reserved1 to reserved3, broadcast, busy, subsystem, accept, terminal\n  data XXXX                      data word\n  c|s|d XXXX [PARITY]            command, status or data word by its digits\nA is an address, 0 to 30, or all for a command; # begins a comment.\n\nExample: printf 'rx 5 3 2\\nc 2862\\n' | rt1553-tool words",
        arguments: &[],
    },
    CommandRow {
        name: "live",
        group: CommandGroup::Scripts,
        about: "Plays lines as they come, and ends each answer with a dot",
        after: "Example: printf 'A c 2c02\\nA gap\\nslot\\n' | rt1553-tool live pump.toml",
        arguments: &OF_LIVE,
    },
];
