//! The columns of a monitor's table that count.
ghost use Rattle.std.specs.Prelude.{◌≡◌, codes};
ghost use Rattle.monitor_tables.specs.Header.{monitor_column_name};

use std::fmt;

/// A column that counts, by what stands in it. Its header is what `name` gives.
#[derive(Clone, Copy, Debug)]
pub enum MonitorColumn {
    Time,
    Bus,
    Sync,
    Word,
    Error,
    Command,
    Command2,
    Data,
    Status,
    Status2,
}

/// The columns of a table of words.
pub const WORD_COLUMNS: [MonitorColumn; 5] = [
    MonitorColumn::Time,
    MonitorColumn::Bus,
    MonitorColumn::Sync,
    MonitorColumn::Word,
    MonitorColumn::Error,
];

/// The columns of a table of messages.
pub const MESSAGE_COLUMNS: [MonitorColumn; 8] = [
    MonitorColumn::Time,
    MonitorColumn::Bus,
    MonitorColumn::Command,
    MonitorColumn::Command2,
    MonitorColumn::Data,
    MonitorColumn::Status,
    MonitorColumn::Status2,
    MonitorColumn::Error,
];

impl MonitorColumn {
    /// The column's header.
    pub fn name(self) -> &'static str
        ensures { result.now ≡ monitor_column_name self }
    {
        match self {
            MonitorColumn::Time => "time",
            MonitorColumn::Bus => "bus",
            MonitorColumn::Sync => "sync",
            MonitorColumn::Word => "word",
            MonitorColumn::Error => "error",
            MonitorColumn::Command => "command",
            MonitorColumn::Command2 => "command2",
            MonitorColumn::Data => "data",
            MonitorColumn::Status => "status",
            MonitorColumn::Status2 => "status2",
        }
    }
}

impl fmt::Display for MonitorColumn {
    fn fmt<W: fmt::Write>(&self, f: &mut fmt::Formatter<W>) -> fmt::Result {
        f.write_str(self.name())
    }
}
