//! What the rows of a table are.
ghost use Rattle.std.specs.Prelude.{◌≡◌};
ghost use Rattle.rt1553_import.specs.Kinds.{kind_name, row_kind, is_setting, is_message, takes};

use crate::alike::is_alike;
use crate::column::TableColumn;

/// What a row is. Its text is what `name` gives.
#[derive(Clone, Copy, PartialEq, Eq)]
pub enum RowKind {
    /// A key of the profile that holds one value.
    Address,
    Broadcast,
    Wraparound,
    AcceptBusControl,
    Vector,
    Bit,
    /// A message of data, as a rule of the profile.
    Receive,
    Transmit,
    Both,
    /// Mode codes.
    Mode,
}

/// All the kinds.
pub const ROW_KINDS: [RowKind; 10] = [
    RowKind::Address,
    RowKind::Broadcast,
    RowKind::Wraparound,
    RowKind::AcceptBusControl,
    RowKind::Vector,
    RowKind::Bit,
    RowKind::Receive,
    RowKind::Transmit,
    RowKind::Both,
    RowKind::Mode,
];

impl RowKind {
    /// The text that names the kind in the column `kind`.
    pub fn name(self) -> &'static str
        ensures { result.now ≡ kind_name self }
    {
        match self {
            RowKind::Address => "address",
            RowKind::Broadcast => "broadcast",
            RowKind::Wraparound => "wraparound",
            RowKind::AcceptBusControl => "accept_bus_control",
            RowKind::Vector => "vector",
            RowKind::Bit => "bit",
            RowKind::Receive => "receive",
            RowKind::Transmit => "transmit",
            RowKind::Both => "both",
            RowKind::Mode => "mode",
        }
    }

    /// The kind that this text names, in any capitals, if there is one.
    pub fn of(text: &str) -> Option<RowKind>
        ensures { result ≡ row_kind text.now }
    {
        ROW_KINDS
            .iter()
            .copied()
            .find(|kind| is_alike(text, kind.name()))
    }

    /// Whether it is a key of the profile that holds one value.
    pub fn is_setting(self) -> bool
        ensures { result ≡ is_setting self }
    {
        !self.is_message() && self != RowKind::Mode
    }

    /// Whether it is a message of data.
    pub fn is_message(self) -> bool
        ensures { result ≡ is_message self }
    {
        self == RowKind::Receive || self == RowKind::Transmit || self == RowKind::Both
    }

    /// Whether a row of this kind may have text in this column.
    pub fn takes(self, column: TableColumn) -> bool
        ensures { result ≡ takes self column }
    {
        match column {
            TableColumn::Kind | TableColumn::Name => true,
            TableColumn::Value => self.is_setting(),
            TableColumn::Subaddress | TableColumn::Words => self.is_message(),
            TableColumn::Code => self == RowKind::Mode,
            TableColumn::To | TableColumn::Legal => !self.is_setting(),
            TableColumn::Initial => self == RowKind::Transmit,
        }
    }
}
