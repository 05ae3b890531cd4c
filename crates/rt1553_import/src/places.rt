//! Where in a table the faults of its profile stand.
ghost use Rattle.std.specs.Prelude.{◌≡◌, ◌≤◌, ◌++◌, IfOk, OnOk, filter, map, not, option_map};
ghost use Rattle.bus_profile.specs.AllFaults.{told_faults};
ghost use Rattle.toml.specs.View.{table_view};
ghost use Rattle.rt1553_import.specs.Tree.{table_tree};
ghost use Rattle.rt1553_import.specs.Places.{entry_row, root_row, part_row, key_column, has_own_code, code_row, fault_place, placed_fault, hides, is_hidden, reported_faults};

use crate::alike::is_alike;
use crate::cells::cell_number;
use crate::column::TableColumn;
use crate::fault::{TableFault, TableFaultKind};
use crate::kind::RowKind;
use crate::sheet::{Sheet, TableRow};
use crate::tree::Entry;
use bus_profile::{Key, Part, ProfileFault, all_faults, parse_ranges};
use bus_word::has_bit;
use csv_rows::CellPlace;
use std::alloc::{AllocError, Global};
use toml::Table;

/// The column from which a key comes.
pub fn key_column(key: Key) -> TableColumn
    ensures { result ≡ key_column key }
{
    match key {
        Key::Rule | Key::Mode | Key::Direction => TableColumn::Kind,
        Key::Initial | Key::At | Key::Words => TableColumn::Initial,
        Key::To => TableColumn::To,
        Key::Subaddresses | Key::Subaddress => TableColumn::Subaddress,
        Key::Counts => TableColumn::Words,
        Key::Legal => TableColumn::Legal,
        Key::Codes => TableColumn::Code,
        _ => TableColumn::Value,
    }
}

impl TableFault {
    /// Whether a fault of the profile is not reported beside this one, of the table.
    fn hides(&self, fault: &TableFault) -> bool
        ensures { result ≡ hides self.now fault.now }
    {
        let hides_row = matches!(self.kind, TableFaultKind::Fields);
        match (self.kind, self.place, fault.place) {
            (TableFaultKind::NoColumn(_) | TableFaultKind::TwoColumns(_), _, _) => true,
            (_, Some(own), Some(other)) => {
                own.row == other.row && (hides_row || own.column == other.column)
            }
            _ => false,
        }
    }
}

/// Whether one of the faults of the table hides a fault of the profile.
fn is_hidden(own: &[TableFault], fault: &TableFault) -> bool
    ensures { result ≡ is_hidden own.now fault.now }
{
    own.iter().any(|one| one.hides(fault))
}

/// Adds the faults of the profile that none of the faults of the table hides.
fn push_apparent(
    faults: &mut Vec<TableFault>,
    own: &[TableFault],
    placed: &[TableFault],
) -> Result<(), AllocError>
    ensures { OnOk result (faults.new.items ≡ faults.old.items ++ filter (λ f. not (is_hidden own.now f)) placed.now) }
{
    for fault in placed {
        if !is_hidden(own, fault) {
            faults.push(*fault)?;
        }
    }
    Ok(())
}

impl Sheet {
    /// The row that became the entry of this number, from 1.
    fn entry_row(&self, entry: Entry, number: u16) -> Option<&TableRow>
        ensures { option_map (λ row. row.now) result ≡ entry_row self.now entry number }
    {
        let mut left = number.saturating_sub(1);
        for row in self.rows.as_slice() {
            if self.is_entry(entry, row) {
                if left == 0 {
                    return Some(row);
                }
                left -= 1;
            }
        }
        None
    }

    /// The row that has a key of the root.
    fn root_row(&self, key: Key) -> Option<&TableRow>
        ensures { option_map (λ row. row.now) result ≡ root_row self.now key }
    {
        match key {
            Key::Address => self.setting_row(RowKind::Address),
            Key::Broadcast => self.setting_row(RowKind::Broadcast),
            Key::Wraparound => self.setting_row(RowKind::Wraparound),
            Key::AcceptBusControl => self.setting_row(RowKind::AcceptBusControl),
            Key::Vector => self.setting_row(RowKind::Vector),
            Key::Bit => self.setting_row(RowKind::Bit),
            Key::Rule => self.entry_row(Entry::Rule, 257),
            Key::Mode => self.entry_row(Entry::Mode, 257),
            Key::Initial => self.entry_row(Entry::Initial, 257),
            _ => None,
        }
    }

    /// The row that became a part of the profile.
    fn part_row(&self, part: Part, key: Key) -> Option<&TableRow>
        ensures { option_map (λ row. row.now) result ≡ part_row self.now part key }
    {
        match part {
            Part::Root => self.root_row(key),
            Part::Rule(number) => self.entry_row(Entry::Rule, number),
            Part::Mode(number) => self.entry_row(Entry::Mode, number),
            Part::Initial(number) => self.entry_row(Entry::Initial, number),
        }
    }

    /// Whether a row of mode codes speaks of this own code.
    fn has_own_code(&self, row: &TableRow, code: u8) -> bool
        ensures { result ≡ has_own_code self.now code row.now }
    {
        let text = self.cell(row, TableColumn::Code);
        self.is_entry(Entry::Mode, row)
            && !is_alike(self.cell(row, TableColumn::To), "broadcast")
            && match cell_number(text.as_bytes()) {
                Some(number) => number == u32::from(code),
                None => code < 32 && has_bit(parse_ranges(text, 0, 31).unwrap_or(0), code),
            }
    }

    /// The row that says whether an own code is legal: the last that speaks of it.
    fn code_row(&self, code: u8) -> Option<&TableRow>
        ensures { option_map (λ row. row.now) result ≡ code_row self.now code }
    {
        self.rows
            .as_slice()
            .iter()
            .rev()
            .find(|row| self.has_own_code(row, code))
    }

    /// Where a fault of the profile stands; none where no row has it.
    fn fault_place(&self, fault: ProfileFault) -> Option<CellPlace>
        ensures { result ≡ fault_place self.now fault }
    {
        let (row, column) = match fault {
            ProfileFault::Missing(part, key)
            | ProfileFault::WrongKind(part, key)
            | ProfileFault::OutOfRange(part, key)
            | ProfileFault::BadRanges(part, key)
            | ProfileFault::TooMany(part, key) => (self.part_row(part, key), key_column(key)),
            ProfileFault::RequiredCode(code) => (self.code_row(code), TableColumn::Legal),
            _ => (None, TableColumn::Kind),
        };
        match row {
            Some(row) => Some(self.place(row, column)),
            None => None,
        }
    }

    /// A fault of the profile with its place.
    fn placed_fault(&self, fault: ProfileFault) -> TableFault
        ensures { result ≡ placed_fault self.now fault }
    {
        TableFault {
            place: self.fault_place(fault),
            kind: TableFaultKind::Profile(fault),
        }
    }

    /// The faults of the profile with their places.
    fn placed_faults(&self, alloc: Global, root: &Table) -> Result<Vec<TableFault>, AllocError>
        ensures { IfOk result (λ faults. faults.items ≡ map (placed_fault self.now) (told_faults (table_view root.now))) }
    {
        let faults = all_faults(alloc, root)?;
        let mut placed = Vec::new(alloc);
        for fault in faults.as_slice() {
            placed.push(self.placed_fault(*fault))?;
        }
        Ok(placed)
    }

    /// All faults that are reported of the table, whose tree this is: its own, and those of the profile that these do not hide.
    pub fn reported_faults(
        &self,
        alloc: Global,
        root: &Table,
    ) -> Result<Vec<TableFault>, AllocError>
        requires { table_view root.now ≡ table_tree self.now }
        ensures { IfOk result (λ faults. faults.items ≡ reported_faults self.now) }
    {
        let own = self.table_faults(alloc)?;
        let placed = self.placed_faults(alloc, root)?;
        let mut faults = Vec::new(alloc);
        faults.extend_from_slice(own.as_slice())?;
        push_apparent(&mut faults, own.as_slice(), placed.as_slice())?;
        Ok(faults)
    }
}
