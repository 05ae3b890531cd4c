//! The tree of a table: the profile that it says, as a TOML table.
ghost use Rattle.std.specs.Prelude.{◌≡◌, IfOk, OnOk, map, string_bytes, option_map};
ghost use Rattle.toml.specs.View.{table_view, view};
ghost use Rattle.rt1553_import.specs.Tree.{words_data, is_kind, is_entry, member_put, with_text, with_small_text, with_entries, with_scope, rule_entry_data, mode_entry_data, initial_entry_data, entry_data, entries_of, setting_row, setting_text, with_setting, with_settings, with_arrays, table_tree};

use crate::alike::is_alike;
use crate::cells::{cell_value, cell_words};
use crate::column::TableColumn;
use crate::kind::RowKind;
use crate::sheet::{Sheet, TableRow};
use std::alloc::{AllocError, Global};
use toml::{Table, Value};

/// What a row becomes an entry of.
#[derive(Clone, Copy, PartialEq, Eq)]
pub enum Entry {
    Rule,
    Mode,
    Initial,
}

/// Puts a value at a key of a table.
fn put(alloc: Global, members: &mut Table, key: &str, value: Value) -> Result<(), AllocError>
    ensures { OnOk result (table_view members.new ≡ member_put key.now (view value) (table_view members.old)) }
{
    match members.insert(String::from_str(alloc, key)?, value) {
        Ok(_) => Ok(()),
        Err(_) => Err(AllocError),
    }
}

/// Puts the value of a text at a key of a table, if there is a text.
fn put_text(alloc: Global, members: &mut Table, key: &str, text: &str) -> Result<(), AllocError>
    ensures { OnOk result (table_view members.new ≡ with_text key.now text.now (table_view members.old)) }
{
    if text.is_empty() {
        return Ok(());
    }
    put(alloc, members, key, cell_value(alloc, text)?)
}

/// Puts the value of a text, with small letters in place of capitals, at a key of a table, if there is a text.
fn put_small_text(
    alloc: Global,
    members: &mut Table,
    key: &str,
    text: &str,
) -> Result<(), AllocError>
    ensures { OnOk result (table_view members.new ≡ with_small_text key.now text.now (table_view members.old)) }
{
    let small = text.to_ascii_lowercase(alloc)?;
    put_text(alloc, members, key, small.as_str())
}

/// Puts an array of entries at a key of a table, if there are any.
fn put_entries(
    alloc: Global,
    members: &mut Table,
    key: &str,
    entries: Vec<Value>,
) -> Result<(), AllocError>
    ensures { OnOk result (table_view members.new ≡ with_entries key.now (map view entries.items) (table_view members.old)) }
{
    if entries.is_empty() {
        return Ok(());
    }
    put(alloc, members, key, Value::from(entries))
}

/// The words of a text, as values; none where it is no list of words.
fn word_values(alloc: Global, text: &str) -> Result<Vec<Value>, AllocError>
    ensures { IfOk result (λ values. map view values.items ≡ words_data text.now) }
{
    let mut values = Vec::new(alloc);
    if let Some(words) = cell_words(alloc, text)? {
        for word in words.as_slice() {
            values.push(Value::from(*word))?;
        }
    }
    Ok(values)
}

impl Sheet {
    /// Whether a row is of this kind, in any capitals.
    pub fn is_kind(&self, row: &TableRow, kind: RowKind) -> bool
        ensures { result ≡ is_kind self.now kind row.now }
    {
        is_alike(self.cell(row, TableColumn::Kind), kind.name())
    }

    /// Whether a row becomes such an entry.
    pub fn is_entry(&self, entry: Entry, row: &TableRow) -> bool
        ensures { result ≡ is_entry self.now entry row.now }
    {
        match entry {
            Entry::Rule => {
                self.is_kind(row, RowKind::Receive)
                    || self.is_kind(row, RowKind::Transmit)
                    || self.is_kind(row, RowKind::Both)
            }
            Entry::Mode => self.is_kind(row, RowKind::Mode),
            Entry::Initial => {
                self.is_kind(row, RowKind::Transmit)
                    && !self.cell(row, TableColumn::Initial).is_empty()
            }
        }
    }

    /// Puts to which address the commands of a row go, and whether they are legal.
    fn put_scope(
        &self,
        alloc: Global,
        members: &mut Table,
        row: &TableRow,
    ) -> Result<(), AllocError>
        ensures { OnOk result (table_view members.new ≡ with_scope self.now row.now (table_view members.old)) }
    {
        put_small_text(alloc, members, "to", self.cell(row, TableColumn::To))?;
        put_text(alloc, members, "legal", self.cell(row, TableColumn::Legal))
    }

    /// A message of data as a rule.
    fn rule_value(&self, alloc: Global, row: &TableRow) -> Result<Value, AllocError>
        ensures { IfOk result (λ value. view value ≡ rule_entry_data self.now row.now) }
    {
        let mut members = Table::new(alloc);
        let kind = self.cell(row, TableColumn::Kind);
        put_small_text(alloc, &mut members, "direction", kind)?;
        let subaddresses = self.cell(row, TableColumn::Subaddress);
        put_text(alloc, &mut members, "subaddresses", subaddresses)?;
        let counts = self.cell(row, TableColumn::Words);
        put_text(alloc, &mut members, "counts", counts)?;
        self.put_scope(alloc, &mut members, row)?;
        Ok(Value::from(members))
    }

    /// Mode codes as a mode entry.
    fn mode_value(&self, alloc: Global, row: &TableRow) -> Result<Value, AllocError>
        ensures { IfOk result (λ value. view value ≡ mode_entry_data self.now row.now) }
    {
        let mut members = Table::new(alloc);
        put_text(
            alloc,
            &mut members,
            "codes",
            self.cell(row, TableColumn::Code),
        )?;
        self.put_scope(alloc, &mut members, row)?;
        Ok(Value::from(members))
    }

    /// Initial words as an initial entry.
    fn initial_value(&self, alloc: Global, row: &TableRow) -> Result<Value, AllocError>
        ensures { IfOk result (λ value. view value ≡ initial_entry_data self.now row.now) }
    {
        let words = word_values(alloc, self.cell(row, TableColumn::Initial))?;
        let mut members = Table::new(alloc);
        let subaddress = self.cell(row, TableColumn::Subaddress);
        put_text(alloc, &mut members, "subaddress", subaddress)?;
        put(alloc, &mut members, "words", Value::from(words))?;
        Ok(Value::from(members))
    }

    /// A row as such an entry.
    fn entry_value(&self, alloc: Global, entry: Entry, row: &TableRow) -> Result<Value, AllocError>
        ensures { IfOk result (λ value. view value ≡ entry_data self.now entry row.now) }
    {
        match entry {
            Entry::Rule => self.rule_value(alloc, row),
            Entry::Mode => self.mode_value(alloc, row),
            Entry::Initial => self.initial_value(alloc, row),
        }
    }

    /// The entries that the rows become.
    fn entries_of(&self, alloc: Global, entry: Entry) -> Result<Vec<Value>, AllocError>
        ensures { IfOk result (λ values. map view values.items ≡ entries_of self.now entry) }
    {
        let mut values = Vec::new(alloc);
        for row in self.rows.as_slice() {
            if self.is_entry(entry, row) {
                values.push(self.entry_value(alloc, entry, row)?)?;
            }
        }
        Ok(values)
    }

    /// The first row of this kind.
    pub fn setting_row(&self, kind: RowKind) -> Option<&TableRow>
        ensures { option_map (λ row. row.now) result ≡ setting_row self.now kind }
    {
        self.rows
            .as_slice()
            .iter()
            .find(|row| self.is_kind(row, kind))
    }

    /// The text of the value of a setting: none where no row has it.
    fn setting_text(&self, kind: RowKind) -> &str
        ensures { result.now ≡ setting_text self.now kind }
    {
        match self.setting_row(kind) {
            Some(row) => self.cell(row, TableColumn::Value),
            None => "",
        }
    }

    /// Puts the value of a setting at its key, if a row has it.
    fn put_setting(&self, alloc: Global, root: &mut Table, kind: RowKind) -> Result<(), AllocError>
        ensures { OnOk result (table_view root.new ≡ with_setting self.now kind (table_view root.old)) }
    {
        put_text(alloc, root, kind.name(), self.setting_text(kind))
    }

    /// Puts the values of all settings at their keys.
    fn put_settings(&self, alloc: Global, root: &mut Table) -> Result<(), AllocError>
        ensures { OnOk result (table_view root.new ≡ with_settings self.now (table_view root.old)) }
    {
        self.put_setting(alloc, root, RowKind::Address)?;
        self.put_setting(alloc, root, RowKind::Broadcast)?;
        self.put_setting(alloc, root, RowKind::Wraparound)?;
        self.put_setting(alloc, root, RowKind::AcceptBusControl)?;
        self.put_setting(alloc, root, RowKind::Vector)?;
        self.put_setting(alloc, root, RowKind::Bit)
    }

    /// Puts the arrays of entries at their keys.
    fn put_arrays(&self, alloc: Global, root: &mut Table) -> Result<(), AllocError>
        ensures { OnOk result (table_view root.new ≡ with_arrays self.now (table_view root.old)) }
    {
        let rules = self.entries_of(alloc, Entry::Rule)?;
        let modes = self.entries_of(alloc, Entry::Mode)?;
        let initials = self.entries_of(alloc, Entry::Initial)?;
        put_entries(alloc, root, "rule", rules)?;
        put_entries(alloc, root, "mode", modes)?;
        put_entries(alloc, root, "initial", initials)
    }

    /// The tree of the table.
    #[tactic(auto, unfolding(crate::specs::Tree::table_tree))]
    pub fn table_of(&self, alloc: Global) -> Result<Table, AllocError>
        ensures { IfOk result (λ root. table_view root ≡ table_tree self.now) }
    {
        let mut root = Table::new(alloc);
        self.put_settings(alloc, &mut root)?;
        self.put_arrays(alloc, &mut root)?;
        Ok(root)
    }
}
