//! The text of a profile: settings and then entries in the order of their rows, with values as the table spells them and each row's name
//! before what it became.
use crate::cells::{cell_number, cell_truth};
use crate::column::TableColumn;
use crate::kind::RowKind;
use crate::sheet::{Sheet, TableRow};
use crate::tree::Entry;
use csv_rows::CellPlace;
use rt1553_files::escaped;
use std::alloc::{AllocError, Global};

/// Writes a number, a truth value or a text. TOML takes no zeros before decimal digits. A text that has to be escaped is written as it is:
/// the profile is then not read, and `import_table` gives another.
fn push_value(text: &mut String, value: &str) -> Result<(), AllocError> {
    if cell_number(value.as_bytes()).is_some() {
        return match value.trim_start_matches('0') {
            "" => text.push('0'),
            hex if hex.starts_with('x') => text.push_str(value),
            digits => text.push_str(digits),
        };
    }
    match cell_truth(value) {
        Some(true) => text.push_str("true"),
        Some(false) => text.push_str("false"),
        None => {
            text.push('"')?;
            text.push_str(value)?;
            text.push('"')
        }
    }
}

/// Writes a key with its value, if there is one.
fn push_key(text: &mut String, key: &str, value: &str) -> Result<(), AllocError> {
    if value.is_empty() {
        return Ok(());
    }
    text.push_str(key)?;
    text.push_str(" = ")?;
    push_value(text, value)?;
    text.push('\n')
}

/// Writes the words of an initial entry.
fn push_words(text: &mut String, words: &str) -> Result<(), AllocError> {
    text.push_str("words = [")?;
    let mut is_first = true;
    for word in words.split(' ') {
        if !word.is_empty() {
            text.push_str(if is_first { "0x" } else { ", 0x" })?;
            text.push_str(word)?;
            is_first = false;
        }
    }
    text.push_str("]\n")
}

impl Sheet {
    /// The place of the longest name.
    pub fn longest_name(&self) -> CellPlace {
        let mut most = 0;
        let mut place = self.place(&self.header, TableColumn::Name);
        for row in self.rows.as_slice() {
            let len = self.cell(row, TableColumn::Name).len();
            if len > most {
                most = len;
                place = self.place(row, TableColumn::Name);
            }
        }
        place
    }

    /// Writes the name of a row as a comment, if it has one.
    fn push_name(
        &self,
        alloc: Global,
        text: &mut String,
        row: &TableRow,
    ) -> Result<(), AllocError> {
        let name = self.cell(row, TableColumn::Name);
        if name.is_empty() {
            return Ok(());
        }
        text.push_str("# ")?;
        text.push_str(escaped(alloc, name.as_bytes())?.as_str())?;
        text.push('\n')
    }

    /// Writes to which address the commands of a row go, and whether they are legal.
    fn push_scope(
        &self,
        alloc: Global,
        text: &mut String,
        row: &TableRow,
    ) -> Result<(), AllocError> {
        let to = self.cell(row, TableColumn::To).to_ascii_lowercase(alloc)?;
        push_key(text, "to", to.as_str())?;
        push_key(text, "legal", self.cell(row, TableColumn::Legal))
    }

    /// Writes a message of data as a rule.
    fn push_rule(
        &self,
        alloc: Global,
        text: &mut String,
        row: &TableRow,
    ) -> Result<(), AllocError> {
        text.push_str("[[rule]]\n")?;
        let direction = self.cell(row, TableColumn::Kind).to_ascii_lowercase(alloc)?;
        push_key(text, "direction", direction.as_str())?;
        let subaddresses = self.cell(row, TableColumn::Subaddress);
        push_key(text, "subaddresses", subaddresses)?;
        push_key(text, "counts", self.cell(row, TableColumn::Words))?;
        self.push_scope(alloc, text, row)
    }

    /// Writes mode codes as a mode entry.
    fn push_mode(
        &self,
        alloc: Global,
        text: &mut String,
        row: &TableRow,
    ) -> Result<(), AllocError> {
        text.push_str("[[mode]]\n")?;
        push_key(text, "codes", self.cell(row, TableColumn::Code))?;
        self.push_scope(alloc, text, row)
    }

    /// Writes initial words as an initial entry.
    fn push_initial(&self, text: &mut String, row: &TableRow) -> Result<(), AllocError> {
        text.push_str("[[initial]]\n")?;
        let subaddress = self.cell(row, TableColumn::Subaddress);
        push_key(text, "subaddress", subaddress)?;
        push_words(text, self.cell(row, TableColumn::Initial))
    }

    /// Writes the settings.
    fn push_settings(&self, alloc: Global, text: &mut String) -> Result<(), AllocError> {
        for row in self.rows.as_slice() {
            if let Some(kind) = RowKind::of(self.cell(row, TableColumn::Kind)) {
                if kind.is_setting() {
                    self.push_name(alloc, text, row)?;
                    push_key(text, kind.name(), self.cell(row, TableColumn::Value))?;
                }
            }
        }
        Ok(())
    }

    /// Writes what a row became besides a setting: after a rule the words that its subaddress has at first.
    fn push_entries(
        &self,
        alloc: Global,
        text: &mut String,
        row: &TableRow,
    ) -> Result<(), AllocError> {
        let is_rule = self.is_entry(Entry::Rule, row);
        if !is_rule && !self.is_entry(Entry::Mode, row) {
            return Ok(());
        }
        text.push('\n')?;
        self.push_name(alloc, text, row)?;
        if !is_rule {
            return self.push_mode(alloc, text, row);
        }
        self.push_rule(alloc, text, row)?;
        if self.is_entry(Entry::Initial, row) {
            text.push('\n')?;
            self.push_initial(text, row)?;
        }
        Ok(())
    }

    /// The profile as a text.
    pub fn profile_text(&self, alloc: Global) -> Result<String, AllocError> {
        let mut text = String::new(alloc);
        self.push_settings(alloc, &mut text)?;
        for row in self.rows.as_slice() {
            self.push_entries(alloc, &mut text, row)?;
        }
        Ok(text)
    }
}
