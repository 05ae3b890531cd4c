//! The faults of a table itself, apart from the profile that it says.
ghost use Rattle.std.specs.Prelude.{◌≡◌, ◌<◌, ◌-◌, ◌^◌, ◌++◌, [], IfOk, OnOk, flat_map};
ghost use Rattle.rt1553_import.specs.Columns.{all_columns, row_place};
ghost use Rattle.rt1553_import.specs.TableFaults.{fault_where, fault_if_any, is_taken, is_needed, column_fault, header_faults, is_set_in, kind_fault, initial_fault, taken_fault, cell_fault, kind_faults, last_place, row_faults, rows_faults, table_faults};

use crate::cells::{cell_number, cell_words};
use crate::column::{TABLE_COLUMNS, TableColumn};
use crate::fault::{TableFault, TableFaultKind};
use crate::kind::RowKind;
use crate::sheet::{Sheet, TableRow, place_from};
use csv_rows::CellPlace;
use std::alloc::{AllocError, Global};

/// Adds a fault if there is one.
fn push_some(faults: &mut Vec<TableFault>, fault: Option<TableFault>) -> Result<(), AllocError>
    ensures { OnOk result (faults.new.items ≡ faults.old.items ++ fault_if_any fault) }
{
    if let Some(fault) = fault {
        faults.push(fault)?;
    }
    Ok(())
}

impl Sheet {
    /// A fault of this kind of a row in a column.
    fn fault_at(&self, row: &TableRow, column: TableColumn, kind: TableFaultKind) -> TableFault
        ensures { result ≡ fault_where (row_place self.now row.now column) kind }
    {
        TableFault {
            place: Some(self.place(row, column)),
            kind,
        }
    }

    /// Whether one of the rows may have text in the column.
    fn is_taken(&self, column: TableColumn) -> bool
        ensures { result ≡ is_taken self.now column }
    {
        self.rows.as_slice().iter().any(|row| {
            match RowKind::of(self.cell(row, TableColumn::Kind)) {
                Some(kind) => kind.takes(column),
                None => false,
            }
        })
    }

    /// Whether the header needs the column: `kind`, or one without which a setting, a message of data or mode codes say nothing.
    fn is_needed(&self, column: TableColumn) -> bool
        ensures { result ≡ is_needed self.now column }
    {
        match column {
            TableColumn::Kind => true,
            TableColumn::Value | TableColumn::Subaddress | TableColumn::Code => self.is_taken(
                column,
            ),
            _ => false,
        }
    }

    /// The fault of a column of the header: it is needed and not there, or there twice.
    fn column_fault(&self, column: TableColumn) -> Option<TableFault>
        ensures { result ≡ column_fault self.now column }
    {
        let Some(first) = self.place_of(column) else {
            if !self.is_needed(column) {
                return None;
            }
            let kind = TableFaultKind::NoColumn(column);
            return Some(self.fault_at(&self.header, column, kind));
        };
        match place_from(&self.header.fields, column.name(), first + 1) {
            Some(second) => Some(TableFault {
                place: Some(CellPlace {
                    row: self.header.line,
                    column: second as u64 + 1,
                }),
                kind: TableFaultKind::TwoColumns(column),
            }),
            None => None,
        }
    }

    /// The faults of the header.
    fn header_faults(&self, alloc: Global) -> Result<Vec<TableFault>, AllocError>
        ensures { IfOk result (λ faults. faults.items ≡ header_faults self.now) }
    {
        let mut faults = Vec::new(alloc);
        for column in TABLE_COLUMNS {
            push_some(&mut faults, self.column_fault(column))?;
        }
        Ok(faults)
    }

    /// Whether one of these rows is of this kind.
    fn is_set_in(&self, kind: RowKind, rows: &[TableRow]) -> bool
        ensures { result ≡ is_set_in self.now kind rows.now }
    {
        rows.iter().any(|row| self.is_kind(row, kind))
    }

    /// The fault of a setting that one of the rows before has.
    fn kind_fault(&self, before: &[TableRow], row: &TableRow, kind: RowKind) -> Option<TableFault>
        ensures { result ≡ kind_fault self.now before.now row.now kind }
    {
        if kind.is_setting() && self.is_set_in(kind, before) {
            return Some(self.fault_at(row, TableColumn::Kind, TableFaultKind::Twice));
        }
        None
    }

    /// The fault of initial words.
    fn initial_fault(&self, alloc: Global, row: &TableRow) -> Result<Option<TableFault>, AllocError>
        ensures { IfOk result (λ fault. fault ≡ initial_fault self.now row.now) }
    {
        let subaddress = self.cell(row, TableColumn::Subaddress);
        if cell_number(subaddress.as_bytes()).is_none() {
            let kind = TableFaultKind::OneSubaddress;
            return Ok(Some(self.fault_at(row, TableColumn::Subaddress, kind)));
        }
        match cell_words(alloc, self.cell(row, TableColumn::Initial))? {
            Some(_) => Ok(None),
            None => Ok(Some(self.fault_at(row, TableColumn::Initial, TableFaultKind::NotWords))),
        }
    }

    /// The fault of a text in a column that takes it.
    fn taken_fault(
        &self,
        alloc: Global,
        before: &[TableRow],
        row: &TableRow,
        kind: RowKind,
        column: TableColumn,
    ) -> Result<Option<TableFault>, AllocError>
        ensures { IfOk result (λ fault. fault ≡ taken_fault self.now before.now row.now kind column) }
    {
        match column {
            TableColumn::Kind => Ok(self.kind_fault(before, row, kind)),
            TableColumn::Initial => self.initial_fault(alloc, row),
            _ => Ok(None),
        }
    }

    /// The fault of a row in a column.
    fn cell_fault(
        &self,
        alloc: Global,
        before: &[TableRow],
        row: &TableRow,
        kind: RowKind,
        column: TableColumn,
    ) -> Result<Option<TableFault>, AllocError>
        ensures { IfOk result (λ fault. fault ≡ cell_fault self.now before.now row.now kind column) }
    {
        if self.cell(row, column).is_empty() {
            return Ok(None);
        }
        if kind.takes(column) {
            return self.taken_fault(alloc, before, row, kind, column);
        }
        Ok(Some(self.fault_at(row, column, TableFaultKind::NotTaken(column))))
    }

    /// Adds the faults of a row of this kind.
    fn push_kind_faults(
        &self,
        alloc: Global,
        faults: &mut Vec<TableFault>,
        before: &[TableRow],
        row: &TableRow,
        kind: RowKind,
    ) -> Result<(), AllocError>
        ensures { OnOk result (faults.new.items ≡ faults.old.items ++ flat_map (λ c. fault_if_any (cell_fault self.now before.now row.now kind c)) all_columns) }
    {
        for column in TABLE_COLUMNS {
            push_some(faults, self.cell_fault(alloc, before, row, kind, column)?)?;
        }
        Ok(())
    }

    /// The last field that the row and the header both have.
    fn last_place(&self, row: &TableRow) -> CellPlace
        ensures { result ≡ last_place self.now row.now }
    {
        CellPlace {
            row: row.line,
            column: row.fields.len().min(self.header.fields.len()) as u64,
        }
    }

    /// Adds the faults of a row.
    fn push_row_faults(
        &self,
        alloc: Global,
        faults: &mut Vec<TableFault>,
        before: &[TableRow],
        row: &TableRow,
    ) -> Result<(), AllocError>
        ensures { OnOk result (faults.new.items ≡ faults.old.items ++ row_faults self.now before.now row.now) }
    {
        if row.fields.len() != self.header.fields.len() {
            faults.push(TableFault {
                place: Some(self.last_place(row)),
                kind: TableFaultKind::Fields,
            })?;
            return Ok(());
        }
        match RowKind::of(self.cell(row, TableColumn::Kind)) {
            Some(kind) => self.push_kind_faults(alloc, faults, before, row, kind),
            None => {
                faults.push(self.fault_at(row, TableColumn::Kind, TableFaultKind::UnknownKind))?;
                Ok(())
            }
        }
    }

    /// The faults of the rows.
    fn rows_faults(&self, alloc: Global) -> Result<Vec<TableFault>, AllocError>
        ensures { IfOk result (λ faults. faults.items ≡ rows_faults self.now [] self.now.rows.items) }
    {
        let mut faults = Vec::new(alloc);
        let rows = self.rows.as_slice();
        for at in 0..rows.len() {
            self.push_row_faults(alloc, &mut faults, &rows[..at], &rows[at])?;
        }
        Ok(faults)
    }

    /// The faults of the table itself: those of the header, or if it has none those of the rows.
    #[tactic(auto, unfolding(crate::specs::TableFaults::table_faults))]
    pub fn table_faults(&self, alloc: Global) -> Result<Vec<TableFault>, AllocError>
        ensures { IfOk result (λ faults. faults.items ≡ table_faults self.now) }
    {
        let faults = self.header_faults(alloc)?;
        if !faults.as_slice().is_empty() {
            return Ok(faults);
        }
        self.rows_faults(alloc)
    }
}
