//! Columns, which are answers of analyses, and the table that is made of them.
//!
//! [`Column`] is what a table takes, and [`FmeaTable`] what it is; both have copies of their own.
ghost use Rattle.std.specs.Prelude.{◌≡◌, IfOk};

use base_values::{Ending, Items, OutOfMemory, SetList};

/// What an analysis found for a top event: the sets that reach it, and how it ended.
#[derive(Drop)]
pub struct Column {
    pub sets: SetList,
    pub ending: Ending,
}

/// What a table says of a row and a column.
#[derive(Clone, Copy)]
pub enum TableEntry {
    Yes,
    No,
    Unknown,
}

/// Columns.
pub type ColumnList = Items<Column>;

/// How columns ended.
pub type EndingList = Items<Ending>;

/// The entries of a row, one for each column.
pub type EntryList = Items<TableEntry>;

/// The entries of rows.
pub type EntryRows = Items<EntryList>;

/// A table: its rows, the entries of each, and how its columns ended.
#[derive(Drop)]
pub struct FmeaTable {
    pub rows: SetList,
    pub entries: EntryRows,
    pub endings: EndingList,
}

impl Column {
    /// A copy of its own, which is the same column.
    pub fn copy(&self) -> Result<Column, OutOfMemory>
        ensures { IfOk result (λ made. made ≡ self.now) }
    {
        Ok(Column {
            sets: self.sets.copy()?,
            ending: self.ending,
        })
    }
}

impl FmeaTable {
    /// A copy of its own, which is the same table.
    pub fn copy(&self) -> Result<FmeaTable, OutOfMemory>
        ensures { IfOk result (λ made. made ≡ self.now) }
    {
        Ok(FmeaTable {
            rows: self.rows.copy()?,
            entries: self.entries.copy()?,
            endings: self.endings.copy()?,
        })
    }
}
