//! The table of columns: an entry for each row and column.
//!
//! The main function is [`table`]. An entry is `yes` where a listed set lies within its row; else the ending of the column decides.
ghost use Rattle.std.specs.Prelude.{◌≡◌, ◌≤◌, List, All, map, IfOk};
ghost use Rattle.std.specs.List.{list_any};
ghost use Rattle.cut_right_laws.specs.Sets.{has_number, is_contained as contained};
ghost use Rattle.cut_text_laws.specs.Analysis.{Analysis};
ghost use Rattle.cut_tables.specs.Tables.{entry_of, absent_entry};
ghost use Rattle.cut_tables.specs.Columns.{told_entry, told_column, AreTold, NamesFaults, IsTableOf};
ghost use Rattle.cut_text_laws.specs.Analysis.{told_ending};

use crate::columns::{Column, ColumnList, EndingList, EntryList, EntryRows, FmeaTable, TableEntry};
use crate::rows::rows_of;
use base_values::{Ending, FaultSet, OutOfMemory, SetList};
use std::alloc::Global;

/// The table of rows of at most so many faults: what each column says of each.
pub fn table(
    alloc: Global,
    faults: u32,
    size: u32,
    columns: &ColumnList,
) -> Result<FmeaTable, OutOfMemory>
    requires small { size ≤ 2 }
    requires named { All (NamesFaults faults) columns.now }
    ensures table { IfOk result (λ t. IsTableOf faults size (map told_column columns.now) t) }
    // So it is the table of any analyses with these sets and endings.
    ensures told { IfOk result (λ t. (found : List Analysis) → AreTold found columns.now → IsTableOf faults size found t) }
{
    let rows = rows_of(alloc, faults, size)?;
    let entries = entries_of_rows(alloc, &rows, columns)?;
    let endings = endings_of(alloc, columns)?;
    Ok(FmeaTable {
        rows,
        entries,
        endings,
    })
}

/// How the columns ended.
#[tactic(auto, using(crate::proofs::TableLemmas::entry_rules))]
fn endings_of(alloc: Global, columns: &ColumnList) -> Result<EndingList, OutOfMemory>
    ensures { IfOk result (λ endings. endings ≡ map (λ c. c.ending) columns.now) }
{
    let mut endings = EndingList::new(alloc);
    for column in columns.as_slice() {
        endings.push(column.ending)?;
    }
    Ok(endings)
}

/// The entries of each row.
#[tactic(auto, using(crate::proofs::TableLemmas::entry_rules))]
fn entries_of_rows(
    alloc: Global,
    rows: &SetList,
    columns: &ColumnList,
) -> Result<EntryRows, OutOfMemory>
    ensures { IfOk result (λ entries. map (map told_entry) entries
        ≡ map (λ row. map (entry_of row) (map told_column columns.now)) rows.now) }
{
    let mut entries = EntryRows::new(alloc);
    for row in rows.as_slice() {
        let list = entries_of(alloc, row.as_slice(), columns.as_slice())?;
        entries.push(list)?;
    }
    Ok(entries)
}

/// The entries of a row.
#[tactic(auto, using(crate::proofs::TableLemmas::entry_rules))]
fn entries_of(alloc: Global, row: &[u32], columns: &[Column]) -> Result<EntryList, OutOfMemory>
    ensures { IfOk result (λ entries. map told_entry entries ≡ map (entry_of row.now) (map told_column columns.now)) }
{
    let mut entries = EntryList::new(alloc);
    for column in columns {
        entries.push(entry_at(row, column))?;
    }
    Ok(entries)
}

/// What a column says of a row.
fn entry_at(row: &[u32], column: &Column) -> TableEntry
    ensures { told_entry result ≡ entry_of row.now (told_column column.now) }
{
    if some_lies_within(column.sets.as_slice(), row) {
        TableEntry::Yes
    } else {
        absent(column.ending)
    }
}

/// Whether some set lies within the row.
fn some_lies_within(sets: &[FaultSet], row: &[u32]) -> bool
    ensures { result ≡ list_any (λ set. contained set row.now) sets.now }
{
    sets.iter().any(|set| is_contained(set.as_slice(), row))
}

/// What a column says of a row within which no listed set lies.
fn absent(ending: Ending) -> TableEntry
    ensures { told_entry result ≡ absent_entry (told_ending ending) }
{
    match ending {
        Ending::Complete => TableEntry::No,
        Ending::Bounded(_) => TableEntry::Unknown,
    }
}

/// Whether the number is one of the set's.
fn has(set: &[u32], number: u32) -> bool
    ensures { result ≡ has_number set.now number }
{
    set.iter().any(|i| *i == number)
}

/// Whether each number of the one set is one of the other's.
fn is_contained(set: &[u32], other: &[u32]) -> bool
    ensures { result ≡ contained set.now other.now }
{
    set.iter().all(|i| has(other, *i))
}
