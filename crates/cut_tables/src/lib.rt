//! Tables of failure modes and effects: which sets of faults suffice for which top events.
//!
//! [`table`] makes the rows (the sets of at most so many faults, smaller ones first, then by their numbers) and
//! asks each column, which is the answer of an analysis, what it says of each row: `yes` where a listed set lies
//! within the row, else `no` where the column is complete and `unknown` where it is bounded. [`print_table`] gives
//! the text. `specs/Tables.antt` has the definitions, and `specs/Columns.antt` says how columns and tables are seen
//! there. What an entry means of the traces of an extension stands above, in `cut_report_laws`: of columns that are
//! right for all traces, or for those of at most so many steps, each entry is right.
//!
//! ```text
//! // faults 1 and 2, size 2, the column lists the set of fault 1 and is complete:
//! // row : no / row 1 : yes / row 2 : no / row 1 2 : yes
//! ```
#![tactic(auto)]

ghost use Rattle.std.specs.Prelude.{◌≡◌, [], ◌∷◌};
ghost use Rattle.cut_tables.specs.Tables.{rows_of};

mod columns;
mod entries;
mod print;
mod rows;

pub use columns::{Column, ColumnList, EndingList, EntryList, EntryRows, FmeaTable, TableEntry};
pub use entries::table;
pub use print::print_table;

/// The rows of a table over two faults, as an example.
pub fn small_example()
    ensures rows { rows_of 2 2 ≡ [] ∷ (1 ∷ []) ∷ (2 ∷ []) ∷ (1 ∷ 2 ∷ []) ∷ [] }
{}
