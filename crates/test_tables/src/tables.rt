//! The table of two columns over two faults.
ghost use Rattle.std.specs.Prelude.{◌≡◌, [], ◌∷◌, IfOk};

use base_values::{Ending, FaultSet, OutOfMemory, SetList};
use cut_tables::{Column, ColumnList, print_table, table};
use std::alloc::Global;
use std::test::Fail;

const PRINTED: &[u8] =
    b"faults 2\ntops 2\ntop 1 complete\ntop 2 bounded 7 bits 11\nrow : no unknown\nrow 1 : no yes\nrow 2 : no unknown\nrow 1 2 : yes yes\n";

fn column(alloc: Global, set: &[u32], ending: Ending) -> Result<Column, OutOfMemory>
    ensures { IfOk result (λ column. column.sets ≡ set.now ∷ []) }
{
    let mut sets = SetList::new(alloc);
    sets.push(FaultSet::from_slice(alloc, set)?)?;
    Ok(Column { sets, ending })
}

#[test]
fn a_table_of_two_columns_is_printed(rt: HostRuntime) -> Result<(), Fail> {
    let both = column(rt.alloc(), &[1, 2], Ending::Complete)?;
    let first = column(rt.alloc(), &[1], Ending::Bounded(7))?;
    let mut columns = ColumnList::new(rt.alloc());
    columns.push(both)?;
    columns.push(first)?;
    let made = table(rt.alloc(), 2, 2, &columns)?.copy()?;
    let text = print_table(rt.alloc(), b"faults 2\n", 11, &made)?;
    assert_eq!(rt; text.as_slice(), PRINTED);
    Ok(())
}
