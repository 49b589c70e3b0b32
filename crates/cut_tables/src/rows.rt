//! The rows of a table, made by counting: the empty set, each fault, and each pair.
//!
//! The main function is [`rows_of`].
ghost use Rattle.std.specs.Prelude.{◌≡◌, ◌≤◌, ◌-◌, [], ◌∷◌, ◌++◌, map, IfOk, OnOk};
ghost use Rattle.std.specs.List.{range_with_len};
ghost use Rattle.cut_tables.specs.Tables.{rows_of as rows_within, pairs_after, pairs_from};

use base_values::{FaultSet, OutOfMemory, SetList};
use std::alloc::Global;

/// The sets of at most so many faults of as many as there are.
pub(crate) fn rows_of(alloc: Global, faults: u32, size: u32) -> Result<SetList, OutOfMemory>
    requires { size ≤ 2 }
    ensures { IfOk result (λ rows. rows ≡ rows_within size faults) }
{
    let mut rows = SetList::new(alloc);
    rows.push(FaultSet::new(alloc))?;
    if size == 0 {
        return Ok(rows);
    }
    append_singles(alloc, &mut rows, faults)?;
    if size == 1 {
        return Ok(rows);
    }
    append_pairs(alloc, &mut rows, faults)?;
    Ok(rows)
}

/// Appends the set of each fault alone.
fn append_singles(alloc: Global, rows: &mut SetList, faults: u32) -> Result<(), OutOfMemory>
    ensures { OnOk result (rows.new ≡ rows.old ++ map (λ i. i ∷ []) (range_with_len 1 faults)) }
{
    let mut left = faults;
    while left > 0 {
        left -= 1;
        let set = FaultSet::from_slice(alloc, &[faults - left])?;
        rows.push(set)?;
    }
    Ok(())
}

/// Appends each pair, by its first fault and then by its second.
fn append_pairs(alloc: Global, rows: &mut SetList, faults: u32) -> Result<(), OutOfMemory>
    ensures { OnOk result (rows.new ≡ rows.old ++ pairs_from 1 faults) }
{
    let mut left = faults;
    while left > 0 {
        left -= 1;
        append_pairs_after(alloc, rows, faults, left)?;
    }
    Ok(())
}

/// Appends the pairs of the fault that has so many after it with each of those.
fn append_pairs_after(
    alloc: Global,
    rows: &mut SetList,
    faults: u32,
    after: u32,
) -> Result<(), OutOfMemory>
    requires { after ≤ faults }
    ensures { OnOk result (rows.new ≡ rows.old ++ pairs_after (faults - after) after) }
{
    let first = faults - after;
    let mut left = after;
    while left > 0 {
        left -= 1;
        let set = FaultSet::from_slice(alloc, &[first, faults - left])?;
        rows.push(set)?;
    }
    Ok(())
}
