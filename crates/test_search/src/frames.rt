//! Small systems by tables of their steps, and rings, each with what its frames end in.
use crate::clauses::{add, list_of, literal};
use base_values::OutOfMemory;
use cut_frames::{Advanced, Cleared, Frames, StepList, can_frame};
use sat_adviser::Panel;
use sat_clauses::System;
use sat_clauses::assign::Assign;
use sat_clauses::clause::ClauseList;
use sat_clauses::lit::Lit;
use std::alloc::Global;
use std::test::Fail;

// How a search through frames ends.
#[derive(Drop)]
enum FramesEnding {
    Reached(StepList),
    // Two frames are equal, at a frontier of this number.
    Never(usize),
    // Neither by the given depth, or it could not be begun.
    Open,
}

// How it must end: with a path of these numbers, or where there are none with two equal frames, at a
// frontier of at most this number.
#[derive(Clone, Copy)]
struct Wanted<'a> {
    path: &'a [u64],
    most: usize,
}

// The literal that says of bit i of the variables from one on that it is as in the number.
fn bit(from: u32, i: u32, number: u64) -> Lit {
    let variable = i64::from(from).wrapping_add(i64::from(i));
    let is_true = number.wrapping_shr(i) & 1 == 1;
    literal(if is_true {
        variable
    } else {
        variable.wrapping_neg()
    })
}

// A list that says that the state now is that of a number.
fn state_is(alloc: Global, bits: u32, number: u64) -> Result<ClauseList, OutOfMemory> {
    let mut list = ClauseList::new(alloc);
    for i in 0..bits {
        list.push_lits(&[bit(2, i, number)])?;
    }
    Ok(list)
}

// The clause that says that bit i after the state of a number is that of the next number.
fn leads(alloc: Global, bits: u32, i: u32, now: u64, next: u64) -> Result<Vec<Lit>, OutOfMemory> {
    let mut lits = Vec::new(alloc);
    for j in 0..bits {
        lits.push(bit(2, j, now).neg())?;
    }
    lits.push(bit(bits.wrapping_add(2), i, next))?;
    Ok(lits)
}

// The clauses that say so of each bit and each number of the table.
fn steps(alloc: Global, bits: u32, table: &[u64]) -> Result<ClauseList, OutOfMemory> {
    let mut step = ClauseList::new(alloc);
    let mut now: u64 = 0;
    for next in table {
        for i in 0..bits {
            step.push_lits(&leads(alloc, bits, i, now, *next)?)?;
        }
        now = now.wrapping_add(1);
    }
    Ok(step)
}

// A system that starts in the state of a number and goes from each state to the one of the table.
fn by_table(alloc: Global, bits: u32, first: u64, table: &[u64]) -> Result<System, OutOfMemory> {
    Ok(System {
        state_bits: bits,
        input_bits: 0,
        first: state_is(alloc, bits, first)?,
        step: steps(alloc, bits, table)?,
    })
}

// A cell is true next where it is true and the one before it.
fn cell(
    alloc: Global,
    list: &mut ClauseList,
    next: i64,
    now: i64,
    before: i64,
) -> Result<(), OutOfMemory> {
    let not_next = next.wrapping_neg();
    let (not_now, not_before) = (now.wrapping_neg(), before.wrapping_neg());
    let numbers = [
        not_next, now, 0, not_next, before, 0, next, not_now, not_before, 0,
    ];
    add(alloc, list, &numbers)
}

// The steps of a ring of cells, each of which stays true while the one before it is.
fn turns(alloc: Global, cells: u32) -> Result<ClauseList, OutOfMemory> {
    let count = i64::from(cells);
    let mut step = ClauseList::new(alloc);
    let mut before = count.wrapping_add(1);
    for now in 2..count.wrapping_add(2) {
        cell(alloc, &mut step, count.wrapping_add(now), now, before)?;
        before = now;
    }
    Ok(step)
}

// A ring of cells, all false first.
fn ring(alloc: Global, cells: u32) -> Result<System, OutOfMemory> {
    Ok(System {
        state_bits: cells,
        input_bits: 0,
        first: state_is(alloc, cells, 0)?,
        step: turns(alloc, cells)?,
    })
}

// Whether a variable is true at a moment, and not where no value is given.
fn is_true(moment: &Assign, lit: Lit) -> bool {
    lit.var() <= moment.vars() && moment.value(lit) == Some(true)
}

// The number that the bits of a state and of inputs spell.
fn number_at(moment: &Assign, bits: u32, inputs: u32) -> u64 {
    let mut number: u64 = 0;
    for i in 0..bits {
        number |= u64::from(is_true(moment, bit(2, i, u64::MAX))).wrapping_shl(i);
    }
    let from = bits.wrapping_mul(2).wrapping_add(2);
    for i in 0..inputs {
        let value = u64::from(is_true(moment, bit(from, i, u64::MAX)));
        number |= value.wrapping_shl(bits.wrapping_add(i));
    }
    number
}

// Whether the moments of a path have these numbers: the state's bits, then the inputs'.
fn has_numbers(path: &StepList, bits: u32, inputs: u32, numbers: &[u64]) -> bool {
    if path.len() != numbers.len() {
        return false;
    }
    for (moment, number) in path.as_slice().iter().zip(numbers) {
        if number_at(moment, bits, inputs) != *number {
            return false;
        }
    }
    true
}

// A path, where the frontier's frame has a bad state, or nothing more.
fn clear(frames: &mut Frames, panel: &mut Panel) -> Result<Option<FramesEnding>, OutOfMemory> {
    match frames.clear(&[], 0, panel)? {
        Cleared::Path(path) => Ok(Some(FramesEnding::Reached(path))),
        Cleared::Clear => Ok(None),
    }
}

// Whether two frames are equal.
fn advance(frames: &mut Frames, panel: &mut Panel) -> Result<Option<FramesEnding>, OutOfMemory> {
    match frames.advance(panel)? {
        Advanced::Fixed(_) => Ok(Some(FramesEnding::Never(frames.frontier()))),
        Advanced::Further => Ok(None),
    }
}

// Clears and advances up to a depth.
fn explore(
    alloc: Global,
    frames: &mut Frames,
    bad: ClauseList,
) -> Result<FramesEnding, OutOfMemory> {
    let mut panel = Panel::new(Vec::new(alloc));
    if !frames.can_clear(&bad) {
        return Ok(FramesEnding::Open);
    }
    frames.ask_about(bad, &mut panel)?;
    for _ in 0..10 {
        if let Some(ending) = clear(frames, &mut panel)? {
            return Ok(ending);
        }
        if let Some(ending) = advance(frames, &mut panel)? {
            return Ok(ending);
        }
    }
    Ok(FramesEnding::Open)
}

// How the search through the frames of a system ends.
fn explored(alloc: Global, system: System, bad: ClauseList) -> Result<FramesEnding, OutOfMemory> {
    if !can_frame(&system) {
        return Ok(FramesEnding::Open);
    }
    let mut frames = Frames::new(alloc, system)?;
    explore(alloc, &mut frames, bad)
}

// Whether it ends as is wanted, and a path and its copy with the same numbers.
fn ends(
    alloc: Global,
    system: System,
    bad: ClauseList,
    wanted: Wanted<'_>,
) -> Result<bool, OutOfMemory> {
    let (bits, inputs) = (system.state_bits, system.input_bits);
    match explored(alloc, system, bad)? {
        FramesEnding::Reached(path) => {
            let copy = path.copy()?;
            Ok(copy.len() == path.len() && has_numbers(&path, bits, inputs, wanted.path))
        }
        FramesEnding::Never(frontier) => Ok(wanted.path.is_empty() && frontier <= wanted.most),
        FramesEnding::Open => Ok(false),
    }
}

// A system by its table, its first state, a state that is bad, and how the search ends.
#[derive(Clone, Copy)]
struct Row<'a> {
    bits: u32,
    first: u64,
    table: &'a [u64],
    bad: u64,
    wanted: Wanted<'a>,
}

// The first row whose search ends otherwise.
fn first_wrong(alloc: Global, rows: &[Row<'_>]) -> Result<Option<usize>, OutOfMemory> {
    for (i, row) in rows.iter().enumerate() {
        let system = by_table(alloc, row.bits, row.first, row.table)?;
        let bad = state_is(alloc, row.bits, row.bad)?;
        if !ends(alloc, system, bad, row.wanted)? {
            return Ok(Some(i));
        }
    }
    Ok(None)
}

// A counter that wraps at 5 of 8, and two bits that change places: a chain over b bits has at most
// 2^b + 1 frames.
#[test]
fn systems_by_table_end(rt: HostRuntime) -> Result<(), Fail> {
    let counter = [1, 2, 3, 4, 0, 6, 7, 0];
    let places = [0, 2, 1, 3];
    let rows = [
        Row {
            bits: 3,
            first: 0,
            table: &counter,
            bad: 4,
            wanted: Wanted {
                path: &[0, 1, 2, 3, 4],
                most: 0,
            },
        },
        Row {
            bits: 3,
            first: 0,
            table: &counter,
            bad: 6,
            wanted: Wanted { path: &[], most: 9 },
        },
        Row {
            bits: 2,
            first: 1,
            table: &places,
            bad: 2,
            wanted: Wanted {
                path: &[1, 2],
                most: 0,
            },
        },
        Row {
            bits: 2,
            first: 1,
            table: &places,
            bad: 3,
            wanted: Wanted { path: &[], most: 5 },
        },
    ];
    assert_eq!(rt; first_wrong(rt.alloc(), &rows)?, None);
    Ok(())
}

// One bit that is false first and keeps its value, with a gate for each comparison.
fn kept_bit(alloc: Global) -> Result<System, OutOfMemory> {
    let first = [
        1, 0, -4, 2, -1, 0, -4, -2, 1, 0, 4, -2, -1, 0, 4, 2, 1, 0, -4, 0,
    ];
    let step = [
        1, 0, -4, 3, 2, 0, -4, -3, -2, 0, 4, -3, 2, 0, 4, 3, -2, 0, -4, 0,
    ];
    Ok(System {
        state_bits: 1,
        input_bits: 0,
        first: list_of(alloc, &first)?,
        step: list_of(alloc, &step)?,
    })
}

// One that an input may make true.
fn moved_bit(alloc: Global) -> Result<System, OutOfMemory> {
    Ok(System {
        state_bits: 1,
        input_bits: 1,
        first: list_of(alloc, &[-2, 0])?,
        step: list_of(alloc, &[-3, 2, 4, 0, 3, -2, 0, 3, -4, 0])?,
    })
}

fn keeps(alloc: Global) -> Result<bool, OutOfMemory> {
    let bad = list_of(alloc, &[1, 0, 2, 0])?;
    let wanted = Wanted { path: &[], most: 3 };
    ends(alloc, kept_bit(alloc)?, bad, wanted)
}

fn moves(alloc: Global) -> Result<bool, OutOfMemory> {
    let bad = list_of(alloc, &[1, 0, 2, 0])?;
    let wanted = Wanted {
        path: &[2, 1],
        most: 0,
    };
    ends(alloc, moved_bit(alloc)?, bad, wanted)
}

// Whether no cell of a ring of so many comes to be true.
fn stays(alloc: Global, cells: u32) -> Result<bool, OutOfMemory> {
    let bad = list_of(alloc, &[8, 0])?;
    let wanted = Wanted { path: &[], most: 9 };
    ends(alloc, ring(alloc, cells)?, bad, wanted)
}

#[test]
fn bits_and_rings_end(rt: HostRuntime) -> Result<(), Fail> {
    let alloc = rt.alloc();
    assert!(rt; keeps(alloc)?);
    assert!(rt; moves(alloc)?);
    assert!(rt; stays(alloc, 8)?);
    assert!(rt; stays(alloc, 20)?);
    assert!(rt; stays(alloc, 40)?);
    Ok(())
}
