//! The order of a woven program's faults with the variables and symbols of their modes, and how guards are judged.
use crate::texts::{instructions_of, joined, model_of, program_of};
use fault_extend::{WeaveCause, WeaveFault, Woven, weave};
use fault_instructions::Instructions;
use smv_flat::FlatFault;
use smv_language::model::FlatModel;
use smv_types::TypeFault;
use std::alloc::Global;

static LEFT_AND_RIGHT: &[u8] =
    b"MODULE Left VAR out : boolean; ASSIGN out := TRUE; MODULE Right VAR out : boolean; ASSIGN out := TRUE; MODULE main VAR a : Left; \
        VAR b : Right;";

/// The slices SB on `out` of Right, with a guard where there is one, and SA on `out` of Left.
fn both_off(alloc: Global, guard: &[u8]) -> Option<Instructions> {
    let text = joined(
        alloc,
        &[
            b"EXTENSION OF MODULE Right SLICE SB AFFECTS out WITH MODE off : Permanent StuckAt(FALSE) ",
            guard,
            b"; EXTENSION OF MODULE Left SLICE SA AFFECTS out WITH MODE off : Permanent StuckAt(FALSE);",
        ],
    )
    .ok()?;
    instructions_of(alloc, &text)
}

/// A fault's slice, and the variable of its states and the symbol of its mode, by number.
struct FaultRow {
    slice: &'static [u8],
    variable: usize,
    state: &'static [u8],
    symbol: usize,
    mode: &'static [u8],
}

static FAULTS: [FaultRow; 2] = [
    FaultRow {
        slice: b"SA",
        variable: 2,
        state: b"SA#mode",
        symbol: 1,
        mode: b"SA#off",
    },
    FaultRow {
        slice: b"SB",
        variable: 5,
        state: b"SB#mode",
        symbol: 3,
        mode: b"SB#off",
    },
];

fn has_slice(w: &Woven, place: usize, row: &FaultRow) -> bool {
    match w.faults.as_slice().get(place) {
        Some(fault) => fault.slice.text() == row.slice,
        None => false,
    }
}

fn has_state(m: &FlatModel, row: &FaultRow) -> bool {
    match m.variables.as_slice().get(row.variable) {
        Some(variable) => match variable.path.parts() {
            [_, name] => name.text() == row.state,
            _ => false,
        },
        None => false,
    }
}

fn has_mode(m: &FlatModel, row: &FaultRow) -> bool {
    match m.symbols.as_slice().get(row.symbol) {
        Some(symbol) => symbol.text() == row.mode,
        None => false,
    }
}

/// The place of the first row whose fault is not there, of another slice or under other names in the model; the
/// number of the rows where each is.
fn first_wrong(w: &Woven, m: &FlatModel, rows: &[FaultRow]) -> usize {
    for (place, row) in rows.iter().enumerate() {
        if !has_slice(w, place, row) || !has_state(m, row) || !has_mode(m, row) {
            return place;
        }
    }
    rows.len()
}

/// How many faults are woven, and how many of them stand as the rows say.
fn woven_faults(alloc: Global) -> Option<(usize, usize)> {
    let p = program_of(alloc, LEFT_AND_RIGHT)?;
    let off = both_off(alloc, b"")?;
    let w = weave(alloc, &p, &off).ok()?;
    let model = model_of(alloc, &w.program)?;
    Some((w.faults.len(), first_wrong(&w, &model, &FAULTS)))
}

#[test]
fn faults_stand_by_instances(rt: HostRuntime) {
    assert_eq!(rt; woven_faults(rt.alloc()), Some((2, 2)));
}

static GUARDS: [(&[u8], WeaveCause); 2] = [
    (
        b"WHEN z",
        WeaveCause::Flat(FlatFault {
            rule: smv_flat::FlatRule::NoSuchName,
            item: 0,
        }),
    ),
    (
        b"WHEN 3",
        WeaveCause::Kinds(TypeFault {
            rule: smv_types::TypeRule::NotBoolean,
            item: 0,
        }),
    ),
];

/// The refusal of the slices with this guard.
fn refusal(alloc: Global, guard: &[u8]) -> Option<WeaveFault> {
    let p = program_of(alloc, LEFT_AND_RIGHT)?;
    let off = both_off(alloc, guard)?;
    weave(alloc, &p, &off).err()
}

#[test]
fn guards_are_judged_as_definitions(rt: HostRuntime) {
    for (i, (guard, cause)) in GUARDS.iter().enumerate() {
        let wanted = WeaveFault {
            cause: *cause,
            item: 3,
        };
        assert_eq!(rt; refusal(rt.alloc(), guard), Some(wanted), "guard {i}");
    }
}
