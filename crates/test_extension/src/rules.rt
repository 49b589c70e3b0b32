//! Which rule of items and numbers instructions break first.
use crate::texts::{instructions_of, joined, program_of};
use base_values::{Name, OutOfMemory};
use fault_instructions::{EffectFault, Instructions};
use fault_rules::{InstructionRule, RuleFault, judge_counts, placed_slices};
use std::alloc::Global;

static MODEL: &[u8] = b"MODULE main VAR on : boolean; VAR up : boolean; IVAR key : boolean;";

/// The beginning of instructions, so many more modes and the end, with the rule that is broken first, and
/// its item.
type Row = (&'static [u8], u16, &'static [u8], InstructionRule, u32);

static ROWS: [Row; 10] = [
    (
        b"EXTENSION OF MODULE M SLICE Lamp AFFECTS on WITH MODE dark : Permanent StuckAt(FALSE);",
        0,
        b"SLICE S AFFECTS up INITIALLY ANY WITH MODE low : Permanent Inverted;",
        InstructionRule::NoSuchModule,
        1,
    ),
    (
        b"EXTENSION OF MODULE main SLICE Lamp AFFECTS z WITH MODE dark : Permanent StuckAt(FALSE);",
        0,
        b"SLICE S AFFECTS up INITIALLY ANY WITH MODE low : Permanent Inverted;",
        InstructionRule::NoSuchVariable,
        2,
    ),
    (
        b"EXTENSION OF MODULE main SLICE Lamp AFFECTS key WITH MODE dark : Permanent StuckAt(FALSE);",
        0,
        b"SLICE S AFFECTS up INITIALLY ANY WITH MODE low : Permanent Inverted;",
        InstructionRule::NotAStateVariable,
        2,
    ),
    (
        b"EXTENSION OF MODULE main SLICE Lamp AFFECTS on WITH MODE dark : Permanent StuckAt(FALSE);",
        0,
        b"SLICE Lamp AFFECTS up INITIALLY ANY WITH MODE low : Permanent Inverted;",
        InstructionRule::DoubleSlice,
        4,
    ),
    (
        b"EXTENSION OF MODULE main SLICE Lamp AFFECTS on WITH MODE aaa : Permanent StuckAt(FALSE);",
        1,
        b"SLICE S AFFECTS up INITIALLY ANY WITH MODE low : Permanent Inverted;",
        InstructionRule::DoubleMode,
        4,
    ),
    (
        b"EXTENSION OF MODULE main SLICE Lamp AFFECTS on WITH MODE dark : Permanent StuckAt(FALSE);",
        0,
        b"SLICE S AFFECTS on INITIALLY ANY WITH MODE low : Permanent Inverted;",
        InstructionRule::VariableTaken,
        4,
    ),
    (
        b"EXTENSION OF MODULE main SLICE Lamp AFFECTS on WITH MODE dark : Permanent Offset(1);",
        0,
        b"SLICE S AFFECTS up INITIALLY ANY WITH MODE low : Permanent Inverted;",
        InstructionRule::Effect(EffectFault::WrongKind),
        3,
    ),
    (
        b"EXTENSION OF MODULE main SLICE on AFFECTS on WITH MODE dark : Permanent StuckAt(FALSE);",
        0,
        b"SLICE S AFFECTS up INITIALLY ANY WITH MODE low : Permanent Inverted;",
        InstructionRule::NameTaken,
        2,
    ),
    (
        b"EXTENSION OF MODULE main SLICE Lamp AFFECTS on WITH MODE nominal : Permanent StuckAt(FALSE);",
        0,
        b"SLICE S AFFECTS up INITIALLY ANY WITH MODE low : Permanent Inverted;",
        InstructionRule::NameTaken,
        3,
    ),
    (
        b"EXTENSION OF MODULE main SLICE Lamp AFFECTS on WITH MODE dark : Permanent StuckAt(FALSE);",
        256,
        b"SLICE S AFFECTS up INITIALLY ANY WITH MODE low : Permanent Inverted;",
        InstructionRule::TooManyFaults,
        259,
    ),
];

/// The name of three letters of a number, from `aaa` on.
fn name_of(number: u16) -> [u8; 3] {
    [
        b'a' + (number / 256 % 16) as u8,
        b'a' + (number / 16 % 16) as u8,
        b'a' + (number % 16) as u8,
    ]
}

fn mode_text(alloc: Global, number: u16) -> Result<Vec<u8>, OutOfMemory> {
    joined(
        alloc,
        &[b" MODE ", &name_of(number), b" : Permanent Random; "],
    )
}

/// The texts of so many further modes.
fn modes_text(alloc: Global, more: u16) -> Result<Vec<u8>, OutOfMemory> {
    let mut text = Vec::new(alloc);
    for number in 0..more {
        text.extend_from_slice(&mode_text(alloc, number)?)?;
    }
    Ok(text)
}

fn text_of(alloc: Global, row: &Row) -> Result<Vec<u8>, OutOfMemory> {
    let modes = modes_text(alloc, row.1)?;
    joined(alloc, &[row.0, &modes, row.2])
}

/// The rule of numbers that is told of instructions, in a module with one instance.
fn broken_count(alloc: Global, i: &Instructions) -> Option<RuleFault> {
    let main = Name::new(alloc, b"main").ok()?;
    judge_counts(&[&main], i).err()
}

/// The rule that is told of instructions.
fn told(alloc: Global, text: &[u8]) -> Option<RuleFault> {
    let p = program_of(alloc, MODEL)?;
    let i = instructions_of(alloc, text)?;
    match placed_slices(alloc, &p, &i) {
        Ok(_slices) => broken_count(alloc, &i),
        Err(fault) => Some(fault),
    }
}

/// Whether the instructions of a row break its rule first, at its item.
fn is_told(alloc: Global, row: &Row) -> Option<bool> {
    let text = text_of(alloc, row).ok()?;
    let fault = told(alloc, &text)?;
    Some(fault.rule == row.3 && fault.item == row.4)
}

#[test]
fn the_first_broken_rule_is_told(rt: HostRuntime) {
    for (i, row) in ROWS.iter().enumerate() {
        assert!(rt; matches!(is_told(rt.alloc(), row), Some(true)), "row {i}");
    }
}
