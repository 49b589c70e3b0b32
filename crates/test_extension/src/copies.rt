//! Copies of a program of several modules, of its flat model and of instructions: each list has what was copied.
use crate::texts::{instructions_of, is_text, model_of, program_of};
use fault_instructions::{Instructions, print_instructions};
use smv_language::model::FlatModel;
use smv_language::{Program, print_program};
use std::alloc::Global;

static POWER: &[u8] = b"MODULE Generator VAR live : boolean; ASSIGN live := TRUE;
    MODULE Battery VAR charge : 0..3; ASSIGN init(charge) := 3; next(charge) := charge;
    MODULE Sensor(line) VAR seen : boolean; ASSIGN seen := line;
    MODULE main VAR g1 : Generator; g2 : Generator; b1 : Battery; b2 : Battery; v1 : Sensor(feed1); use2 : boolean;
    DEFINE feed1 := g1.live | b1.charge > 0; feed2 := g2.live | b2.charge > 0; bus := use2 ? feed2 : feed1;
    ASSIGN init(use2) := FALSE; next(use2) := !v1.seen;";

static MODES: &[u8] = b"FAULT EXTENSION Power
    EXTENSION OF MODULE Battery SLICE Cell AFFECTS charge WITH MODE drain : Permanent RampDown(1, 0);
    EXTENSION OF MODULE Sensor SLICE Eye AFFECTS seen WITH MODE wild {0.001} : Transient Random WHEN line; MODE hold : Permanent Frozen;";

/// How many instances, variables, definitions, symbols, and formulas of each kind a model has.
fn sizes(m: &FlatModel) -> [usize; 7] {
    [
        m.instances.len(),
        m.variables.len(),
        m.definitions.len(),
        m.symbols.len(),
        m.init.len(),
        m.invar.len(),
        m.trans.len(),
    ]
}

/// The text of a copy of a program.
fn copied_program_text(alloc: Global, program: &Program) -> Option<Vec<u8>> {
    let same = program.copy().ok()?;
    print_program(alloc, &same).ok()
}

/// Whether a copy of the program has its text.
fn program_is_copied(alloc: Global) -> Option<bool> {
    let program = program_of(alloc, POWER)?;
    let text = print_program(alloc, &program).ok()?;
    Some(is_text(copied_program_text(alloc, &program), &text))
}

/// Whether a copy of the flat model has its sizes.
fn model_is_copied(alloc: Global) -> Option<bool> {
    let program = program_of(alloc, POWER)?;
    let model = model_of(alloc, &program)?;
    let same = model.copy().ok()?;
    Some(sizes(&same) == [6, 6, 3, 0, 3, 3, 3])
}

#[test]
fn copies_have_what_was_copied(rt: HostRuntime) {
    assert!(rt; matches!(program_is_copied(rt.alloc()), Some(true)));
    assert!(rt; matches!(model_is_copied(rt.alloc()), Some(true)));
}

/// The text of a copy of instructions.
fn copied_modes_text(alloc: Global, modes: &Instructions) -> Option<Vec<u8>> {
    let same = modes.copy().ok()?;
    print_instructions(alloc, &same).ok()
}

/// Whether a copy of the instructions has their text, which is long.
fn modes_are_copied(alloc: Global) -> Option<bool> {
    let modes = instructions_of(alloc, MODES)?;
    let text = print_instructions(alloc, &modes).ok()?;
    Some(text.len() > 200 && is_text(copied_modes_text(alloc, &modes), &text))
}

#[test]
fn copied_instructions_have_the_same_text(rt: HostRuntime) {
    assert!(rt; matches!(modes_are_copied(rt.alloc()), Some(true)));
}
