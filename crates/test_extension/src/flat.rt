//! Which rule of names a program breaks first, and the flat models of programs of one variable.
use crate::texts::{expression_of, model_of, program_of};
use base_values::{Dotted, Name, OutOfMemory};
use smv_flat::{flatten, resolve_at, resolve_top, with_history};
use smv_language::copy_model::copy_faults;
use smv_language::model::{Fault, FaultList, Flat, FlatModel};
use smv_language::{Expr, Op, Program};
use std::alloc::Global;

/// Programs, and the number of the rule that each breaks with its item.
static WRONG: [(&[u8], (u32, u32)); 9] = [
    (b"MODULE main VAR x : M;", (5, 2)),
    (b"MODULE main VAR x : main;", (7, 2)),
    (b"MODULE main VAR x : boolean; DEFINE x := TRUE;", (4, 3)),
    (b"MODULE main VAR x : boolean; INIT next(x)", (12, 3)),
    (b"MODULE main DEFINE x := x; INIT x", (11, 2)),
    (b"MODULE main IVAR x : boolean; INVAR x", (13, 3)),
    (
        b"MODULE main FROZENVAR x : boolean; ASSIGN next(x) := TRUE;",
        (9, 3),
    ),
    (
        b"MODULE main VAR x : boolean; ASSIGN next(x) := TRUE; init(x) := TRUE; x := TRUE;",
        (10, 5),
    ),
    (b"MODULE main CONSTANTS c; TRANS x", (8, 3)),
];

/// The number of the rule that a program breaks, and its item; two zeros where it is lawful.
fn fault(alloc: Global, text: &[u8]) -> Option<(u32, u32)> {
    let program = program_of(alloc, text)?;
    match flatten(alloc, &program) {
        Ok(_model) => Some((0, 0)),
        Err(fault) => Some((fault.rule as u32, fault.item)),
    }
}

#[test]
fn rules_of_main(rt: HostRuntime) {
    for (i, (text, told)) in WRONG.iter().enumerate() {
        assert_eq!(rt; fault(rt.alloc(), text), Some(*told), "program {i}");
    }
}

static ONE: &[u8] = b"MODULE main VAR x : boolean; ASSIGN next(x) := TRUE;";

/// Whether an expression means the variable of number 0 on top of the model.
fn is_first_on_top(alloc: Global, p: &Program, m: &FlatModel, e: &Expr<Dotted>) -> bool {
    match resolve_top(alloc, p, m, e) {
        Ok(made) => is_first(&made),
        Err(_) => false,
    }
}

/// Whether an expression means the variable of number 0 inside the first instance.
fn is_first_inside(alloc: Global, p: &Program, m: &FlatModel, e: &Expr<Dotted>) -> bool {
    match resolve_at(alloc, p, m, 0, true, e) {
        Ok(made) => is_first(&made),
        Err(_) => false,
    }
}

/// Whether a model has one instance, one variable and one formula of steps.
fn has_one_each(m: &FlatModel) -> bool {
    m.instances.len() == 1 && m.variables.len() == 1 && m.trans.len() == 1
}

/// Whether the model of one variable has one of each, and the variable's name means it on top and inside.
fn one_holds(alloc: Global) -> Option<bool> {
    let program = program_of(alloc, ONE)?;
    let model = model_of(alloc, &program)?;
    let x = expression_of(alloc, b"x")?;
    Some(
        has_one_each(&model)
            && is_first_on_top(alloc, &program, &model, &x)
            && is_first_inside(alloc, &program, &model, &x),
    )
}

#[test]
fn one_variable(rt: HostRuntime) {
    assert!(rt; matches!(one_holds(rt.alloc()), Some(true)));
}

/// Whether an expression is the variable of number 0.
fn is_first(e: &Expr<Flat>) -> bool {
    match e {
        Expr::Leaf(leaf) => *leaf == Flat::Var(0),
        _ => false,
    }
}

static FAILING: &[u8] = b"MODULE main VAR x : {ok, bad}; TRANS x";

/// The fault that stands where `x = bad`.
fn failed(alloc: Global) -> Result<Fault, OutOfMemory> {
    let name = Dotted::new(alloc, Name::new(alloc, b"x")?)?;
    Ok(Fault {
        name,
        variable: 0,
        symbol: 1,
    })
}

/// A copy of a list that has this fault twice.
fn failed_twice(alloc: Global) -> Result<FaultList, OutOfMemory> {
    let mut faults = FaultList::new(alloc);
    for _each in 0..2 {
        faults.push(failed(alloc)?)?;
    }
    copy_faults(alloc, faults.as_slice())
}

/// The failing model with a bit of history for each of the two faults.
fn with_two_bits(alloc: Global) -> Option<FlatModel> {
    let program = program_of(alloc, FAILING)?;
    let model = model_of(alloc, &program)?;
    let faults = failed_twice(alloc).ok()?;
    with_history(alloc, &model, &faults).ok()
}

/// Whether the bits are the second and the third variable, each with a formula behind those of the model.
fn has_two_bits(m: &FlatModel) -> bool {
    has_last_variable(m) && has_last_start(m) && has_steps(m)
}

fn two_bits_hold(alloc: Global) -> Option<bool> {
    let made = with_two_bits(alloc)?;
    Some(has_two_bits(&made))
}

fn has_last_variable(m: &FlatModel) -> bool {
    match m.variables.as_slice() {
        [_, _, last] => is_named(&last.path, b"failed#2"),
        _ => false,
    }
}

fn has_last_start(m: &FlatModel) -> bool {
    match m.init.as_slice() {
        [_, last] => is_about(&last.value, 2),
        _ => false,
    }
}

fn has_steps(m: &FlatModel) -> bool {
    match m.trans.as_slice() {
        [own, _, last] => is_first(&own.value) && is_about(&last.value, 2),
        _ => false,
    }
}

#[test]
fn two_bits(rt: HostRuntime) {
    assert!(rt; matches!(two_bits_hold(rt.alloc()), Some(true)));
}

/// Whether an expression has `in` on top, and on its left the variable of a number, now or next.
fn is_about(e: &Expr<Flat>, number: u32) -> bool {
    match e {
        Expr::Binary(Op::Within, left, _) => match left.as_ref() {
            Expr::Leaf(leaf) => *leaf == Flat::Var(number),
            Expr::Next(below) => match below.as_ref() {
                Expr::Leaf(leaf) => *leaf == Flat::Var(number),
                _ => false,
            },
            _ => false,
        },
        _ => false,
    }
}

/// Whether a path is this one name.
fn is_named(path: &Dotted, text: &[u8]) -> bool {
    match path.parts() {
        [name] => name.text() == text,
        _ => false,
    }
}
