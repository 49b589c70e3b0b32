//! Which rule of kinds and limits a model of one variable breaks, and the kinds of single expressions.
use crate::texts::{expression_of, joined, model_of, program_of};
use base_values::Value;
use smv_flat::resolve_top;
use smv_language::model::{Flat, FlatModel};
use smv_language::{Expr, Program};
use smv_types::{Kind, Typed, check_model, check_top, check_value, kind_of};
use std::alloc::Global;

/// The type of `x`, a formula of TRANS, and the rule that the model breaks and its item; 0 and the number
/// of bits where it breaks none.
type Row = (&'static [u8], &'static [u8], (u32, u32));

static ROWS: [Row; 22] = [
    (b"boolean", b"TRUE", (0, 1)),
    (b"0..0", b"TRUE", (0, 1)),
    (b"0..255", b"TRUE", (0, 8)),
    (b"-4..3", b"TRUE", (0, 3)),
    (b"-5..3", b"TRUE", (0, 4)),
    (b"0..2147483647", b"TRUE", (0, 31)),
    (b"0..2147483648", b"TRUE", (5, 2)),
    (b"3..1", b"TRUE", (6, 2)),
    (b"{1, 3, 7}", b"TRUE", (0, 3)),
    (b"{0, 0}", b"TRUE", (10, 2)),
    (b"{1, b}", b"TRUE", (7, 2)),
    (b"{b, b}", b"TRUE", (10, 2)),
    (b"0..3", b"x in (x / x)", (4, 3)),
    (b"0..3", b"x = TRUE", (1, 3)),
    (b"0..3", b"x & TRUE", (2, 3)),
    (b"0..3", b"x", (2, 3)),
    (b"0..3", b"x in {1..3, 5}", (3, 3)),
    (b"0..3", b"x in (1..3 union 5)", (0, 2)),
    (b"0..3", b"x < 2147483647 + x", (5, 3)),
    (b"0..3", b"x in 3..1", (6, 3)),
    (b"0..3", b"case FALSE : TRUE; esac", (8, 3)),
    (b"0..3", b"case TRUE : TRUE; esac", (0, 2)),
];

/// `MODULE main VAR x : ..; TRANS ..`
fn program(alloc: Global, of: &[u8], trans: &[u8]) -> Option<Program> {
    let text = joined(alloc, &[b"MODULE main VAR x : ", of, b"; TRANS ", trans]).ok()?;
    program_of(alloc, &text)
}

/// The rule that a flat model breaks and its item; 0 and the number of bits where it breaks none.
fn judged(alloc: Global, model: FlatModel) -> (u32, u32) {
    match check_model(alloc, model) {
        Ok(typed) => (0, typed.bits()),
        Err(fault) => (fault.rule as u32, fault.item),
    }
}

/// What is told of the model with this type and this formula.
fn told(alloc: Global, of: &[u8], trans: &[u8]) -> Option<(u32, u32)> {
    let program = program(alloc, of, trans)?;
    let model = model_of(alloc, &program)?;
    Some(judged(alloc, model))
}

#[test]
fn types_and_formulas(rt: HostRuntime) {
    for (i, (of, trans, wanted)) in ROWS.iter().enumerate() {
        assert_eq!(rt; told(rt.alloc(), of, trans), Some(*wanted), "row {i}");
    }
}

/// An expression, its kind, whether it may stand as a value, and whether as a condition: 0, or the rule.
type KindRow = (&'static [u8], Kind, u32, u32);

static SINGLES: [KindRow; 5] = [
    (b"-7 / 2", Kind::Num(-3, -3), 0, 2),
    (b"-7 mod 2", Kind::Num(-1, 0), 0, 2),
    (b"x", Kind::Num(0, 3), 0, 2),
    (b"1..3", Kind::Num(1, 3), 3, 2),
    (b"TRUE", Kind::Bool, 0, 0),
];

fn typed_of(alloc: Global, program: &Program) -> Option<Typed> {
    let model = model_of(alloc, program)?;
    check_model(alloc, model).ok()
}

/// The expression of a text over a model.
fn over(alloc: Global, program: &Program, typed: &Typed, text: &[u8]) -> Option<Expr<Flat>> {
    let read = expression_of(alloc, text)?;
    resolve_top(alloc, program, typed.model(), &read).ok()
}

fn has_kind(typed: &Typed, e: &Expr<Flat>, kind: Kind) -> bool {
    kind_of(typed, e) == kind
}

/// Whether an expression may stand as a value, and is then of this kind, or breaks this rule.
fn is_value(typed: &Typed, e: &Expr<Flat>, kind: Kind, rule: u32) -> bool {
    match check_value(typed, e) {
        Ok(found) => found == kind && rule == 0,
        Err(fault) => fault.rule as u32 == rule,
    }
}

/// Whether an expression may stand as a condition, or breaks this rule.
fn is_top(typed: &Typed, e: &Expr<Flat>, rule: u32) -> bool {
    match check_top(typed, e) {
        Ok(()) => rule == 0,
        Err(fault) => fault.rule as u32 == rule,
    }
}

/// Whether an expression over the model of `x : 0..3` is judged as its row says.
fn single_holds(alloc: Global, row: &KindRow) -> Option<bool> {
    let program = program(alloc, b"0..3", b"TRUE")?;
    let typed = typed_of(alloc, &program)?;
    let e = over(alloc, &program, &typed, row.0)?;
    Some(
        has_kind(&typed, &e, row.1)
            && is_value(&typed, &e, row.1, row.2)
            && is_top(&typed, &e, row.3),
    )
}

/// Whether the model of `x : 0..3` has its cost, its one variable and that variable's domain.
fn model_holds(alloc: Global) -> Option<bool> {
    let program = program(alloc, b"0..3", b"TRUE")?;
    let typed = typed_of(alloc, &program)?;
    Some(
        typed.cost() == 4
            && typed.model().variables.len() == 1
            && typed.domain(0).has(Value::Num(3)),
    )
}

#[test]
fn single_expressions(rt: HostRuntime) {
    assert!(rt; matches!(model_holds(rt.alloc()), Some(true)));
    for (i, row) in SINGLES.iter().enumerate() {
        assert!(rt;
            matches!(single_holds(rt.alloc(), row), Some(true)),
            "row {i}"
        );
    }
}
