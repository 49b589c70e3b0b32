//! The value of an expression, or whether it may have a given one, by one pass over its tree ([`ask`]). A set has no value
//! of its own, so both questions are needed: `x in {1, 2}` asks of the set whether it may have the value of `x`.
ghost use Rattle.std.specs.Prelude.{◌≡◌, slice_get};
ghost use Rattle.smv_language.specs.ExpressionTree.{tree_of, trees_of, branches_of};
ghost use Rattle.smv_evaluation.specs.Evaluation.{value_at, known_value, answer, on_left, on_right, operation, in_span, asked_of};
ghost use Rattle.smv_evaluation.specs.Evaluation.{members_of, taken_of};

use crate::operate::{applied, between, either, is_true, negative, opposite, same};
use base_values::Value;
use smv_language::model::Flat;
use smv_language::{Expr, Op};

/// The values of variables and definitions, by their numbers.
#[derive(Clone, Copy)]
pub(crate) struct KnownValues<'a> {
    pub variables: &'a [Value],
    pub definitions: &'a [Value],
}

/// What is asked of an expression: its value, or whether it may have this one.
#[derive(Clone, Copy)]
pub(crate) enum AskedValue {
    ItsValue,
    Whether(Value),
}

/// The value of a name; FALSE where it names nothing.
fn known_value(known: &KnownValues<'_>, name: Flat) -> Value
    ensures { result ≡ known_value known.now name }
{
    match name {
        Flat::Var(number) => value_at(known.variables, number),
        Flat::Definition(number) => value_at(known.definitions, number),
        Flat::Symbol(number) => Value::Sym(number),
    }
}

/// The value at a place of a list; FALSE where the list is shorter.
fn value_at(values: &[Value], number: u32) -> Value
    ensures { result ≡ value_at (slice_get values.now number) }
{
    match values.get(number as usize) {
        Some(value) => *value,
        None => Value::Bool(false),
    }
}

/// The answer where an expression has this one value.
fn answer(asked: AskedValue, value: Value) -> Value
    ensures { result ≡ answer asked value }
{
    match asked {
        AskedValue::ItsValue => value,
        AskedValue::Whether(other) => Value::Bool(same(value, other)),
    }
}

/// What is asked of an operator's left side: of a union's what is asked of itself.
fn on_left(op: Op, asked: AskedValue) -> AskedValue
    ensures { result ≡ on_left op asked }
{
    match op {
        Op::Union => asked,
        _ => AskedValue::ItsValue,
    }
}

/// What is asked of its right side, where the left one gave a value: of that of `in` whether it has this
/// value.
fn on_right(op: Op, asked: AskedValue, left: Value) -> AskedValue
    ensures { result ≡ on_right op asked left }
{
    match op {
        Op::Union => asked,
        Op::Within => AskedValue::Whether(left),
        _ => AskedValue::ItsValue,
    }
}

/// The answer of an operator, from those of its sides.
fn operation(op: Op, asked: AskedValue, left: Value, right: Value) -> Value
    ensures { result ≡ operation op asked left right }
{
    match op {
        Op::Union => either(left, right),
        Op::Within => answer(asked, right),
        _ => answer(asked, applied(op, left, right)),
    }
}

/// The answer of a span.
fn in_span(asked: AskedValue, lo: i64, hi: i64) -> Value
    ensures { result ≡ in_span asked lo hi }
{
    match asked {
        AskedValue::ItsValue => Value::Bool(false),
        AskedValue::Whether(value) => Value::Bool(between(lo, hi, value)),
    }
}

/// The value of an expression, or whether it may have one, from the values now and at the next moment. Of a
/// set no value is told. Takes no memory.
#[cycle(ask)]
#[tactic(auto, using(smv_language::proofs::WrittenLaws::tree_of_case, smv_language::proofs::WrittenLaws::tree_of_set))]
pub(crate) fn ask<'a>(
    now: &KnownValues<'a>,
    next: &KnownValues<'a>,
    asked: AskedValue,
    e: &Expr<Flat>,
) -> Value
    ensures { result ≡ asked_of (known_value now.now) (known_value next.now) asked (tree_of e.now) }
{
    match e {
        Expr::Truth(b) => answer(asked, Value::Bool(*b)),
        Expr::Number(n) => answer(asked, Value::Num(*n)),
        Expr::Leaf(name) => answer(asked, known_value(now, *name)),
        Expr::Not(a) => answer(asked, opposite(ask(now, next, AskedValue::ItsValue, a))),
        Expr::Negate(a) => answer(asked, negative(ask(now, next, AskedValue::ItsValue, a))),
        Expr::Next(a) => ask(next, next, asked, a),
        Expr::Binary(op, a, b) => {
            let left = ask(now, next, on_left(*op, asked), a);
            let right = ask(now, next, on_right(*op, asked, left), b);
            operation(*op, asked, left, right)
        }
        Expr::Choice(c, a, b) => {
            let taken = ask(now, next, AskedValue::ItsValue, c);
            if is_true(taken) {
                ask(now, next, asked, a)
            } else {
                ask(now, next, asked, b)
            }
        }
        Expr::Case(branches) => ask_branches(now, next, asked, branches.as_slice()),
        Expr::SetOf(members) => ask_members(now, next, asked, members.as_slice()),
        Expr::Span(lo, hi) => in_span(asked, *lo, *hi),
    }
}

/// TRUE where some member is.
#[cycle(ask)]
#[tactic(auto, using(crate::proofs::AskedLaws::members_more))]
fn ask_members<'a>(
    now: &KnownValues<'a>,
    next: &KnownValues<'a>,
    asked: AskedValue,
    members: &[Expr<Flat>],
) -> Value
    ensures { result ≡ members_of (known_value now.now) (known_value next.now) asked (trees_of members.now) }
{
    for member in members {
        if is_true(ask(now, next, asked, member)) {
            return Value::Bool(true);
        }
    }
    Value::Bool(false)
}

/// The answer of the first branch whose condition is TRUE.
#[cycle(ask)]
#[tactic(auto, using(crate::proofs::AskedLaws::taken_more))]
fn ask_branches<'a>(
    now: &KnownValues<'a>,
    next: &KnownValues<'a>,
    asked: AskedValue,
    branches: &[(Expr<Flat>, Expr<Flat>)],
) -> Value
    ensures { result ≡ taken_of (known_value now.now) (known_value next.now) asked (branches_of branches.now) }
{
    for (condition, value) in branches {
        if is_true(ask(now, next, AskedValue::ItsValue, condition)) {
            return ask(now, next, asked, value);
        }
    }
    Value::Bool(false)
}
