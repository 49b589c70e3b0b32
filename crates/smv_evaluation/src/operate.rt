//! Operators on values. An operator on values that it has no meaning for gives FALSE, which no expression
//! of a typed model comes to; so do numbers that pass 32 bits and a divisor of 0.
ghost use Rattle.std.specs.Prelude.{◌≡◌, ◌*ℤ◌};
ghost use Rattle.smv_type_laws.specs.Intervals.{fits_number};
ghost use Rattle.smv_types.specs.NumberAnswers.{IsSmall};
ghost use Rattle.smv_evaluation.specs.OperatorValues.{same, opposite, negative, either, is_true, calculated, fitting, compared, on_numbers};
ghost use Rattle.smv_evaluation.specs.OperatorValues.{on_truths, on_symbols, applied, between};

use base_values::Value;
use base_values::limits::{GREATEST_NUMBER, LEAST_NUMBER};
use smv_language::Op;

/// Whether both are the same value.
pub(crate) fn same(a: Value, b: Value) -> bool
    ensures { result ≡ same a b }
{
    match (a, b) {
        (Value::Bool(a), Value::Bool(b)) => a == b,
        (Value::Num(a), Value::Num(b)) => a == b,
        (Value::Sym(a), Value::Sym(b)) => a == b,
        _ => false,
    }
}

/// Whether the value is TRUE.
pub(crate) fn is_true(v: Value) -> bool
    ensures { result ≡ is_true v }
{
    match v {
        Value::Bool(b) => b,
        _ => false,
    }
}

/// The other truth value.
pub(crate) fn opposite(v: Value) -> Value
    ensures { result ≡ opposite v }
{
    match v {
        Value::Bool(b) => Value::Bool(!b),
        _ => Value::Bool(false),
    }
}

/// The number with the other sign.
pub(crate) fn negative(v: Value) -> Value
    ensures { result ≡ negative v }
{
    match v {
        Value::Num(n) if is_small(n) => Value::Num(0 - n),
        _ => Value::Bool(false),
    }
}

/// TRUE where one of both is.
pub(crate) fn either(a: Value, b: Value) -> Value
    ensures { result ≡ either a b }
{
    Value::Bool(is_true(a) || is_true(b))
}

/// Whether the value is a number from `lo` to `hi`.
pub(crate) fn between(lo: i64, hi: i64, v: Value) -> bool
    ensures { result ≡ between lo hi v }
{
    match v {
        Value::Num(n) => lo <= n && n <= hi,
        _ => false,
    }
}

/// Whether a number is within 32 bits.
fn is_small(n: i64) -> bool
    ensures { result ≡ fits_number n }
{
    LEAST_NUMBER <= n && n <= GREATEST_NUMBER
}

/// An operator on two values.
pub(crate) fn applied(op: Op, a: Value, b: Value) -> Value
    ensures { result ≡ applied op a b }
{
    match (a, b) {
        (Value::Num(a), Value::Num(b)) => on_numbers(op, a, b),
        (Value::Bool(a), Value::Bool(b)) => Value::Bool(on_truths(op, a, b)),
        (Value::Sym(a), Value::Sym(b)) => Value::Bool(on_symbols(op, a, b)),
        _ => Value::Bool(false),
    }
}

/// An operator on two numbers: their result, or how they compare.
fn on_numbers(op: Op, a: i64, b: i64) -> Value
    ensures { result ≡ on_numbers op a b }
{
    match op {
        Op::Times | Op::Over | Op::Mod | Op::Plus | Op::Minus => Value::Num(fitting(op, a, b)),
        _ => Value::Bool(compared(op, a, b)),
    }
}

/// A calculation with numbers within 32 bits.
fn fitting(op: Op, a: i64, b: i64) -> i64
    ensures { result ≡ fitting op a b }
{
    if is_small(a) && is_small(b) {
        calculated(op, a, b)
    } else {
        0
    }
}

/// `/` truncates toward zero, and `mod` has the sign of what is divided.
fn calculated(op: Op, a: i64, b: i64) -> i64
    requires a { IsSmall a }
    requires b { IsSmall b }
    ensures { result ≡ calculated op a b }
{
    match op {
        Op::Times => product(a, b),
        Op::Over if b != 0 => a / b,
        Op::Mod if b != 0 => a % b,
        Op::Plus => a + b,
        Op::Minus => a - b,
        _ => 0,
    }
}

/// The product of two numbers within 32 bits.
fn product(a: i64, b: i64) -> i64
    requires a { IsSmall a }
    requires b { IsSmall b }
    ensures { result ≡ a *ℤ b }
{
    a * b
}

/// Whether two numbers compare so.
fn compared(op: Op, a: i64, b: i64) -> bool
    ensures { result ≡ compared op a b }
{
    match op {
        Op::Equal => a == b,
        Op::Differs => a != b,
        Op::Less => a < b,
        Op::Greater => b < a,
        Op::AtMost => a <= b,
        Op::AtLeast => b <= a,
        _ => false,
    }
}

/// A connective on two truth values.
fn on_truths(op: Op, a: bool, b: bool) -> bool
    ensures { result ≡ on_truths op a b }
{
    match op {
        Op::Equal | Op::Xnor | Op::Iff => a == b,
        Op::Differs | Op::Xor => a != b,
        Op::And => a && b,
        Op::Or => a || b,
        Op::Implies => !a || b,
        _ => false,
    }
}

/// Whether two symbols, by their numbers, are the same or differ.
fn on_symbols(op: Op, a: u32, b: u32) -> bool
    ensures { result ≡ on_symbols op a b }
{
    match op {
        Op::Equal => a == b,
        Op::Differs => a != b,
        _ => false,
    }
}
