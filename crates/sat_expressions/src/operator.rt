//! The gates of operators on the signals of their operands.
//!
//! [`operator`] is the main function, for all operators with two operands; [`negated`] is the sign turned round.
//! Each first sees that the circuit has room. The five of [`Arithmetic`] go to `sat_circuits`, cut to a width that the
//! caller takes from what is known of the result.
ghost use Rattle.std.specs.Prelude.{◌≤◌, ◌-◌, ◌^◌, length, IfOk};
ghost use Rattle.sat_clauses.specs.Literal.{opposite};
ghost use Rattle.sat_clauses.specs.Models.{IsBelow};
ghost use Rattle.sat_circuits.specs.Gates.{and_gate, or_gate, xor_gate};
ghost use Rattle.sat_circuits.specs.Sums.{negate_gates, less_gates};
ghost use Rattle.sat_circuits.specs.Words.{IsWordOf};
ghost use Rattle.sat_encoding_laws.specs.Signals.{literal_in, word_in, as_bit, as_word, turned, same_gates, operator_gates};
ghost use Rattle.sat_encoding_laws.specs.Meanings.{IsSignal};
ghost use Rattle.sat_expressions.specs.declared.signal.Signal.TheVariants as built;
ghost use Rattle.sat_expressions.specs.BuiltSignals.{signal_of, BuildsLiteral, BuildsSignal};
ghost use Rattle.sat_expressions.specs.ArithmeticGates.{arithmetic_gates};

use crate::room::{check_room, check_width};
use crate::signal::{Signal, is_less, same};
use base_values::OutOfMemory;
use sat_circuits::gates::Gates;
use sat_circuits::products::multiply;
use sat_circuits::quotients::{divide, remainder};
use sat_circuits::sums::{add, negate, subtract};
use sat_circuits::word::Word;
use sat_clauses::lit::Lit;
use smv_language::Op;
use std::alloc::Global;

/// The operators on two numbers that give a number.
#[derive(Clone, Copy, Debug, PartialEq, Eq)]
pub enum Arithmetic {
    Product,
    Quotient,
    Remainder,
    Sum,
    Difference,
}

/// An operator on two values; a number has that width. `union` and `in` have no gates of their own.
pub fn operator(
    alloc: Global,
    g: &mut Gates,
    op: Op,
    width: u32,
    a: Signal,
    b: Signal,
) -> Result<Signal, OutOfMemory>
    requires some { 1 ≤ width }
    requires left { IsSignal g.old (signal_of a) }
    requires right { IsSignal g.old (signal_of b) }
    ensures { IfOk result (BuildsSignal g.old (operator_gates op width (signal_of a) (signal_of b) g.old) g.new) }
{
    match op {
        Op::Times => calculated(alloc, g, Arithmetic::Product, width, a, b),
        Op::Over => calculated(alloc, g, Arithmetic::Quotient, width, a, b),
        Op::Mod => calculated(alloc, g, Arithmetic::Remainder, width, a, b),
        Op::Plus => calculated(alloc, g, Arithmetic::Sum, width, a, b),
        Op::Minus => calculated(alloc, g, Arithmetic::Difference, width, a, b),
        Op::Equal => alike(alloc, g, a, b),
        Op::Differs => unlike(alloc, g, a, b),
        Op::Less => below(alloc, g, a, b),
        Op::Greater => below(alloc, g, b, a),
        Op::AtMost => not_below(alloc, g, b, a),
        Op::AtLeast => not_below(alloc, g, a, b),
        Op::And => conjunction(g, a, b),
        Op::Or => disjunction(g, a, b),
        Op::Xor => difference(g, a, b),
        Op::Xnor => agreement(g, a, b),
        Op::Iff => agreement(g, a, b),
        Op::Implies => implication(g, a, b),
        Op::Union => Ok(Signal::Bit(g.constant(false))),
        Op::Within => Ok(Signal::Bit(g.constant(false))),
    }
}

/// An operator on two numbers, cut to that width.
fn calculated(
    alloc: Global,
    g: &mut Gates,
    by: Arithmetic,
    width: u32,
    a: Signal,
    b: Signal,
) -> Result<Signal, OutOfMemory>
    requires some { 1 ≤ width }
    requires left { IsSignal g.old (signal_of a) }
    requires right { IsSignal g.old (signal_of b) }
    ensures { IfOk result
        (BuildsSignal g.old (as_word (arithmetic_gates by (word_in (signal_of a)) (word_in (signal_of b)) width g.old)) g.new) }
{
    check_room(g)?;
    check_width(width)?;
    let a = a.into_word(alloc)?;
    let b = b.into_word(alloc)?;
    let word = word_of(alloc, g, by, width, &a, &b)?;
    Ok(Signal::Word(word))
}

/// The same on words, where there is room.
fn word_of(
    alloc: Global,
    g: &mut Gates,
    by: Arithmetic,
    width: u32,
    a: &Word,
    b: &Word,
) -> Result<Word, OutOfMemory>
    requires widths { (1 ≤ width) × (width ≤ 34) × (length a.now ≤ 34) × (length b.now ≤ 34) }
    requires left { IsWordOf g.old a.now }
    requires right { IsWordOf g.old b.now }
    requires room { g.old.free ≤ 2 ^ 31 - 20000 }
    ensures { IfOk result (λ w. BuildsSignal g.old (as_word (arithmetic_gates by a.now b.now width g.old)) g.new (built.Word w)) }
{
    match by {
        Arithmetic::Product => Ok(multiply(alloc, g, a, b, width)?),
        Arithmetic::Quotient => Ok(divide(alloc, g, a, b, width)?),
        Arithmetic::Remainder => Ok(remainder(alloc, g, a, b, width)?),
        Arithmetic::Sum => Ok(add(alloc, g, a, b, width)?),
        Arithmetic::Difference => Ok(subtract(alloc, g, a, b, width)?),
    }
}

/// Whether two values are the same.
fn alike(alloc: Global, g: &mut Gates, a: Signal, b: Signal) -> Result<Signal, OutOfMemory>
    requires left { IsSignal g.old (signal_of a) }
    requires right { IsSignal g.old (signal_of b) }
    ensures { IfOk result (BuildsSignal g.old (as_bit (same_gates (signal_of a) (signal_of b) g.old)) g.new) }
{
    let l = same(alloc, g, &a, &b)?;
    Ok(Signal::Bit(l))
}

/// Whether two values differ.
fn unlike(alloc: Global, g: &mut Gates, a: Signal, b: Signal) -> Result<Signal, OutOfMemory>
    requires left { IsSignal g.old (signal_of a) }
    requires right { IsSignal g.old (signal_of b) }
    ensures { IfOk result (BuildsSignal g.old (as_bit (turned (same_gates (signal_of a) (signal_of b) g.old))) g.new) }
{
    let l = same(alloc, g, &a, &b)?;
    Ok(Signal::Bit(l.neg()))
}

/// Whether the first number is less than the second.
fn below(alloc: Global, g: &mut Gates, a: Signal, b: Signal) -> Result<Signal, OutOfMemory>
    requires left { IsSignal g.old (signal_of a) }
    requires right { IsSignal g.old (signal_of b) }
    ensures { IfOk result (BuildsSignal g.old (as_bit (less_gates (word_in (signal_of a)) (word_in (signal_of b)) g.old)) g.new) }
{
    let a = a.into_word(alloc)?;
    let b = b.into_word(alloc)?;
    let l = is_less(alloc, g, &a, &b)?;
    Ok(Signal::Bit(l))
}

/// Whether the first number is not less than the second.
fn not_below(alloc: Global, g: &mut Gates, a: Signal, b: Signal) -> Result<Signal, OutOfMemory>
    requires left { IsSignal g.old (signal_of a) }
    requires right { IsSignal g.old (signal_of b) }
    ensures { IfOk result (BuildsSignal g.old (as_bit (turned (less_gates (word_in (signal_of a)) (word_in (signal_of b)) g.old))) g.new) }
{
    let a = a.into_word(alloc)?;
    let b = b.into_word(alloc)?;
    let l = is_less(alloc, g, &a, &b)?;
    Ok(Signal::Bit(l.neg()))
}

/// Whether both are TRUE.
fn conjunction(g: &mut Gates, a: Signal, b: Signal) -> Result<Signal, OutOfMemory>
    requires left { IsSignal g.old (signal_of a) }
    requires right { IsSignal g.old (signal_of b) }
    ensures { IfOk result (BuildsSignal g.old (as_bit (and_gate (literal_in (signal_of a)) (literal_in (signal_of b)) g.old)) g.new) }
{
    check_room(g)?;
    let l = g.and(a.literal(g), b.literal(g))?;
    Ok(Signal::Bit(l))
}

/// Whether one of the two is TRUE.
fn disjunction(g: &mut Gates, a: Signal, b: Signal) -> Result<Signal, OutOfMemory>
    requires left { IsSignal g.old (signal_of a) }
    requires right { IsSignal g.old (signal_of b) }
    ensures { IfOk result (BuildsSignal g.old (as_bit (or_gate (literal_in (signal_of a)) (literal_in (signal_of b)) g.old)) g.new) }
{
    check_room(g)?;
    let l = g.or(a.literal(g), b.literal(g))?;
    Ok(Signal::Bit(l))
}

/// Whether the two differ.
fn difference(g: &mut Gates, a: Signal, b: Signal) -> Result<Signal, OutOfMemory>
    requires left { IsSignal g.old (signal_of a) }
    requires right { IsSignal g.old (signal_of b) }
    ensures { IfOk result (BuildsSignal g.old (as_bit (xor_gate (literal_in (signal_of a)) (literal_in (signal_of b)) g.old)) g.new) }
{
    check_room(g)?;
    let l = g.xor(a.literal(g), b.literal(g))?;
    Ok(Signal::Bit(l))
}

/// Whether the two are the same.
fn agreement(g: &mut Gates, a: Signal, b: Signal) -> Result<Signal, OutOfMemory>
    requires left { IsSignal g.old (signal_of a) }
    requires right { IsSignal g.old (signal_of b) }
    ensures { IfOk result
        (BuildsSignal g.old (as_bit (turned (xor_gate (literal_in (signal_of a)) (literal_in (signal_of b)) g.old))) g.new) }
{
    check_room(g)?;
    let l = g.xor(a.literal(g), b.literal(g))?;
    Ok(Signal::Bit(l.neg()))
}

/// Whether the first is FALSE or the second TRUE.
fn implication(g: &mut Gates, a: Signal, b: Signal) -> Result<Signal, OutOfMemory>
    requires left { IsSignal g.old (signal_of a) }
    requires right { IsSignal g.old (signal_of b) }
    ensures { IfOk result
        (BuildsSignal g.old (as_bit (or_gate (opposite (literal_in (signal_of a))) (literal_in (signal_of b)) g.old)) g.new) }
{
    check_room(g)?;
    let l = g.or(a.literal(g).neg(), b.literal(g))?;
    Ok(Signal::Bit(l))
}

/// 0 minus a number, at that width.
pub fn negated(alloc: Global, g: &mut Gates, width: u32, a: Signal) -> Result<Signal, OutOfMemory>
    requires least { 1 ≤ width }
    requires usable { IsSignal g.old (signal_of a) }
    ensures { IfOk result (BuildsSignal g.old (as_word (negate_gates (word_in (signal_of a)) width g.old)) g.new) }
{
    check_room(g)?;
    check_width(width)?;
    let word = a.into_word(alloc)?;
    let word = negate(alloc, g, &word, width)?;
    Ok(Signal::Word(word))
}

/// Whether one of two literals is TRUE.
pub fn either(g: &mut Gates, a: Lit, b: Lit) -> Result<Lit, OutOfMemory>
    requires left { IsBelow g.old.free a }
    requires right { IsBelow g.old.free b }
    ensures { IfOk result (BuildsLiteral g.old (or_gate a b g.old) g.new) }
{
    check_room(g)?;
    g.or(a, b)
}
