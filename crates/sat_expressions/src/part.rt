//! The value of an expression, and what is asked of it.
ghost use Rattle.std.specs.Prelude.{◌≡◌, ◌≤◌, IfOk};
ghost use Rattle.sat_clauses.specs.Literal.{opposite};
ghost use Rattle.sat_clauses.specs.Models.{IsBelow};
ghost use Rattle.sat_circuits.specs.Gates.{constant_lit, or_gate};
ghost use Rattle.sat_circuits.specs.Numbers.{number_word};
ghost use Rattle.sat_circuits.specs.Sums.{negate_gates};
ghost use Rattle.smv_type_laws.specs.Models.{kind_of_leaf};
ghost use Rattle.smv_types.specs.Answers.{told_sort};
ghost use Rattle.smv_language.specs.ModelTree.{leaf_of};
ghost use Rattle.sat_encoding_laws.specs.Signals.{bit, word, literal_in, word_in, as_bit, as_word, operator_gates, choice_gates};
ghost use Rattle.sat_encoding_laws.specs.Expressions.{span_gates};
ghost use Rattle.sat_encoding_laws.specs.Meanings.{IsSignal};
ghost use Rattle.sat_encoding_laws.specs.Laws.{IsAskedIn};
ghost use Rattle.sat_expressions.specs.BuiltSignals.{signal_of, BuildsLiteral, BuildsSignal};
ghost use Rattle.sat_expressions.specs.ModelNames.{model_of, names_in, IsNamed};
ghost use Rattle.sat_expressions.specs.Sorts.{sort_width, literal_sort, negative_sort, operation_sort, joined_sort};
ghost use Rattle.sat_expressions.specs.Branches.{parts_sort};
ghost use Rattle.sat_expressions.specs.Parts.{form_of, asked_of, truth_sort, IsBit, Answers};

use crate::names::NamedSignals;
use crate::operator::{either, negated, operator};
use crate::signal::{Signal, between, choice, same};
use crate::width::sort_width;
use base_values::OutOfMemory;
use sat_circuits::constants::number_word;
use sat_circuits::gates::Gates;
use sat_clauses::lit::Lit;
use smv_language::Op;
use smv_language::model::Flat;
use smv_types::{Class, Sort, joined, kept, literal, negative, operation};
use std::alloc::Global;

/// What is asked of an expression: its value, or whether that of a signal is among its values.
#[derive(Clone, Copy)]
pub enum AskedSignal<'a> {
    /// Its value.
    ItsValue,
    /// Whether the value of this signal is among its values, as on the right of `in`.
    WhetherHas(&'a Signal),
}

/// How an operator takes its operands: the value of each, the values of both, or a value that may be among
/// those of the other.
#[derive(Clone, Copy)]
pub enum Form {
    /// The values of both, as most operators do.
    Values,
    /// The values of each: `union`.
    Union,
    /// The value of the left, which may be among those of the right: `in`.
    Within,
}

/// How an operator takes its operands.
pub fn form_of(op: Op) -> Form
    ensures { result ≡ form_of op }
{
    match op {
        Op::Union => Form::Union,
        Op::Within => Form::Within,
        _ => Form::Values,
    }
}

/// The value of an expression: its signal, and what is known of it.
#[derive(Drop)]
pub struct ExpressionSignal {
    /// The literal of a truth value, or the word of a number or a symbol.
    pub signal: Signal,
    /// What is known of the value, which gives the widths of words.
    pub sort: Sort,
}

/// What is known of truth values.
pub fn truth_sort() -> Sort
    ensures { result ≡ truth_sort }
{
    Sort {
        class: Class::Truth,
        interval: None,
    }
}

/// What is known of some values; of none, what is known of truth values.
pub fn sort_or_truth(sort: Option<Sort>) -> Sort
    ensures { result ≡ parts_sort sort }
{
    match sort {
        Some(sort) => sort,
        None => truth_sort(),
    }
}

/// A truth value.
pub fn truth(l: Lit) -> ExpressionSignal
    ensures signal { signal_of result.signal ≡ bit l }
    ensures sort { result.sort ≡ truth_sort }
{
    ExpressionSignal {
        signal: Signal::Bit(l),
        sort: truth_sort(),
    }
}

/// The same signal, as that of a truth value.
pub fn as_truth(part: ExpressionSignal) -> ExpressionSignal
    ensures signal { result.signal ≡ part.signal }
    ensures sort { result.sort ≡ truth_sort }
{
    ExpressionSignal {
        signal: part.signal,
        sort: truth_sort(),
    }
}

/// What is asked, of an expression with this one value.
pub fn answer(
    alloc: Global,
    g: &mut Gates,
    asked: AskedSignal<'_>,
    part: ExpressionSignal,
) -> Result<ExpressionSignal, OutOfMemory>
    requires asked { IsAskedIn g.old (asked_of asked) }
    requires usable { IsSignal g.old (signal_of part.signal) }
    ensures { IfOk result (Answers (asked_of asked.entry) g.old (g.old, signal_of part.signal) part.sort g.new) }
{
    match asked {
        AskedSignal::ItsValue => Ok(part),
        AskedSignal::WhetherHas(wanted) => {
            let l = same(alloc, g, wanted, &part.signal)?;
            Ok(truth(l))
        }
    }
}

/// TRUE and FALSE.
pub fn truth_part(
    alloc: Global,
    g: &mut Gates,
    asked: AskedSignal<'_>,
    b: bool,
) -> Result<ExpressionSignal, OutOfMemory>
    requires { IsAskedIn g.old (asked_of asked) }
    ensures { IfOk result (Answers (asked_of asked.entry) g.old (g.old, bit (constant_lit b)) truth_sort g.new) }
{
    let l = g.constant(b);
    answer(alloc, g, asked, truth(l))
}

/// A written number.
pub fn number_part(
    alloc: Global,
    g: &mut Gates,
    asked: AskedSignal<'_>,
    n: i64,
) -> Result<ExpressionSignal, OutOfMemory>
    requires { IsAskedIn g.old (asked_of asked) }
    ensures { IfOk result (Answers (asked_of asked.entry) g.old (g.old, word (number_word n)) (literal_sort n) g.new) }
{
    let word = number_word(alloc, g, n)?;
    let part = ExpressionSignal {
        signal: Signal::Word(word),
        sort: literal(n).sort,
    };
    answer(alloc, g, asked, part)
}

/// A name.
pub fn leaf_part(
    alloc: Global,
    g: &mut Gates,
    names: &NamedSignals<'_>,
    asked: AskedSignal<'_>,
    name: Flat,
) -> Result<ExpressionSignal, OutOfMemory>
    requires named { IsNamed g.old names.now }
    requires asked { IsAskedIn g.old (asked_of asked) }
    ensures { IfOk result (Answers (asked_of asked.entry) g.old (g.old, (names_in names.now).now (leaf_of name))
        (told_sort (kind_of_leaf (model_of names.now) (leaf_of name))) g.new) }
{
    let part = named_part(alloc, g, names, name)?;
    answer(alloc, g, asked, part)
}

/// The value of a name.
fn named_part(
    alloc: Global,
    g: &Gates,
    names: &NamedSignals<'_>,
    name: Flat,
) -> Result<ExpressionSignal, OutOfMemory>
    requires { IsNamed g.now names.now }
    ensures signal { IfOk result (λ p. signal_of p.signal ≡ (names_in names.now).now (leaf_of name)) }
    ensures usable { IfOk result (λ p. IsSignal g.now (signal_of p.signal)) }
    ensures sort { IfOk result (λ p. p.sort ≡ told_sort (kind_of_leaf (model_of names.now) (leaf_of name))) }
{
    // The variable of the constants is below the next free one.
    let _ = g.constant(false);
    let signal = names.signal(alloc, g, name)?;
    Ok(ExpressionSignal {
        signal,
        sort: names.sort(name),
    })
}

/// `!`
pub fn not_part(
    alloc: Global,
    g: &mut Gates,
    asked: AskedSignal<'_>,
    a: ExpressionSignal,
) -> Result<ExpressionSignal, OutOfMemory>
    requires asked { IsAskedIn g.old (asked_of asked) }
    requires usable { IsSignal g.old (signal_of a.signal) }
    ensures { IfOk result (Answers (asked_of asked.entry) g.old (
      g.old,
      bit (opposite (literal_in (signal_of a.signal))),
    ) truth_sort g.new) }
{
    let l = a.signal.literal(g).neg();
    answer(alloc, g, asked, truth(l))
}

/// Unary `-`.
pub fn negated_part(
    alloc: Global,
    g: &mut Gates,
    names: &NamedSignals<'_>,
    asked: AskedSignal<'_>,
    a: ExpressionSignal,
) -> Result<ExpressionSignal, OutOfMemory>
    requires symbols { 1 ≤ names.now.symbols }
    requires asked { IsAskedIn g.old (asked_of asked) }
    requires usable { IsSignal g.old (signal_of a.signal) }
    ensures { IfOk result (Answers (asked_of asked.entry) g.old
        (as_word (negate_gates (word_in (signal_of a.signal)) (sort_width names.now.symbols (negative_sort a.sort)) g.old))
        (negative_sort a.sort) g.new) }
{
    let width = sort_width(names.symbols, negative(kept(a.sort)).sort);
    let signal = negated(alloc, g, width, a.signal)?;
    let part = ExpressionSignal {
        signal,
        sort: negative(kept(a.sort)).sort,
    };
    answer(alloc, g, asked, part)
}

/// An operator with the values on its left and its right.
#[derive(Drop)]
pub struct Applied {
    pub op: Op,
    pub left: ExpressionSignal,
    pub right: ExpressionSignal,
}

/// An operator on two values.
pub fn applied_part(
    alloc: Global,
    g: &mut Gates,
    names: &NamedSignals<'_>,
    asked: AskedSignal<'_>,
    of: Applied,
) -> Result<ExpressionSignal, OutOfMemory>
    requires symbols { 1 ≤ names.now.symbols }
    requires asked { IsAskedIn g.old (asked_of asked) }
    requires left { IsSignal g.old (signal_of of.left.signal) }
    requires right { IsSignal g.old (signal_of of.right.signal) }
    ensures { IfOk result (Answers (asked_of asked.entry) g.old
        (operator_gates of.op (sort_width names.now.symbols (operation_sort of.op of.left.sort of.right.sort))
        (signal_of of.left.signal) (signal_of of.right.signal) g.old) (operation_sort of.op of.left.sort of.right.sort) g.new) }
{
    let Applied { op, left, right } = of;
    let width = sort_width(
        names.symbols,
        operation(false, op, kept(left.sort), kept(right.sort)).sort,
    );
    let signal = operator(alloc, g, op, width, left.signal, right.signal)?;
    let part = ExpressionSignal {
        signal,
        sort: operation(false, op, kept(left.sort), kept(right.sort)).sort,
    };
    answer(alloc, g, asked, part)
}

/// Whether one of two is TRUE.
pub fn union_part(
    g: &mut Gates,
    a: ExpressionSignal,
    b: ExpressionSignal,
) -> Result<ExpressionSignal, OutOfMemory>
    requires left { IsSignal g.old (signal_of a.signal) }
    requires right { IsSignal g.old (signal_of b.signal) }
    ensures signal { IfOk result (λ p. BuildsSignal g.old (as_bit
        (or_gate (literal_in (signal_of a.signal)) (literal_in (signal_of b.signal)) g.old)) g.new p.signal) }
    ensures bit { IfOk result (λ p. IsBit (signal_of p.signal)) }
{
    let l = either(g, a.signal.literal(g), b.signal.literal(g))?;
    Ok(truth(l))
}

/// Whether the literal is TRUE or the part is.
pub fn or_part(g: &mut Gates, l: Lit, a: ExpressionSignal) -> Result<Lit, OutOfMemory>
    requires left { IsBelow g.old.free l }
    requires right { IsSignal g.old (signal_of a.signal) }
    ensures { IfOk result (BuildsLiteral g.old (or_gate l (literal_in (signal_of a.signal)) g.old) g.new) }
{
    either(g, l, a.signal.literal(g))
}

/// What is known of two values of one class.
pub fn joined_sort(a: Sort, b: Sort) -> Sort
    ensures { result ≡ joined_sort a b }
{
    Sort {
        class: a.class,
        interval: joined(a.interval, b.interval),
    }
}

/// The first of two values where the condition is TRUE, else the second.
pub fn chosen_part(
    alloc: Global,
    g: &mut Gates,
    names: &NamedSignals<'_>,
    c: ExpressionSignal,
    a: ExpressionSignal,
    b: ExpressionSignal,
) -> Result<ExpressionSignal, OutOfMemory>
    requires symbols { 1 ≤ names.now.symbols }
    requires condition { IsSignal g.old (signal_of c.signal) }
    requires left { IsSignal g.old (signal_of a.signal) }
    requires right { IsSignal g.old (signal_of b.signal) }
    ensures signal { IfOk result (λ p. BuildsSignal g.old (choice_gates (sort_width names.now.symbols (joined_sort a.sort b.sort))
        (literal_in (signal_of c.signal)) (signal_of a.signal) (signal_of b.signal) g.old) g.new p.signal) }
    ensures sort { IfOk result (λ p. p.sort ≡ joined_sort a.sort b.sort) }
{
    let width = sort_width(names.symbols, joined_sort(a.sort, b.sort));
    let l = c.signal.literal(g);
    let signal = choice(alloc, g, width, l, a.signal, b.signal)?;
    Ok(ExpressionSignal {
        signal,
        sort: joined_sort(a.sort, b.sort),
    })
}

/// Whether what is asked for is one of the numbers from `lo` to `hi`, which have no one value.
pub fn span_part(
    alloc: Global,
    g: &mut Gates,
    asked: AskedSignal<'_>,
    lo: i64,
    hi: i64,
) -> Result<ExpressionSignal, OutOfMemory>
    requires { IsAskedIn g.old (asked_of asked) }
    ensures signal { IfOk result (λ p. BuildsSignal g.old (span_gates (asked_of asked.entry) lo hi g.old) g.new p.signal) }
    ensures bit { IfOk result (λ p. IsBit (signal_of p.signal)) }
{
    match asked {
        AskedSignal::ItsValue => Ok(truth(g.constant(false))),
        AskedSignal::WhetherHas(wanted) => {
            let word = wanted.to_word(alloc)?;
            let l = between(alloc, g, &word, lo, hi)?;
            Ok(truth(l))
        }
    }
}
