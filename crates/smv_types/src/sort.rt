//! What is known of an expression's values, and the rules of one node over its parts. For each node there is a function
//! of what is known of its parts: [`literal`], [`negative`], [`operation`], and those for spans, ranges, negations and
//! choices. A node that breaks a rule has a class and no interval, so that a rule is told once, where it is broken.
ghost use Rattle.std.specs.Prelude.{◌≡◌, false, None};
ghost use Rattle.smv_type_laws.specs.ExpressionKinds.{joined, on_both, exact_interval, negative_interval};
ghost use Rattle.smv_types.specs.Rows.{lower, same_class, class_rule, one_value, some_values, found, exact_of, is_divided, row_not};
ghost use Rattle.smv_types.specs.Rows.{row_connective, row_negative, row_number, row_order, row_same, row_union, row_binary, row_choice};
ghost use Rattle.smv_types.specs.Rows.{row_span, row_range, row_literal};
ghost use Rattle.smv_types.specs.declared.fault.TypeRule.TheVariants.{NotBoolean};
ghost use Rattle.smv_types.specs.declared.sort.Class.TheVariants.{Truth};

use crate::fault::{TypeRule, lower, unless};
use crate::interval::{Interval, between, is_small};
use smv_language::Op;

/// Truth values, numbers, or symbols.
#[derive(Clone, Copy)]
pub enum Class {
    Truth,
    Number,
    Symbol,
}

/// What is known of values: their class, and for numbers the interval in which they lie. It is missing
/// where a rule is broken.
#[derive(Clone, Copy)]
pub struct Sort {
    pub class: Class,
    pub interval: Option<Interval>,
}

/// What is known of an expression's values, whether it is a set, and the rule with the lowest number that
/// it or a part of it breaks.
#[derive(Clone, Copy)]
pub struct JudgedExpr {
    pub sort: Sort,
    pub is_set: bool,
    pub broken: Option<TypeRule>,
}

/// An exact interval: the interval where it is known and ends within 32 bits, and the rule that is broken
/// where it does not.
#[derive(Clone, Copy)]
pub(crate) struct Exact {
    pub interval: Option<Interval>,
    pub wide: Option<TypeRule>,
}

impl Class {
    /// Whether both are the same class.
    pub fn is_same(self, other: Class) -> bool
        ensures { result ≡ same_class self other }
    {
        match (self, other) {
            (Class::Truth, Class::Truth) => true,
            (Class::Number, Class::Number) => true,
            (Class::Symbol, Class::Symbol) => true,
            _ => false,
        }
    }
}

/// The rule, where values are of another class.
pub(crate) fn class_rule(class: Class, rule: TypeRule, sort: Sort) -> Option<TypeRule>
    ensures { result ≡ class_rule class rule sort }
{
    unless(sort.class.is_same(class), rule)
}

/// A single value that breaks no rule.
pub fn kept(sort: Sort) -> JudgedExpr
    ensures { result ≡ record { sort = sort; is_set = false; broken = None } }
{
    JudgedExpr {
        sort,
        is_set: false,
        broken: None,
    }
}

/// A single value, where a node breaks the rule `own` and its parts break the rule `parts`.
pub(crate) fn one_value(
    own: Option<TypeRule>,
    class: Class,
    interval: Option<Interval>,
    parts: Option<TypeRule>,
) -> JudgedExpr
    ensures { result ≡ one_value own class interval parts }
{
    let interval = match own {
        Some(_) => None,
        None => interval,
    };
    JudgedExpr {
        sort: Sort { class, interval },
        is_set: false,
        broken: lower(own, parts),
    }
}

/// What may be a set, which breaks a rule where `sets` says that no set may stand.
pub(crate) fn some_values(
    sets: bool,
    is_set: bool,
    own: Option<TypeRule>,
    sort: Sort,
    parts: Option<TypeRule>,
) -> JudgedExpr
    ensures { result ≡ some_values sets is_set own sort parts }
{
    let own = lower(own, unless(sets || !is_set, TypeRule::SetHere));
    let one = one_value(own, sort.class, sort.interval, parts);
    JudgedExpr {
        sort: one.sort,
        is_set,
        broken: one.broken,
    }
}

/// What is found of an interval that is None where it passes 32 bits.
fn found(interval: Option<Interval>) -> Exact
    ensures { result ≡ found interval }
{
    match interval {
        Some(_) => Exact {
            interval,
            wide: None,
        },
        None => Exact {
            interval: None,
            wide: Some(TypeRule::TooWide),
        },
    }
}

/// Nothing is known, and nothing is broken.
fn unknown() -> Exact
    ensures { result ≡ exact_of None }
{
    Exact {
        interval: None,
        wide: None,
    }
}

/// The hull of two intervals that are known.
pub fn joined(a: Option<Interval>, b: Option<Interval>) -> Option<Interval>
    ensures { result ≡ joined a b }
{
    match (a, b) {
        (Some(a), Some(b)) => Some(a.hull(b)),
        _ => None,
    }
}

/// A written number.
#[tactic(auto, using(crate::proofs::RowLaws::found_fitting))]
pub fn literal(n: i64) -> JudgedExpr
    ensures { result ≡ row_literal n }
{
    let exact = found(between(n, n));
    one_value(exact.wide, Class::Number, exact.interval, None)
}

/// The numbers from `lo` to `hi`, as a set.
pub(crate) fn span(sets: bool, lo: i64, hi: i64) -> JudgedExpr
    ensures { result ≡ row_span sets lo hi }
{
    let wide = unless(is_small(lo) && is_small(hi), TypeRule::TooWide);
    let interval = if lo <= hi { between(lo, hi) } else { None };
    let own = lower(unless(lo <= hi, TypeRule::EmptyRange), wide);
    let class = Class::Number;
    some_values(sets, true, own, Sort { class, interval }, None)
}

/// The numbers from `lo` to `hi`, each alone.
pub(crate) fn range(lo: i64, hi: i64) -> JudgedExpr
    ensures { result ≡ row_range lo hi }
{
    let all = span(true, lo, hi);
    JudgedExpr {
        sort: all.sort,
        is_set: false,
        broken: all.broken,
    }
}

/// `!a`.
pub(crate) fn opposite(a: JudgedExpr) -> JudgedExpr
    ensures { result ≡ row_not a }
{
    let own = class_rule(Class::Truth, TypeRule::NotBoolean, a.sort);
    one_value(own, Class::Truth, None, a.broken)
}

/// `-a`.
pub fn negative(a: JudgedExpr) -> JudgedExpr
    ensures { result ≡ row_negative a }
{
    let sort = a.sort;
    let exact = negative_found(sort.interval);
    let Exact { interval, wide } = exact;
    let own = lower(class_rule(Class::Number, TypeRule::Mismatch, sort), wide);
    one_value(own, Class::Number, interval, a.broken)
}

/// The interval of a negated number, where that of the number is known.
#[tactic(auto, using(crate::proofs::RowLaws::found_fitting))]
fn negative_found(a: Option<Interval>) -> Exact
    ensures { result ≡ exact_of (negative_interval a) }
{
    match a {
        Some(a) => found(a.negated()),
        None => unknown(),
    }
}

/// An operator between two operands. `sets` says whether a set may stand here.
pub fn operation(sets: bool, op: Op, a: JudgedExpr, b: JudgedExpr) -> JudgedExpr
    ensures { result ≡ row_binary sets op a b }
{
    match op {
        Op::And | Op::Or | Op::Xor | Op::Xnor | Op::Iff | Op::Implies => connective(a, b),
        Op::Equal | Op::Differs | Op::Within => same(a, b),
        Op::Less | Op::Greater | Op::AtMost | Op::AtLeast => order(a, b),
        Op::Times | Op::Over | Op::Mod | Op::Plus | Op::Minus => arithmetic(op, a, b),
        Op::Union => union(sets, a, b),
    }
}

/// Two truth values joined to one.
fn connective(a: JudgedExpr, b: JudgedExpr) -> JudgedExpr
    ensures { result ≡ row_connective a b }
{
    let own = lower(
        class_rule(Class::Truth, TypeRule::NotBoolean, a.sort),
        class_rule(Class::Truth, TypeRule::NotBoolean, b.sort),
    );
    one_value(own, Class::Truth, None, lower(a.broken, b.broken))
}

/// `=`, `!=` and `in`.
fn same(a: JudgedExpr, b: JudgedExpr) -> JudgedExpr
    ensures { result ≡ row_same a b }
{
    let own = class_rule(a.sort.class, TypeRule::Mismatch, b.sort);
    one_value(own, Class::Truth, None, lower(a.broken, b.broken))
}

/// Two numbers compared.
fn order(a: JudgedExpr, b: JudgedExpr) -> JudgedExpr
    ensures { result ≡ row_order a b }
{
    let own = lower(
        class_rule(Class::Number, TypeRule::Mismatch, a.sort),
        class_rule(Class::Number, TypeRule::Mismatch, b.sort),
    );
    one_value(own, Class::Truth, None, lower(a.broken, b.broken))
}

/// `+`, `-`, `*`, `/` and `mod`. A missing interval breaks no rule.
fn arithmetic(op: Op, a: JudgedExpr, b: JudgedExpr) -> JudgedExpr
    ensures { result ≡ row_number op a b }
{
    let (left, right) = (a.sort, b.sort);
    let exact = made_by(op, left.interval, right.interval);
    let zero = unless(!is_divided(op, right.interval), TypeRule::MayDivideByZero);
    let Exact { interval, wide } = exact;
    let own = lower(
        class_rule(Class::Number, TypeRule::Mismatch, left),
        lower(
            class_rule(Class::Number, TypeRule::Mismatch, right),
            lower(zero, wide),
        ),
    );
    one_value(own, Class::Number, interval, lower(a.broken, b.broken))
}

/// Whether an operator divides by what may be 0.
fn is_divided(op: Op, divisor: Option<Interval>) -> bool
    ensures { result ≡ is_divided op divisor }
{
    match (op, divisor) {
        (Op::Over | Op::Mod, Some(divisor)) => divisor.has_zero(),
        _ => false,
    }
}

/// The exact interval of what an operator gives.
fn made_by(op: Op, a: Option<Interval>, b: Option<Interval>) -> Exact
    ensures { result ≡ exact_of (on_both (exact_interval op) a b) }
{
    match (a, b) {
        (Some(a), Some(b)) => made_by_two(op, a, b),
        _ => unknown(),
    }
}

/// The interval of an arithmetic operator, where no divisor may be 0.
#[tactic(auto, using(crate::proofs::RowLaws::found_fitting))]
fn made_by_two(op: Op, a: Interval, b: Interval) -> Exact
    ensures { result ≡ exact_of (exact_interval op a b) }
{
    match op {
        Op::Plus => found(a.plus(b)),
        Op::Minus => found(a.minus(b)),
        Op::Times => found(a.times(b)),
        Op::Over if !b.has_zero() => found(a.over(b)),
        Op::Mod if !b.has_zero() => found(a.remainder(b)),
        _ => unknown(),
    }
}

/// The union of two values or sets of one class.
fn union(sets: bool, a: JudgedExpr, b: JudgedExpr) -> JudgedExpr
    ensures { result ≡ row_union sets a b }
{
    let own = class_rule(a.sort.class, TypeRule::Mismatch, b.sort);
    let class = a.sort.class;
    let interval = joined(a.sort.interval, b.sort.interval);
    some_values(
        sets,
        true,
        own,
        Sort { class, interval },
        lower(a.broken, b.broken),
    )
}

/// `c ? a : b`.
pub(crate) fn choice(sets: bool, c: JudgedExpr, a: JudgedExpr, b: JudgedExpr) -> JudgedExpr
    ensures { result ≡ row_choice sets c a b }
{
    let own = lower(
        class_rule(Class::Truth, TypeRule::NotBoolean, c.sort),
        class_rule(a.sort.class, TypeRule::Mismatch, b.sort),
    );
    let class = a.sort.class;
    let interval = joined(a.sort.interval, b.sort.interval);
    let parts = lower(c.broken, lower(a.broken, b.broken));
    some_values(
        sets,
        a.is_set || b.is_set,
        own,
        Sort { class, interval },
        parts,
    )
}

/// The first rule that an expression breaks as a condition, which is TRUE or FALSE.
pub(crate) fn broken_condition(judged: JudgedExpr) -> Option<TypeRule>
    ensures { result ≡ lower (class_rule Truth NotBoolean judged.sort) judged.broken }
{
    lower(
        class_rule(Class::Truth, TypeRule::NotBoolean, judged.sort),
        judged.broken,
    )
}
