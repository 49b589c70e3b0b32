//! Expressions over a typed model that are no part of it: values, top events, guards. [`kind_of`] tells the kind of
//! what breaks no rule, and [`check_value`] and [`check_top`] judge. A fault has the item 0.
ghost use Rattle.std.specs.Prelude.{◌≡◌, true, false, [], OnOk};
ghost use Rattle.smv_language.specs.ModelTree.{model_tree, flat_tree};
ghost use Rattle.smv_type_laws.specs.Models.{judged_in, broken_condition, value_fault, top_fault};
ghost use Rattle.smv_types.specs.Answers.{told};
ghost use Rattle.smv_types.specs.Calls.{sort_kind, shown, value_answer, top_answer, value_by, top_by, LiesInKind};

use crate::cost::cost;
use crate::fault::{TypeFault, TypeRule};
use crate::judge::judge;
use crate::sort::{Class, JudgedExpr, Sort, broken_condition};
use crate::typed::Typed;
use base_values::limits::{GREATEST_NUMBER, LEAST_NUMBER, MOST_TOP_COST};
use smv_language::Expr;
use smv_language::model::Flat;

/// What the values of an expression are: truth values, numbers from the first to the second, both
/// included, or symbols.
#[derive(Clone, Copy, Debug, PartialEq, Eq)]
pub enum Kind {
    Bool,
    Num(i64, i64),
    Sym,
}

/// The kind of an expression that breaks no rule, also of a set. Takes no memory.
pub fn kind_of(t: &Typed, e: &Expr<Flat>) -> Kind
    ensures { result ≡ shown (judged_in (model_tree t.now.model) true (flat_tree e.now)).kind }
{
    known_kind(judge_in(t, true, e).sort)
}

/// The kind of an expression, or the first rule that it breaks, with item 0. A set is refused. Takes no
/// memory.
///
/// An expression that is not refused breaks no rule, and at values of the domains its value lies in its
/// kind.
pub fn check_value(t: &Typed, e: &Expr<Flat>) -> Result<Kind, TypeFault>
    ensures answer { result
        ≡ value_answer (value_fault (model_tree t.now.model) (flat_tree e.now))
        (judged_in (model_tree t.now.model) false (flat_tree e.now)).kind }
    ensures kept { OnOk result ((judged_in (model_tree t.now.model) false (flat_tree e.now)).broken ≡ []) }
    ensures lies { OnOk result (LiesInKind (model_tree t.now.model) (flat_tree e.now)) }
{
    let judged = judge_in(t, false, e);
    value_told(judged.broken, judged.sort)
}

/// Whether an expression may be a top event; else the first rule that it breaks, with item 0. It must be a
/// truth value, and its cost at most `MOST_TOP_COST`, which is tried last. Takes no memory.
///
/// An expression that is not refused is a condition that breaks no rule.
pub fn check_top(t: &Typed, e: &Expr<Flat>) -> Result<(), TypeFault>
    ensures answer { result ≡ top_answer (top_fault (model_tree t.now.model) (flat_tree e.now)) }
    ensures kept { OnOk result (broken_condition (judged_in (model_tree t.now.model) false (flat_tree e.now)) ≡ []) }
    ensures lies { OnOk result (LiesInKind (model_tree t.now.model) (flat_tree e.now)) }
{
    let judged = judge_in(t, false, e);
    top_told(broken_condition(judged), cost(e) > MOST_TOP_COST)
}

/// An expression over a typed model.
fn judge_in(t: &Typed, sets: bool, e: &Expr<Flat>) -> JudgedExpr
    ensures { result ≡ told (judged_in (model_tree t.now.model) sets (flat_tree e.now)) }
{
    judge(t.sorts(), sets, e)
}

/// What is told of a value that breaks a rule or none.
fn value_told(broken: Option<TypeRule>, sort: Sort) -> Result<Kind, TypeFault>
    ensures { result ≡ value_by broken sort }
{
    match broken {
        Some(rule) => Err(TypeFault { rule, item: 0 }),
        None => Ok(known_kind(sort)),
    }
}

/// What is told of a condition that breaks a rule or none, and is too large or not.
fn top_told(broken: Option<TypeRule>, large: bool) -> Result<(), TypeFault>
    ensures { result ≡ top_by broken large }
{
    match broken {
        Some(rule) => Err(TypeFault { rule, item: 0 }),
        None if large => Err(TypeFault {
            rule: TypeRule::TooLarge,
            item: 0,
        }),
        None => Ok(()),
    }
}

/// What is known of values, as a kind. A missing interval is that of all numbers within 32 bits.
fn known_kind(sort: Sort) -> Kind
    ensures { result ≡ sort_kind sort }
{
    match (sort.class, sort.interval) {
        (Class::Truth, _) => Kind::Bool,
        (Class::Symbol, _) => Kind::Sym,
        (Class::Number, Some(found)) => Kind::Num(found.lo(), found.hi()),
        (Class::Number, None) => Kind::Num(LEAST_NUMBER, GREATEST_NUMBER),
    }
}
