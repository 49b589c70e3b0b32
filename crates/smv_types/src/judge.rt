//! What is known of an expression's values and the rule that it breaks, by one pass over its tree ([`judge`]). Each node
//! is judged by `sort` or `several`, over what is known of its parts.
ghost use Rattle.std.specs.Prelude.{◌≡◌, false, None, slice_get};
ghost use Rattle.smv_language.specs.ExpressionTree.{tree_of, trees_of, branches_of};
ghost use Rattle.smv_type_laws.specs.ExpressionKinds.{sets_on_left, sets_on_right, is_word_true, judge, judge_trees, judge_values};
ghost use Rattle.smv_types.specs.Answers.{told};
ghost use Rattle.smv_types.specs.Names.{sort_at, name_sort, name_kind};
ghost use Rattle.smv_types.specs.ListKinds.{add_all, guard_all, no_guards};

use crate::several::{Guards, Several, add_to, guard_by, whole_case, whole_set};
use crate::sort::{
    Class, JudgedExpr, Sort, choice, kept, literal, negative, operation, opposite, span,
};
use smv_language::model::Flat;
use smv_language::{Expr, Op};

/// What is known of a model's variables and definitions, by their numbers.
#[derive(Drop)]
pub(crate) struct Sorts {
    pub variables: Vec<Sort>,
    pub definitions: Vec<Sort>,
}

/// What a name's values are. A number that names nothing has no values; it counts as a truth value.
pub(crate) fn name_sort(sorts: &Sorts, name: Flat) -> Sort
    ensures { result ≡ name_sort sorts.now name }
{
    match name {
        Flat::Var(number) => sort_at(&sorts.variables, number),
        Flat::Definition(number) => sort_at(&sorts.definitions, number),
        Flat::Symbol(_) => Sort {
            class: Class::Symbol,
            interval: None,
        },
    }
}

/// What is known at a place of a list; a truth value where the list is shorter.
fn sort_at(sorts: &[Sort], number: u32) -> Sort
    ensures { result ≡ sort_at (slice_get sorts.now number) }
{
    match sorts.get(number as usize) {
        Some(sort) => *sort,
        None => Sort {
            class: Class::Truth,
            interval: None,
        },
    }
}

/// What an expression's values are, and the first rule that it breaks. `sets` says whether a set may
/// stand where the expression does. Takes no memory.
#[cycle(judge)]
#[tactic(auto, using(crate::proofs::NodeLaws::told_literal, crate::proofs::NodeLaws::told_name))]
pub(crate) fn judge(sorts: &Sorts, sets: bool, e: &Expr<Flat>) -> JudgedExpr
    ensures { result ≡ told (judge (name_kind sorts.now) sets (tree_of e.now)) }
{
    match e {
        Expr::Truth(_) => kept(Sort {
            class: Class::Truth,
            interval: None,
        }),
        Expr::Number(n) => literal(*n),
        Expr::Leaf(name) => kept(name_sort(sorts, *name)),
        Expr::Not(a) => opposite(judge(sorts, false, a)),
        Expr::Negate(a) => negative(judge(sorts, false, a)),
        Expr::Next(a) => judge(sorts, false, a),
        Expr::Binary(op, a, b) => {
            let a = judge(sorts, sets_on_left(*op), a);
            operation(sets, *op, a, judge(sorts, sets_on_right(*op), b))
        }
        Expr::Choice(c, a, b) => {
            let c = judge(sorts, false, c);
            let a = judge(sorts, sets, a);
            choice(sets, c, a, judge(sorts, sets, b))
        }
        Expr::Case(branches) => {
            let guards = judge_conditions(sorts, branches.as_slice());
            whole_case(sets, guards, judge_values(sorts, sets, branches.as_slice()))
        }
        Expr::SetOf(members) => whole_set(sets, judge_members(sorts, members.as_slice())),
        Expr::Span(lo, hi) => span(sets, *lo, *hi),
    }
}

/// The members of a set, judged one after the other.
#[cycle(judge)]
#[tactic(auto, using(crate::proofs::ListLaws::judged_more))]
fn judge_members(sorts: &Sorts, members: &[Expr<Flat>]) -> Option<Several>
    ensures { result ≡ add_all None (judge_trees (name_kind sorts.now) (trees_of members.now)) }
{
    let mut values = None;
    for member in members {
        values = Some(add_to(values, judge(sorts, false, member)));
    }
    values
}

/// The values of the branches of a case, judged one after the other.
#[cycle(judge)]
#[tactic(auto, using(crate::proofs::ListLaws::values_more))]
fn judge_values(sorts: &Sorts, sets: bool, branches: &[(Expr<Flat>, Expr<Flat>)]) -> Option<Several>
    ensures { result ≡ add_all None (judge_values (name_kind sorts.now) sets (branches_of branches.now)) }
{
    let mut values = None;
    for (_condition, value) in branches {
        values = Some(add_to(values, judge(sorts, sets, value)));
    }
    values
}

/// The conditions of the branches of a case, judged one after the other.
#[cycle(judge)]
#[tactic(auto, using(crate::proofs::ListLaws::guards_more))]
fn judge_conditions(sorts: &Sorts, branches: &[(Expr<Flat>, Expr<Flat>)]) -> Guards
    ensures { result ≡ guard_all (name_kind sorts.now) no_guards (branches_of branches.now) }
{
    let mut guards = Guards {
        own: None,
        parts: None,
        ends: false,
    };
    for (condition, _value) in branches {
        guards = guard_by(guards, judge(sorts, false, condition), is_true(condition));
    }
    guards
}

/// Whether sets may stand on the left of an operator.
fn sets_on_left(op: Op) -> bool
    ensures { result ≡ sets_on_left op }
{
    matches!(op, Op::Union)
}

/// Whether sets may stand on the right of an operator.
fn sets_on_right(op: Op) -> bool
    ensures { result ≡ sets_on_right op }
{
    matches!(op, Op::Union | Op::Within)
}

/// Whether an expression is the word TRUE.
fn is_true(e: &Expr<Flat>) -> bool
    ensures { result ≡ is_word_true (tree_of e.now) }
{
    match e {
        Expr::Truth(b) => *b,
        _ => false,
    }
}
