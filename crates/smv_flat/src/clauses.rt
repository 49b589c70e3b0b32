//! What an item asks of a model: a formula of the first moment, of each, of each step, or one that keeps a
//! frozen variable as it is. [`clause_of`] is the main function.
ghost use Rattle.std.specs.Prelude.{◌≡◌, Some, []};
ghost use Rattle.smv_language.specs.Trace.{Each};
ghost use Rattle.smv_language.specs.ExpressionTree.{tree_of};
ghost use Rattle.smv_language.specs.ProgramTree.{declared_tree};
ghost use Rattle.smv_language.specs.declared.program.Moment.TheVariants.{Always, First, After};
ghost use Rattle.smv_flat_laws.specs.Model.{kept_declared, assigned_first, assigned_each, assigned_step, first_conditions, each_conditions};
ghost use Rattle.smv_flat_laws.specs.Model.{step_conditions, kept_conditions};
ghost use Rattle.smv_scope.specs.ItemTree.{item_tree};
ghost use Rattle.smv_flat.specs.FormulaLists.{conditions_asked, clauses_told};

use base_values::{Dotted, Name};
use smv_language::model::Role;
use smv_language::{Assignment, Decl, Declared, Expr, Moment};
use smv_scope::items::Item;

/// Which formulas are asked for: those of the first moment, those of each, those of each step, or those
/// that keep frozen variables as they are.
#[derive(Clone, Copy)]
pub(crate) enum AskedFormulas {
    First,
    Each,
    Step,
    Kept,
}

/// What an item asks: that an expression is TRUE, that a variable has now or next one of an expression's
/// values, or that it keeps its own.
#[derive(Clone, Copy)]
pub(crate) enum ItemClause<'a> {
    Plain(&'a Expr<Dotted>),
    Now(&'a Name, &'a Expr<Dotted>),
    Next(&'a Name, &'a Expr<Dotted>),
    Kept(&'a Name),
}

/// What an item asks, of the formulas that are asked for.
pub(crate) fn clause_of<'a>(asked: AskedFormulas, item: Item<'a>) -> Option<ItemClause<'a>>
    ensures { clauses_told result ≡ conditions_asked asked (item_tree item.entry) }
{
    match asked {
        AskedFormulas::First => first_clause(item),
        AskedFormulas::Each => each_clause(item),
        AskedFormulas::Step => step_clause(item),
        AskedFormulas::Kept => kept_clause(item),
    }
}

/// What an item asks of the first moment.
fn first_clause<'a>(item: Item<'a>) -> Option<ItemClause<'a>>
    ensures { clauses_told result ≡ first_conditions (item_tree item.entry) }
{
    match item {
        Item::Init(e) => Some(ItemClause::Plain(e)),
        Item::Assigned(assignment) => match assignment.when {
            Moment::First => now_clause(assignment),
            Moment::Always | Moment::After => None,
        },
        _ => None,
    }
}

/// What an item asks of each moment.
fn each_clause<'a>(item: Item<'a>) -> Option<ItemClause<'a>>
    ensures { clauses_told result ≡ each_conditions (item_tree item.entry) }
{
    match item {
        Item::Invar(e) => Some(ItemClause::Plain(e)),
        Item::Assigned(assignment) => match assignment.when {
            Moment::Always => now_clause(assignment),
            Moment::First | Moment::After => None,
        },
        _ => None,
    }
}

/// What an item asks of each step.
fn step_clause<'a>(item: Item<'a>) -> Option<ItemClause<'a>>
    ensures { clauses_told result ≡ step_conditions (item_tree item.entry) }
{
    match item {
        Item::Trans(e) => Some(ItemClause::Plain(e)),
        Item::Assigned(assignment) => match assignment.when {
            Moment::After => next_clause(assignment),
            Moment::First | Moment::Always => None,
        },
        _ => None,
    }
}

/// What an item asks of each step because it declares a frozen variable.
fn kept_clause<'a>(item: Item<'a>) -> Option<ItemClause<'a>>
    ensures { clauses_told result ≡ kept_conditions (item_tree item.entry) }
{
    match item {
        Item::Declared(Role::Frozen, decl) => kept_of(decl),
        _ => None,
    }
}

/// That a declared variable keeps its value; an instance has none.
fn kept_of<'a>(decl: &'a Decl) -> Option<ItemClause<'a>>
    ensures { clauses_told result ≡ kept_declared decl.now.name (declared_tree decl.now.what) }
{
    match decl.what {
        Declared::Instance(_, _) => None,
        Declared::Boolean | Declared::Range(_, _) | Declared::Members(_) => {
            Some(ItemClause::Kept(&decl.name))
        }
    }
}

/// That the target of an assignment has one of the values now. A target of several parts asks nothing.
fn now_clause<'a>(assignment: &'a Assignment) -> Option<ItemClause<'a>>
    ensures first { clauses_told result ≡ assigned_first First assignment.now.target (tree_of assignment.now.value) }
    ensures each { clauses_told result ≡ assigned_each Always assignment.now.target (tree_of assignment.now.value) }
{
    match assignment.target.parts() {
        [] => None,
        [target] => Some(ItemClause::Now(target, &assignment.value)),
        [_, _, ..] => None,
    }
}

/// What an assignment to the next value asks; a dotted target asks nothing.
fn next_clause<'a>(assignment: &'a Assignment) -> Option<ItemClause<'a>>
    ensures { clauses_told result ≡ assigned_step After assignment.now.target (tree_of assignment.now.value) }
{
    match assignment.target.parts() {
        [] => None,
        [target] => Some(ItemClause::Next(target, &assignment.value)),
        [_, _, ..] => None,
    }
}
