//! The values of expressions over a typed model, from the tables of a moment and of the next: [`value`] and [`may`]. Both
//! ask for an expression that breaks no rule.
ghost use Rattle.std.specs.Prelude.{◌≡◌, ◌↔◌, IsTrue, false, true, []};
ghost use Rattle.smv_language.specs.ExpressionTree.{tree_of};
ghost use Rattle.smv_language.specs.ModelTree.{model_tree, flat_tree};
ghost use Rattle.smv_type_laws.specs.Laws.{ReadsOwn};
ghost use Rattle.smv_type_laws.specs.Models.{judged_in};
ghost use Rattle.smv_evaluation.specs.MomentTables.{answer_in, holds};
ghost use Rattle.smv_evaluation.specs.OperatorValues.{is_true};
ghost use Rattle.smv_evaluation.specs.EvaluableModels.{IsNumbered, IsEvaluable, IsFilled, Gives, MayGive};
ghost use Rattle.smv_evaluation.specs.declared.ask.AskedValue.TheVariants.{ItsValue, Whether};

use crate::ask::{AskedValue, ask};
use crate::operate::is_true;
use crate::table::Table;
use base_values::Value;
use smv_language::Expr;
use smv_language::model::{Flat, Formula};
use smv_types::Typed;

/// The value of an expression that breaks no rule and is no set, from the tables of a moment and of the
/// next. Takes no memory.
pub fn value(t: &Typed, e: &Expr<Flat>, now: &Table, next: &Table) -> Value
    requires model { IsEvaluable (model_tree t.now.model) }
    requires own { ReadsOwn (model_tree t.now.model) (flat_tree e.now) }
    requires kept { (judged_in (model_tree t.now.model) false (flat_tree e.now)).broken ≡ [] }
    requires filled_now { IsFilled (model_tree t.now.model) now.now }
    requires filled_next { IsFilled (model_tree t.now.model) next.now }
    ensures { Gives (model_tree t.now.model) now.now next.now (flat_tree e.now) result }
{
    value_in(e, now, next)
}

/// Whether an expression that breaks no rule may have a value, from the tables of a moment and of the next.
/// Takes no memory.
pub fn may(t: &Typed, e: &Expr<Flat>, now: &Table, next: &Table, v: Value) -> bool
    requires model { IsEvaluable (model_tree t.now.model) }
    requires own { ReadsOwn (model_tree t.now.model) (flat_tree e.now) }
    requires kept { (judged_in (model_tree t.now.model) true (flat_tree e.now)).broken ≡ [] }
    requires filled_now { IsFilled (model_tree t.now.model) now.now }
    requires filled_next { IsFilled (model_tree t.now.model) next.now }
    requires numbered { IsNumbered t.now.model.symbols v }
    ensures { IsTrue result ↔ MayGive (model_tree t.now.model) now.now next.now (flat_tree e.now) v }
{
    may_in(e, now, next, v)
}

/// The value of an expression.
pub(crate) fn value_in(e: &Expr<Flat>, now: &Table, next: &Table) -> Value
    ensures { result ≡ answer_in now.now next.now ItsValue (tree_of e.now) }
{
    ask(&now.known(), &next.known(), AskedValue::ItsValue, e)
}

/// Whether an expression may have a value.
fn may_in(e: &Expr<Flat>, now: &Table, next: &Table, v: Value) -> bool
    ensures { result ≡ is_true (answer_in now.now next.now (Whether v) (tree_of e.now)) }
{
    is_true(ask(&now.known(), &next.known(), AskedValue::Whether(v), e))
}

/// Whether a formula is TRUE.
pub(crate) fn holds(formula: &Formula, now: &Table, next: &Table) -> bool
    ensures { result ≡ holds now.now next.now formula.now }
{
    is_true(value_in(&formula.value, now, next))
}
