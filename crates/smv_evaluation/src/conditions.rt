//! The conditions of a model on a first moment ([`holds_first`]), and on a step ([`holds_step`]), tried formula by formula.
ghost use Rattle.std.specs.Prelude.{◌≡◌, ◌↔◌, IsTrue};
ghost use Rattle.smv_language.specs.ModelTree.{model_tree};
ghost use Rattle.smv_evaluation.specs.MomentTables.{holds, all_hold, first_holds, step_holds};
ghost use Rattle.smv_evaluation.specs.EvaluableModels.{IsEvaluable, IsFilled, values_in};
ghost use Rattle.smv_evaluation.specs.Stops.{IsFirstMoment, IsNextMoment};

use crate::table::Table;
use crate::values::holds;
use smv_language::model::{FlatModel, Formula};
use smv_types::Typed;

/// Whether a moment may be the first one: each formula of `init` and of `invar` is TRUE. Takes no memory.
pub fn holds_first(t: &Typed, now: &Table) -> bool
    requires model { IsEvaluable (model_tree t.now.model) }
    requires filled { IsFilled (model_tree t.now.model) now.now }
    ensures { IsTrue result ↔ IsFirstMoment (model_tree t.now.model) (values_in (model_tree t.now.model) now.now) }
{
    first_holds(t.model(), now)
}

/// Whether a moment may come after another: each formula of `trans` is TRUE of both, and each of `invar` of
/// the later one. Takes no memory.
pub fn holds_step(t: &Typed, now: &Table, next: &Table) -> bool
    requires model { IsEvaluable (model_tree t.now.model) }
    requires filled_now { IsFilled (model_tree t.now.model) now.now }
    requires filled_next { IsFilled (model_tree t.now.model) next.now }
    ensures { IsTrue result
        ↔ IsNextMoment (model_tree t.now.model) (values_in (model_tree t.now.model) now.now) (values_in (model_tree t.now.model) next.now) }
{
    step_holds(t.model(), now, next)
}

/// Whether the conditions on a first moment are found TRUE.
pub(crate) fn first_holds(model: &FlatModel, now: &Table) -> bool
    ensures { result ≡ first_holds model.now now.now }
{
    all_hold(model.init.as_slice(), now, now) && all_hold(model.invar.as_slice(), now, now)
}

/// Whether the conditions on a moment after another are found TRUE.
pub(crate) fn step_holds(model: &FlatModel, now: &Table, next: &Table) -> bool
    ensures { result ≡ step_holds model.now now.now next.now }
{
    all_hold(model.trans.as_slice(), now, next) && all_hold(model.invar.as_slice(), next, next)
}

/// Whether each of these formulas is TRUE.
fn all_hold(formulas: &[Formula], now: &Table, next: &Table) -> bool
    ensures { result ≡ all_hold now.now next.now formulas.now }
{
    formulas.iter().all(|formula| holds(formula, now, next))
}
