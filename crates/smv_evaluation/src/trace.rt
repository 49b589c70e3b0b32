//! Whether a list of moments is a trace that reaches a top event, or where and why it stops being one ([`replay`]). Two
//! tables go over the moments, one for the moment before and one for the next.
ghost use Rattle.std.specs.Prelude.{◌≡◌, ◌<◌, ◌^◌, drop, length, All};
ghost use Rattle.smv_language.specs.ExpressionTree.{tree_of};
ghost use Rattle.smv_language.specs.ModelTree.{model_tree, flat_tree};
ghost use Rattle.smv_evaluation.specs.MomentTables.{filled, step_holds, HasRoom, HasValues};
ghost use Rattle.smv_evaluation.specs.EvaluableModels.{IsEvaluable, CanBeReplayed, IsCondition};
ghost use Rattle.smv_evaluation.specs.Replay.{ended, replayed_from, replayed, IsReplayed};
ghost use Rattle.smv_language.specs.NumberedValues.{told_trace};

use crate::conditions::{first_holds, step_holds};
use crate::operate::is_true;
use crate::table::Table;
use crate::values::value_in;
use base_values::{MomentList, Valuation};
use smv_language::Expr;
use smv_language::model::{Flat, FlatModel};
use smv_types::Typed;
use std::mem::swap;

/// What becomes of a list of moments: it is a trace that reaches the top event; it is one, and the event is
/// FALSE at its last moment; its first moment breaks a condition; or the moment of this number, from 0, is
/// the first that breaks one or that no step leads to.
#[derive(Clone, Copy, Debug, PartialEq, Eq)]
pub enum Replayed {
    Reaches,
    NoTop,
    BadFirst,
    BadStep(u32),
}

/// Goes over the moments in order, with a table for the moment before and one for the next. Takes no memory.
pub fn replay(
    t: &Typed,
    trace: &MomentList,
    top: &Expr<Flat>,
    now: &mut Table,
    next: &mut Table,
) -> Replayed
    requires model { IsEvaluable (model_tree t.now.model) }
    requires trace { CanBeReplayed (model_tree t.now.model) trace.now }
    requires top { IsCondition (model_tree t.now.model) (flat_tree top.now) }
    requires room_now { HasRoom t.now.model now.old }
    requires room_next { HasRoom t.now.model next.old }
    ensures answer { IsReplayed (model_tree t.now.model) (flat_tree top.now) (told_trace t.now.model.symbols trace.now) result }
    ensures room_now { HasRoom t.now.model now.new }
    ensures room_next { HasRoom t.now.model next.new }
{
    replay_in(t.model(), trace.as_slice(), top, now, next)
}

/// Goes over the moments, of which there is one at least, with these tables.
fn replay_in(
    model: &FlatModel,
    moments: &[Valuation],
    top: &Expr<Flat>,
    now: &mut Table,
    next: &mut Table,
) -> Replayed
    requires some { 0 < length moments.now }
    requires few { length moments.now < 2 ^ 32 }
    requires lengths { All (HasValues model.now) moments.now }
    requires room_now { HasRoom model.now now.old }
    requires room_next { HasRoom model.now next.old }
    ensures answer { result ≡ replayed model.now (tree_of top.now) moments.now }
    ensures room_now { HasRoom model.now now.new }
    ensures room_next { HasRoom model.now next.new }
{
    now.write(model, &moments[0]);
    if !first_holds(model, now) {
        return Replayed::BadFirst;
    }
    replay_rest(model, moments, top, now, next)
}

/// Goes over the moments after the first, whose values are in the first table.
#[tactic(auto, using(crate::proofs::LoopLaws::replay_more))]
fn replay_rest(
    model: &FlatModel,
    moments: &[Valuation],
    top: &Expr<Flat>,
    now: &mut Table,
    next: &mut Table,
) -> Replayed
    requires few { length moments.now < 2 ^ 32 }
    requires lengths { All (HasValues model.now) moments.now }
    requires room_now { HasRoom model.now now.old }
    requires room_next { HasRoom model.now next.old }
    ensures answer { result ≡ replayed_from model.now (tree_of top.now) now.old 1 (drop 1 moments.now) }
    ensures room_now { HasRoom model.now now.new }
    ensures room_next { HasRoom model.now next.new }
{
    for i in 1..moments.len() {
        if !goes_on(model, &moments[i], now, next) {
            return Replayed::BadStep(i as u32);
        }
    }
    at_end(top, now)
}

/// Whether a moment may come after the one in the first table, which then has the later one.
fn goes_on(model: &FlatModel, v: &Valuation, now: &mut Table, next: &mut Table) -> bool
    requires length { HasValues model.now v.now }
    requires room_now { HasRoom model.now now.old }
    requires room_next { HasRoom model.now next.old }
    ensures result { result ≡ step_holds model.now now.old (filled model.now v.now) }
    ensures filled { now.new ≡ filled model.now v.now }
    ensures room_now { HasRoom model.now now.new }
    ensures room_next { HasRoom model.now next.new }
{
    next.write(model, v);
    let holds = step_holds(model, now, next);
    swap(now, next);
    holds
}

/// What becomes of a trace whose last moment is in the table.
fn at_end(top: &Expr<Flat>, last: &Table) -> Replayed
    ensures { result ≡ ended (tree_of top.now) last.now }
{
    if is_true(value_in(top, last, last)) {
        Replayed::Reaches
    } else {
        Replayed::NoTop
    }
}
