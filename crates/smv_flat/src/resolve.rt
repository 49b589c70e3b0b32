//! Written expressions over the numbers of a flat model. [`resolve`] is the main function: a copy of the tree whose names
//! are variables, definitions and symbols by their numbers. A name that has none is refused, so that what is made
//! is within its bounds even where nobody has judged the expression before.
ghost use Rattle.std.specs.Prelude.{◌≡◌, true, Some, IfOk, IfErr, map, slice_get};
ghost use Rattle.std.specs.List.{list_all, All};
ghost use Rattle.smv_scope.specs.ClosedModels.{is_within, is_closed, is_branch_closed};
ghost use Rattle.smv_flat.specs.Shape.{shape, branch_shapes};
ghost use Rattle.smv_scope.specs.Faults.{IsWant};
ghost use Rattle.smv_language.specs.ModelTree.{leaf_of};
ghost use Rattle.smv_flat.specs.ResolverOf.{leaf_in, leaf_placed, is_leaf_within, told_tree, asked_tree, told_branch, asked_branch};
ghost use Rattle.smv_flat.specs.ResolverOf.{IsKnown, IsBranchKnown};

use crate::flattening::Scope;
use base_values::{Dotted, Items};
use smv_language::copy_model::boxed;
use smv_language::model::Flat;
use smv_language::{BranchList, Expr, ExprList};
use smv_scope::bounds::Bounds;
use smv_scope::fault::{FlatFault, FlatRule};
use smv_scope::items::number_of;
use smv_scope::needs::Needs;
use smv_scope::walk::Meaning;
use std::alloc::Global;

/// Where an expression is written, and what it may name: the instance, the item that a fault tells, and
/// the numbers that are there.
#[derive(Clone, Copy)]
pub(crate) struct ExpressionSource {
    pub spot: usize,
    pub item: u32,
    pub bounds: Bounds,
}

/// An expression with each name replaced by what it stands for at an instance.
#[cycle(resolve)]
#[tactic(auto, using(crate::proofs::ResolvedLaws::resolved_rules))]
pub(crate) fn resolve(
    alloc: Global,
    scope: &Scope<'_>,
    source: ExpressionSource,
    e: &Expr<Dotted>,
) -> Result<Expr<Flat>, FlatFault>
    ensures resolved { IfOk result (λ made. told_tree made ≡ asked_tree (leaf_in scope.now source.spot) e.now) }
    ensures shape { IfOk result (λ made. shape made ≡ shape e.now) }
    ensures closed { IfOk result (λ made. is_closed source.bounds made ≡ true) }
    ensures want { IsKnown (leaf_in scope.now source.spot) source.bounds e.now → IfErr result IsWant }
{
    match e {
        Expr::Truth(b) => Ok(Expr::Truth(*b)),
        Expr::Number(n) => Ok(Expr::Number(*n)),
        Expr::Span(lo, hi) => Ok(Expr::Span(*lo, *hi)),
        Expr::Leaf(name) => Ok(Expr::Leaf(leaf(scope, source, name)?)),
        Expr::Not(a) => Ok(Expr::Not(resolve_boxed(alloc, scope, source, a)?)),
        Expr::Negate(a) => Ok(Expr::Negate(resolve_boxed(alloc, scope, source, a)?)),
        Expr::Next(a) => Ok(Expr::Next(resolve_boxed(alloc, scope, source, a)?)),
        Expr::Binary(op, a, b) => {
            let a = resolve_boxed(alloc, scope, source, a)?;
            Ok(Expr::Binary(*op, a, resolve_boxed(alloc, scope, source, b)?))
        }
        Expr::Choice(c, a, b) => {
            let c = resolve_boxed(alloc, scope, source, c)?;
            let a = resolve_boxed(alloc, scope, source, a)?;
            Ok(Expr::Choice(c, a, resolve_boxed(alloc, scope, source, b)?))
        }
        Expr::Case(branches) => {
            Ok(Expr::Case(resolve_branches(alloc, scope, source, branches.as_slice())?))
        }
        Expr::SetOf(members) => {
            Ok(Expr::SetOf(resolve_members(alloc, scope, source, members.as_slice())?))
        }
    }
}

/// An operand, resolved and boxed.
#[cycle(resolve)]
fn resolve_boxed(
    alloc: Global,
    scope: &Scope<'_>,
    source: ExpressionSource,
    e: &Expr<Dotted>,
) -> Result<Box<Expr<Flat>>, FlatFault>
    ensures resolved { IfOk result (λ made. told_tree made.value ≡ asked_tree (leaf_in scope.now source.spot) e.now) }
    ensures shape { IfOk result (λ made. shape made.value ≡ shape e.now) }
    ensures closed { IfOk result (λ made. is_closed source.bounds made.value ≡ true) }
    ensures want { IsKnown (leaf_in scope.now source.spot) source.bounds e.now → IfErr result IsWant }
{
    let made = resolve(alloc, scope, source, e)?;
    Ok(boxed(alloc, made)?)
}

/// The members of a set, resolved.
#[cycle(resolve)]
#[tactic(auto, using(smv_scope::proofs::ClosedLaws::all_push))]
fn resolve_members(
    alloc: Global,
    scope: &Scope<'_>,
    source: ExpressionSource,
    members: &[Expr<Dotted>],
) -> Result<ExprList<Flat>, FlatFault>
    ensures resolved { IfOk result (λ made. map told_tree made ≡ map (asked_tree (leaf_in scope.now source.spot)) members.now) }
    ensures shapes { IfOk result (λ made. map shape made ≡ map shape members.now) }
    ensures closed { IfOk result (λ made. list_all (is_closed source.bounds) made ≡ true) }
    ensures want { All (IsKnown (leaf_in scope.now source.spot) source.bounds) members.now → IfErr result IsWant }
{
    let mut made = Items::new(alloc);
    for member in members {
        made.push(resolve(alloc, scope, source, member)?)?;
    }
    Ok(made)
}

/// The branches of a case, resolved.
#[cycle(resolve)]
#[tactic(auto, using(smv_scope::proofs::ClosedLaws::all_push))]
fn resolve_branches(
    alloc: Global,
    scope: &Scope<'_>,
    source: ExpressionSource,
    branches: &[(Expr<Dotted>, Expr<Dotted>)],
) -> Result<BranchList<Flat>, FlatFault>
    ensures resolved { IfOk result (λ made. map told_branch made
        ≡ map (asked_branch (leaf_in scope.now source.spot)) branches.now) }
    ensures shapes { IfOk result (λ made. map branch_shapes made ≡ map branch_shapes branches.now) }
    ensures closed { IfOk result (λ made. list_all (is_branch_closed source.bounds) made ≡ true) }
    ensures want { All (IsBranchKnown (leaf_in scope.now source.spot) source.bounds) branches.now → IfErr result IsWant }
{
    let mut made = Items::new(alloc);
    for (condition, value) in branches {
        let condition = resolve(alloc, scope, source, condition)?;
        made.push((condition, resolve(alloc, scope, source, value)?))?;
    }
    Ok(made)
}

/// What a name of an expression stands for. A name without a value has nothing to stand for, and a
/// definition that does not stand before is one of a loop.
pub(crate) fn leaf(
    scope: &Scope<'_>,
    source: ExpressionSource,
    name: &Dotted,
) -> Result<Flat, FlatFault>
    ensures leaf { IfOk result (λ made. Some (leaf_of made) ≡ leaf_in scope.now source.spot name.now) }
    ensures closed { IfOk result (λ made. is_within source.bounds made ≡ true) }
    ensures want { is_leaf_within source.bounds (leaf_in scope.now source.spot name.now) ≡ true → IfErr result IsWant }
{
    match scope.scene.meaning(source.spot, name) {
        Meaning::Variable { number, .. } if (number as usize) < source.bounds.variables => {
            Ok(Flat::Var(number))
        }
        Meaning::Symbol(number) if (number as usize) < source.bounds.symbols => {
            Ok(Flat::Symbol(number))
        }
        Meaning::Definition(definition) => placed(&scope.needs, source, definition),
        _ => Err(FlatFault {
            rule: FlatRule::NoSuchName,
            item: source.item,
        }),
    }
}

/// The definition of a number of the scene's list, by its place in the order.
fn placed(needs: &Needs, source: ExpressionSource, definition: usize) -> Result<Flat, FlatFault>
    ensures leaf { IfOk result (λ made. Some (leaf_of made) ≡ leaf_placed (slice_get needs.now.places.items definition)) }
    ensures closed { IfOk result (λ made. is_within source.bounds made ≡ true) }
    ensures want { is_leaf_within source.bounds (leaf_placed (slice_get needs.now.places.items definition)) ≡ true → IfErr result IsWant }
{
    match needs.places.as_slice().get(definition) {
        Some(place) if *place < source.bounds.definitions => {
            Ok(Flat::Definition(number_of(*place)?))
        }
        _ => Err(FlatFault {
            rule: FlatRule::DefineLoop,
            item: source.item,
        }),
    }
}
