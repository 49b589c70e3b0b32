//! The flat model of a scene that breaks no rule. [`build`] is the main function.
//!
//! The definitions come first, in the order that `Needs` gives, so that each names earlier ones alone; then the
//! formulas of the first moment, of each moment and of each step, by instances and then items. Each formula keeps
//! the item and the instance that it comes from, for the faults that the layers above tell.
//!
//! `judge` has been called before and has refused nothing, so nothing can be refused here but for want of memory.
ghost use Rattle.std.specs.Prelude.{◌≡◌, Some, ◌++◌, ◌∷◌, [], true, length, map, flat_map, IfOk, IfErr, OnOk};
ghost use Rattle.smv_language.specs.declared.expr.Op.TheVariants as op;
ghost use Rattle.smv_language.specs.Tree.{binary, next_of, leaf as leaf_tree};
ghost use Rattle.smv_language.specs.Trace.{Each};
ghost use Rattle.smv_language.specs.ExpressionTree.{tree_of};
ghost use Rattle.smv_language.specs.declared.program.Moment.TheVariants.{First};
ghost use Rattle.smv_flat_laws.specs.Items.{instances_of};
ghost use Rattle.smv_flat_laws.specs.Model.{IsFlatOf, now_among, next_among, kept};
ghost use Rattle.smv_flat_laws.specs.Rules.{IsAccepted};
ghost use Rattle.smv_scope.specs.ClosedModels.{is_within, is_closed, are_closed, are_earlier, IsClosedModel};
ghost use Rattle.smv_scope.specs.Faults.{IsWant};
ghost use Rattle.smv_scope.specs.SceneTree.{program_of, items_at};
ghost use Rattle.smv_scope.specs.ItemTree.{item_tree};
ghost use Rattle.smv_language.specs.ModelTree.{instance_tree, leaf_of, model_tree};
ghost use Rattle.smv_flat.specs.ScopeOf.{IsAnyScope, AreVariablesOf};
ghost use Rattle.smv_flat.specs.ResolverOf.{leaf_in, told_tree};
ghost use Rattle.smv_flat.specs.FormulaLists.{told, asked_definition, IsReady, AreReady, conditions_asked, clause_tree, asked_condition};
ghost use Rattle.smv_flat.specs.FormulaLists.{is_variable_within, IsConditionKnown, AreConditionsKnown, asked_conditions, asked_items};
ghost use Rattle.smv_flat.specs.FormulaLists.{asked_from, instance_in, instance_told};

use crate::clauses::{AskedFormulas, ItemClause, clause_of};
use crate::flattening::Scope;
use crate::resolve::{ExpressionSource, resolve};
use base_values::{Dotted, Items, Name, OutOfMemory};
use smv_language::copy_model::{boxed, copy_path};
use smv_language::model::{
    Flat, FlatList, FlatModel, Formula, Instance, InstanceList, VariableList,
};
use smv_language::{Expr, Op};
use smv_scope::bounds::Bounds;
use smv_scope::fault::FlatFault;
use smv_scope::items::{Item, number_of};
use smv_scope::modules::ModuleNames;
use smv_scope::names::Scene;
use smv_scope::symbols::symbol_names;
use smv_scope::walk::{Meaning, Spot};
use std::alloc::Global;

/// The flat model of a scene with these variables.
pub(crate) fn build(
    alloc: Global,
    scope: &Scope<'_>,
    variables: VariableList,
) -> Result<FlatModel, FlatFault>
    requires scope { IsAnyScope scope.now }
    requires accepted { IsAccepted (program_of scope.now.scene) }
    requires variables { AreVariablesOf (program_of scope.now.scene) variables }
    ensures closed { IfOk result IsClosedModel }
    ensures flat { IfOk result (λ model. IsFlatOf (program_of scope.now.scene) (model_tree model)) }
    ensures want { IfErr result IsWant }
{
    let instances = instances_of(alloc, &scope.scene)?;
    let symbols = symbol_names(alloc, &scope.scene.symbols)?;
    let variable_count = variables.len();
    let symbol_count = symbols.len();
    let definitions = definitions_of(alloc, scope, variable_count, symbol_count)?;
    let bounds = Bounds {
        variables: variable_count,
        symbols: symbol_count,
        definitions: definitions.len(),
    };
    let init = formulas_of(alloc, scope, bounds, AskedFormulas::First)?;
    let invar = formulas_of(alloc, scope, bounds, AskedFormulas::Each)?;
    let mut trans = formulas_of(alloc, scope, bounds, AskedFormulas::Step)?;
    add_formulas(alloc, scope, bounds, AskedFormulas::Kept, &mut trans)?;
    Ok(FlatModel {
        instances,
        variables,
        definitions,
        symbols,
        init,
        invar,
        trans,
    })
}

/// The instances of a scene, each by its path and the name of its module.
fn instances_of(alloc: Global, scene: &Scene<'_>) -> Result<InstanceList, OutOfMemory>
    ensures { IfOk result (λ made. map instance_tree made ≡ flat_map (instance_told scene.now) scene.now.spots.items) }
{
    let mut instances = Items::new(alloc);
    for spot in scene.spots.as_slice() {
        add_instance(alloc, scene, spot, &mut instances)?;
    }
    Ok(instances)
}

/// Appends an instance of the scene; one whose module is not there has no entry.
fn add_instance(
    alloc: Global,
    scene: &Scene<'_>,
    spot: &Spot<'_>,
    instances: &mut InstanceList,
) -> Result<(), OutOfMemory>
    ensures { OnOk result (map instance_tree instances.new ≡ map instance_tree instances.old ++ instance_told scene.now spot.now) }
{
    match scene.modules.list.as_slice().get(spot.module) {
        Some(names) => push_instance(spot, names, instances),
        None => Ok(()),
    }
}

/// Appends an instance of a module.
fn push_instance(
    spot: &Spot<'_>,
    names: &ModuleNames<'_>,
    instances: &mut InstanceList,
) -> Result<(), OutOfMemory>
    ensures { OnOk result (map instance_tree instances.new ≡ map instance_tree instances.old ++ instance_in spot.now (Some names.now)) }
{
    let path = copy_path(&spot.path)?;
    let module = names.module.name.copy()?;
    instances.push(Instance { path, module })
}

/// The definitions in order, each over those before it.
fn definitions_of(
    alloc: Global,
    scope: &Scope<'_>,
    variables: usize,
    symbols: usize,
) -> Result<FlatList, FlatFault>
    requires ready { AreReady scope.now.scene scope.now.needs variables symbols }
    ensures told { IfOk result (λ made. map told made
        ≡ map (asked_definition scope.now.scene scope.now.needs) scope.now.needs.order.items) }
    ensures earlier { IfOk result (λ made. are_earlier variables symbols 0 made ≡ true) }
    ensures want { IfErr result IsWant }
{
    let mut made = Items::new(alloc);
    for place in scope.needs.order.as_slice() {
        let bounds = Bounds {
            variables,
            symbols,
            definitions: made.len(),
        };
        add_definition(alloc, scope, bounds, *place, &mut made)?;
    }
    Ok(made)
}

/// Appends the definition at a place of the scene, over those that stand before it.
fn add_definition(
    alloc: Global,
    scope: &Scope<'_>,
    bounds: Bounds,
    place: usize,
    made: &mut FlatList,
) -> Result<(), FlatFault>
    requires ready { IsReady scope.now.scene scope.now.needs bounds place }
    requires before { are_earlier bounds.variables bounds.symbols 0 made.old ≡ true }
    requires next { bounds.definitions ≡ length made.old }
    ensures told { OnOk result (map told made.new ≡ map told made.old ++ asked_definition scope.now.scene scope.now.needs place ∷ []) }
    ensures earlier { OnOk result (are_earlier bounds.variables bounds.symbols 0 made.new ≡ true) }
    ensures want { IfErr result IsWant }
{
    let Some(defined) = scope.scene.definitions.as_slice().get(place) else {
        unreachable!();
    };
    let source = ExpressionSource {
        spot: defined.spot,
        item: defined.item,
        bounds,
    };
    let value = resolve(alloc, scope, source, defined.value)?;
    Ok(push_definition(made, source, value)?)
}

/// Appends a definition over those that stand before it.
#[tactic(auto, using(smv_scope::proofs::ClosedLaws::earlier_push))]
fn push_definition(
    list: &mut FlatList,
    source: ExpressionSource,
    value: Expr<Flat>,
) -> Result<(), OutOfMemory>
    requires before { are_earlier source.bounds.variables source.bounds.symbols 0 list.old ≡ true }
    requires next { source.bounds.definitions ≡ length list.old }
    requires value { is_closed source.bounds value ≡ true }
    ensures told { OnOk result (map told list.new
        ≡ map told list.old ++ record { tree = told_tree value; item = source.item; number = source.spot } ∷ []) }
    ensures earlier { OnOk result (are_earlier source.bounds.variables source.bounds.symbols 0 list.new ≡ true) }
{
    list.push(formula(source, value)?)
}

/// An expression as a formula that knows where it comes from.
fn formula(source: ExpressionSource, value: Expr<Flat>) -> Result<Formula, OutOfMemory>
    ensures value { IfOk result (λ made. made.value ≡ value) }
    ensures told { IfOk result (λ made. told made ≡ record { tree = told_tree value; item = source.item; number = source.spot }) }
{
    Ok(Formula {
        value,
        item: source.item,
        instance: number_of(source.spot)?,
    })
}

/// The formulas that are asked for, by instances and then items.
fn formulas_of(
    alloc: Global,
    scope: &Scope<'_>,
    bounds: Bounds,
    asked: AskedFormulas,
) -> Result<FlatList, FlatFault>
    requires scope { IsAnyScope scope.now }
    requires known { AreConditionsKnown scope.now.scene scope.now.needs bounds (conditions_asked asked) }
    ensures told { IfOk result (λ made. map told made
        ≡ asked_from scope.now.scene scope.now.needs (conditions_asked asked) 0 (instances_of (program_of scope.now.scene))) }
    ensures closed { IfOk result (λ made. are_closed bounds made ≡ true) }
    ensures want { IfErr result IsWant }
{
    let mut made = Items::new(alloc);
    add_formulas(alloc, scope, bounds, asked, &mut made)?;
    Ok(made)
}

/// Adds the formulas that are asked for.
fn add_formulas(
    alloc: Global,
    scope: &Scope<'_>,
    bounds: Bounds,
    asked: AskedFormulas,
    list: &mut FlatList,
) -> Result<(), FlatFault>
    requires scope { IsAnyScope scope.now }
    requires known { AreConditionsKnown scope.now.scene scope.now.needs bounds (conditions_asked asked) }
    requires closed { are_closed bounds list.old ≡ true }
    ensures told { OnOk result (map told list.new ≡ map told list.old ++ asked_from scope.now.scene scope.now.needs
        (conditions_asked asked) 0 (instances_of (program_of scope.now.scene))) }
    ensures closed { OnOk result (are_closed bounds list.new ≡ true) }
    ensures want { IfErr result IsWant }
{
    for spot in 0..scope.scene.spots.len() {
        add_of_instance(alloc, scope, bounds, asked, spot, list)?;
    }
    Ok(())
}

/// Adds those of an instance.
fn add_of_instance(
    alloc: Global,
    scope: &Scope<'_>,
    bounds: Bounds,
    asked: AskedFormulas,
    spot: usize,
    list: &mut FlatList,
) -> Result<(), FlatFault>
    requires scope { IsAnyScope scope.now }
    requires known { AreConditionsKnown scope.now.scene scope.now.needs bounds (conditions_asked asked) }
    requires closed { are_closed bounds list.old ≡ true }
    ensures told { OnOk result (map told list.new ≡ map told list.old ++ asked_items scope.now.scene scope.now.needs
        (conditions_asked asked) spot (items_at (program_of scope.now.scene) spot)) }
    ensures closed { OnOk result (are_closed bounds list.new ≡ true) }
    ensures want { IfErr result IsWant }
{
    for place in 0..scope.scene.item_count(spot) {
        let Some((item, number)) = scope.scene.item_at(spot, place) else {
            continue;
        };
        let source = ExpressionSource {
            spot,
            item: number,
            bounds,
        };
        add_of_item(alloc, scope, source, asked, item, list)?;
    }
    Ok(())
}

/// Adds what an item asks.
fn add_of_item(
    alloc: Global,
    scope: &Scope<'_>,
    source: ExpressionSource,
    asked: AskedFormulas,
    item: Item<'_>,
    list: &mut FlatList,
) -> Result<(), FlatFault>
    requires known { Each (IsConditionKnown (leaf_in scope.now source.spot) source.bounds)
        (conditions_asked asked (item_tree item)) }
    requires closed { are_closed source.bounds list.old ≡ true }
    ensures told { OnOk result (map told list.new ≡ map told list.old ++ asked_conditions
        (leaf_in scope.now source.spot) source.spot source.item (conditions_asked asked (item_tree item.entry))) }
    ensures closed { OnOk result (are_closed source.bounds list.new ≡ true) }
    ensures want { IfErr result IsWant }
{
    match clause_of(asked, item) {
        Some(clause) => add_clause(alloc, scope, source, clause, list),
        None => Ok(()),
    }
}

/// Appends the formula of a condition.
fn add_clause(
    alloc: Global,
    scope: &Scope<'_>,
    source: ExpressionSource,
    clause: ItemClause<'_>,
    list: &mut FlatList,
) -> Result<(), FlatFault>
    requires known { IsConditionKnown (leaf_in scope.now source.spot) source.bounds (clause_tree clause) }
    requires closed { are_closed source.bounds list.old ≡ true }
    ensures told { OnOk result (map told list.new ≡ map told list.old ++ asked_conditions
        (leaf_in scope.now source.spot) source.spot source.item (clause_tree clause.entry ∷ [])) }
    ensures closed { OnOk result (are_closed source.bounds list.new ≡ true) }
    ensures want { IfErr result IsWant }
{
    let value = clause_value(alloc, scope, source, clause)?;
    Ok(push_formula(list, source, value)?)
}

/// Appends a formula.
#[tactic(auto, using(smv_scope::proofs::ClosedLaws::formulas_push))]
fn push_formula(
    list: &mut FlatList,
    source: ExpressionSource,
    value: Expr<Flat>,
) -> Result<(), OutOfMemory>
    requires old { are_closed source.bounds list.old ≡ true }
    requires value { is_closed source.bounds value ≡ true }
    ensures told { OnOk result (map told list.new
        ≡ map told list.old ++ record { tree = told_tree value; item = source.item; number = source.spot } ∷ []) }
    ensures closed { OnOk result (are_closed source.bounds list.new ≡ true) }
{
    list.push(formula(source, value)?)
}

/// The expression that a condition asks to be TRUE.
fn clause_value(
    alloc: Global,
    scope: &Scope<'_>,
    source: ExpressionSource,
    clause: ItemClause<'_>,
) -> Result<Expr<Flat>, FlatFault>
    requires known { IsConditionKnown (leaf_in scope.now source.spot) source.bounds (clause_tree clause) }
    ensures told { IfOk result (λ made. told_tree made
        ≡ asked_condition (leaf_in scope.now source.spot) (clause_tree clause.entry)) }
    ensures closed { IfOk result (λ made. is_closed source.bounds made ≡ true) }
    ensures want { IfErr result IsWant }
{
    match clause {
        ItemClause::Plain(e) => resolve(alloc, scope, source, e),
        ItemClause::Now(target, e) => now_value(alloc, scope, source, target, e),
        ItemClause::Next(target, e) => next_value(alloc, scope, source, target, e),
        ItemClause::Kept(target) => kept_value(alloc, scope, source, target),
    }
}

/// That a variable has now one of the values of an expression.
#[tactic(auto, using(smv_scope::proofs::ClosedLaws::closed_within))]
fn now_value(
    alloc: Global,
    scope: &Scope<'_>,
    source: ExpressionSource,
    target: &Name,
    e: &Expr<Dotted>,
) -> Result<Expr<Flat>, FlatFault>
    requires known { IsConditionKnown (leaf_in scope.now source.spot) source.bounds (now_among target.now (tree_of e.now)) }
    ensures told { IfOk result (λ made. told_tree made
        ≡ asked_condition (leaf_in scope.now source.spot) (now_among target.now (tree_of e.now))) }
    ensures closed { IfOk result (λ made. is_closed source.bounds made ≡ true) }
    ensures want { IfErr result IsWant }
{
    let target = target_of(scope, source, target);
    let value = resolve(alloc, scope, source, e)?;
    Ok(within(alloc, Expr::Leaf(target), value)?)
}

/// That a variable has next one of the values of an expression.
#[tactic(auto, using(smv_scope::proofs::ClosedLaws::closed_within))]
fn next_value(
    alloc: Global,
    scope: &Scope<'_>,
    source: ExpressionSource,
    target: &Name,
    e: &Expr<Dotted>,
) -> Result<Expr<Flat>, FlatFault>
    requires known { IsConditionKnown (leaf_in scope.now source.spot) source.bounds (next_among target.now (tree_of e.now)) }
    ensures told { IfOk result (λ made. told_tree made
        ≡ asked_condition (leaf_in scope.now source.spot) (next_among target.now (tree_of e.now))) }
    ensures closed { IfOk result (λ made. is_closed source.bounds made ≡ true) }
    ensures want { IfErr result IsWant }
{
    let target = target_of(scope, source, target);
    let value = resolve(alloc, scope, source, e)?;
    Ok(within_next(alloc, target, value)?)
}

/// That a variable has next the value that it has now.
#[tactic(auto, using(smv_scope::proofs::ClosedLaws::closed_within))]
fn kept_value(
    alloc: Global,
    scope: &Scope<'_>,
    source: ExpressionSource,
    target: &Name,
) -> Result<Expr<Flat>, FlatFault>
    requires known { is_variable_within source.bounds (leaf_in scope.now source.spot (target.now ∷ [])) ≡ true }
    ensures told { IfOk result (λ made. told_tree made ≡ asked_condition (leaf_in scope.now source.spot) (kept target.now)) }
    ensures closed { IfOk result (λ made. is_closed source.bounds made ≡ true) }
    ensures want { IfErr result IsWant }
{
    let target = target_of(scope, source, target);
    Ok(within_next(alloc, target, Expr::Leaf(target))?)
}

/// The variable that a condition speaks of.
fn target_of(scope: &Scope<'_>, source: ExpressionSource, target: &Name) -> Flat
    requires known { is_variable_within source.bounds (leaf_in scope.now source.spot (target.now ∷ [])) ≡ true }
    ensures leaf { Some (leaf_of result) ≡ leaf_in scope.now source.spot (target.now ∷ []) }
    ensures closed { is_within source.bounds result ≡ true }
{
    match scope.scene.part(source.spot, target, true) {
        Meaning::Variable { number, .. } => Flat::Var(number),
        _ => unreachable!(),
    }
}

/// That a target is among the values of an expression.
pub(crate) fn within(
    alloc: Global,
    target: Expr<Flat>,
    value: Expr<Flat>,
) -> Result<Expr<Flat>, OutOfMemory>
    ensures { IfOk result (λ made. tree_of made ≡ binary op.Within (tree_of target) (tree_of value)) }
{
    Ok(Expr::Binary(Op::Within, boxed(alloc, target)?, boxed(alloc, value)?))
}

/// That a variable is among the values of an expression at the moment after.
pub(crate) fn within_next(
    alloc: Global,
    target: Flat,
    value: Expr<Flat>,
) -> Result<Expr<Flat>, OutOfMemory>
    ensures { IfOk result (λ made. tree_of made ≡ binary op.Within (next_of (leaf_tree target)) (tree_of value)) }
{
    let next = Expr::Next(boxed(alloc, Expr::Leaf(target))?);
    within(alloc, next, value)
}
