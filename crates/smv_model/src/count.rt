//! What the flat model of a program costs at least. [`least_cost`] is the main function: it counts the items of each module
//! once and adds for each instance what its module comes to, in the time of the text and the instances.
//!
//! A sum above the limit is one more than the limit from there on, so no sum wraps.
ghost use Rattle.std.specs.Prelude.{◌≡◌, ◌+◌, ◌<◌, min, length, map, All, IfOk};
ghost use Rattle.smv_language.specs.ExpressionTree.{tree_of};
ghost use Rattle.smv_language.specs.ModelTree.{role_of};
ghost use Rattle.smv_language.specs.ProgramTree.{program_tree, decl_tree, assignment_tree};
ghost use Rattle.smv_language.specs.Scope.{plain_name};
ghost use Rattle.smv_language.specs.Trace.{EachBoth};
ghost use Rattle.smv_flat_laws.specs.Items.{a_declaration, an_assignment, instances_of};
ghost use Rattle.smv_type_laws.specs.CountedItems.{actual_cost, item_cost, over_instances};
ghost use Rattle.smv_scope.specs.ItemTree.{item_tree};
ghost use Rattle.smv_scope.specs.SceneTree.{AreModules, IsSpotWalked};
ghost use Rattle.smv_model.specs.ModuleCosts.{actuals_cost, items_cost, kept_cost, module_cost, spots_cost};

use base_values::limits::MOST_COST;
use base_values::{Dotted, OutOfMemory};
use smv_language::model::Role;
use smv_language::{Assignment, Decl, Declared, Expr, Moment};
use smv_scope::items::{Item, Numbered};
use smv_scope::modules::{ModuleNames, Modules};
use smv_scope::names::plain_name_of;
use smv_scope::walk::Spot;
use smv_types::cost::{both, cost, declared_cost};
use std::alloc::Global;

/// What the flat model costs at least; one more than the limit stands for all that is greater.
pub fn least_cost(
    alloc: Global,
    modules: &Modules<'_>,
    spots: &[Spot<'_>],
) -> Result<u64, OutOfMemory>
    requires modules { AreModules modules.now }
    requires spots { EachBoth (IsSpotWalked (program_tree modules.now.program.now))
        (instances_of (program_tree modules.now.program.now)) spots.now }
    ensures { IfOk result (λ cost. cost ≡ min (over_instances item_cost (program_tree modules.now.program.now)) (MOST_COST + 1)) }
{
    let costs = module_costs(alloc, modules.list.as_slice())?;
    Ok(instances_cost(costs.as_slice(), spots))
}

/// What each module costs at an instance, by its place.
fn module_costs(alloc: Global, modules: &[ModuleNames<'_>]) -> Result<Vec<u64>, OutOfMemory>
    ensures { IfOk result (λ costs. costs.items ≡ map module_cost modules.now) }
{
    let mut costs = Vec::new(alloc);
    for names in modules {
        costs.push(items_cost(names.items.as_slice()))?;
    }
    Ok(costs)
}

/// The cost of all instances, by what their modules cost.
#[tactic(auto, using(crate::proofs::CountLaws::spots_cost_more))]
fn instances_cost(costs: &[u64], spots: &[Spot<'_>]) -> u64
    requires { All (λ spot. spot.«module» < length costs.now) spots.now }
    ensures { result ≡ min (spots_cost costs.now spots.now) (MOST_COST + 1) }
{
    let mut total = 0;
    for spot in spots {
        total = both(total, costs[spot.module]);
    }
    total
}

/// The cost of the items of a module.
#[tactic(auto, using(crate::proofs::CountLaws::items_cost_more))]
fn items_cost(items: &[Numbered<'_>]) -> u64
    ensures { result ≡ min (items_cost items.now) (MOST_COST + 1) }
{
    let mut total = 0;
    for numbered in items {
        total = both(total, item_cost(numbered.item));
    }
    total
}

/// The cost of an item at an instance, whichever that is. Constants cost nothing.
fn item_cost(item: Item<'_>) -> u64
    ensures { result ≡ min (item_cost (item_tree item.entry)) (MOST_COST + 1) }
{
    match item {
        Item::Declared(role, decl) => declaration_cost(role, decl),
        Item::Defined(define) => cost(&define.value),
        Item::Assigned(assignment) => assignment_cost(assignment),
        Item::Constants(_) => 0,
        Item::Init(e) | Item::Invar(e) | Item::Trans(e) => cost(e),
    }
}

/// The cost of a declaration: of a variable its type, and of an instance the actuals that become definitions.
fn declaration_cost(role: Role, decl: &Decl) -> u64
    ensures { result ≡ min (item_cost (a_declaration (role_of role) (decl_tree decl.now))) (MOST_COST + 1) }
{
    match &decl.what {
        Declared::Instance(_, actuals) => actuals_cost(actuals.as_slice()),
        Declared::Boolean | Declared::Range(_, _) | Declared::Members(_) => {
            both(declared_cost(&decl.what), kept_cost(role))
        }
    }
}

/// The cost of the condition that a frozen variable keeps its value, `next(x) in x`.
fn kept_cost(role: Role) -> u64
    ensures { result ≡ kept_cost (role_of role) }
{
    match role {
        Role::Frozen => 4,
        Role::State | Role::Input => 0,
    }
}

/// The cost of the actuals of an instance.
#[tactic(auto, using(crate::proofs::CountLaws::actuals_cost_more))]
fn actuals_cost(actuals: &[Expr<Dotted>]) -> u64
    ensures { result ≡ min (actuals_cost actuals.now) (MOST_COST + 1) }
{
    let mut total = 0;
    for actual in actuals {
        total = both(total, actual_cost(actual));
    }
    total
}

/// The cost of an actual. A name alone is no definition.
fn actual_cost(actual: &Expr<Dotted>) -> u64
    ensures { result ≡ min (actual_cost (plain_name (tree_of actual.now)) (tree_of actual.now)) (MOST_COST + 1) }
{
    match plain_name_of(actual) {
        Some(_) => 0,
        None => cost(actual),
    }
}

/// The cost of the condition that an assignment is, `x in e` or `next(x) in e`. A target with dots asks nothing.
fn assignment_cost(assignment: &Assignment) -> u64
    ensures { result ≡ min (item_cost (an_assignment (assignment_tree assignment.now))) (MOST_COST + 1) }
{
    if assignment.target.parts().len() != 1 {
        return 0;
    }
    let value = cost(&assignment.value);
    match assignment.when {
        Moment::First | Moment::Always => both(2, value),
        Moment::After => both(3, value),
    }
}
