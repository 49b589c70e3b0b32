//! The public calls: a program's flat model ([`flatten`]), and expressions at one of its instances ([`resolve_top`],
//! [`resolve_at`], and [`Scope`] where many of them are read over one program).
//!
//! Each makes the tables of `smv_scope`, judges by `judge` or `values`, and builds by `build` or `resolve`. What breaks a
//! rule of names is told as a [`FlatFault`]: its item is one of the program, or 0 for an expression that is none of its parts.
ghost use Rattle.std.specs.Prelude.{◌≡◌, ◌∷◌, [], ◌↔◌, ◌&&◌, codes, not, true, false, None, IfOk, IfErr, OnOk, IsErrOf};
ghost use Rattle.smv_language.specs.ProgramTree.{ProgramTree, program_tree};
ghost use Rattle.smv_language.specs.Scope.{find_module};
ghost use Rattle.smv_scope.specs.declared.fault.FlatRule.TheVariants.{NoMain, NoSuchName, NextHere, InputHere};
ghost use Rattle.smv_flat.specs.Shape.{shape};
ghost use Rattle.smv_scope.specs.ClosedModels.{is_closed, bounds_of, IsClosedModel};
ghost use Rattle.smv_language.specs.ModelTree.{model_tree};
ghost use Rattle.smv_flat_laws.specs.FlatTrace.{NamesOwn};
ghost use Rattle.smv_scope.specs.Faults.{first_of, rule_of, IsFaultOf};
ghost use Rattle.std.specs.Prelude.{Some};
ghost use Rattle.smv_flat_laws.specs.Rules.{IsAccepted};
ghost use Rattle.smv_flat_laws.specs.Model.{IsFlatOf};
ghost use Rattle.smv_scope.specs.SceneTree.{module_from, program_of};
ghost use Rattle.smv_flat.specs.ScopeOf.{IsScopeOf, IsAnyScope, AreVariablesOf};
ghost use Rattle.smv_flat.specs.ResolvedAt.{ResolvesAt, HasNoNextAt, KeepsAt, TellsAt};
ghost use Rattle.smv_language.specs.Flat.{FlatModel as ModelTree};
ghost use Rattle.smv_flat_laws.specs.Looks.{ActualsMean};

use crate::build::build;
use crate::judge::judge;
use crate::resolve::{ExpressionSource, resolve};
use crate::values::{JudgedValue, judge_value};
use base_values::Dotted;
use smv_language::model::{Flat, FlatModel, VariableList};
use smv_language::{Expr, Program};
use smv_scope::bounds::Bounds;
use smv_scope::fault::{FlatFault, FlatRule};
use smv_scope::modules::{Modules, main_place};
use smv_scope::names::Scene;
use smv_scope::needs::Needs;
use smv_scope::walk::Walk;
use std::alloc::Global;

/// The tables of a program, for expressions at its instances: each costs its own size alone.
#[derive(Drop)]
pub struct Scope<'a> {
    pub(crate) scene: Scene<'a>,
    pub(crate) needs: Needs,
}

impl<'a> Scope<'a> {
    /// The scope of a program that keeps the rules of modules and of the walk.
    pub fn of_program(alloc: Global, p: &'a Program) -> Result<Scope<'a>, FlatFault>
        ensures scope { IfOk result (IsScopeOf (program_tree p.now)) }
        ensures fault { IfErr result (IsFaultOf (program_tree p.now)) }
    {
        let (scope, _variables) = scope_of(alloc, p)?;
        Ok(scope)
    }

    /// The scope of a program that breaks no rule: nothing but want of memory keeps it from being made.
    pub fn of_accepted(alloc: Global, p: &'a Program) -> Result<Scope<'a>, FlatFault>
        requires { IsAccepted (program_tree p.now) }
        ensures scope { IfOk result (IsScopeOf (program_tree p.now)) }
        ensures want { IfErr result (λ fault. rule_of fault.rule ≡ None) }
    {
        let scope = Scope::of_program(alloc, p)?;
        Ok(scope)
    }

    /// An expression as [`resolve_at`] resolves it.
    pub fn resolve_at(
        &self,
        alloc: Global,
        m: &FlatModel,
        instance: u32,
        inputs: bool,
        e: &Expr<Dotted>,
    ) -> Result<Expr<Flat>, FlatFault>
        requires scope { IsAnyScope self.now }
        ensures shape { IfOk result (λ made. shape made ≡ shape e.now) }
        ensures closed { IfOk result (λ made. is_closed (bounds_of m.now) made ≡ true) }
        ensures resolved { (p : ProgramTree) → IsScopeOf p self.now → ResolvesAt p (model_tree m.now) «instance» e.now result }
        ensures no_next { (p : ProgramTree) → IsScopeOf p self.now → HasNoNextAt p (model_tree m.now) «instance» e.now result }
        ensures kept { (p : ProgramTree) → IsScopeOf p self.now → KeepsAt p (model_tree m.now) «instance» inputs e.now result }
        ensures fault { (p : ProgramTree) → IsScopeOf p self.now → TellsAt p (model_tree m.now) «instance» inputs e.now result }
    {
        resolve_value(alloc, self, m, instance as usize, inputs, e)
    }
}

/// The scope of a program, and its variables.
fn scope_of<'a>(alloc: Global, p: &'a Program) -> Result<(Scope<'a>, VariableList), FlatFault>
    ensures scope { IfOk result (λ made. IsScopeOf (program_tree p.now) made.0) }
    ensures variables { IfOk result (λ made. AreVariablesOf (program_tree p.now) made.1) }
    ensures fault { IfErr result (IsFaultOf (program_tree p.now)) }
    ensures no_main { find_module (program_tree p.now) (codes "main") ≡ None → IsErrOf result (record { rule = NoMain; item = 0 }) }
{
    match main_place(p.modules.as_slice()) {
        Some(main) => scope_from(alloc, p, main),
        None => Err(FlatFault {
            rule: FlatRule::NoMain,
            item: 0,
        }),
    }
}

/// The same of a program whose module `main` stands at a place.
#[tactic(auto, using(crate::proofs::FlatFaults::want_fault))]
fn scope_from<'a>(
    alloc: Global,
    p: &'a Program,
    main: usize,
) -> Result<(Scope<'a>, VariableList), FlatFault>
    requires main { module_from 0 (program_tree p.now) (codes "main") ≡ Some main }
    ensures scope { IfOk result (λ made. IsScopeOf (program_tree p.now) made.0) }
    ensures variables { IfOk result (λ made. AreVariablesOf (program_tree p.now) made.1) }
    ensures fault { IfErr result (IsFaultOf (program_tree p.now)) }
{
    let modules = Modules::read(alloc, p, main)?;
    let (spots, variables) = Walk::whole(alloc, &modules)?.into_parts();
    let scene = Scene::of_instances(alloc, modules, spots)?;
    let needs = Needs::of_scene(alloc, &scene)?;
    Ok((Scope { scene, needs }, variables))
}

/// The flat model of a program, or the first rule that it breaks.
///
/// The rules are tried in three groups. First those of modules and of their names, in written order; then
/// those of instances and limits, along the walk over the instances; then all others, by instances, then
/// items. At one item the rule with the lowest number is told.
pub fn flatten(alloc: Global, p: &Program) -> Result<FlatModel, FlatFault>
    ensures closed { IfOk result IsClosedModel }
    ensures own { IfOk result (λ m. NamesOwn (model_tree m)) }
    ensures accepted { IfOk result (λ m. IsAccepted (program_tree p.now)) }
    ensures flat { IfOk result (λ m. IsFlatOf (program_tree p.now) (model_tree m)) }
    ensures alone { IfOk result (λ m. (k : ModelTree) → IsFlatOf (program_tree p.now) k → k ≡ model_tree m) }
    ensures meant { OnOk result (ActualsMean (program_tree p.now)) }
    ensures fault { IfErr result (IsFaultOf (program_tree p.now)) }
    ensures no_main { IsErrOf result (record { rule = NoMain; item = 0 }) ↔ (find_module (program_tree p.now) (codes "main") ≡ None) }
{
    let (scope, variables) = scope_of(alloc, p)?;
    model_of(alloc, &scope, variables)
}

/// The flat model of a scene with these variables, if no rule of its items is broken.
#[tactic(auto, using(crate::proofs::FlatFaults::want_fault))]
fn model_of(
    alloc: Global,
    scope: &Scope<'_>,
    variables: VariableList,
) -> Result<FlatModel, FlatFault>
    requires scope { IsAnyScope scope.now }
    requires variables { AreVariablesOf (program_of scope.now.scene) variables }
    ensures closed { IfOk result IsClosedModel }
    ensures accepted { IfOk result (λ m. IsAccepted (program_of scope.now.scene)) }
    ensures flat { IfOk result (λ m. IsFlatOf (program_of scope.now.scene) (model_tree m)) }
    ensures alone { IfOk result (λ m. (k : ModelTree) → IsFlatOf (program_of scope.now.scene) k → k ≡ model_tree m) }
    ensures meant { OnOk result (ActualsMean (program_of scope.now.scene)) }
    ensures fault { IfErr result (IsFaultOf (program_of scope.now.scene)) }
{
    judge(alloc, scope)?;
    build(alloc, scope, variables)
}

/// An expression at `main`, over the numbers of the program's flat model. It may have no `next` and read
/// no input. The fault's item is 0.
pub fn resolve_top(
    alloc: Global,
    p: &Program,
    m: &FlatModel,
    e: &Expr<Dotted>,
) -> Result<Expr<Flat>, FlatFault>
    ensures shape { IfOk result (λ made. shape made ≡ shape e.now) }
    ensures closed { IfOk result (λ made. is_closed (bounds_of m.now) made ≡ true) }
    ensures resolved { ResolvesAt (program_tree p.now) (model_tree m.now) 0 e.now result }
    ensures no_next { HasNoNextAt (program_tree p.now) (model_tree m.now) 0 e.now result }
    ensures kept { KeepsAt (program_tree p.now) (model_tree m.now) 0 false e.now result }
    ensures fault { TellsAt (program_tree p.now) (model_tree m.now) 0 false e.now result }
{
    resolve_at(alloc, p, m, 0, false, e)
}

/// An expression as the value of a DEFINE of an instance, over the numbers of the program's flat model. It
/// may have no `next`, and read inputs only where `inputs` says so. The fault's item is 0.
pub fn resolve_at(
    alloc: Global,
    p: &Program,
    m: &FlatModel,
    instance: u32,
    inputs: bool,
    e: &Expr<Dotted>,
) -> Result<Expr<Flat>, FlatFault>
    ensures shape { IfOk result (λ made. shape made ≡ shape e.now) }
    ensures closed { IfOk result (λ made. is_closed (bounds_of m.now) made ≡ true) }
    ensures resolved { ResolvesAt (program_tree p.now) (model_tree m.now) «instance» e.now result }
    ensures no_next { HasNoNextAt (program_tree p.now) (model_tree m.now) «instance» e.now result }
    ensures kept { KeepsAt (program_tree p.now) (model_tree m.now) «instance» inputs e.now result }
    ensures fault { TellsAt (program_tree p.now) (model_tree m.now) «instance» inputs e.now result }
{
    let scope = Scope::of_program(alloc, p)?;
    scope.resolve_at(alloc, m, instance, inputs, e)
}

/// An expression that is judged first.
fn resolve_value(
    alloc: Global,
    scope: &Scope<'_>,
    m: &FlatModel,
    spot: usize,
    inputs: bool,
    e: &Expr<Dotted>,
) -> Result<Expr<Flat>, FlatFault>
    requires scope { IsAnyScope scope.now }
    ensures shape { IfOk result (λ made. shape made ≡ shape e.now) }
    ensures closed { IfOk result (λ made. is_closed (bounds_of m.now) made ≡ true) }
    ensures resolved { ResolvesAt (program_of scope.now.scene) (model_tree m.now) spot e.now result }
    ensures no_next { HasNoNextAt (program_of scope.now.scene) (model_tree m.now) spot e.now result }
    ensures kept { KeepsAt (program_of scope.now.scene) (model_tree m.now) spot inputs e.now result }
    ensures fault { TellsAt (program_of scope.now.scene) (model_tree m.now) spot inputs e.now result }
{
    let judged = judge_value(alloc, scope, spot, e)?;
    match rule_at(judged, inputs) {
        Some(rule) => Err(FlatFault { rule, item: 0 }),
        None => resolve(alloc, scope, source_at(m, spot), e),
    }
}

/// The place of an expression that is no part of the program.
fn source_at(m: &FlatModel, spot: usize) -> ExpressionSource
    ensures { result ≡ record { spot = spot; item = 0; bounds = bounds_of m.now } }
{
    ExpressionSource {
        spot,
        item: 0,
        bounds: all_of(m),
    }
}

/// How many things an expression of a model can name.
fn all_of(m: &FlatModel) -> Bounds
    ensures { result ≡ bounds_of m.now }
{
    Bounds {
        variables: m.variables.len(),
        symbols: m.symbols.len(),
        definitions: m.definitions.len(),
    }
}

/// The first rule that an expression breaks as the value of a DEFINE.
fn rule_at(judged: JudgedValue, inputs: bool) -> Option<FlatRule>
    ensures { result ≡ first_of ((judged.no_value, NoSuchName) ∷ (judged.next, NextHere) ∷ (judged.input && not inputs, InputHere) ∷ []) }
{
    if judged.no_value {
        Some(FlatRule::NoSuchName)
    } else if judged.next {
        Some(FlatRule::NextHere)
    } else if judged.input && !inputs {
        Some(FlatRule::InputHere)
    } else {
        None
    }
}
