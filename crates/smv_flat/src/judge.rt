//! The rules of names, targets and moments, tried by instances, then items, then numbers. [`judge`] is the main
//! function; each kind of item has a function `judge_..` that asks `values` what may be wrong, and one `rule_of_..`
//! that tells which rule that breaks first where the expression stands.
//!
//! An instance that repeats an earlier one ([`Likes`]) breaks what that one breaks, so it isn't tried.
//!
//! Whether a target is assigned twice is known from the assignments before: for each target of an instance [`Times`] has
//! the moments of which they speak.
ghost use Rattle.std.specs.Prelude.{◌≡◌, ◌∷◌, [], if◌then◌else◌, IfOk, IfErr, OnOk};
ghost use Rattle.std.specs.Prelude.{Some};
ghost use Rattle.smv_language.specs.ProgramTree.{Text, assignment_tree, decl_tree, declared_tree, define_tree};
ghost use Rattle.smv_language.specs.Texts.{same_text};
ghost use Rattle.smv_language.specs.Scope.{Role as RoleOf};
ghost use Rattle.smv_language.specs.Trace.{Each};
ghost use Rattle.smv_language.specs.ExpressionTree.{tree_of};
ghost use Rattle.smv_flat_laws.specs.Items.{a_declaration, a_definition, an_assignment, an_init, an_invar, a_trans};
ghost use Rattle.smv_scope.specs.ItemTree.{item_tree};
ghost use Rattle.smv_flat.specs.Assignments.{value_rule, assignment_rule, IsItemTold, IsPlaceTold, IsTargetTold, may_assign, local_meant};
ghost use Rattle.smv_flat.specs.Assignments.{is_met, times_of, with_moment};
ghost use Rattle.smv_flat_laws.specs.Rules.{IsKept, use_sites};
ghost use Rattle.smv_scope.specs.SceneTree.{program_of};
ghost use Rattle.smv_flat.specs.ScopeOf.{IsAnyScope};
ghost use Rattle.smv_flat.specs.Verdicts.{IsToldOf, IsToldHere, IsInstanceTold, AreActuals, instance_in};
ghost use Rattle.smv_scope.specs.Faults.{first_of, IsFaultOf};
ghost use Rattle.smv_scope.specs.declared.fault.FlatRule.TheVariants.{NoSuchName, DefineLoop, NextHere, InputHere};

use crate::flattening::Scope;
use crate::values::{JudgedActual, JudgedValue, is_on_meaning_circle, judge_actuals, judge_value};
use base_values::{Dotted, Name, OutOfMemory};
use indexmap::IndexMap;
use smv_language::model::Role;
use smv_language::{Assignment, Decl, Declared, Define, Expr, Moment};
use smv_scope::fault::{FlatFault, FlatRule};
use smv_scope::items::Item;
use smv_scope::likes::Likes;
use smv_scope::modules::Local;
use smv_scope::names::Scene;
use smv_scope::walk::Meaning;
use std::alloc::Global;

/// The moments of which the assignments so far speak, for one target.
#[derive(Clone, Copy)]
struct Times {
    always: bool,
    first: bool,
    after: bool,
}

/// The first fault of the items of all instances, or Ok where there is none.
pub(crate) fn judge(alloc: Global, scope: &Scope<'_>) -> Result<(), FlatFault>
    requires scope { IsAnyScope scope.now }
    ensures kept { IfOk result (λ _. Each (IsKept (program_of scope.now.scene)) (use_sites (program_of scope.now.scene))) }
    ensures fault { IfErr result (IsFaultOf (program_of scope.now.scene)) }
{
    let likes = Likes::of_scene(alloc, &scope.scene)?;
    for spot in 0..scope.scene.spots.len() {
        if likes.at(spot).is_some() {
            continue;
        }
        match judge_instance(alloc, scope, spot) {
            Ok(None) => {}
            Ok(Some(fault)) => return Err(fault),
            Err(OutOfMemory) => {
                return Err(FlatFault {
                    rule: FlatRule::OutOfMemory,
                    item: 0,
                });
            }
        }
    }
    Ok(())
}

/// The first fault of the items of an instance.
fn judge_instance(
    alloc: Global,
    scope: &Scope<'_>,
    spot: usize,
) -> Result<Option<FlatFault>, OutOfMemory>
    requires scope { IsAnyScope scope.now }
    ensures { IfOk result (IsInstanceTold (program_of scope.now.scene) spot) }
{
    let mut assigned = IndexMap::new(alloc);
    for place in 0..scope.scene.item_count(spot) {
        let fault = judge_place(alloc, scope, spot, place, &mut assigned)?;
        if let Some(fault) = fault {
            return Ok(Some(fault));
        }
    }
    Ok(None)
}

/// The fault of the item at a place of an instance, after the assignments that stand in `assigned`.
fn judge_place<'a>(
    alloc: Global,
    scope: &Scope<'a>,
    spot: usize,
    place: usize,
    assigned: &mut IndexMap<&'a [u8], Times>,
) -> Result<Option<FlatFault>, OutOfMemory>
    requires scope { IsAnyScope scope.now }
    ensures { IfOk result (IsPlaceTold (program_of scope.now.scene) spot place assigned.old.entries assigned.new.entries) }
{
    let Some((item, number)) = scope.scene.item_at(spot, place) else {
        return Ok(None);
    };
    let Some(rule) = judge_item(alloc, scope, spot, place, item, assigned)? else {
        return Ok(None);
    };
    Ok(Some(FlatFault { rule, item: number }))
}

/// The first rule that an item breaks at an instance.
fn judge_item<'a>(
    alloc: Global,
    scope: &Scope<'_>,
    spot: usize,
    place: usize,
    item: Item<'a>,
    assigned: &mut IndexMap<&'a [u8], Times>,
) -> Result<Option<FlatRule>, OutOfMemory>
    requires scope { IsAnyScope scope.now }
    ensures { IfOk result
        (IsItemTold (program_of scope.now.scene) spot place assigned.old.entries assigned.new.entries (item_tree item.entry)) }
{
    match item {
        Item::Declared(_, decl) => judge_declaration(alloc, scope, spot, place, decl),
        Item::Defined(define) => judge_definition(alloc, scope, spot, place, define),
        Item::Assigned(assignment) => {
            judge_assignment(alloc, scope, spot, place, assignment, assigned)
        }
        Item::Constants(_) => Ok(None),
        Item::Init(e) => judge_moment(alloc, scope, spot, e),
        Item::Invar(e) => judge_moment(alloc, scope, spot, e),
        Item::Trans(e) => judge_step(alloc, scope, spot, e),
    }
}

/// The first rule that the declaration of an instance breaks by its actuals; that of a variable breaks none.
fn judge_declaration(
    alloc: Global,
    scope: &Scope<'_>,
    spot: usize,
    place: usize,
    decl: &Decl,
) -> Result<Option<FlatRule>, OutOfMemory>
    requires scope { IsAnyScope scope.now }
    ensures { IfOk result (λ o. (role : RoleOf) →
        IsToldHere (program_of scope.now.scene) spot place (a_declaration role (decl_tree decl.now)) o) }
{
    let Some(actuals) = actuals_of(&decl.what) else {
        return Ok(None);
    };
    let Some(inner) = instance_in(scope.scene.own(spot, place)) else {
        return Ok(None);
    };
    let judged = judge_actuals(alloc, scope, spot, inner, actuals)?;
    Ok(rule_of_actuals(judged))
}

/// The actuals of the declaration of an instance.
fn actuals_of<'a>(what: &'a Declared) -> Option<&'a [Expr<Dotted>]>
    ensures { AreActuals (declared_tree what.now) result }
{
    match what {
        Declared::Instance(_, actuals) => Some(actuals.as_slice()),
        Declared::Boolean | Declared::Range(_, _) | Declared::Members(_) => None,
    }
}

/// The number of an instance that is meant.
fn instance_in(meaning: Meaning) -> Option<usize>
    ensures { result ≡ instance_in meaning }
{
    match meaning {
        Meaning::Instance(inner) => Some(inner),
        _ => None,
    }
}

/// The first rule that a define breaks at an instance.
fn judge_definition(
    alloc: Global,
    scope: &Scope<'_>,
    spot: usize,
    place: usize,
    define: &Define,
) -> Result<Option<FlatRule>, OutOfMemory>
    requires scope { IsAnyScope scope.now }
    ensures { IfOk result (IsToldHere (program_of scope.now.scene) spot place (a_definition (define_tree define.now))) }
{
    let judged = judge_value(alloc, scope, spot, &define.value)?;
    let circle = is_on_meaning_circle(&scope.needs, scope.scene.own(spot, place));
    Ok(rule_of_definition(judged, circle))
}

/// The first rule that an expression of one moment breaks at an instance.
fn judge_moment(
    alloc: Global,
    scope: &Scope<'_>,
    spot: usize,
    e: &Expr<Dotted>,
) -> Result<Option<FlatRule>, OutOfMemory>
    requires scope { IsAnyScope scope.now }
    ensures first { IfOk result (IsToldOf (program_of scope.now.scene) spot (an_init (tree_of e.now))) }
    ensures each { IfOk result (IsToldOf (program_of scope.now.scene) spot (an_invar (tree_of e.now))) }
{
    let judged = judge_value(alloc, scope, spot, e)?;
    Ok(rule_of_now(judged))
}

/// The first rule that an expression of a moment and the next one breaks at an instance.
fn judge_step(
    alloc: Global,
    scope: &Scope<'_>,
    spot: usize,
    e: &Expr<Dotted>,
) -> Result<Option<FlatRule>, OutOfMemory>
    requires scope { IsAnyScope scope.now }
    ensures { IfOk result (IsToldOf (program_of scope.now.scene) spot (a_trans (tree_of e.now))) }
{
    let judged = judge_value(alloc, scope, spot, e)?;
    Ok(rule_of_step(judged))
}

/// The first rule that the value of a define breaks.
fn rule_of_definition(value: JudgedValue, on_circle: bool) -> Option<FlatRule>
    ensures { result ≡ first_of ((value.no_value, NoSuchName) ∷ (on_circle, DefineLoop) ∷ (value.next, NextHere) ∷ []) }
{
    if value.no_value {
        Some(FlatRule::NoSuchName)
    } else if on_circle {
        Some(FlatRule::DefineLoop)
    } else if value.next {
        Some(FlatRule::NextHere)
    } else {
        None
    }
}

/// The first rule that the actuals of an instance break.
fn rule_of_actuals(actuals: JudgedActual) -> Option<FlatRule>
    ensures { result ≡ first_of ((actuals.no_value, NoSuchName) ∷ (actuals.circle, DefineLoop) ∷ (actuals.next, NextHere) ∷ []) }
{
    if actuals.no_value {
        Some(FlatRule::NoSuchName)
    } else if actuals.circle {
        Some(FlatRule::DefineLoop)
    } else if actuals.next {
        Some(FlatRule::NextHere)
    } else {
        None
    }
}

/// The first rule that a value breaks which speaks of one moment alone.
fn rule_of_now(now: JudgedValue) -> Option<FlatRule>
    ensures { result ≡ first_of ((now.no_value, NoSuchName) ∷ (now.next, NextHere) ∷ (now.input, InputHere) ∷ []) }
{
    if now.no_value {
        Some(FlatRule::NoSuchName)
    } else if now.next {
        Some(FlatRule::NextHere)
    } else if now.input {
        Some(FlatRule::InputHere)
    } else {
        None
    }
}

/// The first rule that a value breaks which speaks of a moment and the one after it.
fn rule_of_step(step: JudgedValue) -> Option<FlatRule>
    ensures { result ≡ first_of ((step.no_value, NoSuchName) ∷ (step.nested_next, NextHere) ∷ (step.next_input, InputHere) ∷ []) }
{
    if step.no_value {
        Some(FlatRule::NoSuchName)
    } else if step.nested_next {
        Some(FlatRule::NextHere)
    } else if step.next_input {
        Some(FlatRule::InputHere)
    } else {
        None
    }
}

/// The first rule that the value of an assignment breaks, by the moment of which it speaks.
fn rule_of_value(when: Moment, value: JudgedValue) -> Option<FlatRule>
    ensures { result ≡ value_rule when value }
{
    match when {
        Moment::Always | Moment::First => rule_of_now(value),
        Moment::After => rule_of_step(value),
    }
}

/// The first rule that an assignment breaks whose names and target are lawful; `met` says that an earlier
/// one speaks of the same time.
fn rule_of_assignment(met: bool, when: Moment, value: JudgedValue) -> Option<FlatRule>
    ensures { result ≡ assignment_rule met when value }
{
    if met {
        Some(FlatRule::DoubleAssign)
    } else {
        rule_of_value(when, value)
    }
}

/// The first rule that an assignment breaks at an instance, after those that stand in `assigned`.
fn judge_assignment<'a>(
    alloc: Global,
    scope: &Scope<'_>,
    spot: usize,
    place: usize,
    assignment: &'a Assignment,
    assigned: &mut IndexMap<&'a [u8], Times>,
) -> Result<Option<FlatRule>, OutOfMemory>
    requires scope { IsAnyScope scope.now }
    ensures { IfOk result
        (IsItemTold (program_of scope.now.scene) spot place assigned.old.entries assigned.new.entries
        (an_assignment (assignment_tree assignment.now))) }
{
    let judged = judge_value(alloc, scope, spot, &assignment.value)?;
    if judged.no_value {
        return Ok(Some(FlatRule::NoSuchName));
    }
    let Some(target) = target_of(&scope.scene, spot, assignment) else {
        return Ok(Some(FlatRule::NotATarget));
    };
    let met = note_assigned(assigned, target, assignment.when)?;
    Ok(rule_of_assignment(met, assignment.when, judged))
}

/// The target of an assignment, if it is a variable that may be assigned so.
fn target_of<'a>(scene: &Scene<'_>, spot: usize, assignment: &'a Assignment) -> Option<&'a Name>
    ensures { IsTargetTold scene.now spot assignment.now.target assignment.now.when result }
{
    let [target] = assignment.target.parts() else {
        return None;
    };
    if is_target(local_meaning(scene, spot, target), assignment.when) {
        Some(target)
    } else {
        None
    }
}

/// Whether a variable may be assigned: a state variable always, a frozen one at the first moment.
fn is_target(meaning: Meaning, when: Moment) -> bool
    ensures { result ≡ may_assign meaning when }
{
    match meaning {
        Meaning::Variable { role, .. } => match role {
            Role::State => true,
            Role::Frozen => match when {
                Moment::First => true,
                Moment::Always | Moment::After => false,
            },
            Role::Input => false,
        },
        _ => false,
    }
}

/// Notes an assignment. The answer says whether an earlier one speaks of the same time.
fn note_assigned<'a>(
    assigned: &mut IndexMap<&'a [u8], Times>,
    target: &'a Name,
    when: Moment,
) -> Result<bool, OutOfMemory>
    ensures met { IfOk result (λ met. met ≡ is_met (times_of assigned.old.entries target.now) when) }
    ensures noted { OnOk result ((x : Text) → times_of assigned.new.entries x
        ≡ (if same_text target.now x then with_moment (times_of assigned.old.entries target.now) when else times_of assigned.old.entries
        x)) }
{
    let times = times_at(assigned, target.text());
    note_times(assigned, target.text(), times.with(when))?;
    Ok(times.is_met(when))
}

/// The moments of which the assignments of a target speak.
fn times_at(assigned: &IndexMap<&[u8], Times>, target: &[u8]) -> Times
    ensures { result ≡ times_of assigned.now.entries target.now }
{
    match assigned.get(target) {
        Some(times) => *times,
        None => Times {
            always: false,
            first: false,
            after: false,
        },
    }
}

/// Notes the moments of which the assignments of a target speak.
fn note_times<'a>(
    assigned: &mut IndexMap<&'a [u8], Times>,
    target: &'a [u8],
    times: Times,
) -> Result<(), OutOfMemory>
    ensures { OnOk result ((x : Text) → times_of assigned.new.entries x
        ≡ (if same_text target.now x then times else times_of assigned.old.entries x)) }
{
    assigned.insert(target, times)?;
    Ok(())
}

impl Times {
    /// With one moment more.
    fn with(self, when: Moment) -> Times
        ensures { result ≡ with_moment self when }
    {
        match when {
            Moment::Always => Times {
                always: true,
                first: self.first,
                after: self.after,
            },
            Moment::First => Times {
                always: self.always,
                first: true,
                after: self.after,
            },
            Moment::After => Times {
                always: self.always,
                first: self.first,
                after: true,
            },
        }
    }

    /// Whether an assignment of this moment speaks of the same time as one of those.
    fn is_met(self, when: Moment) -> bool
        ensures { result ≡ is_met self when }
    {
        match when {
            Moment::Always => self.always || self.first || self.after,
            Moment::First => self.always || self.first,
            Moment::After => self.always || self.after,
        }
    }
}

/// What a name of an instance's own module declares or defines there; a formal is nothing of its own.
fn local_meaning(scene: &Scene<'_>, spot: usize, name: &Name) -> Meaning
    ensures { result ≡ local_meant scene.now spot name.now }
{
    match scene.local(spot, name) {
        Some(Local::Item(place)) => scene.own(spot, place),
        _ => Meaning::Nothing,
    }
}
