//! The rules of guards and Follows expressions, tried by instances, then items. Each expression is judged
//! as a DEFINE of its module would be: first by the rules of names, then by those of kinds.
ghost use Rattle.std.specs.Prelude.{◌≡◌, ◌≢◌, ℕ, IfErr, IfOk, OnOk, Some, None, MatchOption, map, option_copied, option_map};
ghost use Rattle.smv_language.specs.ProgramTree.{DeclaredTree, program_tree, declared_tree};
ghost use Rattle.fault_instructions.specs.Instructions.{effect_tree, guard_tree, mode_tree};
ghost use Rattle.smv_type_laws.specs.ExpressionKinds.{truth_class, number_class, symbol_class, same_class};
ghost use Rattle.smv_language.specs.Flat.{FlatInstance};
ghost use Rattle.smv_flat_laws.specs.Rules.{IsAccepted};
ghost use Rattle.smv_scope.specs.Faults.{rule_of};
ghost use Rattle.smv_language.specs.ModelTree.{flat_tree, model_tree};
ghost use Rattle.smv_flat.specs.ScopeOf.{IsScopeOf};
ghost use Rattle.smv_types.specs.Answers.{told_first, told_rules};
ghost use Rattle.smv_types.specs.Calls.{fault_of, shown};
ghost use Rattle.smv_types.specs.Rows.{lower, lesser_rule, unless};
ghost use Rattle.smv_types.specs.declared.fault.TypeRule.TheVariants as type_rules;
ghost use Rattle.fault_rules.specs.PlacedSlices.{seen_placed};
ghost use Rattle.fault_rules.specs.declared.fault.InstructionRule.TheVariants as weave_rules;
ghost use Rattle.fault_extend_laws.specs.Expressions.{followed, broken_by, kind_rule, KeepsNames};
ghost use Rattle.fault_extend_laws.specs.SliceUses.{uses_of_slices};
ghost use Rattle.fault_extend.specs.GuardJudgement.{program_in, use_at, IsSomeKept, IsSomeFault, told_number, kind_of_form, class_shown};
ghost use Rattle.fault_extend.specs.GuardJudgement.{fits_class, member_class, judged_by, lower_fault, both_forms};
ghost use Rattle.fault_extend.specs.Nominals.{WhereFlat, IsInstanceAt, all_uses, uses_of_placed, IsUseKept, AreUsesKept, IsUseBroken};
ghost use Rattle.fault_extend.specs.Nominals.{IsFirstOfUses, written, IsFormAt};
ghost use Rattle.fault_extend.specs.FirstRefusal.{IsOfExpressions, IsFromExpressions, IsWant, IsWantOr};
ghost use Rattle.fault_extend.specs.declared.fault.WeaveCause.TheVariants as causes;
ghost use Rattle.smv_type_laws.specs.DeclaredKinds.{class_declared};

use crate::fault::{WeaveCause, WeaveFault};
use base_values::{Dotted, Name};
use fault_instructions::{Effect, ModeRule};
use fault_rules::{Placed, item_after};
use smv_flat::{FlatFault, Scope};
use smv_language::model::Flat;
use smv_language::{Declared, Expr, Member, Program};
use smv_types::{Kind, TypeFault, TypeRule, Typed, check_value};
use std::alloc::Global;

/// A program that breaks no rule, and its flat model with kinds.
#[derive(Clone, Copy)]
pub(crate) struct Nominal<'a> {
    pub program: &'a Program,
    pub typed: &'a Typed,
}

/// What is judged of a mode, over the flat model: what it follows and its guard.
#[derive(Drop)]
struct Resolved {
    follows: Option<Expr<Flat>>,
    guard: Option<Expr<Flat>>,
}

/// The rule of kinds that an expression breaks, and its kind where it breaks none.
#[derive(Clone, Copy)]
struct GuardVerdict {
    rule: Option<TypeRule>,
    kind: Option<Kind>,
}

/// Tells the first mode whose guard or Follows expression breaks a rule at some instance.
pub(crate) fn judge_guards(
    alloc: Global,
    nominal: Nominal<'_>,
    slices: &[Placed<'_>],
) -> Result<(), WeaveFault>
    ensures want { IfErr result IsFromExpressions }
    ensures kept { WhereFlat nominal.entry (OnOk result (AreUsesKept nominal.entry (all_uses nominal.entry (map seen_placed slices.now)))) }
    ensures told { WhereFlat nominal.entry
        (IfErr result (IsFirstOfUses nominal.entry (all_uses nominal.entry (map seen_placed slices.now)))) }
{
    let scope = scope_of(alloc, nominal.program)?;
    judge_instances(alloc, nominal, &scope, slices)
}

/// Judges the slices at all instances.
fn judge_instances(
    alloc: Global,
    nominal: Nominal<'_>,
    scope: &Scope<'_>,
    slices: &[Placed<'_>],
) -> Result<(), WeaveFault>
    requires scope { IsScopeOf (program_in nominal) scope.now }
    ensures want { IfErr result IsFromExpressions }
    ensures kept { WhereFlat nominal.entry (OnOk result (AreUsesKept nominal.entry (all_uses nominal.entry (map seen_placed slices.now)))) }
    ensures told { WhereFlat nominal.entry
        (IfErr result (IsFirstOfUses nominal.entry (all_uses nominal.entry (map seen_placed slices.now)))) }
{
    let mut number = 0;
    for instance in nominal.typed.model().instances.as_slice() {
        judge_instance(alloc, nominal, scope, number, &instance.module, slices)?;
        number = item_after(number)?;
    }
    Ok(())
}

/// The tables of the program, for expressions at its instances.
fn scope_of<'a>(alloc: Global, program: &'a Program) -> Result<Scope<'a>, WeaveFault>
    ensures scope { IfOk result (IsScopeOf (program_tree program.now)) }
    ensures want { IfErr result IsFromExpressions }
    ensures memory { IsAccepted (program_tree program.now) → IfErr result IsWant }
{
    match Scope::of_program(alloc, program) {
        Ok(scope) => Ok(scope),
        Err(fault) => Err(WeaveFault {
            cause: flat_cause(fault),
            item: 0,
        }),
    }
}

/// Judges the slices of a module at its instance of this number.
fn judge_instance(
    alloc: Global,
    nominal: Nominal<'_>,
    scope: &Scope<'_>,
    instance: u32,
    module: &Name,
    slices: &[Placed<'_>],
) -> Result<(), WeaveFault>
    requires scope { IsScopeOf (program_in nominal) scope.now }
    ensures want { IfErr result IsFromExpressions }
    ensures kept { (at : FlatInstance) → IsInstanceAt nominal.entry «instance» at →
        at.module_name ≡ «module».now → OnOk result (AreUsesKept nominal.entry (uses_of_slices (map seen_placed slices.now) at)) }
    ensures told { (at : FlatInstance) → IsInstanceAt nominal.entry «instance» at →
        at.module_name ≡ «module».now → IfErr result (IsFirstOfUses nominal.entry (uses_of_slices (map seen_placed slices.now) at)) }
{
    for placed in slices {
        if placed.owner.is_same(module) {
            judge_slice(alloc, nominal, scope, instance, *placed)?;
        }
    }
    Ok(())
}

/// Judges the modes of a slice at an instance of its module.
fn judge_slice(
    alloc: Global,
    nominal: Nominal<'_>,
    scope: &Scope<'_>,
    instance: u32,
    placed: Placed<'_>,
) -> Result<(), WeaveFault>
    requires scope { IsScopeOf (program_in nominal) scope.now }
    ensures want { IfErr result IsFromExpressions }
    ensures kept { (at : FlatInstance) → IsInstanceAt nominal.entry «instance» at →
        OnOk result (AreUsesKept nominal.entry (uses_of_placed placed.entry at)) }
    ensures told { (at : FlatInstance) → IsInstanceAt nominal.entry «instance» at →
        IfErr result (IsFirstOfUses nominal.entry (uses_of_placed placed.entry at)) }
{
    let mut item = placed.item;
    for mode in placed.slice.modes.as_slice() {
        item = item_after(item)?;
        match judge_mode(alloc, nominal, scope, instance, placed.declared, mode) {
            Ok(()) => {}
            Err(cause) => return Err(WeaveFault { cause, item }),
        }
    }
    Ok(())
}

/// The first rule that a mode's expressions break at an instance. Of two expressions the rules of names
/// come first, and then those of kinds.
fn judge_mode(
    alloc: Global,
    nominal: Nominal<'_>,
    scope: &Scope<'_>,
    instance: u32,
    declared: &Declared,
    mode: &ModeRule,
) -> Result<(), WeaveCause>
    requires scope { IsScopeOf (program_in nominal) scope.now }
    ensures want { IfErr result IsOfExpressions }
    ensures kept { (at : FlatInstance) (n : ℕ) → IsInstanceAt nominal.entry «instance» at →
        OnOk result (IsUseKept nominal.entry (use_at at.place (declared_tree declared.now) (mode_tree mode.now) n)) }
    ensures told { (at : FlatInstance) (n : ℕ) → IsInstanceAt nominal.entry «instance» at →
        IfErr result (λ cause. IsWantOr cause
        (IsUseBroken nominal.entry (use_at at.place (declared_tree declared.now) (mode_tree mode.now) n))) }
{
    let resolved = resolve_mode(alloc, nominal, scope, instance, mode)?;
    match first_of_kinds(nominal.typed, &resolved, declared) {
        Some(rule) => Err(kind_fault(rule)),
        None => Ok(()),
    }
}

/// The mode's expressions over the flat model, or the first rule of names that one of them breaks.
fn resolve_mode(
    alloc: Global,
    nominal: Nominal<'_>,
    scope: &Scope<'_>,
    instance: u32,
    mode: &ModeRule,
) -> Result<Resolved, WeaveCause>
    requires scope { IsScopeOf (program_in nominal) scope.now }
    ensures want { IfErr result IsOfExpressions }
    ensures follows { (at : FlatInstance) → IsInstanceAt nominal.entry «instance» at →
        IfOk result (λ r. IsFormAt nominal.entry at (followed (effect_tree mode.now.effect)) r.follows) }
    ensures guard { (at : FlatInstance) → IsInstanceAt nominal.entry «instance» at →
        IfOk result (λ r. IsFormAt nominal.entry at (guard_tree mode.now.guard) r.guard) }
    ensures kept { (at : FlatInstance) (type : DeclaredTree) (n : ℕ) → IsInstanceAt nominal.entry «instance» at →
        OnOk result (KeepsNames (program_in nominal.entry) (use_at at.place type (mode_tree mode.now) n)) }
    ensures told { (at : FlatInstance) (type : DeclaredTree) (n : ℕ) → IsInstanceAt nominal.entry «instance» at →
        IfErr result (λ cause. IsWantOr cause (IsUseBroken nominal.entry (use_at at.place type (mode_tree mode.now) n))) }
{
    let follows = resolve(
        alloc,
        nominal,
        scope,
        instance,
        false,
        follows_of(&mode.effect),
    );
    let guard = resolve(alloc, nominal, scope, instance, true, mode.guard.as_ref());
    match both_of(follows, guard) {
        Ok(resolved) => Ok(resolved),
        Err(fault) => Err(flat_cause(fault)),
    }
}

/// Both expressions, or the fault of one, or the lower of two.
fn both_of(
    follows: Result<Option<Expr<Flat>>, FlatFault>,
    guard: Result<Option<Expr<Flat>>, FlatFault>,
) -> Result<Resolved, FlatFault>
    ensures { result ≡ both_forms follows guard }
{
    match (follows, guard) {
        (Ok(follows), Ok(guard)) => Ok(Resolved { follows, guard }),
        (Err(fault), Ok(_)) => Err(fault),
        (Ok(_), Err(fault)) => Err(fault),
        (Err(first), Err(second)) => Err(lower_flat(first, second)),
    }
}

/// An expression at an instance, where there is one.
fn resolve(
    alloc: Global,
    nominal: Nominal<'_>,
    scope: &Scope<'_>,
    instance: u32,
    inputs: bool,
    e: Option<&Expr<Dotted>>,
) -> Result<Option<Expr<Flat>>, FlatFault>
    requires scope { IsScopeOf (program_in nominal) scope.now }
    ensures form { (at : FlatInstance) → IsInstanceAt nominal.entry «instance» at →
        IfOk result (IsFormAt nominal.entry at (written e.entry)) }
    ensures kept { (at : FlatInstance) → IsInstanceAt nominal.entry «instance» at →
        OnOk result (IsSomeKept (program_in nominal.entry) at.place inputs (written e.entry)) }
    ensures told { (at : FlatInstance) → IsInstanceAt nominal.entry «instance» at →
        IfErr result (IsSomeFault (program_in nominal.entry) at.place inputs (written e.entry)) }
{
    let Some(e) = e else {
        return Ok(None);
    };
    let model = nominal.typed.model();
    let resolved = scope.resolve_at(alloc, model, instance, inputs, e)?;
    Ok(Some(resolved))
}

/// The expression that an effect follows.
fn follows_of(effect: &Effect) -> Option<&Expr<Dotted>>
    ensures { written result ≡ followed (effect_tree effect.now) }
{
    match effect {
        Effect::OfExpression(_, e) => Some(e),
        _ => None,
    }
}

/// The first rule of kinds that a mode's expressions break: the least of both, and else the demands on
/// their classes.
fn first_of_kinds(typed: &Typed, resolved: &Resolved, declared: &Declared) -> Option<TypeRule>
    ensures { result ≡ told_first (kind_rule (model_tree typed.now.model) (declared_tree declared.now)
        (option_map flat_tree resolved.now.follows) (option_map flat_tree resolved.now.guard)) }
{
    let follows = judged(typed, resolved.follows.as_ref());
    let guard = judged(typed, resolved.guard.as_ref());
    match lower_kind(follows.rule, guard.rule) {
        Some(rule) => Some(rule),
        None => demand(follows.kind, guard.kind, declared),
    }
}

/// The rule of kinds that an expression breaks, or its kind, where there is one.
fn judged(typed: &Typed, e: Option<&Expr<Flat>>) -> GuardVerdict
    ensures rule { result.rule ≡ told_rules (broken_by (model_tree typed.now.model) (option_map flat_tree (option_copied e.entry))) }
    ensures kind { result.rule ≡ None → result.kind
        ≡ option_map shown (kind_of_form (model_tree typed.now.model) (option_map flat_tree (option_copied e.entry))) }
{
    match e {
        Some(e) => of_answer(check_value(typed, e)),
        None => GuardVerdict {
            rule: None,
            kind: None,
        },
    }
}

/// What is answered of kinds, as a verdict.
fn of_answer(answer: Result<Kind, TypeFault>) -> GuardVerdict
    ensures { result ≡ judged_by answer }
{
    match answer {
        Ok(kind) => GuardVerdict {
            rule: None,
            kind: Some(kind),
        },
        Err(fault) => GuardVerdict {
            rule: Some(fault.rule),
            kind: None,
        },
    }
}

/// The demands on classes: what is followed has that of the variable, and a guard is a truth value.
fn demand(follows: Option<Kind>, guard: Option<Kind>, declared: &Declared) -> Option<TypeRule>
    ensures { result ≡ lower (unless (fits_class follows (class_declared (declared_tree declared.now))) type_rules.Mismatch)
        (unless (fits_class guard truth_class) type_rules.NotBoolean) }
{
    if !follows_fits(follows, declared) {
        return Some(TypeRule::Mismatch);
    }
    if !guard_fits(guard) {
        return Some(TypeRule::NotBoolean);
    }
    None
}

/// Whether the expression that is followed has the class of the variable.
fn follows_fits(kind: Option<Kind>, declared: &Declared) -> bool
    ensures { result ≡ fits_class kind (class_declared (declared_tree declared.now)) }
{
    match kind {
        Some(kind) => has_class(kind, declared),
        None => true,
    }
}

/// Whether the guard is a truth value.
fn guard_fits(kind: Option<Kind>) -> bool
    ensures { result ≡ fits_class kind truth_class }
{
    match kind {
        Some(kind) => is_truth(kind),
        None => true,
    }
}

/// Whether the kind has the class of the type.
fn has_class(kind: Kind, declared: &Declared) -> bool
    ensures { result ≡ same_class (class_shown kind) (class_declared (declared_tree declared.now)) }
{
    match declared {
        Declared::Boolean | Declared::Instance(_, _) => is_truth(kind),
        Declared::Range(_, _) => is_number(kind),
        Declared::Members(members) => has_class_of(kind, members.as_slice().first()),
    }
}

/// Whether the kind has the class of a type that lists this member first.
fn has_class_of(kind: Kind, first: Option<&Member>) -> bool
    ensures { result ≡ same_class (class_shown kind) (member_class (option_copied first.entry)) }
{
    match first {
        Some(Member::Number(_)) => is_number(kind),
        Some(Member::Symbol(_)) => is_symbol(kind),
        None => is_truth(kind),
    }
}

/// Whether the kind is that of truth values.
fn is_truth(kind: Kind) -> bool
    ensures { result ≡ same_class (class_shown kind) truth_class }
{
    match kind {
        Kind::Bool => true,
        Kind::Num(_, _) | Kind::Sym => false,
    }
}

/// Whether the kind is one of numbers.
fn is_number(kind: Kind) -> bool
    ensures { result ≡ same_class (class_shown kind) number_class }
{
    match kind {
        Kind::Num(_, _) => true,
        Kind::Bool | Kind::Sym => false,
    }
}

/// Whether the kind is that of symbols.
fn is_symbol(kind: Kind) -> bool
    ensures { result ≡ same_class (class_shown kind) symbol_class }
{
    match kind {
        Kind::Sym => true,
        Kind::Bool | Kind::Num(_, _) => false,
    }
}

/// A broken rule of kinds as a cause.
fn kind_fault(rule: TypeRule) -> WeaveCause
    ensures { result ≡ causes.Kinds (fault_of rule) }
{
    WeaveCause::Kinds(TypeFault { rule, item: 0 })
}

/// Want of memory is told as such, and never inside another fault.
pub(crate) fn flat_cause(fault: FlatFault) -> WeaveCause
    ensures { MatchOption (rule_of fault.rule) (result ≡ causes.Weave weave_rules.OutOfMemory) (λ r. result ≡ causes.Flat fault) }
{
    match fault.rule {
        smv_flat::FlatRule::OutOfMemory => WeaveCause::Weave(
            fault_rules::InstructionRule::OutOfMemory,
        ),
        _ => WeaveCause::Flat(fault),
    }
}

/// Want of memory is told as such, and never inside a fault of kinds.
pub(crate) fn type_cause(fault: TypeFault) -> WeaveCause
    ensures want { fault.rule ≡ type_rules.OutOfMemory → result ≡ causes.Weave weave_rules.OutOfMemory }
    ensures other { fault.rule ≢ type_rules.OutOfMemory → result ≡ causes.Kinds fault }
{
    match fault.rule {
        TypeRule::OutOfMemory => WeaveCause::Weave(fault_rules::InstructionRule::OutOfMemory),
        _ => WeaveCause::Kinds(fault),
    }
}

/// The fault with the lower rule. Where memory was wanting, which rule is the lowest is not known.
fn lower_flat(first: FlatFault, second: FlatFault) -> FlatFault
    ensures { result ≡ lower_fault first second }
{
    if flat_number(second.rule) < flat_number(first.rule) {
        second
    } else {
        first
    }
}

/// The number of a rule of names; want of memory comes before all.
fn flat_number(rule: smv_flat::FlatRule) -> u32
    ensures { result ≡ told_number (rule_of rule) }
{
    match rule {
        smv_flat::FlatRule::OutOfMemory => 0,
        _ => rule as u32,
    }
}

/// The rule with the lower number, where there is any.
fn lower_kind(first: Option<TypeRule>, second: Option<TypeRule>) -> Option<TypeRule>
    ensures { result ≡ lower first second }
{
    match (first, second) {
        (Some(first), Some(second)) => Some(lesser_kind(first, second)),
        (Some(first), None) => Some(first),
        (None, second) => second,
    }
}

/// Of two rules the one with the lower number.
fn lesser_kind(first: TypeRule, second: TypeRule) -> TypeRule
    ensures { result ≡ lesser_rule first second }
{
    if (second as u32) < (first as u32) {
        second
    } else {
        first
    }
}
