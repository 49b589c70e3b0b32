//! The public calls: the woven program with its faults, from a program ([`weave`]), or from a program whose flat model and
//! kinds are known already ([`weave_typed`]).
ghost use Rattle.std.specs.Prelude.{◌≡◌, ◌≢◌, IfOk, IfErr, OnOk, map};
ghost use Rattle.smv_language.specs.ProgramTree.{program_tree};
ghost use Rattle.fault_instructions.specs.Instructions.{instruction_tree};
ghost use Rattle.fault_weave.specs.WovenProgram.{woven};
ghost use Rattle.fault_rules.specs.FaultCounts.{module_names};
ghost use Rattle.fault_rules.specs.Sites.{item_sites};
ghost use Rattle.fault_rules.specs.Rules.{broken_at};
ghost use Rattle.fault_rules.specs.CountLimits.{count_broken_at};
ghost use Rattle.fault_rules.specs.FirstBroken.{AllKept, IsFirstBroken};
ghost use Rattle.fault_rules.specs.declared.fault.InstructionRule.TheVariants as broken;
ghost use Rattle.fault_extend.specs.InstanceLaws.{HasInstancesInVar};
ghost use Rattle.fault_extend.specs.WovenFaults.{fault_tree, faults_at, AreInstancesOf};
ghost use Rattle.fault_weave.specs.Conservative.{IsExtensionOf};
ghost use Rattle.fault_weave.specs.Faults.{HasFaults};
ghost use Rattle.fault_instructions.specs.Weavable.{IsWeavable};
ghost use Rattle.smv_flat_laws.specs.Looks.{ActualsMean};
ghost use Rattle.smv_flat_laws.specs.Rules.{IsAccepted};
ghost use Rattle.smv_flat_laws.specs.Model.{IsFlatOf};
ghost use Rattle.smv_language.specs.ModelTree.{model_tree};
ghost use Rattle.smv_language.specs.Flat.{FlatModel};
ghost use Rattle.smv_type_laws.specs.Models.{IsTyped};
ghost use Rattle.fault_extend_laws.specs.Expressions.{AllUsesKept};
ghost use Rattle.fault_extend.specs.FirstRefusal.{modules_in, modules_at, KeepsRules, KeepsModelRules, IsTold, IsToldSomewhere, IsWant};

use crate::fault::{WeaveCause, WeaveFault};
use crate::faults::{Woven, woven_faults};
use crate::guards::{Nominal, flat_cause, judge_guards, type_cause};
use base_values::{Name, OutOfMemory};
use fault_instructions::Instructions;
use fault_rules::{
    RuleFault, extensions_have_negations, judge_counts, modules_have_negations, placed_slices,
};
use fault_weave::woven_program;
use smv_flat::flatten;
use smv_language::Program;
use smv_language::model::Instance;
use smv_types::{Typed, check_model};
use std::alloc::Global;

/// The program woven with the instructions, and its faults; or the first rule that the instructions break.
/// The program breaks no rule itself; where one does, that is told with item 0.
pub fn weave(alloc: Global, p: &Program, i: &Instructions) -> Result<Woven, WeaveFault>
    ensures program { IfOk result (λ w. program_tree w.program ≡ woven (program_tree p.now) (instruction_tree i.now)) }
    ensures weavable { OnOk result (IsWeavable (program_tree p.now) (instruction_tree i.now)) }
    ensures extension { IfOk result (λ w. IsExtensionOf (program_tree p.now) (instruction_tree i.now) (program_tree w.program)) }
    ensures faults { HasInstancesInVar (program_tree p.now) →
        IfOk result (λ w. HasFaults (program_tree p.now) (instruction_tree i.now) (map fault_tree w.faults)) }
    ensures kept { OnOk result (AllKept (broken_at (program_tree p.now)) (item_sites (instruction_tree i.now))) }
    ensures judged { (m : FlatModel) → IsFlatOf (program_tree p.now) m →
        OnOk result (KeepsModelRules (program_tree p.now) m (instruction_tree i.now)) }
    ensures told { IfErr result (IsToldSomewhere (program_tree p.now) (instruction_tree i.now)) }
    ensures exact { (m : FlatModel) → IsAccepted (program_tree p.now) → IsFlatOf (program_tree p.now) m →
        IsTyped m → IfErr result (IsTold (program_tree p.now) m (instruction_tree i.now) (modules_at m)) }
{
    let typed = typed_of(alloc, p)?;
    weave_typed(alloc, p, &typed, i)
}

/// The same, where the program's flat model with kinds is at hand.
pub fn weave_typed(
    alloc: Global,
    p: &Program,
    typed: &Typed,
    i: &Instructions,
) -> Result<Woven, WeaveFault>
    ensures program { IfOk result (λ w. program_tree w.program ≡ woven (program_tree p.now) (instruction_tree i.now)) }
    ensures weavable { IsAccepted (program_tree p.now) → IsFlatOf (program_tree p.now) (model_tree typed.now.model) →
        ActualsMean (program_tree p.now) → OnOk result (IsWeavable (program_tree p.now) (instruction_tree i.now)) }
    ensures faults { IfOk result (λ w. AreInstancesOf (program_tree p.now) typed.now.model.instances →
        HasFaults (program_tree p.now) (instruction_tree i.now) (map fault_tree w.faults)) }
    ensures listed { IfOk result (λ w. map fault_tree w.faults ≡ faults_at (instruction_tree i.now) typed.now.model.instances) }
    ensures kept { OnOk result (KeepsRules (program_tree p.now) (instruction_tree i.now) (modules_in typed.now.model.instances)) }
    ensures uses { IsAccepted (program_tree p.now) → IsFlatOf (program_tree p.now) (model_tree typed.now.model) →
        OnOk result (AllUsesKept (program_tree p.now) (model_tree typed.now.model) (instruction_tree i.now)) }
    ensures told { IfErr result
        (IsTold (program_tree p.now) (model_tree typed.now.model) (instruction_tree i.now) (modules_in typed.now.model.instances)) }
{
    judge(alloc, p, typed, i)?;
    let woven = made(alloc, p, typed, i)?;
    Ok(woven)
}

/// Tells the first rule that the instructions break.
fn judge(alloc: Global, p: &Program, typed: &Typed, i: &Instructions) -> Result<(), WeaveFault>
    ensures kept { OnOk result (KeepsRules (program_tree p.now) (instruction_tree i.now) (modules_in typed.now.model.instances)) }
    ensures uses { IsAccepted (program_tree p.now) → IsFlatOf (program_tree p.now) (model_tree typed.now.model) →
        OnOk result (AllUsesKept (program_tree p.now) (model_tree typed.now.model) (instruction_tree i.now)) }
    ensures told { IfErr result
        (IsTold (program_tree p.now) (model_tree typed.now.model) (instruction_tree i.now) (modules_in typed.now.model.instances)) }
{
    let slices = placed_slices(alloc, p, i)?;
    count(alloc, typed, i)?;
    judge_guards(alloc, Nominal { program: p, typed }, slices.as_slice())
}

/// Tells the first mode with which there are too many faults, or too many modes.
fn count(alloc: Global, typed: &Typed, i: &Instructions) -> Result<(), RuleFault>
    ensures kept { OnOk result (AllKept (count_broken_at (modules_in typed.now.model.instances)) (item_sites (instruction_tree i.now))) }
    ensures first { IfErr result (λ fault. fault.rule ≢ broken.OutOfMemory →
        IsFirstBroken (count_broken_at (modules_in typed.now.model.instances)) (item_sites (instruction_tree i.now))
        fault.rule fault.item) }
{
    let owners = modules_of(alloc, typed.model().instances.as_slice())?;
    judge_counts(owners.as_slice(), i)
}

/// The woven program and its faults, of instructions that break no rule.
fn made(alloc: Global, p: &Program, typed: &Typed, i: &Instructions) -> Result<Woven, OutOfMemory>
    ensures program { IfOk result (λ w. program_tree w.program ≡ woven (program_tree p.now) (instruction_tree i.now)) }
    ensures faults { IfOk result (λ w. map fault_tree w.faults ≡ faults_at (instruction_tree i.now) typed.now.model.instances) }
{
    let program = program_of(alloc, p, i)?;
    let faults = woven_faults(alloc, typed.model().instances.as_slice(), i)?;
    Ok(Woven { program, faults })
}

/// The module of each instance.
fn modules_of<'a>(alloc: Global, instances: &'a [Instance]) -> Result<Vec<&'a Name>, OutOfMemory>
    ensures { IfOk result (λ modules. module_names modules.items ≡ modules_in instances.now) }
{
    let mut modules = Vec::new(alloc);
    for instance in instances {
        modules.push(&instance.module)?;
    }
    Ok(modules)
}

/// The flat model of a program, with kinds. Of a program that breaks no rule it wants memory alone.
fn typed_of(alloc: Global, p: &Program) -> Result<Typed, WeaveFault>
    ensures told { IfErr result (λ fault. fault.item ≡ 0) }
    ensures accepted { OnOk result (IsAccepted (program_tree p.now)) }
    ensures flat { IfOk result (λ typed. IsFlatOf (program_tree p.now) (model_tree typed.model)) }
    ensures alone { IfOk result (λ typed. (m : FlatModel) → IsFlatOf (program_tree p.now) m → m ≡ model_tree typed.model) }
    ensures meant { OnOk result (ActualsMean (program_tree p.now)) }
    ensures want { (m : FlatModel) → IsAccepted (program_tree p.now) → IsFlatOf (program_tree p.now) m → IsTyped m → IfErr result IsWant }
{
    let model = match flatten(alloc, p) {
        Ok(model) => model,
        Err(fault) => return Err(of_program(flat_cause(fault))),
    };
    match check_model(alloc, model) {
        Ok(typed) => Ok(typed),
        Err(fault) => Err(of_program(type_cause(fault))),
    }
}

/// A fault of the program itself.
fn of_program(cause: WeaveCause) -> WeaveFault
    ensures { result ≡ record { cause = cause; item = 0 } }
{
    WeaveFault { cause, item: 0 }
}

/// The woven program. A number that no text spells counts as want of memory.
fn program_of(alloc: Global, p: &Program, i: &Instructions) -> Result<Program, OutOfMemory>
    ensures { IfOk result (λ made. program_tree made ≡ woven (program_tree p.now) (instruction_tree i.now)) }
{
    if !modules_have_negations(p.modules.as_slice()) {
        return Err(OutOfMemory);
    }
    if !extensions_have_negations(i.extensions.as_slice()) {
        return Err(OutOfMemory);
    }
    woven_program(alloc, p, i)
}
