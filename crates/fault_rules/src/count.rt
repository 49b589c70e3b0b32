//! The limits of faults and modes ([`judge_counts`]): one pass over the items counts, for each mode, the faults that it is
//! at the instances of its module, and tells the first mode with which there are too many.
ghost use Rattle.std.specs.Prelude.{◌≡◌, ◌≢◌, Ok, Err, IfOk, IfErr, OnOk, map};
ghost use Rattle.smv_language.specs.Texts.{same_text};
ghost use Rattle.fault_instructions.specs.Instructions.{instruction_tree, extension_tree, slice_tree, mode_tree};
ghost use Rattle.fault_rules.specs.Sites.{item_sites};
ghost use Rattle.fault_rules.specs.FirstBroken.{AllKept, IsFirstBroken};
ghost use Rattle.fault_rules.specs.CountLimits.{instances_of as instances_among, count_broken_at};
ghost use Rattle.fault_rules.specs.FaultCounts.{module_names, counted_mode, counted_modes, counted_slice, counted_slices};
ghost use Rattle.fault_rules.specs.FaultCounts.{counted_extension, counted_extensions};
ghost use Rattle.fault_rules.specs.declared.fault.InstructionRule.TheVariants as broken;

use crate::fault::{InstructionRule, RuleFault};
use crate::placed::item_after;
use base_values::Name;
use base_values::limits::{MOST_FAULTS, MOST_MODES};
use fault_instructions::{Extension, Instructions, ModeRule, Slice};

/// How far items are counted: the last item's number, and the number of faults up to it.
#[derive(Clone, Copy)]
pub(crate) struct Counted {
    pub(crate) item: u32,
    pub(crate) faults: usize,
}

/// Tells the first mode with which there are too many faults, or too many modes of its slice. A mode is a
/// fault at each instance of its module; `instances` has the module of each instance.
pub fn judge_counts(instances: &[&Name], i: &Instructions) -> Result<(), RuleFault>
    ensures kept { OnOk result (AllKept (count_broken_at (module_names instances.now)) (item_sites (instruction_tree i.now))) }
    ensures first { IfErr result (λ fault. fault.rule ≢ broken.OutOfMemory →
        IsFirstBroken (count_broken_at (module_names instances.now)) (item_sites (instruction_tree i.now)) fault.rule fault.item) }
{
    let none = Counted { item: 0, faults: 0 };
    count_extensions(instances, i.extensions.as_slice(), none)?;
    Ok(())
}

/// Counts the items and faults of extensions.
fn count_extensions(
    instances: &[&Name],
    extensions: &[Extension],
    before: Counted,
) -> Result<Counted, RuleFault>
    ensures counted { IfOk result (λ counted. counted_extensions (module_names instances.now) (map extension_tree extensions.now) before
        ≡ Ok counted) }
    ensures told { IfErr result (λ fault. fault.rule ≢ broken.OutOfMemory →
        counted_extensions (module_names instances.now) (map extension_tree extensions.now) before ≡ Err fault) }
{
    let mut counted = before;
    for extension in extensions {
        counted = count_extension(instances, extension, counted)?;
    }
    Ok(counted)
}

/// Counts an extension and its slices, at so many instances as its module has.
fn count_extension(
    instances: &[&Name],
    extension: &Extension,
    before: Counted,
) -> Result<Counted, RuleFault>
    ensures counted { IfOk result (λ counted. counted_extension (module_names instances.now) (extension_tree extension.now) before
        ≡ Ok counted) }
    ensures told { IfErr result (λ fault. fault.rule ≢ broken.OutOfMemory →
        counted_extension (module_names instances.now) (extension_tree extension.now) before ≡ Err fault) }
{
    let item = item_after(before.item)?;
    let faults = before.faults;
    let many = instances_of(instances, &extension.module);
    count_slices(many, extension.slices.as_slice(), Counted { item, faults })
}

/// The number of instances of a module.
fn instances_of(instances: &[&Name], module: &Name) -> usize
    ensures { result ≡ instances_among (module_names instances.now) «module».now }
{
    let mut many: usize = 0;
    for instance in instances {
        if has_text(*instance, module) {
            many += 1;
        }
    }
    many
}

/// Counts the items and faults of slices.
fn count_slices(instances: usize, slices: &[Slice], before: Counted) -> Result<Counted, RuleFault>
    ensures counted { IfOk result (λ counted. counted_slices instances (map slice_tree slices.now) before ≡ Ok counted) }
    ensures told { IfErr result (λ fault. fault.rule ≢ broken.OutOfMemory →
        counted_slices instances (map slice_tree slices.now) before ≡ Err fault) }
{
    let mut counted = before;
    for slice in slices {
        counted = count_slice(instances, slice, counted)?;
    }
    Ok(counted)
}

/// Counts a slice and its modes.
fn count_slice(instances: usize, slice: &Slice, before: Counted) -> Result<Counted, RuleFault>
    ensures counted { IfOk result (λ counted. counted_slice instances (slice_tree slice.now) before ≡ Ok counted) }
    ensures told { IfErr result (λ fault. fault.rule ≢ broken.OutOfMemory →
        counted_slice instances (slice_tree slice.now) before ≡ Err fault) }
{
    let item = item_after(before.item)?;
    let faults = before.faults;
    count_modes(instances, slice.modes.as_slice(), Counted { item, faults })
}

/// Counts the modes of a slice.
fn count_modes(instances: usize, modes: &[ModeRule], before: Counted) -> Result<Counted, RuleFault>
    ensures counted { IfOk result (λ counted. counted_modes instances 0 (map mode_tree modes.now) before ≡ Ok counted) }
    ensures told { IfErr result (λ fault. fault.rule ≢ broken.OutOfMemory →
        counted_modes instances 0 (map mode_tree modes.now) before ≡ Err fault) }
{
    let mut counted = before;
    for (place, _mode) in modes.iter().enumerate() {
        counted = count_mode(instances, place, counted)?;
    }
    Ok(counted)
}

/// Counts the mode at a place of its slice, counted from 0.
fn count_mode(instances: usize, place: usize, before: Counted) -> Result<Counted, RuleFault>
    ensures counted { IfOk result (λ counted. counted_mode instances place before ≡ Ok counted) }
    ensures told { IfErr result (λ fault. fault.rule ≢ broken.OutOfMemory → counted_mode instances place before ≡ Err fault) }
{
    let item = item_after(before.item)?;
    match before.faults.checked_add(instances) {
        Some(faults) if place < MOST_MODES && faults <= MOST_FAULTS => Ok(Counted { item, faults }),
        _ => Err(RuleFault {
            rule: InstructionRule::TooManyFaults,
            item,
        }),
    }
}

/// Whether both names have the same text.
fn has_text(x: &Name, y: &Name) -> bool
    ensures { result ≡ same_text x.now y.now }
{
    x.is_same(y)
}
