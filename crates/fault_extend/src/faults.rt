//! The faults of a woven program, by instances, then slices, then modes ([`woven_faults`]): a fault is a mode of a slice at
//! an instance of the slice's module. This order is that of the numbers of faults in all reports.
ghost use Rattle.std.specs.Prelude.{◌≡◌, ◌++◌, IfOk, OnOk, map, flat_map};
ghost use Rattle.fault_instructions.specs.Instructions.{instruction_tree, slice_tree, extension_tree};
ghost use Rattle.smv_language.specs.ProgramTree.{program_tree};
ghost use Rattle.smv_language.specs.Texts.{same_text};
ghost use Rattle.fault_weave.specs.WovenProgram.{own_slices};
ghost use Rattle.fault_weave.specs.Faults.{slice_faults};
ghost use Rattle.fault_extend.specs.WovenFaults.{fault_tree, instance_faults, faults_at};
ghost use Rattle.smv_language.specs.ModelTree.{place_of};

use base_values::{Dotted, Items, Name, OutOfMemory};
use fault_instructions::{Extension, Instructions, ModeRule, Slice};
use smv_language::Program;
use smv_language::copy_model::copy_path;
use smv_language::model::Instance;
use std::alloc::Global;

/// A woven program and its faults.
#[derive(Drop)]
pub struct Woven {
    pub program: Program,
    pub faults: WovenFaultList,
}

/// A mode of a slice at an instance, which is named by its path from `main`. `main` has no path.
#[derive(Drop)]
pub struct WovenFault {
    pub path: Option<Dotted>,
    pub slice: Name,
    pub mode: Name,
}

/// Faults, by instances in depth-first order, then slices in the order of the file, then modes.
pub type WovenFaultList = Items<WovenFault>;

/// The faults at these instances, which stand in depth-first order: by instances, then by the slices of their
/// modules in the order of the file, then by modes.
#[tactic(auto, using(crate::proofs::FaultLaws::fault_rules))]
pub fn woven_faults(
    alloc: Global,
    instances: &[Instance],
    i: &Instructions,
) -> Result<WovenFaultList, OutOfMemory>
    ensures { IfOk result (λ made. map fault_tree made ≡ faults_at (instruction_tree i.now) instances.now) }
{
    let mut faults = Items::new(alloc);
    for instance in instances {
        add_instance(instance, i, &mut faults)?;
    }
    Ok(faults)
}

/// Appends the faults of an instance.
#[tactic(auto, using(crate::proofs::FaultLaws::fault_rules))]
fn add_instance(
    instance: &Instance,
    i: &Instructions,
    faults: &mut WovenFaultList,
) -> Result<(), OutOfMemory>
    ensures { OnOk result (map fault_tree faults.new ≡ map fault_tree faults.old ++ instance_faults (instruction_tree i.now) instance.now) }
{
    for extension in i.extensions.as_slice() {
        add_extension(instance, extension, faults)?;
    }
    Ok(())
}

/// Appends the faults of an extension, if it is one of the instance's module.
#[tactic(auto, using(crate::proofs::FaultLaws::fault_rules))]
fn add_extension(
    instance: &Instance,
    extension: &Extension,
    faults: &mut WovenFaultList,
) -> Result<(), OutOfMemory>
    ensures { OnOk result (map fault_tree faults.new
        ≡ map fault_tree faults.old
        ++ flat_map (slice_faults (place_of instance.now.path)) (own_slices (extension_tree extension.now) instance.now.«module»)) }
{
    if extends(extension, instance) {
        return add_slices(instance, extension.slices.as_slice(), faults);
    }
    Ok(())
}

/// Whether the extension is one of the instance's module.
fn extends(extension: &Extension, instance: &Instance) -> bool
    ensures { result ≡ same_text extension.now.«module» instance.now.«module» }
{
    extension.module.is_same(&instance.module)
}

/// Appends the faults of slices.
#[tactic(auto, using(crate::proofs::FaultLaws::fault_rules))]
fn add_slices(
    instance: &Instance,
    slices: &[Slice],
    faults: &mut WovenFaultList,
) -> Result<(), OutOfMemory>
    ensures { OnOk result (map fault_tree faults.new
        ≡ map fault_tree faults.old ++ flat_map (slice_faults (place_of instance.now.path)) (map slice_tree slices.now)) }
{
    for slice in slices {
        add_slice(instance, slice, faults)?;
    }
    Ok(())
}

/// Appends the faults of a slice, one for each mode.
#[tactic(auto, using(crate::proofs::FaultLaws::fault_rules))]
fn add_slice(
    instance: &Instance,
    slice: &Slice,
    faults: &mut WovenFaultList,
) -> Result<(), OutOfMemory>
    ensures { OnOk result (map fault_tree faults.new
        ≡ map fault_tree faults.old ++ slice_faults (place_of instance.now.path) (slice_tree slice.now)) }
{
    for mode in slice.modes.as_slice() {
        faults.push(woven_fault(instance, &slice.name, mode)?)?;
    }
    Ok(())
}

/// The fault of a mode at an instance.
fn woven_fault(
    instance: &Instance,
    slice: &Name,
    mode: &ModeRule,
) -> Result<WovenFault, OutOfMemory>
    ensures { IfOk result (λ made. fault_tree made
        ≡ record { place = place_of instance.now.path; slice = slice.now; mode = mode.now.name }) }
{
    let path = copy_path(&instance.path)?;
    let slice = slice.copy()?;
    let mode = mode.name.copy()?;
    Ok(WovenFault { path, slice, mode })
}

impl Woven {
    /// A copy of its own, which is the same program with the same faults.
    pub fn copy(&self) -> Result<Woven, OutOfMemory>
        ensures program { IfOk result (λ made. program_tree made.program ≡ program_tree self.now.program) }
        ensures faults { IfOk result (λ made. made.faults ≡ self.now.faults) }
    {
        let program = self.program.copy()?;
        let faults = copy_woven_faults(self.faults.allocator(), self.faults.as_slice())?;
        Ok(Woven { program, faults })
    }
}

impl WovenFault {
    /// A copy of its own, which is the same fault.
    pub fn copy(&self) -> Result<WovenFault, OutOfMemory>
        ensures { IfOk result (λ made. made ≡ self.now) }
    {
        Ok(WovenFault {
            path: copy_path(&self.path)?,
            slice: self.slice.copy()?,
            mode: self.mode.copy()?,
        })
    }
}

/// A list of its own with a copy of each fault.
pub fn copy_woven_faults(
    alloc: Global,
    faults: &[WovenFault],
) -> Result<WovenFaultList, OutOfMemory>
    ensures { IfOk result (λ made. made ≡ faults.now) }
{
    let mut made = Items::new(alloc);
    for fault in faults {
        made.push(fault.copy()?)?;
    }
    Ok(made)
}
