//! The weave of a program ([`woven_program`]): module by module, its own sections with the names of own values (`rename`),
//! and behind them those of each slice that affects it (`slices`).
ghost use Rattle.std.specs.Prelude.{◌≡◌, ◌++◌, IfOk, OnOk, All, map, flat_map};
ghost use Rattle.smv_language.specs.ProgramTree.{program_tree, module_tree, section_tree};
ghost use Rattle.fault_instructions.specs.Instructions.{instruction_tree, slice_tree, is_affected};
ghost use Rattle.fault_weave.specs.WovenProgram.{woven, woven_tree, woven_section, added_sections, slice_sections, own_slices};
ghost use Rattle.fault_instructions.specs.Instructions.{extension_tree};
ghost use Rattle.fault_instructions.specs.WeaveNumbers.{ExtensionHasNegations, SliceHasNegations, ModuleHasNegations};

use crate::lookup::{has_text, target_type};
use crate::rename::renamed_sections;
use crate::slices::{add_rules, slice_assignments, slice_variables};
use base_values::{Items, OutOfMemory};
use fault_instructions::{Extension, Instructions, Slice};
use smv_language::{Module, ModuleList, Program, Section, SectionList};
use std::alloc::Global;

/// The program woven with the instructions: in each module that a slice affects, the names of own values
/// where the nominal text says what a variable is, and at its end the sections of each slice.
#[tactic(auto, unfolding(crate::specs::WovenProgram::woven_tree))]
pub fn woven_program(alloc: Global, p: &Program, i: &Instructions) -> Result<Program, OutOfMemory>
    requires types { All ModuleHasNegations p.now.modules }
    requires effects { All ExtensionHasNegations i.now.extensions }
    ensures { IfOk result (λ made. program_tree made ≡ woven (program_tree p.now) (instruction_tree i.now)) }
{
    let modules = woven_modules(alloc, i, p.modules.as_slice())?;
    Ok(Program { modules })
}

/// The modules, woven in their order.
fn woven_modules(
    alloc: Global,
    i: &Instructions,
    modules: &[Module],
) -> Result<ModuleList, OutOfMemory>
    requires types { All ModuleHasNegations modules.now }
    requires effects { All ExtensionHasNegations i.now.extensions }
    ensures { IfOk result (λ made. map module_tree made ≡ map (woven_tree (instruction_tree i.now)) (map module_tree modules.now)) }
{
    let mut made = Items::new(alloc);
    for owner in modules {
        made.push(woven_module(alloc, i, owner)?)?;
    }
    Ok(made)
}

/// A module with its name and formals, and woven sections.
#[tactic(auto, unfolding(crate::specs::WovenProgram::woven_tree))]
fn woven_module(alloc: Global, i: &Instructions, m: &Module) -> Result<Module, OutOfMemory>
    requires types { ModuleHasNegations m.now }
    requires effects { All ExtensionHasNegations i.now.extensions }
    ensures { IfOk result (λ made. module_tree made ≡ woven_tree (instruction_tree i.now) (module_tree m.now)) }
{
    let name = m.name.copy()?;
    let formals = m.formals.copy()?;
    let sections = woven_sections(alloc, i, m)?;
    Ok(Module {
        name,
        formals,
        sections,
    })
}

/// The sections of a module with the names of own values, and behind them what slices add.
fn woven_sections(alloc: Global, i: &Instructions, m: &Module) -> Result<SectionList, OutOfMemory>
    requires types { ModuleHasNegations m.now }
    requires effects { All ExtensionHasNegations i.now.extensions }
    ensures { IfOk result (λ made. map section_tree made
        ≡ map (woven_section (is_affected (instruction_tree i.now) m.now.name)) (map section_tree m.now.sections)
        ++ added_sections (instruction_tree i.now) (module_tree m.now)) }
{
    let mut sections = renamed_sections(alloc, i, &m.name, m.sections.as_slice())?;
    add_extensions(alloc, i, m, &mut sections)?;
    Ok(sections)
}

/// Appends the sections of the module's slices, in the order of the file.
#[tactic(auto, using(crate::proofs::SliceLaws::weave_rules))]
fn add_extensions(
    alloc: Global,
    i: &Instructions,
    m: &Module,
    sections: &mut SectionList,
) -> Result<(), OutOfMemory>
    requires types { ModuleHasNegations m.now }
    requires effects { All ExtensionHasNegations i.now.extensions }
    ensures { OnOk result (map section_tree sections.new
        ≡ map section_tree sections.old ++ added_sections (instruction_tree i.now) (module_tree m.now)) }
{
    for extension in i.extensions.as_slice() {
        add_extension(alloc, m, extension, sections)?;
    }
    Ok(())
}

/// Appends what the slices of an extension add, if it is one of the module.
#[tactic(auto, using(crate::proofs::SliceLaws::weave_rules))]
fn add_extension(
    alloc: Global,
    m: &Module,
    extension: &Extension,
    sections: &mut SectionList,
) -> Result<(), OutOfMemory>
    requires types { ModuleHasNegations m.now }
    requires effects { ExtensionHasNegations extension.now }
    ensures { OnOk result (map section_tree sections.new
        ≡ map section_tree sections.old
        ++ flat_map (slice_sections (module_tree m.now)) (own_slices (extension_tree extension.now) m.now.name)) }
{
    if has_text(&extension.module, &m.name) {
        return add_slices(alloc, m, extension.slices.as_slice(), sections);
    }
    Ok(())
}

/// Appends what slices add, in their order.
#[tactic(auto, using(crate::proofs::SliceLaws::weave_rules))]
fn add_slices(
    alloc: Global,
    m: &Module,
    slices: &[Slice],
    sections: &mut SectionList,
) -> Result<(), OutOfMemory>
    requires types { ModuleHasNegations m.now }
    requires effects { All SliceHasNegations slices.now }
    ensures { OnOk result (map section_tree sections.new
        ≡ map section_tree sections.old ++ flat_map (slice_sections (module_tree m.now)) (map slice_tree slices.now)) }
{
    for slice in slices {
        add_slice(alloc, m, slice, sections)?;
    }
    Ok(())
}

/// Appends what a slice adds: its variables, its assignments and its rules.
#[tactic(auto, using(crate::proofs::SliceLaws::weave_rules))]
fn add_slice(
    alloc: Global,
    m: &Module,
    s: &Slice,
    sections: &mut SectionList,
) -> Result<(), OutOfMemory>
    requires types { ModuleHasNegations m.now }
    requires effects { SliceHasNegations s.now }
    ensures { OnOk result (map section_tree sections.new
        ≡ map section_tree sections.old ++ slice_sections (module_tree m.now) (slice_tree s.now)) }
{
    let declared = target_type(m, &s.target)?;
    let variables = slice_variables(alloc, &declared, s)?;
    let assignments = slice_assignments(alloc, &declared, s)?;
    sections.push(Section::Var(variables))?;
    sections.push(Section::Assign(assignments))?;
    add_rules(alloc, s, sections)
}
