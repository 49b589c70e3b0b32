//! The names of a program: of its modules, their formals, what they declare, and symbols ([`program_names`]). An added
//! name must be none of them.
ghost use Rattle.std.specs.Prelude.{◌≡◌, [], IfOk, OnOk, map, flat_map};
ghost use Rattle.smv_language.specs.ProgramTree.{program_tree, module_tree, section_tree, decl_tree, define_tree, declared_tree};
ghost use Rattle.fault_rules.specs.KeyedLists.{with_texts};
ghost use Rattle.fault_rules.specs.Names.{member_names, type_names, decl_names, define_name, section_names, module_names};
ghost use Rattle.fault_rules.specs.Names.{program_names as program_names_of};

use crate::texts::TextSet;
use base_values::{Name, OutOfMemory};
use smv_language::{Decl, Declared, Define, Member, Module, Program, Section};
use std::alloc::Global;

/// The names of a program.
#[tactic(auto, using(crate::proofs::KeyedLaws::keyed_rules))]
pub fn program_names(alloc: Global, p: &Program) -> Result<TextSet, OutOfMemory>
    ensures { IfOk result (λ names. names ≡ with_texts [] (program_names_of (program_tree p.now))) }
{
    let mut names = TextSet::new(alloc);
    add_modules(&mut names, p.modules.as_slice())?;
    Ok(names)
}

/// Adds the names of modules.
#[tactic(auto, using(crate::proofs::KeyedLaws::keyed_rules))]
fn add_modules(names: &mut TextSet, modules: &[Module]) -> Result<(), OutOfMemory>
    ensures { OnOk result (names.new ≡ with_texts names.old (flat_map module_names (map module_tree modules.now))) }
{
    for module in modules {
        add_module(names, module)?;
    }
    Ok(())
}

/// Adds the name of a module and those in it.
#[tactic(auto, using(crate::proofs::KeyedLaws::keyed_rules))]
fn add_module(names: &mut TextSet, module: &Module) -> Result<(), OutOfMemory>
    ensures { OnOk result (names.new ≡ with_texts names.old (module_names (module_tree «module».now))) }
{
    names.add(module.name.text())?;
    add_names(names, module.formals.as_slice())?;
    add_sections(names, module.sections.as_slice())
}

/// Adds these names.
#[tactic(auto, using(crate::proofs::KeyedLaws::keyed_rules))]
fn add_names(names: &mut TextSet, more: &[Name]) -> Result<(), OutOfMemory>
    ensures { OnOk result (names.new ≡ with_texts names.old more.now) }
{
    for name in more {
        names.add(name.text())?;
    }
    Ok(())
}

/// Adds the names of sections.
#[tactic(auto, using(crate::proofs::KeyedLaws::keyed_rules))]
fn add_sections(names: &mut TextSet, sections: &[Section]) -> Result<(), OutOfMemory>
    ensures { OnOk result (names.new ≡ with_texts names.old (flat_map section_names (map section_tree sections.now))) }
{
    for section in sections {
        add_section(names, section)?;
    }
    Ok(())
}

/// Adds the names that a section declares or lists.
fn add_section(names: &mut TextSet, section: &Section) -> Result<(), OutOfMemory>
    ensures { OnOk result (names.new ≡ with_texts names.old (section_names (section_tree section.now))) }
{
    match section {
        Section::Var(list) => add_decls(names, list.as_slice()),
        Section::Ivar(list) => add_decls(names, list.as_slice()),
        Section::Frozen(list) => add_decls(names, list.as_slice()),
        Section::Define(list) => add_defines(names, list.as_slice()),
        Section::Constants(list) => add_names(names, list.as_slice()),
        Section::Assign(_) | Section::Init(_) | Section::Invar(_) | Section::Trans(_) => Ok(()),
    }
}

/// Adds the names of declarations.
#[tactic(auto, using(crate::proofs::KeyedLaws::keyed_rules))]
fn add_decls(names: &mut TextSet, decls: &[Decl]) -> Result<(), OutOfMemory>
    ensures { OnOk result (names.new ≡ with_texts names.old (flat_map decl_names (map decl_tree decls.now))) }
{
    for decl in decls {
        add_decl(names, decl)?;
    }
    Ok(())
}

/// Adds the name of a declaration and the symbols of its type.
fn add_decl(names: &mut TextSet, decl: &Decl) -> Result<(), OutOfMemory>
    ensures { OnOk result (names.new ≡ with_texts names.old (decl_names (decl_tree decl.now))) }
{
    names.add(decl.name.text())?;
    add_symbols(names, &decl.what)
}

/// Adds the symbols of a declared type.
fn add_symbols(names: &mut TextSet, what: &Declared) -> Result<(), OutOfMemory>
    ensures { OnOk result (names.new ≡ with_texts names.old (type_names (declared_tree what.now))) }
{
    match what {
        Declared::Members(list) => add_members(names, list.as_slice()),
        Declared::Boolean | Declared::Range(_, _) | Declared::Instance(_, _) => Ok(()),
    }
}

/// Adds the members of a type that are symbols.
#[tactic(auto, using(crate::proofs::KeyedLaws::keyed_rules))]
fn add_members(names: &mut TextSet, members: &[Member]) -> Result<(), OutOfMemory>
    ensures { OnOk result (names.new ≡ with_texts names.old (flat_map member_names members.now)) }
{
    for member in members {
        add_member(names, member)?;
    }
    Ok(())
}

/// Adds a member that is a symbol.
fn add_member(names: &mut TextSet, member: &Member) -> Result<(), OutOfMemory>
    ensures { OnOk result (names.new ≡ with_texts names.old (member_names member.now)) }
{
    match member {
        Member::Symbol(name) => names.add(name.text()),
        Member::Number(_) => Ok(()),
    }
}

/// Adds the names of definitions.
#[tactic(auto, using(crate::proofs::KeyedLaws::keyed_rules))]
fn add_defines(names: &mut TextSet, defines: &[Define]) -> Result<(), OutOfMemory>
    ensures { OnOk result (names.new ≡ with_texts names.old (map define_name (map define_tree defines.now))) }
{
    for define in defines {
        names.add(define.name.text())?;
    }
    Ok(())
}
