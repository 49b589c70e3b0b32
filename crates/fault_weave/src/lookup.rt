//! What the weave asks of a program and its instructions: whether a slice affects a variable ([`is_affected`]), and which
//! type a module declares for a name ([`target_type`]). Each answer goes once through the lists that it is about.
ghost use Rattle.std.specs.Prelude.{◌≡◌, IfOk, map, option_map};
ghost use Rattle.std.specs.List.{list_any};
ghost use Rattle.smv_language.specs.Texts.{same_text};
ghost use Rattle.smv_language.specs.ProgramTree.{module_tree, section_tree, decl_tree, define_tree, declared_tree};
ghost use Rattle.smv_language.specs.Scope.{kind_in, kind_in_sections};
ghost use Rattle.fault_instructions.specs.Instructions.{instruction_tree, extension_tree, slices_from, slice_tree};
ghost use Rattle.fault_instructions.specs.Instructions.{is_affected as is_affected_in, is_target as is_target_of};
ghost use Rattle.fault_instructions.specs.KindTypes.{type_of_kind};
ghost use Rattle.fault_weave.specs.Lookups.{affects as affects_in, variable_type as variable_type_of, type_in_decls, type_in_defines};
ghost use Rattle.fault_weave.specs.Lookups.{type_in_section};

use base_values::{Name, OutOfMemory};
use fault_instructions::{Extension, Instructions, Slice};
use smv_language::{Decl, Declared, Define, Module, Section};

/// Whether both names have the same text.
pub fn has_text(x: &Name, y: &Name) -> bool
    ensures { result ≡ same_text x.now y.now }
{
    x.is_same(y)
}

/// Whether a slice of the module affects the variable.
pub fn is_affected(i: &Instructions, owner: &Name, x: &Name) -> bool
    ensures { result ≡ is_affected_in (instruction_tree i.now) owner.now x.now }
{
    any_affects(i.extensions.as_slice(), owner, x)
}

/// Whether a slice of some extension of the module affects the variable.
fn any_affects(extensions: &[Extension], owner: &Name, x: &Name) -> bool
    ensures { result ≡ is_target_of (slices_from (map extension_tree extensions.now) owner.now) x.now }
{
    for extension in extensions {
        if affects(extension, owner, x) {
            return true;
        }
    }
    false
}

/// Whether this is an extension of the module with a slice that affects the variable.
#[tactic(auto, unfolding(crate::specs::Lookups::affects))]
fn affects(extension: &Extension, owner: &Name, x: &Name) -> bool
    ensures { result ≡ affects_in (extension_tree extension.now) owner.now x.now }
{
    has_text(&extension.module, owner) && is_target(extension.slices.as_slice(), x)
}

/// Whether one of the slices affects the variable.
#[tactic(auto, using(crate::proofs::LookupLaws::target_more))]
fn is_target(slices: &[Slice], x: &Name) -> bool
    ensures { result ≡ is_target_of (map slice_tree slices.now) x.now }
{
    for slice in slices {
        if has_text(&slice.target, x) {
            return true;
        }
    }
    false
}

/// The type of the variable that the name declares in the module.
pub fn target_type(m: &Module, x: &Name) -> Result<Declared, OutOfMemory>
    ensures { IfOk result (λ made. declared_tree made ≡ type_of_kind (kind_in (module_tree m.now) x.now)) }
{
    if has_formal(m, x) {
        return Ok(Declared::Boolean);
    }
    declared_type(m, x)
}

/// Whether the name is a formal of the module.
fn has_formal(m: &Module, x: &Name) -> bool
    ensures { result ≡ list_any (λ f. same_text f x.now) m.now.formals }
{
    is_formal(m.formals.as_slice(), x)
}

/// The type with which the module declares the name; boolean where it declares none.
fn declared_type(m: &Module, x: &Name) -> Result<Declared, OutOfMemory>
    ensures { IfOk result (λ made. declared_tree made ≡ type_of_kind (kind_in_sections (map section_tree m.now.sections) x.now)) }
{
    type_among(m.sections.as_slice(), x)
}

/// Whether the name is one of these formals.
#[tactic(auto, using(fault_instructions::proofs::AllowedLaws::any_more))]
fn is_formal(formals: &[Name], x: &Name) -> bool
    ensures { result ≡ list_any (λ f. same_text f x.now) formals.now }
{
    for formal in formals {
        if has_text(formal, x) {
            return true;
        }
    }
    false
}

/// The type of the first declaration of the name in these sections.
fn type_among(sections: &[Section], x: &Name) -> Result<Declared, OutOfMemory>
    ensures { IfOk result (λ made. declared_tree made ≡ type_of_kind (kind_in_sections (map section_tree sections.now) x.now)) }
{
    for section in sections {
        let found = type_of_section(section, x)?;
        match found {
            Some(declared) => return Ok(declared),
            None => {}
        }
    }
    Ok(Declared::Boolean)
}

/// The type of the first declaration of the name in a section, where there is one.
#[tactic(auto, unfolding(crate::specs::Lookups::type_in_section))]
fn type_of_section(section: &Section, x: &Name) -> Result<Option<Declared>, OutOfMemory>
    ensures { IfOk result (λ found. option_map declared_tree found ≡ type_in_section (section_tree section.now) x.now) }
{
    match section {
        Section::Var(list) => type_of_decls(list.as_slice(), x),
        Section::Ivar(list) => type_of_decls(list.as_slice(), x),
        Section::Frozen(list) => type_of_decls(list.as_slice(), x),
        Section::Define(list) => Ok(type_of_defines(list.as_slice(), x)),
        Section::Constants(_)
        | Section::Assign(_)
        | Section::Init(_)
        | Section::Invar(_)
        | Section::Trans(_) => Ok(None),
    }
}

/// The type of the first of these declarations that is one of the name.
#[tactic(auto, using(crate::proofs::LookupLaws::decls_more))]
fn type_of_decls(decls: &[Decl], x: &Name) -> Result<Option<Declared>, OutOfMemory>
    ensures { IfOk result (λ found. option_map declared_tree found ≡ type_in_decls (map decl_tree decls.now) x.now) }
{
    for decl in decls {
        if has_text(&decl.name, x) {
            return Ok(Some(variable_type(&decl.what)?));
        }
    }
    Ok(None)
}

/// The type of a define: boolean, since none is written.
#[tactic(auto, using(crate::proofs::LookupLaws::defines_more))]
fn type_of_defines(defines: &[Define], x: &Name) -> Option<Declared>
    ensures { option_map declared_tree result ≡ type_in_defines (map define_tree defines.now) x.now }
{
    for define in defines {
        if has_text(&define.name, x) {
            return Some(Declared::Boolean);
        }
    }
    None
}

/// The type of a variable; an instance counts as boolean.
fn variable_type(what: &Declared) -> Result<Declared, OutOfMemory>
    ensures { IfOk result (λ made. declared_tree made ≡ variable_type_of (declared_tree what.now)) }
{
    match what {
        Declared::Instance(_, _) => Ok(Declared::Boolean),
        Declared::Boolean | Declared::Range(_, _) | Declared::Members(_) => what.copy(),
    }
}
