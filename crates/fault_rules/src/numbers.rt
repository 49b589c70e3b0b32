//! That the numbers of a program and of instructions have negations within 64 bits, as all that are read
//! have: a template writes a negative number as the negation of one.
ghost use Rattle.std.specs.Prelude.{◌≡◌, ◌&&◌, map, All, IsTrue};
ghost use Rattle.std.specs.List.{list_all};
ghost use Rattle.smv_language.specs.ProgramTree.{module_tree, section_tree, decl_tree, declared_tree};
ghost use Rattle.fault_instructions.specs.Instructions.{extension_tree, slice_tree, mode_tree, effect_tree, constant_value};
ghost use Rattle.fault_instructions.specs.WeaveNumbers.{ModuleHasNegations, ExtensionHasNegations};
ghost use Rattle.fault_rules.specs.Negations.{has_negation as negates, member_negates, declared_negates, decl_negates, section_negates};
ghost use Rattle.fault_rules.specs.Negations.{module_negates, value_negates, effect_negates, mode_negates, slice_negates};
ghost use Rattle.fault_rules.specs.Negations.{extension_negates};

use fault_instructions::{Constant, Effect, Extension, ModeRule, Slice};
use smv_language::{Decl, Declared, Member, Module, Section};

/// Whether each number of a type that the modules declare has a negation: of each declaration, also of one whose name was
/// declared before it.
#[tactic(auto, using(crate::proofs::NegationLaws::modules_have))]
pub fn modules_have_negations(modules: &[Module]) -> bool
    ensures negate { IsTrue result → All ModuleHasNegations modules.now }
    ensures exact { result ≡ list_all module_negates (map module_tree modules.now) }
{
    modules_negate(modules)
}

/// Whether each number of an effect in the extensions has a negation.
#[tactic(auto, using(crate::proofs::NegationLaws::extensions_have, crate::proofs::NegationLaws::extensions_negate))]
pub fn extensions_have_negations(extensions: &[Extension]) -> bool
    ensures negate { IsTrue result → All ExtensionHasNegations extensions.now }
    ensures all { All ExtensionHasNegations extensions.now → IsTrue result }
{
    extensions_negate(extensions)
}

/// Whether each number of a type in the modules is negated within 64 bits.
#[tactic(auto, using(crate::proofs::NegationLaws::mapped_more))]
fn modules_negate(modules: &[Module]) -> bool
    ensures { result ≡ list_all module_negates (map module_tree modules.now) }
{
    for module in modules {
        if !sections_negate(module.sections.as_slice()) {
            return false;
        }
    }
    true
}

/// The same of the types in sections.
#[tactic(auto, using(crate::proofs::NegationLaws::mapped_more))]
fn sections_negate(sections: &[Section]) -> bool
    ensures { result ≡ list_all section_negates (map section_tree sections.now) }
{
    for section in sections {
        if !section_negates(section) {
            return false;
        }
    }
    true
}

/// The same of the types in one section.
fn section_negates(section: &Section) -> bool
    ensures { result ≡ section_negates (section_tree section.now) }
{
    match section {
        Section::Var(list) => decls_negate(list.as_slice()),
        Section::Ivar(list) => decls_negate(list.as_slice()),
        Section::Frozen(list) => decls_negate(list.as_slice()),
        Section::Define(_)
        | Section::Constants(_)
        | Section::Assign(_)
        | Section::Init(_)
        | Section::Invar(_)
        | Section::Trans(_) => true,
    }
}

/// The same of the types of declarations.
#[tactic(auto, using(crate::proofs::NegationLaws::mapped_more))]
fn decls_negate(decls: &[Decl]) -> bool
    ensures { result ≡ list_all decl_negates (map decl_tree decls.now) }
{
    for decl in decls {
        if !declared_negates(&decl.what) {
            return false;
        }
    }
    true
}

/// The same of the ends of a range and of listed numbers.
fn declared_negates(what: &Declared) -> bool
    ensures { result ≡ declared_negates (declared_tree what.now) }
{
    match what {
        Declared::Range(lo, hi) => has_negation(*lo) && has_negation(*hi),
        Declared::Members(list) => members_negate(list.as_slice()),
        Declared::Boolean | Declared::Instance(_, _) => true,
    }
}

/// The same of the members of a type.
#[tactic(auto, using(crate::proofs::NegationLaws::all_more))]
fn members_negate(members: &[Member]) -> bool
    ensures { result ≡ list_all member_negates members.now }
{
    for member in members {
        if !member_negates(member) {
            return false;
        }
    }
    true
}

/// The same of a member, if it is a number.
fn member_negates(member: &Member) -> bool
    ensures { result ≡ member_negates member.now }
{
    match member {
        Member::Number(n) => has_negation(*n),
        Member::Symbol(_) => true,
    }
}

/// Whether a number is negated within 64 bits: all are but the least.
fn has_negation(n: i64) -> bool
    ensures { result ≡ negates n }
{
    -9_223_372_036_854_775_807 <= n
}

/// Whether each number of an effect in the extensions is negated within 64 bits.
#[tactic(auto, using(crate::proofs::NegationLaws::mapped_more))]
fn extensions_negate(extensions: &[Extension]) -> bool
    ensures { result ≡ list_all extension_negates (map extension_tree extensions.now) }
{
    for extension in extensions {
        if !slices_negate(extension.slices.as_slice()) {
            return false;
        }
    }
    true
}

/// The same of the effects in slices.
#[tactic(auto, using(crate::proofs::NegationLaws::mapped_more))]
fn slices_negate(slices: &[Slice]) -> bool
    ensures { result ≡ list_all slice_negates (map slice_tree slices.now) }
{
    for slice in slices {
        if !modes_negate(slice.modes.as_slice()) {
            return false;
        }
    }
    true
}

/// The same of the effects of modes.
#[tactic(auto, using(crate::proofs::NegationLaws::mapped_more))]
fn modes_negate(modes: &[ModeRule]) -> bool
    ensures { result ≡ list_all mode_negates (map mode_tree modes.now) }
{
    for mode in modes {
        if !effect_negates(&mode.effect) {
            return false;
        }
    }
    true
}

/// The same of the numbers that an effect has.
fn effect_negates(effect: &Effect) -> bool
    ensures { result ≡ effect_negates (effect_tree effect.now) }
{
    match effect {
        Effect::Plain(_) | Effect::OfExpression(_, _) => true,
        Effect::OfConstant(_, c) => constant_negates(c),
        Effect::OfNumber(_, n) => has_negation(*n),
        Effect::OfNumbers(_, m, n) => has_negation(*m) && has_negation(*n),
    }
}

/// The same of a constant, if it is a number.
fn constant_negates(c: &Constant) -> bool
    ensures { result ≡ value_negates (constant_value c.now) }
{
    match c {
        Constant::Number(n) => has_negation(*n),
        Constant::Truth(_) | Constant::Symbol(_) => true,
    }
}
