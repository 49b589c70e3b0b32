//! Copies of a program and of its parts: [`Program::copy`] gives the same program in memory of its own.
ghost use Rattle.std.specs.Prelude.{◌≡◌, IfOk, map};
ghost use Rattle.smv_language.specs.ProgramTree.{program_tree, module_tree, section_tree, decl_tree, declared_tree, define_tree};
ghost use Rattle.smv_language.specs.ProgramTree.{assignment_tree};

use crate::copy::copy_expressions;
use crate::program::{
    AssignList, Assignment, Decl, DeclList, Declared, Define, DefineList, Member, MemberList,
    Module, ModuleList, Program, Section, SectionList,
};
use base_values::{Items, OutOfMemory};
use std::alloc::Global;

impl Program {
    /// A copy of its own, which is the same program.
    pub fn copy(&self) -> Result<Program, OutOfMemory>
        ensures { IfOk result (λ made. program_tree made ≡ program_tree self.now) }
    {
        let modules = copy_modules(self.modules.allocator(), self.modules.as_slice())?;
        Ok(Program { modules })
    }
}

impl Module {
    /// A copy of its own, which is the same module.
    pub fn copy(&self) -> Result<Module, OutOfMemory>
        ensures { IfOk result (λ made. module_tree made ≡ module_tree self.now) }
    {
        let name = self.name.copy()?;
        let formals = self.formals.copy()?;
        let sections = copy_sections(self.sections.allocator(), self.sections.as_slice())?;
        Ok(Module {
            name,
            formals,
            sections,
        })
    }
}

impl Section {
    /// A copy of its own, which is the same section.
    pub fn copy(&self, alloc: Global) -> Result<Section, OutOfMemory>
        ensures { IfOk result (λ made. section_tree made ≡ section_tree self.now) }
    {
        match self {
            Section::Var(list) => Ok(Section::Var(copy_decls(alloc, list.as_slice())?)),
            Section::Ivar(list) => Ok(Section::Ivar(copy_decls(alloc, list.as_slice())?)),
            Section::Frozen(list) => Ok(Section::Frozen(copy_decls(alloc, list.as_slice())?)),
            Section::Define(list) => Ok(Section::Define(copy_defines(alloc, list.as_slice())?)),
            Section::Constants(names) => Ok(Section::Constants(names.copy()?)),
            Section::Assign(list) => {
                Ok(Section::Assign(copy_assignments(alloc, list.as_slice())?))
            }
            Section::Init(e) => Ok(Section::Init(e.copy(alloc)?)),
            Section::Invar(e) => Ok(Section::Invar(e.copy(alloc)?)),
            Section::Trans(e) => Ok(Section::Trans(e.copy(alloc)?)),
        }
    }
}

impl Decl {
    /// A copy of its own, which declares the same.
    pub fn copy(&self) -> Result<Decl, OutOfMemory>
        ensures { IfOk result (λ made. decl_tree made ≡ decl_tree self.now) }
    {
        let name = self.name.copy()?;
        let what = self.what.copy()?;
        Ok(Decl { name, what })
    }
}

impl Declared {
    /// A copy of its own, which is the same type or instance.
    pub fn copy(&self) -> Result<Declared, OutOfMemory>
        ensures { IfOk result (λ made. declared_tree made ≡ declared_tree self.now) }
    {
        match self {
            Declared::Boolean => Ok(Declared::Boolean),
            Declared::Range(lo, hi) => Ok(Declared::Range(*lo, *hi)),
            Declared::Members(list) => {
                let members = copy_members(list.allocator(), list.as_slice())?;
                Ok(Declared::Members(members))
            }
            Declared::Instance(module, actuals) => {
                let module = module.copy()?;
                let actuals = copy_expressions(actuals.allocator(), actuals.as_slice())?;
                Ok(Declared::Instance(module, actuals))
            }
        }
    }
}

impl Member {
    /// A copy of its own.
    pub fn copy(&self) -> Result<Member, OutOfMemory>
        ensures { IfOk result (λ made. made ≡ self.now) }
    {
        match self {
            Member::Number(n) => Ok(Member::Number(*n)),
            Member::Symbol(name) => Ok(Member::Symbol(name.copy()?)),
        }
    }
}

impl Define {
    /// A copy of its own, which is the same define.
    pub fn copy(&self) -> Result<Define, OutOfMemory>
        ensures { IfOk result (λ made. define_tree made ≡ define_tree self.now) }
    {
        let name = self.name.copy()?;
        let value = self.value.copy(self.name.allocator())?;
        Ok(Define { name, value })
    }
}

impl Assignment {
    /// A copy of its own, which is the same assignment.
    pub fn copy(&self) -> Result<Assignment, OutOfMemory>
        ensures { IfOk result (λ made. assignment_tree made ≡ assignment_tree self.now) }
    {
        let target = self.target.copy()?;
        let value = self.value.copy(self.target.allocator())?;
        Ok(Assignment {
            when: self.when,
            target,
            value,
        })
    }
}

/// A list of its own with a copy of each module.
pub fn copy_modules(alloc: Global, modules: &[Module]) -> Result<ModuleList, OutOfMemory>
    ensures { IfOk result (λ made. map module_tree made ≡ map module_tree modules.now) }
{
    let mut made = Items::new(alloc);
    for module in modules {
        made.push(module.copy()?)?;
    }
    Ok(made)
}

/// A list of its own with a copy of each section.
pub fn copy_sections(alloc: Global, sections: &[Section]) -> Result<SectionList, OutOfMemory>
    ensures { IfOk result (λ made. map section_tree made ≡ map section_tree sections.now) }
{
    let mut made = Items::new(alloc);
    for section in sections {
        made.push(section.copy(alloc)?)?;
    }
    Ok(made)
}

/// A list of its own with a copy of each declaration.
pub fn copy_decls(alloc: Global, decls: &[Decl]) -> Result<DeclList, OutOfMemory>
    ensures { IfOk result (λ made. map decl_tree made ≡ map decl_tree decls.now) }
{
    let mut made = Items::new(alloc);
    for decl in decls {
        made.push(decl.copy()?)?;
    }
    Ok(made)
}

/// A list of its own with a copy of each define.
pub fn copy_defines(alloc: Global, defines: &[Define]) -> Result<DefineList, OutOfMemory>
    ensures { IfOk result (λ made. map define_tree made ≡ map define_tree defines.now) }
{
    let mut made = Items::new(alloc);
    for define in defines {
        made.push(define.copy()?)?;
    }
    Ok(made)
}

/// A list of its own with a copy of each assignment.
pub fn copy_assignments(
    alloc: Global,
    assignments: &[Assignment],
) -> Result<AssignList, OutOfMemory>
    ensures { IfOk result (λ made. map assignment_tree made ≡ map assignment_tree assignments.now) }
{
    let mut made = Items::new(alloc);
    for assignment in assignments {
        made.push(assignment.copy()?)?;
    }
    Ok(made)
}

/// A list of its own with a copy of each member of a type.
pub fn copy_members(alloc: Global, members: &[Member]) -> Result<MemberList, OutOfMemory>
    ensures { IfOk result (λ made. made ≡ members.now) }
{
    let mut made = Items::new(alloc);
    for member in members {
        made.push(member.copy()?)?;
    }
    Ok(made)
}
