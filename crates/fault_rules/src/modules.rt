//! The modules of a program by name, and what names are in them. [`KnownProgram::read`] goes through the program once; then
//! each question of a rule is one look-up.
ghost use Rattle.std.specs.Prelude.{◌≡◌, [], IfOk, OnOk, map, flat_map, option_map, is_some};
ghost use Rattle.std.specs.Option.{option_copied};
ghost use Rattle.smv_language.specs.ProgramTree.{program_tree, module_tree, section_tree, decl_tree, define_tree, declared_tree};
ghost use Rattle.smv_language.specs.Scope.{find_module, kind_at, is_missing};
ghost use Rattle.fault_rules.specs.KeyedLists.{with_entry, with_entries};
ghost use Rattle.fault_rules.specs.Locals.{local_tree, declared_local, formal_entry, variable_entry, other_entry, define_entry};
ghost use Rattle.fault_rules.specs.Locals.{section_locals, locals_of, scope_of, locals_in, scopes_in, seen_kind};
ghost use Rattle.fault_rules.specs.Rules.{is_program_name, is_local};
ghost use Rattle.fault_rules.specs.Faults.{IsKnown};
ghost use Rattle.smv_language.specs.Texts.{first_with};
ghost use Rattle.smv_language.specs.Values.{opposite};

use crate::names::program_names;
use crate::texts::TextSet;
use base_values::{Name, OutOfMemory};
use indexmap::IndexMap;
use smv_language::{Decl, Declared, Define, Module, Program, Section};
use std::alloc::Global;

/// What a name is in its own module, as far as instructions ask: a formal, a variable of a VAR section, or
/// something else that is declared.
#[derive(Clone, Copy)]
pub(crate) enum LocalName<'a> {
    Formal,
    Variable(&'a Declared),
    Other,
}

/// The names of a module. Of two declarations of a name the first counts.
#[derive(Drop)]
pub(crate) struct ModuleScope<'a> {
    pub(crate) locals: IndexMap<&'a [u8], LocalName<'a>>,
}

/// A program with its modules by name, and the names that it has. Of two modules of a name the first counts.
#[derive(Drop)]
pub(crate) struct KnownProgram<'a> {
    pub(crate) program: &'a Program,
    pub(crate) scopes: IndexMap<&'a [u8], ModuleScope<'a>>,
    pub(crate) names: TextSet,
}

impl<'a> KnownProgram<'a> {
    /// The modules and the names of a program.
    pub(crate) fn read(alloc: Global, p: &'a Program) -> Result<KnownProgram<'a>, OutOfMemory>
        ensures program { IfOk result (λ known. known.program.now ≡ p.now) }
        ensures known { IfOk result IsKnown }
    {
        let names = program_names(alloc, p)?;
        let mut known = KnownProgram {
            program: p,
            scopes: IndexMap::new(alloc),
            names,
        };
        known.add_modules(alloc, p.modules.as_slice())?;
        Ok(known)
    }

    /// Whether a module has the name.
    pub(crate) fn has_module(&self, name: &Name) -> bool
        requires { IsKnown self.now }
        ensures { is_missing (find_module (program_tree self.now.program.now) name.now) ≡ opposite result }
    {
        self.scopes.contains_key(name.text())
    }

    /// Whether the program has the name.
    pub(crate) fn has_name(&self, name: &Name) -> bool
        requires { IsKnown self.now }
        ensures { result ≡ is_program_name (program_tree self.now.program.now) name.now }
    {
        self.names.has(name.text())
    }

    /// What a name is in the module of a name, where it is declared there.
    pub(crate) fn local(&self, owner: &Name, name: &Name) -> Option<LocalName<'a>>
        requires { IsKnown self.now }
        ensures { option_map local_tree result ≡ seen_kind (kind_at (find_module (program_tree self.now.program.now) owner.now) name.now) }
    {
        match self.find(owner) {
            Some(scope) => scope.local(name),
            None => None,
        }
    }

    /// Whether a name is declared, or a formal, in the module of a name.
    pub(crate) fn has_local(&self, owner: &Name, name: &Name) -> bool
        requires { IsKnown self.now }
        ensures { result ≡ is_local (find_module (program_tree self.now.program.now) owner.now) name.now }
    {
        self.local(owner, name).is_some()
    }

    /// The names of the first module of this name.
    fn find(&self, owner: &Name) -> Option<&ModuleScope<'a>>
        ensures { option_map locals_in (option_copied result) ≡ first_with (scopes_in self.now) owner.now }
    {
        self.scopes.get(owner.text())
    }

    /// Adds modules in their order.
    #[tactic(auto, using(crate::proofs::KeyedLaws::keyed_rules))]
    fn add_modules(&mut self, alloc: Global, modules: &'a [Module]) -> Result<(), OutOfMemory>
        ensures program { OnOk result (self.new.program ≡ self.old.program) }
        ensures names { OnOk result (self.new.names ≡ self.old.names) }
        ensures scopes { OnOk result (scopes_in self.new ≡ with_entries (scopes_in self.old) (map scope_of (map module_tree modules.now))) }
    {
        for module in modules {
            self.add_module(alloc, module)?;
        }
        Ok(())
    }

    /// Adds a module, unless one of its name is there.
    fn add_module(&mut self, alloc: Global, module: &'a Module) -> Result<(), OutOfMemory>
        ensures program { OnOk result (self.new.program ≡ self.old.program) }
        ensures names { OnOk result (self.new.names ≡ self.old.names) }
        ensures scopes { OnOk result (scopes_in self.new ≡ with_entry (scopes_in self.old) (scope_of (module_tree «module».now))) }
    {
        if self.scopes.contains_key(module.name.text()) {
            return Ok(());
        }
        let scope = ModuleScope::of_module(alloc, module)?;
        self.scopes.insert(module.name.text(), scope)?;
        Ok(())
    }
}

impl<'a> ModuleScope<'a> {
    /// The names of a module.
    #[tactic(auto, using(crate::proofs::KeyedLaws::keyed_rules))]
    fn of_module(alloc: Global, module: &'a Module) -> Result<ModuleScope<'a>, OutOfMemory>
        ensures { IfOk result (λ scope. locals_in scope ≡ with_entries [] (locals_of (module_tree «module».now))) }
    {
        let mut scope = ModuleScope::empty(alloc);
        scope.add_formals(module.formals.as_slice())?;
        scope.add_sections(module.sections.as_slice())?;
        Ok(scope)
    }

    /// No name.
    fn empty(alloc: Global) -> ModuleScope<'a>
        ensures { locals_in result ≡ [] }
    {
        ModuleScope {
            locals: IndexMap::new(alloc),
        }
    }

    /// What a name is in the module, where it is declared there.
    fn local(&self, name: &Name) -> Option<LocalName<'a>>
        ensures { option_map local_tree result ≡ first_with (locals_in self.now) name.now }
    {
        match self.locals.get(name.text()) {
            Some(local) => Some(*local),
            None => None,
        }
    }

    /// Adds a name, unless it is there.
    fn add(&mut self, name: &'a Name, local: LocalName<'a>) -> Result<(), OutOfMemory>
        ensures { OnOk result (locals_in self.new ≡ with_entry (locals_in self.old) (name.now, local_tree local.entry)) }
    {
        if self.locals.contains_key(name.text()) {
            return Ok(());
        }
        self.locals.insert(name.text(), local)?;
        Ok(())
    }

    /// Adds formals.
    #[tactic(auto, using(crate::proofs::KeyedLaws::keyed_rules))]
    fn add_formals(&mut self, formals: &'a [Name]) -> Result<(), OutOfMemory>
        ensures { OnOk result (locals_in self.new ≡ with_entries (locals_in self.old) (map formal_entry formals.now)) }
    {
        for formal in formals {
            self.add(formal, LocalName::Formal)?;
        }
        Ok(())
    }

    /// Adds what sections declare.
    #[tactic(auto, using(crate::proofs::KeyedLaws::keyed_rules))]
    fn add_sections(&mut self, sections: &'a [Section]) -> Result<(), OutOfMemory>
        ensures { OnOk result (locals_in self.new
            ≡ with_entries (locals_in self.old) (flat_map section_locals (map section_tree sections.now))) }
    {
        for section in sections {
            self.add_section(section)?;
        }
        Ok(())
    }

    /// Adds what a section declares.
    fn add_section(&mut self, section: &'a Section) -> Result<(), OutOfMemory>
        ensures { OnOk result (locals_in self.new ≡ with_entries (locals_in self.old) (section_locals (section_tree section.now))) }
    {
        match section {
            Section::Var(list) => self.add_variables(list.as_slice()),
            Section::Ivar(list) => self.add_others(list.as_slice()),
            Section::Frozen(list) => self.add_others(list.as_slice()),
            Section::Define(list) => self.add_defines(list.as_slice()),
            Section::Constants(_)
            | Section::Assign(_)
            | Section::Init(_)
            | Section::Invar(_)
            | Section::Trans(_) => Ok(()),
        }
    }

    /// Adds the declarations of a VAR section.
    #[tactic(auto, using(crate::proofs::KeyedLaws::keyed_rules))]
    fn add_variables(&mut self, decls: &'a [Decl]) -> Result<(), OutOfMemory>
        ensures { OnOk result (locals_in self.new ≡ with_entries (locals_in self.old) (map variable_entry (map decl_tree decls.now))) }
    {
        for decl in decls {
            self.add(&decl.name, declared(&decl.what))?;
        }
        Ok(())
    }

    /// Adds the declarations of a section whose variables no slice may affect.
    #[tactic(auto, using(crate::proofs::KeyedLaws::keyed_rules))]
    fn add_others(&mut self, decls: &'a [Decl]) -> Result<(), OutOfMemory>
        ensures { OnOk result (locals_in self.new ≡ with_entries (locals_in self.old) (map other_entry (map decl_tree decls.now))) }
    {
        for decl in decls {
            self.add(&decl.name, LocalName::Other)?;
        }
        Ok(())
    }

    /// Adds the names of definitions.
    #[tactic(auto, using(crate::proofs::KeyedLaws::keyed_rules))]
    fn add_defines(&mut self, defines: &'a [Define]) -> Result<(), OutOfMemory>
        ensures { OnOk result (locals_in self.new ≡ with_entries (locals_in self.old) (map define_entry (map define_tree defines.now))) }
    {
        for define in defines {
            self.add(&define.name, LocalName::Other)?;
        }
        Ok(())
    }
}

/// What a declaration of a VAR section makes of its name.
fn declared<'a>(what: &'a Declared) -> LocalName<'a>
    ensures { local_tree result ≡ declared_local (declared_tree what.now) }
{
    match what {
        Declared::Instance(_, _) => LocalName::Other,
        Declared::Boolean | Declared::Range(_, _) | Declared::Members(_) => LocalName::Variable(
            what,
        ),
    }
}
