//! The modules of a program by name, and the names of each module: the rules that a program keeps or
//! breaks before any instance is made.
ghost use Rattle.std.specs.Prelude.{◌≡◌, ◌↔◌, ◌&&◌, suc, [], ◌∷◌, ◌++◌, length, codes, map, None, Some, IfOk, IfErr, OnOk, IsTrue};
ghost use Rattle.smv_language.specs.ProgramTree.{module_tree, program_tree};
ghost use Rattle.smv_language.specs.Texts.{same_text, is_among};
ghost use Rattle.smv_flat_laws.specs.Items.{items_of};
ghost use Rattle.smv_flat_laws.specs.Rules.{double_name, has_formals, names_of_item, is_name_again};
ghost use Rattle.smv_scope.specs.Faults.{IsFaultOf};
ghost use Rattle.smv_scope.specs.ItemTree.{numbered_tree, counted_from};
ghost use Rattle.smv_scope.specs.ModuleFaults.{AreRead, IsReadAfter, IsFirstModule, IsTold, told_if, formals_told, items_told, header_told};
ghost use Rattle.smv_scope.specs.ModuleFaults.{names_told, module_told, texts_of, trees_read, item_of_numbered};
ghost use Rattle.smv_scope.specs.SceneTree.{AreModules, module_from, named, module_entries, formal_entries, entries_of_item, item_entries};
ghost use Rattle.smv_scope.specs.SceneTree.{local_entries};

use crate::fault::{FlatFault, FlatRule};
use crate::items::{Item, ItemList, Numbered, number_after};
use base_values::Name;
use indexmap::IndexMap;
use smv_language::{Module, Program};
use std::alloc::Global;

/// What a name is in its own module: a formal or an item, by its place in the module's list of these.
#[derive(Clone, Copy)]
pub enum Local {
    Formal(usize),
    Item(usize),
}

/// A module with its items and its names.
#[derive(Drop)]
pub struct ModuleNames<'a> {
    pub module: &'a Module,
    pub items: Vec<Numbered<'a>>,
    pub locals: IndexMap<&'a [u8], Local>,
}

/// The modules of a program in written order, and the place of each name's module in it.
#[derive(Drop)]
pub struct Modules<'a> {
    pub program: &'a Program,
    pub list: Vec<ModuleNames<'a>>,
    pub places: IndexMap<&'a [u8], usize>,
    pub main: usize,
}

impl<'a> Modules<'a> {
    /// The modules of a program that breaks no rule from 2 to 4. The module `main` stands at a place.
    pub fn read(alloc: Global, p: &'a Program, main: usize) -> Result<Modules<'a>, FlatFault>
        requires main { module_from 0 (program_tree p.now) (codes "main") ≡ Some main }
        ensures modules { IfOk result AreModules }
        ensures program { IfOk result (λ modules. modules.program.now ≡ p.now) }
        ensures fault { IfErr result (IsFaultOf (program_tree p.now)) }
    {
        let mut modules = Modules {
            program: p,
            list: Vec::new(alloc),
            places: IndexMap::new(alloc),
            main,
        };
        let mut last = 0;
        for module in p.modules.as_slice() {
            last = modules.add(alloc, last, module)?;
        }
        Ok(modules)
    }

    /// The module of a name, with its place.
    pub fn find(&self, name: &Name) -> Option<(usize, &ModuleNames<'a>)>
        requires { AreModules self.now }
        ensures { IsFirstModule self.now name.now result }
    {
        match self.places.get(name.text()) {
            Some(place) => Some((*place, &self.list[*place])),
            None => None,
        }
    }

    /// Adds a module whose header comes after the item `last`; the answer is the module's last item.
    fn add(&mut self, alloc: Global, last: u32, module: &'a Module) -> Result<u32, FlatFault>
        requires { AreRead self.old last }
        ensures read { IfOk result (IsReadAfter self.old (module_tree «module».now) self.new) }
        ensures kept { OnOk result (module_told (trees_read self.old) (suc last) (module_tree «module».now) ≡ None) }
        ensures fault { IfErr result (IsTold (module_told (trees_read self.old) (suc last) (module_tree «module».now))) }
    {
        let header = number_after(last)?;
        self.add_place(header, module)?;
        let items = ItemList::of_module(alloc, header, module)?;
        let last = items.last_number();
        let names = ModuleNames::of_module(alloc, header, module, items.items)?;
        self.list.push(names)?;
        Ok(last)
    }

    /// Gives a module its place, after the rules of its header.
    fn add_place(&mut self, header: u32, module: &'a Module) -> Result<(), FlatFault>
        requires { named self.old.places.entries ≡ module_entries 0 (trees_read self.old) }
        ensures places { OnOk result (named self.new.places.entries
            ≡ named self.old.places.entries ++ («module».now.name, length self.old.list.items) ∷ []) }
        ensures list { self.new.list ≡ self.old.list }
        ensures program { self.new.program ≡ self.old.program }
        ensures main { self.new.main ≡ self.old.main }
        ensures kept { OnOk result (header_told (trees_read self.old) header (module_tree «module».now) ≡ None) }
        ensures fault { IfErr result (IsTold (header_told (trees_read self.old) header (module_tree «module».now))) }
    {
        if is_main_with_formals(module) {
            return Err(FlatFault {
                rule: FlatRule::MainHasParameters,
                item: header,
            });
        }
        let place = self.list.len();
        if self.places.insert(module.name.text(), place)?.is_some() {
            return Err(FlatFault {
                rule: FlatRule::DoubleModule,
                item: header,
            });
        }
        Ok(())
    }
}

impl<'a> ModuleNames<'a> {
    /// A module of these items with its names, none of which stands twice.
    fn of_module(
        alloc: Global,
        header: u32,
        module: &'a Module,
        items: Vec<Numbered<'a>>,
    ) -> Result<ModuleNames<'a>, FlatFault>
        requires { map numbered_tree items.items ≡ counted_from (suc header) (items_of (module_tree «module».now)) }
        ensures same { IfOk result (λ names. names.«module».now ≡ «module».now) }
        ensures items { IfOk result (λ names. names.items ≡ items.entry) }
        ensures locals { IfOk result (λ names. named names.locals.entries ≡ local_entries (module_tree «module».now)) }
        ensures kept { OnOk result (names_told header (module_tree «module».now) ≡ None) }
        ensures fault { IfErr result (IsTold (names_told header (module_tree «module».now))) }
    {
        let mut locals = IndexMap::new(alloc);
        declare_formals(&mut locals, header, module.formals.as_slice())?;
        declare_items(&mut locals, items.as_slice())?;
        Ok(ModuleNames {
            module,
            items,
            locals,
        })
    }
}

/// Declares the formals of a module, which stand at its header.
fn declare_formals<'a>(
    locals: &mut IndexMap<&'a [u8], Local>,
    header: u32,
    formals: &'a [Name],
) -> Result<(), FlatFault>
    ensures entries { OnOk result (named locals.new.entries ≡ named locals.old.entries ++ formal_entries 0 formals.now) }
    ensures kept { OnOk result (formals_told header (texts_of (named locals.old.entries)) formals.now ≡ None) }
    ensures fault { IfErr result (IsTold (formals_told header (texts_of (named locals.old.entries)) formals.now)) }
{
    for (k, formal) in formals.iter().enumerate() {
        declare(locals, header, formal.text(), Local::Formal(k))?;
    }
    Ok(())
}

/// Declares the names that items give.
fn declare_items<'a>(
    locals: &mut IndexMap<&'a [u8], Local>,
    items: &[Numbered<'a>],
) -> Result<(), FlatFault>
    ensures entries { OnOk result (named locals.new.entries ≡ named locals.old.entries ++ item_entries 0 (map item_of_numbered items.now)) }
    ensures kept { OnOk result (items_told (texts_of (named locals.old.entries)) (map numbered_tree items.now) ≡ None) }
    ensures fault { IfErr result (IsTold (items_told (texts_of (named locals.old.entries)) (map numbered_tree items.now))) }
{
    for (k, numbered) in items.iter().enumerate() {
        declare_item(locals, k, *numbered)?;
    }
    Ok(())
}

/// Declares the name that the item at a place gives, if it gives one.
fn declare_item<'a>(
    locals: &mut IndexMap<&'a [u8], Local>,
    place: usize,
    numbered: Numbered<'a>,
) -> Result<(), FlatFault>
    ensures entries { OnOk result (named locals.new.entries
        ≡ named locals.old.entries ++ entries_of_item place (item_of_numbered numbered.entry)) }
    ensures kept { OnOk result (told_if (is_name_again (texts_of (named locals.old.entries))
        (names_of_item (item_of_numbered numbered.entry))) double_name numbered.entry.number ≡ None) }
    ensures fault { IfErr result (IsTold (told_if (is_name_again (texts_of (named locals.old.entries))
        (names_of_item (item_of_numbered numbered.entry))) double_name numbered.entry.number)) }
{
    let number = numbered.number;
    match numbered.item {
        Item::Declared(_, decl) => declare(locals, number, decl.name.text(), Local::Item(place)),
        Item::Defined(define) => declare(locals, number, define.name.text(), Local::Item(place)),
        Item::Assigned(_) | Item::Constants(_) | Item::Init(_) | Item::Invar(_) | Item::Trans(_) =>
            Ok(()),
    }
}

/// Declares a name, which an item gives and none before it.
fn declare<'a>(
    locals: &mut IndexMap<&'a [u8], Local>,
    item: u32,
    name: &'a [u8],
    local: Local,
) -> Result<(), FlatFault>
    ensures entries { OnOk result (named locals.new.entries ≡ named locals.old.entries ++ (name.now, local) ∷ []) }
    ensures kept { OnOk result (told_if (is_among (texts_of (named locals.old.entries)) name.now) double_name item ≡ None) }
    ensures fault { IfErr result (IsTold (told_if (is_among (texts_of (named locals.old.entries)) name.now) double_name item)) }
{
    if locals.insert(name, local)?.is_some() {
        return Err(FlatFault {
            rule: FlatRule::DoubleName,
            item,
        });
    }
    Ok(())
}

/// The place of the first module called `main`.
#[tactic(auto, using(crate::proofs::MainLaws::found_at, crate::proofs::MainLaws::skipped_at))]
pub fn main_place(modules: &[Module]) -> Option<usize>
    ensures place { result ≡ module_from 0 (map module_tree modules.now) (codes "main") }
{
    for (k, module) in modules.iter().enumerate() {
        if is_main(&module.name) {
            return Some(k);
        }
    }
    None
}

/// Whether a module is `main` and has formals.
fn is_main_with_formals(module: &Module) -> bool
    ensures { result ≡ (same_text «module».now.name (codes "main") && has_formals «module».now.formals) }
{
    is_main(&module.name) && !module.formals.is_empty()
}

/// Whether a name is `main`.
fn is_main(name: &Name) -> bool
    ensures { IsTrue result ↔ (name.now ≡ codes "main") }
{
    name.text() == b"main".as_slice()
}
