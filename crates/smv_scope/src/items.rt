//! The items of a module, numbered as in the whole program. [`ItemList::of_module`] is the main function: the modules are
//! read in written order, and each goes on with the numbers of the one before it. By these numbers faults tell where they are.
ghost use Rattle.std.specs.Prelude.{◌≡◌, ◌+◌, ◌^◌, ◌<◌, [], ◌∷◌, map, IfOk, IsOk, OnOk};
ghost use Rattle.smv_language.specs.ProgramTree.{module_tree, section_tree, decl_tree, define_tree, assignment_tree};
ghost use Rattle.smv_flat_laws.specs.Items.{items_of, items_of_section, a_declaration, a_definition, an_assignment};
ghost use Rattle.smv_language.specs.ModelTree.{role_of};
ghost use Rattle.smv_scope.specs.ItemTree.{item_tree, counted_of, with_items, counted_below};

use base_values::{Dotted, NameList, OutOfMemory};
use smv_language::model::Role;
use smv_language::{Assignment, Decl, Define, Expr, Module, Section};
use std::alloc::Global;

/// What an item is. Of the assignments, defines and declarations of a section each is one; every other
/// section is one item as a whole.
#[derive(Clone, Copy)]
pub enum Item<'a> {
    Declared(Role, &'a Decl),
    Defined(&'a Define),
    Assigned(&'a Assignment),
    Constants(&'a NameList),
    Init(&'a Expr<Dotted>),
    Invar(&'a Expr<Dotted>),
    Trans(&'a Expr<Dotted>),
}

/// An item and its number.
#[derive(Clone, Copy)]
pub struct Numbered<'a> {
    pub number: u32,
    pub item: Item<'a>,
}

/// Items with numbers that go on from the last one that was given.
#[derive(Drop)]
pub struct ItemList<'a> {
    pub items: Vec<Numbered<'a>>,
    last: u32,
}

impl<'a> ItemList<'a> {
    /// The items of a module whose header has the number `header`.
    pub fn of_module(
        alloc: Global,
        header: u32,
        module: &'a Module,
    ) -> Result<ItemList<'a>, OutOfMemory>
        ensures { IfOk result (λ list. counted_of list ≡ counted_below header (items_of (module_tree «module».now))) }
    {
        let mut list = ItemList {
            items: Vec::new(alloc),
            last: header,
        };
        for section in module.sections.as_slice() {
            list.add_section(section)?;
        }
        Ok(list)
    }

    /// The number of the last item, or the header's where there is none.
    pub fn last_number(&self) -> u32
        ensures { result ≡ self.now.last }
    {
        self.last
    }

    /// Adds an item with the next number.
    fn add(&mut self, item: Item<'a>) -> Result<(), OutOfMemory>
        ensures { OnOk result (counted_of self.new ≡ with_items (counted_of self.old) (item_tree item.entry ∷ [])) }
    {
        let number = number_after(self.last)?;
        self.items.push(Numbered { number, item })?;
        self.last = number;
        Ok(())
    }

    /// Adds the items of a section.
    fn add_section(&mut self, section: &'a Section) -> Result<(), OutOfMemory>
        ensures { OnOk result (counted_of self.new ≡ with_items (counted_of self.old) (items_of_section (section_tree section.now))) }
    {
        match section {
            Section::Var(list) => self.add_decls(Role::State, list.as_slice()),
            Section::Ivar(list) => self.add_decls(Role::Input, list.as_slice()),
            Section::Frozen(list) => self.add_decls(Role::Frozen, list.as_slice()),
            Section::Define(list) => self.add_defines(list.as_slice()),
            Section::Constants(names) => self.add(Item::Constants(names)),
            Section::Assign(list) => self.add_assignments(list.as_slice()),
            Section::Init(e) => self.add(Item::Init(e)),
            Section::Invar(e) => self.add(Item::Invar(e)),
            Section::Trans(e) => self.add(Item::Trans(e)),
        }
    }

    /// Adds the declarations of a section, whose variables have this role.
    fn add_decls(&mut self, role: Role, decls: &'a [Decl]) -> Result<(), OutOfMemory>
        ensures { OnOk result (counted_of self.new
            ≡ with_items (counted_of self.old) (map (a_declaration (role_of role)) (map decl_tree decls.now))) }
    {
        for decl in decls {
            self.add(Item::Declared(role, decl))?;
        }
        Ok(())
    }

    /// Adds the definitions of a section.
    fn add_defines(&mut self, defines: &'a [Define]) -> Result<(), OutOfMemory>
        ensures { OnOk result (counted_of self.new ≡ with_items (counted_of self.old) (map a_definition (map define_tree defines.now))) }
    {
        for define in defines {
            self.add(Item::Defined(define))?;
        }
        Ok(())
    }

    /// Adds the assignments of a section.
    fn add_assignments(&mut self, assignments: &'a [Assignment]) -> Result<(), OutOfMemory>
        ensures { OnOk result (counted_of self.new
            ≡ with_items (counted_of self.old) (map an_assignment (map assignment_tree assignments.now))) }
    {
        for assignment in assignments {
            self.add(Item::Assigned(assignment))?;
        }
        Ok(())
    }
}

/// The number after another one. A list that passes the numbers of 32 bits counts as want of memory.
pub fn number_after(number: u32) -> Result<u32, OutOfMemory>
    ensures next { IfOk result (λ after. after ≡ number + 1) }
    ensures fits { number + 1 < 2 ^ 32 → IsOk result }
{
    number.checked_add(1).ok_or(OutOfMemory)
}

/// A place in a list as a number of 32 bits. A longer list counts as want of memory.
pub fn number_of(place: usize) -> Result<u32, OutOfMemory>
    ensures same { IfOk result (λ number. number ≡ place) }
    ensures fits { place < 2 ^ 32 → IsOk result }
{
    u32::try_from(place).map_err(|_too_large| OutOfMemory)
}
