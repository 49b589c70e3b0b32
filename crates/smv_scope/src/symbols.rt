//! The symbols of a program: the members of types and the names in CONSTANTS, of all modules, each once.
//! [`symbols_of`] gathers them as texts that are borrowed from the program, by whose places a look-up finds a symbol's
//! number, and [`symbol_names`] copies them for the flat model.
ghost use Rattle.std.specs.Prelude.{◌≡◌, [], ◌∷◌, flat_map, IfOk, OnOk};
ghost use Rattle.smv_flat_laws.specs.Model.{first_appearances, symbols_of_members, symbols_of_item};
ghost use Rattle.smv_scope.specs.ItemTree.{item_tree};
ghost use Rattle.smv_scope.specs.Symbols.{symbols_in, symbols_of_numbered};
ghost use Rattle.smv_language.specs.BorrowedTexts.{texts};

use crate::items::{Item, Numbered};
use crate::modules::Modules;
use base_values::{Items, Name, NameList, OutOfMemory};
use indexmap::IndexSet;
use smv_language::{Declared, Member};
use std::alloc::Global;

/// The symbols in order of first appearance as a member of a type or in CONSTANTS, over the whole text.
pub fn symbols_of<'a>(
    alloc: Global,
    modules: &Modules<'a>,
) -> Result<IndexSet<&'a [u8]>, OutOfMemory>
    ensures { IfOk result (λ symbols. texts symbols.keys ≡ first_appearances [] (flat_map symbols_in modules.now.list.items)) }
{
    let mut symbols = IndexSet::new(alloc);
    for names in modules.list.as_slice() {
        add_of_items(&mut symbols, names.items.as_slice())?;
    }
    Ok(symbols)
}

/// Adds the symbols of items, in their order.
fn add_of_items<'a>(
    symbols: &mut IndexSet<&'a [u8]>,
    items: &[Numbered<'a>],
) -> Result<(), OutOfMemory>
    ensures { OnOk result (texts symbols.new.keys ≡ first_appearances (texts symbols.old.keys) (flat_map symbols_of_numbered items.now)) }
{
    for numbered in items {
        add_of_item(symbols, numbered.item)?;
    }
    Ok(())
}

/// Adds the symbols of an item: those of CONSTANTS and the members of a type.
fn add_of_item<'a>(symbols: &mut IndexSet<&'a [u8]>, item: Item<'a>) -> Result<(), OutOfMemory>
    ensures { OnOk result (texts symbols.new.keys ≡ first_appearances (texts symbols.old.keys) (symbols_of_item (item_tree item.entry))) }
{
    match item {
        Item::Constants(names) => add_names(symbols, names.as_slice()),
        Item::Declared(_, decl) => match &decl.what {
            Declared::Members(members) => add_members(symbols, members.as_slice()),
            _ => Ok(()),
        },
        _ => Ok(()),
    }
}

/// Adds the symbols of CONSTANTS.
fn add_names<'a>(symbols: &mut IndexSet<&'a [u8]>, names: &'a [Name]) -> Result<(), OutOfMemory>
    ensures { OnOk result (texts symbols.new.keys ≡ first_appearances (texts symbols.old.keys) names.now) }
{
    for name in names {
        add_name(symbols, name)?;
    }
    Ok(())
}

/// Adds a symbol, unless it is there.
fn add_name<'a>(symbols: &mut IndexSet<&'a [u8]>, name: &'a Name) -> Result<(), OutOfMemory>
    ensures { OnOk result (texts symbols.new.keys ≡ first_appearances (texts symbols.old.keys) (name.now ∷ [])) }
{
    symbols.insert(name.text())?;
    Ok(())
}

/// Adds the members of a type that are symbols.
fn add_members<'a>(
    symbols: &mut IndexSet<&'a [u8]>,
    members: &'a [Member],
) -> Result<(), OutOfMemory>
    ensures { OnOk result (texts symbols.new.keys ≡ first_appearances (texts symbols.old.keys) (symbols_of_members members.now)) }
{
    for member in members {
        if let Member::Symbol(name) = member {
            add_name(symbols, name)?;
        }
    }
    Ok(())
}

/// The symbols as names of their own.
pub fn symbol_names(alloc: Global, symbols: &IndexSet<&[u8]>) -> Result<NameList, OutOfMemory>
    ensures { IfOk result (λ names. names ≡ texts symbols.now.keys) }
{
    let mut names = Items::new(alloc);
    for text in symbols.as_slice() {
        names.push(Name::new(alloc, *text)?)?;
    }
    Ok(names)
}
